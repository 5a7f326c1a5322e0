//! Threads that poll, stop and go on.
ghost use Rattle.std.specs.Prelude.{◌≡◌};
ghost use Rattle.mark_word.specs.Safe.{read_safe};
ghost use Rattle.core_world.specs.Threads.ThreadView.{local_of};
ghost use Rattle.core_world.specs.Trees.SafepointSteps.{poll_steps, stop_steps, resume_steps, resume_swap_steps};
ghost use Rattle.heap_table.specs.Parts.{IsDueOn, HasMadeSteps};
ghost use Rattle.heap_table.specs.Seen.{IsOf};

use crate::words::{all_but, bar, has_requester, running_too};
use core_world::{PendingCause, Progress, Stage, WordId};
use heap_table::{CallContext, Heap, Pass, safe_of_word};
use mark_word::SafeForm;

/// Looks whether a thread asks for a safepoint.
///
/// `Pending(Requested { word })` says that the loaded `word` names one that does. `Done` says that it names none. The
/// thread runs on either way; where it is pending, it is to stop.
///
/// In OpenJDK 8: the polling page, and the look of `SafepointSynchronize::block` (`safepoint.cpp`).
#[inline(always)]
pub fn poll(heap: &Heap, pass: &mut Pass, call: &CallContext) -> Progress<()>
    requires heap { IsOf heap.now pass.old }
    requires due { IsDueOn heap.now pass.old call.now.task (poll_steps call.now) }
    requires same { (call.now.unfinished ≡ pass.old.known.unfinished) × (call.now.check ≡ pass.old.known.checking) }
    ensures { HasMadeSteps heap.now (poll_steps call.now) pass.old pass.new result }
{
    let (word, form) = heap.look_in_passing(pass, call);
    if has_requester(form) {
        Progress::Pending(PendingCause::Requested { word })
    } else {
        Progress::Done(())
    }
}

/// Publishes the length of the log, and then clears the thread's bit: the thread is stopped, and whoever has a
/// safepoint from here on can read its log.
///
/// In OpenJDK 8: `SafepointSynchronize::block` (`safepoint.cpp`), where it counts its thread as safe.
#[inline]
pub fn stop(heap: &Heap, pass: &mut Pass, call: &CallContext)
    requires heap { IsOf heap.now pass.old }
    requires due { IsDueOn heap.now pass.old call.now.task (stop_steps call.now (local_of pass.old.known)) }
    ensures { HasMadeSteps heap.now (stop_steps call.now (local_of pass.old.known)) pass.old pass.new result }
{
    let thread = pass.thread();
    let length = pass.length();
    let published = WordId::Length { thread };
    heap.store(pass, call, Stage::Settled, published, length);
    heap.mask(pass, call, WordId::Safepoint, all_but(thread));
}

/// Sets the bit of a thread that is stopped, where nobody asks for a safepoint and the run isn't halted.
///
/// Pending, the thread is stopped as before, and nothing was changed: `Halted` and `Requested { word }` say that a word
/// that was loaded, or that the exchange found, has the halt, or a requester, and `Raced { expected, found }` that the
/// exchange found another word with neither.
///
/// In OpenJDK 8: `SafepointSynchronize::block` (`safepoint.cpp`), where its thread goes on.
pub fn resume(heap: &Heap, pass: &mut Pass, call: &CallContext) -> Progress<()>
    requires heap { IsOf heap.now pass.old }
    requires due { IsDueOn heap.now pass.old call.now.task (resume_steps call.now (local_of pass.old.known)) }
    ensures { HasMadeSteps heap.now (resume_steps call.now (local_of pass.old.known)) pass.old pass.new result }
{
    let (word, form) = heap.look(pass, call);
    match bar(word, form) {
        Some(cause) => Progress::Pending(cause),
        None => resume_from(heap, pass, call, word, form),
    }
}

// The exchange of a resume, where the loaded word has this form.
fn resume_from(
    heap: &Heap,
    pass: &mut Pass,
    call: &CallContext,
    word: u64,
    form: Option<SafeForm>,
) -> Progress<()>
    requires form { form ≡ read_safe word }
    requires heap { IsOf heap.now pass.old }
    requires due { IsDueOn heap.now pass.old call.now.task (resume_swap_steps call.now (local_of pass.old.known) word) }
    ensures { HasMadeSteps heap.now (resume_swap_steps call.now (local_of pass.old.known) word)
        pass.old pass.new result }
{
    let left = running_too(word, form, pass.thread());
    let found = heap.exchange(pass, call, Stage::Settled, WordId::Safepoint, word, left);
    if found == word {
        return Progress::Done(());
    }
    match bar(found, safe_of_word(found)) {
        Some(cause) => Progress::Pending(cause),
        None => Progress::Pending(PendingCause::Raced {
            expected: word,
            found,
        }),
    }
}
