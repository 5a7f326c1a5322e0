//! A thread that asks for a safepoint, has it, and ends it.
ghost use Rattle.std.specs.Prelude.{◌≡◌, false};
ghost use Rattle.mark_word.specs.Safe.{read_safe};
ghost use Rattle.core_world.specs.Trees.SafepointSteps.{request_steps, request_swap_steps, reached_steps, safepoint_steps};
ghost use Rattle.core_world.specs.Trees.SafepointSteps.{release_safepoint, release_to, halt_steps};
ghost use Rattle.heap_table.specs.Parts.{IsDueOn, HasMadeSteps};
ghost use Rattle.heap_table.specs.Seen.{IsOf};

use crate::words::{
    halted_word, has_requester, is_still, reached_word, released_word, requested_by,
};
use core_world::{PendingCause, Progress, Stage, WordId};
use heap_table::{CallContext, Heap, Pass, safe_of_word};
use mark_word::SafeForm;

// The context of a step after which no check is unfinished.
#[inline]
fn unchecked(call: &CallContext) -> CallContext
    ensures { result ≡ record call.now { check = false } }
{
    CallContext {
        task: call.task,
        unfinished: call.unfinished,
        check: false,
    }
}

/// Asks for a safepoint: in one exchange the thread, which runs, stops and becomes the requester. A check that `call`
/// names is unfinished from then on.
///
/// Pending, the thread runs on, and nothing was changed: `Requested { word }` says that a word that was loaded, or that
/// the exchange found, has a requester, and `Raced { expected, found }` that the exchange found another word with none.
///
/// In OpenJDK 8: `VMThread::execute` (`vmThread.cpp`) and the beginning of `SafepointSynchronize::begin`
/// (`safepoint.cpp`). There the VM thread carries the operation out.
pub fn request(heap: &Heap, pass: &mut Pass, call: &CallContext) -> Progress<()>
    requires heap { IsOf heap.now pass.old }
    requires due { IsDueOn heap.now pass.old call.now.task (request_steps call.now pass.old.known.thread) }
    ensures { HasMadeSteps heap.now (request_steps call.now pass.old.known.thread) pass.old pass.new result }
{
    let (word, form) = heap.look(pass, &unchecked(call));
    if has_requester(form) {
        return Progress::Pending(PendingCause::Requested { word });
    }
    request_from(heap, pass, call, word, form)
}

// The exchange of a request, where the loaded word has this form.
fn request_from(
    heap: &Heap,
    pass: &mut Pass,
    call: &CallContext,
    word: u64,
    form: Option<SafeForm>,
) -> Progress<()>
    requires form { form ≡ read_safe word }
    requires heap { IsOf heap.now pass.old }
    requires due { IsDueOn heap.now pass.old call.now.task (request_swap_steps call.now pass.old.known.thread word) }
    ensures { HasMadeSteps heap.now (request_swap_steps call.now pass.old.known.thread word) pass.old pass.new result }
{
    let left = requested_by(form, pass.thread());
    let found = heap.exchange(pass, call, Stage::Settled, WordId::Safepoint, word, left);
    if found == word {
        return Progress::Done(());
    }
    if has_requester(safe_of_word(found)) {
        Progress::Pending(PendingCause::Requested { word: found })
    } else {
        Progress::Pending(PendingCause::Raced {
            expected: word,
            found,
        })
    }
}

/// Looks whether the thread that asked has its safepoint: `Done` says that by the loaded word no thread runs, and
/// `Pending(Stopping { word })` that by this `word` one still does. The request stands either way.
///
/// In OpenJDK 8: the part of `SafepointSynchronize::begin` (`safepoint.cpp`) that waits until no thread runs.
pub fn reached(heap: &Heap, pass: &mut Pass, call: &CallContext) -> Progress<()>
    requires heap { IsOf heap.now pass.old }
    requires due { IsDueOn heap.now pass.old call.now.task (reached_steps call.now) }
    ensures { HasMadeSteps heap.now (reached_steps call.now) pass.old pass.new result }
{
    let (word, form) = heap.look(pass, call);
    if is_still(form) {
        Progress::Done(())
    } else {
        Progress::Pending(PendingCause::Stopping { word })
    }
}

/// Asks for a safepoint, unless the thread's request stands, as `requesting` says, and looks whether it has it.
///
/// Pending as `request` is, the thread runs on. Pending as `reached` is, its request stands.
///
/// In OpenJDK 8: `SafepointSynchronize::begin` (`safepoint.cpp`).
pub fn safepoint(heap: &Heap, pass: &mut Pass, call: &CallContext, requesting: bool) -> Progress<()>
    requires heap { IsOf heap.now pass.old }
    requires due { IsDueOn heap.now pass.old call.now.task (safepoint_steps call.now pass.old.known.thread requesting) }
    ensures { HasMadeSteps heap.now (safepoint_steps call.now pass.old.known.thread requesting)
        pass.old pass.new result }
{
    if requesting {
        return reached(heap, pass, call);
    }
    match request(heap, pass, call) {
        Progress::Done(()) => reached(heap, pass, call),
        Progress::Pending(cause) => Progress::Pending(cause),
    }
}

/// Ends the thread's safepoint by one exchange, which can't miss: nobody asks, and the thread alone runs, at this stage.
/// No check is unfinished any longer.
///
/// In OpenJDK 8: `SafepointSynchronize::end` (`safepoint.cpp`).
pub fn release_to(heap: &Heap, pass: &mut Pass, call: &CallContext, stage: Stage)
    requires heap { IsOf heap.now pass.old }
    requires due { IsDueOn heap.now pass.old call.now.task (release_to stage call.now pass.old.known.thread) }
    ensures { HasMadeSteps heap.now (release_to stage call.now pass.old.known.thread) pass.old pass.new result }
{
    let thread = pass.thread();
    let expected = reached_word(thread);
    let word = released_word(thread);
    heap.exchange(
        pass,
        &unchecked(call),
        stage,
        WordId::Safepoint,
        expected,
        word,
    );
}

/// Ends the thread's safepoint, and leaves the thread in the middle of nothing.
///
/// In OpenJDK 8: `SafepointSynchronize::end` (`safepoint.cpp`).
#[inline]
pub fn release(heap: &Heap, pass: &mut Pass, call: &CallContext)
    requires heap { IsOf heap.now pass.old }
    requires due { IsDueOn heap.now pass.old call.now.task (release_safepoint call.now pass.old.known.thread) }
    ensures { HasMadeSteps heap.now (release_safepoint call.now pass.old.known.thread) pass.old pass.new result }
{
    release_to(heap, pass, call, Stage::Settled)
}

/// Halts the run at the thread's safepoint, by one exchange, which can't miss: the request is gone, no thread runs, and
/// none will. No check is unfinished any longer.
///
/// In OpenJDK 8: nothing.
pub fn halt(heap: &Heap, pass: &mut Pass, call: &CallContext)
    requires heap { IsOf heap.now pass.old }
    requires due { IsDueOn heap.now pass.old call.now.task (halt_steps call.now pass.old.known.thread) }
    ensures { HasMadeSteps heap.now (halt_steps call.now pass.old.known.thread) pass.old pass.new result }
{
    let expected = reached_word(pass.thread());
    let word = halted_word();
    heap.exchange(
        pass,
        &unchecked(call),
        Stage::Settled,
        WordId::Safepoint,
        expected,
        word,
    );
}
