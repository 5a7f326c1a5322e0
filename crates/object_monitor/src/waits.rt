//! How a thread that owns a monitor waits, and takes the monitor again.
ghost use Rattle.std.specs.Prelude.{◌≡◌, ◌<◌, length, Some};
ghost use Rattle.core_world.specs.Threads.ThreadView.{local_of};
ghost use Rattle.core_world.specs.Trees.WaitSteps.{resumed_steps, resume_owner_at, resume_owner_steps, monitor_resume_steps};
ghost use Rattle.core_world.specs.Trees.WaitSteps.{monitor_wait_steps, publish_steps};
ghost use Rattle.heap_table.specs.Parts.{IsDueOn, HasMadeSteps};
ghost use Rattle.heap_table.specs.Seen.{IsOf};
ghost use Rattle.object_monitor.specs.inner.WaitParts.{marked_resume, stamped_wait, quit_steps, owned_wait};

use crate::exits::own;
use core_world::{LocalEffect, PendingCause, Progress, Stage, WordId};
use heap_table::{CallContext, Heap, Pass, mark_of_word, owner_of_word, wait_of_word};
use mark_word::{MarkForm, OwnerForm, WaitForm, encode_owner, encode_wait};
use plain_monitor::Entry;

// The monitor is the thread's again: it gets the saved recursions, the thread waits no more, and the Resume is logged,
// by a load of the object's stamp.
fn finish_resume(
    heap: &Heap,
    pass: &mut Pass,
    call: &CallContext,
    saved: u64,
    object: u32,
    monitor: u32,
) -> Progress<()>
    requires heap { IsOf heap.now pass.old }
    requires due { IsDueOn heap.now pass.old call.now.task
        (resumed_steps call.now pass.old.known.thread saved object monitor) }
    requires room { length pass.old.known.log < pass.old.limit }
    ensures { HasMadeSteps heap.now (resumed_steps call.now pass.old.known.thread saved object monitor)
        pass.old pass.new result }
{
    let stage = Stage::Resumes { object };
    heap.store(pass, call, stage, WordId::Recursions { monitor }, saved);
    let at = WordId::Waiting {
        thread: pass.thread(),
    };
    let word = encode_wait(&WaitForm::Ready);
    heap.store(pass, call, stage, at, word);
    heap.log_load(
        pass,
        call,
        WordId::Stamp { object },
        Entry::Resume { object },
    );
    Progress::Done(())
}

// Whom the owner word `found` names: where it is nobody, the exchange took the monitor.
fn resume_by(
    heap: &Heap,
    pass: &mut Pass,
    call: &CallContext,
    saved: u64,
    object: u32,
    monitor: u32,
    found: u64,
    form: OwnerForm,
) -> Progress<()>
    requires heap { IsOf heap.now pass.old }
    requires due { IsDueOn heap.now pass.old call.now.task
        (resume_owner_at (Some form) call.now pass.old.known.thread saved object monitor found) }
    requires room { length pass.old.known.log < pass.old.limit }
    ensures { HasMadeSteps heap.now (resume_owner_at (Some form) call.now pass.old.known.thread saved object monitor found)
        pass.old pass.new result }
{
    match form {
        OwnerForm::Free => finish_resume(heap, pass, call, saved, object, monitor),
        _ => Progress::Pending(PendingCause::Owned { word: found }),
    }
}

// The thread was notified, and the object's mark names this monitor: its owner word is exchanged from Free.
fn resume_owner(
    heap: &Heap,
    pass: &mut Pass,
    call: &CallContext,
    saved: u64,
    object: u32,
    monitor: u32,
) -> Progress<()>
    requires heap { IsOf heap.now pass.old }
    requires due { IsDueOn heap.now pass.old call.now.task
        (resume_owner_steps call.now pass.old.known.thread saved object monitor) }
    requires room { length pass.old.known.log < pass.old.limit }
    ensures { HasMadeSteps heap.now (resume_owner_steps call.now pass.old.known.thread saved object monitor)
        pass.old pass.new result }
{
    let thread = pass.thread();
    let stage = Stage::Resumes { object };
    let at = WordId::Owner { monitor };
    let free = encode_owner(&OwnerForm::Free);
    let word = encode_owner(&OwnerForm::ByThread { thread });
    let found = heap.exchange(pass, call, stage, at, free, word);
    match owner_of_word(found) {
        Some(form) => resume_by(heap, pass, call, saved, object, monitor, found, form),
        None => unreachable!(),
    }
}

// The thread was notified: the object's mark names the monitor.
fn resume_mark(
    heap: &Heap,
    pass: &mut Pass,
    call: &CallContext,
    saved: u64,
    object: u32,
) -> Progress<()>
    requires heap { IsOf heap.now pass.old }
    requires due { IsDueOn heap.now pass.old call.now.task
        (marked_resume call.now pass.old.known.thread saved object) }
    requires room { length pass.old.known.log < pass.old.limit }
    ensures { HasMadeSteps heap.now (marked_resume call.now pass.old.known.thread saved object)
        pass.old pass.new result }
{
    let mark = heap.load(pass, call, Stage::Settled, WordId::Mark { object });
    match mark_of_word(mark) {
        Some(form) => match form {
            MarkForm::Inflated { monitor } => resume_owner(
                heap, pass, call, saved, object, monitor,
            ),
            _ => unreachable!(),
        },
        None => unreachable!(),
    }
}

/// Ends the wait on the object of a thread that let go of the monitor, in the same call or in a later one. The object's
/// mark names the monitor still.
///
/// `Done(())` says that the thread owns the monitor again, with the saved recursions, that it waits no more, and that
/// the Resume is logged.
/// `Pending(NotNotified { word })` says that nobody has notified the thread: its waiting word is `word` still.
/// `Pending(Owned { word })` says that the thread was notified, and that another thread owns the monitor, by the owner
/// word `word`. In these two nothing was stored and nothing logged.
///
/// In OpenJDK 8: the end of `ObjectMonitor::wait` (`objectMonitor.cpp`): `ReenterI` or `enter`, and `_recursions =
/// save`.
pub fn monitor_resume(
    heap: &Heap,
    pass: &mut Pass,
    call: &CallContext,
    saved: u64,
    object: u32,
) -> Progress<()>
    requires heap { IsOf heap.now pass.old }
    requires due { IsDueOn heap.now pass.old call.now.task
        (monitor_resume_steps call.now pass.old.known.thread saved object) }
    requires room { length pass.old.known.log < pass.old.limit }
    ensures { HasMadeSteps heap.now (monitor_resume_steps call.now pass.old.known.thread saved object)
        pass.old pass.new result }
{
    let at = WordId::Waiting {
        thread: pass.thread(),
    };
    let word = heap.load(pass, call, Stage::Settled, at);
    match wait_of_word(word) {
        Some(form) => match form {
            WaitForm::Waiting { .. } => Progress::Pending(PendingCause::NotNotified { word }),
            WaitForm::Notified { .. } => resume_mark(heap, pass, call, saved, object),
            _ => unreachable!(),
        },
        None => unreachable!(),
    }
}

// Raises the object's stamp to that of the thread's next entry, which is the Wait: the waiting word has the same stamp,
// and its store logs the Wait. The operation is unfinished still.
fn log_wait(heap: &Heap, pass: &mut Pass, call: &CallContext, object: u32)
    requires heap { IsOf heap.now pass.old }
    requires object { object < length heap.now.heap.shape.objects }
    requires due { IsDueOn heap.now pass.old call.now.task (stamped_wait call.now (local_of pass.old.known) object) }
    requires room { length pass.old.known.log < pass.old.limit }
    ensures { HasMadeSteps heap.now (stamped_wait call.now (local_of pass.old.known) object) pass.old pass.new result }
{
    let stamp = pass.last_stamp() + 1;
    heap.raise(pass, call, WordId::Stamp { object }, stamp);
    let at = WordId::Waiting {
        thread: pass.thread(),
    };
    let word = encode_wait(&WaitForm::Waiting { object, stamp });
    let stage = Stage::Waits { object };
    heap.log_store_within(pass, call, stage, at, word, Entry::Wait { object });
}

// The recursions of the monitor become 0, and then its owner word Free.
fn quit(heap: &Heap, pass: &mut Pass, call: &CallContext, object: u32, monitor: u32)
    requires heap { IsOf heap.now pass.old }
    requires due { IsDueOn heap.now pass.old call.now.task (quit_steps call.now object monitor) }
    ensures { HasMadeSteps heap.now (quit_steps call.now object monitor) pass.old pass.new result }
{
    let stage = Stage::Waits { object };
    heap.store(pass, call, stage, WordId::Recursions { monitor }, 0);
    let free = encode_owner(&OwnerForm::Free);
    heap.store(pass, call, Stage::Settled, WordId::Owner { monitor }, free);
}

// The thread itself owns the monitor: it keeps the recursions, logs the Wait, and lets the monitor go.
fn wait_owned(heap: &Heap, pass: &mut Pass, call: &CallContext, object: u32, monitor: u32) -> u64
    requires heap { IsOf heap.now pass.old }
    requires object { object < length heap.now.heap.shape.objects }
    requires due { IsDueOn heap.now pass.old call.now.task
        (owned_wait call.now (local_of pass.old.known) object monitor) }
    requires room { length pass.old.known.log < pass.old.limit }
    ensures { HasMadeSteps heap.now (owned_wait call.now (local_of pass.old.known) object monitor)
        pass.old pass.new result }
{
    let at = WordId::Recursions { monitor };
    let recursions = heap.load_and_keep(pass, call, LocalEffect::SaveRecursions, at);
    log_wait(heap, pass, call, object);
    quit(heap, pass, call, object, monitor);
    recursions
}

/// Begins a wait on the object, whose mark names this monitor, by the thread that owns it.
///
/// The Wait is logged, the thread's waiting word says that it waits since the stamp of that entry, and the monitor is
/// free, whatever the count of the thread's holds, which it keeps. The recursions that the monitor had are answered, and
/// the thread keeps them as those to be restored. Where a lock record of the thread was the owner, the thread itself
/// became it before, with no recursions. The operation is unfinished still: `monitor_resume` ends it.
///
/// In OpenJDK 8: the beginning of `ObjectMonitor::wait` (`objectMonitor.cpp`), up to its `exit`.
pub fn monitor_wait(
    heap: &Heap,
    pass: &mut Pass,
    call: &CallContext,
    object: u32,
    monitor: u32,
) -> u64
    requires heap { IsOf heap.now pass.old }
    requires object { object < length heap.now.heap.shape.objects }
    requires due { IsDueOn heap.now pass.old call.now.task
        (monitor_wait_steps call.now (local_of pass.old.known) object monitor) }
    requires room { length pass.old.known.log < pass.old.limit }
    ensures { HasMadeSteps heap.now (monitor_wait_steps call.now (local_of pass.old.known) object monitor)
        pass.old pass.new result }
{
    let owner = heap.load(pass, call, Stage::Settled, WordId::Owner { monitor });
    match owner_of_word(owner) {
        Some(form) => {
            own(heap, pass, call, object, monitor, form);
            wait_owned(heap, pass, call, object, monitor)
        }
        None => unreachable!(),
    }
}

/// Logs this entry and ends the operation, by the store of the length of the thread's log with one entry more.
///
/// In OpenJDK 8: nothing.
pub fn publish(heap: &Heap, pass: &mut Pass, call: &CallContext, entry: Entry)
    requires heap { IsOf heap.now pass.old }
    requires due { IsDueOn heap.now pass.old call.now.task (publish_steps entry call.now (local_of pass.old.known)) }
    requires room { length pass.old.known.log < pass.old.limit }
    ensures { HasMadeSteps heap.now (publish_steps entry call.now (local_of pass.old.known)) pass.old pass.new result }
{
    let at = WordId::Length {
        thread: pass.thread(),
    };
    let length = pass.length() + 1;
    heap.log_store(pass, call, Stage::Settled, at, length, entry);
}
