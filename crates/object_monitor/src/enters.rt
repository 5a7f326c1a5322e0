//! How a thread takes a hold by the monitor.
ghost use Rattle.std.specs.Prelude.{◌≡◌, ◌<◌, length, Some};
ghost use Rattle.core_world.specs.Threads.ThreadView.{local_of};
ghost use Rattle.core_world.specs.Trees.MonitorSteps.{record_steps, owned_steps, monitor_again_steps, monitor_own_steps};
ghost use Rattle.core_world.specs.Trees.MonitorSteps.{monitor_enter_at, monitor_enter_steps};
ghost use Rattle.mark_word.specs.Owner.{read_owner};
ghost use Rattle.heap_table.specs.Parts.{IsDueOn, HasMadeSteps};
ghost use Rattle.heap_table.specs.Seen.{IsOf};

use core_world::{PendingCause, Progress, Stage, WordId};
use heap_table::{CallContext, Heap, Pass, owner_of_word};
use mark_word::{OwnerForm, WaitForm, encode_owner, encode_wait};
use plain_monitor::Path;
use stack_lock::{free_place, hold};

// The displaced word 3 of the new record says that its hold goes by the monitor.
fn push_record(
    heap: &Heap,
    pass: &mut Pass,
    call: &CallContext,
    stage: Stage,
    object: u32,
    path: Path,
) -> Progress<Path>
    requires heap { IsOf heap.now pass.old }
    requires object { object < length heap.now.heap.shape.objects }
    requires due { IsDueOn heap.now pass.old call.now.task
        (record_steps call.now stage (local_of pass.old.known) object path) }
    requires room { length pass.old.known.log < pass.old.limit }
    ensures { HasMadeSteps heap.now (record_steps call.now stage (local_of pass.old.known) object path)
        pass.old pass.new result }
{
    let at = WordId::Displaced {
        thread: pass.thread(),
        place: free_place(pass),
    };
    heap.store(pass, call, stage, at, 3);
    Progress::Done(hold(heap, pass, call, object, path))
}

// Another owns the monitor, by this owner word: the thread's waiting word says that it is entering the object.
fn pend_on_owner(
    heap: &Heap,
    pass: &mut Pass,
    call: &CallContext,
    object: u32,
    word: u64,
) -> Progress<Path>
    requires heap { IsOf heap.now pass.old }
    requires object { object < length heap.now.heap.shape.objects }
    requires due { IsDueOn heap.now pass.old call.now.task
        (owned_steps call.now (local_of pass.old.known) object word) }
    ensures { HasMadeSteps heap.now (owned_steps call.now (local_of pass.old.known) object word)
        pass.old pass.new result }
{
    let at = WordId::Waiting {
        thread: pass.thread(),
    };
    let entering = encode_wait(&WaitForm::Entering { object });
    heap.store(pass, call, Stage::Settled, at, entering);
    Progress::Pending(PendingCause::Owned { word })
}

// The thread owns the monitor: its recursions rise.
fn monitor_again(
    heap: &Heap,
    pass: &mut Pass,
    call: &CallContext,
    object: u32,
    monitor: u32,
) -> Progress<Path>
    requires heap { IsOf heap.now pass.old }
    requires object { object < length heap.now.heap.shape.objects }
    requires due { IsDueOn heap.now pass.old call.now.task
        (monitor_again_steps call.now (local_of pass.old.known) object monitor) }
    requires room { length pass.old.known.log < pass.old.limit }
    ensures { HasMadeSteps heap.now (monitor_again_steps call.now (local_of pass.old.known) object monitor)
        pass.old pass.new result }
{
    let at = WordId::Recursions { monitor };
    let stage = Stage::RecursionsRaised { object };
    let recursions = heap.load(pass, call, Stage::Settled, at);
    heap.store(pass, call, stage, at, recursions + 1);
    push_record(heap, pass, call, stage, object, Path::MonitorAgain)
}

// A lock record of the thread owns the monitor: the thread itself becomes the owner, with one recursion.
fn monitor_own(
    heap: &Heap,
    pass: &mut Pass,
    call: &CallContext,
    object: u32,
    monitor: u32,
) -> Progress<Path>
    requires heap { IsOf heap.now pass.old }
    requires object { object < length heap.now.heap.shape.objects }
    requires due { IsDueOn heap.now pass.old call.now.task
        (monitor_own_steps call.now (local_of pass.old.known) object monitor) }
    requires room { length pass.old.known.log < pass.old.limit }
    ensures { HasMadeSteps heap.now (monitor_own_steps call.now (local_of pass.old.known) object monitor)
        pass.old pass.new result }
{
    let thread = pass.thread();
    let word = encode_owner(&OwnerForm::ByThread { thread });
    let stage = Stage::OwnerConverted { object };
    heap.store(pass, call, stage, WordId::Owner { monitor }, word);
    let ahead = Stage::RecursionsRaised { object };
    heap.store(pass, call, ahead, WordId::Recursions { monitor }, 1);
    push_record(heap, pass, call, ahead, object, Path::MonitorAgain)
}

// An enter by the owner word that the exchange found, which has this form.
fn enter_by_owner(
    heap: &Heap,
    pass: &mut Pass,
    call: &CallContext,
    object: u32,
    monitor: u32,
    found: u64,
    form: OwnerForm,
) -> Progress<Path>
    requires heap { IsOf heap.now pass.old }
    requires object { object < length heap.now.heap.shape.objects }
    requires due { IsDueOn heap.now pass.old call.now.task
        (monitor_enter_at (Some form) call.now (local_of pass.old.known) object monitor found) }
    requires room { length pass.old.known.log < pass.old.limit }
    ensures { HasMadeSteps heap.now (monitor_enter_at (Some form) call.now (local_of pass.old.known) object monitor found)
        pass.old pass.new result }
{
    match form {
        OwnerForm::Free => {
            let stage = Stage::MonitorAcquired { object };
            push_record(heap, pass, call, stage, object, Path::MonitorFirst)
        }
        OwnerForm::ByThread { thread } => {
            if thread == pass.thread() {
                monitor_again(heap, pass, call, object, monitor)
            } else {
                pend_on_owner(heap, pass, call, object, found)
            }
        }
        OwnerForm::ByRecord { thread, .. } => {
            if thread == pass.thread() {
                monitor_own(heap, pass, call, object, monitor)
            } else {
                pend_on_owner(heap, pass, call, object, found)
            }
        }
    }
}

/// Goes on with an enter by this monitor whose exchange found this owner word, as `monitor_enter` does.
pub fn monitor_enter_found(
    heap: &Heap,
    pass: &mut Pass,
    call: &CallContext,
    object: u32,
    monitor: u32,
    found: u64,
) -> Progress<Path>
    requires heap { IsOf heap.now pass.old }
    requires object { object < length heap.now.heap.shape.objects }
    requires due { IsDueOn heap.now pass.old call.now.task
        (monitor_enter_at (read_owner found) call.now (local_of pass.old.known) object monitor found) }
    requires room { length pass.old.known.log < pass.old.limit }
    ensures { HasMadeSteps heap.now (monitor_enter_at (read_owner found) call.now (local_of pass.old.known) object monitor found)
        pass.old pass.new result }
{
    match owner_of_word(found) {
        Some(form) => enter_by_owner(heap, pass, call, object, monitor, found, form),
        None => unreachable!(),
    }
}

/// Takes a hold of the object by its monitor, which is this one.
///
/// `Done(MonitorFirst)` says that the monitor was free, and the thread owns it now. `Done(MonitorAgain)` says that the
/// thread owned it, or that a lock record of the thread did, whose place the thread has taken: the recursions are one
/// more. Either way the hold word is stored, at a record whose displaced word is 3, and the Enter logged.
/// `Pending(Owned { word })` says that the owner word was this one, which names another thread or a lock record of one:
/// the monitor is left as it was, no hold was taken and nothing logged, and the thread's waiting word says that it is
/// entering the object.
///
/// In OpenJDK 8: `ObjectMonitor::enter` (`objectMonitor.cpp`), without spinning, queue and parking.
pub fn monitor_enter(
    heap: &Heap,
    pass: &mut Pass,
    call: &CallContext,
    object: u32,
    monitor: u32,
) -> Progress<Path>
    requires heap { IsOf heap.now pass.old }
    requires object { object < length heap.now.heap.shape.objects }
    requires due { IsDueOn heap.now pass.old call.now.task
        (monitor_enter_steps call.now (local_of pass.old.known) object monitor) }
    requires room { length pass.old.known.log < pass.old.limit }
    ensures { HasMadeSteps heap.now (monitor_enter_steps call.now (local_of pass.old.known) object monitor)
        pass.old pass.new result }
{
    let thread = pass.thread();
    let stage = Stage::MonitorAcquired { object };
    let at = WordId::Owner { monitor };
    let free = encode_owner(&OwnerForm::Free);
    let word = encode_owner(&OwnerForm::ByThread { thread });
    let found = heap.exchange(pass, call, stage, at, free, word);
    monitor_enter_found(heap, pass, call, object, monitor, found)
}
