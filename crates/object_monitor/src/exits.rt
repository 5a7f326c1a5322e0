//! How a thread leaves a hold by the monitor.
ghost use Rattle.std.specs.Prelude.{◌≡◌, ◌<◌, length, Some};
ghost use Rattle.core_world.specs.Threads.ThreadView.{local_of};
ghost use Rattle.core_world.specs.Trees.MonitorSteps.{own_steps, release_steps, monitor_exit_steps};
ghost use Rattle.core_world.specs.Trees.Plans.{top_place};
ghost use Rattle.mark_word.specs.Owner.{read_owner};
ghost use Rattle.heap_table.specs.Parts.{IsDueOn, HasMadeSteps};
ghost use Rattle.heap_table.specs.Seen.{IsOf};
ghost use Rattle.heap_table.specs.ExitParts.{lowered_exit, counted_exit, owned_exit};

use core_world::{Stage, WordId};
use heap_table::{CallContext, Heap, Pass, owner_of_word};
use mark_word::{OwnerForm, encode_owner};
use plain_monitor::Entry;
use stack_lock::{clear, leave};

/// Makes the thread itself the owner of the monitor, with no recursions, where one of its records is the owner by
/// this form.
///
/// In OpenJDK 8: `ObjectMonitor::exit` and `CHECK_OWNER` (`objectMonitor.cpp`).
pub fn own(
    heap: &Heap,
    pass: &mut Pass,
    call: &CallContext,
    object: u32,
    monitor: u32,
    form: OwnerForm,
)
    requires heap { IsOf heap.now pass.old }
    requires due { IsDueOn heap.now pass.old call.now.task
        (own_steps (Some form) call.now (local_of pass.old.known) object monitor) }
    ensures run { HasMadeSteps heap.now (own_steps (Some form) call.now (local_of pass.old.known) object monitor)
        pass.old pass.new result }
    ensures kept { local_of pass.new.known ≡ local_of pass.old.known }
{
    match form {
        OwnerForm::ByThread { .. } => {}
        OwnerForm::ByRecord { .. } => {
            let thread = pass.thread();
            let word = encode_owner(&OwnerForm::ByThread { thread });
            let stage = Stage::OwnerConverted { object };
            heap.store(pass, call, stage, WordId::Owner { monitor }, word);
            let at = WordId::Recursions { monitor };
            heap.store(pass, call, Stage::Settled, at, 0);
        }
        OwnerForm::Free => unreachable!(),
    }
}

// The last hold: the owner word is cleared, which logs the Exit, and then the hold word.
fn release(heap: &Heap, pass: &mut Pass, call: &CallContext, object: u32, monitor: u32, place: u32)
    requires heap { IsOf heap.now pass.old }
    requires place { place ≡ top_place object pass.old.known.holds }
    requires due { IsDueOn heap.now pass.old call.now.task
        (release_steps call.now (local_of pass.old.known) object monitor) }
    requires room { length pass.old.known.log < pass.old.limit }
    ensures { HasMadeSteps heap.now (release_steps call.now (local_of pass.old.known) object monitor)
        pass.old pass.new result }
{
    let stage = Stage::Exits { object, place };
    let at = WordId::Owner { monitor };
    let word = encode_owner(&OwnerForm::Free);
    heap.log_store(pass, call, stage, at, word, Entry::Exit { object });
    clear(heap, pass, call, place);
}

// Another hold is left: the recursions, which are this word, are lowered before the hold word is cleared.
fn lower(
    heap: &Heap,
    pass: &mut Pass,
    call: &CallContext,
    object: u32,
    monitor: u32,
    place: u32,
    recursions: u64,
)
    requires heap { IsOf heap.now pass.old }
    requires place { place ≡ top_place object pass.old.known.holds }
    requires some { 0 < recursions }
    requires due { IsDueOn heap.now pass.old call.now.task
        (lowered_exit call.now (local_of pass.old.known) object monitor recursions) }
    requires room { length pass.old.known.log < pass.old.limit }
    ensures { HasMadeSteps heap.now (lowered_exit call.now (local_of pass.old.known) object monitor recursions)
        pass.old pass.new result }
{
    let stage = Stage::RecursionsLowered { object };
    let at = WordId::Recursions { monitor };
    heap.store(pass, call, stage, at, recursions - 1);
    leave(heap, pass, call, object, place);
}

// The thread owns the monitor: the recursions say whether this is its last hold.
fn leave_owned(
    heap: &Heap,
    pass: &mut Pass,
    call: &CallContext,
    object: u32,
    monitor: u32,
    place: u32,
)
    requires heap { IsOf heap.now pass.old }
    requires place { place ≡ top_place object pass.old.known.holds }
    requires due { IsDueOn heap.now pass.old call.now.task
        (counted_exit call.now (local_of pass.old.known) object monitor) }
    requires room { length pass.old.known.log < pass.old.limit }
    ensures { HasMadeSteps heap.now (counted_exit call.now (local_of pass.old.known) object monitor)
        pass.old pass.new result }
{
    let at = WordId::Recursions { monitor };
    let recursions = heap.load(pass, call, Stage::Settled, at);
    if recursions == 0 {
        release(heap, pass, call, object, monitor, place);
    } else {
        lower(heap, pass, call, object, monitor, place, recursions);
    }
}

/// Goes on with an exit by this monitor that found this owner word, as `monitor_exit` does.
pub fn monitor_exit_found(
    heap: &Heap,
    pass: &mut Pass,
    call: &CallContext,
    object: u32,
    monitor: u32,
    place: u32,
    owner: u64,
)
    requires heap { IsOf heap.now pass.old }
    requires place { place ≡ top_place object pass.old.known.holds }
    requires due { IsDueOn heap.now pass.old call.now.task
        (owned_exit (read_owner owner) call.now (local_of pass.old.known) object monitor) }
    requires room { length pass.old.known.log < pass.old.limit }
    ensures { HasMadeSteps heap.now (owned_exit (read_owner owner) call.now (local_of pass.old.known) object monitor)
        pass.old pass.new result }
{
    match owner_of_word(owner) {
        Some(form) => {
            own(heap, pass, call, object, monitor, form);
            leave_owned(heap, pass, call, object, monitor, place);
        }
        None => unreachable!(),
    }
}

/// Leaves the thread's newest hold of the object, at this place, whose mark names this monitor. The hold's record is no
/// recursive one of a stack lock.
///
/// The Exit is logged and the hold word is cleared. At the last hold the owner word is cleared, so that the monitor is
/// free; at any other the recursions are lowered by one. Where a lock record of the thread was the owner, the thread
/// itself became it before, with no recursions.
///
/// In OpenJDK 8: `ObjectMonitor::exit` (`objectMonitor.cpp`). Nobody is woken.
pub fn monitor_exit(
    heap: &Heap,
    pass: &mut Pass,
    call: &CallContext,
    object: u32,
    monitor: u32,
    place: u32,
)
    requires heap { IsOf heap.now pass.old }
    requires place { place ≡ top_place object pass.old.known.holds }
    requires due { IsDueOn heap.now pass.old call.now.task
        (monitor_exit_steps call.now (local_of pass.old.known) object monitor) }
    requires room { length pass.old.known.log < pass.old.limit }
    ensures { HasMadeSteps heap.now (monitor_exit_steps call.now (local_of pass.old.known) object monitor)
        pass.old pass.new result }
{
    let owner = heap.load(pass, call, Stage::Settled, WordId::Owner { monitor });
    monitor_exit_found(heap, pass, call, object, monitor, place, owner);
}
