//! The call that leaves an object.
ghost use Rattle.std.specs.Prelude.{◌≡◌, ◌<◌, ◌≤◌, length, Ok};
ghost use Rattle.plain_history.specs.HeldByLog.{held_by, nothing_held};
ghost use Rattle.core_world.specs.declared.heap_call.HeapCall.TheVariants.{Exit};
ghost use Rattle.core_world.specs.Locks.{hold_count};
ghost use Rattle.core_world.specs.Threads.ThreadView.{local_of};
ghost use Rattle.core_world.specs.Trees.Operations.{exit_going, exit_steps};
ghost use Rattle.core_world.specs.Trees.Plans.{top_place};
ghost use Rattle.plain_monitor.specs.Limits.{most_holds};
ghost use Rattle.core_calls.specs.Paths.{Tells};
ghost use Rattle.core_calls.specs.CallsSay.{ExitSays};
ghost use Rattle.heap_table.specs.Parts.{IsDueOn, HasMadeSteps};
ghost use Rattle.heap_table.specs.Resting.{MayOperate, Rests, start_now};
ghost use Rattle.heap_table.specs.Seen.{IsOf};
ghost use Rattle.heap_table.specs.declared.quick.QuickExit.TheVariants as exits;
ghost use Rattle.lock_runtime.specs.Begun.{EndsExit, IsAmidExit};
ghost use Rattle.lock_runtime.specs.inner.Parts.{exit_unbiased};
ghost use Rattle.lock_runtime.specs.Standing.{StandsAfterTurn, StandsOrSame};
ghost use Rattle.lock_runtime.specs.Refusals.{IsRefusedUnheld};

use crate::contexts::unfinished;
use bias_lock::bias_exit;
use core_world::{HeapCall, IllegalMonitorState, Operation, PendingCause, Progress, StackOut};
use heap_table::{CallContext, Heap, Pass, QuickExit};
use object_monitor::{monitor_exit, monitor_exit_found};
use stack_lock::{place_at_depth, stack_exit};

// The object's mark has no bias pattern: the thread leaves its newest lock record, or the monitor.
fn leave_unbiased(
    heap: &Heap,
    pass: &mut Pass,
    context: &CallContext,
    object: u32,
    depth: u32,
    place: u32,
) -> Progress<()>
    requires heap { IsOf heap.now pass.old }
    requires depth { depth ≡ hold_count object pass.old.known.holds }
    requires place { place ≡ top_place object pass.old.known.holds }
    requires due { IsDueOn heap.now pass.old context.now.task (exit_unbiased context.now (local_of pass.old.known) object) }
    requires room { length pass.old.known.log < pass.old.limit }
    ensures { HasMadeSteps heap.now (exit_unbiased context.now (local_of pass.old.known) object)
        pass.old pass.new result }
{
    match stack_exit(heap, pass, context, object, depth, place) {
        StackOut::Left => Progress::Done(()),
        StackOut::Not(cause) => Progress::Pending(cause),
        StackOut::Monitor { number } => {
            monitor_exit(heap, pass, context, object, number, place);
            Progress::Done(())
        }
    }
}

// The thread has so many holds on the object.
fn leave_held(
    heap: &Heap,
    pass: &mut Pass,
    context: &CallContext,
    object: u32,
    depth: u32,
) -> Progress<()>
    requires heap { IsOf heap.now pass.old }
    requires object { object < length heap.now.heap.shape.objects }
    requires depth { depth ≡ hold_count object pass.old.known.holds }
    requires some { 0 < depth }
    requires few { depth ≤ most_holds }
    requires due { IsDueOn heap.now pass.old context.now.task (exit_going context.now (local_of pass.old.known) object) }
    requires room { length pass.old.known.log < pass.old.limit }
    ensures { HasMadeSteps heap.now (exit_going context.now (local_of pass.old.known) object) pass.old pass.new result }
{
    let place = place_at_depth(pass, object, depth);
    if bias_exit(heap, pass, context, object, depth, place) {
        return Progress::Done(());
    }
    leave_unbiased(heap, pass, context, object, depth, place)
}

// Nothing is made yet.
#[inline(never)]
fn exit_slowly(
    heap: &Heap,
    pass: &mut Pass,
    object: u32,
) -> Result<Progress<()>, IllegalMonitorState>
    requires { MayOperate heap.now pass.old (Exit object) }
    ensures rests { Rests heap.now pass.new }
    ensures run { HasMadeSteps heap.now (exit_steps (start_now heap.now pass.old) object) pass.old pass.new result }
    ensures says { Tells pass.old.known pass.new.known (λ ms. ExitSays (start_now heap.now pass.old) object ms result) }
    ensures stands { StandsOrSame pass.old.known pass.new.known result }
    ensures owner { IsRefusedUnheld pass.old.known.log object result }
{
    let depth = pass.held(object);
    if depth == 0 {
        return Err(IllegalMonitorState);
    }
    Ok(exit_counted(heap, pass, object, depth))
}

/// Goes on with an exit of which `quick_exit` has loaded this owner word of this monitor, which isn't the thread's own, and
/// whose newest hold is at this place. From the pass on which it began, this is what `exit` does and answers.
#[inline(never)]
pub fn exit_from_owner(
    heap: &Heap,
    pass: &mut Pass,
    object: u32,
    monitor: u32,
    owner: u64,
    place: u32,
) -> Progress<()>
    requires { IsAmidExit heap.now pass.old object (exits.Owned monitor owner place) }
    ensures rests { Rests heap.now pass.new }
    ensures whole { EndsExit heap.now pass.old pass.new object (exits.Owned monitor owner place) result }
{
    let call = unfinished(HeapCall::Exit { object }, Operation::Exit, object);
    monitor_exit_found(heap, pass, &call, object, monitor, place, owner);
    Progress::Done(())
}

/// Leaves the thread's newest hold of the object.
///
/// `Done(())` says that it has: the Exit is logged, and nothing is unfinished.
///
/// Pending, nothing is let go or logged, and the exit stays unfinished:
///
/// - `Raced { expected, found }`: the exchange of the mark found another than the one loaded.
/// - `Inflating`: the loaded mark was 0, as another thread is inflating the lock.
///
/// # Errors
///
/// `IllegalMonitorState` exactly where the thread has no hold on the object. Then no step is made.
///
/// In OpenJDK 8: `ObjectSynchronizer::slow_exit` and `fast_exit` (`synchronizer.cpp`).
#[inline(always)]
pub fn exit(heap: &Heap, pass: &mut Pass, object: u32) -> Result<Progress<()>, IllegalMonitorState>
    requires { MayOperate heap.now pass.old (Exit object) }
    ensures rests { Rests heap.now pass.new }
    ensures run { HasMadeSteps heap.now (exit_steps (start_now heap.now pass.old) object) pass.old pass.new result }
    ensures says { Tells pass.old.known pass.new.known (λ ms. ExitSays (start_now heap.now pass.old) object ms result) }
    ensures stands { StandsOrSame pass.old.known pass.new.known result }
    ensures owner { IsRefusedUnheld pass.old.known.log object result }
{
    if !pass.is_free() {
        return exit_slowly(heap, pass, object);
    }
    match heap.quick_exit(pass, object) {
        QuickExit::Not => exit_slowly(heap, pass, object),
        QuickExit::Left => Ok(Progress::Done(())),
        QuickExit::Inflating => Ok(Progress::Pending(PendingCause::Inflating)),
        QuickExit::Raced { expected, found } => Ok(Progress::Pending(PendingCause::Raced {
            expected,
            found,
        })),
        QuickExit::Owned {
            monitor,
            owner,
            place,
        } => Ok(exit_from_owner(heap, pass, object, monitor, owner, place)),
    }
}

// The same where the thread has so many holds on it, at least one by its log.
fn exit_counted(heap: &Heap, pass: &mut Pass, object: u32, depth: u32) -> Progress<()>
    requires may { MayOperate heap.now pass.old (Exit object) }
    requires held { 1 ≤ held_by nothing_held pass.old.known.log object }
    requires depth { depth ≡ hold_count object pass.old.known.holds }
    requires few { depth ≤ most_holds }
    ensures rests { Rests heap.now pass.new }
    ensures run { HasMadeSteps heap.now (exit_steps (start_now heap.now pass.old) object)
        pass.old pass.new (Ok result) }
    ensures says { Tells pass.old.known pass.new.known
        (λ ms. ExitSays (start_now heap.now pass.old) object ms (Ok result)) }
    ensures stands { StandsAfterTurn pass.new.known result }
{
    let context = unfinished(HeapCall::Exit { object }, Operation::Exit, object);
    leave_held(heap, pass, &context, object, depth)
}

/// Leaves the thread's newest hold of the object, as `exit` does, where it has one by its log. Whoever calls has looked
/// for that. `Done(())` and the two causes of a pending exit are those of `exit`.
pub fn exit_held(heap: &Heap, pass: &mut Pass, object: u32) -> Progress<()>
    requires may { MayOperate heap.now pass.old (Exit object) }
    requires held { 1 ≤ held_by nothing_held pass.old.known.log object }
    ensures rests { Rests heap.now pass.new }
    ensures run { HasMadeSteps heap.now (exit_steps (start_now heap.now pass.old) object)
        pass.old pass.new (Ok result) }
    ensures says { Tells pass.old.known pass.new.known
        (λ ms. ExitSays (start_now heap.now pass.old) object ms (Ok result)) }
    ensures stands { StandsAfterTurn pass.new.known result }
{
    let held = pass.held(object);
    exit_counted(heap, pass, object, held)
}
