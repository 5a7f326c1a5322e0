//! How a thread leaves a hold under a bias.
ghost use Rattle.std.specs.Prelude.{◌≡◌, ◌<◌, length, false};
ghost use Rattle.core_world.specs.Locks.{hold_count};
ghost use Rattle.core_world.specs.Threads.ThreadView.{local_of};
ghost use Rattle.core_world.specs.Trees.BiasSteps.{bias_exit_steps};
ghost use Rattle.core_world.specs.Trees.Plans.{top_place};
ghost use Rattle.heap_table.specs.Parts.{IsDueOn, HasMadeSteps};
ghost use Rattle.heap_table.specs.Seen.{IsOf};
ghost use Rattle.bias_lock.specs.inner.Parts.{marked_exit};

use core_world::{Stage, WordId};
use heap_table::{CallContext, Heap, Pass, is_biased};
use stack_lock::{leave, raise};

// The mark says whether it is a bias under which the hold is left.
fn leave_marked(heap: &Heap, pass: &mut Pass, call: &CallContext, object: u32, place: u32) -> bool
    requires heap { IsOf heap.now pass.old }
    requires place { place ≡ top_place object pass.old.known.holds }
    requires due { IsDueOn heap.now pass.old call.now.task
        (marked_exit call.now (local_of pass.old.known) object) }
    requires room { length pass.old.known.log < pass.old.limit }
    ensures run { HasMadeSteps heap.now (marked_exit call.now (local_of pass.old.known) object)
        pass.old pass.new result }
    ensures kept { result ≡ false → local_of pass.new.known ≡ local_of pass.old.known }
{
    let mark = heap.load(pass, call, Stage::Settled, WordId::Mark { object });
    if is_biased(mark) {
        leave(heap, pass, call, object, place);
        return true;
    }
    false
}

/// Leaves the thread's newest hold of the object, of which it has `depth`, at this place, where the object's mark has the bias
/// pattern.
///
/// `true` says that it has: the hold word is cleared and the Exit logged. The mark is left as it is, so that the bias
/// stays. `false` says that it has not: nothing is let go and nothing logged. Either way the object's stamp was raised
/// before, where this is the thread's last hold.
///
/// In OpenJDK 8: `MacroAssembler::biased_locking_exit` (`macroAssembler_x86.cpp`).
pub fn bias_exit(
    heap: &Heap,
    pass: &mut Pass,
    call: &CallContext,
    object: u32,
    depth: u32,
    place: u32,
) -> bool
    requires heap { IsOf heap.now pass.old }
    requires depth { depth ≡ hold_count object pass.old.known.holds }
    requires place { place ≡ top_place object pass.old.known.holds }
    requires due { IsDueOn heap.now pass.old call.now.task (bias_exit_steps call.now (local_of pass.old.known) object) }
    requires room { length pass.old.known.log < pass.old.limit }
    ensures run { HasMadeSteps heap.now (bias_exit_steps call.now (local_of pass.old.known) object)
        pass.old pass.new result }
    ensures kept { result ≡ false → local_of pass.new.known ≡ local_of pass.old.known }
{
    raise(heap, pass, call, object, depth);
    leave_marked(heap, pass, call, object, place)
}
