//! How a thread leaves a hold by a lock record.
ghost use Rattle.std.specs.Prelude.{◌≡◌, ◌<◌, length};
ghost use Rattle.core_world.specs.Locks.{hold_count};
ghost use Rattle.core_world.specs.Threads.ThreadView.{local_of};
ghost use Rattle.core_world.specs.Trees.LockSteps.{raise_steps, stack_exit_by, stack_exit_record, stack_exit_steps};
ghost use Rattle.core_world.specs.Trees.Plans.{top_place};
ghost use Rattle.heap_table.specs.Parts.{IsDueOn, HasMadeSteps};
ghost use Rattle.heap_table.specs.Seen.{IsOf};
ghost use Rattle.stack_lock.specs.Parts.{leave_at, clear_at};
ghost use Rattle.stack_lock.specs.inner.Parts.{marked_exit};

use core_world::{PendingCause, StackOut, Stage, WordId};
use heap_table::{CallContext, Heap, Pass, mark_of_word};
use mark_word::MarkForm;
use plain_monitor::Entry;

/// Raises the object's stamp to that of the thread's next entry, where the thread has one hold on the object, of which
/// it has `depth`. So the next owner's Enter is stamped above it.
///
/// In OpenJDK 8: nothing.
pub fn raise(heap: &Heap, pass: &mut Pass, call: &CallContext, object: u32, depth: u32)
    requires heap { IsOf heap.now pass.old }
    requires depth { depth ≡ hold_count object pass.old.known.holds }
    requires due { IsDueOn heap.now pass.old call.now.task (raise_steps call.now (local_of pass.old.known) object) }
    ensures run { HasMadeSteps heap.now (raise_steps call.now (local_of pass.old.known) object)
        pass.old pass.new result }
    ensures kept { local_of pass.new.known ≡ local_of pass.old.known }
{
    if depth == 1 {
        let stamp = pass.last_stamp() + 1;
        heap.raise(pass, call, WordId::Stamp { object }, stamp);
        return;
    }
}

/// Clears the hold word of the object at this place of the thread, and logs the Exit.
///
/// In OpenJDK 8: `InterpreterMacroAssembler::unlock_object` (`interp_masm_x86_64.cpp`), where it clears `_obj`.
pub fn leave(heap: &Heap, pass: &mut Pass, call: &CallContext, object: u32, place: u32)
    requires heap { IsOf heap.now pass.old }
    requires due { IsDueOn heap.now pass.old call.now.task (leave_at call.now pass.old.known.thread object place) }
    requires room { length pass.old.known.log < pass.old.limit }
    ensures { HasMadeSteps heap.now (leave_at call.now pass.old.known.thread object place) pass.old pass.new result }
{
    let at = WordId::Hold {
        thread: pass.thread(),
        place,
    };
    heap.log_store(pass, call, Stage::Settled, at, 0, Entry::Exit { object });
}

/// Clears the hold word at this place of the thread, after the step that logged its Exit: nothing is unfinished any
/// more.
///
/// In OpenJDK 8: as `leave`.
pub fn clear(heap: &Heap, pass: &mut Pass, call: &CallContext, place: u32)
    requires heap { IsOf heap.now pass.old }
    requires due { IsDueOn heap.now pass.old call.now.task (clear_at call.now pass.old.known.thread place) }
    ensures { HasMadeSteps heap.now (clear_at call.now pass.old.known.thread place) pass.old pass.new result }
{
    let over = CallContext {
        task: call.task,
        unfinished: None,
        check: call.check,
    };
    heap.store_hold(pass, &over, Stage::Settled, place, 0);
}

// The mark names this record, which is not recursive: it is exchanged for the header, which logs the Exit.
fn let_go(
    heap: &Heap,
    pass: &mut Pass,
    call: &CallContext,
    object: u32,
    place: u32,
    header: u64,
    mark: u64,
) -> StackOut
    requires heap { IsOf heap.now pass.old }
    requires place { place ≡ top_place object pass.old.known.holds }
    requires due { IsDueOn heap.now pass.old call.now.task
        (stack_exit_by call.now (local_of pass.old.known) object header mark) }
    requires room { length pass.old.known.log < pass.old.limit }
    ensures { HasMadeSteps heap.now (stack_exit_by call.now (local_of pass.old.known) object header mark)
        pass.old pass.new result }
{
    let stage = Stage::Exits { object, place };
    let at = WordId::Mark { object };
    let entry = Entry::Exit { object };
    let found = heap.log_exchange(pass, call, stage, at, mark, header, entry);
    if found != mark {
        return StackOut::Not(PendingCause::Raced {
            expected: mark,
            found,
        });
    }
    clear(heap, pass, call, place);
    StackOut::Left
}

// The record is not recursive: the mark says whether it is the lock that is left.
fn leave_lock(
    heap: &Heap,
    pass: &mut Pass,
    call: &CallContext,
    object: u32,
    place: u32,
    header: u64,
) -> StackOut
    requires heap { IsOf heap.now pass.old }
    requires place { place ≡ top_place object pass.old.known.holds }
    requires due { IsDueOn heap.now pass.old call.now.task
        (marked_exit call.now (local_of pass.old.known) object header) }
    requires room { length pass.old.known.log < pass.old.limit }
    ensures { HasMadeSteps heap.now (marked_exit call.now (local_of pass.old.known) object header)
        pass.old pass.new result }
{
    let mark = heap.load(pass, call, Stage::Settled, WordId::Mark { object });
    match mark_of_word(mark) {
        Some(form) => match form {
            MarkForm::Inflating => StackOut::Not(PendingCause::Inflating),
            MarkForm::Locked { .. } => let_go(heap, pass, call, object, place, header, mark),
            MarkForm::Inflated { monitor } => StackOut::Monitor { number: monitor },
            _ => unreachable!(),
        },
        None => unreachable!(),
    }
}

// The displaced word of the thread's newest record says whether the record is recursive.
fn leave_record(
    heap: &Heap,
    pass: &mut Pass,
    call: &CallContext,
    object: u32,
    place: u32,
) -> StackOut
    requires heap { IsOf heap.now pass.old }
    requires place { place ≡ top_place object pass.old.known.holds }
    requires due { IsDueOn heap.now pass.old call.now.task
        (stack_exit_record call.now (local_of pass.old.known) object) }
    requires room { length pass.old.known.log < pass.old.limit }
    ensures { HasMadeSteps heap.now (stack_exit_record call.now (local_of pass.old.known) object)
        pass.old pass.new result }
{
    let at = WordId::Displaced {
        thread: pass.thread(),
        place,
    };
    let header = heap.load(pass, call, Stage::Settled, at);
    if header == 0 {
        leave(heap, pass, call, object, place);
        return StackOut::Left;
    }
    leave_lock(heap, pass, call, object, place, header)
}

/// Leaves the thread's newest hold of the object, of which it has `depth`, at this place.
///
/// `Left` says that the hold word is cleared and the Exit logged: the record was recursive, or the object's mark named
/// it and was exchanged for the header. `Monitor { number }` says that the object's mark names this monitor, and
/// `Not(Inflating)` that another thread is inflating its lock. `Not(Raced { expected, found })` says that the exchange
/// expected the mark that named the record and found another. In these three nothing is let go and nothing logged; only
/// the object's stamp was raised, where this is the thread's last hold.
///
/// In OpenJDK 8: `ObjectSynchronizer::fast_exit` (`synchronizer.cpp`).
pub fn stack_exit(
    heap: &Heap,
    pass: &mut Pass,
    call: &CallContext,
    object: u32,
    depth: u32,
    place: u32,
) -> StackOut
    requires heap { IsOf heap.now pass.old }
    requires depth { depth ≡ hold_count object pass.old.known.holds }
    requires place { place ≡ top_place object pass.old.known.holds }
    requires due { IsDueOn heap.now pass.old call.now.task (stack_exit_steps call.now (local_of pass.old.known) object) }
    requires room { length pass.old.known.log < pass.old.limit }
    ensures { HasMadeSteps heap.now (stack_exit_steps call.now (local_of pass.old.known) object)
        pass.old pass.new result }
{
    raise(heap, pass, call, object, depth);
    leave_record(heap, pass, call, object, place)
}
