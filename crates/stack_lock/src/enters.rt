//! How a thread takes a hold by a lock record.
ghost use Rattle.std.specs.Prelude.{◌≡◌, ◌<◌, length, Some};
ghost use Rattle.core_world.specs.Threads.ThreadView.{local_of};
ghost use Rattle.core_world.specs.Trees.LockSteps.{log_enter_steps, hold_steps, stack_again_steps, stack_first_steps};
ghost use Rattle.core_world.specs.Trees.LockSteps.{stack_enter_at, stack_enter_steps};
ghost use Rattle.heap_table.specs.Parts.{IsDueOn, HasMadeSteps};
ghost use Rattle.heap_table.specs.Seen.{IsOf};
ghost use Rattle.stack_lock.specs.inner.Parts.{entered_by};

use crate::places::free_place;
use crate::words::is_entering;
use core_world::{PendingCause, Progress, Stage, WordId};
use heap_table::{CallContext, Heap, Pass, mark_of_word};
use mark_word::{HoldForm, MarkForm, WaitForm, encode, encode_hold, encode_wait};
use plain_monitor::{Entry, Path};

// Logs the Enter, by a load of the object's stamp.
fn log_enter(heap: &Heap, pass: &mut Pass, call: &CallContext, object: u32, path: Path) -> Path
    requires heap { IsOf heap.now pass.old }
    requires due { IsDueOn heap.now pass.old call.now.task (log_enter_steps call.now object path) }
    requires room { length pass.old.known.log < pass.old.limit }
    ensures { HasMadeSteps heap.now (log_enter_steps call.now object path) pass.old pass.new result }
{
    let entry = Entry::Enter { object, path };
    heap.log_load(pass, call, WordId::Stamp { object }, entry);
    path
}

// The thread waits no more to enter, if it did, and logs the Enter. Its new hold word stands at this place.
fn entered(
    heap: &Heap,
    pass: &mut Pass,
    call: &CallContext,
    object: u32,
    path: Path,
    place: u32,
) -> Path
    requires heap { IsOf heap.now pass.old }
    requires due { IsDueOn heap.now pass.old call.now.task
        (entered_by call.now pass.old.known.thread pass.old.known.wait object place path) }
    requires room { length pass.old.known.log < pass.old.limit }
    ensures { HasMadeSteps heap.now (entered_by call.now pass.old.known.thread pass.old.known.wait object place path)
        pass.old pass.new result }
{
    if is_entering(pass.wait_word()) {
        let at = WordId::Waiting {
            thread: pass.thread(),
        };
        let stage = Stage::Enters {
            object,
            place,
            path,
        };
        heap.store(pass, call, stage, at, encode_wait(&WaitForm::Ready));
        return log_enter(heap, pass, call, object, path);
    }
    log_enter(heap, pass, call, object, path)
}

/// Stores the thread's next hold word of the object at its lowest free place, and logs the Enter with this path, which
/// it answers. Where the thread's waiting word says that it is entering an object, the word becomes Ready before.
///
/// In OpenJDK 8: `TemplateTable::monitorenter` (`templateTable_x86_64.cpp`), which stores `_obj` before the lock is
/// taken.
pub fn hold(heap: &Heap, pass: &mut Pass, call: &CallContext, object: u32, path: Path) -> Path
    requires heap { IsOf heap.now pass.old }
    requires object { object < length heap.now.heap.shape.objects }
    requires due { IsDueOn heap.now pass.old call.now.task (hold_steps call.now (local_of pass.old.known) object path) }
    requires room { length pass.old.known.log < pass.old.limit }
    ensures { HasMadeSteps heap.now (hold_steps call.now (local_of pass.old.known) object path)
        pass.old pass.new result }
{
    let place = free_place(pass);
    let depth = pass.held(object) + 1;
    let word = encode_hold(&HoldForm::Holds { object, depth });
    let stage = Stage::Enters {
        object,
        place,
        path,
    };
    heap.store_hold(pass, call, stage, place, word);
    entered(heap, pass, call, object, path, place)
}

// The thread has the lock: 0 for the header says that the new record is recursive.
fn stack_again(heap: &Heap, pass: &mut Pass, call: &CallContext, object: u32) -> Progress<Path>
    requires heap { IsOf heap.now pass.old }
    requires object { object < length heap.now.heap.shape.objects }
    requires due { IsDueOn heap.now pass.old call.now.task
        (stack_again_steps call.now (local_of pass.old.known) object) }
    requires room { length pass.old.known.log < pass.old.limit }
    ensures { HasMadeSteps heap.now (stack_again_steps call.now (local_of pass.old.known) object)
        pass.old pass.new result }
{
    let at = WordId::Displaced {
        thread: pass.thread(),
        place: free_place(pass),
    };
    heap.store(pass, call, Stage::Settled, at, 0);
    Progress::Done(hold(heap, pass, call, object, Path::StackAgain))
}

// Nobody has the lock: the mark is the header of the new record, and is exchanged for the record's place.
fn stack_first(
    heap: &Heap,
    pass: &mut Pass,
    call: &CallContext,
    object: u32,
    mark: u64,
) -> Progress<Path>
    requires heap { IsOf heap.now pass.old }
    requires object { object < length heap.now.heap.shape.objects }
    requires due { IsDueOn heap.now pass.old call.now.task
        (stack_first_steps call.now (local_of pass.old.known) object mark) }
    requires room { length pass.old.known.log < pass.old.limit }
    ensures { HasMadeSteps heap.now (stack_first_steps call.now (local_of pass.old.known) object mark)
        pass.old pass.new result }
{
    let thread = pass.thread();
    let place = free_place(pass);
    heap.store(
        pass,
        call,
        Stage::Settled,
        WordId::Displaced { thread, place },
        mark,
    );
    let stage = Stage::RecordLocked { object, place };
    let locked = encode(&MarkForm::Locked { thread, place });
    let found = heap.exchange(pass, call, stage, WordId::Mark { object }, mark, locked);
    if found != mark {
        return Progress::Pending(PendingCause::Raced {
            expected: mark,
            found,
        });
    }
    Progress::Done(hold(heap, pass, call, object, Path::StackFirst))
}

// An enter by a mark of this form.
fn enter_by_record(
    heap: &Heap,
    pass: &mut Pass,
    call: &CallContext,
    object: u32,
    mark: u64,
    form: MarkForm,
) -> Progress<Path>
    requires heap { IsOf heap.now pass.old }
    requires object { object < length heap.now.heap.shape.objects }
    requires due { IsDueOn heap.now pass.old call.now.task
        (stack_enter_at (Some form) call.now (local_of pass.old.known) object mark) }
    requires room { length pass.old.known.log < pass.old.limit }
    ensures { HasMadeSteps heap.now (stack_enter_at (Some form) call.now (local_of pass.old.known) object mark)
        pass.old pass.new result }
{
    match form {
        MarkForm::Neutral { .. } => stack_first(heap, pass, call, object, mark),
        MarkForm::Locked { .. } => stack_again(heap, pass, call, object),
        _ => unreachable!(),
    }
}

/// Takes a hold of the object by a lock record at the thread's lowest free place. The thread has seen this mark, which
/// is neutral or names a lock record of its own.
///
/// `Done(StackFirst)` says that the mark was neutral, and was exchanged for the record. `Done(StackAgain)` says that the
/// thread's own record was there, and has one more above it. Either way the hold word is stored and the Enter logged.
/// `Pending(Raced { expected, found })` says that the exchange expected the neutral mark and found another: the mark is
/// left as it was, no hold was taken and nothing logged, and only the place's displaced word was stored.
///
/// In OpenJDK 8: `ObjectSynchronizer::slow_enter` (`synchronizer.cpp`), its first two branches.
pub fn stack_enter(
    heap: &Heap,
    pass: &mut Pass,
    call: &CallContext,
    object: u32,
    mark: u64,
) -> Progress<Path>
    requires heap { IsOf heap.now pass.old }
    requires object { object < length heap.now.heap.shape.objects }
    requires due { IsDueOn heap.now pass.old call.now.task
        (stack_enter_steps call.now (local_of pass.old.known) object mark) }
    requires room { length pass.old.known.log < pass.old.limit }
    ensures { HasMadeSteps heap.now (stack_enter_steps call.now (local_of pass.old.known) object mark)
        pass.old pass.new result }
{
    match mark_of_word(mark) {
        Some(form) => enter_by_record(heap, pass, call, object, mark, form),
        None => unreachable!(),
    }
}
