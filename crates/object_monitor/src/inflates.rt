//! How a lock gets a monitor.
ghost use Rattle.std.specs.Prelude.{◌≡◌};
ghost use Rattle.mark_word.specs.Mark.{read_mark};
ghost use Rattle.core_world.specs.Threads.ThreadView.{local_of};
ghost use Rattle.core_world.specs.Trees.MonitorSteps.{prepare_steps, inflate_locked, inflate_neutral, inflate_with};
ghost use Rattle.core_world.specs.Trees.MonitorSteps.{inflate_by, inflate_steps};
ghost use Rattle.heap_table.specs.Parts.{IsDueOn, HasMadeSteps};
ghost use Rattle.heap_table.specs.Seen.{IsOf};

use core_world::{LocalEffect, PendingCause, Progress, Stage, WordId};
use heap_table::{CallContext, Heap, Pass, mark_of_word};
use mark_word::{MarkForm, OwnerForm, encode, encode_owner};

// Stores the words of a monitor that the thread keeps, before the object's mark names it.
fn prepare(
    heap: &Heap,
    pass: &mut Pass,
    call: &CallContext,
    stage: Stage,
    object: u32,
    monitor: u32,
    header: u64,
    owner: u64,
)
    requires heap { IsOf heap.now pass.old }
    requires due { IsDueOn heap.now pass.old call.now.task
        (prepare_steps call.now stage object monitor header owner) }
    ensures { HasMadeSteps heap.now (prepare_steps call.now stage object monitor header owner)
        pass.old pass.new result }
{
    heap.store(pass, call, stage, WordId::Header { monitor }, header);
    heap.store(pass, call, stage, WordId::Owner { monitor }, owner);
    heap.store(pass, call, stage, WordId::Recursions { monitor }, 0);
    heap.store(pass, call, stage, WordId::Object { monitor }, object as u64);
}

// The mark names a lock record. While it is 0, the monitor gets the record's header, and the record as its owner.
fn inflate_locked(
    heap: &Heap,
    pass: &mut Pass,
    call: &CallContext,
    object: u32,
    mark: u64,
    monitor: u32,
    thread: u32,
    place: u32,
) -> Progress<u32>
    requires heap { IsOf heap.now pass.old }
    requires due { IsDueOn heap.now pass.old call.now.task
        (inflate_locked call.now object mark monitor thread place) }
    ensures { HasMadeSteps heap.now (inflate_locked call.now object mark monitor thread place)
        pass.old pass.new result }
{
    let stage = Stage::Inflates {
        object,
        thread,
        place,
    };
    let found = heap.exchange(pass, call, stage, WordId::Mark { object }, mark, 0);
    if found != mark {
        return Progress::Pending(PendingCause::Raced {
            expected: mark,
            found,
        });
    }
    let header = heap.load(pass, call, stage, WordId::Displaced { thread, place });
    let owner = encode_owner(&OwnerForm::ByRecord { thread, place });
    prepare(heap, pass, call, stage, object, monitor, header, owner);
    let named = encode(&MarkForm::Inflated { monitor });
    let at = WordId::Mark { object };
    heap.store_and_keep(
        pass,
        call,
        Stage::Settled,
        LocalEffect::DropClaim,
        at,
        named,
    );
    Progress::Done(monitor)
}

// The mark is neutral: the monitor gets it as its header, and no owner, and then the mark is exchanged.
fn inflate_neutral(
    heap: &Heap,
    pass: &mut Pass,
    call: &CallContext,
    object: u32,
    mark: u64,
    monitor: u32,
) -> Progress<u32>
    requires heap { IsOf heap.now pass.old }
    requires due { IsDueOn heap.now pass.old call.now.task (inflate_neutral call.now object mark monitor) }
    ensures { HasMadeSteps heap.now (inflate_neutral call.now object mark monitor) pass.old pass.new result }
{
    let owner = encode_owner(&OwnerForm::Free);
    prepare(
        heap,
        pass,
        call,
        Stage::Settled,
        object,
        monitor,
        mark,
        owner,
    );
    let named = encode(&MarkForm::Inflated { monitor });
    let at = WordId::Mark { object };
    let found = heap.exchange_and_keep(pass, call, LocalEffect::DropClaim, at, mark, named);
    if found != mark {
        return Progress::Pending(PendingCause::Raced {
            expected: mark,
            found,
        });
    }
    Progress::Done(monitor)
}

// By what the mark says, with this monitor of the thread.
fn inflate_with(
    heap: &Heap,
    pass: &mut Pass,
    call: &CallContext,
    object: u32,
    mark: u64,
    monitor: u32,
) -> Progress<u32>
    requires heap { IsOf heap.now pass.old }
    requires due { IsDueOn heap.now pass.old call.now.task
        (inflate_with (read_mark mark) call.now object mark monitor) }
    ensures { HasMadeSteps heap.now (inflate_with (read_mark mark) call.now object mark monitor)
        pass.old pass.new result }
{
    match mark_of_word(mark) {
        Some(form) => match form {
            MarkForm::Locked { thread, place } => {
                inflate_locked(heap, pass, call, object, mark, monitor, thread, place)
            }
            MarkForm::Neutral { .. } => inflate_neutral(heap, pass, call, object, mark, monitor),
            _ => unreachable!(),
        },
        None => unreachable!(),
    }
}

// With the monitor that the thread keeps, or else with one that it claims.
fn inflate_by(
    heap: &Heap,
    pass: &mut Pass,
    call: &CallContext,
    object: u32,
    mark: u64,
) -> Progress<u32>
    requires heap { IsOf heap.now pass.old }
    requires due { IsDueOn heap.now pass.old call.now.task
        (inflate_by pass.old.known.kept heap.now.heap.shape call.now object mark) }
    ensures { HasMadeSteps heap.now (inflate_by pass.old.known.kept heap.now.heap.shape call.now object mark)
        pass.old pass.new result }
{
    match pass.kept() {
        Some(kept) => inflate_with(heap, pass, call, object, mark, kept as u32),
        None => {
            let position = heap.claim(pass, call);
            let claimed = heap.fetch(pass, call, position);
            inflate_with(heap, pass, call, object, mark, claimed as u32)
        }
    }
}

/// Answers the number of the object's monitor: that of the one that its mark names already, or of one that the thread
/// gives it. The object's mark has no bias pattern.
///
/// `Done(monitor)` says that the object's mark names this monitor. Where the thread gave it, it is the one that the
/// thread kept, or else the one at the ring position that it claimed, and the thread keeps none any more. Its header is
/// the neutral mark that the object had, or that the object's lock record had displaced; its owner is nobody, or that
/// record; and its recursions are 0.
/// `Pending(Inflating)` says that another thread is inflating the lock: nothing was stored.
/// `Pending(Raced { expected, found })` says that the exchange expected the mark that the thread had seen and found
/// another: the mark is left as it was. The thread keeps its monitor, the one that it claimed as well, for the next
/// time; where the mark was neutral, the words of that monitor were stored.
/// Whatever it answers, nothing is logged, and the thread's hold words and its waiting word are as they were.
///
/// In OpenJDK 8: `ObjectSynchronizer::inflate` (`synchronizer.cpp`), with `omAlloc` for the claim.
pub fn inflate(heap: &Heap, pass: &mut Pass, call: &CallContext, object: u32) -> Progress<u32>
    requires heap { IsOf heap.now pass.old }
    requires due { IsDueOn heap.now pass.old call.now.task
        (inflate_steps heap.now.heap.shape call.now pass.old.known.kept object) }
    ensures run { HasMadeSteps heap.now (inflate_steps heap.now.heap.shape call.now pass.old.known.kept object)
        pass.old pass.new result }
    ensures local { local_of pass.new.known ≡ local_of pass.old.known }
{
    let mark = heap.load(pass, call, Stage::Settled, WordId::Mark { object });
    match mark_of_word(mark) {
        Some(form) => match form {
            MarkForm::Inflating => Progress::Pending(PendingCause::Inflating),
            MarkForm::Inflated { monitor } => Progress::Done(monitor),
            _ => inflate_by(heap, pass, call, object, mark),
        },
        None => inflate_by(heap, pass, call, object, mark),
    }
}
