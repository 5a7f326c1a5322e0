//! A thread that resumes, takes an object and leaves it, and stops, on real words.
ghost use Rattle.std.specs.Prelude.{◌≡◌, [], true};
ghost use Rattle.heap_table.specs.Fresh.{IsStoppedPass};
ghost use Rattle.heap_tests.specs.Known.{two};
ghost use Rattle.heap_tests.specs.Walk.{IsAt, entered, left, resumed, stopped};

use crate::compare::{holds, same};
use crate::last::{end, word};
use crate::start::{self, begin_two};
use core_world::{HeapCall, Operation, Stage, Unfinished, WordId};
use heap_table::{CallContext, Closed, Heap, Pass};
use plain_monitor::{Entry, Logged, Path};
use std::process::Abort;
use std::test::Fail;

// The thread resumes.
fn resume(heap: &Heap, pass: &mut Pass) -> bool
    requires { IsAt heap.now [] pass.old }
    ensures { result ≡ true → IsAt heap.now resumed pass.new }
{
    start::resume(heap, pass, 0, 0, 1)
}

// It takes the second object.
fn enter(heap: &Heap, pass: &mut Pass) -> bool
    requires { IsAt heap.now resumed pass.old }
    ensures { result ≡ true → IsAt heap.now entered pass.new }
{
    let call = CallContext {
        task: HeapCall::StackEnter { object: 1, mark: 1 },
        unfinished: None,
        check: false,
    };
    let displaced = WordId::Displaced {
        thread: 0,
        place: 0,
    };
    let own = WordId::Hold {
        thread: 0,
        place: 0,
    };
    let seizes = Stage::RecordLocked {
        object: 1,
        place: 0,
    };
    let enters = Stage::Enters {
        object: 1,
        place: 0,
        path: Path::StackFirst,
    };
    let entry = Entry::Enter {
        object: 1,
        path: Path::StackFirst,
    };
    let found = heap.store(pass, &call, Stage::Settled, displaced, 1);
    if found != 0 {
        return false;
    }
    let mark = heap.exchange(pass, &call, seizes, WordId::Mark { object: 1 }, 1, 4096);
    if mark != 1 {
        return false;
    }
    let hold = heap.store(pass, &call, enters, own, 257);
    if hold != 0 {
        return false;
    }
    let stamp = heap.log_load(pass, &call, WordId::Stamp { object: 1 }, entry);
    if stamp != 0 {
        return false;
    }
    true
}

// It leaves that object.
fn leave(heap: &Heap, pass: &mut Pass) -> bool
    requires { IsAt heap.now entered pass.old }
    ensures { result ≡ true → IsAt heap.now left pass.new }
{
    let unfinished = Some(Unfinished {
        op: Operation::Exit,
        object: 1,
    });
    let call = CallContext {
        task: HeapCall::StackExit { object: 1 },
        unfinished,
        check: false,
    };
    let over = CallContext {
        task: HeapCall::StackExit { object: 1 },
        unfinished: None,
        check: false,
    };
    let displaced = WordId::Displaced {
        thread: 0,
        place: 0,
    };
    let own = WordId::Hold {
        thread: 0,
        place: 0,
    };
    let exits = Stage::Exits {
        object: 1,
        place: 0,
    };
    let entry = Entry::Exit { object: 1 };
    let stamp = heap.raise(pass, &call, WordId::Stamp { object: 1 }, 2);
    if stamp != 0 {
        return false;
    }
    let header = heap.load(pass, &call, Stage::Settled, displaced);
    if header != 1 {
        return false;
    }
    let mark = heap.load(pass, &call, Stage::Settled, WordId::Mark { object: 1 });
    if mark != 4096 {
        return false;
    }
    let found = heap.log_exchange(
        pass,
        &call,
        exits,
        WordId::Mark { object: 1 },
        4096,
        1,
        entry,
    );
    if found != 4096 {
        return false;
    }
    let hold = heap.store(pass, &over, Stage::Settled, own, 0);
    if hold != 257 {
        return false;
    }
    true
}

// It stops.
fn stop(heap: &Heap, pass: &mut Pass) -> bool
    requires { IsAt heap.now left pass.old }
    ensures { result ≡ true → IsAt heap.now stopped pass.new }
{
    let call = CallContext {
        task: HeapCall::Stop,
        unfinished: None,
        check: false,
    };
    let length = heap.store(pass, &call, Stage::Settled, WordId::Length { thread: 0 }, 2);
    if length != 0 {
        return false;
    }
    let all = heap.mask(pass, &call, WordId::Safepoint, u64::MAX - 1);
    if all != 1 {
        return false;
    }
    true
}

// It does all this.
fn walk(heap: &Heap, pass: &mut Pass) -> bool
    requires { IsAt heap.now [] pass.old }
    ensures { result ≡ true → IsStoppedPass heap.now 0 pass.new }
{
    if !resume(heap, pass) {
        return false;
    }
    if !enter(heap, pass) {
        return false;
    }
    if !leave(heap, pass) {
        return false;
    }
    stop(heap, pass)
}

// The end of a walk leaves these words of the second object, of the first thread and of the heap.
fn has_last_words(rt: &impl Abort, closed: &Closed)
    requires { closed.now.heap.shape ≡ two }
{
    let shape = closed.shape();
    same(rt, word(closed, shape.mark_at(1)), Some(1));
    same(rt, word(closed, shape.stamp_at(1)), Some(2));
    same(rt, word(closed, shape.hold_at(0, 0)), Some(0));
    same(rt, word(closed, shape.displaced_at(0, 0)), Some(1));
    same(rt, word(closed, shape.length_at(0)), Some(2));
    same(rt, word(closed, shape.wait_at(0)), Some(0));
    same(rt, word(closed, shape.safe_at()), Some(0));
}

// The stamp of this entry of the first thread's log. `None` where there are not so many.
fn stamp(closed: &Closed, entry: usize) -> Option<u64> {
    match closed.logs().items().first()?.items().get(entry) {
        Some(logged) => Some(logged.stamp),
        None => None,
    }
}

// It has logged that it entered and left the object.
fn has_last_stamps(rt: &impl Abort, closed: &Closed) {
    same(rt, stamp(closed, 0), Some(1));
    same(rt, stamp(closed, 1), Some(2));
    same(rt, stamp(closed, 2), None);
}

/// What the first thread has logged where it has the second object.
const ENTERED: &[Logged] = &[Logged {
    stamp: 1,
    entry: Entry::Enter {
        object: 1,
        path: Path::StackFirst,
    },
}];

// It resumes, and takes the second object.
fn take(rt: &impl Abort, heap: &Heap, pass: &mut Pass)
    requires { IsAt heap.now [] pass.old }
{
    let resumed = resume(heap, pass);
    holds(rt, resumed);
    holds(rt, pass.running());
    let entered = enter(heap, pass);
    holds(rt, entered);
}

// What it then has, and has logged.
fn has_taken(rt: &impl Abort, pass: &Pass) {
    same(rt, pass.hold_words()[0], 257);
    same(rt, pass.held(1), 1);
    same(rt, pass.holds(), 1);
    same(rt, pass.log(), ENTERED);
    same(rt, pass.room(), 85);
}

#[test]
fn an_object_is_taken_by_a_lock_record(rt: HostRuntime) -> Result<(), Fail> {
    let (heap, mut pass, _second) = begin_two(rt.alloc(), false)?;
    take(&rt, &heap, &mut pass);
    has_taken(&rt, &pass);
    Ok(())
}

#[test]
fn a_walk_leaves_its_words(rt: HostRuntime) -> Result<(), Fail> {
    let (heap, mut first, second) = begin_two(rt.alloc(), false)?;
    let walked = walk(&heap, &mut first);
    holds(&rt, walked);
    holds(&rt, !first.running());
    let closed = end(rt.alloc(), heap, first, second)?;
    has_last_words(&rt, &closed);
    has_last_stamps(&rt, &closed);
    Ok(())
}
