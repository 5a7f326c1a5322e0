//! Two threads that step on one heap.

ghost use Rattle.std.specs.Prelude.{◌≡◌, ◌^◌, ◌<◌, IfOk};
ghost use Rattle.heap_table.specs.Seen.{IsOf};
ghost use Rattle.heap_table.specs.Fresh.{IsFresh, IsStoppedPass};
ghost use Rattle.heap_tests.specs.Known.{two};

use crate::compare::{holds, same};
use crate::last::{end, word};
use crate::start::begin_two;
use core_world::{HeapCall, Stage, WordId};
use heap_table::{CallContext, Closed, Heap, Pass};
use plain_monitor::NoMemory;
use std::test::Fail;
use std::thread::{Threads, join};

// Loads the safepoint word, in a call of a resume.
fn look(heap: &Heap, pass: &mut Pass) -> u64
    requires { IsFresh heap.now pass.old.known.thread pass.old }
    ensures still { IsStoppedPass heap.now pass.old.known.thread pass.new }
{
    let call = CallContext {
        task: HeapCall::Resume,
        unfinished: None,
        check: false,
    };
    heap.look(pass, &call).0
}

// The safepoint word in which this thread alone runs.
fn bit(thread: u32) -> u64
    requires { thread < 16 }
    ensures { result ≡ 2 ^ thread }
{
    1 << thread
}

// Loads the safepoint word, and tries to exchange 0 for the word in which this thread alone runs.
fn try_first(heap: &Heap, pass: &mut Pass)
    requires { IsFresh heap.now pass.old.known.thread pass.old }
    ensures { IsOf heap.now pass.new }
{
    let call = CallContext {
        task: HeapCall::Resume,
        unfinished: None,
        check: false,
    };
    let found = heap.look(pass, &call).0;
    if found == 0 {
        let word = bit(pass.thread());
        heap.exchange(pass, &call, Stage::Settled, WordId::Safepoint, 0, word);
    }
}

fn race<R: Threads>(
    rt: &R,
    heap: &Heap,
    first: Box<Pass>,
    second: Box<Pass>,
) -> (Box<Pass>, Box<Pass>)
    requires { IsFresh heap.now 0 first.value × IsFresh heap.now 1 second.value }
    ensures { IsOf heap.now result.0.value × IsOf heap.now result.1.value }
{
    join(
        rt,
        move || -> Box<Pass>
            requires { IsFresh heap.now 0 first.value }
            ensures { IsOf heap.entry.now result.value }
        {
            let mut pass = first;
            try_first(heap, &mut pass);
            pass
        },
        move || -> Box<Pass>
            requires { IsFresh heap.now 1 second.value }
            ensures { IsOf heap.entry.now result.value }
        {
            let mut pass = second;
            try_first(heap, &mut pass);
            pass
        },
    )
}

fn look_both<R: Threads>(
    rt: &R,
    heap: &Heap,
    first: Box<Pass>,
    second: Box<Pass>,
) -> (Box<Pass>, Box<Pass>)
    requires { IsFresh heap.now 0 first.value × IsFresh heap.now 1 second.value }
    ensures { IsStoppedPass heap.now 0 result.0.value × IsStoppedPass heap.now 1 result.1.value }
{
    join(
        rt,
        move || -> Box<Pass>
            requires { IsFresh heap.now 0 first.value }
            ensures { IsStoppedPass heap.entry.now 0 result.value }
        {
            let mut pass = first;
            look(heap, &mut pass);
            pass
        },
        move || -> Box<Pass>
            requires { IsFresh heap.now 1 second.value }
            ensures { IsStoppedPass heap.entry.now 1 result.value }
        {
            let mut pass = second;
            look(heap, &mut pass);
            pass
        },
    )
}

#[test]
fn one_of_two_resumes_hits(rt: HostRuntime) -> Result<(), Fail> {
    for _ in 0..100u32 {
        let (heap, first, second) = begin_two(rt.alloc(), false)?;
        let (first, second) = race(&rt, &heap, first, second);
        holds(&rt, first.running() != second.running());
        same(&rt, first.log().len(), 0);
        same(&rt, second.room(), 86);
    }
    Ok(())
}

// The end of a heap without biases at whose safepoint word both threads have looked.
fn looked_at<R: AllocGlobal + Threads>(rt: &R) -> Result<Box<Closed>, NoMemory>
    ensures { IfOk result (λ closed. closed.value.heap.shape ≡ two) }
{
    let (heap, first, second) = begin_two(rt.alloc(), false)?;
    let (first, second) = look_both(rt, &heap, first, second);
    end(rt.alloc(), heap, first, second)
}

#[test]
fn a_heap_that_was_looked_at_ends_as_it_began(rt: HostRuntime) -> Result<(), Fail> {
    let ended = looked_at(&rt)?;
    let closed: &Closed = &ended;
    let shape = closed.shape();
    same(&rt, closed.logs().items().len(), 2);
    same(&rt, closed.counts().items().len(), 2);
    holds(&rt, !closed.halted());
    // The second object's mark and slot, and the safepoint word.
    same(&rt, word(closed, shape.mark_at(1)), Some(1));
    same(&rt, word(closed, shape.slot_at(1, 0)), Some((1 << 63) + 1));
    same(&rt, word(closed, 0), Some(0));
    Ok(())
}
