//! Two threads of one heap: one asks for a safepoint, and the other stops for it.
ghost use Rattle.std.specs.Prelude.{◌≡◌, ◌&&◌, IfOk, false, is_none, not, None};
ghost use Rattle.heap_table.specs.Resting.{Rests};

use crate::compare::{holds, same};
use crate::start;
use core_world::{HeapCall, PendingCause, Progress};
use heap_table::{CallContext, Heap, HeapShape, Pass};
use plain_monitor::NoMemory;
use std::alloc::Global;
use std::process::Abort;
use std::test::Fail;

// A heap of two threads and one object, without biases, and the passes.
fn begin(alloc: Global) -> Result<(Box<Heap>, Box<Pass>, Box<Pass>), NoMemory>
    ensures { IfOk result (λ r. Rests r.0.value r.1.value × Rests r.0.value r.2.value) }
{
    let shape = HeapShape::of(alloc, 2, &[1], &[0], 1)?;
    start::begin(alloc, shape, false)
}

// The context of a call that leaves as they are the unfinished operation and the check, and of one that leaves nothing
// unfinished.
fn aside(pass: &Pass, task: HeapCall) -> CallContext
    ensures { result ≡ record { task = task; unfinished = pass.now.known.unfinished; check = pass.now.known.checking } }
{
    CallContext {
        task,
        unfinished: pass.unfinished(),
        check: pass.checking(),
    }
}

fn alone(task: HeapCall) -> CallContext
    ensures { result ≡ record { task = task; unfinished = None; check = false } }
{
    CallContext {
        task,
        unfinished: None,
        check: false,
    }
}

// Whether nothing is unfinished.
fn is_free(pass: &Pass) -> bool
    ensures { result ≡ (is_none pass.now.known.unfinished && not pass.now.known.checking) }
{
    pass.unfinished().is_none() && !pass.checking()
}

// Whole calls. `None` where the call may not begin.
fn poll(heap: &Heap, pass: &mut Pass) -> Option<Progress<()>>
    requires { Rests heap.now pass.old }
    ensures { Rests heap.now pass.new }
{
    if pass.running() {
        let call = aside(pass, HeapCall::Poll);
        Some(safepoint::poll(heap, pass, &call))
    } else {
        None
    }
}

fn stop(heap: &Heap, pass: &mut Pass) -> Option<()>
    requires { Rests heap.now pass.old }
    ensures { Rests heap.now pass.new }
{
    if pass.running() {
        let call = aside(pass, HeapCall::Stop);
        safepoint::stop(heap, pass, &call);
        Some(())
    } else {
        None
    }
}

fn resume(heap: &Heap, pass: &mut Pass) -> Option<Progress<()>>
    requires { Rests heap.now pass.old }
    ensures { Rests heap.now pass.new }
{
    if pass.running() || pass.requesting() {
        return None;
    }
    let call = aside(pass, HeapCall::Resume);
    Some(safepoint::resume(heap, pass, &call))
}

fn request(heap: &Heap, pass: &mut Pass) -> Option<Progress<()>>
    requires { Rests heap.now pass.old }
    ensures { Rests heap.now pass.new }
{
    if pass.running() && is_free(pass) {
        Some(safepoint::request(heap, pass, &alone(HeapCall::Request)))
    } else {
        None
    }
}

fn reached(heap: &Heap, pass: &mut Pass) -> Option<Progress<()>>
    requires { Rests heap.now pass.old }
    ensures { Rests heap.now pass.new }
{
    if pass.requesting() && is_free(pass) {
        Some(safepoint::reached(heap, pass, &alone(HeapCall::Reached)))
    } else {
        None
    }
}

fn release(heap: &Heap, pass: &mut Pass) -> Option<()>
    requires { Rests heap.now pass.old }
    ensures { Rests heap.now pass.new }
{
    if pass.reached() && is_free(pass) {
        safepoint::release(heap, pass, &alone(HeapCall::Release));
        Some(())
    } else {
        None
    }
}

const DONE: Option<Progress<()>> = Some(Progress::Done(()));

fn requested(word: u64) -> Option<Progress<()>> {
    Some(Progress::Pending(PendingCause::Requested { word }))
}

// The first thread runs, and the second asks for a safepoint.
fn second_asks(rt: &impl Abort, heap: &Heap, first: &mut Pass, second: &mut Pass)
    requires { Rests heap.now first.old × Rests heap.now second.old }
    ensures { Rests heap.now first.new × Rests heap.now second.new }
{
    same(rt, resume(heap, first), DONE);
    same(rt, resume(heap, second), DONE);
    same(rt, poll(heap, first), DONE);
    same(rt, request(heap, second), DONE);
    holds(rt, !second.running() && second.requesting());
}

// The second thread waits until the first has stopped, which is told that it should.
fn first_stops(rt: &impl Abort, heap: &Heap, first: &mut Pass, second: &mut Pass)
    requires { Rests heap.now first.old × Rests heap.now second.old }
    ensures { Rests heap.now first.new × Rests heap.now second.new }
{
    // The first thread runs still: bit 0, and the requester 1, as 2 in the field.
    let word = 8589934593;
    let stopping = Some(Progress::Pending(PendingCause::Stopping { word }));
    same(rt, reached(heap, second), stopping);
    holds(rt, !second.reached());
    holds(rt, release(heap, second).is_none());
    same(rt, poll(heap, first), requested(word));
    same(rt, request(heap, first), requested(word));
    holds(rt, first.running());
    holds(rt, stop(heap, first).is_some());
    holds(rt, !first.running());
}

// The second thread has its safepoint, and lets the first run again.
fn second_lets_go(rt: &impl Abort, heap: &Heap, first: &mut Pass, second: &mut Pass)
    requires { Rests heap.now first.old × Rests heap.now second.old }
    ensures { Rests heap.now first.new × Rests heap.now second.new }
{
    same(rt, reached(heap, second), DONE);
    holds(rt, second.reached());
    same(rt, resume(heap, first), requested(8589934592));
    holds(rt, !first.running());
    holds(rt, release(heap, second).is_some());
    holds(rt, second.running() && !second.requesting());
    same(rt, resume(heap, first), DONE);
    holds(rt, first.running());
    same(rt, poll(heap, second), DONE);
}

// The second thread has a safepoint, for which the first one stops.
fn first_stops_for_second(rt: &impl Abort, heap: &Heap, first: &mut Pass, second: &mut Pass)
    requires { Rests heap.now first.old × Rests heap.now second.old }
{
    second_asks(rt, heap, first, second);
    first_stops(rt, heap, first, second);
    second_lets_go(rt, heap, first, second);
}

#[test]
fn a_thread_stops_for_another(rt: HostRuntime) -> Result<(), Fail> {
    let (heap, mut first, mut second) = begin(rt.alloc())?;
    first_stops_for_second(&rt, &heap, &mut first, &mut second);
    Ok(())
}

// The second thread stays where it is until the first, which runs alone, has had its safepoint.
fn first_is_alone(rt: &impl Abort, heap: &Heap, first: &mut Pass, second: &mut Pass)
    requires { Rests heap.now first.old × Rests heap.now second.old }
{
    holds(rt, poll(heap, first).is_none());
    same(rt, resume(heap, first), DONE);
    same(rt, request(heap, first), DONE);
    same(rt, resume(heap, second), requested(4294967296));
    same(rt, reached(heap, first), DONE);
    holds(rt, release(heap, first).is_some());
    same(rt, resume(heap, second), DONE);
}

#[test]
fn a_lone_thread_has_its_safepoint_at_once(rt: HostRuntime) -> Result<(), Fail> {
    let (heap, mut first, mut second) = begin(rt.alloc())?;
    first_is_alone(&rt, &heap, &mut first, &mut second);
    Ok(())
}
