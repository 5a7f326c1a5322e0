//! A heap of two threads, and whole calls on it. `None` where a call may not begin.
ghost use Rattle.std.specs.Prelude.{◌≡◌, ◌<◌, ◌^◌, ℕ, IfOk, if◌then◌else◌};
ghost use Rattle.plain_monitor.specs.Limits.{entries_for};
ghost use Rattle.heap_table.specs.Fresh.{IsFresh};
ghost use Rattle.heap_table.specs.Resting.{Rests};
ghost use Rattle.heap_table.specs.Seen.{first_pass, first_passes};

use crate::asked::{may_call, may_make};
use core_world::{
    HeapCall, IllegalMonitorState, PendingCause, Progress, TooDeep, TooMany, TooManyDumps,
    Unguarded,
};
use heap_table::{Heap, HeapShape, Pass};
use lawful_heap::{new_heap, new_heap_without_pages};
use plain_monitor::{Ending, List, NoMemory, Path, Value};
use std::alloc::Global;

// The class of each object.
const CLASSES: [u32; 101] = [0; 101];

// The heap of this shape, whose passes keep their logs or not.
fn heap_of(
    alloc: Global,
    shape: HeapShape,
    biasing: bool,
    kept: bool,
) -> Result<(Heap, List<Pass>), NoMemory>
    ensures passes { IfOk result (λ r. r.1 ≡ first_passes r.0 (if kept then entries_for 1000 else 2 ^ 42) 0 shape.threads) }
    ensures fresh { IfOk result (λ r. (t : ℕ) → t < shape.threads
        → IsFresh r.0 t (first_pass r.0 (if kept then entries_for 1000 else 2 ^ 42) t)) }
{
    if kept {
        new_heap(alloc, shape, 1000, 1, biasing)
    } else {
        new_heap_without_pages(alloc, shape, 1, biasing)
    }
}

// It, and the passes of its two threads.
fn passes(
    alloc: Global,
    shape: HeapShape,
    biasing: bool,
    kept: bool,
) -> Result<(Heap, Pass, Pass), NoMemory>
    requires { shape.threads ≡ 2 }
    ensures { IfOk result (λ r. IsFresh r.0 0 r.1 × IsFresh r.0 1 r.2) }
{
    let (heap, passes) = heap_of(alloc, shape, biasing, kept)?;
    let mut passes = passes.into_vec();
    let Some(second) = passes.pop() else {
        return Err(NoMemory);
    };
    let Some(first) = passes.pop() else {
        return Err(NoMemory);
    };
    Ok((heap, first, second))
}

fn fresh(alloc: Global, biasing: bool, kept: bool) -> Result<(Heap, Pass, Pass), NoMemory>
    ensures { IfOk result (λ r. IsFresh r.0 0 r.1 × IsFresh r.0 1 r.2) }
{
    let shape = HeapShape::of(alloc, 2, &[1], &CLASSES, 101)?;
    passes(alloc, shape, biasing, kept)
}

fn fresh_to_make(alloc: Global, biasing: bool) -> Result<(Heap, Pass, Pass), NoMemory>
    ensures { IfOk result (λ r. IsFresh r.0 0 r.1 × IsFresh r.0 1 r.2) }
{
    let shape = HeapShape::of(alloc, 2, &[1], &[0], 1)?;
    passes(alloc, shape.with_made(1)?, biasing, true)
}

/// A heap of two threads and 101 objects of one class with one slot, with or without biases, and its passes, which keep their logs or not.
pub fn begin(alloc: Global, biasing: bool, kept: bool) -> Result<(Heap, Pass, Pass), NoMemory>
    ensures { IfOk result (λ r. Rests r.0 r.1 × Rests r.0 r.2) }
{
    fresh(alloc, biasing, kept)
}

/// The same with one declared object and with logs, where the first thread makes the objects from 1 on, and the second those from 1025 on.
pub fn begin_to_make(alloc: Global, biasing: bool) -> Result<(Heap, Pass, Pass), NoMemory>
    ensures { IfOk result (λ r. Rests r.0 r.1 × Rests r.0 r.2) }
{
    fresh_to_make(alloc, biasing)
}

pub fn poll(heap: &Heap, pass: &mut Pass) -> Option<Progress<()>>
    requires { Rests heap.now pass.old }
    ensures { Rests heap.now pass.new }
{
    if may_call(heap, pass, HeapCall::Poll) {
        Some(lock_runtime::poll(heap, pass))
    } else {
        None
    }
}

pub fn stop(heap: &Heap, pass: &mut Pass) -> bool
    requires { Rests heap.now pass.old }
    ensures { Rests heap.now pass.new }
{
    if may_call(heap, pass, HeapCall::Stop) {
        lock_runtime::stop(heap, pass);
        true
    } else {
        false
    }
}

pub fn resume(heap: &Heap, pass: &mut Pass) -> Option<Progress<()>>
    requires { Rests heap.now pass.old }
    ensures { Rests heap.now pass.new }
{
    if may_call(heap, pass, HeapCall::Resume) {
        Some(lock_runtime::resume(heap, pass))
    } else {
        None
    }
}

pub fn enter(
    heap: &Heap,
    pass: &mut Pass,
    object: u32,
    now: u64,
) -> Option<Result<Progress<Path>, TooDeep>>
    requires { Rests heap.now pass.old }
    ensures { Rests heap.now pass.new }
{
    if may_make(heap, pass, HeapCall::Enter { object, now }) {
        Some(lock_runtime::enter(heap, pass, object, now))
    } else {
        None
    }
}

pub fn exit(
    heap: &Heap,
    pass: &mut Pass,
    object: u32,
) -> Option<Result<Progress<()>, IllegalMonitorState>>
    requires { Rests heap.now pass.old }
    ensures { Rests heap.now pass.new }
{
    if may_make(heap, pass, HeapCall::Exit { object }) {
        Some(lock_runtime::exit(heap, pass, object))
    } else {
        None
    }
}

pub fn get(heap: &Heap, pass: &mut Pass, object: u32, slot: u32) -> Option<Result<Value, Unguarded>>
    requires { Rests heap.now pass.old }
    ensures { Rests heap.now pass.new }
{
    if may_make(heap, pass, HeapCall::Get { object, slot }) {
        Some(lock_runtime::get(heap, pass, object, slot))
    } else {
        None
    }
}

pub fn put(
    heap: &Heap,
    pass: &mut Pass,
    object: u32,
    slot: u32,
    value: Value,
) -> Option<Result<(), Unguarded>>
    requires { Rests heap.now pass.old }
    ensures { Rests heap.now pass.new }
{
    let task = HeapCall::Put {
        object,
        slot,
        value,
    };
    if may_make(heap, pass, task) {
        Some(lock_runtime::put(heap, pass, object, slot, value))
    } else {
        None
    }
}

pub fn print(heap: &Heap, pass: &mut Pass, value: Value) -> bool
    requires { Rests heap.now pass.old }
    ensures { Rests heap.now pass.new }
{
    if may_make(heap, pass, HeapCall::Print { value }) {
        lock_runtime::print(heap, pass, value);
        true
    } else {
        false
    }
}

pub fn finish(heap: &Heap, pass: &mut Pass, ending: Ending) -> bool
    requires { Rests heap.now pass.old }
    ensures { Rests heap.now pass.new }
{
    if may_make(heap, pass, HeapCall::Finish { ending }) {
        lock_runtime::finish(heap, pass, ending);
        true
    } else {
        false
    }
}

pub fn wait(
    heap: &Heap,
    pass: &mut Pass,
    object: u32,
    now: u64,
) -> Option<Result<Progress<()>, IllegalMonitorState>>
    requires { Rests heap.now pass.old }
    ensures { Rests heap.now pass.new }
{
    if may_make(heap, pass, HeapCall::Wait { object, now }) {
        Some(lock_runtime::wait(heap, pass, object, now))
    } else {
        None
    }
}

pub fn notify(
    heap: &Heap,
    pass: &mut Pass,
    object: u32,
    now: u64,
) -> Option<Result<Progress<Option<u32>>, IllegalMonitorState>>
    requires { Rests heap.now pass.old }
    ensures { Rests heap.now pass.new }
{
    if may_make(heap, pass, HeapCall::Notify { object, now }) {
        Some(lock_runtime::notify(heap, pass, object, now))
    } else {
        None
    }
}

pub fn notify_all(
    heap: &Heap,
    pass: &mut Pass,
    object: u32,
    now: u64,
) -> Option<Result<Progress<u32>, IllegalMonitorState>>
    requires { Rests heap.now pass.old }
    ensures { Rests heap.now pass.new }
{
    if may_make(heap, pass, HeapCall::NotifyAll { object, now }) {
        Some(lock_runtime::notify_all(heap, pass, object, now))
    } else {
        None
    }
}

pub fn check_stuck(heap: &Heap, pass: &mut Pass) -> Option<Progress<bool>>
    requires { Rests heap.now pass.old }
    ensures { Rests heap.now pass.new }
{
    if may_call(heap, pass, HeapCall::Check) {
        Some(lock_runtime::check_stuck(heap, pass))
    } else {
        None
    }
}

pub fn hash(heap: &Heap, pass: &mut Pass, object: u32, now: u64) -> Option<Progress<u32>>
    requires { Rests heap.now pass.old }
    ensures { Rests heap.now pass.new }
{
    if may_make(heap, pass, HeapCall::Hash { object, now }) {
        Some(lock_runtime::hash(heap, pass, object, now))
    } else {
        None
    }
}

pub fn dump(heap: &Heap, pass: &mut Pass) -> Option<Result<Progress<u32>, TooManyDumps>>
    requires { Rests heap.now pass.old }
    ensures { Rests heap.now pass.new }
{
    if may_make(heap, pass, HeapCall::Dump) {
        Some(lock_runtime::dump(heap, pass))
    } else {
        None
    }
}

pub fn create(heap: &Heap, pass: &mut Pass, class: u32) -> Option<Result<u32, TooMany>>
    requires { Rests heap.now pass.old }
    ensures { Rests heap.now pass.new }
{
    if may_make(heap, pass, HeapCall::Create { class }) {
        Some(lock_runtime::create(heap, pass, class))
    } else {
        None
    }
}

/// What a call answers that is done, or pending.
pub const DONE: Option<Progress<()>> = Some(Progress::Done(()));

pub fn pending(why: PendingCause) -> Option<Progress<()>> {
    Some(Progress::Pending(why))
}

pub fn entered(path: Path) -> Option<Result<Progress<Path>, TooDeep>> {
    Some(Ok(Progress::Done(path)))
}

pub fn not_entered(why: PendingCause) -> Option<Result<Progress<Path>, TooDeep>> {
    Some(Ok(Progress::Pending(why)))
}

pub const LEFT: Option<Result<Progress<()>, IllegalMonitorState>> = Some(Ok(Progress::Done(())));
