//! A heap of two threads as it begins, and how a thread of it resumes.
//!
//! The heap and the passes lie in boxes, as the proof of a function lists at each of its steps all words that it holds itself: of a
//! pass those are 64 for its holds alone. Only here, and where a heap ends (`last`), has a function one of them itself.
ghost use Rattle.std.specs.Prelude.{◌≡◌, ◌∷◌, [], ◌++◌, IfOk, true};
ghost use Rattle.core_world.specs.declared.word_id.WordId.TheVariants.{Safepoint};
ghost use Rattle.core_world.specs.Due.{IsNext};
ghost use Rattle.core_world.specs.Opening.{first_known};
ghost use Rattle.core_world.specs.Trees.Plans.{swap};
ghost use Rattle.heap_table.specs.Fresh.{IsFresh};
ghost use Rattle.heap_table.specs.Seen.{first_pass};
ghost use Rattle.heap_tests.specs.Known.{two, resuming, looked, resumed, Knows};

use crate::compare::holds;
use core_world::{HeapCall, Stage, WordId};
use heap_table::{CallContext, Heap, HeapShape, Pass};
use lawful_heap::new_heap;
use plain_monitor::NoMemory;
use std::alloc::Global;
use std::process::Abort;

/// The value in a box.
pub fn boxed<T: Drop>(alloc: Global, value: T) -> Result<Box<T>, NoMemory>
    ensures { IfOk result (λ b. b.value ≡ value) }
{
    match Box::new(alloc, value) {
        Ok(boxed) => Ok(boxed),
        Err(_) => Err(NoMemory),
    }
}

// The heap of this shape, and its passes.
fn made(alloc: Global, shape: HeapShape, biasing: bool) -> Result<(Box<Heap>, Vec<Pass>), NoMemory>
    requires { shape.threads ≡ 2 }
    ensures heap { IfOk result (λ r. r.0.value.heap ≡ record { shape = shape; start = 7; biasing = biasing }) }
    ensures passes { IfOk result (λ r. r.1.items ≡ first_pass r.0.value 86 0 ∷ first_pass r.0.value 86 1 ∷ []) }
    ensures fresh { IfOk result (λ r. IsFresh r.0.value 0 (first_pass r.0.value 86 0)
        × IsFresh r.0.value 1 (first_pass r.0.value 86 1)) }
{
    let (heap, passes) = new_heap(alloc, shape, 10, 7, biasing)?;
    Ok((boxed(alloc, heap)?, passes.into_vec()))
}

// Takes the last of the passes.
fn last(alloc: Global, passes: &mut Vec<Pass>) -> Result<Box<Pass>, NoMemory>
    ensures { IfOk result (λ b. passes.old.items ≡ passes.new.items ++ (b.value ∷ [])) }
{
    let Some(pass) = passes.pop() else {
        return Err(NoMemory);
    };
    boxed(alloc, pass)
}

/// A heap of this shape, which has two threads, with biases or without, and the passes.
pub fn begin(
    alloc: Global,
    shape: HeapShape,
    biasing: bool,
) -> Result<(Box<Heap>, Box<Pass>, Box<Pass>), NoMemory>
    requires { shape.threads ≡ 2 }
    ensures heap { IfOk result (λ r. r.0.value.heap ≡ record { shape = shape; start = 7; biasing = biasing }) }
    ensures limit { IfOk result (λ r. (r.1.value.limit ≡ 86) × (r.2.value.limit ≡ 86)) }
    ensures fresh { IfOk result (λ r. IsFresh r.0.value 0 r.1.value × IsFresh r.0.value 1 r.2.value) }
{
    let (heap, mut passes) = made(alloc, shape, biasing)?;
    let second = last(alloc, &mut passes)?;
    let first = last(alloc, &mut passes)?;
    Ok((heap, first, second))
}

/// A heap of two threads and two objects of a class with one slot, with biases or without, and the passes.
pub fn begin_two(
    alloc: Global,
    biasing: bool,
) -> Result<(Box<Heap>, Box<Pass>, Box<Pass>), NoMemory>
    ensures biasing { IfOk result (λ r. r.0.value.heap.biasing ≡ biasing) }
    ensures knows { IfOk result (λ r. Knows r.0.value (first_known 0) r.1.value × Knows r.0.value (first_known 1) r.2.value) }
{
    let shape = HeapShape::of(alloc, 2, &[1], &[0, 0], 2)?;
    begin(alloc, shape, biasing)
}

/// The thread of such a heap resumes, by an exchange of this safepoint word for that one. False where it finds another word.
pub fn resume(heap: &Heap, pass: &mut Pass, thread: u32, from: u64, to: u64) -> bool
    requires knows { Knows heap.now (first_known thread) pass.old }
    requires next { IsNext two 7 heap.now.heap.biasing (looked thread from) (swap resuming Safepoint from to) }
    ensures { result ≡ true → Knows heap.now (resumed thread from to) pass.new }
{
    let call = CallContext {
        task: HeapCall::Resume,
        unfinished: None,
        check: false,
    };
    let found = heap.look(pass, &call).0;
    if found != from {
        return false;
    }
    let left = heap.exchange(pass, &call, Stage::Settled, WordId::Safepoint, from, to);
    if left != from {
        return false;
    }
    true
}

/// Both threads of such a heap resume, the first one first.
pub fn resume_both(rt: &impl Abort, heap: &Heap, first: &mut Pass, second: &mut Pass)
    requires { Knows heap.now (first_known 0) first.old × Knows heap.now (first_known 1) second.old }
    ensures { Knows heap.now (resumed 0 0 1) first.new × Knows heap.now (resumed 1 1 3) second.new }
{
    holds(rt, resume(heap, first, 0, 0, 1));
    holds(rt, resume(heap, second, 1, 1, 3));
}
