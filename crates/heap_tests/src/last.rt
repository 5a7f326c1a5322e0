//! The words of a heap of two threads at its end.
ghost use Rattle.std.specs.Prelude.{◌≡◌, ◌∷◌, [], IfOk};
ghost use Rattle.heap_table.specs.Fresh.{IsStoppedPass};

use crate::start::boxed;
use heap_table::{Closed, Heap, Pass, close};
use plain_monitor::{List, NoMemory};
use std::alloc::Global;

// The passes, in the order of their threads.
fn listed(alloc: Global, first: Box<Pass>, second: Box<Pass>) -> Result<List<Pass>, NoMemory>
    ensures { IfOk result (λ passes. passes ≡ first.value ∷ second.value ∷ []) }
{
    let Ok(mut passes) = Vec::with_capacity(alloc, 2) else {
        return Err(NoMemory);
    };
    passes.push_reserved(Box::into_inner(first));
    passes.push_reserved(Box::into_inner(second));
    Ok(List::of(passes))
}

/// The end of a heap of two threads that are stopped.
pub fn end(
    alloc: Global,
    heap: Box<Heap>,
    first: Box<Pass>,
    second: Box<Pass>,
) -> Result<Box<Closed>, NoMemory>
    requires threads { heap.value.heap.shape.threads ≡ 2 }
    requires passes { IsStoppedPass heap.value 0 first.value × IsStoppedPass heap.value 1 second.value }
    ensures { IfOk result (λ closed. closed.value.heap ≡ heap.value.heap) }
{
    let passes = listed(alloc, first, second)?;
    boxed(alloc, close(Box::into_inner(heap), passes))
}

/// The word at this place. `None` where there are not so many.
pub fn word(closed: &Closed, at: usize) -> Option<u64> {
    match closed.words().items().get(at) {
        Some(word) => Some(*word),
        None => None,
    }
}
