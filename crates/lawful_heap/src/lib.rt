//! A heap with the law that is proved of every heap: here those who run on a heap meet those who prove why its steps are sound.
//!
//! `heap_table` and all on it ask for a heap's law and never look into its proof; `core_steps` has the proof. Whoever has another
//! proof of a heap's law calls `Heap::new` with it.
#![tactic(auto)]

ghost use Rattle.std.specs.Prelude.{◌≡◌, ◌+◌, ◌*◌, ◌<◌, ◌≤◌, ◌^◌, ℕ, IfOk};
ghost use Rattle.plain_monitor.specs.Limits.{most_fuel, entries_for};
ghost use Rattle.core_world.specs.Opening.{opening};
ghost use Rattle.core_law.specs.Sound.{Sound};
ghost use Rattle.heap_table.specs.Fresh.{IsFresh};
ghost use Rattle.heap_table.specs.Seen.{first_pass, first_passes};

use core_steps::every_heap_has_its_law;
use heap_table::{Heap, HeapShape, Pass};
use plain_monitor::{List, NoMemory};
use std::alloc::Global;

/// Makes a heap of this shape with its law, with biases or without, and a pass for each thread, in order.
///
/// Each pass is stopped, with nothing logged, held, requested, counted or unfinished, and with room in a page of its
/// log for the entries that `fuel` instructions may log; `fuel` is at most 200,000. The hash generator of thread t
/// begins with the word `start + t`, modulo 2^32. The opening world is sound, the passes know what its threads know,
/// and each is one of this heap that has made no step. Nothing takes memory later.
///
/// # Errors
///
/// `NoMemory` where an allocation fails.
pub fn new_heap(
    alloc: Global,
    shape: HeapShape,
    fuel: u32,
    start: u32,
    biasing: bool,
) -> Result<(Heap, List<Pass>), NoMemory>
    requires { fuel ≤ most_fuel }
    ensures heap { IfOk result (λ r. r.0.heap ≡ record { shape = shape; start = start; biasing = biasing }) }
    ensures room { IfOk result (λ r. r.0.room ≡ entries_for fuel) }
    ensures passes { IfOk result (λ r. r.1 ≡ first_passes r.0 (entries_for fuel) 0 shape.threads) }
    ensures opening { IfOk result (λ r. Sound (opening shape start biasing)) }
    ensures fresh { IfOk result (λ r. (t : ℕ) → t < shape.threads
        → IsFresh r.0 t (first_pass r.0 (entries_for fuel) t)) }
{
    every_heap_has_its_law();
    Heap::new(alloc, shape, fuel, start, biasing)
}

/// Makes such a heap whose passes keep no log, for those who want the locks and no journal.
///
/// A pass counts and stamps its entries as that of `new_heap` does, and keeps none: its page is always empty, none has to be handed out, and
/// no memory is taken for one. A thread goes on until stamps allow it no more entries, 2^41 in all. What `close` gives has an empty log for each
/// thread; what it says of the threads' whole logs, that they are legal and their stamps exact, holds of the entries that were logged and not kept.
///
/// # Errors
///
/// `NoMemory` where an allocation fails.
pub fn new_heap_without_pages(
    alloc: Global,
    shape: HeapShape,
    start: u32,
    biasing: bool,
) -> Result<(Heap, List<Pass>), NoMemory>
    ensures heap { IfOk result (λ r. r.0.heap ≡ record { shape = shape; start = start; biasing = biasing }) }
    ensures room { IfOk result (λ r. r.0.room ≡ 0) }
    ensures passes { IfOk result (λ r. r.1 ≡ first_passes r.0 (2 ^ 42) 0 shape.threads) }
    ensures opening { IfOk result (λ r. Sound (opening shape start biasing)) }
    ensures fresh { IfOk result (λ r. (t : ℕ) → t < shape.threads → IsFresh r.0 t (first_pass r.0 (2 ^ 42) t)) }
{
    every_heap_has_its_law();
    Heap::without_pages(alloc, shape, start, biasing)
}
