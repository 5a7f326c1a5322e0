//! A heap as it begins: the marks and class words of its objects, and the ring of monitors.
ghost use Rattle.std.specs.Prelude.{◌≡◌, ◌≤◌, [], ◌∷◌, IfOk};
ghost use Rattle.heap_table.specs.Layout.{shape_of};

use crate::compare::same;
use crate::last::{end, word};
use crate::start::begin;
use heap_table::{Closed, HeapShape};
use plain_monitor::NoMemory;
use std::alloc::Global;
use std::test::Fail;

// The end of a heap of two threads and three objects of a class with one slot, of which so many are declared. No thread has made a step.
fn unused(alloc: Global, declared: u32, biasing: bool) -> Result<Box<Closed>, NoMemory>
    requires { declared ≤ 3 }
    ensures { IfOk result (λ closed. closed.value.heap.shape ≡ shape_of 2 (1 ∷ []) (0 ∷ 0 ∷ 0 ∷ []) declared) }
{
    let shape = HeapShape::of(alloc, 2, &[1], &[0, 0, 0], declared)?;
    let (heap, first, second) = begin(alloc, shape, biasing)?;
    end(alloc, heap, first, second)
}

// The monitor at this place of the ring. `None` where the ring hasn't so many places.
fn monitor(closed: &Closed, place: u32) -> Option<u64> {
    if place < closed.shape().ring_places() {
        word(closed, closed.shape().ring_at(place))
    } else {
        None
    }
}

#[test]
fn each_monitor_stands_in_the_ring_at_first(rt: HostRuntime) -> Result<(), Fail> {
    let ended = unused(rt.alloc(), 3, false)?;
    let closed: &Closed = &ended;
    let shape = closed.shape();
    // Three objects and two threads have 3 + 2 = 5 monitors, with the numbers 0 to 4, each at the place of its number. The
    // least power of two that is at least 5 is 8.
    same(&rt, word(closed, shape.claim_at()), Some(0));
    same(&rt, word(closed, shape.end_at()), Some(5));
    same(&rt, shape.ring_places(), 8);
    for number in 0..5u32 {
        same(&rt, monitor(closed, number), Some(u64::from(number)));
    }
    same(&rt, monitor(closed, 8), None);
    // 16 words of the heap, 16 of a class, 3 * 16 of objects, 2 * 144 of threads, 5 * 11 of monitors, and the 8 places.
    same(&rt, closed.words().items().len(), 431);
    Ok(())
}

#[test]
fn objects_that_are_not_made_yet_have_no_bias_and_no_class(rt: HostRuntime) -> Result<(), Fail> {
    // With biases a declared object's mark is biased to nobody, at epoch 0: the bias pattern 101, and so the word 5. Object 2
    // isn't there yet: its mark is the neutral one, 1, and its class word is 0, after its mark and its stamp.
    let ended = unused(rt.alloc(), 2, true)?;
    let closed: &Closed = &ended;
    let shape = closed.shape();
    same(&rt, shape.declared(), 2);
    same(&rt, word(closed, shape.mark_at(0)), Some(5));
    same(&rt, word(closed, shape.mark_at(1)), Some(5));
    same(&rt, word(closed, shape.mark_at(2)), Some(1));
    same(&rt, shape.class_at(2), shape.mark_at(2) + 2);
    same(&rt, word(closed, shape.class_at(2)), Some(0));
    Ok(())
}
