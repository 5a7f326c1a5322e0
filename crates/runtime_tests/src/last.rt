//! The words, logs and counts of a heap that was closed.
ghost use Rattle.std.specs.Prelude.{◌≡◌, true, false};
ghost use Rattle.heap_table.specs.Resting.{Rests};

use crate::lab::Lab;
use heap_table::{Closed, Heap, Pass, close};
use plain_monitor::List;
use std::alloc::Global;
use std::process::Abort;

// Whether the pass is the one of this thread, which neither runs nor has a request.
fn is_quiet(pass: &Pass, thread: u32) -> bool
    ensures { result ≡ true → (pass.now.known.thread ≡ thread)
        × ((pass.now.known.running ≡ false) × (pass.now.known.requesting ≡ false)) }
{
    pass.thread() == thread && !pass.running() && !pass.requesting()
}

// Whether the heap may be closed with these passes.
fn may_close(heap: &Heap, first: &Pass, second: &Pass) -> bool
    ensures { result ≡ true → (heap.now.heap.shape.threads ≡ 2)
        × ((first.now.known.thread ≡ 0) × (second.now.known.thread ≡ 1))
        × ((first.now.known.running ≡ false) × (second.now.known.running ≡ false))
        × ((first.now.known.requesting ≡ false) × (second.now.known.requesting ≡ false)) }
{
    heap.shape().threads() == 2 && is_quiet(first, 0) && is_quiet(second, 1)
}

// What is left of the heap. `None` where a thread runs or has a request, or memory is wanting.
fn try_close(alloc: Global, heap: Heap, first: Pass, second: Pass) -> Option<Closed>
    requires { Rests heap first × Rests heap second }
{
    if may_close(&heap, &first, &second) {
        let Ok(mut passes) = Vec::with_capacity(alloc, 2) else {
            return None;
        };
        passes.push_reserved(first);
        passes.push_reserved(second);
        return Some(close(heap, List::of(passes)));
    }
    None
}

// The same of what a test has, in a box again.
fn close_lab(alloc: Global, lab: Lab) -> Option<Box<Closed>> {
    let (heap, first, second) = lab.apart();
    let heap = Box::into_inner(heap);
    let first = Box::into_inner(first);
    let second = Box::into_inner(second);
    Box::new(alloc, try_close(alloc, heap, first, second)?).ok()
}

/// What is left of the heap. Fails the test where a thread runs or has a request, or memory is wanting.
pub fn closed<R: Abort + AllocGlobal>(rt: &R, lab: Lab) -> Box<Closed> {
    let Some(closed) = close_lab(rt.alloc(), lab) else {
        panic!(rt; "both are stopped")
    };
    closed
}

fn word(closed: &Closed, at: usize) -> Option<u64> {
    match closed.words().items().get(at) {
        Some(word) => Some(*word),
        None => None,
    }
}

pub fn mark(closed: &Closed, object: u32) -> Option<u64> {
    if (object as usize) < closed.shape().objects() {
        word(closed, closed.shape().mark_at(object))
    } else {
        None
    }
}

pub fn stamp(closed: &Closed, object: u32) -> Option<u64> {
    if (object as usize) < closed.shape().objects() {
        word(closed, closed.shape().stamp_at(object))
    } else {
        None
    }
}

/// The class word, which an object has that isn't declared.
pub fn class(closed: &Closed, object: u32) -> Option<u64> {
    if (object as usize) < closed.shape().objects() {
        word(closed, closed.shape().class_at(object))
    } else {
        None
    }
}

pub fn prototype(closed: &Closed, class: u32) -> Option<u64> {
    if class < closed.shape().classes() {
        word(closed, closed.shape().prototype_at(class))
    } else {
        None
    }
}

pub fn count(closed: &Closed, class: u32) -> Option<u64> {
    if class < closed.shape().classes() {
        word(closed, closed.shape().count_at(class))
    } else {
        None
    }
}

pub fn displaced(closed: &Closed, thread: u32, place: u32) -> Option<u64> {
    if thread < closed.shape().threads() && place < 64 {
        word(closed, closed.shape().displaced_at(thread, place))
    } else {
        None
    }
}

pub fn waiting(closed: &Closed, thread: u32) -> Option<u64> {
    if thread < closed.shape().threads() {
        word(closed, closed.shape().wait_at(thread))
    } else {
        None
    }
}

/// The words of the monitor: its header, owner, recursions and object.
pub fn monitor(closed: &Closed, monitor: u32) -> Option<[u64; 4]> {
    let shape = closed.shape();
    if (monitor as usize) < shape.objects() {
        Some([
            word(closed, shape.header_at(monitor))?,
            word(closed, shape.owner_at(monitor))?,
            word(closed, shape.recursions_at(monitor))?,
            word(closed, shape.object_at(monitor))?,
        ])
    } else {
        None
    }
}

/// How many ring positions were claimed.
pub fn claim(closed: &Closed) -> Option<u64> {
    word(closed, closed.shape().claim_at())
}

/// The ring position after the last monitor that stands there.
pub fn end(closed: &Closed) -> Option<u64> {
    word(closed, closed.shape().end_at())
}

/// The monitor at this place of the ring.
pub fn ring(closed: &Closed, place: u32) -> Option<u64> {
    if place < closed.shape().ring_places() {
        word(closed, closed.shape().ring_at(place))
    } else {
        None
    }
}
