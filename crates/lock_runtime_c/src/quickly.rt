//! When a call may begin by a short way: where it is plain that nothing bars it, all of that way but a nested enter by a monitor stands in line. What is
//! left of an enter or an exit gets the box that the handle has lent, and puts it back itself, and anything else begins anew by the handle: so nothing of
//! a short way has to outlast a call.
//!
//! A call out of line answers into a place in memory, which is cleared where its function begins. So functions that are built in and named `_slowly` or
//! `_rarely` name that place (`let answer = ..; answer`), off the quick way, and the common answer is a `return` of its own.
ghost use Rattle.std.specs.Prelude.{◌≡◌, nat_lt, true};
ghost use Rattle.heap_table.specs.Quick.{IsFree};
ghost use Rattle.lock_runtime_c.specs.inner.QuickCalls.{IsOpenTo};

use heap_table::{Heap, Pass};

/// Whether the thread is known to be free, and the object to be declared.
#[inline(always)]
pub fn is_there(heap: &Heap, free: bool, object: u32) -> bool
    ensures { result ≡ true → (free ≡ true) × (nat_lt object heap.now.heap.shape.declared ≡ true) }
{
    if !free {
        return false;
    }
    object < heap.shape().declared()
}

/// Whether it is plain that an operation on the object may begin, which needs so much room of the log. Only a free thread's may.
#[inline(always)]
pub fn is_open(heap: &Heap, pass: &Pass, free: bool, object: u32, entries: u32) -> bool
    requires { free ≡ true → IsFree pass.now.known }
    ensures { result ≡ true → IsOpenTo heap.now pass.now object entries }
{
    if !is_there(heap, free, object) {
        return false;
    }
    pass.fits(entries)
}
