//! What C holds: the pointer of a box that is its own, or nothing.
ghost use Rattle.std.specs.Prelude.{◌≡◌, ◌==◌, not, None, Some, IsSome, IfSome};
ghost use Rattle.std.specs.Prelude.{Option};
ghost use Rattle.lock_runtime_c.specs.declared.inner.Inner.{Inner};
ghost use Rattle.lock_runtime_c.specs.Rest.{RestsWithin};
ghost use Rattle.lock_runtime_c.specs.inner.Held.{held_coded, held_owns};

mod parts;

use crate::inner::Inner;
use core::mem::replace_with;
use parts::Parts;
use std::alloc::Global;
use std::marker::Model;
use std::mem;

/// The pointer of a box of `Inner`, which it owns, or any pointer, which nobody reads. C keeps it, and never reads it.
#[repr(C)]
pub struct Handle {
    pub(crate) ptr: *mut u8,
    pub(crate) alloc: Global,
    pub ghost held: { Option Inner } by { held_coded },
}

impl Model for Handle {
    ghost also_owns = { λ h. held_owns h.alloc h.ptr h.held };
}

// C may give a handle to another thread.
unsafe impl Send for Handle {}

impl Handle {
    #[inline(always)]
    fn none(alloc: Global) -> Handle
        ensures { result.held ≡ None }
    {
        Handle {
            ptr: std::ptr::null_mut(),
            alloc,
        }
    }

    // An empty one with a pointer, which nobody reads.
    #[inline(always)]
    fn idle(ptr: *mut Inner, alloc: Global) -> Handle
        ensures { result.held ≡ None }
    {
        Handle {
            ptr: ptr as *mut u8,
            alloc,
        }
    }

    // An empty handle needs nothing.
    #[inline(always)]
    fn forget(self) {
        let Handle { ptr: _, alloc: _ } = self;
    }

    #[inline(always)]
    fn of_parts(parts: Parts<Inner, Global>) -> Handle
        requires { RestsWithin parts.value }
        ensures { result.held ≡ Some parts.value }
    {
        let Parts { ptr, alloc } = parts;
        Handle {
            ptr: ptr as *mut u8,
            alloc,
        }
    }

    #[inline(always)]
    fn into_parts(self) -> Parts<Inner, Global>
        requires { IsSome self.held }
        ensures { (self.held ≡ Some result.value) × RestsWithin result.value }
    {
        let Handle { ptr, alloc } = self;
        Parts {
            ptr: ptr as *mut Inner,
            alloc,
        }
    }

    // An empty handle, and what it had. The pointer stays as it was, so that nothing has to be written.
    #[inline(always)]
    fn emptied(self, alloc: Global) -> (Handle, Box<Inner>)
        requires { IsSome self.held }
        ensures { (result.0.held ≡ None) × (self.held ≡ Some result.1.value) × RestsWithin result.1.value }
    {
        let mut held = self.into_parts().into_box();
        let ptr = std::ptr::from_mut(&mut *held);
        (Handle::idle(ptr, alloc), held)
    }

    /// What it has, for the time of a call. It is empty then, though its pointer is as it was: a quick call gives it back, and writes it once.
    #[inline(always)]
    pub(crate) fn lend(&mut self, alloc: Global) -> Box<Inner>
        requires { IsSome self.old.held }
        ensures rests { RestsWithin result.value }
        ensures held { self.old.held ≡ Some result.value }
        ensures gone { self.new.held ≡ None }
    {
        replace_with(self, alloc, Handle::emptied)
    }

    /// Gives it something. What it had before is forgotten, so who calls has emptied it.
    #[inline(always)]
    pub(crate) fn fill(&mut self, held: Box<Inner>)
        requires { RestsWithin held.value }
        ensures { self.new.held ≡ Some held.value }
    {
        let empty = mem::replace(self, Handle::of_parts(Parts::of(held)));
        empty.forget();
    }
}

/// A handle, and whether it has something. A zeroed one is empty.
#[repr(C)]
pub struct Slot {
    pub handle: Handle,
    pub live: u64,
    pub ghost agrees: { live ≡ 1 → IsSome handle.held },
}

impl Slot {
    pub fn is_live(&self) -> bool
        ensures { result ≡ not (self.now.live == 0) }
    {
        self.live != 0
    }

    /// What it has. It is empty then. An empty one stays as it is.
    #[inline(always)]
    pub fn take(&mut self, alloc: Global) -> Option<Box<Inner>>
        ensures live { IfSome result (λ _. self.new.live ≡ 0) }
        ensures gone { IfSome result (λ _. self.new.handle.held ≡ None) }
        ensures rests { IfSome result (λ b. RestsWithin b.value) }
        ensures held { IfSome result (λ b. (self.old.live ≡ 1) × (self.old.handle.held ≡ Some b.value)) }
        ensures empty { result ≡ None → (self.old.live ≡ 1 → ⊥) × (self.new ≡ self.old) }
    {
        if self.live != 1 {
            return None;
        }
        self.live = 0;
        let handle = mem::replace(&mut self.handle, Handle::none(alloc));
        Some(handle.into_parts().into_box())
    }

    /// Gives it something. What it had before is forgotten, so who calls has emptied it.
    #[inline(always)]
    pub fn put(&mut self, alloc: Global, held: Box<Inner>)
        requires empty { self.old.live ≡ 0 }
        requires rests { RestsWithin held.value }
        ensures live { self.new.live ≡ 1 }
        ensures held { self.new.handle.held ≡ Some held.value }
    {
        self.handle.fill(held);
        self.live = 1;
    }
}
