//! What a call leaves unfinished while it makes its steps.
ghost use Rattle.std.specs.Prelude.{◌≡◌};
ghost use Rattle.core_world.specs.Trees.Plans.{call_context};
ghost use Rattle.core_world.specs.Trees.Operations.{lone_context};

use core_world::{HeapCall, Operation, Unfinished};
use heap_table::{CallContext, Pass};

/// A call that leaves as they are the unfinished operation and the check.
#[inline]
pub fn aside(pass: &Pass, task: HeapCall) -> CallContext
    ensures { result ≡ record { task = task; unfinished = pass.now.known.unfinished; check = pass.now.known.checking } }
{
    CallContext {
        task,
        unfinished: pass.unfinished(),
        check: pass.checking(),
    }
}

/// A call that leaves nothing unfinished.
#[inline]
pub fn alone(task: HeapCall) -> CallContext
    ensures { result ≡ lone_context task }
{
    CallContext {
        task,
        unfinished: None,
        check: false,
    }
}

/// A call whose operation on the object is unfinished until it is done.
#[inline]
pub fn unfinished(task: HeapCall, op: Operation, object: u32) -> CallContext
    ensures { result ≡ call_context task op object }
{
    CallContext {
        task,
        unfinished: Some(Unfinished { op, object }),
        check: false,
    }
}
