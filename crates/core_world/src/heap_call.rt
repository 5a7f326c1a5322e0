//! Calls on the heap, and operations that a call may leave unfinished.

use plain_monitor::{Ending, Value};

/// An operation that may take several calls.
#[derive(Clone, Copy, Debug, PartialEq, Eq)]
pub enum Operation {
    Enter,
    Exit,
    Wait,
    Notify,
    NotifyAll,
    Hash,
    Dump,
    Create,
}

/// An operation that isn't finished. The object is 0 for a dump, and for `Create` the one that is being made.
#[derive(Clone, Copy, Debug, PartialEq, Eq)]
pub struct Unfinished {
    pub op: Operation,
    pub object: u32,
}

/// A call on the heap with its arguments. `now` is the moment for the policy of bulk operations, in milliseconds from 1.
#[derive(Clone, Copy)]
pub enum HeapCall {
    Enter {
        object: u32,
        now: u64,
    },
    Exit {
        object: u32,
    },
    Wait {
        object: u32,
        now: u64,
    },
    Notify {
        object: u32,
        now: u64,
    },
    NotifyAll {
        object: u32,
        now: u64,
    },
    Hash {
        object: u32,
        now: u64,
    },
    Get {
        object: u32,
        slot: u32,
    },
    Put {
        object: u32,
        slot: u32,
        value: Value,
    },
    Print {
        value: Value,
    },
    Dump,
    /// Makes an object of the class.
    Create {
        class: u32,
    },
    Finish {
        ending: Ending,
    },
    Poll,
    Stop,
    Resume,
    Check,
    /// The stack lock's enter by itself, with the mark that it goes by.
    StackEnter {
        object: u32,
        mark: u64,
    },
    /// The stack lock's exit by itself.
    StackExit {
        object: u32,
    },
    /// A request for a safepoint by itself, its look whether it is reached, and its release.
    Request,
    Reached,
    Release,
}
