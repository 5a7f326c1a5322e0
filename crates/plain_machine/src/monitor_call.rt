//! What a thread stands before.

use plain_monitor::{Ending, Value};

/// The call that a running thread stands before, with what its code and its locals give. Objects, the slots of an
/// object and the locals of a thread have numbers from 0.
#[derive(Clone, Copy, Debug, PartialEq, Eq)]
pub enum MonitorCall {
    Enter {
        object: u32,
    },
    Exit {
        object: u32,
    },
    Wait {
        object: u32,
    },
    Notify {
        object: u32,
    },
    NotifyAll {
        object: u32,
    },
    /// The value read goes into the local.
    Get {
        local: u32,
        object: u32,
        slot: u32,
    },
    Put {
        object: u32,
        slot: u32,
        value: Value,
    },
    /// The hash goes into the local.
    Hash {
        local: u32,
        object: u32,
    },
    /// A new object of the class, the thread's next one. The local refers to it.
    New {
        local: u32,
        class: u32,
    },
    Print {
        value: Value,
    },
    /// The thread's dump with this number, from 1 to 4.
    Dump {
        number: u32,
    },
}

/// Where a thread is: before a call, in a wait, on the way to its end, or there.
#[derive(Clone, Copy, Debug, PartialEq, Eq)]
pub enum Mode {
    /// It runs, and stands before this call.
    Calling { call: MonitorCall },
    /// It waits on the object, or was notified and hasn't its monitor again.
    Waiting { object: u32 },
    /// It leaves all its holds, and then ends so.
    Unwinding { ending: Ending },
    /// It has left all its holds and ended so.
    Ended { ending: Ending },
}

/// What a thread has to make next.
#[derive(Clone, Copy, Debug, PartialEq, Eq)]
pub enum NextEntry {
    /// The call that it stands before.
    Calls { call: MonitorCall },
    /// To have the monitor again that it waited on.
    Resumes { object: u32 },
    /// An exit of a hold that it ends with: of the held object with the least number.
    Leaves { object: u32 },
    /// Its end.
    Ends { ending: Ending },
}
