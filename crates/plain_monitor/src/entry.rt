//! What a thread logs: an entry for each call on a monitor, a slot or a hash, for each print and dump, and for its end.

/// What a local, a slot or an operand is.
#[derive(Clone, Copy, Debug, PartialEq, Eq)]
pub enum Value {
    /// No value. Locals start so.
    Nil,
    /// A number from -2^61 to 2^61 - 1.
    Int(i64),
    /// The object with this number.
    Ref(u32),
}

impl Value {
    /// The least number of a value, -2^61.
    pub const LEAST: i64 = -(1 << 61);
    /// The greatest number of a value, 2^61 - 1.
    pub const GREATEST: i64 = (1 << 61) - 1;
}

/// How an enter took its monitor. `First` means that the thread had no hold on the object before.
#[derive(Clone, Copy, Debug, PartialEq, Eq)]
pub enum Path {
    /// The object was biased to the thread already.
    BiasOwn,
    /// This call made the bias, by an exchange of the mark or by a bulk rebias.
    BiasTaken,
    /// By a lock record, the thread's first for the object.
    StackFirst,
    /// By one more lock record.
    StackAgain,
    /// By the inflated monitor, which was free.
    MonitorFirst,
    /// By the inflated monitor, which the thread owned.
    MonitorAgain,
}

/// Why a thread stopped at an instruction.
#[derive(Clone, Copy, Debug, PartialEq, Eq)]
pub enum Fault {
    /// The thread isn't the owner of the monitor that it leaves, waits on or notifies.
    IllegalMonitorState,
    /// The thread isn't the owner of the object whose slot it reads or writes.
    Unguarded,
    /// A reference is wanted.
    NotRef,
    /// A number is wanted.
    NotInt,
    /// There is no such element or slot.
    Range,
    /// The result isn't a number that a value may be.
    Overflow,
    /// The thread has 64 holds.
    TooDeep,
    /// The thread has made 4 dumps.
    TooManyDumps,
    /// The thread has made 1,024 objects.
    TooMany,
}

/// How a thread ended.
#[derive(Clone, Copy, Debug, PartialEq, Eq)]
pub enum Ending {
    /// By a fault at the instruction with this number, from 1.
    Trap { fault: Fault, index: u32 },
    /// It had no fuel left before an instruction.
    Spent,
    /// It came to its `end`.
    Done,
}

/// One thing that a thread did which others may see.
#[derive(Clone, Copy, Debug, PartialEq, Eq)]
pub enum Entry {
    /// It entered the object's monitor.
    Enter {
        object: u32,
        path: Path,
    },
    /// It left the object's monitor once.
    Exit {
        object: u32,
    },
    /// It read a value from a slot.
    Get {
        object: u32,
        slot: u32,
        value: Value,
    },
    /// It wrote a value to a slot.
    Put {
        object: u32,
        slot: u32,
        value: Value,
    },
    /// It let go of the monitor and waits.
    Wait {
        object: u32,
    },
    /// It was notified and has the monitor again, with the count that it had.
    Resume {
        object: u32,
    },
    /// It woke this thread, or none because nobody waited.
    Notify {
        object: u32,
        woken: Option<u32>,
    },
    /// It woke this many threads, all that waited.
    NotifyAll {
        object: u32,
        woken: u32,
    },
    /// It got the object's identity hash. `drawn` is the number of the draw that gave it, where this entry installed it.
    Hash {
        object: u32,
        value: u32,
        drawn: Option<u32>,
    },
    /// It made the object with this number, of this class.
    New {
        object: u32,
        class: u32,
    },
    /// It printed a value.
    Print {
        value: Value,
    },
    /// It made its dump with this number, from 1.
    Dump {
        number: u32,
    },
    /// It ended by a fault at the instruction with this number, from 1.
    Trap {
        fault: Fault,
        index: u32,
    },
    /// It ended for want of fuel.
    Spent,
    /// It ended by its `end`.
    Done,
}

/// An entry with its stamp. Stamps order the entries of all threads.
#[derive(Clone, Copy, Debug, PartialEq, Eq)]
pub struct Logged {
    pub stamp: u64,
    pub entry: Entry,
}
