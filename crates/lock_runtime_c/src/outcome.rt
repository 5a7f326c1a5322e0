//! What a call of C came to, before it is told in numbers.
use core_world::{Operation, PendingCause};
use plain_monitor::{Path, Value};

/// What a call that was done answers.
#[derive(Clone, Copy)]
pub enum Said {
    Nothing,
    /// The hold was taken by this path.
    Entered(Path),
    /// This thread was notified, or none waited.
    Woke(Option<u32>),
    /// So many threads were notified.
    WokeAll(u32),
    Hash(u32),
    Read(Value),
    /// The dump has this number.
    Dump(u32),
    /// Whether the run is stuck.
    Stuck(bool),
    /// So many entries were handed out.
    Handed(u64),
}

/// Why the runtime refuses a call.
#[derive(Clone, Copy)]
pub enum Refusal {
    /// The thread has 64 holds.
    TooDeep,
    /// The thread doesn't own the object.
    NotOwner,
    /// The thread reads or writes a slot of an object that it doesn't own.
    Unguarded,
    /// The thread has made 4 dumps.
    TooManyDumps,
}

/// Why a call could not begin. Nothing has changed.
#[derive(Clone, Copy)]
pub enum Misuse {
    /// The handle is empty.
    Empty,
    /// The handle has something of another kind.
    OtherKind,
    /// The handle that is to be filled has something.
    Taken,
    /// A heap has 1 to 16 threads, and this is none of them.
    NoThread,
    /// The thread's pass was taken.
    PassTaken,
    /// A log has room for at most 400,000 entries besides the last ones.
    TooManyEntries,
    /// A heap has at most 64 classes.
    TooManyClasses,
    /// An object has at most 16 slots.
    TooManySlots,
    /// A heap has at most 4,096 objects.
    TooManyObjects,
    /// The plan has no such class.
    NoClass,
    /// The page has no such entry.
    NoEntry,
    /// The thread has ended.
    Ended,
    /// A check is unfinished.
    CheckIsUnfinished,
    /// This operation is unfinished.
    IsUnfinished(Operation),
    /// The thread asks for a safepoint.
    IsAsking,
    /// The thread doesn't run.
    IsStopped,
    /// The thread runs.
    IsRunning,
    /// The heap has no such object.
    NoObject,
    /// The object has no such slot.
    NoSlot,
    /// A value is nil, a number from -2^61 to 2^61 - 1, or an object of the heap.
    NoValue,
    /// The thread holds an object.
    IsHolding,
    /// A thread has a pass of the heap still.
    InUse,
    /// A pass of the heap was lost.
    PassLost,
    /// There is no such dump.
    NoDump,
}

/// What a call came to.
#[derive(Clone, Copy)]
pub enum Outcome {
    Done(Said),
    Pending(PendingCause),
    Refused(Refusal),
    Misused(Misuse),
    /// The log has no room for the call beside what the thread's holds need.
    Full,
    NoMemory,
}
