//! What calls on the heap answer.

use plain_monitor::Path;

/// Why an operation is pending.
#[derive(Clone, Copy, Debug, PartialEq, Eq)]
pub enum PendingCause {
    /// The owner word `word` of the monitor names another thread.
    Owned { word: u64 },
    /// The thread's own waiting word is still `word`, which says that it waits.
    NotNotified { word: u64 },
    /// An exchange expected one word and found another.
    Raced { expected: u64, found: u64 },
    /// Another thread is inflating the object's lock.
    Inflating,
    /// The thread's request stands, and by the safepoint word `word` another thread still runs.
    Stopping { word: u64 },
    /// By the safepoint word `word` another thread has requested a safepoint.
    Requested { word: u64 },
    /// The run is halted.
    Halted,
}

/// A call that either did its work or has to be made again.
#[derive(Clone, Copy, Debug, PartialEq, Eq)]
pub enum Progress<A> {
    Done(A),
    Pending(PendingCause),
}

/// What an attempt on the bias of a mark came to.
#[derive(Clone, Copy, Debug, PartialEq, Eq)]
pub enum BiasTry {
    /// The hold was taken under a bias to the caller.
    Took(Path),
    /// The mark, found or made, has no bias pattern.
    Unbiased { mark: u64 },
    /// The mark is validly biased, so that only a safepoint can change it.
    Valid { mark: u64 },
    /// An exchange expected one word and found another.
    Raced { expected: u64, found: u64 },
}

/// What the exit of a lock record came to.
#[derive(Clone, Copy, Debug, PartialEq, Eq)]
pub enum StackOut {
    /// The hold was let go.
    Left,
    /// The object has the monitor with this number, and nothing was let go.
    Monitor { number: u32 },
    /// Nothing was let go.
    Not(PendingCause),
}

/// The thread has 64 holds.
#[derive(Clone, Copy, Debug, PartialEq, Eq)]
pub struct TooDeep;

/// The thread isn't the object's owner.
#[derive(Clone, Copy, Debug, PartialEq, Eq)]
pub struct IllegalMonitorState;

/// The thread reads or writes a slot of an object that it doesn't own.
#[derive(Clone, Copy, Debug, PartialEq, Eq)]
pub struct Unguarded;

/// The thread has made 4 dumps.
#[derive(Clone, Copy, Debug, PartialEq, Eq)]
pub struct TooManyDumps;

/// The thread has made 1,024 objects.
#[derive(Clone, Copy, Debug, PartialEq, Eq)]
pub struct TooMany;
