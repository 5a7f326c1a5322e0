//! What a turn did.

use core_world::PendingCause;

/// How a turn ended.
#[derive(Clone, Copy, Debug, PartialEq, Eq)]
pub enum RunState {
    /// It ran as many instructions as it might.
    Live,
    /// Its last call was pending, for this. A stop after it isn't counted.
    Blocked(PendingCause),
    /// The thread has ended.
    Ended,
}

/// What a turn did.
#[derive(Clone, Copy, Debug, PartialEq, Eq)]
pub struct Moved {
    /// How many instructions were done. A wait is done when it has the monitor again, an instruction that faults where it faults; the
    /// exits and the end of a thread that unwinds are none.
    pub instructions: u32,
    pub state: RunState,
}
