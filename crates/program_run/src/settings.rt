//! How a program is run, and what a run leaves.

use heap_table::Closed;
use lock_journal::RunRecord;

/// How a program is run.
#[derive(Clone, Copy, Debug, PartialEq, Eq)]
pub struct Settings {
    /// How many instructions each thread may execute.
    pub fuel: u32,
    /// The first word of thread 0's generator of identity hashes; thread t's is t more, modulo 2^32.
    pub start: u32,
    /// Whether there are biases.
    pub bias: bool,
    /// How many workers give turns, each a thread of the system.
    pub workers: u32,
    /// How many instructions a thread executes in one turn at most.
    pub quantum: u32,
    /// How many milliseconds one count of the clock stands for, in moments of the policy; with 0 each moment is 1.
    pub tick: u32,
}

/// What a run leaves: its record, and the closed heap that it was made of.
#[derive(Drop)]
pub struct Ran {
    pub record: RunRecord,
    pub closed: Closed,
}
