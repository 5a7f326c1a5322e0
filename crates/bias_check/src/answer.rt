//! What the check of a journal answers.

use thiserror::Error;

/// What a journal is.
#[derive(Clone, Copy, Debug, PartialEq, Eq)]
pub enum Checked {
    /// A legal history, with this many entries, and how the threads stand after them.
    Legal { entries: u64, state: Reached },
    /// Each line is readable, and the one with this number, from 1, is the first that is no step of the machine.
    NoStep { line: u32 },
    /// Each line is a step, and of the objects whose hashes aren't those of the threads' generators this one is the least.
    BadHash { object: u32 },
}

/// How the threads stand after the last line.
#[derive(Clone, Copy, Debug, PartialEq, Eq)]
pub enum Reached {
    /// Each thread has ended.
    Ended,
    /// Some thread has not ended, and none that has not can go on by itself.
    Stuck,
    /// Some thread can go on.
    Open,
}

/// Why there is no answer.
#[derive(Clone, Copy, Debug, PartialEq, Eq, Error)]
pub enum CheckFault {
    /// The line with this number, from 1, is the first that isn't the line of any entry.
    #[error("journal {line}: unreadable")]
    Unreadable { line: u32 },
    /// Memory is wanting.
    #[error("memory is wanting")]
    NoMemory,
}
