//! Why a text has no program.

use thiserror::Error;

/// The cause of a refusal, numbered from 1 in this order: of the causes that a line has, the lowest-numbered is named.
/// `specs/Refusal.antt` says of each where it comes.
#[derive(Clone, Copy, Debug, PartialEq, Eq)]
pub enum RefusalCause {
    /// The line has a byte that is neither a tab nor printing ASCII.
    NotAscii,
    /// The line's first word isn't a word of this place.
    UnknownWord,
    /// The number of the line's operands is wrong.
    Operands,
    /// An operand in a name's place isn't a name.
    BadName,
    /// The line declares a name that its space has already.
    Twice,
    /// The line uses a name that isn't declared.
    Undeclared,
    /// An operand in a number's place isn't a number, or is out of its range.
    BadNumber,
    /// The line would pass a limit, or, at line 0, the text does.
    Limit,
    /// The text has no thread. Its line is 0.
    NoThread,
    /// The section of this `thread` line isn't closed by `end`.
    NoEnd,
    /// A form that isn't built. No text has this cause any more; it stands here so that the causes keep their numbers.
    Later,
    /// Memory is wanting. Its line is 0.
    NoMemory,
}

/// A refusal of a text: the number of the line, from 1, or 0 for the text as a whole, and the cause.
#[derive(Clone, Copy, Debug, PartialEq, Eq, Error)]
#[error("line {line}: {why:?}")]
pub struct ProgramError {
    pub line: u32,
    pub why: RefusalCause,
}
