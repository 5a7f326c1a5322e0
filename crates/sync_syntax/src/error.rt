//! Why a text has no program with blocks.

use program_syntax::RefusalCause;
use thiserror::Error;

/// The cause of a refusal: of the causes that a line has, the first in this order is named. Those of the plain language
/// come first, as `RefusalCause` numbers them; the others have the numbers 21 to 24. `specs/Refusal.antt` says of each where it
/// comes.
#[derive(Clone, Copy, Debug, PartialEq, Eq)]
pub enum SyncRefusalCause {
    /// A cause that texts without blocks have too.
    Plain(RefusalCause),
    /// The section ends before the `done` of this line's block.
    Open,
    /// A `done` where no block is open, or an `else` where the innermost open block isn't an `if` without `else`.
    Stray,
    /// The line gives a value to a local that an open `sync` names.
    Assigned,
    /// It would be the 33rd block that is open.
    Deep,
}

/// A refusal of a text: the number of the line, from 1, or 0 for the text as a whole, and the cause.
#[derive(Clone, Copy, Debug, PartialEq, Eq, Error)]
#[error("line {line}: {why:?}")]
pub struct SyncError {
    pub line: u32,
    pub why: SyncRefusalCause,
}
