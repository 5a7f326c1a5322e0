//! Blocks that are open.

use sync_source::{Statement, Test};

/// What has opened a block.
#[derive(Drop)]
pub enum Opener {
    Sync { local: u32 },
    If { test: Test },
    /// The `else` of an `if` whose block has these statements.
    Else { test: Test, held: Vec<Statement> },
    While { test: Test },
}

/// A block that is open, and the statements before it in the block that it stands in.
#[derive(Drop)]
pub struct OpenBlock {
    pub opener: Opener,
    pub earlier: Vec<Statement>,
}

/// The statements of the open section, as far as its lines go.
#[derive(Drop)]
pub struct Blocks {
    /// The open blocks, the innermost last.
    pub opened: Vec<OpenBlock>,
    /// The statements of the innermost of them, or of the section where none is open.
    pub statements: Vec<Statement>,
}
