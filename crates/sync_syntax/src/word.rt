//! The words that lines begin with.

use program_syntax::Keyword;

#[derive(Clone, Copy)]
pub enum Word {
    /// A word of the plain language.
    Plain(Keyword),
    Sync,
    If,
    While,
    Else,
    Done,
}
