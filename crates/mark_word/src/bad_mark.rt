//! The refusal of a word.

/// No form of the kind asked for is spelled by this word.
#[derive(Clone, Copy, Debug, PartialEq, Eq)]
pub struct BadMark;
