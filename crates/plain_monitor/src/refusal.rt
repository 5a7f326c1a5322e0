//! Refusals that say no more than their name.

/// Memory is wanting.
#[derive(Clone, Copy, Debug, PartialEq, Eq)]
pub struct NoMemory;

/// No value is spelled by this word.
#[derive(Clone, Copy, Debug, PartialEq, Eq)]
pub struct BadWord;

/// There is no such step.
#[derive(Clone, Copy, Debug, PartialEq, Eq)]
pub struct Refused;
