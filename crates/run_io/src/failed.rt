//! The fault of a source or a sink.

/// A read or a write failed. It says no more: the count of faults of the source or the sink rose.
#[derive(Clone, Copy, Debug, PartialEq, Eq)]
pub struct Failed;
