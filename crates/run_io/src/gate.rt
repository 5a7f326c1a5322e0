//! What a thread passes at the start of each turn.

/// A place that each thread passes.
pub trait Gate {
    /// Called by this thread at the start of each of its turns, which goes on once it returns. A gate for tests may
    /// choose here which thread is next.
    fn visit(&self, thread: u32);
}

/// The gate that is always open: threads run as the system lets them.
#[derive(Clone, Copy, Debug, PartialEq, Eq)]
pub struct FreeGate;

impl Gate for FreeGate {
    fn visit(&self, _thread: u32) {}
}
