//! The outside of the program, as traits: where bytes come from and go to, what the time is, and what threads
//! pass at each turn.
//!
//! Each trait has a stand-in for tests, and sources and sinks stand over any reader and writer too. A sink may gather what is
//! written to it before another one gets it. A fault of the
//! outside is `Failed`, which comes only where a count of faults rose: `specs/` says what that is, and what a read and
//! a write do.
#![tactic(auto)]

mod buffered_sink;
mod clock;
mod counts;
mod failed;
mod gate;
mod memory_sink;
mod memory_source;
mod sink;
mod source;
mod streams;

pub use buffered_sink::BufferedSink;
pub use clock::{Clock, StepClock, moment};
pub use failed::Failed;
pub use gate::{FreeGate, Gate};
pub use memory_sink::MemorySink;
pub use memory_source::MemorySource;
pub use sink::Sink;
pub use source::Source;
pub use streams::{ReadSource, WriteSink};
