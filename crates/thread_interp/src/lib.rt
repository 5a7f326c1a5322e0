//! Threads of a program on a heap.
//!
//! A `Runner` is a pass of a heap and the state of its thread. It makes the calls of `lock_runtime` that the thread's code asks for, one
//! after the other, so that the pass's log follows the code; it never waits, and a turn of it ends after so many instructions, or
//! where a call is pending.
#![tactic(auto)]

mod moved;
mod runner;
mod turn;

pub use moved::{Moved, RunState};
pub use runner::Runner;
