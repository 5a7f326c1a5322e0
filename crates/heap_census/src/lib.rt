//! What a thread at its reached safepoint finds by looks at all threads and objects: whether the run stands still, and
//! the shot of a dump.
//!
//! A look loads a word; nothing is stored and nothing logged. Each function makes the steps of its tree in `core_world`,
//! as they are due, on the words of a `heap_table` heap, and answers what the tree answers. None takes memory.
#![tactic(auto)]

mod shots;
mod stands;

pub use shots::take_shot;
pub use stands::stands_still;
