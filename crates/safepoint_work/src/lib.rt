//! What a thread changes at its reached safepoint: it revokes a bias, and gives idle monitors back.
//!
//! Revocation is after OpenJDK 8's `biasedLocking.cpp`: one bias, or all of a class at once. Deflation is after its
//! `synchronizer.cpp`. Each function makes the steps of its tree in `core_world`, as they are due, on the words of a
//! `heap_table` heap, and answers what the tree answers. None takes memory.
#![tactic(auto)]

mod bulks;
mod deflates;
mod outcome;
mod revocation;
mod revokes;
mod steps;
mod verdicts;
mod visit;
mod walks;
mod words;

pub use deflates::deflate_idle;
pub use outcome::Outcome;
pub use revocation::Revocation;
pub use verdicts::revoke_at_safepoint;
