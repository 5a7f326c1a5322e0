//! A search through all states that choices lead to, by breadth: states are told by words, and each is found once.
//!
//! What the states are, and which choices there are, the trait `Moves` says. A search that has to stop says so: how many of the keys that
//! it found it didn't go into.
#![tactic(auto)]

mod breadth;
mod found;
mod moves;

pub use breadth::search;
pub use found::{Found, Origin};
pub use moves::Moves;
