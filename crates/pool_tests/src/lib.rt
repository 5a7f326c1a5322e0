//! Tests of a pool of turns: two workers that take and give on one pool, and what two seats of it can take; and of numbers that are lent
//! (`docs/ARCHITECTURE.md`, "Tests").
#![tactic(auto)]

mod countdown;
mod workers;

pub use countdown::{Countdown, Countdowns};
pub use workers::{CountSeat, Counted, finish, run, serve_both, turn, visit};

#[cfg(test)]
mod compare;
#[cfg(test)]
mod lends;
#[cfg(test)]
mod runs;
