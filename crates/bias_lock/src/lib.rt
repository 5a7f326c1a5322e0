//! Holds under a bias: how a thread takes and leaves one, and ends a bias, without a safepoint.
//!
//! This is HotSpot's biased locking of OpenJDK 8, as far as `biasedLocking.cpp` (`revoke_and_rebias`) needs no safepoint
//! for it. A mark that is validly biased to the thread is left as it is, and only a hold word is stored. A mark that is
//! biased to nobody, or in an epoch that is over, is exchanged for a bias to the thread or for a neutral mark.
//!
//! Each function makes the steps of its tree in `core_world`, as they are due, on the words of a `heap_table` heap, and
//! answers what the tree answers. None takes memory.
#![tactic(auto)]

mod drops;
mod enter_after_revocation;
mod enters;
mod exits;

pub use drops::bias_drop;
pub use enter_after_revocation::{bias_after, stage_after};
pub use enters::{bias_enter, bias_enter_loaded};
pub use exits::bias_exit;
