//! Two exact parts of biased locking: when a class's objects are rebiased or revoked in bulk, and which identity hashes
//! a thread draws.
//!
//! `specs/` has the definitions, after OpenJDK 8's `update_heuristics` (biasedLocking.cpp) and its hash mode 5
//! (synchronizer.cpp).
#![tactic(auto)]

mod draws;
mod laws;
mod policy;

pub use draws::Draw;
pub use laws::{
    count_is_reset_under_four_conditions, counts_stay_in_range, draws_follow_one_another,
    draws_stay_in_range, verdict_follows_from_count,
};
pub use policy::{Verdict, code_has_the_thresholds, decide, has_decayed};
