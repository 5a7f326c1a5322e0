//! What the end of a heap tells of the run on it.
//!
//! The last words of a heap and what its threads know then are those of a sound world. So the logs say whose draws the
//! hashes are, their stamps are exact, each dump's shot is right over the logs as it cuts them, no entry needs an object
//! that isn't made yet, and where the halt is set the run is stuck.
//! And the prototypes are those that the counted verdicts make.
//! Each monitor is in one place then: at a mark, with a thread or in the ring.
//! `specs/` has the definitions.
#![tactic(auto)]

mod laws;
mod refused;

pub use laws::{
    monitors_at_the_end_are_apart, the_end_of_a_heap_tells_its_prototypes,
    the_end_of_a_heap_tells_its_run,
};
pub use refused::{
    no_draws_of_another_generator, no_halted_run_that_is_not_stuck,
    no_monitor_in_two_places_or_in_none, no_prototype_beside_the_counted_verdicts,
    no_shots_that_are_not_right, no_stamps_with_a_gap_or_twice, no_use_of_an_object_before_its_new,
};
