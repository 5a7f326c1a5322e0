//! Laws of biases and of their revocation at a safepoint.
#![tactic(auto)]

mod biasing;
mod refused;
mod revoking;

pub use biasing::{
    a_load_of_a_prototype_keeps_the_world_valid, dropping_a_bias_keeps_the_world_valid,
    exchanging_for_its_own_bias_keeps_the_world_valid,
};
pub use refused::{
    no_bias_taken_by_a_store, no_release_with_a_header_above_depth_one,
    no_release_with_a_held_object_neutral, no_release_with_a_held_object_of_a_revoked_class,
    no_release_with_a_held_object_of_an_old_epoch, no_revocation_without_biasing, no_second_count,
    no_store_of_a_revocation_while_a_thread_runs,
};
pub use revoking::{
    a_load_ends_the_revocation, a_revocation_as_a_whole_keeps_the_world_valid,
    the_answer_tells_the_new_bias, the_first_store_keeps_the_world_valid,
    the_next_store_keeps_the_world_valid, the_release_ends_the_revocation,
    the_steps_make_the_stores_of_the_rules,
};
