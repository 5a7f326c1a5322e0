//! The law of biases (`core_law/specs/BiasLaw.antt`) holds of the opening world, and each step keeps it.
#![tactic(auto)]

mod kinds;
mod laws;
pub mod made;
mod refused;
mod runs;
mod steps;

pub use kinds::{
    a_look_keeps_the_law_of_biases, giving_a_monitor_back_keeps_the_law_of_biases,
    hashing_keeps_the_law_of_biases, logging_keeps_the_law_of_biases,
    making_a_monitor_keeps_the_law_of_biases, owning_a_monitor_keeps_the_law_of_biases,
    steps_of_lock_records_keep_the_law_of_biases, steps_of_the_journal_keep_the_law_of_biases,
    steps_of_the_safepoint_keep_the_law_of_biases,
};
pub use laws::{
    a_counted_verdict_fits, a_logged_entry_keeps_enters_and_marks,
    a_quiet_step_keeps_enters_and_marks, a_revocation_is_gentle,
    the_opening_world_meets_the_law_of_biases,
};
pub use made::{
    storing_a_class_word_keeps_the_law_of_biases, storing_a_first_mark_keeps_the_law_of_biases,
};
pub use refused::{
    no_bias_taken_more_often_than_rebiases_allow, no_bulk_rebias_at_a_count_below_20,
    no_bulk_revoke_at_a_count_below_40, no_count_of_20_without_a_bulk_rebias,
    no_count_of_40_without_a_bulk_revoke, no_enter_by_a_bias_that_has_ended,
    no_enter_by_an_own_bias_that_was_not_taken, no_reset_that_is_not_counted,
    no_verdict_counted_twice_or_never,
};
pub use runs::the_law_of_biases_holds_of_runs;
pub use steps::{
    a_miss_keeps_the_law_of_biases, a_revocation_leaves_no_bias_or_its_own,
    a_step_beside_the_biases_keeps_the_law_of_biases, dropping_a_bias_keeps_the_law_of_biases,
    ending_a_revocation_keeps_the_law_of_biases, logging_an_enter_keeps_the_law_of_biases,
    logging_an_entry_keeps_the_law_of_biases, storing_a_hold_word_keeps_the_law_of_biases,
    taking_a_bias_keeps_the_law_of_biases,
};
