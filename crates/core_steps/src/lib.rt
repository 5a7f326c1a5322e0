//! Every next step of a thread leads from a sound world to a sound one.
#![tactic(auto)]

mod refused;
mod stepping;

pub use refused::{
    no_claim_with_a_kept_monitor, no_displaced_word_after_the_exchange,
    no_first_mark_before_the_class_word, no_header_cleared_before_the_mark,
    no_hold_word_cleared_before_the_exchange, no_object_made_out_of_turn,
    no_stop_between_steps_on_a_lock, no_stop_in_the_middle_of_a_lock,
};
pub use stepping::{
    a_deflation_does_its_steps, a_deflation_leaves_no_monitor_idle,
    draws_of_reached_worlds_come_first, every_call_begins_well, every_heap_has_its_law,
    next_steps_keep_worlds_sound, reached_worlds_are_valid, stamps_of_reached_worlds_are_exact,
};
