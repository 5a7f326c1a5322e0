//! Laws of steps on the safepoint word, the journal, lock records and monitors: such a step keeps the world valid, whatever other threads do.
//! `docs/WORLD.md` lists the kinds of step, and the law of each.
//!
//! A law is a public function with an empty body. Its contract says of one kind of step: in every valid world in which the thread
//! knows what it knows, the step gives a valid world, with the same plain objects or with those that took the step's entry.
//! `specs/` says when a thread may make each step, by its own knowledge alone.
#![tactic(auto)]

pub mod deflation;
pub mod enter_exit;
pub mod hash;
mod looks;
pub mod monitor;
mod refused;
pub mod safepoint;
pub mod shot;
pub mod telling;
pub mod wait;

pub use deflation::{
    a_claim_gives_a_monitor_of_nobody, clearing_an_idle_monitor_keeps_the_world_valid,
    giving_an_object_its_header_keeps_the_world_valid,
    moving_the_end_of_the_ring_keeps_the_world_valid, storing_into_the_ring_keeps_the_world_valid,
};
pub use enter_exit::{
    clearing_a_hold_word_keeps_the_world_valid, exchanging_a_neutral_mark_keeps_the_world_valid,
    exiting_by_a_hold_word_keeps_the_world_valid, exiting_by_the_mark_keeps_the_world_valid,
    logging_a_resume_keeps_the_world_valid, logging_an_enter_keeps_the_world_valid,
    storing_a_displaced_word_keeps_the_world_valid, storing_a_hold_word_keeps_the_world_valid,
    the_stamp_of_a_taking_follows_from_the_logs,
};
pub use hash::{
    drawing_a_hash_into_a_mark_keeps_the_world_valid,
    drawing_a_hash_into_a_monitor_keeps_the_world_valid, each_hash_is_drawn_once,
    finding_a_hash_in_a_mark_keeps_the_world_valid,
    finding_a_hash_in_a_monitor_keeps_the_world_valid,
    finding_a_hash_in_an_own_record_keeps_the_world_valid,
};
pub use looks::{
    a_load_by_a_requester_keeps_the_world_valid, a_load_of_a_displaced_word_keeps_the_world_valid,
    a_load_of_a_mark_keeps_the_world_valid,
    a_load_of_a_waiting_word_or_length_keeps_the_world_valid,
    a_load_of_the_safepoint_word_keeps_the_world_valid,
};
pub use monitor::{
    claiming_a_monitor_keeps_the_world_valid, exchanging_a_free_owner_keeps_the_world_valid,
    exchanging_a_locked_mark_keeps_the_world_valid, freeing_a_monitor_keeps_the_world_valid,
    letting_go_in_a_wait_keeps_the_world_valid, loading_a_word_of_a_monitor_keeps_the_world_valid,
    naming_a_monitor_keeps_the_world_valid, preparing_a_monitor_keeps_the_world_valid,
    resuming_by_the_monitor_keeps_the_world_valid, storing_recursions_keeps_the_world_valid,
    storing_the_owner_keeps_the_world_valid,
};
pub use refused::{
    no_claim_of_a_second_monitor, no_deflation_of_a_monitor_in_use,
    no_deflation_of_another_monitor, no_deflation_to_another_header, no_draw_out_of_turn,
    no_end_moved_before_the_store, no_entry_without_the_lock, no_exchange_of_another_mark,
    no_exchange_without_the_displaced_word, no_exit_below_the_stamp, no_exit_by_another,
    no_exit_with_another_stamp, no_free_monitor_with_recursions, no_get_without_the_lock,
    no_halt_while_one_can_go_on, no_hash_in_a_displaced_word_that_is_copied,
    no_inflation_by_a_store, no_inflation_without_the_header, no_inflation_without_the_owner,
    no_length_ahead_of_the_log, no_notify_all_that_misses_one, no_notify_of_a_later_waiter,
    no_notify_of_nobody, no_recursion_without_a_hold, no_resume_untold,
    no_resume_with_another_count, no_second_draw, no_second_owner, no_store_over_a_filled_position,
    no_store_over_an_inflated_mark, no_store_over_anothers_inflation,
};
pub use safepoint::{
    halting_keeps_the_world_valid, releasing_keeps_the_world_valid,
    requesting_keeps_the_world_valid, resuming_keeps_the_world_valid,
    stopping_keeps_the_world_valid,
};
pub use shot::{
    each_shot_is_right, keeping_a_shot_keeps_the_world_valid,
    no_shot_of_an_owner_without_its_enter, no_shot_that_differs_from_its_cut,
    no_shot_that_leaves_out_an_earlier_entry, the_looks_of_a_dump_see_all,
};
pub use telling::{
    logging_a_get_keeps_the_world_valid, logging_a_put_keeps_the_world_valid,
    publishing_a_length_keeps_the_world_valid, publishing_the_whole_log_keeps_the_world_valid,
};
pub use wait::{
    logging_a_notify_all_keeps_the_world_valid, logging_a_notify_keeps_the_world_valid,
    logging_a_wait_keeps_the_world_valid, raising_a_stamp_keeps_the_world_valid,
    storing_ended_keeps_the_world_valid, storing_entering_keeps_the_world_valid,
    storing_ready_keeps_the_world_valid, telling_one_of_several_keeps_the_world_valid,
};
