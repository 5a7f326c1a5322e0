//! Laws of every machine that a program's entries lead to.
//!
//! They speak of the definitions of `plain_machine` alone, over plain data, so that a crate that runs the machine
//! needn't wait for them.
#![tactic(auto)]

mod laws;
mod refused;
mod witnesses;

pub use laws::{
    a_machine_that_offers_nothing_is_over, a_new_object_has_the_next_number_of_its_thread,
    each_entry_uses_up_work, ended_logs_say_how_threads_ended, legal_logs_are_made_in_time,
    machines_stay_reached, offered_entries_are_taken, paths_and_draws_change_nothing,
    reached_machines_are_in_range, what_a_reached_machine_refers_to_is_there,
};
pub use refused::{
    a_machine_that_offers_an_entry_is_not_over, a_new_by_another_number_is_refused,
    logs_that_end_with_a_wait_say_no_ending,
    logs_that_print_what_is_not_there_are_not_made_in_time,
    no_entry_leaves_the_work_that_there_was, no_machine_out_of_range_is_reached,
    no_machine_that_refers_to_what_is_not_there_is_reached, one_new_too_many_is_refused,
    what_is_not_offered_is_not_taken, what_is_not_there_is_refused,
};
pub use witnesses::{
    a_reached_machine_can_enter_and_hash, a_reached_machine_can_refer_own_and_dump,
    a_thread_can_ask_for_a_new_object, logs_can_end_with_their_threads,
};
