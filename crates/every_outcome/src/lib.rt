//! Laws of a search for all ends of a program: which machines it has to keep so that it misses no end, and that it finds no others.
//!
//! Three things keep the machines few. An entry that *goes alone* commutes with whatever the other threads do next, so that a machine at
//! which one goes need not be kept. Fuel is given back after each entry, so that machines don't differ by it. And what holds of each
//! machine that is reached tells which parts of it need not be written down.
#![tactic(auto)]

mod ends;
mod entries;
mod refused;
mod states;
mod witnesses;

pub use ends::{
    closed_lists_have_every_end, found_machines_are_real, full_lists_have_every_end_of_any_fuel,
    led_machines_are_under_legal_logs, lists_without_stuck_machines,
};
pub use entries::{
    alone_entries_commute, more_fuel_changes_nothing, no_hash_without_its_instruction,
    taken_entries_are_offered,
};
pub use refused::{
    a_list_of_the_first_machine_alone_has_no_end, a_list_that_leaves_out_an_end_is_refused,
    a_machine_of_another_program_is_under_no_logs, a_machine_that_takes_a_hash_asks_for_one,
    a_spent_thread_goes_on_with_more_fuel, a_thread_that_nobody_notifies_is_stuck,
    another_object_or_hash_is_another_entry, first_enters_do_not_go_alone, hashes_do_not_go_alone,
    machines_without_fuel_or_with_other_holds_are_not_reached,
    no_thread_stands_before_a_call_of_another_instruction, resumes_do_not_go_alone,
    what_bars_a_thread_stands_for_no_entry, what_entries_do_not_lead_to_is_not_found,
};
pub use states::{reached_machines_in_a_search, threads_stand_before_their_calls};
pub use witnesses::{
    a_program_can_have_a_closed_list, a_thread_can_stand_before_its_enter, an_exit_can_go_alone,
};
