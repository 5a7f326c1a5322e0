//! Runs of all threads as lists of their steps, and what such a list tells: that an exchange misses only by another thread's step. The
//! functions are laws, and do nothing.
#![tactic(auto)]

mod blame;
mod reaching;
mod refused;
mod witnesses;

pub use blame::calls_race_only_with_another_thread;
pub use reaching::{reached_worlds_have_their_steps, turns_lead_on};
pub use refused::{
    no_list_leads_on_by_a_wrong_first_step, no_thread_knows_more_than_its_steps,
    no_turn_of_no_thread_or_of_a_call_that_may_not_begin, who_was_not_passed_was_not_overtaken,
};
pub use witnesses::{
    a_resume_can_race, heaps_come_to_such_worlds, the_other_calls_can_race,
    turns_of_two_threads_lead_on,
};
