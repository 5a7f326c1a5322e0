//! The search for all ends of a program, over the words of machines, with their counts, and its laws: it finds none that no run comes to, and
//! where it went into all of its keys it misses none.
#![tactic(auto)]

mod alone;
mod course;
mod ends;
mod find;
mod laws;
mod moves;
mod outcome;
mod refused;
mod walk;
mod witness;
mod witnesses;

pub use ends::End;
pub use find::{OutcomeError, find_outcomes};
pub use laws::{
    counted_ends_are_real, counted_programs_have_no_hash, counts_without_faulted_ends,
    counts_without_stuck_ends, every_end_says_how_runs_end, first_ends_are_such_ends,
    searches_are_closed, searches_find_every_end, searches_find_real_machines,
    searches_have_every_end, spent_threads_are_counted_where_entries_lead_to_one,
    ways_to_ends_are_walked_or_cut_short,
};
pub use moves::MachineMoves;
pub use outcome::Outcomes;
pub use refused::{
    a_list_of_the_first_machine_alone_is_refused, counts_that_are_all_0_are_refused,
    ways_on_which_no_thread_is_spent_are_not_cut_short,
};
pub use witness::find_witness;
pub use witnesses::{a_thread_can_be_spent, a_way_can_lead_to_an_end};
