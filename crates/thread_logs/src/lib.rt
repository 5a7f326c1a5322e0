//! A thread's state in its program follows from its own log; and logs that follow their threads' code are those of the program, where the
//! objects take them.
//!
//! No heap is spoken of: these are laws of the plain machine, one thread at a time, and of how its threads join with the objects.
#![tactic(auto)]

mod cuts;
mod joins;
mod refused;
mod threads;
mod witnesses;

pub use cuts::machines_pass_through_a_cut_in_order;
pub use joins::{logs_that_follow_the_code_are_legal, the_machine_is_what_the_logs_make_it};
pub use refused::{
    no_log_with_an_entry_that_its_code_does_not_ask, no_logs_of_two_owners_are_legal,
    no_machine_beside_its_logs, no_machine_passes_through_a_cut_that_leaves_out_an_earlier_entry,
    no_reference_that_no_entry_brought, no_thread_beyond_its_holds_or_its_fuel,
    no_thread_stands_elsewhere_than_its_log_says,
};
pub use threads::{
    a_log_tells_where_its_thread_stands, fronts_of_logs_follow_the_code, threads_stay_theirs,
    what_a_thread_asks_its_log_tells,
};
pub use witnesses::{a_thread_can_follow_its_code, logs_of_threads_in_turn_can_be_cut_in_order};
