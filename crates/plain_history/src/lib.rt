//! Laws of the histories of the plain monitor, for any number of threads and objects.
//!
//! Threads log with stamps that do not rise from one thread to the next, so an entry may land in the middle of the common
//! order. The laws say when that is harmless, how a caller sees it from stamps, what holds of every monitor, and how the
//! histories of objects and of threads join. `specs/` has the definitions.
#![tactic(auto)]

mod cuts;
mod laws;
mod made;

pub use cuts::{
    a_cut_at_the_end_stays_in_order, a_cut_in_order_leaves_out_no_earlier_entry,
    objects_pass_through_a_cut_in_order,
};
pub use laws::{
    ThreadStates, a_stamp_above_the_bound_may_be_appended, an_appended_entry_is_last_on_its_object,
    an_appended_entry_is_taken_last, holds_follow_from_the_own_log, monitors_stay_sound,
    objects_and_threads_join, stamps_stay_bounded,
};
pub use made::{
    a_print_before_its_new_is_refused, an_appended_entry_finds_what_it_needs,
    no_object_is_made_out_of_turn, no_object_is_used_before_its_new,
    owners_know_what_their_slots_refer_to, two_states_take_what_one_store_takes,
    what_is_known_stays_known, what_is_not_there_is_new,
};
