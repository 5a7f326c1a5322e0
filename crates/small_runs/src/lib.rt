//! Small runs of one thread, from the opening world to the end, and a turn of one beside another: so the premises are met of laws that speak of
//! worlds to which a heap comes, of its end, of a thread at rest and of turns.
//!
//! The runs are lists of turns, found by computing as `step_history` says it. The functions are laws, and do nothing.
#![tactic(auto)]

mod witnesses;

pub use witnesses::{
    a_turn_can_be_blocked_by_another_thread_that_owns_its_object,
    a_turn_can_be_blocked_by_its_own_wait, small_heaps_come_to_their_ends,
    small_heaps_have_threads_at_rest, threads_of_small_programs_have_turns,
};
