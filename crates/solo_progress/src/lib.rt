//! Solo progress: a thread that runs while all others stand still, and ask for no safepoint, gets through each of its calls. It makes at
//! most as many steps as such a call has, and its call is pending only where the plain monitors, a requester or the halt bar it.
//!
//! The laws of `alone` are of trees, along each path whose steps find what the steps before them left. Those of `through` are of worlds
//! to which a heap in the limits comes: there such a path is made. All functions are laws, and do nothing.
#![tactic(auto)]

mod alone;
mod refused;
mod through;
mod witnesses;

pub use alone::{
    calls_at_the_safepoint_word_get_through, calls_that_revoke_get_through,
    calls_without_a_safepoint_get_through, waits_end_where_told,
};
pub use refused::{
    no_call_left_alone_answers_otherwise, no_create_poll_or_resume_answers_otherwise,
    no_enter_left_alone_beside_the_owner, no_enter_that_expects_another_word,
    no_part_left_alone_answers_otherwise, no_path_at_the_safepoint_word_answers_otherwise,
    no_path_of_a_wait_ends_untold, no_path_that_revokes_answers_otherwise,
    no_path_without_a_safepoint_answers_otherwise, no_run_that_finds_what_nobody_left,
    no_wait_left_alone_ends_untold, no_wait_that_forgets_its_notify,
    no_world_of_one_thread_with_an_empty_mark,
};
pub use through::{
    a_run_of_one_thread_finds_what_it_left, a_thread_left_alone_enters_unless_another_owns,
    a_thread_left_alone_gets_through, a_thread_left_alone_gets_through_parts,
    a_thread_left_alone_waits_until_it_is_told, calls_that_need_no_other_thread_get_through,
    worlds_with_one_thread_are_quiet,
};
pub use witnesses::{
    a_thread_can_be_left_alone_before_a_revocation, a_thread_can_move_alone, calls_can_begin,
    owners_requesters_and_waiters_can_go_on, who_was_notified_can_be_left_alone,
    words_can_be_quiet,
};
