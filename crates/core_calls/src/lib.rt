//! Laws of calls on the heap, by the trees of their steps alone.
//!
//! A law is a public function with an empty body. No world is spoken of: a call's steps are a tree, with a branch for
//! each word that a step may find, and a law holds along every path. So the code that makes a call's steps knows all
//! this by following the tree.
#![tactic(auto)]

mod bounding;
pub mod enter_exit;
pub mod made;
mod moments;
mod refused;
mod running;
pub mod safepoint;
mod standing;
mod telling;
pub mod wait;
mod witnesses;

pub use bounding::{a_revocation_is_bounded, common_enters_are_short, every_call_is_bounded};
pub use enter_exit::{
    enter_logs_its_answer, exit_logs_its_answer, stack_enter_logs_its_answer,
    stack_exit_logs_its_answer,
};
pub use made::create_logs_its_object;
pub use moments::{a_run_counts_by_the_moment_of_its_call, each_step_names_its_call};
pub use refused::{
    no_call_at_the_safepoint_word_answers_otherwise, no_call_is_shorter_than_its_steps,
    no_call_tells_another_value, no_create_makes_another_object,
    no_enter_or_exit_logs_another_answer, no_notify_wakes_another_waiter, no_run_leaves_its_tree,
    no_run_of_a_done_call_leaves_it_unfinished, no_run_of_a_done_call_leaves_the_log,
    no_run_of_a_pending_call_logs, no_run_of_a_silent_call_logs, no_step_counts_by_another_moment,
    no_thread_stands_otherwise_after_its_call, no_wait_or_notify_logs_another_answer,
};
pub use running::{
    a_run_follows_a_path_of_its_tree, every_path_of_a_tree_is_run,
    steps_make_of_knowledge_what_they_leave,
};
pub use safepoint::{
    check_answers_whether_any_thread_goes_on, check_logs_nothing, poll_logs_nothing,
    reached_logs_nothing, release_logs_nothing, request_logs_nothing, resume_logs_nothing,
    stop_logs_nothing,
};
pub use standing::{
    a_thread_knows_how_it_stands, calls_at_the_safepoint_word_tell_how_their_thread_stands,
    operations_leave_their_thread_running, short_operations_leave_their_thread_running,
};
pub use telling::{
    dump_logs_its_answer, finish_logs_its_ending, get_logs_its_answer, hash_logs_its_answer,
    print_logs_its_value, put_logs_its_value,
};
pub use wait::{
    notify_all_logs_its_answer, notify_logs_its_answer, notify_wakes_the_oldest_waiter,
    wait_logs_its_answer,
};
pub use witnesses::{
    bounded_calls_are_met, calls_at_the_safepoint_word_are_run, calls_find_true_safepoint_words,
    calls_that_tell_are_run, creates_are_run, enters_and_exits_are_run,
    runs_leave_entries_and_counts, waits_and_notifies_are_run,
};
