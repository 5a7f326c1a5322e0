//! The check of a journal: whether its lines are a legal history of a program's monitor calls, and if not, at which line it
//! stops being one.
//!
//! `specs/` has the trusted definitions: the lines of a text and which entries a line tells (`Lines`), the run of the plain
//! machine that they are (`Steps`), where the hashes fit the threads' generators (`Hashes`), and the answer (`Answer`); and where a
//! text has a program and a journal (`Parts`).
#![tactic(auto)]

mod answer;
mod check;
mod entries;
mod finder;
mod hashes;
mod laws;
mod lines;
mod names;
mod parts;
mod refused;
mod spelled;
mod witnesses;

pub use answer::{CheckFault, Checked, Reached};
pub use check::check_journal;
pub use laws::{
    a_line_is_at_most_one_step, a_program_joined_with_a_journal_splits_into_both,
    journals_of_legal_logs_are_runs, runs_split_into_legal_logs,
};
pub use parts::{Parts, split_text};
pub use refused::{
    a_line_may_tell_two_entries, no_parts_of_a_text_without_its_line_feed,
    no_run_by_a_journal_that_is_wrong, no_split_of_entries_that_are_no_run,
};
pub use witnesses::{a_program_of_one_thread_has_a_legal_journal, a_text_has_a_program};
