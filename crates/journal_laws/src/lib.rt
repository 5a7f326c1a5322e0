//! The journal of a run is legal for a check: laws of logs, and of the lines that are written of them.
//!
//! What a run's contract says of its logs is that the machine takes them, that their stamps are exact, and that their hashes fit the
//! generators of the threads. From this alone it follows that each entry can be told by a line, and that the lines are a run. No heap is spoken of. The functions do nothing.
#![tactic(auto)]

mod laws;
mod refused;
mod witnesses;

pub use laws::{
    entries_of_a_run_can_be_told, exact_stamps_leave_no_gap, journals_of_runs_are_legal,
};
pub use refused::{
    no_line_tells_what_is_not_of_the_program, no_other_answer_of_a_journal,
    no_other_state_of_a_machine_that_is_over, no_short_journal_of_too_many_entries,
    no_stamp_above_the_number_of_entries,
};
pub use witnesses::{a_stuck_machine_comes_about, logs_of_a_run_come_about};
