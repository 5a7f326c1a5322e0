//! A program is run on a heap by workers, and leaves its record.
//!
//! `run_program` makes the heap for the program and a runner for each of its threads, lets workers run them until all have ended or the
//! run is stuck, and makes the run's record of what the closed heap has. `specs/Ran.antt` says what holds of a run then.
#![tactic(auto)]

mod copies;
mod laws;
mod lines;
mod opening;
mod plain_laws;
mod record;
mod refused;
mod run;
mod settings;
mod shape;
mod verdict_laws;
mod witnesses;

pub use laws::a_dump_shows_a_state_that_the_run_passes_through;
pub use plain_laws::{plain_runs_are_runs_of_all_settings, runs_without_paths_are_plain};
pub use refused::{
    no_dump_that_misses_an_owner, no_record_with_a_bias_from_nowhere,
    no_record_with_a_bias_that_wanders, no_record_with_a_dump_that_leaves_out_an_earlier_entry,
    no_run_that_leaves_its_thread_unfinished, no_run_that_leaves_out_a_stamp,
    no_text_without_the_shots_of_its_dumps, no_verdicts_beyond_the_entries,
};
pub use run::run_program;
pub use settings::{Ran, Settings};
pub use verdict_laws::verdicts_come_of_entries;
pub use witnesses::a_plain_run_comes_about;
