//! A program of one thread runs one way: what a run's contract says of its log leaves open by which path an enter goes,
//! and nothing else.
//!
//! No heap is spoken of: these are laws of the plain machine, of draws, of stamps and of a run's text. The functions do
//! nothing, and `specs/` has the definitions.
#![tactic(auto)]

mod laws;
mod refused;
mod witnesses;

pub use laws::{
    one_thread_logs_one_way, one_thread_writes_one_text, stamps_of_one_thread_count_its_entries,
};
pub use refused::{
    no_stamp_is_the_place_in_a_log_with_a_gap, two_threads_log_two_ways,
    two_threads_write_two_texts,
};
pub use witnesses::a_program_of_one_thread_runs_alone;
