//! The threads of a program on workers.
//!
//! `run` puts the runners into a pool. Each worker takes one that is ready, gives it a turn and puts it back, so that no runner is in a
//! worker's hand but while it has a turn. Where all stand still a worker checks with one of them whether the run is stuck. `run` returns when
//! all threads have ended or the run was halted, and closes the heap.
#![tactic(auto)]

mod course;
mod first;
mod run_terms;
mod runs;
mod turns;
mod work_context;
mod workers;

pub use first::first_runners;
pub use run_terms::RunTerms;
pub use runs::run;
pub use thread_interp::Runner;
