//! What a run that stands still is asked for first: who waits for whom in a circle, and how each object was locked and passed on.
//!
//! `find_cycles` gives the cycles of a machine, and `count_objects` the enters and the handovers of a record's objects.
//! `specs/Waiting.antt`, `Cycles.antt`, `Handovers.antt` and `Counts.antt` say what these are. `laws` says why a machine without cycles
//! is stuck.
#![tactic(auto)]

mod counts;
mod cycles;
mod laws;
mod refused;
mod tallies;
mod walk;
mod witnesses;

pub use counts::{ObjectCount, count_objects};
pub use cycles::{Cycle, Link, find_cycles};
pub use laws::a_stuck_machine_without_a_cycle_has_one_that_waits;
pub use refused::{
    no_machine_is_stuck_for_the_other_reason, no_machine_is_stuck_where_a_thread_goes_on,
    no_machine_that_forgets_who_waits,
};
pub use witnesses::{
    a_machine_is_stuck_in_a_circle, a_machine_is_stuck_where_its_only_thread_waits,
};
