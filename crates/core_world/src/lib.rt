//! The heap of HotSpot's monitors as a world of plain data: its words, what each thread knows, the atomic steps of every
//! operation, and which worlds are valid.
//!
//! Nothing here touches a heap. `specs/` has the definitions: the words by name, one step on one word, the steps that each
//! operation makes (the files named for steps, `Operations` and `Calls`), and the clauses of a valid world, one file each
//! (`docs/WORLD.md` tells them in plain words). The types here are what steps are made of; the functions are `apply` and laws.
#![tactic(auto)]

mod act;
mod answer;
mod heap_call;
mod laws;
mod plan;
mod refused;
mod shown;
mod stage;
mod word_id;

pub use act::{Act, Effect, apply};
pub use answer::{
    BiasTry, IllegalMonitorState, PendingCause, Progress, StackOut, TooDeep, TooMany, TooManyDumps,
    Unguarded,
};
pub use heap_call::{HeapCall, Operation, Unfinished};
pub use laws::{a_look_keeps_the_world_valid, the_opening_world_is_valid};
pub use plan::{LocalEffect, LogEffect, StepPlan};
pub use refused::{
    no_displaced_header_lost, no_hash_changed, no_hash_drawn_twice, no_hash_that_nobody_drew,
    no_hold_by_the_monitor_before_its_recursions, no_revocation_without_a_bias, no_stale_bias_held,
    no_stamp_from_nowhere, no_two_owners, no_word_changed_at_a_safepoint,
};
pub use shown::{all_clauses_hold_while_a_thread_runs, held_objects_are_stood_at, shown_is_plain};
pub use stage::Stage;
pub use word_id::WordId;
