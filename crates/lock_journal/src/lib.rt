//! The record of a run, and the lines of its text.
//!
//! `RunRecord` is what a run leaves. `Merge` gives the entries of its logs by rising stamp, `Lines` the lines of its text, one at
//! a time, and `replay` the machine under it. `specs/RunText.antt` says what the text of a run is.
#![tactic(auto)]

mod cells;
mod classes;
mod enters;
mod journal;
mod line;
mod lines;
mod order;
mod prints;
mod record;
mod refused;
mod replaying;
mod threads;
mod witnesses;
mod words;

pub use journal::entry_line;
pub use line::Line;
pub use lines::Lines;
pub use order::Merge;
pub use record::{Cell, ClassLine, RunRecord, Shot};
pub use refused::no_entry_stands_after_the_sixteenth_log;
pub use replaying::{legal_logs_can_be_merged, replay};
pub use threads::{have_ended, last_said};
pub use witnesses::seventeen_logs_can_be_legal;
pub use words::{push_object, push_thread};
