//! HotSpot's monitors for C: a static library with the header `include/biasrun.h`.
//!
//! Each export takes handles, and has no `requires`: what a call of `lock_runtime` asks of its caller is tested here, and where it doesn't hold
//! the answer is a misuse, and the pass is as it was. By the answer the contract of an export says what that of the call says.
#![tactic(auto)]

mod access;
mod answers;
mod calls;
mod enters;
mod exits;
mod exports;
mod gives;
mod handle;
mod inner;
mod left;
mod logs;
mod makes;
mod nth;
mod numbers;
mod opens;
mod outcome;
mod plans;
mod polls;
mod quickly;
mod reads;
mod reasons;
mod store;
mod told;
mod values;

pub use answers::Answer;
pub use exports::{
    biasrun_check_stuck, biasrun_dump, biasrun_enter, biasrun_exit, biasrun_finish, biasrun_hash,
    biasrun_notify, biasrun_notify_all, biasrun_poll, biasrun_resume, biasrun_stop, biasrun_wait,
};
pub use gives::{biasrun_close, biasrun_free, biasrun_leave};
pub use handle::{Handle, Slot};
pub use inner::{Inner, Plan, Room, Seat};
pub use left::{
    Counts, biasrun_class_counts, biasrun_dump_cell, biasrun_dump_cut, biasrun_rest_entry,
    biasrun_rest_length, biasrun_was_halted,
};
pub use makes::{biasrun_add_class, biasrun_add_object, biasrun_begin, biasrun_open, biasrun_pass};
pub use numbers::{Cell, Row};
pub use outcome::{Misuse, Outcome, Refusal, Said};
pub use reads::{biasrun_log_length, biasrun_page_entry, biasrun_take_page, biasrun_unfinished};
pub use store::{AtHome, Lent, Passes};
pub use values::{biasrun_get, biasrun_print, biasrun_put};
