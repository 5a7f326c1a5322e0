//! The calls that a thread of a program makes on its heap, one at a time.
//!
//! `advance` executes the instruction that the thread is at: a local one by its frame, and one that makes an entry by the call of
//! `lock_runtime`; or it makes the next entry of a thread that waits or unwinds. Between two calls the pass's log follows the thread's
//! code, and its unfinished operation is the one that the thread asks next.
#![tactic(auto)]

mod calls;
mod came;
mod laws;
mod next;
mod refused;
mod run_context;
mod runtime_calls;
mod timing;
mod waiting_and_unwinding;

pub use came::Went;
pub use laws::unused_passes_are_on;
pub use next::advance;
pub use refused::{no_frame_has_more_fuel_than_its_pass, no_used_pass_is_on_beside_a_first_frame};
pub use run_context::RunContext;
