//! Who waits on what, by the threads' own logs.
//!
//! A thread that has logged a Wait and not yet the Resume after it stands among those who wait on the object or were called from it, in
//! every legal history, and no other does. `specs/` has the definitions.
#![tactic(auto)]

mod laws;
mod refused;
mod witnesses;

pub use laws::waits_follow_from_the_own_log;
pub use refused::nobody_waits_by_the_own_log_alone_or_by_the_lists_alone;
pub use witnesses::a_thread_can_wait_in_a_legal_history;
