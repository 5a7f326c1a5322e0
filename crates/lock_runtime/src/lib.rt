//! The calls of the runtime on one heap: the contract for all layers above.
//!
//! Each call is a whole one, of a thread that is in the middle of nothing, and leaves it so. It makes the steps of its
//! tree in `core_world`, by the operations' crates: `rests` says that the call is over, `run` that these steps were made,
//! with this answer, and `says` what they log and leave, by the answer, and why a call is pending or refused, in its own
//! steps. None takes memory, none waits, and none tries again.
#![tactic(auto)]

mod contexts;
mod entering;
mod hashing;
mod leaving;
mod looking;
mod making;
mod revoking;
mod running;
mod values;
mod waiting;

pub use entering::{enter, enter_from_mark, enter_from_owner, enter_from_prototype};
pub use hashing::hash;
pub use leaving::{exit, exit_from_owner, exit_held};
pub use looking::{check_stuck, dump};
pub use making::create;
pub use running::{poll, resume, stop};
pub use values::{finish, get, get_held, print, put, put_held};
pub use waiting::{notify, notify_all, wait};
