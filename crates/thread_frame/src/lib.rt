//! Threads of a program that run their local instructions beside a heap.
//!
//! A `Frame` is what a thread of the plain machine is, but for its holds, of which its heap's pass is asked; it takes no memory. It
//! executes its instructions by the plain machine's own code, and stands before a call, or at its end, as the machine's thread does.
#![tactic(auto)]

mod frame;
mod frame_actor;
mod laws;
mod refused;
mod walk;
mod witnesses;

pub use frame::Frame;
pub use laws::{first_frames_are_first_states, frames_move_as_their_threads};
pub use refused::{no_first_state_by_another_frame, no_other_frame_moves_as_its_thread};
pub use walk::Walked;
pub use witnesses::a_frame_stands_before_a_call;
