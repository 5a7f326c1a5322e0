//! Holds by lock records: how a thread takes and leaves one.
//!
//! This is HotSpot's fast stack locking of OpenJDK 8, as `synchronizer.cpp` has it. The header of a neutral object is
//! displaced into a lock record of the thread, and the mark is exchanged for that record's place. A record of a lock
//! that the thread has already has 0 in the header's place. At the end the mark is exchanged for the header again.
//!
//! Each function makes the steps of its tree in `core_world`, as they are due, on the words of a `heap_table` heap, and
//! answers what the tree answers. None takes memory.
#![tactic(auto)]

mod enters;
mod exits;
mod places;
mod words;

pub use enters::{hold, stack_enter};
pub use exits::{clear, leave, raise, stack_exit};
pub use places::{free_place, place_at_depth};
