//! Monitors: how a lock gets one, how a thread enters and leaves it, how it waits on it, and how it notifies others.
//!
//! This is HotSpot's heavyweight locking of OpenJDK 8, as `objectMonitor.cpp` and `synchronizer.cpp` have it. The mark of
//! an inflated object names its monitor, which says who owns it, how often the owner has entered it again, the header
//! that the mark had, and the object. The owner word of a free monitor is exchanged for the thread, and a thread that
//! owns the monitor counts its recursions. Where a lock record of the thread was the owner, from before the lock was
//! inflated, the thread takes its place. At the last exit the owner word is cleared. A thread that waits lets the
//! monitor go at once, with all its recursions, and has them again at the end. A notify takes the thread that has
//! waited longest, and a notify of all takes them in that order. Each hold by a monitor has a lock record, too, whose
//! displaced word is 3.
//!
//! Each function makes the steps of its tree in `core_world`, as they are due, on the words of a `heap_table` heap, and
//! answers what the tree answers. None takes memory.
#![tactic(auto)]

mod enters;
mod exits;
mod inflates;
mod notifies;
mod waits;

pub use enters::{monitor_enter, monitor_enter_found};
pub use exits::{monitor_exit, monitor_exit_found};
pub use inflates::inflate;
pub use notifies::{monitor_notify, monitor_notify_all};
pub use waits::{monitor_resume, monitor_wait, publish};
