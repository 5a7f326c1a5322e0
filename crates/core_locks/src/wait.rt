//! Laws of the steps by which a thread waits, and of those by which an owner tells it.

mod leaving_to_wait;
mod waiting;
mod waking;

pub use leaving_to_wait::logging_a_wait_keeps_the_world_valid;
pub use waiting::{
    raising_a_stamp_keeps_the_world_valid, storing_ended_keeps_the_world_valid,
    storing_entering_keeps_the_world_valid, storing_ready_keeps_the_world_valid,
};
pub use waking::{
    logging_a_notify_all_keeps_the_world_valid, logging_a_notify_keeps_the_world_valid,
    telling_one_of_several_keeps_the_world_valid,
};
