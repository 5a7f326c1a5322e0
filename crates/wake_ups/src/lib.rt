//! No wake-up is lost: who was notified, by the logs, finds that in its own waiting word. The functions are laws, and do nothing.
#![tactic(auto)]

mod refused;
mod waking;
mod witnesses;

pub use refused::{
    no_notify_that_stores_nothing, no_notify_without_its_store,
    no_run_that_forgets_who_was_notified, no_world_that_loses_a_wake_up,
};
pub use waking::{no_wake_up_is_lost, who_is_notified_stays_so_until_its_resume};
pub use witnesses::{a_thread_can_wait_and_be_notified, who_is_notified_can_be_left_waiting};
