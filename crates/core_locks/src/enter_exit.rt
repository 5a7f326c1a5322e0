//! Laws of the steps of enters and exits: of lock records, hold words, and the entries that take and leave an object.

mod entering;
mod exiting;
mod holding;
mod marking;

pub use entering::{
    logging_a_resume_keeps_the_world_valid, logging_an_enter_keeps_the_world_valid,
    the_stamp_of_a_taking_follows_from_the_logs,
};
pub use exiting::{
    exiting_by_a_hold_word_keeps_the_world_valid, exiting_by_the_mark_keeps_the_world_valid,
};
pub use holding::{
    clearing_a_hold_word_keeps_the_world_valid, storing_a_hold_word_keeps_the_world_valid,
};
pub use marking::{
    exchanging_a_neutral_mark_keeps_the_world_valid, storing_a_displaced_word_keeps_the_world_valid,
};
