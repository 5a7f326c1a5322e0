//! Things that take turns, in the slots of a table: each is at home or in one worker's hand.
#![tactic(auto)]

mod choice;
mod pool;
mod rule;
mod standstill;
mod word;

pub use choice::first_from;
pub use pool::Pool;
pub use rule::{PoolSeat, SeatView, TurnRule};
pub use standstill::stand_still;
pub use word::Word;
