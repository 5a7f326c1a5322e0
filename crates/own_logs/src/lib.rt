//! What a thread between two calls knows follows from its own log.
//!
//! A thread that rests has as many hold words for an object as its log has Enters of it that weren't left; its waiting word, as it last
//! stored it, says that it waits exactly where its log does; and it keeps a shot for each dump that it logged. So a caller who knows the
//! log knows these, whatever the words of the heap are. In the heap the waiting word may say otherwise: of a thread that another one has
//! notified, and that hasn't looked since, it says that it was notified. The laws follow from the rule of the heap alone, and no call is
//! spoken of.
#![tactic(auto)]

mod laws;
mod refused;

pub use laws::{
    holds_at_rest_follow_from_the_own_log, shots_at_rest_are_those_of_logged_dumps,
    waits_at_rest_follow_from_the_own_log,
};
pub use refused::{
    no_hold_words_beside_the_own_log, no_shots_beside_the_own_log,
    no_waiting_word_beside_the_own_log,
};
