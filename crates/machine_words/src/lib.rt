//! Words that tell a machine, so that a search can keep many machines and know each again.
//!
//! The words of a machine are those of its threads, the classes of what each has made, and the words of those of its objects that aren't as
//! at first. What the rest tells isn't in them.
//!
//! A machine has a place for each object that its threads may make, and nearly none of these is there: so what writes words or reads them goes
//! over those that are.
#![tactic(auto)]

mod laws;
mod numbers;
mod object_words;
mod place_object;
mod place_thread;
mod read_machine;
mod read_object;
mod read_thread;
mod reader;
mod renew;
mod thread_words;
mod unread;
mod words;
mod writer;

pub use laws::{
    first_machines_are_untouched, fuel_makes_no_words, machines_are_read_back,
    machines_stay_untouched, words_tell_machines_apart,
};
pub use read_machine::load;
pub use unread::Unread;
pub use words::add_words;
