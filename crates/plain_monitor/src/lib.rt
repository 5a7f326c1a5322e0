//! The plain monitor, after the Java Language Specification 8, 17.1 and 17.2 (`Monitor` says what it leaves out of it), the entries that threads log,
//! and the words of values.
//!
//! `specs/` has the trusted definitions: the monitor and its steps, the objects that entries change, the one order of all
//! logs, the histories that are legal, and which word spells which value. The types here are what logs are made of.
#![tactic(auto)]

mod endings;
mod entry;
mod laws;
pub mod limits;
mod list;
mod monitor;
mod refusal;
mod value_words;
mod waiters;

pub use endings::ending_entry;
pub use entry::{Ending, Entry, Fault, Logged, Path, Value};
pub use laws::{
    an_entry_above_all_comes_last, kept_entries_are_ordered_alone, least_head_comes_first,
    order_keeps_each_log,
};
pub use list::List;
pub use monitor::Monitor;
pub use refusal::{BadWord, NoMemory, Refused};
pub use value_words::{
    value_word, values_are_read, values_are_read_back, values_are_spelled_once, word_value,
};
