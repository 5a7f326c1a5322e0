//! The words of a heap in one table that threads share, and the one step that changes them.
//!
//! `Heap` has the words, over the kit's `atomic_table`, and each thread steps with its own `Pass`, which keeps at run
//! time what the thread knows. The rule of the table is that it is a sound world of `core_law`, which the heap comes
//! to, and that the heap has its law, which is handed in when it is made. By that `Heap::step` keeps the rule: a step is
//! the next one of its thread, and needs no law of its own. `HeapShape` says where each word lies, and `close` what is left at the end.
#![tactic(auto)]

mod afters;
mod call_context;
mod choice;
mod classes;
mod closing;
mod counts;
mod draws;
mod entries;
mod heap;
mod holding;
mod holds;
mod leaving;
mod made;
mod mirror;
mod opening;
mod opening_conditions;
mod pass;
mod plans;
mod quick;
mod quick_enters;
mod quick_exits;
mod reads;
mod rule;
mod setting;
mod shape;
mod shots;
mod steps;
mod steps_keeping;
mod steps_quiet;

pub use call_context::CallContext;
pub use closing::{Closed, close};
pub use counts::ClassCounts;
pub use heap::Heap;
pub use holds::{PLACES, names};
pub use pass::Pass;
pub use quick::{QuickEnter, QuickExit};
pub use reads::{
    class_epoch, hash_of_word, hold_of_word, is_biased, is_own, mark_of_word, owner_of_word,
    safe_of_word, value_of_word, wait_of_word,
};
pub use shape::{HeapShape, no_two_names_have_one_place, words_of_two_groups_lie_apart};
pub use shots::{Cell, Shot};
