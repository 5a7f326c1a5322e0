//! Identity hashes: how an object's hash is found, or given to it.
//!
//! This is HotSpot's `ObjectSynchronizer::FastHashCode` of OpenJDK 8, as `synchronizer.cpp` has it. The hash stands in
//! the object's header: in its neutral mark, in a lock record that displaced it, or in its monitor. A header without a
//! hash gets the one that the thread draws, by an exchange. A displaced header is never changed: the lock is inflated
//! first.
//!
//! Each function makes the steps of its tree in `core_world`, as they are due, on the words of a `heap_table` heap, and
//! answers what the tree answers. None takes memory.
#![tactic(auto)]

mod hashes;
mod places;
mod words;

pub use hashes::header_hash;
