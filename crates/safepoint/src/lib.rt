//! Safepoints on the heap: how a thread stops and goes on, and how one thread has the others stopped.
//!
//! This is HotSpot's safepoint protocol, simplified: where `safepoint.cpp` has a state of each thread and a page that
//! threads poll, here one word has a bit for each thread that runs, the thread that asks for a safepoint, and the halt.
//! A running thread polls: where somebody asks, it publishes its log and clears its bit. The thread that asks has its
//! safepoint once no bit is left. Until it releases it nobody sets a bit: the others stay stopped.
//!
//! Each function makes the steps of its tree in `core_world`, as they are due, on the words of a `heap_table` heap, and
//! answers what the tree answers. None of them logs anything or takes memory.
#![tactic(auto)]

mod asking;
mod running;
mod words;

pub use asking::{halt, reached, release, release_to, request, safepoint};
pub use running::{poll, resume, stop};
