//! The plain machine: what an object program means, one entry at a time.
//!
//! `specs/` has the trusted definitions: how a thread runs its local instructions up to its next call, what it asks then, which
//! entries the machine takes, and which logs are legal. It has no headers, biases, records or safepoints.
#![tactic(auto)]

mod actor;
mod advance;
mod build;
mod code;
mod compute;
mod fit;
mod jump;
mod machine;
mod monitor_call;
mod object;
mod objects;
mod offer;
mod perform;
mod register;
mod run;
mod step;
mod thread;

pub use actor::Actor;
pub use code::code_of;
pub use machine::{Machine, Parts};
pub use monitor_call::{Mode, MonitorCall, NextEntry};
pub use object::Object;
pub use offer::Offer;
pub use register::Register;
pub use step::{Next, look};
pub use thread::Thread;
