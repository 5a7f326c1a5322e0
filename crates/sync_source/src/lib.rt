//! Programs with blocks, and their compiler to object programs.
//!
//! `specs/` has which programs with blocks there are, what they mean, which code they have, and when code does what a program with blocks
//! does. The language is this project's own. What its instructions mean is said by `plain_machine`, whose definitions are cited as they are.
#![tactic(auto)]

mod compiler;
mod emit;
mod label;
mod laws;
mod refused;
mod source;
mod witnesses;

pub use compiler::compile;
pub use laws::{
    code_does_what_its_blocks_do, exits_never_fault, threads_hold_nothing_at_their_end,
};
pub use refused::{
    a_thread_holds_what_it_entered_where_it_ends_in_a_block,
    an_exit_faults_where_its_local_is_changed, no_other_code_does_what_the_blocks_do,
};
pub use source::{Block, Statement, SyncProgram, SyncThread, Test};
pub use witnesses::threads_with_blocks_end_and_fault;
