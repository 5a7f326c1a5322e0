//! The text of programs with blocks: the reader, with the cause of each refusal, and the canonical text.
//!
//! `specs/` has the syntax: the words of lines, what lines make of the blocks that are open, the program with blocks
//! that a text has, the line and the cause of each refusal, and the text that a program with blocks is written as. What
//! a program with blocks is stands in `sync_source`, and what both languages share in `program_syntax`.
#![tactic(auto)]

mod block;
mod blocks;
mod cause;
mod closing;
mod error;
mod laws;
mod plain;
mod reader;
mod refused;
mod section;
mod spelling;
mod state;
mod witnesses;
mod word;
mod write;

pub use error::{SyncError, SyncRefusalCause};
pub use laws::{canonical_texts_are_read_back, no_block_is_open_at_an_end};
pub use reader::read_sync;
pub use refused::{
    a_block_is_open_at_its_done, no_text_is_read_back_as_what_is_no_program_with_blocks,
};
pub use witnesses::threads_with_blocks_have_a_text;
pub use write::write_sync;
