//! The text of object programs: the reader, with the cause of each refusal, and the canonical text.
//!
//! `specs/` has the syntax: the program that a text has, the line and the cause of each refusal, and the text that a program
//! is written as. What a program is stands in `object_program`.
#![tactic(auto)]

mod cause;
mod declare;
mod directory;
mod error;
mod keyword;
mod labels;
mod laws;
mod limits;
mod lines;
mod number;
mod operand;
mod reader;
mod refused;
mod section;
mod spelling;
mod state;
mod witnesses;
mod words;
mod write;

pub use cause::keyword_cause;
pub use declare::with_thread;
pub use directory::{Directory, Named};
pub use error::{ProgramError, RefusalCause};
pub use keyword::Keyword;
pub use laws::canonical_texts_are_read_back;
pub use limits::{BYTES, CODE};
pub use lines::{Lines, is_text};
pub use number::number_within;
pub use reader::{after_declaration, read_program};
pub use refused::{no_limit_is_one_more, no_text_is_read_back_as_what_is_no_program};
pub use section::{closed, instruction_on, with_code, with_local};
pub use spelling::{ends_section, is_instruction, is_outside, keyword_of};
pub use state::{Declared, Reader, Section};
pub use witnesses::a_program_with_a_loop_has_a_text;
pub use words::Words;
pub use write::{
    local_name, write_classes, write_instruction, write_line, write_objects, write_program,
    write_thread,
};
