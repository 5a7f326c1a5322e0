//! Object programs as data: their names, classes, objects and threads, and which programs there are.
//!
//! `specs/` has what a program is and which are allowed; a `Program` is always one of these. `program_syntax` reads and writes
//! their text, and `plain_machine` says what they mean.
#![tactic(auto)]

mod name;
mod program;
mod shape;

pub use name::Name;
pub use program::{ClassDef, Code, LabelDef, ObjectDef, Program, ThreadDef};
