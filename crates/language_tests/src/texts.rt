//! What the tests share.

ghost use Rattle.std.specs.Prelude.{◌≡◌, ◌⊎◌, true, Ok, Err};
ghost use Rattle.object_program.specs.Program.{ProgramText};
ghost use Rattle.program_syntax.specs.Refusal.{program_of};
ghost use Rattle.program_syntax.specs.declared.error.RefusalCause.TheVariants.{NoMemory};

use object_program::Program;
use program_syntax::{RefusalCause, read_program, write_program};
use std::alloc::{AllocError, Global};
use std::process::Abort;
use std::test::Fail;

/// A part of a text.
pub enum Part {
    /// The piece, this many times.
    Times(u32, &'static [u8]),
    /// This many lines, each with its own number from 10000 on between the two pieces.
    Numbered(u16, &'static [u8], &'static [u8]),
}

/// A text, with the line and the cause of its refusal.
pub type Refused = (&'static [u8], u32, RefusalCause);

/// Whether the text has a program.
pub fn is_read(alloc: Global, text: &[u8]) -> bool
    ensures { (result ≡ true) → (p : ProgramText) × (program_of text.now ≡ Ok p) }
{
    match read_program(alloc, text) {
        Ok(_) => true,
        Err(_) => false,
    }
}

/// Whether the text is refused at this line for this cause.
pub fn is_refused(alloc: Global, text: &[u8], line: u32, why: RefusalCause) -> bool
    ensures { (result ≡ true) → (why ≡ NoMemory) ⊎ (program_of text.now ≡ Err (record { line = line; why = why })) }
{
    match read_program(alloc, text) {
        Ok(_) => false,
        Err(error) => error.line == line && error.why == why,
    }
}

/// The program of a text; the test ends where it has none.
pub fn read<R: Abort + AllocGlobal>(rt: &R, text: &[u8]) -> Program {
    match read_program(rt.alloc(), text) {
        Ok(program) => program,
        Err(_) => panic!(rt; "refused"),
    }
}

/// What is written of the program.
pub fn written(alloc: Global, program: &Program) -> Result<Vec<u8>, Fail> {
    let mut out = Vec::new(alloc);
    write_program(program, &mut out)?;
    Ok(out)
}

/// Ends the test where the text of these parts isn't read.
pub fn expect_read<R: Abort + AllocGlobal>(rt: &R, parts: &[Part]) -> Result<(), Fail> {
    let text = text_of(rt.alloc(), parts)?;
    let size = text.len();
    assert!(rt; is_read(rt.alloc(), text.as_slice()), "{size} bytes");
    Ok(())
}

/// Ends the test where the text of these parts isn't refused at this line for this cause.
pub fn expect_refused<R: Abort + AllocGlobal>(
    rt: &R,
    parts: &[Part],
    line: u32,
    why: RefusalCause,
) -> Result<(), Fail> {
    let text = text_of(rt.alloc(), parts)?;
    expect_refusal(rt, text.as_slice(), line, why);
    Ok(())
}

/// Ends the test where one of the texts isn't refused at its line for its cause.
pub fn expect_all_refused<R: Abort + AllocGlobal>(rt: &R, rows: &[Refused]) {
    for (text, line, why) in rows {
        expect_refusal(rt, text, *line, *why);
    }
}

/// Ends the test where the text isn't refused at this line for this cause.
pub fn expect_refusal<R: Abort + AllocGlobal>(rt: &R, text: &[u8], line: u32, why: RefusalCause) {
    assert!(rt; is_refused(rt.alloc(), text, line, why), "{line} {why:?}");
}

/// The text of these parts.
fn text_of(alloc: Global, parts: &[Part]) -> Result<Vec<u8>, AllocError> {
    let mut text = Vec::new(alloc);
    for part in parts {
        match part {
            Part::Times(times, piece) => add(&mut text, piece, *times)?,
            Part::Numbered(times, before, after) => {
                add_numbered(&mut text, before, after, *times)?
            }
        }
    }
    Ok(text)
}

/// Adds the piece this many times.
fn add(text: &mut Vec<u8>, piece: &[u8], times: u32) -> Result<(), AllocError> {
    for _ in 0..times {
        text.extend_from_slice(piece)?;
    }
    Ok(())
}

/// Adds this many lines, each with its own number from 10000 on between the two pieces.
fn add_numbered(
    text: &mut Vec<u8>,
    before: &[u8],
    after: &[u8],
    times: u16,
) -> Result<(), AllocError> {
    for n in 0..times {
        text.extend_from_slice(before)?;
        let number = u32::from(n) + 10000;
        for place in [10000u32, 1000, 100, 10, 1] {
            text.push(b'0' + (number / place % 10) as u8)?;
        }
        text.extend_from_slice(after)?;
    }
    Ok(())
}
