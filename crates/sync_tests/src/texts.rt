//! What the tests of texts share.

ghost use Rattle.std.specs.Prelude.{◌≡◌, ◌⊎◌, true, Ok, Err};
ghost use Rattle.program_syntax.specs.declared.error.RefusalCause.TheVariants.{NoMemory};
ghost use Rattle.sync_source.specs.Source.{SyncText};
ghost use Rattle.sync_syntax.specs.Refusal.{sync_program_of};
ghost use Rattle.sync_syntax.specs.declared.error.SyncRefusalCause.TheVariants.{Plain};

use program_syntax::RefusalCause;
use std::alloc::{AllocError, Global};
use std::process::Abort;
use std::test::Fail;
use sync_syntax::{SyncRefusalCause, read_sync};

/// Six lines, after which those of a thread follow.
const FRONT: &[u8] = b"class C 1\nobject a C\nthread t\nlocal o\nlocal x\nlocal y\n";

/// Pieces of the lines of a thread, each after the times that it stands there.
pub type Pieces = &'static [(u32, &'static [u8])];

/// Whether the text has a program with blocks.
pub fn is_read(alloc: Global, text: &[u8]) -> bool
    ensures { (result ≡ true) → (p : SyncText) × (sync_program_of text.now ≡ Ok p) }
{
    match read_sync(alloc, text) {
        Ok(_) => true,
        Err(_) => false,
    }
}

/// Whether the text is refused at this line for this cause.
pub fn is_refused(alloc: Global, text: &[u8], line: u32, why: SyncRefusalCause) -> bool
    ensures { (result ≡ true) → (why ≡ Plain NoMemory)
        ⊎ (sync_program_of text.now ≡ Err (record { line = line; why = why })) }
{
    match read_sync(alloc, text) {
        Ok(_) => false,
        Err(error) => error.line == line && error.why == why,
    }
}

/// The lines of a thread, after the six.
pub fn after_front(alloc: Global, lines: &[u8]) -> Result<Vec<u8>, AllocError> {
    let mut text = Vec::from_slice(alloc, FRONT)?;
    text.extend_from_slice(lines)?;
    Ok(text)
}

/// The six lines, and then these pieces.
fn text_of(alloc: Global, pieces: Pieces) -> Result<Vec<u8>, AllocError> {
    let mut text = Vec::from_slice(alloc, FRONT)?;
    for (times, piece) in pieces {
        add(&mut text, piece, *times)?;
    }
    Ok(text)
}

/// Ends the test where the pieces after the six lines aren't read.
pub fn expect_read<R: Abort + AllocGlobal>(rt: &R, pieces: Pieces) -> Result<(), Fail> {
    let text = text_of(rt.alloc(), pieces)?;
    let size = text.len();
    assert!(rt; is_read(rt.alloc(), text.as_slice()), "{size} bytes");
    Ok(())
}

/// Ends the test where the pieces after the six lines aren't refused at this line for this cause.
pub fn expect_refused<R: Abort + AllocGlobal>(
    rt: &R,
    pieces: Pieces,
    line: u32,
    why: SyncRefusalCause,
) -> Result<(), Fail> {
    let text = text_of(rt.alloc(), pieces)?;
    expect_refusal(rt, text.as_slice(), line, why);
    Ok(())
}

/// Ends the test where one of these, after the six lines, isn't refused at its line for the cause.
pub fn expect_lines_refused<R: Abort + AllocGlobal>(
    rt: &R,
    rows: &[(&[u8], u32)],
    why: SyncRefusalCause,
) -> Result<(), Fail> {
    for (lines, line) in rows {
        let text = after_front(rt.alloc(), lines)?;
        expect_refusal(rt, text.as_slice(), *line, why);
    }
    Ok(())
}

/// Ends the test where one of these, after the six lines, isn't refused at its line for its cause of the plain language.
pub fn expect_causes<R: Abort + AllocGlobal>(
    rt: &R,
    rows: &[(&[u8], u32, RefusalCause)],
) -> Result<(), Fail> {
    for (lines, line, why) in rows {
        let text = after_front(rt.alloc(), lines)?;
        expect_refusal(rt, text.as_slice(), *line, SyncRefusalCause::Plain(*why));
    }
    Ok(())
}

/// Ends the test where the text isn't refused at this line for this cause.
pub fn expect_refusal<R: Abort + AllocGlobal>(
    rt: &R,
    text: &[u8],
    line: u32,
    why: SyncRefusalCause,
) {
    assert!(rt; is_refused(rt.alloc(), text, line, why), "{line} {why:?}");
}

/// Adds the piece this many times.
fn add(text: &mut Vec<u8>, piece: &[u8], times: u32) -> Result<(), AllocError> {
    for _ in 0..times {
        text.extend_from_slice(piece)?;
    }
    Ok(())
}
