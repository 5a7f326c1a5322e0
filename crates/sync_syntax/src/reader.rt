//! The reader of programs with blocks: a pass over the lines, which looks ahead at each line that opens a section or a
//! block.

ghost use Rattle.std.specs.Prelude.{◌≡◌, ◌⊎◌, ◌≤◌, ◌∷◌, true, length, Ok, Err, IfOk, IfErr};
ghost use Rattle.program_syntax.specs.State.{before_of};
ghost use Rattle.program_syntax.specs.Text.{most_bytes};
ghost use Rattle.program_syntax.specs.Refusal.{lines_of};
ghost use Rattle.program_syntax.specs.declared.error.RefusalCause.TheVariants as why;
ghost use Rattle.sync_source.specs.SourceView.{sync_text};
ghost use Rattle.sync_source.specs.Valid.{IsSyncText};
ghost use Rattle.sync_syntax.specs.Reading.{nothing_read, text_read};
ghost use Rattle.sync_syntax.specs.Refusal.{read_from, of_text, sync_program_of};
ghost use Rattle.sync_syntax.specs.inner.State.{sync_before};
ghost use Rattle.sync_syntax.specs.inner.Steps.{is_kept, IsOutside, ClosesSection, IsWordStep, IsLineStep, refusal};

use crate::blocks::no_blocks;
use crate::cause::statement_cause;
use crate::error::{SyncError, SyncRefusalCause};
use crate::plain::plain_cause;
use crate::section::after_word;
use crate::spelling::word_of;
use crate::state::SyncReader;
use crate::word::Word;
use plain_monitor::{List, NoMemory};
use program_syntax::{BYTES, Declared, Directory, Lines, Reader, RefusalCause, Words, is_text};
use std::alloc::Global;
use sync_source::SyncProgram;

/// A line with this word and these operands, with these lines after it.
fn word_line(
    alloc: Global,
    reader: SyncReader,
    word: Word,
    operands: &Words<'_>,
    later: &Lines<'_>,
) -> Result<SyncReader, SyncRefusalCause>
    requires kept { is_kept word ≡ true }
    requires outside { IsOutside (before_of reader.plain).section word }
    ensures { IsWordStep reader later.now operands.now word result }
{
    if let Some(why) = plain_cause(&reader.plain, word, operands, later) {
        return Err(SyncRefusalCause::Plain(why));
    }
    if let Some(why) = statement_cause(&reader, word, operands, later) {
        return Err(why);
    }
    match after_word(alloc, reader, word, operands, later) {
        Ok(reader) => Ok(reader),
        Err(NoMemory) => Err(SyncRefusalCause::Plain(RefusalCause::NoMemory)),
    }
}

/// A line, between those before it and those after it.
fn read_line(
    alloc: Global,
    reader: SyncReader,
    line: &[u8],
    later: &Lines<'_>,
) -> Result<SyncReader, SyncRefusalCause>
    requires { ClosesSection (before_of reader.plain).section (line.now ∷ later.now) }
    ensures { IsLineStep reader later.now line.now result }
{
    if !is_text(line) {
        return Err(SyncRefusalCause::Plain(RefusalCause::NotAscii));
    }
    let mut words = Words::of(line);
    let Some(first) = words.next() else {
        return Ok(reader);
    };
    let Some(word) = word_of(first) else {
        return Err(SyncRefusalCause::Plain(RefusalCause::UnknownWord));
    };
    word_line(alloc, reader, word, &words, later)
}

/// The state before the first line.
fn new_reader(alloc: Global) -> SyncReader
    ensures { sync_before result ≡ nothing_read }
{
    SyncReader {
        plain: Reader {
            declared: Declared {
                classes: Directory::new(alloc),
                objects: Directory::new(alloc),
                total: 0,
                threads: Directory::new(alloc),
            },
            section: None,
        },
        threads: Vec::new(alloc),
        blocks: no_blocks(alloc),
        used: 0,
    }
}

/// All lines of a text of at most 1,048,576 bytes.
///
/// # Errors
///
/// The first line that has a cause, with its lowest-numbered cause. `NoMemory` at line 0 where an allocation fails.
fn read_lines(alloc: Global, bytes: &[u8]) -> Result<SyncReader, SyncError>
    requires { length bytes.now ≤ most_bytes }
    ensures ok { IfOk result (λ r. read_from 1 nothing_read (lines_of bytes.now) ≡ Ok (sync_before r)) }
    ensures err { IfErr result (λ e.
        (read_from 1 nothing_read (lines_of bytes.now) ≡ Err e) ⊎ (e ≡ of_text why.NoMemory)) }
{
    let mut reader = new_reader(alloc);
    let mut number = 1;
    let mut left = Lines::of(bytes);
    'lines: while let Some(line) = left.next() {
        match read_line(alloc, reader, line, &left) {
            Ok(next) => reader = next,
            Err(why) => return Err(refusal(number, why)),
        }
        number += 1;
    }
    Ok(reader)
}

/// Reads the program with blocks that a text has (`specs/Refusal.antt`).
///
/// # Errors
///
/// `Limit` at line 0 where the text has more than 1,048,576 bytes. Else the first line that has a cause of refusal,
/// lines counted from 1, with its lowest-numbered cause, as `SyncRefusalCause` numbers them. Else `NoThread` at line 0 where no
/// line opens a section. `NoMemory` at line 0 where an allocation fails, whatever the text. Nothing is kept.
pub fn read_sync(alloc: Global, bytes: &[u8]) -> Result<SyncProgram, SyncError>
    ensures ok { IfOk result (λ p. sync_program_of bytes.now ≡ Ok (sync_text p)) }
    ensures allowed { IfOk result (λ p. IsSyncText (sync_text p)) }
    ensures err { IfErr result (λ e. (sync_program_of bytes.now ≡ Err e) ⊎ (e ≡ of_text why.NoMemory)) }
{
    if bytes.len() > BYTES {
        return Err(of_text(RefusalCause::Limit));
    }
    let reader = read_lines(alloc, bytes)?;
    if reader.threads.is_empty() {
        return Err(of_text(RefusalCause::NoThread));
    }
    Ok(program(reader))
}

/// A refusal of the line with this number. Want of memory is no line's.
fn refusal(line: u32, why: SyncRefusalCause) -> SyncError
    ensures { result ≡ refusal line why }
{
    match why {
        SyncRefusalCause::Plain(RefusalCause::NoMemory) => of_text(RefusalCause::NoMemory),
        why => SyncError { line, why },
    }
}

/// A refusal of the text as a whole.
fn of_text(why: RefusalCause) -> SyncError
    ensures { result ≡ of_text why }
{
    SyncError {
        line: 0,
        why: SyncRefusalCause::Plain(why),
    }
}

/// The program with blocks that these lines spell.
fn program(reader: SyncReader) -> SyncProgram
    requires { IsSyncText (text_read (sync_before reader)) }
    ensures { sync_text result ≡ text_read (sync_before reader) }
{
    let SyncReader {
        plain,
        threads,
        blocks: _,
        used: _,
    } = reader;
    let Reader {
        declared,
        section: _,
    } = plain;
    let Declared {
        classes,
        objects,
        total: _,
        threads: _,
    } = declared;
    SyncProgram {
        classes: List::of(classes.into_items()),
        objects: List::of(objects.into_items()),
        threads: List::of(threads),
    }
}
