//! The reader of programs: a pass over the lines, which looks ahead once at each `thread` line.

ghost use Rattle.std.specs.Prelude.{◌≡◌, ◌⊎◌, ◌≤◌, ◌∷◌, true, length, Some, None, Ok, Err, IfOk, IfErr};
ghost use Rattle.program_syntax.specs.Line.{is_outside};
ghost use Rattle.program_syntax.specs.Reading.{nothing};
ghost use Rattle.program_syntax.specs.Refusal.{read_from, program_of, lines_of};
ghost use Rattle.program_syntax.specs.Text.{most_bytes};
ghost use Rattle.program_syntax.specs.State.{before_of, text_of, HasAhead, HasAheadOf};
ghost use Rattle.program_syntax.specs.State.{cause_of, IsAfterKeyword};
ghost use Rattle.program_syntax.specs.inner.Steps.{IsKeywordStep, IsLineStep};
ghost use Rattle.program_syntax.specs.inner.Steps.{no_memory, refusal};
ghost use Rattle.program_syntax.specs.Canonical.{canonical};
ghost use Rattle.object_program.specs.Valid.{IsProgram};

use crate::cause::keyword_cause;
use crate::declare::{new_section, with_class, with_objects, with_thread};
use crate::directory::Directory;
use crate::error::{ProgramError, RefusalCause};
use crate::keyword::Keyword;
use crate::laws::canonical_texts_are_read_back;
use crate::limits::BYTES;
use crate::lines::{Lines, is_text};
use crate::number::count_of;
use crate::section::{closed, instruction_on, with_code, with_label, with_local};
use crate::spelling::keyword_of;
use crate::state::{Declared, Reader};
use crate::words::Words;
use object_program::{Code, Program};
use plain_monitor::{List, NoMemory};
use std::alloc::Global;

/// What a line without a cause leaves, which has this keyword and these operands, with these lines after it.
fn after_keyword(
    alloc: Global,
    reader: Reader,
    keyword: Keyword,
    operands: &Words<'_>,
    later: &Lines<'_>,
) -> Result<Reader, NoMemory>
    requires clean { cause_of reader later.now operands.now keyword ≡ None }
    requires ahead { HasAheadOf reader.section later.now operands.now keyword }
    ensures after { IfOk result (IsAfterKeyword reader later.now operands.now keyword) }
    ensures ahead { IfOk result (λ r. HasAhead r.section later.now) }
{
    let Reader { declared, section } = reader;
    // A declaration stands in no section: an open one is closed by its `end` first, as else its `thread` line was refused. The definition
    // of a single line allows an open section there.
    let Some(section) = section else {
        return after_declaration(alloc, declared, keyword, operands, later);
    };
    match keyword {
        Keyword::Local => Ok(Reader {
            declared,
            section: Some(with_local(section, operands)?),
        }),
        Keyword::Label => Ok(Reader {
            declared,
            section: Some(with_label(section)),
        }),
        Keyword::End => Ok(Reader {
            declared: with_thread(declared, closed(with_code(section, Code::End)?))?,
            section: None,
        }),
        keyword => {
            let code = instruction_on(&declared, &section, keyword, operands);
            Ok(Reader {
                declared,
                section: Some(with_code(section, code)?),
            })
        }
    }
}

/// What a line without a cause leaves where no section is open, after these declarations.
///
/// # Errors
///
/// `NoMemory` where an allocation fails.
pub fn after_declaration(
    alloc: Global,
    declared: Declared,
    keyword: Keyword,
    operands: &Words<'_>,
    later: &Lines<'_>,
) -> Result<Reader, NoMemory>
    requires outside { is_outside keyword ≡ true }
    requires clean { cause_of (record { declared = declared; section = None }) later.now operands.now keyword ≡ None }
    ensures after { IfOk result
        (IsAfterKeyword (record { declared = declared; section = None }) later.now operands.now keyword) }
    ensures ahead { IfOk result (λ r. HasAhead r.section later.now) }
{
    match keyword {
        Keyword::Class => Ok(Reader {
            declared: with_class(declared, operands)?,
            section: None,
        }),
        Keyword::Object => Ok(Reader {
            declared: with_objects(declared, operands, 1, false)?,
            section: None,
        }),
        Keyword::Array => Ok(Reader {
            declared: with_objects(declared, operands, count_of(operands.word(2)), true)?,
            section: None,
        }),
        Keyword::Thread => Ok(Reader {
            declared,
            section: Some(new_section(alloc, operands, later)?),
        }),
        _ => unreachable!(),
    }
}

/// A line with this keyword and these operands, with these lines after it.
fn keyword_line(
    alloc: Global,
    reader: Reader,
    keyword: Keyword,
    operands: &Words<'_>,
    later: &Lines<'_>,
) -> Result<Reader, RefusalCause>
    requires { HasAheadOf reader.section later.now operands.now keyword }
    ensures step { IsKeywordStep reader later.now operands.now keyword result }
    ensures ahead { IfOk result (λ r. HasAhead r.section later.now) }
{
    if let Some(why) = keyword_cause(&reader, keyword, operands, later) {
        return Err(why);
    }
    match after_keyword(alloc, reader, keyword, operands, later) {
        Ok(reader) => Ok(reader),
        Err(NoMemory) => Err(RefusalCause::NoMemory),
    }
}

/// A line, between those before it and those after it.
fn read_line(
    alloc: Global,
    reader: Reader,
    line: &[u8],
    later: &Lines<'_>,
) -> Result<Reader, RefusalCause>
    requires { HasAhead reader.section (line.now ∷ later.now) }
    ensures step { IsLineStep reader later.now line.now result }
    ensures ahead { IfOk result (λ r. HasAhead r.section later.now) }
{
    if !is_text(line) {
        return Err(RefusalCause::NotAscii);
    }
    let mut words = Words::of(line);
    let Some(word) = words.next() else {
        return Ok(reader);
    };
    let Some(keyword) = keyword_of(word) else {
        return Err(RefusalCause::UnknownWord);
    };
    keyword_line(alloc, reader, keyword, &words, later)
}

/// The state before the first line.
fn new_reader(alloc: Global) -> Reader
    ensures before { before_of result ≡ nothing }
    ensures section { result.section ≡ None }
{
    Reader {
        declared: Declared {
            classes: Directory::new(alloc),
            objects: Directory::new(alloc),
            total: 0,
            threads: Directory::new(alloc),
        },
        section: None,
    }
}

/// All lines of a text of at most 1,048,576 bytes.
///
/// # Errors
///
/// The first line that has a cause, with its lowest-numbered cause. `NoMemory` at line 0 where an allocation fails.
fn read_lines(alloc: Global, bytes: &[u8]) -> Result<Reader, ProgramError>
    requires { length bytes.now ≤ most_bytes }
    ensures ok { IfOk result (λ r. read_from 1 nothing (lines_of bytes.now) ≡ Ok (before_of r)) }
    ensures err { IfErr result (λ e. (read_from 1 nothing (lines_of bytes.now) ≡ Err e) ⊎ (e ≡ no_memory)) }
{
    let mut reader = new_reader(alloc);
    let mut number = 1;
    let mut left = Lines::of(bytes);
    'lines: while let Some(line) = left.next() {
        match read_line(alloc, reader, line, &left) {
            Ok(next) => reader = next,
            Err(why) => return Err(refusal(number, why)),
        }
        number += 1;
    }
    Ok(reader)
}

/// Reads the program that a text has (`specs/Refusal.antt`).
///
/// # Errors
///
/// `Limit` at line 0 where the text has more than 1,048,576 bytes. Else the first line that has a cause of refusal, lines
/// counted from 1, with its lowest-numbered cause, as `RefusalCause` numbers them. Else `NoThread` at line 0 where no line opens a
/// section. `NoMemory` at line 0 where an allocation fails, whatever the text. Nothing is kept.
///
/// The canonical text of the program is read as the same program, unless it is too long for a text.
pub fn read_program(alloc: Global, bytes: &[u8]) -> Result<Program, ProgramError>
    ensures ok { IfOk result (λ p. program_of bytes.now ≡ Ok p) }
    ensures err { IfErr result (λ e. (program_of bytes.now ≡ Err e) ⊎ (e ≡ record { line = 0; why = RefusalCause.NoMemory })) }
    ensures again { IfOk result (λ p. length (canonical p) ≤ most_bytes → program_of (canonical p) ≡ Ok p) }
{
    canonical_texts_are_read_back();
    if bytes.len() > BYTES {
        return Err(of_text(RefusalCause::Limit));
    }
    let Reader {
        declared,
        section: _,
    } = read_lines(alloc, bytes)?;
    if declared.threads.items().is_empty() {
        return Err(of_text(RefusalCause::NoThread));
    }
    Ok(program(declared))
}

/// A refusal of the line with this number. Want of memory is no line's.
fn refusal(line: u32, why: RefusalCause) -> ProgramError
    ensures { result ≡ refusal line why }
{
    match why {
        RefusalCause::NoMemory => of_text(RefusalCause::NoMemory),
        why => ProgramError { line, why },
    }
}

/// A refusal of the text as a whole.
fn of_text(why: RefusalCause) -> ProgramError
    ensures { result ≡ record { line = 0; why = why } }
{
    ProgramError { line: 0, why }
}

/// The program of these declarations.
fn program(declared: Declared) -> Program
    requires { IsProgram (text_of declared) }
    ensures { result ≡ text_of declared }
{
    let Declared {
        classes,
        objects,
        total: _,
        threads,
    } = declared;
    Program {
        classes: List::of(classes.into_items()),
        objects: List::of(objects.into_items()),
        threads: List::of(threads.into_items()),
    }
}
