//! What a line leaves, where it has no cause of refusal.

ghost use Rattle.std.specs.Prelude.{◌≡◌, ◌==◌, ◌≤◌, ◌+◌, ℕ, List, [], length, true, false, Some, None, IsSome, IfOk};
ghost use Rattle.object_program.specs.Limits.{most_code};
ghost use Rattle.object_program.specs.Name.{is_name};
ghost use Rattle.program_syntax.specs.Line.{is_instruction, is_outside, operands_of};
ghost use Rattle.program_syntax.specs.Reading.{operand, new_thread, instruction_on, after_keyword};
ghost use Rattle.program_syntax.specs.Refusal.{is_bad_number, some_operand, keyword_cause, locals_full};
ghost use Rattle.program_syntax.specs.declared.keyword.Keyword.TheVariants as keyword;
ghost use Rattle.program_syntax.specs.State.{text_of, thread_of, before_of};
ghost use Rattle.sync_source.specs.SourceView.{thread_text};
ghost use Rattle.sync_syntax.specs.Word.{is_left_out, weight};
ghost use Rattle.sync_syntax.specs.Reading.{test_on, ended, blocks_after, after_word};
ghost use Rattle.sync_syntax.specs.Refusal.{plain_cause, statement_cause, is_stray};
ghost use Rattle.sync_syntax.specs.declared.word.Word.TheVariants as word;
ghost use Rattle.sync_syntax.specs.inner.State.{sync_before};
ghost use Rattle.sync_syntax.specs.inner.Views.{IsBare, blocks_of};
ghost use Rattle.sync_syntax.specs.inner.Steps.{is_kept, is_block, IsStatement, IsOutside, HasOperands, only_declared};

use crate::block::{Blocks, Opener};
use crate::blocks::{no_blocks, with_block, with_else, with_instruction, without_block};
use crate::plain::is_equals;
use crate::spelling::weight;
use crate::state::SyncReader;
use crate::word::Word;
use object_program::{Code, Name};
use plain_monitor::{List, NoMemory};
use program_syntax::{
    Declared, Directory, Keyword, Lines, Reader, Section, Words, after_declaration, closed,
    instruction_on, is_outside, with_code, with_local, with_thread,
};
use std::alloc::Global;
use sync_source::{Block, SyncThread, Test};

/// The instruction that a line with this keyword and these operands stands for.
pub fn code_on(
    declared: &Declared,
    section: &Section,
    keyword: Keyword,
    operands: &Words<'_>,
) -> Code
    requires kept { is_left_out keyword ≡ false }
    requires bare { IsBare (Some section.now) }
    requires instruction { is_instruction keyword ≡ true }
    requires count { (length operands.now == length (operands_of keyword)) ≡ true }
    requires numbers { some_operand is_bad_number (operands_of keyword) operands.now ≡ false }
    ensures { result ≡ instruction_on (text_of declared.now) (thread_of section.now) [] operands.now keyword }
{
    instruction_on(declared, section, keyword, operands)
}

/// The section that a `thread` line with these operands opens.
fn new_section(alloc: Global, operands: &Words<'_>) -> Section
    requires { is_name (operand operands.now 0) ≡ true }
    ensures thread { thread_of result ≡ new_thread (operand operands.now 0) }
    ensures bare { IsBare (Some result) }
{
    Section {
        name: Name::of(operands.word(0)),
        locals: Directory::new(alloc),
        labels: Directory::new(alloc),
        declared: 0,
        code: Vec::new(alloc),
    }
}

/// The test of a line with these operands.
fn test_on(section: &Section, operands: &Words<'_>) -> Test
    ensures { result ≡ test_on (thread_of section.now) operands.now }
{
    Test {
        equal: is_equals(operands.word(1)),
        x: section.locals.number_of(operands.word(0)),
        y: section.locals.number_of(operands.word(2)),
    }
}

/// The blocks after a block's line.
fn blocks_after(
    alloc: Global,
    section: &Section,
    blocks: Blocks,
    word: Word,
    operands: &Words<'_>,
) -> Result<Blocks, NoMemory>
    requires stray { is_stray (blocks_of blocks).opened word ≡ false }
    ensures { IfOk result (λ b. blocks_of b
        ≡ blocks_after (thread_of section.now) (blocks_of blocks) operands.now word) }
{
    match word {
        Word::Sync => {
            let local = section.locals.number_of(operands.word(0));
            with_block(alloc, blocks, Opener::Sync { local })
        }
        Word::If => {
            let test = test_on(section, operands);
            with_block(alloc, blocks, Opener::If { test })
        }
        Word::While => {
            let test = test_on(section, operands);
            with_block(alloc, blocks, Opener::While { test })
        }
        Word::Else => with_else(alloc, blocks),
        Word::Done => without_block(alloc, blocks),
        Word::Plain(_) => Ok(blocks),
    }
}

/// Makes of the state what a line with this word and these operands makes of it. The line has no cause, and these lines
/// come after it.
///
/// # Errors
///
/// `NoMemory` where an allocation fails.
pub fn after_word(
    alloc: Global,
    reader: SyncReader,
    word: Word,
    operands: &Words<'_>,
    later: &Lines<'_>,
) -> Result<SyncReader, NoMemory>
    requires kept { is_kept word ≡ true }
    requires outside { IsOutside (before_of reader.plain).section word }
    requires plain { plain_cause (before_of reader.plain) later.now operands.now word ≡ None }
    requires clean { statement_cause (sync_before reader) later.now operands.now word ≡ None }
    ensures { IfOk result (λ r. sync_before r ≡ after_word (sync_before reader) later.now operands.now word) }
{
    match word {
        Word::Plain(keyword) => after_keyword(alloc, reader, keyword, operands, later),
        word => after_block(alloc, reader, word, operands),
    }
}

/// Makes of the state what such a line of the plain language makes of it.
fn after_keyword(
    alloc: Global,
    reader: SyncReader,
    keyword: Keyword,
    operands: &Words<'_>,
    later: &Lines<'_>,
) -> Result<SyncReader, NoMemory>
    requires kept { is_left_out keyword ≡ false }
    requires outside { IsOutside (before_of reader.plain).section (word.Plain keyword) }
    requires plain { keyword_cause (before_of reader.plain) later.now operands.now (Some keyword) ≡ None }
    requires room { reader.used + weight (word.Plain keyword) ≤ most_code }
    ensures { IfOk result (λ r. sync_before r
        ≡ after_word (sync_before reader) later.now operands.now (word.Plain keyword)) }
{
    if is_outside(keyword) {
        return after_outside(alloc, reader, keyword, operands, later);
    }
    match keyword {
        Keyword::Local => after_local(reader, operands),
        Keyword::End => after_end(alloc, reader),
        keyword => after_code(reader, keyword, operands),
    }
}

/// Adds a declaration, or opens a section.
fn after_outside(
    alloc: Global,
    reader: SyncReader,
    keyword: Keyword,
    operands: &Words<'_>,
    later: &Lines<'_>,
) -> Result<SyncReader, NoMemory>
    requires outside { is_outside keyword ≡ true }
    requires section { reader.plain.section ≡ None }
    requires clean { keyword_cause (before_of reader.plain) later.now operands.now (Some keyword) ≡ None }
    ensures { IfOk result (λ r. sync_before r
        ≡ after_word (sync_before reader) later.now operands.now (word.Plain keyword)) }
{
    let SyncReader {
        plain,
        threads,
        blocks: _,
        used: _,
    } = reader;
    let Reader {
        declared,
        section: _,
    } = plain;
    Ok(SyncReader {
        plain: after_declared(alloc, declared, keyword, operands, later)?,
        threads,
        blocks: no_blocks(alloc),
        used: 0,
    })
}

/// The names after such a line.
fn after_declared(
    alloc: Global,
    declared: Declared,
    keyword: Keyword,
    operands: &Words<'_>,
    later: &Lines<'_>,
) -> Result<Reader, NoMemory>
    requires outside { is_outside keyword ≡ true }
    requires clean { keyword_cause (only_declared declared) later.now operands.now (Some keyword) ≡ None }
    ensures after { IfOk result (λ r. before_of r
        ≡ after_keyword (only_declared declared) later.now operands.now keyword) }
    ensures bare { IfOk result (λ r. IsBare r.section) }
{
    match keyword {
        Keyword::Thread => Ok(Reader {
            declared,
            section: Some(new_section(alloc, operands)),
        }),
        keyword => after_declaration(alloc, declared, keyword, operands, later),
    }
}

/// Adds a local to the section.
fn after_local(reader: SyncReader, operands: &Words<'_>) -> Result<SyncReader, NoMemory>
    requires section { IsSome reader.plain.section }
    requires name { is_name (operand operands.now 0) ≡ true }
    requires room { locals_full (before_of reader.plain).section ≡ false }
    ensures { IfOk result (λ r. (later : List (List ℕ)) → sync_before r
        ≡ after_word (sync_before reader) later operands.now (word.Plain keyword.Local)) }
{
    let SyncReader {
        plain,
        threads,
        blocks,
        used,
    } = reader;
    let Reader { declared, section } = plain;
    let Some(section) = section else {
        unreachable!();
    };
    let section = Some(with_local(section, operands)?);
    Ok(SyncReader {
        plain: Reader { declared, section },
        threads,
        blocks,
        used,
    })
}

/// Adds an instruction other than `end`.
fn after_code(
    reader: SyncReader,
    keyword: Keyword,
    operands: &Words<'_>,
) -> Result<SyncReader, NoMemory>
    requires section { IsSome reader.plain.section }
    requires kept { is_left_out keyword ≡ false }
    requires instruction { IsStatement keyword }
    requires operands { HasOperands (word.Plain keyword) operands.now }
    requires room { reader.used + 1 ≤ most_code }
    ensures { IfOk result (λ r. (later : List (List ℕ)) → sync_before r
        ≡ after_word (sync_before reader) later operands.now (word.Plain keyword)) }
{
    let SyncReader {
        plain,
        threads,
        blocks,
        used,
    } = reader;
    let Reader { declared, section } = plain;
    let Some(section) = section else {
        unreachable!();
    };
    let code = code_on(&declared, &section, keyword, operands);
    Ok(SyncReader {
        plain: Reader {
            declared,
            section: Some(section),
        },
        threads,
        blocks: with_instruction(blocks, code)?,
        used: used + 1,
    })
}

/// Opens, turns over or closes a block, as its line says.
fn after_block(
    alloc: Global,
    reader: SyncReader,
    word: Word,
    operands: &Words<'_>,
) -> Result<SyncReader, NoMemory>
    requires section { IsSome reader.plain.section }
    requires block { is_block word ≡ true }
    requires stray { is_stray (blocks_of reader.blocks).opened word ≡ false }
    requires room { reader.used + weight word ≤ most_code }
    ensures { IfOk result (λ r. (later : List (List ℕ)) → sync_before r
        ≡ after_word (sync_before reader) later operands.now word) }
{
    let SyncReader {
        plain,
        threads,
        blocks,
        used,
    } = reader;
    let Reader { declared, section } = plain;
    let Some(section) = section else {
        unreachable!();
    };
    let blocks = blocks_after(alloc, &section, blocks, word, operands)?;
    Ok(SyncReader {
        plain: Reader {
            declared,
            section: Some(section),
        },
        threads,
        blocks,
        used: used + weight(word),
    })
}

/// Closes the section, by its `end`.
fn after_end(alloc: Global, reader: SyncReader) -> Result<SyncReader, NoMemory>
    requires section { IsSome reader.plain.section }
    ensures { IfOk result (λ r. (later ws : List (List ℕ)) → sync_before r
        ≡ after_word (sync_before reader) later ws (word.Plain keyword.End)) }
{
    let SyncReader {
        plain,
        mut threads,
        blocks,
        used: _,
    } = reader;
    let Reader { declared, section } = plain;
    let Some(section) = section else {
        unreachable!();
    };
    let thread = ended(alloc, &section, blocks)?;
    match threads.push(thread) {
        Ok(()) => {}
        Err(_) => return Err(NoMemory),
    }
    let declared = with_thread(declared, closed(with_code(section, Code::End)?))?;
    Ok(SyncReader {
        plain: Reader {
            declared,
            section: None,
        },
        threads,
        blocks: no_blocks(alloc),
        used: 0,
    })
}

/// The thread of a section after its `end`.
fn ended(alloc: Global, section: &Section, blocks: Blocks) -> Result<SyncThread, NoMemory>
    ensures { IfOk result (λ t. thread_text t ≡ ended (thread_of section.now) (blocks_of blocks)) }
{
    let Ok(locals) = Vec::from_slice(alloc, section.locals.items()) else {
        return Err(NoMemory);
    };
    let Blocks {
        opened: _,
        statements,
    } = with_instruction(blocks, Code::End)?;
    Ok(SyncThread {
        name: section.name,
        locals: List::of(locals),
        body: Block { statements },
    })
}
