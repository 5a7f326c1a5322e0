//! Why a line is refused: the causes by blocks.

ghost use Rattle.std.specs.Prelude.{◌≡◌, true};
ghost use Rattle.sync_syntax.specs.Refusal.{statement_cause, is_stray, is_assigned};
ghost use Rattle.sync_syntax.specs.inner.State.{sync_before};
ghost use Rattle.sync_syntax.specs.inner.Views.{blocks_of};
ghost use Rattle.sync_syntax.specs.inner.Steps.{is_kept, HasOperands};

use crate::block::Blocks;
use crate::blocks::{changes_held, takes_done, takes_else};
use crate::closing::is_closed;
use crate::error::SyncRefusalCause;
use crate::section::code_on;
use crate::spelling::{opens, weight};
use crate::state::SyncReader;
use crate::word::Word;
use program_syntax::{CODE, Lines, RefusalCause, Words, is_instruction};

/// How many blocks may be open.
const DEPTH: usize = 32;

/// Why a line with this word and these operands is refused, with these lines after it, where it has no cause of the
/// plain language.
pub fn statement_cause(
    reader: &SyncReader,
    word: Word,
    operands: &Words<'_>,
    later: &Lines<'_>,
) -> Option<SyncRefusalCause>
    requires kept { is_kept word ≡ true }
    requires operands { HasOperands word operands.now }
    ensures { result ≡ statement_cause (sync_before reader.now) later.now operands.now word }
{
    if reader.used + weight(word) > CODE {
        return Some(SyncRefusalCause::Plain(RefusalCause::Limit));
    }
    if opens(word) && !is_closed(later) {
        return Some(SyncRefusalCause::Open);
    }
    if is_stray(&reader.blocks, word) {
        return Some(SyncRefusalCause::Stray);
    }
    if is_assigned(reader, word, operands) {
        return Some(SyncRefusalCause::Assigned);
    }
    if opens(word) && reader.blocks.opened.len() >= DEPTH {
        return Some(SyncRefusalCause::Deep);
    }
    None
}

/// Whether the line closes a block, or opens an `else`, where none is open that it fits.
fn is_stray(blocks: &Blocks, word: Word) -> bool
    ensures { result ≡ is_stray (blocks_of blocks.now).opened word }
{
    match word {
        Word::Else => !takes_else(blocks),
        Word::Done => !takes_done(blocks),
        _ => false,
    }
}

/// Whether the line gives a value to a local that an open `sync` names.
fn is_assigned(reader: &SyncReader, word: Word, operands: &Words<'_>) -> bool
    requires kept { is_kept word ≡ true }
    requires operands { HasOperands word operands.now }
    ensures { result ≡ is_assigned (sync_before reader.now) operands.now word }
{
    let Word::Plain(keyword) = word else {
        return false;
    };
    let Some(section) = &reader.plain.section else {
        return false;
    };
    if !is_instruction(keyword) {
        return false;
    }
    let code = code_on(&reader.plain.declared, section, keyword, operands);
    changes_held(&reader.blocks, &code)
}
