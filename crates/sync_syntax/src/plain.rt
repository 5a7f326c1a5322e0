//! Causes that the plain language has too.

ghost use Rattle.std.specs.Prelude.{◌≡◌, ◌==◌, true, not, length};
ghost use Rattle.object_program.specs.Valid.{is_among};
ghost use Rattle.program_syntax.specs.Refusal.{local_names};
ghost use Rattle.program_syntax.specs.State.{before_of};
ghost use Rattle.sync_syntax.specs.Reading.{is_equals, is_sign};
ghost use Rattle.plain_monitor.specs.Monitor.{only_if};
ghost use Rattle.program_syntax.specs.declared.error.RefusalCause.TheVariants as why;
ghost use Rattle.sync_syntax.specs.Refusal.{locals_cause, tested, plain_cause};
ghost use Rattle.sync_syntax.specs.inner.Steps.{is_kept};

use crate::spelling::is_word;
use crate::word::Word;
use object_program::Name;
use program_syntax::{Lines, Reader, RefusalCause, Words, keyword_cause};

/// Why a line with this word and these operands is refused, with these lines after it.
pub fn plain_cause(
    reader: &Reader,
    word: Word,
    operands: &Words<'_>,
    later: &Lines<'_>,
) -> Option<RefusalCause>
    requires { is_kept word ≡ true }
    ensures { result ≡ plain_cause (before_of reader.now) later.now operands.now word }
{
    match word {
        Word::Plain(keyword) => keyword_cause(reader, keyword, operands, later),
        _ if reader.section.is_none() => Some(RefusalCause::UnknownWord),
        Word::Sync => local_cause(reader, operands),
        Word::If | Word::While => test_cause(reader, operands),
        Word::Else | Word::Done => bare_cause(operands),
    }
}

/// Why a line that wants one local is refused.
fn local_cause(reader: &Reader, operands: &Words<'_>) -> Option<RefusalCause>
    ensures { result ≡ locals_cause (before_of reader.now) 1 operands.now }
{
    let Some(x) = operands.only() else {
        return Some(RefusalCause::Operands);
    };
    if Name::new(x).is_none() {
        return Some(RefusalCause::BadName);
    }
    if !is_local(reader, x) {
        return Some(RefusalCause::Undeclared);
    }
    None
}

/// Why a line that wants a test is refused.
fn test_cause(reader: &Reader, operands: &Words<'_>) -> Option<RefusalCause>
    ensures { result ≡ locals_cause (before_of reader.now) 2 (tested operands.now) }
{
    if !operands.count_is(3) || !is_sign(operands.word(1)) {
        return Some(RefusalCause::Operands);
    }
    let x = operands.word(0);
    let y = operands.word(2);
    if Name::new(x).is_none() || Name::new(y).is_none() {
        return Some(RefusalCause::BadName);
    }
    if !is_local(reader, x) || !is_local(reader, y) {
        return Some(RefusalCause::Undeclared);
    }
    None
}

/// Why a line that wants no operands is refused.
fn bare_cause(operands: &Words<'_>) -> Option<RefusalCause>
    ensures { result ≡ only_if (not (length operands.now == 0)) why.Operands }
{
    if operands.count_is(0) {
        None
    } else {
        Some(RefusalCause::Operands)
    }
}

/// Whether the section has declared the local.
fn is_local(reader: &Reader, word: &[u8]) -> bool
    ensures { result ≡ is_among (local_names (before_of reader.now).section) word.now }
{
    match &reader.section {
        None => false,
        Some(section) => section.locals.place_of(word).is_some(),
    }
}

/// Whether the word is the sign of an equality.
pub fn is_equals(word: &[u8]) -> bool
    ensures { result ≡ is_equals word.now }
{
    is_word(b"=", word)
}

/// Whether the word is the sign of a test.
fn is_sign(word: &[u8]) -> bool
    ensures { result ≡ is_sign word.now }
{
    is_equals(word) || is_word(b"<", word)
}
