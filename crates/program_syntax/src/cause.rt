//! Why a line is refused: the lowest-numbered cause that it has.

ghost use Rattle.std.specs.Prelude.{◌≡◌, ◌==◌, true, false, Some, length};
ghost use Rattle.object_program.specs.Valid.{is_among};
ghost use Rattle.program_syntax.specs.Line.{operands_of, uses_label};
ghost use Rattle.program_syntax.specs.Reading.{operand};
ghost use Rattle.program_syntax.specs.Refusal.{names_before, is_bad_name, is_twice, is_bad_number, some_operand};
ghost use Rattle.program_syntax.specs.Refusal.{passes_limit, opens_unclosed, is_in_place};
ghost use Rattle.program_syntax.specs.State.{before_of, HasAheadOf, cause_of};
ghost use Rattle.program_syntax.specs.inner.Steps.{names_collected, is_unknown, fails};

use crate::error::RefusalCause;
use crate::keyword::{Keyword, operands_of};
use crate::labels::is_closed;
use crate::limits::{CLASSES, CODE, LOCALS, OBJECTS, THREADS};
use crate::lines::Lines;
use crate::number::{count_of, number_within};
use crate::operand::{Operand, Space, Test};
use crate::spelling::is_outside;
use crate::state::Reader;
use crate::words::Words;
use object_program::Name;

/// The cause of a line with this keyword and these operands, with these lines after it. Where the line uses a label, the reader has
/// collected the labels of the section.
pub fn keyword_cause(
    reader: &Reader,
    keyword: Keyword,
    operands: &Words<'_>,
    later: &Lines<'_>,
) -> Option<RefusalCause>
    requires { uses_label keyword ≡ true → HasAheadOf reader.now.section later.now operands.now keyword }
    ensures { result ≡ cause_of reader.now later.now operands.now keyword }
{
    if !is_in_place(reader, keyword) {
        return Some(RefusalCause::UnknownWord);
    }
    let kinds = operands_of(keyword);
    if !operands.count_is(kinds.len()) {
        return Some(RefusalCause::Operands);
    }
    if some_operand(Test::BadName, reader, kinds, operands) {
        return Some(RefusalCause::BadName);
    }
    if some_operand(Test::Twice, reader, kinds, operands) {
        return Some(RefusalCause::Twice);
    }
    if some_operand(Test::Undeclared, reader, kinds, operands) {
        return Some(RefusalCause::Undeclared);
    }
    if some_operand(Test::BadNumber, reader, kinds, operands) {
        return Some(RefusalCause::BadNumber);
    }
    if passes_limit(reader, keyword, operands) {
        return Some(RefusalCause::Limit);
    }
    if opens_unclosed(keyword, later) {
        return Some(RefusalCause::NoEnd);
    }
    None
}

/// Whether a word of a section stands in one; the others may stand anywhere.
fn is_in_place(reader: &Reader, keyword: Keyword) -> bool
    ensures { result ≡ is_in_place (before_of reader.now) keyword }
{
    is_outside(keyword) || reader.section.is_some()
}

/// Whether some operand fails the test.
fn some_operand(test: Test, reader: &Reader, kinds: &[Operand], operands: &Words<'_>) -> bool
    ensures { result ≡ some_operand (λ o w. fails test reader.now o w) kinds.now operands.now }
{
    let mut left = operands.again();
    for kind in kinds {
        let Some(word) = left.next() else {
            return false;
        };
        if fails(test, reader, *kind, word) {
            return true;
        }
    }
    false
}

/// Whether the operand fails the test.
fn fails(test: Test, reader: &Reader, kind: Operand, word: &[u8]) -> bool
    ensures { result ≡ fails test reader.now kind word.now }
{
    match test {
        Test::BadName => is_bad_name(kind, word),
        Test::Twice => is_twice(reader, kind, word),
        Test::Undeclared => is_unknown(reader, kind, word),
        Test::BadNumber => is_bad_number(kind, word),
    }
}

fn is_bad_name(kind: Operand, word: &[u8]) -> bool
    ensures { result ≡ is_bad_name kind word.now }
{
    match kind {
        Operand::New(_) | Operand::Known(_) => Name::new(word).is_none(),
        Operand::Number(_, _) => false,
    }
}

fn is_twice(reader: &Reader, kind: Operand, word: &[u8]) -> bool
    ensures { result ≡ is_twice (before_of reader.now) kind word.now }
{
    match kind {
        Operand::New(space) => is_before(reader, space, word),
        _ => false,
    }
}

fn is_unknown(reader: &Reader, kind: Operand, word: &[u8]) -> bool
    ensures { result ≡ is_unknown reader.now kind word.now }
{
    match kind {
        Operand::Known(space) => !is_collected(reader, space, word),
        _ => false,
    }
}

fn is_bad_number(kind: Operand, word: &[u8]) -> bool
    ensures { result ≡ is_bad_number kind word.now }
{
    match kind {
        Operand::Number(low, high) => number_within(word, low, high).is_none(),
        _ => false,
    }
}

/// Whether an earlier line has declared the name in this space.
fn is_before(reader: &Reader, space: Space, word: &[u8]) -> bool
    ensures { result ≡ is_among (names_before (before_of reader.now) space) word.now }
{
    match space {
        Space::Labels => is_label_before(reader, word),
        space => is_collected(reader, space, word),
    }
}

/// Whether an earlier line of the section has declared the label: the first label with the name is among those.
fn is_label_before(reader: &Reader, word: &[u8]) -> bool
    ensures { result ≡ is_among (names_before (before_of reader.now) Space.Labels) word.now }
{
    match &reader.section {
        None => false,
        Some(section) => match section.labels.place_of(word) {
            None => false,
            Some(place) => place < section.declared,
        },
    }
}

/// Whether a line may use the name as one of this space.
fn is_collected(reader: &Reader, space: Space, word: &[u8]) -> bool
    ensures { result ≡ is_among (names_collected reader.now space) word.now }
{
    match space {
        Space::Classes => reader.declared.classes.place_of(word).is_some(),
        Space::Objects => reader.declared.objects.place_of(word).is_some(),
        Space::Threads => reader.declared.threads.place_of(word).is_some(),
        Space::Locals => match &reader.section {
            None => false,
            Some(section) => section.locals.place_of(word).is_some(),
        },
        Space::Labels => match &reader.section {
            None => false,
            Some(section) => section.labels.place_of(word).is_some(),
        },
    }
}

/// Whether the line would pass a limit.
fn passes_limit(reader: &Reader, keyword: Keyword, operands: &Words<'_>) -> bool
    requires numbers { some_operand is_bad_number (operands_of keyword) operands.now ≡ false }
    requires count { (length operands.now == length (operands_of keyword)) ≡ true }
    ensures { result ≡ passes_limit (before_of reader.now) operands.now keyword }
{
    let declared = &reader.declared;
    match keyword {
        Keyword::Class => declared.classes.items().len() >= CLASSES,
        Keyword::Object => declared.total + 1 > OBJECTS,
        Keyword::Array => declared.total + count_of(operands.word(2)) > OBJECTS,
        Keyword::Thread => declared.threads.items().len() >= THREADS,
        Keyword::Local => match &reader.section {
            None => false,
            Some(section) => section.locals.items().len() >= LOCALS,
        },
        Keyword::Label => false,
        _ => match &reader.section {
            None => false,
            Some(section) => section.code.len() >= CODE,
        },
    }
}

/// Whether the line opens a section that isn't closed.
fn opens_unclosed(keyword: Keyword, later: &Lines<'_>) -> bool
    ensures { result ≡ opens_unclosed later.now keyword }
{
    match keyword {
        Keyword::Thread => !is_closed(later),
        _ => false,
    }
}
