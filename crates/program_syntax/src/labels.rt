//! The lines ahead of a section: where it ends, and its labels, which may stand on any of its lines.

ghost use Rattle.std.specs.Prelude.{◌≡◌, ◌≤◌, ◌+◌, ◌++◌, IfOk, option_to_list};
ghost use Rattle.program_syntax.specs.Text.{most_bytes, words_of};
ghost use Rattle.program_syntax.specs.Reading.{first_keyword, label_of, labels_ahead, number_after_line};
ghost use Rattle.program_syntax.specs.Refusal.{is_closed};
ghost use Rattle.program_syntax.specs.inner.Labels.{labels_of_line};

use crate::directory::Directory;
use crate::keyword::Keyword;
use crate::lines::Lines;
use crate::spelling::{ends_section, is_end, is_instruction, keyword_of};
use crate::words::Words;
use object_program::{LabelDef, Name};
use plain_monitor::NoMemory;
use std::alloc::Global;

/// Whether the section that these lines begin with is closed by its `end`.
pub fn is_closed(lines: &Lines<'_>) -> bool
    ensures { result ≡ is_closed lines.now }
{
    let mut left = lines.again();
    'lines: while let Some(line) = left.next() {
        let keyword = first_keyword(line);
        if ends_section(keyword) {
            return is_end(keyword);
        }
    }
    false
}

/// All labels of the section that these lines begin with, in their order.
///
/// # Errors
///
/// `NoMemory` where an allocation fails.
pub fn labels_ahead(alloc: Global, lines: &Lines<'_>) -> Result<Directory<LabelDef>, NoMemory>
    ensures { IfOk result (λ labels. labels ≡ labels_ahead 1 lines.now) }
{
    let mut labels = Directory::new(alloc);
    let mut number: u32 = 1;
    let mut left = lines.again();
    'lines: while let Some(line) = left.next() {
        let keyword = first_keyword(line);
        if ends_section(keyword) {
            return Ok(labels);
        }
        labels = with_labels_on(labels, line, number)?;
        number = number_after_line(number, keyword);
    }
    Ok(labels)
}

/// With the label that the line declares for the instruction with this number, if it declares one.
fn with_labels_on(
    labels: Directory<LabelDef>,
    line: &[u8],
    number: u32,
) -> Result<Directory<LabelDef>, NoMemory>
    ensures { IfOk result (λ d. d ≡ labels ++ labels_of_line number line.now) }
{
    match label_on(line, number) {
        Some(label) => labels.with(label),
        None => Ok(labels),
    }
}

/// The label that the line declares for the instruction with this number, if it declares one.
fn label_on(line: &[u8], number: u32) -> Option<LabelDef>
    ensures { labels_of_line number line.now ≡ option_to_list result }
{
    let mut words = Words::of(line);
    let word = words.next()?;
    match keyword_of(word) {
        Some(Keyword::Label) => label_of(&words, number),
        _ => None,
    }
}

/// The label of a `label` line with these operands, if they are a name and nothing else.
fn label_of(operands: &Words<'_>, number: u32) -> Option<LabelDef>
    ensures { label_of number operands.now ≡ option_to_list result }
{
    let name = Name::new(operands.only()?)?;
    Some(LabelDef {
        name,
        index: number,
    })
}

/// The number of the next instruction after a line with this keyword.
fn number_after_line(number: u32, keyword: Option<Keyword>) -> u32
    requires { number ≤ most_bytes + 1 }
    ensures { result ≡ number_after_line number keyword }
{
    match keyword {
        Some(keyword) if is_instruction(keyword) => number + 1,
        _ => number,
    }
}

/// The first word of the line, where it is a keyword.
fn first_keyword(line: &[u8]) -> Option<Keyword>
    ensures { result ≡ first_keyword (words_of line.now) }
{
    let mut words = Words::of(line);
    keyword_of(words.next()?)
}
