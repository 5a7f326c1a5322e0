//! A text that has a program and a journal.

ghost use Rattle.std.specs.Prelude.{◌≡◌, false, MatchOption};
ghost use Rattle.bias_check.specs.Parts.{marker, is_marker, has_journal, ArePartsOf};

use crate::lines::next_line;

/// The line between a program and its journal.
const MARKER: &[u8] = b"%journal\n";

/// The text of a program, and the lines of a journal.
#[derive(Clone, Copy)]
pub struct Parts<'a> {
    pub program: &'a [u8],
    pub journal: &'a [u8],
}

/// What stands before and after the first line of the text that is exactly `%journal`, with its line feed; `None` exactly where no line
/// is.
pub fn split_text(text: &[u8]) -> Option<Parts<'_>>
    ensures { MatchOption result (has_journal text.now ≡ false)
        (λ parts. ArePartsOf text.now parts.program.now parts.journal.now) }
{
    let mut left = text;
    let mut at = 0;
    while !left.is_empty() {
        let (line, rest) = next_line(left);
        if is_marker(line) {
            return Some(Parts {
                program: &text[..at],
                journal: rest,
            });
        }
        at += line.len();
        left = rest;
    }
    None
}

/// Whether the line is the marker.
fn is_marker(line: &[u8]) -> bool
    ensures { result ≡ is_marker line.now }
{
    line == MARKER
}
