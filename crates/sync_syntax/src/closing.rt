//! The lines ahead of a block: whether one of them closes it.

ghost use Rattle.std.specs.Prelude.{◌≡◌, ◌<◌, ◌^◌};
ghost use Rattle.sync_syntax.specs.Refusal.{inner_after, is_closed};

use crate::spelling::{ends, first_word, is_done, opens};
use crate::word::Word;
use program_syntax::Lines;

/// Whether these lines close the block that was opened on the line before them.
pub fn is_closed(lines: &Lines<'_>) -> bool
    ensures { result ≡ is_closed 0 lines.now }
{
    let mut inner: usize = 0;
    let mut left = lines.again();
    'lines: while let Some(line) = left.next() {
        let word = first_word(line);
        if ends(word) {
            return false;
        }
        if inner == 0 && is_done(word) {
            return true;
        }
        inner = inner_after(inner, word);
    }
    false
}

/// How many blocks are open after a line with this word, of those that were opened after a block's line.
fn inner_after(inner: usize, word: Option<Word>) -> usize
    requires { inner < 2 ^ 32 }
    ensures { result ≡ inner_after inner word }
{
    match word {
        None => inner,
        Some(Word::Done) => inner.saturating_sub(1),
        Some(word) if opens(word) => inner + 1,
        Some(_) => inner,
    }
}
