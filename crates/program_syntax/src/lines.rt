//! The lines of a text, one after another.

ghost use Rattle.std.specs.Prelude.{◌≡◌, ◌+◌, ◌==◌, ◌≤◌, position, [], ◌∷◌, length, MatchOption, option_copied};
ghost use Rattle.std.specs.List.{list_all};
ghost use Rattle.program_syntax.specs.Text.{most_bytes, without_return, is_text_byte};
ghost use Rattle.program_syntax.specs.Refusal.{lines_of};
ghost use Rattle.program_syntax.specs.Left.{lines_left};

use std::marker::Model;

/// The lines of a text that are not read yet. Contracts see their list, without the carriage returns.
#[derive(Drop)]
pub struct Lines<'a> {
    /// What is left of the text; `None` where its last line is read.
    text: Option<&'a [u8]>,
}

impl<'a> Model for Lines<'a> {
    ghost use Rattle.std.specs.Prelude.{ℕ, ◌+◌, ◌≤◌, List, length, option_copied};
    ghost use Rattle.program_syntax.specs.Text.{most_bytes};
    ghost use Rattle.program_syntax.specs.Left.{lines_left};

    ghost Value = { List (List ℕ) };

    ghost view = { λ l. lines_left (option_copied l.text) };

    ghost invariant = { λ l. length (lines_left (option_copied l.text)) ≤ most_bytes + 1 };
}

impl<'a> Lines<'a> {
    /// All lines of the text.
    #[tactic(auto, using(crate::proofs::Cuts::lines_few))]
    pub fn of(text: &'a [u8]) -> Lines<'a>
        requires { length text.now ≤ most_bytes }
        ensures lines { result ≡ lines_of text.now }
        ensures few { length result ≤ most_bytes + 1 }
    {
        Lines { text: Some(text) }
    }

    /// The same lines once more.
    pub fn again(&self) -> Lines<'a>
        ensures lines { result ≡ self.now }
        ensures few { length result ≤ most_bytes + 1 }
    {
        Lines { text: self.text }
    }

    /// The first of the lines, which is then read.
    pub fn next(&mut self) -> Option<&'a [u8]>
        ensures { MatchOption result (self.old ≡ []) (λ line. self.old ≡ line.now ∷ self.new) }
    {
        let Some(text) = self.text else {
            return None;
        };
        let (line, left) = first_line(text);
        self.text = left;
        Some(line)
    }
}

/// The first line of a text, and what stands after its line feed; `None` where it has none.
fn first_line(text: &[u8]) -> (&[u8], Option<&[u8]>)
    ensures { lines_of text.now ≡ result.0.now ∷ lines_left (option_copied result.1) }
{
    match line_end(text) {
        None => (drop_return(text), None),
        Some(end) => (drop_return(&text[..end]), Some(&text[end + 1..])),
    }
}

/// Where the first line feed stands.
fn line_end(text: &[u8]) -> Option<usize>
    ensures { result ≡ position (λ b. b == 10) text.now }
{
    text.iter().position(|b| *b == b'\n')
}

/// The line without the carriage return at its end, if it has one.
#[tactic(auto, using(crate::proofs::Cuts::without_return_last, crate::proofs::Cuts::without_return_empty))]
fn drop_return(line: &[u8]) -> &[u8]
    ensures { result.now ≡ without_return line.now }
{
    let Some((last, front)) = line.split_last() else {
        return line;
    };
    if *last == b'\r' {
        return front;
    }
    line
}

/// Whether each byte is a tab or printing ASCII.
pub fn is_text(line: &[u8]) -> bool
    ensures { result ≡ list_all is_text_byte line.now }
{
    line.iter()
        .all(|b| *b == b'\t' || (b' ' <= *b && *b <= b'~'))
}
