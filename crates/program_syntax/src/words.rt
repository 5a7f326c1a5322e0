//! The words of a line, one after another.

ghost use Rattle.std.specs.Prelude.{◌≡◌, ◌==◌, ◌<◌, position, [], ◌∷◌, length, MatchOption, IfSome, option_copied};
ghost use Rattle.std.specs.List.{before_first};
ghost use Rattle.program_syntax.specs.Text.{is_blank, words_of};
ghost use Rattle.program_syntax.specs.Reading.{operand};
ghost use Rattle.program_syntax.specs.Left.{words_in, IsOnlyWord};
ghost use Rattle.program_syntax.specs.inner.Left.{words_from, words_after};

use std::marker::Model;

/// The words of a line that are not read yet. Contracts see their list.
#[derive(Drop)]
pub struct Words<'a> {
    /// What is left of the line, without its comment.
    text: &'a [u8],
}

impl<'a> Model for Words<'a> {
    ghost use Rattle.std.specs.Prelude.{ℕ, List};
    ghost use Rattle.program_syntax.specs.Left.{words_in};

    ghost Value = { List (List ℕ) };

    ghost view = { λ w. words_in w.text.now };
}

impl<'a> Words<'a> {
    /// All words of the line.
    pub fn of(line: &'a [u8]) -> Words<'a>
        ensures { result ≡ words_of line.now }
    {
        Words {
            text: without_comment(line),
        }
    }

    /// The same words once more.
    pub fn again(&self) -> Words<'a>
        ensures { result ≡ self.now }
    {
        Words { text: self.text }
    }

    /// The first of the words, which is then read.
    pub fn next(&mut self) -> Option<&'a [u8]>
        ensures { MatchOption result (self.old ≡ []) (λ w. self.old ≡ w.now ∷ self.new) }
    {
        let Some((word, rest)) = first_word(self.text) else {
            return None;
        };
        self.text = rest;
        Some(word)
    }

    /// Whether they are so many.
    pub fn count_is(&self, count: usize) -> bool
        ensures { result ≡ (length self.now == count) }
    {
        let mut left = self.again();
        for _ in 0..count {
            match left.next() {
                Some(_) => {}
                None => return false,
            }
        }
        left.next().is_none()
    }

    /// The word with this number, from 0; nothing where there are fewer.
    pub fn word(&self, number: usize) -> &'a [u8]
        ensures { result.now ≡ operand self.now number }
    {
        let mut left = self.again();
        for _ in 0..number {
            match left.next() {
                Some(_) => {}
                None => return &[],
            }
        }
        match left.next() {
            Some(word) => word,
            None => &[],
        }
    }

    /// The only word; `None` where there are none or more.
    pub fn only(&self) -> Option<&'a [u8]>
        ensures { IsOnlyWord self.now (option_copied result) }
    {
        if self.count_is(1) {
            Some(self.word(0))
        } else {
            None
        }
    }
}

/// Where the comment starts.
fn comment_start(line: &[u8]) -> Option<usize>
    ensures { result ≡ position (λ b. b == 35) line.now }
{
    line.iter().position(|b| *b == b'#')
}

/// What stands before the line's comment.
fn without_comment(line: &[u8]) -> &[u8]
    ensures { result.now ≡ before_first (λ b. b == 35) line.now }
{
    match comment_start(line) {
        None => line,
        Some(end) => &line[..end],
    }
}

/// Where the first blank stands.
fn blank(text: &[u8]) -> Option<usize>
    ensures { result ≡ position is_blank text.now }
{
    text.iter().position(|b| *b == b' ' || *b == b'\t')
}

/// What stands before the first blank, and what stands after that blank, or `None` where there is none.
fn next_part(text: &[u8]) -> (&[u8], Option<&[u8]>)
    ensures words { words_in text.now ≡ words_from result.0.now (option_copied result.1) }
    ensures shorter { IfSome (option_copied result.1) (λ rest. length rest < length text.now) }
{
    match blank(text) {
        None => (text, None),
        Some(end) => (&text[..end], Some(&text[end + 1..])),
    }
}

/// What is left, or nothing.
fn rest_of(rest: Option<&[u8]>) -> &[u8]
    ensures { words_in result.now ≡ words_after (option_copied rest.entry) }
{
    match rest {
        None => &[],
        Some(rest) => rest,
    }
}

/// The first word, and what stands after it; `None` where no word is left.
fn first_word(text: &[u8]) -> Option<(&[u8], &[u8])>
    ensures { MatchOption result (words_in text.now ≡ []) (λ w. words_in text.now ≡ w.0.now ∷ words_in w.1.now) }
{
    let mut left = text;
    'parts: loop {
        let (part, rest) = next_part(left);
        if !part.is_empty() {
            return Some((part, rest_of(rest)));
        }
        let Some(more) = rest else {
            return None;
        };
        left = more;
    }
}
