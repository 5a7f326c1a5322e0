//! The lines of a text, and the words of a line.

ghost use Rattle.std.specs.Prelude.{◌≡◌, ◌==◌, ◌+◌, ◌≤◌, [], ◌∷◌, ◌++◌, Some, None, length, position, MatchOption, option_copied};
ghost use Rattle.bias_check.specs.Lines.{lines_of};
ghost use Rattle.bias_check.specs.inner.Words.{words_after, unended};

/// Where the first line feed stands.
fn line_end(text: &[u8]) -> Option<usize>
    ensures { result ≡ position (λ b. b == 10) text.now }
{
    text.iter().position(|b| *b == b'\n')
}

/// Where the first space stands.
fn space(text: &[u8]) -> Option<usize>
    ensures { result ≡ position (λ b. b == 32) text.now }
{
    text.iter().position(|b| *b == b' ')
}

/// The first line of a text, with its line feed where it has one, and what stands after it.
pub(crate) fn next_line(text: &[u8]) -> (&[u8], &[u8])
    requires { 1 ≤ length text.now }
    ensures lines { lines_of text.now ≡ result.0.now ∷ lines_of result.1.now }
    ensures bytes { text.now ≡ result.0.now ++ result.1.now }
    ensures shorter { length result.1.now + 1 ≤ length text.now }
{
    match line_end(text) {
        None => (text, &[]),
        Some(end) => (&text[..end + 1], &text[end + 1..]),
    }
}

/// The line without its line feed; `None` where it has none.
pub(crate) fn ended(line: &[u8]) -> Option<&[u8]>
    ensures { MatchOption result (unended line.now ≡ None) (λ text. unended line.now ≡ Some text.now) }
{
    let Some((last, front)) = line.split_last() else {
        return None;
    };
    if *last == b'\n' { Some(front) } else { None }
}

/// The first word of a text, and what stands after the space after it, or `None` where there is none.
pub(crate) fn first_word(text: &[u8]) -> (&[u8], Option<&[u8]>)
    ensures { words_after (Some text.now) ≡ result.0.now ∷ words_after (option_copied result.1) }
{
    match space(text) {
        None => (text, None),
        Some(end) => (&text[..end], Some(&text[end + 1..])),
    }
}

/// The next word of what is left of a line, and what is left after the space after it, if there is one.
pub(crate) fn next_word(rest: Option<&[u8]>) -> Option<(&[u8], Option<&[u8]>)>
    ensures { MatchOption result (words_after (option_copied rest.entry) ≡ [])
        (λ r. words_after (option_copied rest.entry) ≡ r.0.now ∷ words_after (option_copied r.1)) }
{
    match rest {
        None => None,
        Some(text) => Some(first_word(text)),
    }
}
