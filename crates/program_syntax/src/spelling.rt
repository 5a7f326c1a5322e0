//! How the words are spelled that lines begin with.

ghost use Rattle.std.specs.Prelude.{◌≡◌, map};
ghost use Rattle.std.specs.Str.{bytes_eq};
ghost use Rattle.program_syntax.specs.Line.{spelled_among, keyword_of, is_outside, is_instruction};
ghost use Rattle.program_syntax.specs.Reading.{ends_section};
ghost use Rattle.program_syntax.specs.Refusal.{is_end};

use crate::keyword::{Keyword, SPELLINGS};

/// Whether the word is spelled so.
fn is_word(spelling: &[u8], word: &[u8]) -> bool
    ensures { result ≡ bytes_eq spelling.now word.now }
{
    spelling == word
}

/// What the first of these stands for that is spelled so.
fn spelled_among(spellings: &[(&[u8], Keyword)], word: &[u8]) -> Option<Keyword>
    ensures { result ≡ spelled_among (map (λ s. (s.0.now, s.1)) spellings.now) word.now }
{
    for (spelling, keyword) in spellings {
        if is_word(spelling, word) {
            return Some(*keyword);
        }
    }
    None
}

/// The keyword that is spelled so.
pub fn keyword_of(word: &[u8]) -> Option<Keyword>
    ensures { result ≡ keyword_of word.now }
{
    spelled_among(SPELLINGS, word)
}

/// Whether a line with this keyword stands outside sections.
pub fn is_outside(keyword: Keyword) -> bool
    ensures { result ≡ is_outside keyword }
{
    match keyword {
        Keyword::Class | Keyword::Object | Keyword::Array | Keyword::Thread => true,
        _ => false,
    }
}

/// Whether a line of a section with this keyword is an instruction.
pub fn is_instruction(keyword: Keyword) -> bool
    ensures { result ≡ is_instruction keyword }
{
    match keyword {
        Keyword::Local | Keyword::Label => false,
        keyword => !is_outside(keyword),
    }
}

/// Whether a section ends with a line with this keyword, or before it.
pub fn ends_section(keyword: Option<Keyword>) -> bool
    ensures { result ≡ ends_section keyword }
{
    match keyword {
        None => false,
        Some(Keyword::End) => true,
        Some(keyword) => is_outside(keyword),
    }
}

/// Whether the line is an `end`.
pub fn is_end(keyword: Option<Keyword>) -> bool
    ensures { result ≡ is_end keyword }
{
    match keyword {
        Some(Keyword::End) => true,
        _ => false,
    }
}
