//! How the words are spelled that lines begin with.

ghost use Rattle.std.specs.Prelude.{◌≡◌};
ghost use Rattle.std.specs.Str.{bytes_eq};
ghost use Rattle.program_syntax.specs.Line.{spelled_among};
ghost use Rattle.program_syntax.specs.Text.{words_of};
ghost use Rattle.sync_syntax.specs.Word.{is_left_out, block_spellings, word_of, first_word, ends, opens, weight};
ghost use Rattle.sync_syntax.specs.Refusal.{is_done};

use crate::word::Word;
use program_syntax::{Keyword, Words, ends_section, is_instruction, keyword_of};

/// Whether the word is spelled so.
pub fn is_word(spelling: &[u8], word: &[u8]) -> bool
    ensures { result ≡ bytes_eq spelling.now word.now }
{
    spelling == word
}

/// Whether blocks stand in place of the word.
fn is_left_out(keyword: Keyword) -> bool
    ensures { result ≡ is_left_out keyword }
{
    match keyword {
        Keyword::Label | Keyword::Enter | Keyword::Exit => true,
        Keyword::Jump | Keyword::Jlt | Keyword::Jeq => true,
        _ => false,
    }
}

/// The word of a block's line that is spelled so.
fn block_word(word: &[u8]) -> Option<Word>
    ensures { result ≡ spelled_among block_spellings word.now }
{
    if is_word(b"sync", word) {
        Some(Word::Sync)
    } else if is_word(b"if", word) {
        Some(Word::If)
    } else if is_word(b"while", word) {
        Some(Word::While)
    } else if is_word(b"else", word) {
        Some(Word::Else)
    } else if is_word(b"done", word) {
        Some(Word::Done)
    } else {
        None
    }
}

/// The word that is spelled so.
pub fn word_of(word: &[u8]) -> Option<Word>
    ensures { result ≡ word_of word.now }
{
    match keyword_of(word) {
        None => block_word(word),
        Some(keyword) if is_left_out(keyword) => None,
        Some(keyword) => Some(Word::Plain(keyword)),
    }
}

/// The first word of the line, where lines begin with it.
pub fn first_word(line: &[u8]) -> Option<Word>
    ensures { result ≡ first_word (words_of line.now) }
{
    let mut words = Words::of(line);
    word_of(words.next()?)
}

/// Whether a section ends with a line with this word, or before it.
pub fn ends(word: Option<Word>) -> bool
    ensures { result ≡ ends word }
{
    match word {
        Some(Word::Plain(keyword)) => ends_section(Some(keyword)),
        _ => false,
    }
}

/// Whether a line with this word opens a block.
pub fn opens(word: Word) -> bool
    ensures { result ≡ opens word }
{
    matches!(word, Word::Sync | Word::If | Word::While)
}

/// Whether the line is a `done`.
pub fn is_done(word: Option<Word>) -> bool
    ensures { result ≡ is_done word }
{
    matches!(word, Some(Word::Done))
}

/// How many instructions the code of a line with this word has.
pub fn weight(word: Word) -> usize
    ensures { result ≡ weight word }
{
    match word {
        Word::Plain(keyword) => usize::from(is_instruction(keyword)),
        Word::Sync | Word::If => 2,
        Word::While => 3,
        Word::Else | Word::Done => 0,
    }
}
