//! Words and numbers that are read off the front of words.

ghost use Rattle.std.specs.Prelude.{◌≡◌, ◌∷◌, ◌<◌, ◌≤◌, ◌^◌, drop, IfOk, IfErr};
ghost use Rattle.machine_words.specs.Readers.{word_option, value_at};
ghost use Rattle.machine_words.specs.inner.Telling.{IsLost, HasWord, HasNumber, TellsValue};

use crate::unread::Unread;
use plain_monitor::{Value, word_value};

/// The next word. Where there is none, `NoMachine`.
pub(crate) fn take_word(words: &[u64], at: &mut usize) -> Result<u64, Unread>
    ensures lost { IfErr result (IsLost (HasWord (drop at.old words.now))) }
    ensures read { IfOk result (λ w. drop at.old words.now ≡ w ∷ drop at.new words.now) }
{
    match words.get(*at) {
        Some(word) => {
            let word = *word;
            *at += 1;
            Ok(word)
        }
        None => Err(Unread::NoMachine),
    }
}

/// The word as a number of 32 bits, which each number of a machine is. Where it is larger, `NoMachine`.
pub(crate) fn number_of(word: u64) -> Result<u32, Unread>
    ensures lost { IfErr result (IsLost (word < 2 ^ 32)) }
    ensures read { IfOk result (λ n. n ≡ word) }
{
    if word > u64::from(u32::MAX) {
        return Err(Unread::NoMachine);
    }
    Ok(word as u32)
}

/// The next word as a number.
pub(crate) fn take_number(words: &[u64], at: &mut usize) -> Result<u32, Unread>
    ensures lost { IfErr result (IsLost (HasNumber (drop at.old words.now))) }
    ensures read { IfOk result (λ w. drop at.old words.now ≡ w ∷ drop at.new words.now) }
{
    let word = take_word(words, at)?;
    number_of(word)
}

/// The number that the word tells, if it tells one.
pub(crate) fn option_of(word: u64) -> Result<Option<u32>, Unread>
    ensures lost { IfErr result (IsLost (word ≤ 2 ^ 32)) }
    ensures read { IfOk result (λ o. o ≡ word_option word) }
{
    if word == 0 {
        return Ok(None);
    }
    let number = number_of(word - 1)?;
    Ok(Some(number))
}

/// The value of the word. Where it spells none, `NoMachine`.
#[tactic(auto, using(crate::proofs::ReadWords::value_read))]
pub(crate) fn value_of(word: u64) -> Result<Value, Unread>
    ensures lost { IfErr result (IsLost (TellsValue word)) }
    ensures read { IfOk result (λ v. v ≡ value_at word) }
{
    word_value(word).map_err(|_| Unread::NoMachine)
}
