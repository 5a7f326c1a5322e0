//! Numbers.

ghost use Rattle.std.specs.Prelude.{◌≡◌, ◌≤◌, int_le, ◌&&◌, Some, None, true, option_map};
ghost use Rattle.plain_monitor.specs.Numbers.{least_number, greatest_number};
ghost use Rattle.object_program.specs.Limits.{most_objects};
ghost use Rattle.program_syntax.specs.Number.{digits_of, number_of, is_within, IsNumberWithin};
ghost use Rattle.program_syntax.specs.inner.Signs.{signed, has_size, is_count, count_in};

use crate::limits::OBJECTS;
use plain_monitor::Value;

/// The number of 1 to 19 digits; zeros may lead.
#[tactic(auto, using(crate::proofs::Numbers::digit_step, crate::proofs::Numbers::digit_bounds, crate::proofs::Numbers::digits_fit, crate::proofs::Numbers::more_digits))]
fn digits_of(digits: &[u8]) -> Option<u64>
    ensures { result ≡ digits_of digits.now }
{
    if digits.is_empty() || digits.len() > 19 {
        return None;
    }
    let mut number: u64 = 0;
    for b in digits {
        if !b.is_ascii_digit() {
            return None;
        }
        number = 10 * number + u64::from(*b - b'0');
    }
    Some(number)
}

/// Whether a minus sign stands before the number, and its size; `None` where the word isn't a number.
fn sign_and_size(word: &[u8]) -> Option<(bool, u64)>
    ensures { number_of word.now ≡ option_map has_size result }
{
    let Some((first, rest)) = word.split_first() else {
        return None;
    };
    if *first == b'-' {
        let size = digits_of(rest)?;
        return Some((true, size));
    }
    let size = digits_of(word)?;
    Some((false, size))
}

/// The number with this sign and size.
fn signed(negative: bool, size: u64) -> i128
    ensures { result ≡ signed negative size }
{
    let size = i128::from(size);
    if negative { -size } else { size }
}

/// Whether the number is from `low` to `high`.
fn is_between(number: i128, low: i64, high: i64) -> bool
    ensures { result ≡ (int_le low number && int_le number high) }
{
    i128::from(low) <= number && number <= i128::from(high)
}

/// The number from `low` to `high` that the word is, if it is one.
pub fn number_within(word: &[u8], low: i64, high: i64) -> Option<i64>
    ensures { IsNumberWithin low high word.now result }
{
    let Some((negative, size)) = sign_and_size(word) else {
        return None;
    };
    let number = signed(negative, size);
    if is_between(number, low, high) {
        Some(number as i64)
    } else {
        None
    }
}

/// The number that the word is, where that is from -2^61 to 2^61 - 1; else 0.
pub fn number_of(word: &[u8]) -> i64
    ensures { is_within least_number greatest_number (number_of word.now) ≡ true → number_of word.now ≡ Some result }
{
    match number_within(word, Value::LEAST, Value::GREATEST) {
        Some(number) => number,
        None => 0,
    }
}

/// The number that the word is, where that is from 0 to 4,096, more than which nothing in a text counts; else 0.
pub fn count_of(word: &[u8]) -> u32
    ensures count { is_count word.now ≡ true → result ≡ count_in word.now }
    ensures few { result ≤ most_objects }
{
    match number_within(word, 0, OBJECTS as i64) {
        Some(number) => number as u32,
        None => 0,
    }
}
