//! What C gets back: outcomes in numbers, which `include/biasrun.h` names.
ghost use Rattle.std.specs.Prelude.{◌≡◌};
ghost use Rattle.lock_runtime_c.specs.Numbers as numbers;

use crate::numbers::{bool_number, cause_number, cause_word, op_number, path_number, value_kind};
use crate::outcome::{Misuse, Outcome, Refusal, Said};
use core_world::PendingCause;

/// What a call came to: a kind, a detail of it, and a word.
#[repr(C)]
#[derive(Clone, Copy)]
pub struct Answer {
    pub kind: u32,
    pub detail: u32,
    pub word: u64,
}

#[inline(always)]
fn done(said: Said) -> Answer
    ensures { result ≡ numbers.done said }
{
    let (detail, word) = match said {
        Said::Nothing => (0, 0),
        Said::Entered(path) => (path_number(path), 0),
        Said::Woke(None) => (0, 0),
        Said::Woke(Some(thread)) => (1, thread as u64),
        Said::WokeAll(count) => (0, count as u64),
        Said::Hash(value) => (0, value as u64),
        Said::Read(value) => (value_kind(value), 0),
        Said::Dump(number) => (0, number as u64),
        Said::Stuck(stuck) => (bool_number(stuck), 0),
        Said::Handed(count) => (0, count),
    };
    Answer {
        kind: 0,
        detail,
        word,
    }
}

#[inline(always)]
fn pending(why: PendingCause) -> Answer
    ensures { result ≡ numbers.pending why }
{
    Answer {
        kind: 1,
        detail: cause_number(why),
        word: cause_word(why),
    }
}

#[inline(always)]
fn refused(refusal: Refusal) -> Answer
    ensures { result ≡ numbers.refused refusal }
{
    let detail = match refusal {
        Refusal::TooDeep => 1,
        Refusal::NotOwner => 2,
        Refusal::Unguarded => 3,
        Refusal::TooManyDumps => 4,
    };
    Answer {
        kind: 2,
        detail,
        word: 0,
    }
}

#[inline(always)]
fn misuse_number(misuse: Misuse) -> u32
    ensures { result ≡ numbers.misuse_number misuse }
{
    match misuse {
        Misuse::Empty => 1,
        Misuse::OtherKind => 2,
        Misuse::Taken => 3,
        Misuse::NoThread => 4,
        Misuse::PassTaken => 5,
        Misuse::TooManyEntries => 6,
        Misuse::TooManyClasses => 7,
        Misuse::TooManySlots => 8,
        Misuse::TooManyObjects => 9,
        Misuse::NoClass => 10,
        Misuse::NoEntry => 11,
        Misuse::Ended => 12,
        Misuse::CheckIsUnfinished => 13,
        Misuse::IsUnfinished(_) => 14,
        Misuse::IsAsking => 15,
        Misuse::IsStopped => 16,
        Misuse::IsRunning => 17,
        Misuse::NoObject => 18,
        Misuse::NoSlot => 19,
        Misuse::NoValue => 20,
        Misuse::IsHolding => 21,
        Misuse::InUse => 22,
        Misuse::PassLost => 23,
        Misuse::NoDump => 24,
    }
}

#[inline(always)]
fn misused(misuse: Misuse) -> Answer
    ensures { result ≡ numbers.misused misuse }
{
    let word = match misuse {
        Misuse::IsUnfinished(op) => op_number(op) as u64,
        _ => 0,
    };
    Answer {
        kind: 3,
        detail: misuse_number(misuse),
        word,
    }
}

#[inline(always)]
fn plain(kind: u32) -> Answer
    ensures { result ≡ numbers.plain kind }
{
    Answer {
        kind,
        detail: 0,
        word: 0,
    }
}

#[inline(always)]
pub fn answered(outcome: Outcome) -> Answer
    ensures { result ≡ numbers.answered outcome }
{
    match outcome {
        Outcome::Done(said) => done(said),
        Outcome::Pending(why) => pending(why),
        Outcome::Refused(refusal) => refused(refusal),
        Outcome::Misused(misuse) => misused(misuse),
        Outcome::Full => plain(4),
        Outcome::NoMemory => plain(5),
    }
}

/// A call that was done, with this word.
#[inline(always)]
pub fn done_with(word: u64) -> Answer
    ensures { result ≡ record { kind = 0; detail = 0; word = word } }
{
    Answer {
        kind: 0,
        detail: 0,
        word,
    }
}
