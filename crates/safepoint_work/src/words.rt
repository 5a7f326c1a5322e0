//! What words of a revocation say.
ghost use Rattle.std.specs.Prelude.{◌≡◌, ◌≤◌, ◌<◌, ◌^◌, ◌==◌, if◌then◌else◌, length};
ghost use Rattle.plain_monitor.specs.Limits.{most_holds};
ghost use Rattle.mark_word.specs.declared.mark.MarkForm.TheVariants.{Neutral, Anonymous};
ghost use Rattle.mark_word.specs.Mark.{mark_of};
ghost use Rattle.mark_word.specs.Hold.{read_hold};
ghost use Rattle.core_world.specs.Locks.{hold_count};
ghost use Rattle.core_world.specs.RevocationRules.{object_held, first_place};
ghost use Rattle.core_world.specs.Threads.Stages.{one_if};

use heap_table::{PLACES, hold_of_word, names};
use mark_word::{HoldForm, encode_hold};
use plain_monitor::limits::HOLDS;

/// The object that a hold word names; `None` where it names none.
pub fn object_of_hold(word: u64) -> Option<u32>
    ensures { result ≡ object_held (read_hold word) }
{
    match hold_of_word(word) {
        Some(HoldForm::Holds { object, .. }) => Some(object),
        _ => None,
    }
}

// 1 where the test holds, and else 0.
fn one_if(test: bool) -> u32
    ensures value { result ≡ one_if test }
    ensures few { result ≤ 1 }
{
    if test { 1 } else { 0 }
}

/// How many of the hold words name the object.
pub fn held_of(holds: &[u64; PLACES], object: u32) -> u32
    ensures held { result ≡ hold_count object holds.now }
    ensures few { result ≤ most_holds }
{
    let mut held = 0;
    for hold in holds {
        held += one_if(names(object, *hold));
    }
    held
}

/// The first place with the hold word of the object's first record, that of depth 1, or one past the last.
pub fn first_place(holds: &[u64; PLACES], object: u32) -> u32
    requires { object < 2 ^ 15 }
    ensures place { result ≡ first_place object holds.now }
    ensures few { result ≤ most_holds }
{
    let word = encode_hold(&HoldForm::Holds { object, depth: 1 });
    for i in 0..PLACES {
        if holds[i] == word {
            return i as u32;
        }
    }
    HOLDS
}

/// The mark of an object that nobody has, after the revocation of its bias: biased to nobody where a new bias is
/// allowed, and else neutral.
pub fn free_mark(allowed: bool) -> u64
    ensures { result ≡ mark_of (if allowed then Anonymous 0 0 else Neutral 0 0) }
{
    if allowed { 0b101 } else { 0b001 }
}
