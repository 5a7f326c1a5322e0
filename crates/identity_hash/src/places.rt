//! The places of a thread's lock records, by its hold words.
ghost use Rattle.std.specs.Prelude.{◌≡◌, ◌<◌, ◌^◌};
ghost use Rattle.core_world.specs.RevocationRules.{first_place};

use heap_table::Pass;
use mark_word::{HoldForm, encode_hold};

/// The place of the thread's first record of the object, that of depth 1, or 64 where it has none.
pub fn first_place(pass: &Pass, object: u32) -> u32
    requires { object < 2 ^ 15 }
    ensures { result ≡ first_place object pass.now.known.holds }
{
    let word = encode_hold(&HoldForm::Holds { object, depth: 1 });
    pass.place_of(word)
}
