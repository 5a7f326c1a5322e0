//! The places of a thread's lock records, by its hold words.
ghost use Rattle.std.specs.Prelude.{◌≡◌, ◌≤◌, ◌<◌, ◌^◌, length};
ghost use Rattle.plain_monitor.specs.Limits.{most_holds};
ghost use Rattle.core_world.specs.Locks.{hold_count};
ghost use Rattle.core_world.specs.Trees.Plans.{free_place, top_place};

use heap_table::Pass;
use mark_word::{HoldForm, encode_hold};

/// The lowest free place, or 64 where all are taken.
pub fn free_place(pass: &Pass) -> u32
    ensures place { result ≡ free_place pass.now.known.holds }
    ensures few { result ≤ most_holds }
    ensures all { length pass.now.known.holds ≡ most_holds }
{
    pass.place_of(0)
}

/// The place of the thread's newest record of an object, for a caller who has counted: the thread has `depth` holds on it,
/// at least one, so that the newest has this depth.
pub fn place_at_depth(pass: &Pass, object: u32, depth: u32) -> u32
    requires object { object < 2 ^ 15 }
    requires depth { depth ≡ hold_count object pass.now.known.holds }
    requires some { 0 < depth }
    requires few { depth ≤ most_holds }
    ensures place { result ≡ top_place object pass.now.known.holds }
    ensures few { result ≤ most_holds }
{
    let word = encode_hold(&HoldForm::Holds { object, depth });
    pass.place_of(word)
}
