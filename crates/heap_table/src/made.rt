//! How many objects a pass has made.
ghost use Rattle.std.specs.Prelude.{◌≡◌, ◌+◌, ◌<◌, ◌^◌};
ghost use Rattle.heap_table.specs.inner.Kept.{made_after};

use core_world::LogEffect;
use plain_monitor::Entry;

/// How many objects the thread has made, after a step that hit.
#[inline(always)]
pub fn made_next(note: &LogEffect, made: u64) -> u64
    requires { made + 1 < 2 ^ 64 }
    ensures { result ≡ made_after note.now made }
{
    match *note {
        LogEffect::Log {
            entry: Entry::New { .. },
        } => made + 1,
        _ => made,
    }
}
