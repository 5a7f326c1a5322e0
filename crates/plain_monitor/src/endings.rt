//! The entry that an ending logs.

ghost use Rattle.std.specs.Prelude.{◌≡◌};
ghost use Rattle.plain_monitor.specs.Endings.{ending_entry};

use crate::entry::{Ending, Entry};

/// The last entry of a thread that ends so.
pub fn ending_entry(ending: Ending) -> Entry
    ensures { result ≡ ending_entry ending }
{
    match ending {
        Ending::Trap { fault, index } => Entry::Trap { fault, index },
        Ending::Spent => Entry::Spent,
        Ending::Done => Entry::Done,
    }
}
