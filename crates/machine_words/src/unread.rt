//! Why no machine is read from words.

use plain_monitor::NoMemory;

/// Why no machine is read from words.
#[derive(Clone, Copy, Debug, PartialEq, Eq)]
pub enum Unread {
    /// Out of memory.
    NoMemory,
    /// They end too early, or one of them is too large for what it tells, or spells no value: no machine of the program has these words.
    NoMachine,
}

impl From<NoMemory> for Unread {
    ghost use Rattle.std.specs.Prelude.{◌≡◌};
    ghost use Rattle.machine_words.specs.declared.unread.Unread.TheVariants.{NoMemory as OutOfMemory};

    ghost from_gives = { λ _ e. e ≡ OutOfMemory };

    fn from(_error: NoMemory) -> Unread {
        Unread::NoMemory
    }
}
