//! The numbers of the objects that threads make.

ghost use Rattle.std.specs.Prelude.{◌≡◌, ◌≤◌, ◌<◌, ◌^◌};
ghost use Rattle.machine_words.specs.inner.Reading.{after_row};

use plain_monitor::limits::MADE;

/// The first number of the next thread's objects, after this one, where those that threads make begin with this first one.
pub(crate) fn after_row(first: usize, number: usize) -> usize
    requires made { first ≤ number }
    requires small { number < 2 ^ 32 }
    ensures { result ≡ after_row first number }
{
    first + ((number - first) / MADE as usize + 1) * MADE as usize
}
