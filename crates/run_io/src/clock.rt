//! What the time is.

ghost use Rattle.std.specs.Prelude.{◌≡◌, ◌+◌, ◌-◌, ◌*◌, ◌^◌, min};

use std::sync::atomic::{AtomicU64, Ordering};

/// Tells the time.
pub trait Clock {
    /// The time now, as a count that `moment` makes milliseconds of. Nothing is promised of it: a later call may answer less.
    fn now(&self) -> u64;
}

/// The time after `count` ticks of `tick` milliseconds each, from 1 on. It stays at the greatest u64 where it would pass that.
pub fn moment(count: u64, tick: u32) -> u64
    ensures { result ≡ min (1 + tick * count) (2 ^ 64 - 1) }
{
    count.saturating_mul(u64::from(tick)).saturating_add(1)
}

/// A clock that counts, for `main` and for tests, which goes on by one step at each call.
///
/// It counts in one atomic word, so threads may share it. What it answers is shown by a test alone: no contract says it.
#[derive(Drop)]
pub struct StepClock {
    next: AtomicU64,
    step: u64,
}

impl StepClock {
    /// A clock that answers `first`, `first + step` and so on, modulo 2^64.
    pub fn new(first: u64, step: u64) -> StepClock {
        StepClock {
            next: AtomicU64::new(first),
            step,
        }
    }
}

impl Clock for StepClock {
    fn now(&self) -> u64 {
        self.next.fetch_add(self.step, Ordering::SeqCst)
    }
}
