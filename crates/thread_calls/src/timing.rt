//! What time it is for a call.

ghost use Rattle.thread_calls.specs.Timed.{IsMoment};

use run_io::{Clock, moment};

/// The time for a call that is made now, by `tick`. With ticks of no length it is 1, whatever the clock counts: so the clock is not looked at, and
/// workers don't share its word.
#[inline]
pub(crate) fn time_now<C: Clock>(clock: &C, tick: u32) -> u64
    ensures { IsMoment tick result }
{
    if tick == 0 {
        return 1;
    }
    moment(clock.now(), tick)
}
