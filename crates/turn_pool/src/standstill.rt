//! When a pool stands still, by what its words are.
ghost use Rattle.std.specs.Prelude.{◌≡◌, ◌<◌, true};
ghost use Rattle.turn_pool.specs.Standstill.{StandStill};

/// Whether each of `count` things, at most 32, has ended or lies ready, and has ended or is stalled, by these words of a pool: bit i stands
/// for slot i. A thing that is out with a worker has no bit of `ready` or `ended`. Of the pool itself it is a hint alone, since its words may
/// have changed by then.
#[inline(always)]
pub fn stand_still(count: u32, ready: u64, ended: u64, stalled: u64) -> bool
    requires { count < 33 }
    ensures still { result ≡ true → StandStill count ready ended stalled }
    ensures only { StandStill count ready ended stalled → result ≡ true }
{
    let all = (1u64 << count) - 1;
    let home = ready | ended;
    let idle = stalled | ended;
    home & all == all && idle & all == all
}
