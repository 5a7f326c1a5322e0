//! Which thing a worker takes next.
ghost use Rattle.std.specs.Prelude.{◌<◌};
ghost use Rattle.turn_pool.specs.Choice.{IsFirstFrom};

/// The first of `count` places, at most 32, whose bit stands in this word, in a circle from the place `next` on. `next`, below 64, may stand
/// after the last place: the circle begins at 0 then.
#[inline(always)]
pub fn first_from(word: u64, next: u32, count: u32) -> Option<u32>
    requires few { count < 33 }
    requires next { next < 64 }
    ensures { IsFirstFrom word next count result }
{
    let here = word & ((1u64 << count) - 1);
    let later = here & !((1u64 << next) - 1);
    if later != 0 {
        return Some(later.trailing_zeros());
    }
    if here != 0 {
        return Some(here.trailing_zeros());
    }
    None
}
