//! Things that take turns: each counts down to 0.
ghost use Rattle.std.specs.Prelude.{◌≡◌, ◌+◌, MatchBool, ⊤};

use turn_pool::TurnRule;

/// A number that each turn brings nearer to 0, how many turns there were, and the slot in which it lies.
#[derive(Drop)]
pub struct Countdown {
    pub name: u32,
    pub left: u32,
    pub turns: u32,
}

impl Countdown {
    /// A turn. Whether it is at 0 after it.
    pub fn go(&mut self) -> bool
        ensures name { self.new.name ≡ self.old.name }
        ensures ended { MatchBool result (self.new.left ≡ 0) ⊤ }
    {
        self.turns = self.turns.wrapping_add(1);
        self.left = self.left.saturating_sub(1);
        self.left == 0
    }
}

/// What a countdown may be in a pool.
pub struct Countdowns;

impl TurnRule<Countdown> for Countdowns {
    ghost use Rattle.pool_tests.specs.Countdown.{MayBe};

    ghost may_be = { MayBe };
}
