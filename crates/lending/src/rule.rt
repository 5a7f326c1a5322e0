//! The rule of the table.
use atomic_table::{Play, Seat, Table, TableRule};
use std::alloc::Global;
use std::marker::PhantomData;

/// What may lie in a slot: of the key that the table was made with, the place, and the thing.
pub trait LendRule<T, K> {
    ghost use Rattle.std.specs.Prelude.{ℕ};

    ghost may_lie: { K → ℕ → T → Type 0 };
}

pub struct HomeRule<P> {
    of: PhantomData<P>,
}

// A seat's view is the key, so that a step can tell what the rule says of it. No value of a view is made.
impl<T, K, P: LendRule<T, K>> TableRule<Option<T>, K, K> for HomeRule<P> {
    ghost use Rattle.lending.specs.inner.Kept.{Kept};

    ghost holds = { λ key. Kept (P.may_lie key) };

    ghost first = { λ key. key };
}

pub type LendSeat<T, K> = Seat<Option<T>, K>;

pub type LendTable<T, K, P> = Table<Option<T>, K, K, HomeRule<P>, Global>;

/// A new seat takes the slot where it was at home.
pub struct Takes<P> {
    of: PhantomData<P>,
}

impl<T, K, P: LendRule<T, K>> Play<Option<T>, K> for Takes<P> {
    ghost use Rattle.lending.specs.inner.Kept.{Took};

    ghost then = { λ s me n after. Took (P.may_lie me.0) s.word n after };
}

/// The slot is given back.
pub struct Gives;

impl<T, K> Play<Option<T>, K> for Gives {
    ghost use Rattle.std.specs.Prelude.{⊤};

    ghost then = { λ s me n after. ⊤ };
}
