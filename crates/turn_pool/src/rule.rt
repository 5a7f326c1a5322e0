//! The rule of the table.
use atomic_table::{Join, Play, Seat, Split, Table, TableRule};
use std::alloc::Global;
use std::marker::{Brand, PhantomData};

/// What may lie in a slot: of the word whose bit stands for it, the place, and the thing.
pub trait TurnRule<T> {
    ghost use Rattle.std.specs.Prelude.{ℕ};
    ghost use Rattle.turn_pool.specs.declared.word.Word.{Word};

    ghost may_be: { Word → ℕ → T → Type 0 };
}

impl<T> TurnRule<T> for Brand {
    ghost use Rattle.std.specs.Prelude.{⊤};

    ghost may_be = { λ b i y. ⊤ };
}

/// What a seat knows: its parts of the right to know that all are at home, which slot it holds, and whether it saw that all is over. No
/// value of it is made.
pub struct SeatView {
    pub parts: u64,
    pub held: Option<u32>,
    pub over: bool,
}

pub struct PoolRule<P> {
    of: PhantomData<P>,
}

impl<T, P: TurnRule<T>> TableRule<T, SeatView, ()> for PoolRule<P> {
    ghost use Rattle.std.specs.Prelude.{None, false};
    ghost use Rattle.turn_pool.specs.Pool.{seat_view, all_parts};
    ghost use Rattle.turn_pool.specs.inner.Pooled.{Pooled};
    ghost use Rattle.turn_pool.specs.inner.Words.{by_number};

    ghost holds = { λ _. Pooled (by_number P.may_be) };

    ghost first = { λ _. seat_view all_parts None false };
}

pub type PoolSeat<T> = Seat<T, SeatView>;

pub type PoolTable<T, P> = Table<T, SeatView, (), PoolRule<P>, Global>;

/// A slot is taken where its bit stood.
pub struct Takes<P> {
    of: PhantomData<P>,
}

impl<T, P: TurnRule<T>> Play<T, SeatView> for Takes<P> {
    ghost use Rattle.turn_pool.specs.inner.Pooled.{Took};
    ghost use Rattle.turn_pool.specs.inner.Words.{by_number};

    ghost then = { Took (by_number P.may_be) };
}

/// The slot is given back.
pub struct Gives;

impl<T> Play<T, SeatView> for Gives {
    ghost use Rattle.std.specs.Prelude.{◌≡◌, None, []};
    ghost use Rattle.turn_pool.specs.Pool.{seat_view};

    ghost then = { λ s me n after. after ≡ (seat_view me.0.parts None me.0.over, []) };
}

/// Nothing is changed.
pub struct Looks;

impl<T> Play<T, SeatView> for Looks {
    ghost use Rattle.std.specs.Prelude.{◌≡◌};

    ghost then = { λ s me n after. after ≡ me };
}

/// One part goes to a seat of its own, and comes back.
pub struct Part;

impl Split<SeatView> for Part {
    ghost use Rattle.std.specs.Prelude.{None, ◌-◌, false};
    ghost use Rattle.turn_pool.specs.Pool.{seat_view};

    ghost left = { λ v. seat_view (v.parts - 1) None v.over };

    ghost right = { λ v. seat_view 1 None false };
}

impl Join<SeatView> for Part {
    ghost use Rattle.std.specs.Prelude.{None, ◌+◌, ◌||◌, false};
    ghost use Rattle.turn_pool.specs.Pool.{seat_view};

    ghost both = { λ v w. seat_view (v.parts + w.parts) None (v.over || w.over) };

    ghost spent = { seat_view 0 None false };
}

/// All ended, as this word says.
pub struct SeesEnded;

impl<T> Play<T, SeatView> for SeesEnded {
    ghost use Rattle.turn_pool.specs.inner.Pooled.{SawEnded};

    ghost then = { SawEnded };
}

/// One has stopped all, as this word says.
pub struct SeesStopped;

impl<T> Play<T, SeatView> for SeesStopped {
    ghost use Rattle.turn_pool.specs.inner.Pooled.{SawStopped};

    ghost then = { SawStopped };
}
