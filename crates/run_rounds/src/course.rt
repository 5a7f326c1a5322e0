//! Which runners may lie in the slots of a pool.
//!
//! The rule of a pool can't name the heap of one run, so a type stands for the run, and has its heap, program, fuel and tick as ghost members.

use std::marker::{Brand, PhantomData};
use thread_interp::Runner;
use turn_pool::{Pool, PoolSeat, TurnRule};

/// The run that a pool is of.
pub trait Course {
    ghost use Rattle.std.specs.Prelude.{ℕ};
    ghost use Rattle.heap_table.specs.Seen.{HeapSeen};
    ghost use Rattle.object_program.specs.Program.{ProgramText};

    ghost heap: { HeapSeen };

    ghost program: { ProgramText };

    ghost fuel: { ℕ };

    ghost tick: { ℕ };
}

impl Course for Brand {
    ghost use Rattle.run_rounds.specs.inner.Slots.{no_heap, no_program};

    ghost heap = { no_heap };

    ghost program = { no_program };

    ghost fuel = { 0 };

    ghost tick = { 0 };
}

/// The runners of a run.
pub struct RunnersOf<C> {
    of: PhantomData<C>,
}

impl<C: Course> TurnRule<Runner> for RunnersOf<C> {
    ghost use Rattle.run_rounds.specs.inner.Slots.{MayLie};

    ghost may_be = { MayLie C.heap C.program C.fuel C.tick };
}

/// The pool of a run's runners.
pub type RunnerPool<C> = Pool<Runner, RunnersOf<C>>;

/// A worker's seat in it.
pub type RunnerSeat = PoolSeat<Runner>;
