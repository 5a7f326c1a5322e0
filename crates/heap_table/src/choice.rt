//! The step that a call makes, as a ghost member that each call picks.
use crate::rule::Knows;
use atomic_table::{Join, Play, Split};
use std::marker::{Brand, PhantomData};

pub trait Chosen {
    ghost use Rattle.core_law.specs.Logic.{Heap};
    ghost use Rattle.core_world.specs.declared.plan.StepPlan.{StepPlan};

    ghost heap: { Heap };

    ghost plan: { StepPlan };
}

impl Chosen for Brand {
    ghost use Rattle.heap_table.specs.inner.Ruled.{no_heap, no_plan};

    ghost heap = { no_heap };

    ghost plan = { no_plan };
}

pub struct Does<C> {
    of: PhantomData<C>,
}

impl<C: Chosen> Play<(), Knows> for Does<C> {
    ghost use Rattle.heap_table.specs.inner.Ruled.{Told};

    ghost then = { λ s me n after. Told C.heap C.plan me n after };
}

/// The first thread's knowledge goes to a seat of its own.
pub struct First;

impl Split<Knows> for First {
    ghost use Rattle.heap_table.specs.Ruled.{only};
    ghost use Rattle.heap_table.specs.inner.Ruled.{others};
    ghost use Rattle.std.specs.Prelude.{[], ◌∷◌};

    ghost left = { others };

    ghost right = { λ v. only v ∷ [] };
}

/// One seat has what both knew.
pub struct Both;

impl Join<Knows> for Both {
    ghost use Rattle.std.specs.Prelude.{[], ◌++◌};

    ghost both = { λ v w. v ++ w };

    ghost spent = { [] };
}

/// A seat that knows nothing.
pub struct Nobody;

impl Play<(), Knows> for Nobody {
    ghost use Rattle.std.specs.Prelude.{◌≡◌, []};

    ghost then = { λ s me n after. after.0 ≡ [] };
}
