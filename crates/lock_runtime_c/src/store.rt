//! The passes of a heap: each at home, or with its thread.
use heap_table::{Heap, Pass};
use lending::{LendRule, Lending, Loan};

/// What lies at home: the passes of threads that are stopped.
pub struct AtHome;

impl LendRule<Pass, Heap> for AtHome {
    ghost use Rattle.lock_runtime_c.specs.Rest.{IsHome};

    ghost may_lie = { IsHome };
}

/// The passes of a heap, which is the table's key.
pub type Passes = Lending<Pass, Heap, AtHome>;

/// A pass that its thread has.
pub type Lent = Loan<Pass, Heap>;
