//! Things in the slots of a table, each at home or lent to one borrower, and how all are got back at the end.
//!
//! A table is shared by `&`, so it can lie in an `Arc`. A borrower takes a thing with the right to give it back, may carry both to another
//! thread, and gives it back as what may lie in its place, which a rule of the user says, by a key that the table is made with. Who owns the
//! table alone in the end has all things back, or learns that some are out. No thread waits, and each atomic step is `SeqCst`.
#![tactic(auto)]

mod lends;
mod loan;
mod rule;
mod slots;

pub use lends::{Lending, MOST};
pub use loan::Loan;
pub use rule::{LendRule, LendSeat, LendTable};
