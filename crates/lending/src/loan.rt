//! What a borrower has.
ghost use Rattle.std.specs.Prelude.{◌≡◌, ◌<◌, None, [], ◌∷◌};
ghost use Rattle.lending.specs.Lending.{most};

use crate::rule::LendSeat;

/// A thing that is lent, with the right to give it back to its place. It may go to another thread. Where it is dropped its place stays
/// empty.
#[derive(Drop)]
pub struct Loan<T, K> {
    pub thing: T,
    pub place: u32,
    pub seat: LendSeat<T, K>,
    pub ghost in_range: { place < most },
    pub ghost emptied: { seat.me.1 ≡ (place, None) ∷ [] },
}
