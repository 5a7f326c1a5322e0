//! A table of things, each at home or lent.
ghost use Rattle.std.specs.Prelude.{◌≡◌, ◌<◌, ◌≤◌, [], IfOk, IfErr, IfSome, vec_len, vec_capacity};
ghost use Rattle.lending.specs.Lending.{most, AreAt, LieBelow};

use crate::loan::Loan;
use crate::rule::{Gives, LendRule, LendTable, Takes};
use crate::slots::{into_slots, out_of_slots, take_home};
use atomic_table::Refused;
use std::alloc::Global;

/// How many things there may be.
pub const MOST: usize = 64;

// What a slot's word is while its thing is at home, and while it is out.
pub(crate) const HOME: u64 = 1;

const OUT: u64 = 0;

/// Things in slots, of which each is at home or lent to one borrower. `table.shared.key` is what they were made with.
#[derive(Drop)]
pub struct Lending<T, K, P: LendRule<T, K>> {
    pub table: LendTable<T, K, P>,
    pub ghost sized: { (table.shared.table_id.words ≡ most) × (table.shared.table_id.slots ≤ most) },
}

impl<T: Drop, K, P: LendRule<T, K>> Lending<T, K, P> {
    /// Makes a table in which all these things are at home, thing i in slot i.
    ///
    /// # Errors
    ///
    /// The things, as they were, where an allocation fails.
    pub fn new(alloc: Global, key: &K, things: Vec<T>) -> Result<Lending<T, K, P>, Vec<T>>
        requires few { vec_len things ≤ most }
        requires lie { AreAt (P.may_lie key.now) things.items }
        ensures ok { IfOk result (λ l. (l.table.shared.table_id.slots ≡ vec_len things)
            × (l.table.shared.key ≡ key.now)) }
        ensures err { IfErr result (λ v. v.items ≡ things.items) }
    {
        let count = things.len();
        let Ok(slots) = Vec::with_capacity(alloc, count) else {
            return Err(things);
        };
        let Ok(back) = Vec::with_capacity(alloc, count) else {
            return Err(things);
        };
        match LendTable::<T, K, P>::new(alloc, &[HOME; MOST], into_slots(things, slots), key) {
            Ok((table, _seat)) => Ok(Lending { table }),
            Err(Refused { slots }) => Err(out_of_slots(slots, back)),
        }
    }

    /// How many things there are.
    pub fn count(&self) -> u32
        ensures { result ≡ self.now.table.shared.table_id.slots }
    {
        self.table.slot_count() as u32
    }

    /// Whether this thing is at home just now. A hint alone.
    pub fn is_home(&self, place: u32) -> bool
        requires { place < self.now.table.shared.table_id.slots }
    {
        self.table.shared.peek(place as usize) == HOME
    }

    /// Takes the thing of this slot where it is at home. `None` where it is lent.
    pub fn take(&self, place: u32) -> Option<Loan<T, K>>
        requires { place < self.now.table.shared.table_id.slots }
        ensures { IfSome result (λ l. (l.place ≡ place) × (l.seat.table_id ≡ self.now.table.shared.table_id)
            × P.may_lie self.now.table.shared.key place l.thing) }
    {
        let at = place as usize;
        let (found, mut seat) = self.table.shared.swap_new_seat::<Takes<P>>(at, OUT);
        if found != HOME {
            return None;
        }
        match self.table.shared.exchange(&mut seat, at, None) {
            Some(thing) => Some(Loan { thing, place, seat }),
            None => unreachable!(),
        }
    }

    /// Gives a thing back to its place, where it may lie there.
    pub fn give(&self, loan: Loan<T, K>)
        requires table { loan.seat.table_id ≡ self.now.table.shared.table_id }
        requires lies { P.may_lie self.now.table.shared.key loan.place loan.thing }
    {
        let Loan {
            thing,
            place,
            mut seat,
        } = loan;
        let at = place as usize;
        let None = self.table.shared.exchange(&mut seat, at, Some(thing)) else {
            unreachable!()
        };
        self.table.shared.store::<Gives>(&mut seat, at, HOME);
    }

    /// Ends the table, and gives the things in the order of their slots, each what may lie there. `things` is empty, with room for all: no
    /// memory is taken.
    ///
    /// # Errors
    ///
    /// The things that are at home, where some are out.
    pub fn end(self, mut things: Vec<T>) -> Result<Vec<T>, Vec<T>>
        requires empty { things.items ≡ [] }
        requires room { self.table.shared.table_id.slots ≤ vec_capacity things }
        ensures all { IfOk result (λ v. (vec_len v ≡ self.table.shared.table_id.slots)
            × AreAt (P.may_lie self.table.shared.key) v.items) }
        ensures some { IfErr result (λ v. (vec_len v < self.table.shared.table_id.slots)
            × LieBelow (P.may_lie self.table.shared.key) self.table.shared.table_id.slots v.items) }
    {
        let Lending { table } = self;
        let mut closed = table.close();
        let count = closed.slot_count();
        for i in 0..count {
            if let Some(thing) = take_home(&mut closed, i) {
                things.push_reserved(thing);
            }
        }
        closed.free();
        if things.len() == count {
            Ok(things)
        } else {
            Err(things)
        }
    }
}
