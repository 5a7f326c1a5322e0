//! A pool of things that take turns, each in a slot of its own.
ghost use Rattle.std.specs.Prelude.{◌≡◌, ℕ, ◌+◌, ◌-◌, ◌<◌, ◌≤◌, [], ◌∷◌, slice_get, Some, None};
ghost use Rattle.std.specs.Prelude.{IfOk, IfErr, vec_len, vec_capacity, MatchBool};
ghost use Rattle.std.specs.Prelude.{Bool, true, false, ◌||◌};
ghost use Rattle.std.specs.Slots.{slots_items, slots_len, IsFull};
ghost use Rattle.turn_pool.specs.declared.word.Word.{Word};
ghost use Rattle.turn_pool.specs.declared.word.Word.TheVariants.{Ready};
ghost use Rattle.turn_pool.specs.Pool.{seat_view, all_parts, width, EndsOver};

use crate::rule::{
    Gives, Looks, Part, PoolSeat, PoolTable, SeesEnded, SeesStopped, Takes, TurnRule,
};
use crate::word::{ENDED, READY, STALLED, STOPPED, Word};
use atomic_table::Closed;
use std::alloc::Global;
use std::sync::Wait;
use std::time::Duration;

/// Things in slots, of which each is at home or in one worker's hand.
pub struct Pool<T, P: TurnRule<T>> {
    pub slots: PoolTable<T, P>,
    pub count: u32,
    pub ghost sized: { (slots.shared.table_id.words ≡ width) × (slots.shared.table_id.slots ≡ count) × (count < 33) },
}

// All values of the table at its end.
fn unload<T>(mut closed: Closed<T, Global>, mut things: Vec<T>) -> Vec<T>
    requires full { IsFull closed.slots }
    requires empty { things.items ≡ [] }
    requires room { slots_len closed.slots ≤ vec_capacity things }
    ensures { result.items ≡ slots_items closed.slots }
{
    let count = closed.slot_count();
    for i in 0..count {
        things.push_reserved(closed.take(i));
    }
    closed.free();
    things
}

impl<T, P: TurnRule<T>> Pool<T, P> {
    /// Makes a pool in which all these things, at most 32, are ready, thing i in slot i; and the one seat, which has all parts.
    ///
    /// # Errors
    ///
    /// The things, as they were, where an allocation fails.
    pub fn new(alloc: Global, things: Vec<T>) -> Result<(Pool<T, P>, PoolSeat<T>), Vec<T>>
        requires few { vec_len things < 33 }
        requires are { (i : ℕ) (y : T) → slice_get things.items i ≡ Some y → P.may_be Ready i y }
        ensures ok { IfOk result (λ r. (r.0.slots.shared.table_id.slots ≡ vec_len things)
            × (r.1.table_id ≡ r.0.slots.shared.table_id)
            × (r.1.me ≡ (seat_view all_parts None false, []))) }
        ensures err { IfErr result (λ v. v.items ≡ things.items) }
    {
        let count = things.len() as u32;
        let mut words = [0u64; 49];
        words[READY] = (1u64 << count) - 1;
        match PoolTable::<T, P>::new(alloc, &words, things, &()) {
            Ok((slots, seat)) => Ok((Pool { slots, count }, seat)),
            Err(refused) => Err(refused.slots),
        }
    }

    /// The things, in the order of their slots, where the seat has all parts again. Each is what it may be under one of the words; and
    /// where the seat knows that all is over, all have ended or one has stopped all. `things` is empty, with room for them: no memory is
    /// taken.
    pub fn end(self, seat: PoolSeat<T>, things: Vec<T>) -> Vec<T>
        requires table { seat.table_id ≡ self.slots.shared.table_id }
        requires whole { (f : Bool) × (seat.me ≡ (seat_view all_parts None f, [])) }
        requires empty { things.items ≡ [] }
        requires room { self.slots.shared.table_id.slots ≤ vec_capacity things }
        ensures count { vec_len result ≡ self.slots.shared.table_id.slots }
        ensures are { (i : ℕ) (y : T) → slice_get result.items i ≡ Some y → (w : Word) × P.may_be w i y }
        ensures over { seat.me.0.over ≡ true → EndsOver P.may_be result.items }
    {
        let Pool { slots, count: _ } = self;
        unload(slots.close_with(seat), things)
    }

    /// A seat of one part, for a worker. It doesn't know that all is over.
    pub fn hire(&self, seat: &mut PoolSeat<T>) -> PoolSeat<T>
        requires table { seat.old.table_id ≡ self.now.slots.shared.table_id }
        requires knows { (p : ℕ) × (f : Bool) × (1 < p) × (seat.old.me ≡ (seat_view p None f, [])) }
        ensures seat { (seat.new.table_id ≡ seat.old.table_id)
            × (seat.new.me ≡ (seat_view (seat.old.me.0.parts - 1) None seat.old.me.0.over, [])) }
        ensures worker { (result.table_id ≡ seat.old.table_id) × (result.me ≡ (seat_view 1 None false, [])) }
    {
        self.slots.shared.split_seat::<Part>(seat)
    }

    /// A worker's seat comes back, with its part and with what it knows.
    pub fn dismiss(&self, seat: &mut PoolSeat<T>, worker: PoolSeat<T>)
        requires table { (seat.old.table_id ≡ self.now.slots.shared.table_id)
            × (worker.table_id ≡ self.now.slots.shared.table_id) }
        requires knows { (p : ℕ) × (f : Bool) × (seat.old.me ≡ (seat_view p None f, [])) }
        requires worker { (f : Bool) × (worker.me ≡ (seat_view 1 None f, [])) }
        ensures seat { (seat.new.table_id ≡ seat.old.table_id)
            × (seat.new.me
            ≡ (seat_view (seat.old.me.0.parts + 1) None (seat.old.me.0.over || worker.me.0.over), [])) }
    {
        self.slots.shared.join_seat::<Part>(seat, worker);
    }

    /// Takes the thing of this slot where it is ready, and answers whether it was.
    #[inline(always)]
    pub fn take(&self, seat: &mut PoolSeat<T>, place: u32) -> bool
        requires table { seat.old.table_id ≡ self.now.slots.shared.table_id }
        requires place { place < self.now.slots.shared.table_id.slots }
        requires knows { (p : ℕ) × (f : Bool) × (0 < p) × (seat.old.me ≡ (seat_view p None f, [])) }
        ensures table { seat.new.table_id ≡ seat.old.table_id }
        ensures taken { MatchBool result
            ((y : T) × P.may_be Ready place y
            × (seat.new.me ≡ (seat_view seat.old.me.0.parts (Some place) seat.old.me.0.over, (place, y) ∷ [])))
            (seat.new.me ≡ seat.old.me) }
    {
        let bit = 1u64 << place;
        let found = self.slots.shared.fetch_and::<Takes<P>>(seat, READY, !bit);
        (found >> place) & 1 == 1
    }

    /// Gives the thing of this slot back, where it is what it may be under this word.
    #[inline(always)]
    pub fn give(&self, seat: &mut PoolSeat<T>, place: u32, word: Word)
        requires table { seat.old.table_id ≡ self.now.slots.shared.table_id }
        requires place { place < self.now.slots.shared.table_id.slots }
        requires knows { (p : ℕ) × (f : Bool) × (y : T) × (0 < p)
            × (seat.old.me ≡ (seat_view p (Some place) f, (place, y) ∷ [])) × P.may_be word place y }
        ensures table { seat.new.table_id ≡ seat.old.table_id }
        ensures given { seat.new.me ≡ (seat_view seat.old.me.0.parts None seat.old.me.0.over, []) }
    {
        self.slots
            .shared
            .fetch_or::<Gives>(seat, word.place(), 1u64 << place);
    }

    /// Notes that the last turn of this slot's thing did nothing. A hint alone: no contract says what comes of it.
    #[inline(always)]
    pub fn note(&self, seat: &mut PoolSeat<T>, place: u32)
        requires table { seat.old.table_id ≡ self.now.slots.shared.table_id }
        requires place { place < 64 }
        requires free { seat.old.me.1 ≡ [] }
        ensures table { seat.new.table_id ≡ seat.old.table_id }
        ensures same { seat.new.me ≡ seat.old.me }
    {
        self.slots
            .shared
            .fetch_or::<Looks>(seat, STALLED, 1u64 << place);
    }

    /// Notes that a turn did something: none is stalled any more. A hint alone.
    #[inline(always)]
    pub fn clear(&self, seat: &mut PoolSeat<T>)
        requires table { seat.old.table_id ≡ self.now.slots.shared.table_id }
        requires free { seat.old.me.1 ≡ [] }
        ensures table { seat.new.table_id ≡ seat.old.table_id }
        ensures same { seat.new.me ≡ seat.old.me }
    {
        self.slots.shared.store::<Looks>(seat, STALLED, 0);
    }

    /// Whether all have ended. Where the answer is true the seat knows for good that all is over.
    pub fn sees_ended(&self, seat: &mut PoolSeat<T>) -> bool
        requires table { seat.old.table_id ≡ self.now.slots.shared.table_id }
        requires knows { (p : ℕ) × (f : Bool) × (seat.old.me ≡ (seat_view p None f, [])) }
        ensures table { seat.new.table_id ≡ seat.old.table_id }
        ensures seen { MatchBool result (seat.new.me ≡ (seat_view seat.old.me.0.parts None true, []))
            (seat.new.me ≡ seat.old.me) }
    {
        let all = (1u64 << self.count) - 1;
        self.slots.shared.load::<SeesEnded>(seat, ENDED) == all
    }

    /// Whether one has stopped all. Where the answer is true the seat knows for good that all is over.
    pub fn sees_stopped(&self, seat: &mut PoolSeat<T>) -> bool
        requires table { seat.old.table_id ≡ self.now.slots.shared.table_id }
        requires knows { (p : ℕ) × (f : Bool) × (seat.old.me ≡ (seat_view p None f, [])) }
        ensures table { seat.new.table_id ≡ seat.old.table_id }
        ensures seen { MatchBool result (seat.new.me ≡ (seat_view seat.old.me.0.parts None true, []))
            (seat.new.me ≡ seat.old.me) }
    {
        let all = (1u64 << self.count) - 1;
        self.slots.shared.load::<SeesStopped>(seat, STOPPED) & all != 0
    }

    /// Sleeps while the low 32 bits of the hints are still those that were seen, for at most 200 microseconds. No contract says when it wakes.
    pub fn rest<R: Wait>(&self, rt: &R, seen: u32) {
        self.slots
            .shared
            .park_timeout(rt, STALLED, seen, Duration::from_micros(200));
    }

    /// Wakes those who sleep so. No contract says that one does.
    pub fn wake(&self) {
        self.slots.shared.wake_all(STALLED);
    }

    /// Which are ready just now: bit i for slot i, as in the other two words. A hint alone, for a worker that chooses.
    #[inline(always)]
    pub fn ready(&self) -> u64 {
        self.slots.shared.peek(READY)
    }

    /// Which have ended by now. A hint alone.
    #[inline(always)]
    pub fn ended(&self) -> u64 {
        self.slots.shared.peek(ENDED)
    }

    /// Of which it is noted just now that their last turns did nothing. A hint alone.
    #[inline(always)]
    pub fn stalled(&self) -> u64 {
        self.slots.shared.peek(STALLED)
    }
}
