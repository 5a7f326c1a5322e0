//! Two workers on one pool of countdowns.
ghost use Rattle.std.specs.Prelude.{◌≡◌, ◌<◌, ◌≤◌, ◌∷◌, [], Some, None, Bool, true, false, IfOk, IfErr, vec_len, vec_capacity, slice_get, ℕ};
ghost use Rattle.turn_pool.specs.Pool.{seat_view, all_parts};
ghost use Rattle.turn_pool.specs.declared.word.Word.TheVariants.{Ready};
ghost use Rattle.pool_tests.specs.Countdown.{MayBe};

use crate::countdown::{Countdown, Countdowns};
use std::alloc::Global;
use std::sync::Wait;
use std::thread::{Threads, join};
use turn_pool::{Pool, PoolSeat, Word};

/// A pool of these.
pub type Counted = Pool<Countdown, Countdowns>;

/// A seat in it.
pub type CountSeat = PoolSeat<Countdown>;

/// A turn of the countdown that the worker has taken from this slot, which goes back.
pub fn turn(pool: &Counted, seat: &mut CountSeat, place: u32)
    requires table { seat.old.table_id ≡ pool.now.slots.shared.table_id }
    requires place { place < pool.now.slots.shared.table_id.slots }
    requires held { (f : Bool) × (y : Countdown) × MayBe Ready place y
        × (seat.old.me ≡ (seat_view 1 (Some place) f, (place, y) ∷ [])) }
    ensures { (seat.new.table_id ≡ seat.old.table_id) × (seat.new.me ≡ (seat_view 1 None seat.old.me.0.over, [])) }
{
    let thing = seat.slot_mut(&pool.slots.shared, place as usize);
    let ended = thing.go();
    let word = if ended { Word::Ended } else { Word::Ready };
    pool.give(seat, place, word);
}

/// Takes the countdown of this slot, where it is ready, and gives it back after a turn.
pub fn visit(pool: &Counted, seat: &mut CountSeat, place: u32)
    requires table { seat.old.table_id ≡ pool.now.slots.shared.table_id }
    requires place { place < pool.now.slots.shared.table_id.slots }
    requires free { (f : Bool) × (seat.old.me ≡ (seat_view 1 None f, [])) }
    ensures { (seat.new.table_id ≡ seat.old.table_id) × (seat.new.me ≡ (seat_view 1 None seat.old.me.0.over, [])) }
{
    if pool.take(seat, place) {
        turn(pool, seat, place);
    }
}

// Turns of all countdowns, until all have ended.
fn serve<R: Wait>(rt: &R, pool: &Counted, seat: &mut CountSeat, count: u32)
    requires table { seat.old.table_id ≡ pool.now.slots.shared.table_id }
    requires count { count ≡ pool.now.slots.shared.table_id.slots }
    requires free { (f : Bool) × (seat.old.me ≡ (seat_view 1 None f, [])) }
    ensures { (seat.new.table_id ≡ seat.old.table_id) × (seat.new.me ≡ (seat_view 1 None true, [])) }
{
    for _ in rt.forever() {
        if pool.sees_ended(seat) {
            return;
        }
        for place in 0..count {
            visit(pool, seat, place);
        }
    }
    unreachable!()
}

/// Two workers serve the pool, each in a thread of its own. Both know afterwards that all is over.
pub fn serve_both<R: Threads + Wait + Sync>(
    rt: &R,
    pool: &Counted,
    first: CountSeat,
    second: CountSeat,
    count: u32,
) -> (CountSeat, CountSeat)
    requires table { (first.table_id ≡ pool.now.slots.shared.table_id)
        × (second.table_id ≡ pool.now.slots.shared.table_id) }
    requires count { count ≡ pool.now.slots.shared.table_id.slots }
    requires free { (first.me ≡ (seat_view 1 None false, [])) × (second.me ≡ (seat_view 1 None false, [])) }
    ensures table { (result.0.table_id ≡ pool.now.slots.shared.table_id)
        × (result.1.table_id ≡ pool.now.slots.shared.table_id) }
    ensures over { (result.0.me ≡ (seat_view 1 None true, [])) × (result.1.me ≡ (seat_view 1 None true, [])) }
{
    join(
        rt,
        move || -> CountSeat
            requires { (first.table_id ≡ pool.now.slots.shared.table_id)
                × (count ≡ pool.now.slots.shared.table_id.slots)
                × (first.me ≡ (seat_view 1 None false, [])) }
            ensures { (result.table_id ≡ pool.entry.now.slots.shared.table_id)
                × (result.me ≡ (seat_view 1 None true, [])) }
        {
            let mut seat = first;
            serve(rt, pool, &mut seat, count);
            seat
        },
        move || -> CountSeat
            requires { (second.table_id ≡ pool.now.slots.shared.table_id)
                × (count ≡ pool.now.slots.shared.table_id.slots)
                × (second.me ≡ (seat_view 1 None false, [])) }
            ensures { (result.table_id ≡ pool.entry.now.slots.shared.table_id)
                × (result.me ≡ (seat_view 1 None true, [])) }
        {
            let mut seat = second;
            serve(rt, pool, &mut seat, count);
            seat
        },
    )
}

/// The countdowns, in the order of their names, after two workers have served them to the end: all are at 0. Where memory is wanting they
/// come back as they were.
pub fn run<R: Threads + Wait + Sync>(
    rt: &R,
    alloc: Global,
    things: Vec<Countdown>,
    room: Vec<Countdown>,
) -> Result<Vec<Countdown>, Vec<Countdown>>
    requires few { vec_len things < 33 }
    requires named { (i : ℕ) (y : Countdown) → slice_get things.items i ≡ Some y → y.name ≡ i }
    requires empty { room.items ≡ [] }
    requires room { vec_len things ≤ vec_capacity room }
    ensures all { IfOk result (λ v. vec_len v ≡ vec_len things) }
    ensures ended { IfOk result (λ v. (i : ℕ) (y : Countdown) → slice_get v.items i ≡ Some y
        → (y.name ≡ i) × (y.left ≡ 0)) }
    ensures err { IfErr result (λ v. v.items ≡ things.items) }
{
    let count = things.len() as u32;
    let (pool, mut seat) = Counted::new(alloc, things)?;
    let first = pool.hire(&mut seat);
    let second = pool.hire(&mut seat);
    let (first, second) = serve_both(rt, &pool, first, second, count);
    pool.dismiss(&mut seat, first);
    pool.dismiss(&mut seat, second);
    Ok(pool.end(seat, room))
}

/// The countdowns of a pool of two workers, when both come back.
pub fn finish(
    pool: Counted,
    seat: CountSeat,
    first: CountSeat,
    second: CountSeat,
    room: Vec<Countdown>,
) -> Vec<Countdown>
    requires tables { (seat.table_id ≡ pool.slots.shared.table_id) × (first.table_id ≡ pool.slots.shared.table_id)
        × (second.table_id ≡ pool.slots.shared.table_id) }
    requires whole { seat.me ≡ (seat_view 62 None false, []) }
    requires workers { ((f : Bool) × (first.me ≡ (seat_view 1 None f, [])))
        × ((f : Bool) × (second.me ≡ (seat_view 1 None f, []))) }
    requires empty { room.items ≡ [] }
    requires room { pool.slots.shared.table_id.slots ≤ vec_capacity room }
    ensures { vec_len result ≡ pool.slots.shared.table_id.slots }
{
    let mut seat = seat;
    pool.dismiss(&mut seat, first);
    pool.dismiss(&mut seat, second);
    pool.end(seat, room)
}
