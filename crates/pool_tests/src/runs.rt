//! Runs of a pool, and what two seats of it can take. A pool may answer that memory is wanting, whatever its body does, so a test fails
//! where it does.

ghost use Rattle.std.specs.Prelude.{◌≡◌, ◌<◌, ◌≤◌, ℕ, [], None, Some, true, false, IfOk, IfErr, vec_len, vec_capacity, slice_get, length};
ghost use Rattle.turn_pool.specs.Pool.{seat_view, all_parts};

use crate::compare::{holds, same};
use crate::countdown::Countdown;
use crate::workers::{Counted, finish, run, turn};
use std::alloc::{AllocError, Global};
use std::test::Fail;
use turn_pool::{first_from, stand_still};

// Countdowns from these numbers, each with the name of its place.
fn countdowns(alloc: Global, lefts: &[u32]) -> Result<Vec<Countdown>, AllocError>
    requires { length lefts.now < 33 }
    ensures count { IfOk result (λ v. vec_len v ≡ length lefts.now) }
    ensures named { IfOk result (λ v. (i : ℕ) (y : Countdown) → slice_get v.items i ≡ Some y → y.name ≡ i) }
{
    let mut all = Vec::with_capacity(alloc, lefts.len())?;
    for i in 0..lefts.len() {
        all.push_reserved(Countdown {
            name: i as u32,
            left: lefts[i],
            turns: 0,
        });
    }
    Ok(all)
}

#[test]
fn two_workers_end_all_and_each_comes_back_once(rt: HostRuntime) -> Result<(), Fail> {
    let lefts = [3, 1, 0, 20, 7, 1, 400, 2];
    let turns = [3, 1, 1, 20, 7, 1, 400, 2];
    for _ in 0..50u32 {
        let things = countdowns(rt.alloc(), &lefts)?;
        let room = Vec::with_capacity(rt.alloc(), 8)?;
        match run(&rt, rt.alloc(), things, room) {
            Ok(all) => {
                same(&rt, all.len(), 8);
                for (i, thing) in all.as_slice().iter().enumerate() {
                    same(&rt, thing.name as usize, i);
                    same(&rt, thing.left, 0);
                    same(&rt, Some(&thing.turns), turns.as_slice().get(i));
                }
            }
            Err(things) => {
                same(&rt, things.len(), 8);
                for (i, thing) in things.as_slice().iter().enumerate() {
                    same(&rt, thing.turns, 0);
                    same(&rt, Some(&thing.left), lefts.as_slice().get(i));
                }
                return Err(Fail::from(AllocError));
            }
        }
    }
    Ok(())
}

#[test]
fn what_is_out_cannot_be_taken(rt: HostRuntime) -> Result<(), Fail> {
    let things = countdowns(rt.alloc(), &[2, 1])?;
    let room = Vec::with_capacity(rt.alloc(), 2)?;
    let Ok((pool, mut seat)) = Counted::new(rt.alloc(), things) else {
        return Err(Fail::from(AllocError));
    };
    let mut first = pool.hire(&mut seat);
    let mut second = pool.hire(&mut seat);
    let taken = pool.take(&mut first, 0);
    holds(&rt, taken);
    same(&rt, pool.ready(), 2);
    let again = pool.take(&mut second, 0);
    holds(&rt, !again);
    turn(&pool, &mut first, 0);
    same(&rt, pool.ready(), 3);
    let back = pool.take(&mut second, 0);
    holds(&rt, back);
    turn(&pool, &mut second, 0);
    same(&rt, pool.ready(), 2);
    same(&rt, pool.ended(), 1);
    let ended = pool.take(&mut first, 0);
    holds(&rt, !ended);
    holds(&rt, !pool.sees_ended(&mut second));
    holds(&rt, !pool.sees_stopped(&mut second));
    same(&rt, finish(pool, seat, first, second, room).len(), 2);
    Ok(())
}

#[test]
fn hints_are_noted_and_cleared(rt: HostRuntime) -> Result<(), Fail> {
    let things = countdowns(rt.alloc(), &[1, 1, 1])?;
    let room = Vec::with_capacity(rt.alloc(), 3)?;
    let Ok((pool, mut seat)) = Counted::new(rt.alloc(), things) else {
        return Err(Fail::from(AllocError));
    };
    pool.note(&mut seat, 2);
    same(&rt, pool.stalled(), 4);
    pool.rest(&rt, 0);
    pool.clear(&mut seat);
    same(&rt, pool.stalled(), 0);
    pool.wake();
    same(&rt, pool.end(seat, room).len(), 3);
    Ok(())
}

#[test]
fn things_stand_still_where_all_are_home_and_none_goes_on(rt: HostRuntime) -> Result<(), Fail> {
    for (ready, ended, stalled, still) in [
        (5, 2, 5, true),
        (5, 2, 7, true),
        (4, 2, 7, false),
        (5, 2, 4, false),
        (0, 7, 0, true),
        (7, 0, 7, true),
        (7, 0, 3, false),
    ] {
        same(&rt, stand_still(3, ready, ended, stalled), still);
    }
    Ok(())
}

#[test]
fn the_next_is_the_first_that_stands_in_a_circle(rt: HostRuntime) -> Result<(), Fail> {
    for (word, next, found) in [
        (5, 0, Some(0)),
        (5, 1, Some(2)),
        (5, 2, Some(2)),
        (5, 3, Some(0)),
        (2, 2, Some(1)),
        (8, 0, None),
        (0, 1, None),
    ] {
        same(&rt, first_from(word, next, 3), found);
    }
    Ok(())
}
