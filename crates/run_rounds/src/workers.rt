//! Workers that take runners from a pool.

ghost use Rattle.std.specs.Prelude.{◌≡◌, ◌≤◌, ◌<◌, ◌-◌, [], length, true, false, All, IfOk, None, MatchBool};
ghost use Rattle.std.specs.Prelude.{vec_len, vec_capacity};
ghost use Rattle.thread_calls.specs.Between.{IsHeapOf};
ghost use Rattle.turn_pool.specs.Pool.{seat_view, all_parts};
ghost use Rattle.run_rounds.specs.Rounds.{AreRunners, AreTimed};
ghost use Rattle.run_rounds.specs.inner.Ends.{AreDone};
ghost use Rattle.run_rounds.specs.inner.Slots.{IsCourse};

use crate::course::{Course, RunnerPool, RunnerSeat};
use crate::run_terms::RunTerms;
use crate::turns::{Outcome, give_check, give_turn};
use crate::work_context::WorkContext;
use heap_table::Heap;
use plain_monitor::NoMemory;
use run_io::{Clock, Gate};
use std::alloc::Global;
use std::marker::Brand;
use std::sync::Wait;
use std::thread;
use std::thread::Threads;
use thread_calls::RunContext;
use thread_interp::Runner;
use turn_pool::{first_from, stand_still};

/// A bit of the hints that stands for no runner, since a heap has 16 threads at most.
const OVER: u32 = 31;

/// A worker, by its seat in the pool.
#[derive(Drop)]
pub struct Worker {
    seat: RunnerSeat,
}

// What is noted as stalled. Nothing is, from now on, where the worker's last turn did something, since others may go on now; and those that had
// nothing to take look again.
fn notes<C: Course>(pool: &RunnerPool<C>, mine: &mut RunnerSeat, moved: bool) -> u64
    requires table { mine.old.table_id ≡ pool.now.slots.shared.table_id }
    requires free { mine.old.me ≡ (seat_view 1 None false, []) }
    ensures table { mine.new.table_id ≡ mine.old.table_id }
    ensures free { mine.new.me ≡ (seat_view 1 None false, []) }
{
    let stalled = pool.stalled();
    if !moved || stalled == 0 {
        return stalled;
    }
    pool.clear(mine);
    pool.wake();
    0
}

// A turn of the runner at this place, where it is ready. Whether one did something; where it is stalled, that is noted, so that nobody takes the
// runner until another has done something.
fn visit<C: Course, K: Clock, G: Gate>(
    work: &WorkContext<C, K, G>,
    mine: &mut RunnerSeat,
    place: u32,
) -> bool
    requires course { let run = work.now.run in
        IsCourse C.heap C.program C.fuel C.tick run.heap.now run.program.now run.fuel run.tick }
    requires heap { IsHeapOf work.now.run.heap.now work.now.run.program.now }
    requires quantum { 1 ≤ work.now.run.quantum }
    requires table { mine.old.table_id ≡ work.now.pool.now.slots.shared.table_id }
    requires place { place < work.now.pool.now.slots.shared.table_id.slots }
    requires free { mine.old.me ≡ (seat_view 1 None false, []) }
    ensures table { mine.new.table_id ≡ mine.old.table_id }
    ensures free { mine.new.me ≡ (seat_view 1 None false, []) }
{
    if !work.pool.take(mine, place) {
        return false;
    }
    let outcome = give_turn(work, mine, place);
    if outcome == Outcome::Stalled {
        work.pool.note(mine, place);
    }
    outcome == Outcome::Moved
}

// A check by the runner at this place, where it is ready. Whether one was made that didn't halt the run: then all look again whether they go on.
fn look<C: Course, R: Wait, K, G>(
    rt: &R,
    work: &WorkContext<C, K, G>,
    mine: &mut RunnerSeat,
    place: u32,
) -> bool
    requires course { let run = work.now.run in
        IsCourse C.heap C.program C.fuel C.tick run.heap.now run.program.now run.fuel run.tick }
    requires heap { IsHeapOf work.now.run.heap.now work.now.run.program.now }
    requires table { mine.old.table_id ≡ work.now.pool.now.slots.shared.table_id }
    requires place { place < work.now.pool.now.slots.shared.table_id.slots }
    requires free { mine.old.me ≡ (seat_view 1 None false, []) }
    ensures table { mine.new.table_id ≡ mine.old.table_id }
    ensures free { mine.new.me ≡ (seat_view 1 None false, []) }
{
    if !work.pool.take(mine, place) {
        return false;
    }
    !give_check(rt, work, mine, place)
}

// Whether all is over. Where it is, those that sleep look again, and nobody falls asleep by what he saw before.
fn sees_over<C: Course>(pool: &RunnerPool<C>, mine: &mut RunnerSeat) -> bool
    requires table { mine.old.table_id ≡ pool.now.slots.shared.table_id }
    requires free { mine.old.me ≡ (seat_view 1 None false, []) }
    ensures table { mine.new.table_id ≡ mine.old.table_id }
    ensures seen { MatchBool result (mine.new.me ≡ (seat_view 1 None true, []))
        (mine.new.me ≡ (seat_view 1 None false, [])) }
{
    if !pool.sees_ended(mine) && !pool.sees_stopped(mine) {
        return false;
    }
    pool.note(mine, OVER);
    pool.wake();
    true
}

// Turns and checks until all is over.
fn serve<C: Course, R: Wait, K: Clock, G: Gate>(
    rt: &R,
    work: &WorkContext<C, K, G>,
    mine: &mut RunnerSeat,
    first: u32,
)
    requires course { let run = work.now.run in
        IsCourse C.heap C.program C.fuel C.tick run.heap.now run.program.now run.fuel run.tick }
    requires heap { IsHeapOf work.now.run.heap.now work.now.run.program.now }
    requires quantum { 1 ≤ work.now.run.quantum }
    requires first { first < 32 }
    requires table { mine.old.table_id ≡ work.now.pool.now.slots.shared.table_id }
    requires free { mine.old.me ≡ (seat_view 1 None false, []) }
    ensures table { mine.new.table_id ≡ mine.old.table_id }
    ensures over { mine.new.me ≡ (seat_view 1 None true, []) }
{
    let pool = work.pool;
    let mut next = first;
    let mut moved = false;
    for _ in rt.forever() {
        let stalled = notes(pool, mine, moved);
        moved = false;
        let ready = pool.ready();
        if let Some(place) = first_from(ready & !stalled, next, pool.count) {
            next = place + 1;
            moved = visit(work, mine, place);
        } else if sees_over(pool, mine) {
            return;
        } else if !stand_still(pool.count, ready, pool.ended(), stalled) {
            pool.rest(rt, (stalled % (1 << 32)) as u32);
        } else if let Some(place) = first_from(ready, next, pool.count) {
            next = place + 1;
            moved = look(rt, work, mine, place);
        }
    }
    unreachable!()
}

// A seat for each worker.
fn hire<C: Course>(
    pool: &RunnerPool<C>,
    own: &mut RunnerSeat,
    mut workers: Vec<Worker>,
    count: u32,
) -> Vec<Worker>
    requires empty { workers.items ≡ [] }
    requires room { count ≤ vec_capacity workers }
    requires few { count < 33 }
    requires table { own.old.table_id ≡ pool.now.slots.shared.table_id }
    requires free { own.old.me ≡ (seat_view all_parts None false, []) }
    ensures table { own.new.table_id ≡ own.old.table_id }
    ensures free { own.new.me ≡ (seat_view (all_parts - count) None false, []) }
    ensures workers { All (λ w. (w.seat.table_id ≡ pool.now.slots.shared.table_id)
        × (w.seat.me ≡ (seat_view 1 None false, []))) result.items }
    ensures count { vec_len result ≡ count }
{
    for i in 0..count {
        let _worker = i;
        workers.push_reserved(Worker {
            seat: pool.hire(own),
        });
    }
    workers
}

// They come back, and each knows that all is over.
fn dismiss<C: Course>(pool: &RunnerPool<C>, own: &mut RunnerSeat, workers: Vec<Worker>)
    requires some { 1 ≤ vec_len workers }
    requires few { vec_len workers < 33 }
    requires table { own.old.table_id ≡ pool.now.slots.shared.table_id }
    requires free { own.old.me ≡ (seat_view (all_parts - vec_len workers) None false, []) }
    requires workers { All (λ w. (w.seat.table_id ≡ pool.now.slots.shared.table_id)
        × (w.seat.me ≡ (seat_view 1 None true, []))) workers.items }
    ensures table { own.new.table_id ≡ own.old.table_id }
    ensures over { own.new.me ≡ (seat_view all_parts None true, []) }
{
    for worker in workers {
        pool.dismiss(own, worker.seat);
    }
}

// The turns of a run that the type C stands for.
fn serve_all<
    'a,
    C: Course + Send + Sync,
    R: Threads + Wait + Sync,
    K: Clock + Sync,
    G: Gate + Sync,
>(
    rt: &R,
    alloc: Global,
    heap: &'a Heap,
    terms: &RunTerms<'a, K, G>,
    runners: Vec<Runner>,
    room: Vec<Runner>,
) -> Result<Vec<Runner>, NoMemory>
    requires course { IsCourse C.heap C.program C.fuel C.tick
        heap.now terms.now.program.now terms.now.fuel terms.now.tick }
    requires few { vec_len runners < 33 }
    requires workers { (1 ≤ terms.now.workers) × (terms.now.workers < 33) }
    requires quantum { 1 ≤ terms.now.quantum }
    requires program { IsHeapOf heap.now terms.now.program.now }
    requires runners { AreRunners heap.now terms.now.program.now terms.now.fuel runners.items }
    requires timed { AreTimed terms.now.tick runners.items }
    requires room { (room.items ≡ []) × (vec_len runners ≤ vec_capacity room) }
    ensures { IfOk result (λ v. AreDone heap.now terms.now.program.now terms.now.fuel terms.now.tick
        (length runners.items) v.items) }
{
    let workers = terms.workers;
    let seats = Vec::with_capacity(alloc, workers as usize).map_err(|_| NoMemory)?;
    let Ok((pool, mut own)) = RunnerPool::<C>::new(alloc, runners) else {
        return Err(NoMemory);
    };
    let mut seats = hire(&pool, &mut own, seats, workers);
    let work = WorkContext {
        run: RunContext {
            program: terms.program,
            heap,
            clock: terms.clock,
            tick: terms.tick,
            fuel: terms.fuel,
            quantum: terms.quantum,
        },
        pool: &pool,
        gate: terms.gate,
    };
    let shared = &work;
    thread::for_each_mut(
        rt,
        seats.as_mut_slice(),
        workers as usize,
        &|i: usize, worker: &mut Worker|
            requires { (let run = shared.now.run in
                IsCourse C.heap C.program C.fuel C.tick run.heap.now run.program.now run.fuel run.tick)
                × IsHeapOf shared.now.run.heap.now shared.now.run.program.now × (1 ≤ shared.now.run.quantum)
                × (worker.now.seat.table_id ≡ shared.now.pool.now.slots.shared.table_id)
                × (worker.now.seat.me ≡ (seat_view 1 None false, [])) }
            ensures { (worker.exit.now.seat.table_id ≡ worker.entry.now.seat.table_id)
                × (worker.exit.now.seat.me ≡ (seat_view 1 None true, [])) }
        { serve(rt, shared, &mut worker.seat, (i % 32) as u32) },
    );
    dismiss(&pool, &mut own, seats);
    Ok(pool.end(own, room))
}

/// Gives turns of at most `quantum` instructions to all runners, by the terms' workers, until all threads have ended
/// or a check halted the run. It answers the runners, in their order. `room` is empty, with room for them. The run's `tick` is in
/// milliseconds.
///
/// # Errors
///
/// `NoMemory` where an allocation fails, before the first turn.
pub fn serve_until_over<'a, R: Threads + Wait + Sync, K: Clock + Sync, G: Gate + Sync>(
    rt: &R,
    alloc: Global,
    heap: &'a Heap,
    terms: &RunTerms<'a, K, G>,
    runners: Vec<Runner>,
    room: Vec<Runner>,
) -> Result<Vec<Runner>, NoMemory>
    requires few { vec_len runners < 33 }
    requires workers { (1 ≤ terms.now.workers) × (terms.now.workers < 33) }
    requires quantum { 1 ≤ terms.now.quantum }
    requires program { IsHeapOf heap.now terms.now.program.now }
    requires runners { AreRunners heap.now terms.now.program.now terms.now.fuel runners.items }
    requires timed { AreTimed terms.now.tick runners.items }
    requires room { (room.items ≡ []) × (vec_len runners ≤ vec_capacity room) }
    ensures { IfOk result (λ v. AreDone heap.now terms.now.program.now terms.now.fuel terms.now.tick
        (length runners.items) v.items) }
{
    serve_all::<Brand, R, K, G>(rt, alloc, heap, terms, runners, room)
}
