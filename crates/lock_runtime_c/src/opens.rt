//! How a heap begins, and how threads get their passes.
ghost use Rattle.std.specs.Prelude.{◌≡◌, ◌<◌, ◌≤◌, ℕ, IfOk, false, vec_len};
ghost use Rattle.heap_table.specs.Fresh.{IsFresh};
ghost use Rattle.heap_table.specs.Seen.{first_pass, first_passes};
ghost use Rattle.plain_monitor.specs.Limits.{most_fuel, most_threads};
ghost use Rattle.lending.specs.Lending.{AreAt};
ghost use Rattle.lock_runtime_c.specs.Opening.{IsPlanned, page_room};
ghost use Rattle.lock_runtime_c.specs.Rest.{IsHome, IsInLimits};
ghost use Rattle.lock_runtime_c.specs.inner.FirstLimits.{first_limit};
ghost use Rattle.lock_runtime_c.specs.inner.Seats.{SeatOf};

use crate::inner::{Plan, Room, Seat};
use crate::outcome::{Misuse, Outcome};
use crate::store::Passes;
use heap_table::{Heap, HeapShape, Pass};
use lawful_heap::{new_heap, new_heap_without_pages};
use plain_monitor::{List, NoMemory};
use std::alloc::Global;
use std::sync::Arc;

// The planned heap of this shape, and its passes. They keep no log where no entries are asked for.
fn heap_of(alloc: Global, shape: HeapShape, plan: &Plan) -> Result<(Heap, List<Pass>), NoMemory>
    requires { plan.now.fuel ≤ most_fuel }
    ensures heap { IfOk result (λ r. r.0.heap ≡ record { shape = shape; start = plan.now.start; biasing = plan.now.biased }) }
    ensures room { IfOk result (λ r. r.0.room ≡ page_room plan.now.fuel) }
    ensures passes { IfOk result (λ r. r.1 ≡ first_passes r.0 (first_limit plan.now.fuel) 0 shape.threads) }
    ensures fresh { IfOk result (λ r. (t : ℕ) → t < shape.threads → IsFresh r.0 t (first_pass r.0 (first_limit plan.now.fuel) t)) }
{
    if plan.fuel == 0 {
        new_heap_without_pages(alloc, shape, plan.start, plan.biased)
    } else {
        new_heap(alloc, shape, plan.fuel, plan.start, plan.biased)
    }
}

// The planned heap, and its passes, which are all at home.
fn begin(alloc: Global, plan: &Plan) -> Result<(Heap, Vec<Pass>), NoMemory>
    requires { IsInLimits plan.now }
    ensures planned { IfOk result (λ r. IsPlanned plan.now r.0) }
    ensures home { IfOk result (λ r. AreAt (IsHome r.0) r.1.items) }
    ensures count { IfOk result (λ r. vec_len r.1 ≡ r.0.heap.shape.threads) }
    ensures few { IfOk result (λ r. r.0.heap.shape.threads ≤ most_threads) }
{
    let objects = plan.classes.len() as u32;
    let shape = HeapShape::of(
        alloc,
        plan.threads,
        plan.slots.as_slice(),
        plan.classes.as_slice(),
        objects,
    )?;
    let (heap, passes) = heap_of(alloc, shape, plan)?;
    Ok((heap, passes.into_vec()))
}

/// The planned heap, with a pass for each thread.
pub fn open(alloc: Global, plan: &Plan) -> Result<Arc<Room, Global>, NoMemory>
    requires { IsInLimits plan.now }
    ensures { IfOk result (λ r. IsPlanned plan.now r.value.heap) }
{
    let (heap, passes) = begin(alloc, plan)?;
    let Ok(passes) = Passes::new(alloc, &heap, passes) else {
        return Err(NoMemory);
    };
    match Arc::new(alloc, Room { heap, passes }) {
        Ok(room) => Ok(room),
        Err(_) => Err(NoMemory),
    }
}

/// The thread's pass, where it is at home.
pub fn seat_of(alloc: Global, room: &Arc<Room, Global>, thread: u32) -> Result<Seat, Outcome>
    ensures seat { SeatOf room.now.value.heap thread result }
    ensures free { IfOk result (λ s. s.free ≡ false) }
{
    let Ok(own) = Arc::try_clone(room) else {
        return Err(Outcome::NoMemory);
    };
    if thread >= own.passes.count() {
        return Err(Outcome::Misused(Misuse::NoThread));
    }
    match own.passes.take(thread) {
        Some(lent) => Ok(Seat {
            room: own,
            lent,
            page: Vec::new(alloc),
            free: false,
        }),
        None => Err(Outcome::Misused(Misuse::PassTaken)),
    }
}
