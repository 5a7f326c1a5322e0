//! How passes and heaps are given back, and how a heap is closed, for C.
ghost use Rattle.std.specs.Prelude.{◌≡◌, ◌≤◌, [], IfErr, IfOk, None, vec_capacity};
ghost use Rattle.lock_runtime_c.specs.ByHandle.{AnswersOf, ByHandleOf};
ghost use Rattle.lock_runtime_c.specs.Leaving.{Empties, leave_reason, not_freed, not_left};
ghost use Rattle.lock_runtime_c.specs.Closing.{Closes, ClosesHeap, IsLeftOf};
ghost use Rattle.lock_runtime_c.specs.Rest.{IsAtRest, IsHome, RestsWithin};
ghost use Rattle.lock_runtime_c.specs.inner.Parting.{MayLeave};
ghost use Rattle.lock_runtime_c.specs.declared.inner.Inner.TheVariants as inner;
ghost use Rattle.lock_runtime_c.specs.declared.outcome.Misuse.TheVariants as misuse;
ghost use Rattle.lock_runtime_c.specs.declared.outcome.Outcome.TheVariants.{Misused};

use crate::answers::{Answer, answered};
use crate::handle::Slot;
use crate::inner::{Inner, Room, Seat};
use crate::outcome::{Misuse, Outcome, Said};
use heap_table::{Closed, Pass, close};
use plain_monitor::List;
use std::alloc::Global;
use std::mem;
use std::sync::Arc;

// Why the pass may not be given back. That of a halted run may, whatever its thread holds.
fn may_not_leave(seat: &Seat) -> Option<Misuse>
    requires { IsAtRest seat.now }
    ensures why { result ≡ leave_reason seat.now.lent.thing }
    ensures home { result ≡ None → IsHome seat.now.room.value.heap seat.now.lent.place seat.now.lent.thing }
{
    let pass = &seat.lent.thing;
    if pass.running() {
        return Some(Misuse::IsRunning);
    }
    if pass.halted() {
        return None;
    }
    if pass.requesting() {
        return Some(Misuse::IsAsking);
    }
    if let Some(left) = pass.unfinished() {
        return Some(Misuse::IsUnfinished(left.op));
    }
    if pass.holds() != 0 {
        return Some(Misuse::IsHolding);
    }
    None
}

fn may_not_go(held: &Inner) -> Option<Misuse>
    requires { RestsWithin held.now }
    ensures why { result ≡ not_left held.now }
    ensures home { result ≡ None → MayLeave held.now }
{
    match held {
        Inner::Seat(seat) => may_not_leave(seat),
        _ => Some(Misuse::OtherKind),
    }
}

// The pass goes home.
fn go_home(held: Inner)
    requires { MayLeave held }
{
    match held {
        Inner::Seat(seat) => {
            let Seat { room, lent, .. } = seat;
            room.passes.give(lent);
        }
        _ => {}
    }
}

/// Gives the thread's pass back. Its handle is empty then.
#[unsafe(no_mangle)]
pub extern "C" fn biasrun_leave(alloc: Global, at: &mut Slot) -> Answer
    ensures { Empties not_left at.old at.new result }
{
    let Some(held) = at.take(alloc) else {
        return answered(Outcome::Misused(Misuse::Empty));
    };
    match may_not_go(&*held) {
        Some(why) => {
            at.put(alloc, held);
            answered(Outcome::Misused(why))
        }
        None => {
            go_home(Box::into_inner(held));
            answered(Outcome::Done(Said::Nothing))
        }
    }
}

// What is left of a heap that nobody else has, where all its passes are at home.
fn close_room(room: Room, things: Vec<Pass>) -> Result<Closed, Misuse>
    requires empty { things.items ≡ [] }
    requires space { room.passes.table.shared.table_id.slots ≤ vec_capacity things }
    ensures left { IfOk result (IsLeftOf room.heap) }
    ensures lost { IfErr result (λ e. e ≡ misuse.PassLost) }
{
    let Room { heap, passes } = room;
    match passes.end(things) {
        Ok(passes) => Ok(close(heap, List::of(passes))),
        Err(_) => Err(Misuse::PassLost),
    }
}

// Closes a heap, where no thread has a pass of it. `held` gets what is left, or the heap where it isn't closed.
fn close_shared(alloc: Global, room: Arc<Room, Global>, held: &mut Inner) -> Outcome
    ensures rests { RestsWithin held.new }
    ensures closed { ClosesHeap room.value.heap (inner.Room room) held.new result }
{
    let Ok(things) = Vec::with_capacity(alloc, room.passes.count() as usize) else {
        *held = Inner::Room(room);
        return Outcome::NoMemory;
    };
    match Arc::try_unwrap(room) {
        Ok(own) => match close_room(own, things) {
            Ok(closed) => {
                *held = Inner::Closed(closed);
                Outcome::Done(Said::Nothing)
            }
            Err(misuse) => {
                *held = Inner::Gone;
                Outcome::Misused(misuse)
            }
        },
        Err(shared) => {
            *held = Inner::Room(shared);
            Outcome::Misused(Misuse::InUse)
        }
    }
}

fn close_within(alloc: Global, held: &mut Inner) -> Outcome
    requires { RestsWithin held.old }
    ensures rests { RestsWithin held.new }
    ensures closed { Closes held.old held.new result }
{
    match mem::replace(held, Inner::Gone) {
        Inner::Room(room) => close_shared(alloc, room, held),
        other => {
            *held = other;
            Outcome::Misused(Misuse::OtherKind)
        }
    }
}

fn close_by(alloc: Global, at: &mut Slot) -> Outcome
    ensures { ByHandleOf Closes (Misused misuse.Empty) at.old at.new result }
{
    let Some(mut held) = at.take(alloc) else {
        return Outcome::Misused(Misuse::Empty);
    };
    let outcome = close_within(alloc, &mut *held);
    at.put(alloc, held);
    outcome
}

/// Closes the heap, where no thread has a pass of it any more. What is left of it takes its place.
#[unsafe(no_mangle)]
pub extern "C" fn biasrun_close(alloc: Global, at: &mut Slot) -> Answer
    ensures { AnswersOf Closes at.old at.new result }
{
    answered(close_by(alloc, at))
}

fn may_not_be_freed(held: &Inner) -> Option<Misuse>
    ensures { result ≡ not_freed held.now }
{
    match held {
        Inner::Seat(_) => Some(Misuse::OtherKind),
        _ => None,
    }
}

/// Gives back what the handle has, but for a pass. Its handle is empty then. Passes that were taken stay.
#[unsafe(no_mangle)]
pub extern "C" fn biasrun_free(alloc: Global, at: &mut Slot) -> Answer
    ensures { Empties not_freed at.old at.new result }
{
    let Some(held) = at.take(alloc) else {
        return answered(Outcome::Misused(Misuse::Empty));
    };
    match may_not_be_freed(&*held) {
        Some(why) => {
            at.put(alloc, held);
            answered(Outcome::Misused(why))
        }
        None => answered(Outcome::Done(Said::Nothing)),
    }
}
