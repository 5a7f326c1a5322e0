//! Polls by the shortest way.
ghost use Rattle.std.specs.Prelude.{◌≡◌};
ghost use Rattle.core_world.specs.declared.answer.PendingCause.TheVariants as why;
ghost use Rattle.core_world.specs.declared.heap_call.HeapCall.TheVariants as task;
ghost use Rattle.lock_runtime_c.specs.ByHandle.{Answers};
ghost use Rattle.lock_runtime_c.specs.Numbers.{answered};
ghost use Rattle.lock_runtime_c.specs.Rest.{RestsWithin};
ghost use Rattle.lock_runtime_c.specs.declared.outcome.Outcome.TheVariants.{Pending};
ghost use Rattle.lock_runtime_c.specs.inner.QuickCalls.{PollsWithin};

use crate::access::make_by;
use crate::answers::{Answer, answered};
use crate::calls::PollCall;
use crate::handle::Slot;
use crate::inner::Inner;
use crate::outcome::Outcome;
use core_world::{PendingCause, Progress};
use lock_runtime as runtime;
use std::alloc::Global;

// Looks whether another thread asks for a safepoint, where the handle has a pass whose thread runs.
#[inline(always)]
fn poll_within(held: &mut Inner) -> Option<Progress<()>>
    requires { RestsWithin held.old }
    ensures { PollsWithin held.old held.new result }
{
    let Inner::Seat(seat) = held else {
        return None;
    };
    if !seat.lent.thing.running() {
        return None;
    }
    Some(runtime::poll(&seat.room.heap, &mut seat.lent.thing))
}

// A poll is pending, since the safepoint word has a requester.
#[cold]
#[inline(never)]
fn requested(word: u64) -> Answer
    ensures { result ≡ answered (Pending (why.Requested word)) }
{
    answered(Outcome::Pending(PendingCause::Requested { word }))
}

// A poll is pending for any other cause.
#[cold]
#[inline(never)]
fn pended_otherwise(cause: PendingCause) -> Answer
    ensures { result ≡ answered (Pending cause) }
{
    answered(Outcome::Pending(cause))
}

// A poll is pending, for this cause. The place of the answer: see `quickly`.
#[inline(always)]
fn pended(cause: PendingCause) -> Answer
    ensures { result ≡ answered (Pending cause) }
{
    let answer = match cause {
        PendingCause::Requested { word } => requested(word),
        other => pended_otherwise(other),
    };
    answer
}

#[cold]
#[inline(never)]
fn poll_anew(alloc: Global, at: &mut Slot) -> Answer
    ensures { Answers at.old at.new task.Poll result }
{
    answered(make_by(alloc, at, PollCall))
}

// The place of its answer: see `quickly`.
#[inline(always)]
fn poll_slowly(alloc: Global, at: &mut Slot) -> Answer
    ensures { Answers at.old at.new task.Poll result }
{
    let answer = poll_anew(alloc, at);
    answer
}

/// Looks by the pass that the handle has whether another thread asks for a safepoint, and tells C of it.
#[inline(always)]
pub fn poll_by(alloc: Global, at: &mut Slot) -> Answer
    ensures { Answers at.old at.new task.Poll result }
{
    if at.live != 1 {
        return poll_slowly(alloc, at);
    }
    let mut held = at.handle.lend(alloc);
    let told = poll_within(&mut *held);
    at.handle.fill(held);
    match told {
        Some(Progress::Done(())) => {
            return Answer {
                kind: 0,
                detail: 0,
                word: 0,
            };
        }
        Some(Progress::Pending(cause)) => pended(cause),
        None => poll_slowly(alloc, at),
    }
}
