//! What a handle has, for the time of a call.
ghost use Rattle.std.specs.Prelude.{◌≡◌};
ghost use Rattle.lock_runtime_c.specs.ByHandle.{ByHandle, Within};
ghost use Rattle.lock_runtime_c.specs.Rest.{RestsWithin};

use crate::calls::{PassCall, make};
use crate::handle::Slot;
use crate::inner::Inner;
use crate::outcome::{Misuse, Outcome};
use std::alloc::Global;

// The call, by what the handle has.
#[inline(always)]
fn make_within<C: PassCall>(held: &mut Inner, call: C) -> Outcome
    requires { RestsWithin held.old }
    ensures rests { RestsWithin held.new }
    ensures told { Within held.old held.new (C.task call) result }
{
    match held {
        Inner::Seat(seat) => {
            let outcome = make(&seat.room.heap, &mut seat.lent.thing, call);
            seat.free = seat.lent.thing.is_free();
            outcome
        }
        _ => Outcome::Misused(Misuse::OtherKind),
    }
}

/// Makes the call by the pass that the handle has.
#[inline(always)]
pub fn make_by<C: PassCall>(alloc: Global, at: &mut Slot, call: C) -> Outcome
    ensures { ByHandle at.old at.new (C.task call) result }
{
    let Some(mut held) = at.take(alloc) else {
        return Outcome::Misused(Misuse::Empty);
    };
    let outcome = make_within(&mut *held, call);
    at.put(alloc, held);
    outcome
}
