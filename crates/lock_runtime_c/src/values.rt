//! The calls on a pass that have a value, for C.
ghost use Rattle.std.specs.Prelude.{◌≡◌};
ghost use Rattle.core_world.specs.declared.heap_call.HeapCall.TheVariants.{Get, Put};
ghost use Rattle.lock_runtime_c.specs.ByHandle.{Answers};
ghost use Rattle.lock_runtime_c.specs.OfValues.{Finds, Gives, PrintOf, PutOf};
ghost use Rattle.lock_runtime_c.specs.Rest.{RestsWithin};
ghost use Rattle.lock_runtime_c.specs.inner.QuickCalls.{CallsWithin};

use crate::access::make_by;
use crate::answers::{Answer, answered};
use crate::calls::{GetCall, PutCall, get, put};
use crate::handle::Slot;
use crate::inner::Inner;
use crate::numbers::{Cell, cell_of, value_of};
use crate::outcome::{Misuse, Outcome, Said};
use crate::quickly::is_open;
use crate::reasons::{of_put, of_slot};
use core_world::HeapCall;
use plain_monitor::Value;
use plain_monitor::limits::HOLDS;
use std::alloc::Global;

// What was read, where something was.
fn read_of(outcome: Outcome, before: Cell) -> Cell
    ensures { Finds outcome before result }
{
    match outcome {
        Outcome::Done(Said::Read(value)) => cell_of(value),
        _ => before,
    }
}

// A get by the handle's pass, where it is plain that it may begin.
#[inline(always)]
fn get_within(held: &mut Inner, object: u32, slot: u32) -> Option<Outcome>
    requires { RestsWithin held.old }
    ensures { CallsWithin held.old held.new (Get object slot) result }
{
    let Inner::Seat(seat) = held else {
        return None;
    };
    let heap = &seat.room.heap;
    if !is_open(heap, &seat.lent.thing, seat.free, object, HOLDS + 2) {
        return None;
    }
    let None = of_slot(heap, object, slot) else {
        return None;
    };
    Some(get(heap, &mut seat.lent.thing, object, slot))
}

#[cold]
#[inline(never)]
fn get_anew(alloc: Global, at: &mut Slot, object: u32, slot: u32, out: &mut Cell) -> Answer
    ensures { Gives at.old at.new (Get object slot) out.old out.new result }
{
    let outcome = make_by(alloc, at, GetCall { object, slot });
    *out = read_of(outcome, *out);
    answered(outcome)
}

// The place of its answer: see `quickly`.
#[inline(always)]
fn get_slowly(alloc: Global, at: &mut Slot, object: u32, slot: u32, out: &mut Cell) -> Answer
    ensures { Gives at.old at.new (Get object slot) out.old out.new result }
{
    let answer = get_anew(alloc, at, object, slot, out);
    answer
}

/// `out` is as it was where nothing was read.
#[unsafe(no_mangle)]
pub extern "C" fn biasrun_get(
    alloc: Global,
    at: &mut Slot,
    object: u32,
    slot: u32,
    out: &mut Cell,
) -> Answer
    ensures { Gives at.old at.new (Get object slot) out.old out.new result }
{
    if at.live != 1 {
        return get_slowly(alloc, at, object, slot, out);
    }
    let mut held = at.handle.lend(alloc);
    let told = get_within(&mut *held, object, slot);
    at.handle.fill(held);
    match told {
        Some(outcome) => {
            *out = read_of(outcome, *out);
            answered(outcome)
        }
        None => get_slowly(alloc, at, object, slot, out),
    }
}

// A put by the handle's pass, where it is plain that it may begin.
#[inline(always)]
fn put_within(held: &mut Inner, object: u32, slot: u32, value: Value) -> Option<Outcome>
    requires { RestsWithin held.old }
    ensures { CallsWithin held.old held.new (Put object slot value) result }
{
    let Inner::Seat(seat) = held else {
        return None;
    };
    let heap = &seat.room.heap;
    if !is_open(heap, &seat.lent.thing, seat.free, object, HOLDS + 2) {
        return None;
    }
    let None = of_put(heap, object, slot, value) else {
        return None;
    };
    Some(put(heap, &mut seat.lent.thing, object, slot, value))
}

#[cold]
#[inline(never)]
fn put_anew(alloc: Global, at: &mut Slot, object: u32, slot: u32, value: Value) -> Answer
    ensures { Answers at.old at.new (Put object slot value) result }
{
    let call = PutCall {
        object,
        slot,
        value,
    };
    answered(make_by(alloc, at, call))
}

// The place of its answer: see `quickly`.
#[inline(always)]
fn put_slowly(alloc: Global, at: &mut Slot, object: u32, slot: u32, value: Value) -> Answer
    ensures { Answers at.old at.new (Put object slot value) result }
{
    let answer = put_anew(alloc, at, object, slot, value);
    answer
}

#[inline(always)]
fn put_by(alloc: Global, at: &mut Slot, object: u32, slot: u32, value: Value) -> Answer
    ensures { Answers at.old at.new (Put object slot value) result }
{
    if at.live != 1 {
        return put_slowly(alloc, at, object, slot, value);
    }
    let mut held = at.handle.lend(alloc);
    let told = put_within(&mut *held, object, slot, value);
    at.handle.fill(held);
    match told {
        Some(outcome) => answered(outcome),
        None => put_slowly(alloc, at, object, slot, value),
    }
}

#[unsafe(no_mangle)]
pub extern "C" fn biasrun_put(
    alloc: Global,
    at: &mut Slot,
    object: u32,
    slot: u32,
    value: Cell,
) -> Answer
    ensures { PutOf value at.old at.new object slot result }
{
    match value_of(value) {
        Some(value) => put_by(alloc, at, object, slot, value),
        None => answered(Outcome::Misused(Misuse::NoValue)),
    }
}

#[unsafe(no_mangle)]
pub extern "C" fn biasrun_print(alloc: Global, at: &mut Slot, value: Cell) -> Answer
    ensures { PrintOf value at.old at.new result }
{
    match value_of(value) {
        Some(value) => answered(make_by(alloc, at, HeapCall::Print { value })),
        None => answered(Outcome::Misused(Misuse::NoValue)),
    }
}
