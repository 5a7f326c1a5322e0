//! How heaps are planned and opened, and how threads get their passes, for C.
ghost use Rattle.std.specs.Prelude.{◌≡◌};
ghost use Rattle.lock_runtime_c.specs.ByHandle.{AnswersOf, ByHandleOf};
ghost use Rattle.lock_runtime_c.specs.Numbers.{answered};
ghost use Rattle.lock_runtime_c.specs.Opening.{GivesPass, Opens, PassBy, PassOf};
ghost use Rattle.lock_runtime_c.specs.Planning as planning;
ghost use Rattle.lock_runtime_c.specs.Rest.{RestsWithin};
ghost use Rattle.lock_runtime_c.specs.declared.inner.Inner.TheVariants as inner;
ghost use Rattle.lock_runtime_c.specs.declared.outcome.Misuse.TheVariants.{Empty};
ghost use Rattle.lock_runtime_c.specs.declared.outcome.Outcome.TheVariants.{Misused};

use crate::answers::{Answer, answered};
use crate::handle::Slot;
use crate::inner::{Inner, Room};
use crate::opens::{open, seat_of};
use crate::outcome::{Misuse, Outcome, Said};
use crate::plans::{add_class, add_object, begin, begin_reason};
use std::alloc::Global;
use std::sync::Arc;

// That C may give a handle to another thread: what lies behind it may cross.
fn crosses<T: Send>(held: T) -> T
    ensures { result ≡ held }
{
    held
}

// Gives the handle, which is empty, this.
fn fill(alloc: Global, out: &mut Slot, held: Inner) -> Outcome
    requires empty { out.old.live ≡ 0 }
    requires rests { RestsWithin held }
    ensures { planning.Fills (λ x. x ≡ held) out.old out.new result }
{
    match Box::new(alloc, crosses(held)) {
        Ok(held) => {
            out.put(alloc, held);
            Outcome::Done(Said::Nothing)
        }
        Err(_) => Outcome::NoMemory,
    }
}

// Why no plan is begun.
fn not_begun(out: &Slot, threads: u32, entries: u32) -> Option<Misuse>
    ensures { result ≡ planning.or_taken out.now (planning.begin_reason threads entries) }
{
    if out.is_live() {
        return Some(Misuse::Taken);
    }
    begin_reason(threads, entries)
}

/// A plan of a heap of so many threads, whose logs have room for so many entries besides the last ones.
#[unsafe(no_mangle)]
pub extern "C" fn biasrun_begin(
    alloc: Global,
    out: &mut Slot,
    threads: u32,
    entries: u32,
    hash_start: u32,
    biased: bool,
) -> Answer
    ensures { planning.Begins threads entries hash_start biased out.old out.new result }
{
    if let Some(why) = not_begun(out, threads, entries) {
        return answered(Outcome::Misused(why));
    }
    let plan = begin(alloc, threads, entries, hash_start, biased);
    answered(fill(alloc, out, Inner::Plan(plan)))
}

fn class_within(held: &mut Inner, slots: u32) -> Answer
    requires { RestsWithin held.old }
    ensures rests { RestsWithin held.new }
    ensures class { planning.OfPlan (λ p q a. planning.GetsClass p q slots a) held.old held.new result }
{
    match held {
        Inner::Plan(plan) => add_class(plan, slots),
        _ => answered(Outcome::Misused(Misuse::OtherKind)),
    }
}

/// One more class, whose objects have so many slots.
#[unsafe(no_mangle)]
pub extern "C" fn biasrun_add_class(alloc: Global, at: &mut Slot, slots: u32) -> Answer
    ensures { ByHandleOf (λ x y a. planning.OfPlan (λ p q b. planning.GetsClass p q slots b) x y a)
        (answered (Misused Empty)) at.old at.new result }
{
    let Some(mut held) = at.take(alloc) else {
        return answered(Outcome::Misused(Misuse::Empty));
    };
    let answer = class_within(&mut *held, slots);
    at.put(alloc, held);
    answer
}

fn object_within(held: &mut Inner, class: u32) -> Answer
    requires { RestsWithin held.old }
    ensures rests { RestsWithin held.new }
    ensures object { planning.OfPlan (λ p q a. planning.GetsObject p q class a) held.old held.new result }
{
    match held {
        Inner::Plan(plan) => add_object(plan, class),
        _ => answered(Outcome::Misused(Misuse::OtherKind)),
    }
}

/// One more object, of this class.
#[unsafe(no_mangle)]
pub extern "C" fn biasrun_add_object(alloc: Global, at: &mut Slot, class: u32) -> Answer
    ensures { ByHandleOf (λ x y a. planning.OfPlan (λ p q b. planning.GetsObject p q class b) x y a)
        (answered (Misused Empty)) at.old at.new result }
{
    let Some(mut held) = at.take(alloc) else {
        return answered(Outcome::Misused(Misuse::Empty));
    };
    let answer = object_within(&mut *held, class);
    at.put(alloc, held);
    answer
}

// A plan becomes the heap that was planned.
fn open_within(alloc: Global, held: &mut Inner) -> Outcome
    requires { RestsWithin held.old }
    ensures rests { RestsWithin held.new }
    ensures opens { Opens held.old held.new result }
{
    let Inner::Plan(plan) = held else {
        return Outcome::Misused(Misuse::OtherKind);
    };
    match open(alloc, plan) {
        Ok(room) => {
            *held = Inner::Room(room);
            Outcome::Done(Said::Nothing)
        }
        Err(_) => Outcome::NoMemory,
    }
}

fn open_by(alloc: Global, at: &mut Slot) -> Outcome
    ensures { ByHandleOf Opens (Misused Empty) at.old at.new result }
{
    let Some(mut held) = at.take(alloc) else {
        return Outcome::Misused(Misuse::Empty);
    };
    let outcome = open_within(alloc, &mut *held);
    at.put(alloc, held);
    outcome
}

/// The planned heap, in place of its plan.
#[unsafe(no_mangle)]
pub extern "C" fn biasrun_open(alloc: Global, at: &mut Slot) -> Answer
    ensures { AnswersOf Opens at.old at.new result }
{
    answered(open_by(alloc, at))
}

// Gives the handle, which is empty, the thread's pass. Its box is made first, so that no pass is taken that can't be handed out.
fn fill_seat(alloc: Global, room: &Arc<Room, Global>, thread: u32, out: &mut Slot) -> Outcome
    requires { out.old.live ≡ 0 }
    ensures { GivesPass (inner.Room room.now) thread out.old out.new result }
{
    let Ok(mut held) = Box::new(alloc, crosses(Inner::Gone)) else {
        return Outcome::NoMemory;
    };
    match seat_of(alloc, room, thread) {
        Ok(seat) => {
            *held = Inner::Seat(seat);
            out.put(alloc, held);
            Outcome::Done(Said::Nothing)
        }
        Err(outcome) => outcome,
    }
}

fn pass_within(alloc: Global, held: &Inner, thread: u32, out: &mut Slot) -> Outcome
    requires { out.old.live ≡ 0 }
    ensures { GivesPass held.now thread out.old out.new result }
{
    match held {
        Inner::Room(room) => fill_seat(alloc, room, thread, out),
        _ => Outcome::Misused(Misuse::OtherKind),
    }
}

fn pass_by(alloc: Global, at: &mut Slot, thread: u32, out: &mut Slot) -> Outcome
    requires { out.old.live ≡ 0 }
    ensures { PassBy thread at.old at.new out.old out.new result }
{
    let Some(held) = at.take(alloc) else {
        return Outcome::Misused(Misuse::Empty);
    };
    let outcome = pass_within(alloc, &*held, thread, out);
    at.put(alloc, held);
    outcome
}

/// The thread's pass.
#[unsafe(no_mangle)]
pub extern "C" fn biasrun_pass(alloc: Global, at: &mut Slot, thread: u32, out: &mut Slot) -> Answer
    ensures { PassOf thread at.old at.new out.old out.new result }
{
    if out.is_live() {
        return answered(Outcome::Misused(Misuse::Taken));
    }
    answered(pass_by(alloc, at, thread, out))
}
