//! Enters by the shortest way.
ghost use Rattle.std.specs.Prelude.{◌≡◌, true};
ghost use Rattle.core_world.specs.declared.heap_call.HeapCall.TheVariants as task;
ghost use Rattle.heap_table.specs.Quick.{IsFree};
ghost use Rattle.heap_table.specs.Resting.{Rests};
ghost use Rattle.heap_table.specs.declared.quick.QuickEnter.TheVariants as enters;
ghost use Rattle.lock_runtime_c.specs.ByHandle.{Answers};
ghost use Rattle.lock_runtime_c.specs.Rest.{RestsWithin};
ghost use Rattle.lock_runtime_c.specs.declared.inner.Inner.{Inner};
ghost use Rattle.lock_runtime_c.specs.inner.QuickCalls.{AnswersEnter, AnswersWithin, EndsEnter, EntersQuickly, EntersWithin, IsAmidEnter, IsAnswered, IsOpenEnter};

use crate::access::make_by;
use crate::answers::{Answer, answered};
use crate::calls::{EnterCall, make};
use crate::handle::Slot;
use crate::inner::Inner;
use crate::numbers::path_number;
use crate::outcome::{Misuse, Outcome};
use crate::quickly::is_open;
use crate::told::entered;
use core_world::PendingCause;
use heap_table::{Heap, Pass, QuickEnter};
use lock_runtime as runtime;
use plain_monitor::limits::HOLDS;
use std::alloc::Global;

#[inline(always)]
fn enter_quickly(heap: &Heap, pass: &mut Pass, free: bool, object: u32, now: u64) -> QuickEnter
    requires rests { Rests heap.now pass.old }
    requires free { free ≡ true → IsFree pass.old.known }
    ensures { EntersQuickly heap.now pass.old pass.new object now result }
{
    // The room that is left for exits is that of the most holds there may be: so they need not be counted.
    if !is_open(heap, pass, free, object, HOLDS + 3) {
        return QuickEnter::Not;
    }
    heap.enter_at_once(pass, object, now)
}

// The same by what the handle has.
#[inline(always)]
fn enter_within(held: &mut Inner, object: u32, now: u64) -> QuickEnter
    requires { RestsWithin held.old }
    ensures { EntersWithin held.old held.new object now result }
{
    match held {
        Inner::Seat(seat) => enter_quickly(
            &seat.room.heap,
            &mut seat.lent.thing,
            seat.free,
            object,
            now,
        ),
        _ => QuickEnter::Not,
    }
}

#[inline(always)]
fn enter_from_start(heap: &Heap, pass: &mut Pass, object: u32, now: u64) -> Answer
    requires { Rests heap.now pass.old }
    ensures rests { Rests heap.now pass.new }
    ensures answer { IsAnswered heap.now (task.Enter object now) pass.old pass.new result }
{
    answered(make(heap, pass, EnterCall { object, now }))
}

#[inline(always)]
fn enter_from_mark(heap: &Heap, pass: &mut Pass, object: u32, now: u64, mark: u64) -> Answer
    requires { IsOpenEnter heap.now pass.old object now (enters.Unbiased mark) }
    ensures rests { Rests heap.now pass.new }
    ensures answer { AnswersEnter heap.now pass.old pass.new object now (enters.Unbiased mark) result }
{
    let progress = runtime::enter_from_mark(heap, pass, object, now, mark);
    answered(entered(Ok(progress)))
}

#[inline(always)]
fn enter_from_prototype(
    heap: &Heap,
    pass: &mut Pass,
    object: u32,
    now: u64,
    mark: u64,
    prototype: u64,
) -> Answer
    requires { IsOpenEnter heap.now pass.old object now (enters.Biased mark prototype) }
    ensures rests { Rests heap.now pass.new }
    ensures answer { AnswersEnter heap.now pass.old pass.new object now (enters.Biased mark prototype) result }
{
    let progress = runtime::enter_from_prototype(heap, pass, object, now, mark, prototype);
    answered(entered(Ok(progress)))
}

#[inline(always)]
fn enter_from_owner(
    heap: &Heap,
    pass: &mut Pass,
    object: u32,
    now: u64,
    monitor: u32,
    found: u64,
) -> Answer
    requires { IsOpenEnter heap.now pass.old object now (enters.Taken monitor found) }
    ensures rests { Rests heap.now pass.new }
    ensures answer { AnswersEnter heap.now pass.old pass.new object now (enters.Taken monitor found) result }
{
    let progress = runtime::enter_from_owner(heap, pass, object, now, monitor, found);
    answered(entered(Ok(progress)))
}

// Goes on with an enter that came so far, and tells C of it.
#[inline(always)]
fn enter_on(heap: &Heap, pass: &mut Pass, object: u32, now: u64, how: QuickEnter) -> Answer
    requires { IsOpenEnter heap.now pass.old object now how }
    ensures rests { Rests heap.now pass.new }
    ensures answer { AnswersEnter heap.now pass.old pass.new object now how result }
{
    match how {
        QuickEnter::Not => enter_from_start(heap, pass, object, now),
        QuickEnter::Done { path } => Answer {
            kind: 0,
            detail: path_number(path),
            word: 0,
        },
        QuickEnter::Raced { expected, found } => {
            answered(Outcome::Pending(PendingCause::Raced { expected, found }))
        }
        QuickEnter::Unbiased { mark } => enter_from_mark(heap, pass, object, now, mark),
        QuickEnter::Biased { mark, prototype } => {
            enter_from_prototype(heap, pass, object, now, mark, prototype)
        }
        QuickEnter::Taken { monitor, found } => {
            enter_from_owner(heap, pass, object, now, monitor, found)
        }
    }
}

// The same by what the handle has.
#[inline(always)]
fn enter_on_within(held: &mut Inner, object: u32, now: u64, how: QuickEnter) -> Answer
    requires { IsAmidEnter held.old object now how }
    ensures rests { RestsWithin held.new }
    ensures answer { (x : Inner) → EntersWithin x held.old object now how → AnswersWithin x held.new (task.Enter object now) result }
{
    match held {
        Inner::Seat(seat) => {
            let answer = enter_on(&seat.room.heap, &mut seat.lent.thing, object, now, how);
            seat.free = seat.lent.thing.is_free();
            answer
        }
        _ => answered(Outcome::Misused(Misuse::OtherKind)),
    }
}

// Ends an enter that came so far, by what the handle had, and gives it back to it.
#[cold]
#[inline(never)]
fn end_enter(
    alloc: Global,
    at: &mut Slot,
    mut held: Box<Inner>,
    object: u32,
    now: u64,
    how: QuickEnter,
) -> Answer
    requires empty { at.old.live ≡ 0 }
    requires amid { IsAmidEnter held.value object now how }
    ensures { EndsEnter held.value object now how at.new result }
{
    let answer = enter_on_within(&mut *held, object, now, how);
    at.put(alloc, held);
    answer
}

// The functions below that stand out of line have the object and the moment after the place that they answer into, as the export has them after its
// handle: so they stay in their registers.

// An enter that the quick way didn't begin.
#[cold]
#[inline(never)]
fn enter_anew(alloc: Global, object: u32, now: u64, at: &mut Slot) -> Answer
    ensures { Answers at.old at.new (task.Enter object now) result }
{
    answered(make_by(alloc, at, EnterCall { object, now }))
}

// The place of its answer: see `quickly`.
#[inline(always)]
fn enter_slowly(alloc: Global, at: &mut Slot, object: u32, now: u64) -> Answer
    ensures { Answers at.old at.new (task.Enter object now) result }
{
    let answer = enter_anew(alloc, object, now, at);
    answer
}

#[cold]
#[inline(never)]
fn enter_raced(
    alloc: Global,
    object: u32,
    now: u64,
    at: &mut Slot,
    held: Box<Inner>,
    expected: u64,
    found: u64,
) -> Answer
    requires empty { at.old.live ≡ 0 }
    requires amid { IsAmidEnter held.value object now (enters.Raced expected found) }
    ensures { EndsEnter held.value object now (enters.Raced expected found) at.new result }
{
    end_enter(
        alloc,
        at,
        held,
        object,
        now,
        QuickEnter::Raced { expected, found },
    )
}

#[cold]
#[inline(never)]
fn enter_marked(
    alloc: Global,
    object: u32,
    now: u64,
    at: &mut Slot,
    held: Box<Inner>,
    mark: u64,
) -> Answer
    requires empty { at.old.live ≡ 0 }
    requires amid { IsAmidEnter held.value object now (enters.Unbiased mark) }
    ensures { EndsEnter held.value object now (enters.Unbiased mark) at.new result }
{
    end_enter(alloc, at, held, object, now, QuickEnter::Unbiased { mark })
}

#[cold]
#[inline(never)]
fn enter_biased(
    alloc: Global,
    object: u32,
    now: u64,
    at: &mut Slot,
    held: Box<Inner>,
    mark: u64,
    prototype: u64,
) -> Answer
    requires empty { at.old.live ≡ 0 }
    requires amid { IsAmidEnter held.value object now (enters.Biased mark prototype) }
    ensures { EndsEnter held.value object now (enters.Biased mark prototype) at.new result }
{
    end_enter(
        alloc,
        at,
        held,
        object,
        now,
        QuickEnter::Biased { mark, prototype },
    )
}

#[cold]
#[inline(never)]
fn enter_taken(
    alloc: Global,
    object: u32,
    now: u64,
    at: &mut Slot,
    held: Box<Inner>,
    monitor: u32,
    found: u64,
) -> Answer
    requires empty { at.old.live ≡ 0 }
    requires amid { IsAmidEnter held.value object now (enters.Taken monitor found) }
    ensures { EndsEnter held.value object now (enters.Taken monitor found) at.new result }
{
    end_enter(
        alloc,
        at,
        held,
        object,
        now,
        QuickEnter::Taken { monitor, found },
    )
}

// What is left of an enter that the quick way didn't make. The place of the answer: see `quickly`.
#[inline(always)]
fn enter_rarely(
    alloc: Global,
    at: &mut Slot,
    held: Box<Inner>,
    object: u32,
    now: u64,
    how: QuickEnter,
) -> Answer
    requires empty { at.old.live ≡ 0 }
    requires amid { IsAmidEnter held.value object now how }
    ensures { EndsEnter held.value object now how at.new result }
{
    let answer = match how {
        QuickEnter::Raced { expected, found } => {
            enter_raced(alloc, object, now, at, held, expected, found)
        }
        QuickEnter::Unbiased { mark } => enter_marked(alloc, object, now, at, held, mark),
        QuickEnter::Biased { mark, prototype } => {
            enter_biased(alloc, object, now, at, held, mark, prototype)
        }
        QuickEnter::Taken { monitor, found } => {
            enter_taken(alloc, object, now, at, held, monitor, found)
        }
        // Neither comes here: the caller has answered both.
        QuickEnter::Not | QuickEnter::Done { .. } => end_enter(alloc, at, held, object, now, how),
    };
    answer
}

/// Enters the object by the pass that the handle has, and tells C of it. What is done by the quick way answers at once.
#[inline(always)]
pub fn enter_by(alloc: Global, at: &mut Slot, object: u32, now: u64) -> Answer
    ensures { Answers at.old at.new (task.Enter object now) result }
{
    if at.live != 1 {
        return enter_slowly(alloc, at, object, now);
    }
    let mut held = at.handle.lend(alloc);
    match enter_within(&mut *held, object, now) {
        QuickEnter::Done { path } => {
            at.handle.fill(held);
            return Answer {
                kind: 0,
                detail: path_number(path),
                word: 0,
            };
        }
        QuickEnter::Not => {
            at.handle.fill(held);
            enter_slowly(alloc, at, object, now)
        }
        how => {
            at.live = 0;
            enter_rarely(alloc, at, held, object, now, how)
        }
    }
}
