//! Exits by the shortest way.
ghost use Rattle.std.specs.Prelude.{◌≡◌, true};
ghost use Rattle.core_world.specs.declared.heap_call.HeapCall.TheVariants as task;
ghost use Rattle.heap_table.specs.Quick.{IsFree};
ghost use Rattle.heap_table.specs.Resting.{Rests};
ghost use Rattle.heap_table.specs.declared.quick.QuickExit.TheVariants as exits;
ghost use Rattle.lock_runtime_c.specs.ByHandle.{Answers};
ghost use Rattle.lock_runtime_c.specs.Rest.{IsKept, RestsWithin};
ghost use Rattle.lock_runtime_c.specs.declared.inner.Inner.{Inner};
ghost use Rattle.lock_runtime_c.specs.inner.QuickCalls.{AnswersExit, AnswersWithin, EndsExit, ExitsQuickly, ExitsWithin, IsAmidExit, IsAnswered, IsOpenExit};

use crate::access::make_by;
use crate::answers::{Answer, answered};
use crate::calls::{ExitCall, make};
use crate::handle::Slot;
use crate::inner::Inner;
use crate::outcome::{Misuse, Outcome};
use crate::quickly::is_there;
use crate::told::owned;
use core_world::PendingCause;
use heap_table::{Heap, Pass, QuickExit};
use lock_runtime as runtime;
use std::alloc::Global;

// The room for the exit was kept since the enter, so it isn't looked for.
#[inline(always)]
fn exit_quickly(heap: &Heap, pass: &mut Pass, free: bool, object: u32) -> QuickExit
    requires kept { IsKept heap.now pass.old }
    requires free { free ≡ true → IsFree pass.old.known }
    ensures { ExitsQuickly heap.now pass.old pass.new object result }
{
    if !is_there(heap, free, object) {
        return QuickExit::Not;
    }
    heap.exit_at_once(pass, object)
}

// The same by what the handle has.
#[inline(always)]
fn exit_within(held: &mut Inner, object: u32) -> QuickExit
    requires { RestsWithin held.old }
    ensures { ExitsWithin held.old held.new object result }
{
    match held {
        Inner::Seat(seat) => exit_quickly(&seat.room.heap, &mut seat.lent.thing, seat.free, object),
        _ => QuickExit::Not,
    }
}

#[inline(always)]
fn exit_from_start(heap: &Heap, pass: &mut Pass, object: u32) -> Answer
    requires { Rests heap.now pass.old }
    ensures rests { Rests heap.now pass.new }
    ensures answer { IsAnswered heap.now (task.Exit object) pass.old pass.new result }
{
    answered(make(heap, pass, ExitCall { object }))
}

#[inline(always)]
fn exit_from_owner(
    heap: &Heap,
    pass: &mut Pass,
    object: u32,
    monitor: u32,
    owner: u64,
    place: u32,
) -> Answer
    requires { IsOpenExit heap.now pass.old object (exits.Owned monitor owner place) }
    ensures rests { Rests heap.now pass.new }
    ensures answer { AnswersExit heap.now pass.old pass.new object (exits.Owned monitor owner place) result }
{
    let progress = runtime::exit_from_owner(heap, pass, object, monitor, owner, place);
    answered(owned(Ok(progress)))
}

// Goes on with an exit that came so far, and tells C of it.
#[inline(always)]
fn exit_on(heap: &Heap, pass: &mut Pass, object: u32, how: QuickExit) -> Answer
    requires { IsOpenExit heap.now pass.old object how }
    ensures rests { Rests heap.now pass.new }
    ensures answer { AnswersExit heap.now pass.old pass.new object how result }
{
    match how {
        QuickExit::Not => exit_from_start(heap, pass, object),
        QuickExit::Left => Answer {
            kind: 0,
            detail: 0,
            word: 0,
        },
        QuickExit::Inflating => answered(Outcome::Pending(PendingCause::Inflating)),
        QuickExit::Raced { expected, found } => {
            answered(Outcome::Pending(PendingCause::Raced { expected, found }))
        }
        QuickExit::Owned {
            monitor,
            owner,
            place,
        } => exit_from_owner(heap, pass, object, monitor, owner, place),
    }
}

// The same by what the handle has.
#[inline(always)]
fn exit_on_within(held: &mut Inner, object: u32, how: QuickExit) -> Answer
    requires { IsAmidExit held.old object how }
    ensures rests { RestsWithin held.new }
    ensures answer { (x : Inner) → ExitsWithin x held.old object how → AnswersWithin x held.new (task.Exit object) result }
{
    match held {
        Inner::Seat(seat) => {
            let answer = exit_on(&seat.room.heap, &mut seat.lent.thing, object, how);
            seat.free = seat.lent.thing.is_free();
            answer
        }
        _ => answered(Outcome::Misused(Misuse::OtherKind)),
    }
}

// Ends an exit that came so far, by what the handle had, and gives it back to it.
#[cold]
#[inline(never)]
fn end_exit(
    alloc: Global,
    at: &mut Slot,
    mut held: Box<Inner>,
    object: u32,
    how: QuickExit,
) -> Answer
    requires empty { at.old.live ≡ 0 }
    requires amid { IsAmidExit held.value object how }
    ensures { EndsExit held.value object how at.new result }
{
    let answer = exit_on_within(&mut *held, object, how);
    at.put(alloc, held);
    answer
}

// The functions below that stand out of line have the object after the place that they answer into, as the export has it after its handle: so it stays
// in its register.

// An exit that the quick way didn't begin.
#[cold]
#[inline(never)]
fn exit_anew(alloc: Global, object: u32, at: &mut Slot) -> Answer
    ensures { Answers at.old at.new (task.Exit object) result }
{
    answered(make_by(alloc, at, ExitCall { object }))
}

// The place of its answer: see `quickly`.
#[inline(always)]
fn exit_slowly(alloc: Global, at: &mut Slot, object: u32) -> Answer
    ensures { Answers at.old at.new (task.Exit object) result }
{
    let answer = exit_anew(alloc, object, at);
    answer
}

#[cold]
#[inline(never)]
fn exit_inflating(alloc: Global, object: u32, at: &mut Slot, held: Box<Inner>) -> Answer
    requires empty { at.old.live ≡ 0 }
    requires amid { IsAmidExit held.value object exits.Inflating }
    ensures { EndsExit held.value object exits.Inflating at.new result }
{
    end_exit(alloc, at, held, object, QuickExit::Inflating)
}

#[cold]
#[inline(never)]
fn exit_raced(
    alloc: Global,
    object: u32,
    at: &mut Slot,
    held: Box<Inner>,
    expected: u64,
    found: u64,
) -> Answer
    requires empty { at.old.live ≡ 0 }
    requires amid { IsAmidExit held.value object (exits.Raced expected found) }
    ensures { EndsExit held.value object (exits.Raced expected found) at.new result }
{
    end_exit(
        alloc,
        at,
        held,
        object,
        QuickExit::Raced { expected, found },
    )
}

#[cold]
#[inline(never)]
fn exit_owned(
    alloc: Global,
    object: u32,
    at: &mut Slot,
    held: Box<Inner>,
    monitor: u32,
    owner: u64,
    place: u32,
) -> Answer
    requires empty { at.old.live ≡ 0 }
    requires amid { IsAmidExit held.value object (exits.Owned monitor owner place) }
    ensures { EndsExit held.value object (exits.Owned monitor owner place) at.new result }
{
    let how = QuickExit::Owned {
        monitor,
        owner,
        place,
    };
    end_exit(alloc, at, held, object, how)
}

// What is left of an exit that the quick way didn't make. The place of the answer: see `quickly`.
#[inline(always)]
fn exit_rarely(
    alloc: Global,
    at: &mut Slot,
    held: Box<Inner>,
    object: u32,
    how: QuickExit,
) -> Answer
    requires empty { at.old.live ≡ 0 }
    requires amid { IsAmidExit held.value object how }
    ensures { EndsExit held.value object how at.new result }
{
    let answer = match how {
        QuickExit::Inflating => exit_inflating(alloc, object, at, held),
        QuickExit::Raced { expected, found } => {
            exit_raced(alloc, object, at, held, expected, found)
        }
        QuickExit::Owned {
            monitor,
            owner,
            place,
        } => exit_owned(alloc, object, at, held, monitor, owner, place),
        // Neither comes here: the caller has answered both.
        QuickExit::Not | QuickExit::Left => end_exit(alloc, at, held, object, how),
    };
    answer
}

/// Leaves the newest hold of the object by the pass that the handle has, and tells C of it. What is done by the quick way answers at once.
#[inline(always)]
pub fn exit_by(alloc: Global, at: &mut Slot, object: u32) -> Answer
    ensures { Answers at.old at.new (task.Exit object) result }
{
    if at.live != 1 {
        return exit_slowly(alloc, at, object);
    }
    let mut held = at.handle.lend(alloc);
    match exit_within(&mut *held, object) {
        QuickExit::Left => {
            at.handle.fill(held);
            return Answer {
                kind: 0,
                detail: 0,
                word: 0,
            };
        }
        QuickExit::Not => {
            at.handle.fill(held);
            exit_slowly(alloc, at, object)
        }
        how => {
            at.live = 0;
            exit_rarely(alloc, at, held, object, how)
        }
    }
}
