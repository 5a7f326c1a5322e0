//! The revocation of one bias.
ghost use Rattle.std.specs.Prelude.{◌≡◌, ◌<◌, ◌++◌, ◌==◌, [], ◌∷◌, length, false, Some};
ghost use Rattle.mark_word.specs.declared.mark.MarkForm.TheVariants.{Locked, Biased};
ghost use Rattle.mark_word.specs.Mark.{mark_of};
ghost use Rattle.core_world.specs.Clauses.WordForms.{IsMark};
ghost use Rattle.core_world.specs.Trees.RevocationSteps.{revoke_at, revoke_steps};
ghost use Rattle.heap_table.specs.Parts.{IsDueOn, HasMadeSteps};
ghost use Rattle.heap_table.specs.Seen.{IsOf};
ghost use Rattle.safepoint_work.specs.inner.RevokeParts.{holds_steps, record_steps, locked_steps};

use crate::revocation::Revocation;
use crate::steps::{look, store_one};
use crate::words::{first_place, free_mark, held_of};
use core_world::WordId;
use heap_table::{CallContext, Heap, PLACES, Pass, mark_of_word, names};
use mark_word::{HoldForm, MarkForm, encode, encode_hold};

// The hold words of the thread.
fn load_holds(
    heap: &Heap,
    pass: &mut Pass,
    call: &CallContext,
    revocation: &Revocation,
    thread: u32,
) -> [u64; PLACES]
    requires heap { IsOf heap.now pass.old }
    requires due { IsDueOn heap.now pass.old call.now.task (holds_steps call.now revocation.now thread) }
    ensures { HasMadeSteps heap.now (holds_steps call.now revocation.now thread) pass.old pass.new result }
{
    let mut holds = [0; PLACES];
    for i in 0..PLACES {
        let place = i as u32;
        holds[i] = look(heap, pass, call, revocation, WordId::Hold { thread, place });
    }
    holds
}

// The displaced word of the thread's record with this hold word, where it is one of the object: the first record has
// the neutral header, and each other one 0.
fn store_record(
    heap: &Heap,
    pass: &mut Pass,
    call: &CallContext,
    revocation: &Revocation,
    object: u32,
    thread: u32,
    place: u32,
    hold: u64,
)
    requires heap { IsOf heap.now pass.old }
    requires object { object < length heap.now.heap.shape.objects }
    requires due { IsDueOn heap.now pass.old call.now.task
        (record_steps call.now revocation.now object thread place hold) }
    ensures { HasMadeSteps heap.now (record_steps call.now revocation.now object thread place hold)
        pass.old pass.new result }
{
    if names(object, hold) {
        let first = encode_hold(&HoldForm::Holds { object, depth: 1 });
        let header = if hold == first { 1 } else { 0 };
        store_one(
            heap,
            pass,
            call,
            revocation,
            WordId::Displaced { thread, place },
            header,
        );
        return;
    }
}

// The object becomes locked by the first of the thread's records of it.
fn lock_by_records(
    heap: &Heap,
    pass: &mut Pass,
    call: &CallContext,
    revocation: &Revocation,
    object: u32,
    thread: u32,
    holds: &[u64; PLACES],
)
    requires heap { IsOf heap.now pass.old }
    requires object { object < length heap.now.heap.shape.objects }
    requires thread { thread < heap.now.heap.shape.threads }
    requires due { IsDueOn heap.now pass.old call.now.task
        (locked_steps call.now revocation.now object thread holds.now) }
    ensures { HasMadeSteps heap.now (locked_steps call.now revocation.now object thread holds.now)
        pass.old pass.new result }
{
    for i in 0..PLACES {
        let place = i as u32;
        store_record(
            heap, pass, call, revocation, object, thread, place, holds[i],
        );
    }
    let place = first_place(holds, object);
    let mark = encode(&MarkForm::Locked { thread, place });
    store_one(heap, pass, call, revocation, WordId::Mark { object }, mark);
}

// The object is biased to the thread.
fn revoke_biased(
    heap: &Heap,
    pass: &mut Pass,
    call: &CallContext,
    revocation: &Revocation,
    object: u32,
    thread: u32,
    allowed: bool,
)
    requires heap { IsOf heap.now pass.old }
    requires object { object < length heap.now.heap.shape.objects }
    requires thread { thread < heap.now.heap.shape.threads }
    requires due { IsDueOn heap.now pass.old call.now.task
        (revoke_at (Some (Biased thread 0 0)) call.now revocation.now object allowed) }
    ensures { HasMadeSteps heap.now (revoke_at (Some (Biased thread 0 0)) call.now revocation.now object allowed)
        pass.old pass.new result }
{
    let holds = load_holds(heap, pass, call, revocation, thread);
    if held_of(&holds, object) == 0 {
        let mark = free_mark(allowed);
        store_one(heap, pass, call, revocation, WordId::Mark { object }, mark);
        return;
    }
    lock_by_records(heap, pass, call, revocation, object, thread, &holds);
}

/// Revokes the bias of the object by its mark of this form, where a new bias is allowed or not.
///
/// In OpenJDK 8: `revoke_bias` (`biasedLocking.cpp`).
pub fn revoke_form(
    heap: &Heap,
    pass: &mut Pass,
    call: &CallContext,
    revocation: &Revocation,
    object: u32,
    form: MarkForm,
    allowed: bool,
)
    requires heap { IsOf heap.now pass.old }
    requires object { object < length heap.now.heap.shape.objects }
    requires form { IsMark heap.now.heap.shape (Some form) }
    requires due { IsDueOn heap.now pass.old call.now.task
        (revoke_at (Some form) call.now revocation.now object allowed) }
    ensures { HasMadeSteps heap.now (revoke_at (Some form) call.now revocation.now object allowed)
        pass.old pass.new result }
{
    match form {
        MarkForm::Anonymous { .. } => {
            if allowed {
                return;
            }
            store_one(heap, pass, call, revocation, WordId::Mark { object }, 0b001)
        }
        MarkForm::Biased { thread, .. } => {
            revoke_biased(heap, pass, call, revocation, object, thread, allowed)
        }
        _ => {}
    }
}

/// Revokes the bias of the object, where a new bias is allowed or not.
///
/// In OpenJDK 8: `revoke_bias` (`biasedLocking.cpp`).
pub fn revoke(
    heap: &Heap,
    pass: &mut Pass,
    call: &CallContext,
    revocation: &Revocation,
    object: u32,
    allowed: bool,
)
    requires heap { IsOf heap.now pass.old }
    requires object { object < length heap.now.heap.shape.objects }
    requires due { IsDueOn heap.now pass.old call.now.task (revoke_steps call.now revocation.now object allowed) }
    ensures { HasMadeSteps heap.now (revoke_steps call.now revocation.now object allowed) pass.old pass.new result }
{
    let mark = look(heap, pass, call, revocation, WordId::Mark { object });
    match mark_of_word(mark) {
        Some(form) => revoke_form(heap, pass, call, revocation, object, form, allowed),
        None => {}
    }
}
