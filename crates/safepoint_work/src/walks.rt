//! The walk over all threads' lock records, for a bulk operation.
ghost use Rattle.std.specs.Prelude.{◌≡◌, ◌<◌, length, Some};
ghost use Rattle.mark_word.specs.Mark.{IsMarkInRange};
ghost use Rattle.core_world.specs.Clauses.WordForms.{IsMark};
ghost use Rattle.core_world.specs.Trees.RevocationSteps.{walk_steps};
ghost use Rattle.heap_table.specs.Parts.{IsDueOn, HasMadeSteps};
ghost use Rattle.heap_table.specs.Seen.{IsOf};
ghost use Rattle.safepoint_work.specs.inner.RevokeParts.{IsVisit, visit_form, visit_by, object_steps, place_steps, thread_steps};

use crate::revocation::Revocation;
use crate::revokes::revoke_form;
use crate::steps::{look, store_one};
use crate::visit::Visit;
use crate::words::object_of_hold;
use core_world::WordId;
use heap_table::{CallContext, Heap, Pass, mark_of_word};
use mark_word::{MarkForm, encode};
use plain_monitor::limits::HOLDS;

// The mark of this form gets the epoch.
fn set_epoch(
    heap: &Heap,
    pass: &mut Pass,
    call: &CallContext,
    revocation: &Revocation,
    object: u32,
    form: MarkForm,
    epoch: u8,
)
    requires heap { IsOf heap.now pass.old }
    requires form { IsMarkInRange form }
    requires epoch { epoch < 4 }
    requires due { IsDueOn heap.now pass.old call.now.task
        (visit_form (Visit.Renew epoch) (Some form) call.now revocation.now object) }
    ensures { HasMadeSteps heap.now (visit_form (Visit.Renew epoch) (Some form) call.now revocation.now object)
        pass.old pass.new result }
{
    match form {
        MarkForm::Anonymous { age, .. } => {
            let mark = encode(&MarkForm::Anonymous { epoch, age });
            store_one(heap, pass, call, revocation, WordId::Mark { object }, mark)
        }
        MarkForm::Biased { thread, age, .. } => {
            let mark = encode(&MarkForm::Biased { thread, epoch, age });
            store_one(heap, pass, call, revocation, WordId::Mark { object }, mark)
        }
        _ => {}
    }
}

// What is done with an object whose mark is of this form.
fn visit_biased(
    heap: &Heap,
    pass: &mut Pass,
    call: &CallContext,
    revocation: &Revocation,
    object: u32,
    form: MarkForm,
    how: Visit,
)
    requires heap { IsOf heap.now pass.old }
    requires object { object < length heap.now.heap.shape.objects }
    requires form { IsMark heap.now.heap.shape (Some form) }
    requires range { IsMarkInRange form }
    requires how { IsVisit how }
    requires due { IsDueOn heap.now pass.old call.now.task
        (visit_form how (Some form) call.now revocation.now object) }
    ensures { HasMadeSteps heap.now (visit_form how (Some form) call.now revocation.now object)
        pass.old pass.new result }
{
    match how {
        Visit::Renew { epoch } => set_epoch(heap, pass, call, revocation, object, form, epoch),
        Visit::Revoke => revoke_form(heap, pass, call, revocation, object, form, false),
    }
}

// The object that a record names is of the class: it is visited where it is biased.
fn visit_object(
    heap: &Heap,
    pass: &mut Pass,
    call: &CallContext,
    revocation: &Revocation,
    object: u32,
    how: Visit,
)
    requires heap { IsOf heap.now pass.old }
    requires object { object < length heap.now.heap.shape.objects }
    requires how { IsVisit how }
    requires due { IsDueOn heap.now pass.old call.now.task (object_steps call.now revocation.now how object) }
    ensures { HasMadeSteps heap.now (object_steps call.now revocation.now how object) pass.old pass.new result }
{
    let mark = look(heap, pass, call, revocation, WordId::Mark { object });
    match mark_of_word(mark) {
        Some(form) => visit_biased(heap, pass, call, revocation, object, form, how),
        None => {}
    }
}

// The record at this place of the thread.
fn walk_place(
    heap: &Heap,
    pass: &mut Pass,
    call: &CallContext,
    revocation: &Revocation,
    class: u32,
    how: Visit,
    thread: u32,
    place: u32,
)
    requires heap { IsOf heap.now pass.old }
    requires how { IsVisit how }
    requires due { IsDueOn heap.now pass.old call.now.task
        (place_steps heap.now.heap.shape class call.now revocation.now how thread place) }
    ensures { HasMadeSteps heap.now (place_steps heap.now.heap.shape class call.now revocation.now how thread place)
        pass.old pass.new result }
{
    let hold = look(heap, pass, call, revocation, WordId::Hold { thread, place });
    match object_of_hold(hold) {
        Some(object) => {
            let its = heap.class_of(pass, call, revocation.stage(), object);
            if its == class {
                visit_object(heap, pass, call, revocation, object, how);
            }
        }
        None => {}
    }
}

// The records of the thread, by rising place.
fn walk_thread(
    heap: &Heap,
    pass: &mut Pass,
    call: &CallContext,
    revocation: &Revocation,
    class: u32,
    how: Visit,
    thread: u32,
)
    requires heap { IsOf heap.now pass.old }
    requires how { IsVisit how }
    requires due { IsDueOn heap.now pass.old call.now.task
        (thread_steps heap.now.heap.shape class call.now revocation.now how thread) }
    ensures { HasMadeSteps heap.now (thread_steps heap.now.heap.shape class call.now revocation.now how thread)
        pass.old pass.new result }
{
    for place in 0..HOLDS {
        walk_place(heap, pass, call, revocation, class, how, thread, place);
    }
}

/// Visits each biased object of the class that a record of a thread names, by rising thread and place.
///
/// In OpenJDK 8: the loop over `Threads::first()` in `bulk_revoke_or_rebias_at_safepoint` (`biasedLocking.cpp`).
pub fn walk(
    heap: &Heap,
    pass: &mut Pass,
    call: &CallContext,
    revocation: &Revocation,
    class: u32,
    how: Visit,
)
    requires heap { IsOf heap.now pass.old }
    requires how { IsVisit how }
    requires due { IsDueOn heap.now pass.old call.now.task
        (walk_steps heap.now.heap.shape class call.now revocation.now (visit_by how call.now revocation.now)) }
    ensures { HasMadeSteps heap.now
        (walk_steps heap.now.heap.shape class call.now revocation.now (visit_by how call.now revocation.now))
        pass.old pass.new result }
{
    for thread in 0..heap.shape().threads() {
        walk_thread(heap, pass, call, revocation, class, how, thread);
    }
}
