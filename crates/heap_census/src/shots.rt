//! The shot of a dump: who has each lock, and how long each log is.
ghost use Rattle.std.specs.Prelude.{◌≡◌, ◌<◌, ◌≤◌, [], length, Some, true};
ghost use Rattle.core_world.specs.Locks.{has_epoch, owner_lock, BiasedTo};
ghost use Rattle.core_world.specs.Steps.{seen_words, cut_from, cells_from};
ghost use Rattle.core_world.specs.Threads.ThreadView.{local_of};
ghost use Rattle.core_world.specs.Threads.Stages.{one_if};
ghost use Rattle.core_world.specs.Trees.LookSteps.{look_at_holds, look_at_owner, look_at_named, look_at_objects};
ghost use Rattle.core_world.specs.Trees.LookSteps.{take_shot_steps};
ghost use Rattle.core_world.specs.Words.Forms.{epoch_in, names};
ghost use Rattle.heap_table.specs.Parts.{IsDueOn, HasMadeSteps};
ghost use Rattle.heap_table.specs.Seen.{IsOf};
ghost use Rattle.mark_word.specs.Hold.{read_hold};
ghost use Rattle.heap_census.specs.ShotParts.{HasShot};
ghost use Rattle.heap_census.specs.inner.ShotParts.{IsLater, IsSettled};
ghost use Rattle.heap_census.specs.inner.ShotParts.{held_in, owned_cell, cell_by, cell_at, cell_of, length_of};
ghost use Rattle.heap_census.specs.inner.ShotParts.{bias_lock, lock_by_class, look_by_class};
ghost use Rattle.heap_census.specs.inner.ShotParts.{look_at_hold, look_at_bias, look_at_monitor, look_at_cell};
ghost use Rattle.heap_census.specs.inner.ShotParts.{look_at_length, look_at_lengths};
ghost use Rattle.core_world.specs.declared.word_id.WordId.TheVariants as id;

use core_world::{LocalEffect, Stage, WordId};
use heap_table::{CallContext, Cell, Heap, Pass, class_epoch, mark_of_word, names, owner_of_word};
use mark_word::{MarkForm, OwnerForm};

// Whether a bias of this epoch is valid, by the prototype of its class.
fn is_valid(prototype: u64, epoch: u8) -> bool
    ensures { result ≡ has_epoch (epoch_in prototype) epoch }
{
    match class_epoch(prototype) {
        Some(valid) => valid == epoch,
        None => false,
    }
}

// 1 where the thread's hold word of this place names the object, and else 0.
fn look_at_hold(
    heap: &Heap,
    pass: &mut Pass,
    call: &CallContext,
    object: u32,
    thread: u32,
    place: u32,
) -> u32
    requires heap { IsOf heap.now pass.old }
    requires due { IsDueOn heap.now pass.old call.now.task (look_at_hold call.now thread place) }
    requires reached { pass.old.known.reached ≡ true }
    ensures run { HasMadeSteps heap.now (look_at_hold call.now thread place) pass.old pass.new tt }
    ensures later { IsLater pass.old.known pass.new.known }
    ensures held { IsSettled pass.new.known
        (λ k. one_if (names object (seen_words k (id.Hold thread place)))) result }
    ensures few { result ≤ 1 }
{
    let at = WordId::Hold { thread, place };
    let word = heap.load(pass, call, Stage::Settled, at);
    u32::from(names(object, word))
}

// How many of the thread's hold words name the object.
fn look_at_holds(heap: &Heap, pass: &mut Pass, call: &CallContext, object: u32, thread: u32) -> u32
    requires heap { IsOf heap.now pass.old }
    requires due { IsDueOn heap.now pass.old call.now.task (look_at_holds call.now thread) }
    requires reached { pass.old.known.reached ≡ true }
    ensures run { HasMadeSteps heap.now (look_at_holds call.now thread) pass.old pass.new tt }
    ensures later { IsLater pass.old.known pass.new.known }
    ensures held { IsSettled pass.new.known (λ k. held_in object k thread) result }
{
    let mut held = 0;
    for place in 0..64u32 {
        held += look_at_hold(heap, pass, call, object, thread, place);
    }
    held
}

// The thread has the object's lock.
fn look_at_owned(heap: &Heap, pass: &mut Pass, call: &CallContext, object: u32, thread: u32) -> Cell
    requires heap { IsOf heap.now pass.old }
    requires due { IsDueOn heap.now pass.old call.now.task (look_at_holds call.now thread) }
    requires reached { pass.old.known.reached ≡ true }
    ensures run { HasMadeSteps heap.now (look_at_holds call.now thread) pass.old pass.new tt }
    ensures later { IsLater pass.old.known pass.new.known }
    ensures cell { IsSettled pass.new.known (owned_cell object thread) (result.owner, result.count) }
{
    let count = look_at_holds(heap, pass, call, object, thread);
    Cell {
        owner: Some(thread),
        count,
    }
}

// The object is validly biased to the thread, which has its lock where it holds it.
fn look_at_biased(
    heap: &Heap,
    pass: &mut Pass,
    call: &CallContext,
    object: u32,
    thread: u32,
) -> Cell
    requires heap { IsOf heap.now pass.old }
    requires due { IsDueOn heap.now pass.old call.now.task (look_at_holds call.now thread) }
    requires reached { pass.old.known.reached ≡ true }
    ensures run { HasMadeSteps heap.now (look_at_holds call.now thread) pass.old pass.new tt }
    ensures later { IsLater pass.old.known pass.new.known }
    ensures cell { IsSettled pass.new.known (cell_by (BiasedTo thread) object) (result.owner, result.count) }
{
    let count = look_at_holds(heap, pass, call, object, thread);
    let owner = if count == 0 { None } else { Some(thread) };
    Cell { owner, count }
}

// The object is biased to the thread, in this epoch, and of this class.
fn look_by_class(
    heap: &Heap,
    pass: &mut Pass,
    call: &CallContext,
    class: u32,
    object: u32,
    thread: u32,
    epoch: u8,
) -> Cell
    requires heap { IsOf heap.now pass.old }
    requires due { IsDueOn heap.now pass.old call.now.task (look_by_class call.now class thread epoch) }
    requires reached { pass.old.known.reached ≡ true }
    ensures run { HasMadeSteps heap.now (look_by_class call.now class thread epoch) pass.old pass.new tt }
    ensures later { IsLater pass.old.known pass.new.known }
    ensures cell { IsSettled pass.new.known (λ k. cell_by (lock_by_class class thread epoch k) object k)
        (result.owner, result.count) }
{
    let prototype = heap.load(pass, call, Stage::Settled, WordId::Prototype { class });
    if is_valid(prototype, epoch) {
        look_at_biased(heap, pass, call, object, thread)
    } else {
        Cell {
            owner: None,
            count: 0,
        }
    }
}

// The object is biased to the thread, in this epoch.
fn look_at_bias(
    heap: &Heap,
    pass: &mut Pass,
    call: &CallContext,
    object: u32,
    thread: u32,
    epoch: u8,
) -> Cell
    requires heap { IsOf heap.now pass.old }
    requires object { object < length heap.now.heap.shape.objects }
    requires due { IsDueOn heap.now pass.old call.now.task
        (look_at_bias call.now heap.now.heap.shape object thread epoch) }
    requires reached { pass.old.known.reached ≡ true }
    ensures run { HasMadeSteps heap.now (look_at_bias call.now heap.now.heap.shape object thread epoch)
        pass.old pass.new tt }
    ensures later { IsLater pass.old.known pass.new.known }
    ensures cell { IsSettled pass.new.known
        (λ k. cell_by (bias_lock heap.now.heap.shape object thread epoch k) object k) (result.owner, result.count) }
{
    let class = heap.class_of(pass, call, Stage::Settled, object);
    look_by_class(heap, pass, call, class, object, thread, epoch)
}

// The owner word of the object's monitor has this form.
fn look_at_owner(
    heap: &Heap,
    pass: &mut Pass,
    call: &CallContext,
    object: u32,
    form: OwnerForm,
) -> Cell
    requires heap { IsOf heap.now pass.old }
    requires due { IsDueOn heap.now pass.old call.now.task (look_at_owner (Some form) call.now) }
    requires reached { pass.old.known.reached ≡ true }
    ensures run { HasMadeSteps heap.now (look_at_owner (Some form) call.now) pass.old pass.new tt }
    ensures later { IsLater pass.old.known pass.new.known }
    ensures cell { IsSettled pass.new.known (cell_by (owner_lock (Some form)) object) (result.owner, result.count) }
{
    match form {
        OwnerForm::Free => Cell {
            owner: None,
            count: 0,
        },
        OwnerForm::ByThread { thread } => look_at_owned(heap, pass, call, object, thread),
        OwnerForm::ByRecord { thread, .. } => look_at_owned(heap, pass, call, object, thread),
    }
}

// The object's mark names the monitor.
fn look_at_monitor(
    heap: &Heap,
    pass: &mut Pass,
    call: &CallContext,
    object: u32,
    monitor: u32,
) -> Cell
    requires heap { IsOf heap.now pass.old }
    requires due { IsDueOn heap.now pass.old call.now.task (look_at_monitor call.now monitor) }
    requires reached { pass.old.known.reached ≡ true }
    ensures run { HasMadeSteps heap.now (look_at_monitor call.now monitor) pass.old pass.new tt }
    ensures later { IsLater pass.old.known pass.new.known }
    ensures cell { IsSettled pass.new.known (cell_at (Some (MarkForm.Inflated monitor)) heap.now.heap.shape object)
        (result.owner, result.count) }
{
    let owner = heap.load(pass, call, Stage::Settled, WordId::Owner { monitor });
    match owner_of_word(owner) {
        Some(form) => look_at_owner(heap, pass, call, object, form),
        None => unreachable!(),
    }
}

// The object's mark has this form.
fn look_at_named(
    heap: &Heap,
    pass: &mut Pass,
    call: &CallContext,
    object: u32,
    form: MarkForm,
) -> Cell
    requires heap { IsOf heap.now pass.old }
    requires object { object < length heap.now.heap.shape.objects }
    requires due { IsDueOn heap.now pass.old call.now.task (look_at_named (Some form) call.now heap.now.heap.shape object) }
    requires reached { pass.old.known.reached ≡ true }
    ensures run { HasMadeSteps heap.now (look_at_named (Some form) call.now heap.now.heap.shape object)
        pass.old pass.new tt }
    ensures later { IsLater pass.old.known pass.new.known }
    ensures cell { IsSettled pass.new.known (cell_at (Some form) heap.now.heap.shape object)
        (result.owner, result.count) }
{
    match form {
        MarkForm::Biased { thread, epoch, .. } => {
            look_at_bias(heap, pass, call, object, thread, epoch)
        }
        MarkForm::Locked { thread, .. } => look_at_owned(heap, pass, call, object, thread),
        MarkForm::Inflated { monitor } => look_at_monitor(heap, pass, call, object, monitor),
        _ => Cell {
            owner: None,
            count: 0,
        },
    }
}

// Who has the object's lock, and how often.
fn look_at_cell(heap: &Heap, pass: &mut Pass, call: &CallContext, object: u32) -> Cell
    requires heap { IsOf heap.now pass.old }
    requires object { object < length heap.now.heap.shape.objects }
    requires due { IsDueOn heap.now pass.old call.now.task (look_at_cell call.now heap.now.heap.shape object) }
    requires reached { pass.old.known.reached ≡ true }
    ensures run { HasMadeSteps heap.now (look_at_cell call.now heap.now.heap.shape object) pass.old pass.new tt }
    ensures later { IsLater pass.old.known pass.new.known }
    ensures cell { IsSettled pass.new.known (cell_of heap.now.heap.shape object) (result.owner, result.count) }
{
    let mark = heap.load(pass, call, Stage::Settled, WordId::Mark { object });
    match mark_of_word(mark) {
        Some(form) => look_at_named(heap, pass, call, object, form),
        None => unreachable!(),
    }
}

// How long the thread's log is: as it published it, and for the pass's own thread as it is.
fn look_at_length(heap: &Heap, pass: &mut Pass, call: &CallContext, thread: u32) -> u64
    requires heap { IsOf heap.now pass.old }
    requires due { IsDueOn heap.now pass.old call.now.task (look_at_length call.now thread) }
    requires reached { pass.old.known.reached ≡ true }
    ensures run { HasMadeSteps heap.now (look_at_length call.now thread) pass.old pass.new tt }
    ensures later { IsLater pass.old.known pass.new.known }
    ensures length { IsSettled pass.new.known (length_of thread) result }
{
    let published = heap.load(pass, call, Stage::Settled, WordId::Length { thread });
    if thread == pass.thread() {
        pass.length()
    } else {
        published
    }
}

// The cells of all objects.
fn look_at_objects(heap: &Heap, pass: &mut Pass, call: &CallContext)
    requires heap { IsOf heap.now pass.old }
    requires due { IsDueOn heap.now pass.old call.now.task (look_at_objects call.now heap.now.heap.shape) }
    requires reached { pass.old.known.reached ≡ true }
    requires none { pass.old.cells ≡ [] }
    ensures run { HasShot heap.now (look_at_objects call.now heap.now.heap.shape) pass.old pass.new }
    ensures later { IsLater pass.old.known pass.new.known }
    ensures cut { pass.new.cut ≡ pass.old.cut }
    ensures cells { IsSettled pass.new.known
        (λ k. cells_from 0 heap.now.heap.shape.objects heap.now.heap.shape (seen_words k)) pass.new.cells }
{
    for object in 0..heap.shape().objects() as u32 {
        let cell = look_at_cell(heap, pass, call, object);
        pass.see_cell(cell);
    }
}

// The lengths of all logs.
fn look_at_lengths(heap: &Heap, pass: &mut Pass, call: &CallContext)
    requires heap { IsOf heap.now pass.old }
    requires due { IsDueOn heap.now pass.old call.now.task (look_at_lengths call.now heap.now.heap.shape) }
    requires reached { pass.old.known.reached ≡ true }
    requires none { pass.old.cut ≡ [] }
    ensures run { HasShot heap.now (look_at_lengths call.now heap.now.heap.shape) pass.old pass.new }
    ensures later { IsLater pass.old.known pass.new.known }
    ensures cells { pass.new.cells ≡ pass.old.cells }
    ensures cut { IsSettled pass.new.known (cut_from 0 heap.now.heap.shape.threads) pass.new.cut }
{
    for thread in 0..heap.shape().threads() {
        let entries = look_at_length(heap, pass, call, thread);
        pass.see_length(entries);
    }
}

/// Takes a shot of a dump at the thread's reached safepoint, and keeps it: the length of each thread's log, and for
/// each object who has its lock, and how often. The draft of the pass, whatever it was, becomes this shot, and then the
/// last of the shots that the pass has taken. Nothing is stored and nothing logged.
///
/// In OpenJDK 8: `VM_ThreadDump` (`vm_operations.hpp`), which has stacks.
pub fn take_shot(heap: &Heap, pass: &mut Pass, call: &CallContext)
    requires heap { IsOf heap.now pass.old }
    requires due { IsDueOn heap.now pass.old call.now.task (take_shot_steps call.now heap.now.heap.shape) }
    requires reached { pass.old.known.reached ≡ true }
    ensures run { HasShot heap.now (take_shot_steps call.now heap.now.heap.shape) pass.old pass.new }
    ensures local { local_of pass.new.known ≡ local_of pass.old.known }
{
    pass.begin_shot();
    look_at_objects(heap, pass, call);
    look_at_lengths(heap, pass, call);
    heap.load_and_keep(pass, call, LocalEffect::TakeShot, WordId::Safepoint);
}
