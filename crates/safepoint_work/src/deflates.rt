//! Idle monitors are given back.
//!
//! This is after OpenJDK 8's `synchronizer.cpp`: `deflate_idle_monitors` and `deflate_monitor`.
ghost use Rattle.std.specs.Prelude.{◌≡◌, ◌%◌};
ghost use Rattle.core_world.specs.Threads.ThreadView.{local_of};
ghost use Rattle.core_world.specs.Trees.DeflateSteps.{deflate_free, deflate_monitor, deflate_named, deflate_steps};
ghost use Rattle.core_world.specs.Trees.DeflateSteps.{give_back_steps, is_untouched, names_monitor};
ghost use Rattle.core_world.specs.Words.Forms.{monitor_in};
ghost use Rattle.core_world.specs.Words.Shape.{ring_places};
ghost use Rattle.heap_table.specs.Parts.{IsDueOn, HasMadeSteps};
ghost use Rattle.heap_table.specs.Seen.{IsOf};
ghost use Rattle.safepoint_work.specs.inner.DeflateParts.{clean_steps, enqueue_steps, untouched_steps};

use core_world::{LocalEffect, Stage, WordId};
use heap_table::{CallContext, Heap, Pass, mark_of_word, wait_of_word};
use mark_word::{MarkForm, WaitForm};

// Whether the mark names the monitor.
fn names_monitor(mark: u64, monitor: u32) -> bool
    ensures { result ≡ names_monitor (monitor_in mark) monitor }
{
    match mark_of_word(mark) {
        Some(MarkForm::Inflated { monitor: named }) => named == monitor,
        _ => false,
    }
}

// Whether, by its waiting word, a thread neither waits on the object nor was notified from it nor enters it.
fn is_untouched(object: u32, word: u64) -> bool
    ensures { result ≡ is_untouched object word }
{
    match wait_of_word(word) {
        Some(WaitForm::Waiting { object: other, .. }) => other != object,
        Some(WaitForm::Notified { object: other }) => other != object,
        Some(WaitForm::Entering { object: other }) => other != object,
        _ => true,
    }
}

// The ring's place of the position.
fn ring_place(heap: &Heap, position: u64) -> u32
    ensures { result ≡ position % ring_places heap.now.heap.shape }
{
    (position % heap.shape().ring_places() as u64) as u32
}

// The words of the monitor become 0.
fn clean(heap: &Heap, pass: &mut Pass, call: &CallContext, stage: Stage, monitor: u32)
    requires heap { IsOf heap.now pass.old }
    requires due { IsDueOn heap.now pass.old call.now.task (clean_steps call.now stage monitor) }
    ensures { HasMadeSteps heap.now (clean_steps call.now stage monitor) pass.old pass.new tt }
{
    heap.store(pass, call, stage, WordId::Owner { monitor }, 0);
    heap.store(pass, call, stage, WordId::Recursions { monitor }, 0);
    heap.store(pass, call, stage, WordId::Header { monitor }, 0);
    heap.store(pass, call, stage, WordId::Object { monitor }, 0);
}

// The monitor comes to stand in the ring, at this position, which is its end.
fn enqueue(heap: &Heap, pass: &mut Pass, call: &CallContext, stage: Stage, end: u64, monitor: u32)
    requires heap { IsOf heap.now pass.old }
    requires due { IsDueOn heap.now pass.old call.now.task
        (enqueue_steps heap.now.heap.shape call.now stage end monitor) }
    ensures { HasMadeSteps heap.now (enqueue_steps heap.now.heap.shape call.now stage end monitor)
        pass.old pass.new tt }
{
    let place = ring_place(heap, end);
    heap.store(pass, call, stage, WordId::Ring { place }, monitor as u64);
    let next = end.wrapping_add(1);
    heap.store_and_keep(pass, call, stage, LocalEffect::Enqueue, WordId::End, next);
}

// The object's monitor is idle: its header becomes the object's mark, and it comes to stand in the ring with all of its
// words 0.
fn give_back(
    heap: &Heap,
    pass: &mut Pass,
    call: &CallContext,
    stage: Stage,
    object: u32,
    monitor: u32,
)
    requires heap { IsOf heap.now pass.old }
    requires due { IsDueOn heap.now pass.old call.now.task
        (give_back_steps heap.now.heap.shape call.now stage object monitor) }
    ensures { HasMadeSteps heap.now (give_back_steps heap.now.heap.shape call.now stage object monitor)
        pass.old pass.new tt }
{
    let header = heap.load(pass, call, stage, WordId::Header { monitor });
    let end = heap.load(pass, call, stage, WordId::End);
    let own = LocalEffect::Detach { monitor };
    heap.store_and_keep(pass, call, stage, own, WordId::Mark { object }, header);
    clean(heap, pass, call, stage, monitor);
    enqueue(heap, pass, call, stage, end, monitor);
}

// Whether, by the waiting words, no thread waits on the object, was notified from it or enters it.
fn all_untouched(
    heap: &Heap,
    pass: &mut Pass,
    call: &CallContext,
    stage: Stage,
    object: u32,
) -> bool
    requires heap { IsOf heap.now pass.old }
    requires due { IsDueOn heap.now pass.old call.now.task
        (untouched_steps heap.now.heap.shape call.now stage object) }
    ensures { HasMadeSteps heap.now (untouched_steps heap.now.heap.shape call.now stage object)
        pass.old pass.new result }
{
    let mut untouched = true;
    for thread in 0..heap.shape().threads() {
        let word = heap.load(pass, call, stage, WordId::Waiting { thread });
        untouched = untouched && is_untouched(object, word);
    }
    untouched
}

// Nobody owns the object's monitor: it is given back where no waiting word names the object.
fn deflate_free(
    heap: &Heap,
    pass: &mut Pass,
    call: &CallContext,
    stage: Stage,
    object: u32,
    monitor: u32,
)
    requires heap { IsOf heap.now pass.old }
    requires due { IsDueOn heap.now pass.old call.now.task
        (deflate_free heap.now.heap.shape call.now stage object monitor) }
    ensures { HasMadeSteps heap.now (deflate_free heap.now.heap.shape call.now stage object monitor)
        pass.old pass.new tt }
{
    if all_untouched(heap, pass, call, stage, object) {
        give_back(heap, pass, call, stage, object, monitor);
    }
}

// The object's mark names the monitor.
fn deflate_named(
    heap: &Heap,
    pass: &mut Pass,
    call: &CallContext,
    stage: Stage,
    object: u32,
    monitor: u32,
)
    requires heap { IsOf heap.now pass.old }
    requires due { IsDueOn heap.now pass.old call.now.task
        (deflate_named heap.now.heap.shape call.now stage object monitor) }
    ensures { HasMadeSteps heap.now (deflate_named heap.now.heap.shape call.now stage object monitor)
        pass.old pass.new tt }
{
    let owner = heap.load(pass, call, stage, WordId::Owner { monitor });
    if owner == 0 {
        deflate_free(heap, pass, call, stage, object, monitor);
    }
}

// The monitor is given back where it is idle. Its object word may be an old one, so that the mark decides.
fn deflate_monitor(heap: &Heap, pass: &mut Pass, call: &CallContext, stage: Stage, monitor: u32)
    requires heap { IsOf heap.now pass.old }
    requires due { IsDueOn heap.now pass.old call.now.task
        (deflate_monitor heap.now.heap.shape call.now stage monitor) }
    ensures { HasMadeSteps heap.now (deflate_monitor heap.now.heap.shape call.now stage monitor) pass.old pass.new tt }
{
    let word = heap.load(pass, call, stage, WordId::Object { monitor });
    let object = word as u32;
    let mark = heap.load(pass, call, stage, WordId::Mark { object });
    if names_monitor(mark, monitor) {
        deflate_named(heap, pass, call, stage, object, monitor);
    }
}

/// Gives each idle monitor back at the thread's reached safepoint, by rising number; the thread stands at this stage. A
/// monitor is idle where a mark names it, nobody owns it, and no thread waits on that object, was notified from it or
/// enters it. Its header becomes the object's mark, its words become 0, and it stands in the ring of monitors that
/// are to be claimed. The others stay as they are, and nothing is logged.
///
/// In OpenJDK 8: `ObjectSynchronizer::deflate_idle_monitors` and `deflate_monitor` (`synchronizer.cpp`).
pub fn deflate_idle(heap: &Heap, pass: &mut Pass, call: &CallContext, stage: Stage)
    requires heap { IsOf heap.now pass.old }
    requires due { IsDueOn heap.now pass.old call.now.task (deflate_steps heap.now.heap.shape call.now stage) }
    ensures run { HasMadeSteps heap.now (deflate_steps heap.now.heap.shape call.now stage) pass.old pass.new tt }
    ensures local { local_of pass.new.known ≡ local_of pass.old.known }
{
    let objects = heap.shape().objects() as u32;
    if objects == 0 {
        return;
    }
    for monitor in 0..objects + heap.shape().threads() {
        deflate_monitor(heap, pass, call, stage, monitor);
    }
}
