//! Whether the run stands still.
ghost use Rattle.std.specs.Prelude.{◌≡◌, Some};
ghost use Rattle.core_world.specs.Trees.LookSteps.{can_acquire, look_at_monitor, look_at_object, look_at_wait};
ghost use Rattle.core_world.specs.Trees.LookSteps.{stands_still_steps};
ghost use Rattle.heap_table.specs.Parts.{IsDueOn, HasMadeSteps};
ghost use Rattle.heap_table.specs.Seen.{IsOf};
ghost use Rattle.heap_census.specs.inner.StandParts.{look_at_thread};

use core_world::{Stage, WordId};
use heap_table::{CallContext, Heap, Pass, mark_of_word, owner_of_word, wait_of_word};
use mark_word::{MarkForm, OwnerForm, WaitForm};

// Whether the thread may take the monitor with this owner: it is free or the thread's own.
fn can_acquire(form: Option<OwnerForm>, thread: u32) -> bool
    ensures { result ≡ can_acquire form thread }
{
    match form {
        Some(form) => match form {
            OwnerForm::Free => true,
            OwnerForm::ByThread { thread: owner } => owner == thread,
            OwnerForm::ByRecord { thread: owner, .. } => owner == thread,
        },
        None => false,
    }
}

// Whether the thread could take the monitor that a mark of this form names.
fn look_at_monitor(
    heap: &Heap,
    pass: &mut Pass,
    call: &CallContext,
    thread: u32,
    form: MarkForm,
) -> Option<bool>
    requires heap { IsOf heap.now pass.old }
    requires due { IsDueOn heap.now pass.old call.now.task (look_at_monitor (Some form) call.now thread) }
    ensures { HasMadeSteps heap.now (look_at_monitor (Some form) call.now thread) pass.old pass.new result }
{
    match form {
        MarkForm::Inflated { monitor } => {
            let owner = heap.load(pass, call, Stage::Settled, WordId::Owner { monitor });
            Some(can_acquire(owner_of_word(owner), thread))
        }
        _ => unreachable!(),
    }
}

// Whether the thread could take the object's monitor.
fn look_at_object(
    heap: &Heap,
    pass: &mut Pass,
    call: &CallContext,
    thread: u32,
    object: u32,
) -> Option<bool>
    requires heap { IsOf heap.now pass.old }
    requires due { IsDueOn heap.now pass.old call.now.task (look_at_object call.now thread object) }
    ensures { HasMadeSteps heap.now (look_at_object call.now thread object) pass.old pass.new result }
{
    let mark = heap.load(pass, call, Stage::Settled, WordId::Mark { object });
    match mark_of_word(mark) {
        Some(form) => look_at_monitor(heap, pass, call, thread, form),
        None => unreachable!(),
    }
}

// Whether the thread could go on, by what its waiting word says. None says that it has ended.
fn look_at_wait(
    heap: &Heap,
    pass: &mut Pass,
    call: &CallContext,
    thread: u32,
    form: WaitForm,
) -> Option<bool>
    requires heap { IsOf heap.now pass.old }
    requires due { IsDueOn heap.now pass.old call.now.task (look_at_wait (Some form) call.now thread) }
    ensures { HasMadeSteps heap.now (look_at_wait (Some form) call.now thread) pass.old pass.new result }
{
    match form {
        WaitForm::Ready => Some(true),
        WaitForm::Entering { object } => look_at_object(heap, pass, call, thread, object),
        WaitForm::Waiting { .. } => Some(false),
        WaitForm::Notified { object } => look_at_object(heap, pass, call, thread, object),
        WaitForm::Ended => None,
    }
}

// Whether the thread could go on. None says that it has ended.
fn look_at_thread(heap: &Heap, pass: &mut Pass, call: &CallContext, thread: u32) -> Option<bool>
    requires heap { IsOf heap.now pass.old }
    requires due { IsDueOn heap.now pass.old call.now.task (look_at_thread call.now thread) }
    ensures { HasMadeSteps heap.now (look_at_thread call.now thread) pass.old pass.new result }
{
    let word = heap.load(pass, call, Stage::Settled, WordId::Waiting { thread });
    match wait_of_word(word) {
        Some(form) => look_at_wait(heap, pass, call, thread, form),
        None => unreachable!(),
    }
}

/// Looks at the waiting words of all threads, and at the monitors that they wait to take.
///
/// `true` says that the run stands still: some thread has not ended, and no thread that has not could go on by itself.
/// Each such thread waits to be notified, or waits for a monitor that another thread owns.
/// `false` says that all threads have ended, or that some thread could go on: it waits for nothing, or for a monitor
/// that is free or its own.
///
/// In OpenJDK 8: nothing; `VM_FindDeadlocks` (`vm_operations.hpp`) looks for circles.
pub fn stands_still(heap: &Heap, pass: &mut Pass, call: &CallContext) -> bool
    requires heap { IsOf heap.now pass.old }
    requires due { IsDueOn heap.now pass.old call.now.task (stands_still_steps call.now heap.now.heap.shape) }
    ensures { HasMadeSteps heap.now (stands_still_steps call.now heap.now.heap.shape) pass.old pass.new result }
{
    let mut live = false;
    let mut still = true;
    for thread in 0..heap.shape().threads() {
        if let Some(goes_on) = look_at_thread(heap, pass, call, thread) {
            live = true;
            still = still && !goes_on;
        }
    }
    live && still
}
