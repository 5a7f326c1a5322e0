//! The calls that wait on an object, and that notify those who do.
ghost use Rattle.std.specs.Prelude.{◌≡◌, ◌+◌, ◌<◌, ◌≤◌, length, Some};
ghost use Rattle.core_world.specs.declared.heap_call.HeapCall.TheVariants.{Wait, Notify, NotifyAll};
ghost use Rattle.core_world.specs.Threads.ThreadView.{local_of};
ghost use Rattle.core_world.specs.Trees.Calls.{most_logged};
ghost use Rattle.core_world.specs.Trees.Operations.{wait_beginning, wait_going, wait_steps};
ghost use Rattle.core_world.specs.Trees.Operations.{notify_at, notify_going, notify_steps};
ghost use Rattle.core_world.specs.Trees.Operations.{notify_all_at, notify_all_going, notify_all_steps};
ghost use Rattle.core_world.specs.Words.Forms.{waits_on};
ghost use Rattle.core_calls.specs.CallsSay.{WaitSays, NotifySays, NotifyAllSays};
ghost use Rattle.core_calls.specs.Paths.{Tells};
ghost use Rattle.core_calls.specs.Woken.{IfDone};
ghost use Rattle.heap_table.specs.Parts.{IsDueOn, HasMadeSteps};
ghost use Rattle.heap_table.specs.Resting.{MayOperate, Rests, start_now};
ghost use Rattle.heap_table.specs.Seen.{IsOf};
ghost use Rattle.lock_runtime.specs.inner.WaitParts.{inflated_wait, letting_go, marked_notify, marked_notify_all};
ghost use Rattle.lock_runtime.specs.Locking.{OwnerWakes, OwnerWakesAll};
ghost use Rattle.lock_runtime.specs.Standing.{StandsOrSame};
ghost use Rattle.lock_runtime.specs.Others.{PendsOrRefused};
ghost use Rattle.lock_runtime.specs.Refusals.{IsRefusedUnheld};

use crate::contexts::unfinished;
use crate::revoking::unbias;
use core_world::{HeapCall, IllegalMonitorState, Operation, PendingCause, Progress, Stage, WordId};
use heap_table::{CallContext, Heap, Pass, mark_of_word, wait_of_word};
use mark_word::{MarkForm, WaitForm};
use object_monitor::{
    inflate, monitor_notify, monitor_notify_all, monitor_resume, monitor_wait, publish,
};
use plain_monitor::Entry;
use safepoint_work::Revocation;

// Whether this waiting word says that its thread waits on the object.
fn waits_on(word: u64, object: u32) -> bool
    ensures { result ≡ waits_on word object }
{
    match wait_of_word(word) {
        Some(form) => match form {
            WaitForm::Waiting { object: on, .. } => on == object,
            _ => false,
        },
        None => false,
    }
}

// The thread owns the object's monitor: it logs the Wait, lets go, and looks whether it was notified.
fn let_go(
    heap: &Heap,
    pass: &mut Pass,
    context: &CallContext,
    object: u32,
    monitor: u32,
) -> Progress<()>
    requires heap { IsOf heap.now pass.old }
    requires object { object < length heap.now.heap.shape.objects }
    requires due { IsDueOn heap.now pass.old context.now.task
        (letting_go context.now (local_of pass.old.known) object monitor) }
    requires room { length pass.old.known.log + 2 ≤ pass.old.limit }
    ensures { HasMadeSteps heap.now (letting_go context.now (local_of pass.old.known) object monitor)
        pass.old pass.new result }
{
    let saved = monitor_wait(heap, pass, context, object, monitor);
    monitor_resume(heap, pass, context, saved, object)
}

// The object's mark has no bias pattern: the object gets a monitor, if it has none.
fn wait_inflated(heap: &Heap, pass: &mut Pass, context: &CallContext, object: u32) -> Progress<()>
    requires heap { IsOf heap.now pass.old }
    requires object { object < length heap.now.heap.shape.objects }
    requires due { IsDueOn heap.now pass.old context.now.task
        (inflated_wait heap.now.heap.shape context.now pass.old.known.kept (local_of pass.old.known) object) }
    requires room { length pass.old.known.log + 2 ≤ pass.old.limit }
    ensures { HasMadeSteps heap.now
        (inflated_wait heap.now.heap.shape context.now pass.old.known.kept (local_of pass.old.known) object)
        pass.old pass.new result }
{
    match inflate(heap, pass, context, object) {
        Progress::Done(monitor) => let_go(heap, pass, context, object, monitor),
        Progress::Pending(cause) => Progress::Pending(cause),
    }
}

// The thread has a hold on the object, and has not let it go.
fn wait_anew(
    heap: &Heap,
    pass: &mut Pass,
    context: &CallContext,
    object: u32,
    now: u64,
) -> Progress<()>
    requires heap { IsOf heap.now pass.old }
    requires object { object < length heap.now.heap.shape.objects }
    requires due { IsDueOn heap.now pass.old context.now.task
        (wait_beginning heap.now.heap.shape context.now (start_now heap.now pass.old) object now) }
    requires room { length pass.old.known.log + 2 ≤ pass.old.limit }
    ensures { HasMadeSteps heap.now
        (wait_beginning heap.now.heap.shape context.now (start_now heap.now pass.old) object now)
        pass.old pass.new result }
{
    let bias = Revocation {
        object,
        rebias: false,
        moment: now,
    };
    match unbias(heap, pass, context, &bias) {
        Progress::Done(()) => wait_inflated(heap, pass, context, object),
        Progress::Pending(cause) => Progress::Pending(cause),
    }
}

// The thread has a hold on the object. Where the waiting word that it last stored says so, it has let go already.
fn wait_held(
    heap: &Heap,
    pass: &mut Pass,
    context: &CallContext,
    object: u32,
    now: u64,
) -> Progress<()>
    requires heap { IsOf heap.now pass.old }
    requires object { object < length heap.now.heap.shape.objects }
    requires due { IsDueOn heap.now pass.old context.now.task
        (wait_going heap.now.heap.shape context.now (start_now heap.now pass.old) object now) }
    requires room { length pass.old.known.log + most_logged pass.old.known (Wait object now) ≤ pass.old.limit }
    ensures { HasMadeSteps heap.now (wait_going heap.now.heap.shape context.now (start_now heap.now pass.old) object now)
        pass.old pass.new result }
{
    if waits_on(pass.wait_word(), object) {
        let saved = pass.saved();
        return monitor_resume(heap, pass, context, saved, object);
    }
    wait_anew(heap, pass, context, object, now)
}

/// Waits on the object: lets its monitor go, with all recursions, until another thread notifies this one. `now` is the
/// moment for the policy of bulk operations, in milliseconds from 1. The same call goes on with a wait that is unfinished.
///
/// `Done(())` says that the thread was notified, and owns the monitor again with the recursions that it had: the
/// Resume is logged, after the Wait where this call let go, and nothing is unfinished.
///
/// Pending, the wait stays unfinished.
///
/// Where the thread has not let go, nothing is logged:
///
/// - `Raced { expected, found }`: an exchange of this call missed.
/// - `Inflating`: the loaded mark was 0, as another thread is inflating the lock.
/// - `Stopping { word }`: the thread's request for a safepoint stands, and by `word` another thread runs still.
/// - `Requested { word }`: by `word` another thread has a request.
///
/// Where it has let go, this call logged the Wait, or an earlier one:
///
/// - `NotNotified { word }`: the thread's waiting word, which is `word`, tells of no notify.
/// - `Owned { word }`: the thread was notified, and the owner word of the object's monitor, which is `word`, names
///   another thread.
///
/// The log needs room for two entries where the wait begins, and for the Resume alone where it has let go.
///
/// # Errors
///
/// `IllegalMonitorState` exactly where the thread has no hold on the object. Then no step is made.
///
/// In OpenJDK 8: `ObjectSynchronizer::wait` (`synchronizer.cpp`), `ObjectMonitor::wait` (`objectMonitor.cpp`).
pub fn wait(
    heap: &Heap,
    pass: &mut Pass,
    object: u32,
    now: u64,
) -> Result<Progress<()>, IllegalMonitorState>
    requires { MayOperate heap.now pass.old (Wait object now) }
    ensures rests { Rests heap.now pass.new }
    ensures run { HasMadeSteps heap.now (wait_steps heap.now.heap.shape (start_now heap.now pass.old) object now)
        pass.old pass.new result }
    ensures says { Tells pass.old.known pass.new.known
        (λ ms. WaitSays (start_now heap.now pass.old) object ms result) }
    ensures stands { StandsOrSame pass.old.known pass.new.known result }
    ensures others { PendsOrRefused pass.old.known.thread result }
    ensures owner { IsRefusedUnheld pass.old.known.log object result }
{
    if pass.held(object) == 0 {
        return Err(IllegalMonitorState);
    }
    let context = unfinished(HeapCall::Wait { object, now }, Operation::Wait, object);
    Ok(wait_held(heap, pass, &context, object, now))
}

// The object's mark has this form, and no bias pattern.
fn notify_by(
    heap: &Heap,
    pass: &mut Pass,
    context: &CallContext,
    object: u32,
    form: MarkForm,
) -> Progress<Option<u32>>
    requires heap { IsOf heap.now pass.old }
    requires object { object < length heap.now.heap.shape.objects }
    requires due { IsDueOn heap.now pass.old context.now.task
        (notify_at (Some form) heap.now.heap.shape context.now (local_of pass.old.known) object) }
    requires room { length pass.old.known.log < pass.old.limit }
    ensures { HasMadeSteps heap.now
        (notify_at (Some form) heap.now.heap.shape context.now (local_of pass.old.known) object)
        pass.old pass.new result }
{
    match form {
        MarkForm::Inflating => Progress::Pending(PendingCause::Inflating),
        MarkForm::Locked { .. } => {
            let woken = None;
            publish(heap, pass, context, Entry::Notify { object, woken });
            Progress::Done(woken)
        }
        MarkForm::Inflated { .. } => Progress::Done(monitor_notify(heap, pass, context, object)),
        _ => unreachable!(),
    }
}

// The object's mark has no bias pattern.
fn notify_marked(
    heap: &Heap,
    pass: &mut Pass,
    context: &CallContext,
    object: u32,
) -> Progress<Option<u32>>
    requires heap { IsOf heap.now pass.old }
    requires object { object < length heap.now.heap.shape.objects }
    requires due { IsDueOn heap.now pass.old context.now.task
        (marked_notify heap.now.heap.shape context.now (local_of pass.old.known) object) }
    requires room { length pass.old.known.log < pass.old.limit }
    ensures { HasMadeSteps heap.now (marked_notify heap.now.heap.shape context.now (local_of pass.old.known) object)
        pass.old pass.new result }
{
    let mark = heap.load(pass, context, Stage::Settled, WordId::Mark { object });
    match mark_of_word(mark) {
        Some(form) => notify_by(heap, pass, context, object, form),
        None => unreachable!(),
    }
}

// The thread has a hold on the object.
fn notify_held(
    heap: &Heap,
    pass: &mut Pass,
    context: &CallContext,
    object: u32,
    now: u64,
) -> Progress<Option<u32>>
    requires heap { IsOf heap.now pass.old }
    requires object { object < length heap.now.heap.shape.objects }
    requires due { IsDueOn heap.now pass.old context.now.task
        (notify_going heap.now.heap.shape context.now (start_now heap.now pass.old) object now) }
    requires room { length pass.old.known.log < pass.old.limit }
    ensures { HasMadeSteps heap.now
        (notify_going heap.now.heap.shape context.now (start_now heap.now pass.old) object now)
        pass.old pass.new result }
{
    let bias = Revocation {
        object,
        rebias: false,
        moment: now,
    };
    match unbias(heap, pass, context, &bias) {
        Progress::Done(()) => notify_marked(heap, pass, context, object),
        Progress::Pending(cause) => Progress::Pending(cause),
    }
}

/// Notifies the thread that has waited on the object longest: the one with the smallest stamp, and at equal stamps
/// with the smallest number. `now` is the moment for the policy of bulk operations, in milliseconds from 1.
///
/// `Done(Some(thread))` says which thread was notified, and `Done(None)` that none waited, as where a lock record of
/// this thread has the lock: the Notify is logged with this answer, and nothing is unfinished.
///
/// Pending, nobody is notified and nothing logged, and the notify stays unfinished:
///
/// - `Raced { expected, found }`: an exchange of this call missed.
/// - `Inflating`: the loaded mark was 0, as another thread is inflating the lock.
/// - `Stopping { word }`: the thread's request for a safepoint stands, and by `word` another thread runs still.
/// - `Requested { word }`: by `word` another thread has a request.
///
/// # Errors
///
/// `IllegalMonitorState` exactly where the thread has no hold on the object. Then no step is made.
///
/// In OpenJDK 8: `ObjectSynchronizer::notify` (`synchronizer.cpp`), `ObjectMonitor::notify` (`objectMonitor.cpp`).
pub fn notify(
    heap: &Heap,
    pass: &mut Pass,
    object: u32,
    now: u64,
) -> Result<Progress<Option<u32>>, IllegalMonitorState>
    requires { MayOperate heap.now pass.old (Notify object now) }
    ensures rests { Rests heap.now pass.new }
    ensures run { HasMadeSteps heap.now (notify_steps heap.now.heap.shape (start_now heap.now pass.old) object now)
        pass.old pass.new result }
    ensures says { Tells pass.old.known pass.new.known
        (λ ms. NotifySays (start_now heap.now pass.old) object ms result) }
    ensures wakes { Tells pass.old.known pass.new.known
        (λ ms. IfDone (OwnerWakes pass.old.known.thread heap.now.heap.shape object) ms result) }
    ensures stands { StandsOrSame pass.old.known pass.new.known result }
    ensures others { PendsOrRefused pass.old.known.thread result }
    ensures owner { IsRefusedUnheld pass.old.known.log object result }
{
    if pass.held(object) == 0 {
        return Err(IllegalMonitorState);
    }
    let context = unfinished(HeapCall::Notify { object, now }, Operation::Notify, object);
    Ok(notify_held(heap, pass, &context, object, now))
}

// The object's mark has this form, and no bias pattern.
fn notify_all_by(
    heap: &Heap,
    pass: &mut Pass,
    context: &CallContext,
    object: u32,
    form: MarkForm,
) -> Progress<u32>
    requires heap { IsOf heap.now pass.old }
    requires object { object < length heap.now.heap.shape.objects }
    requires due { IsDueOn heap.now pass.old context.now.task
        (notify_all_at (Some form) heap.now.heap.shape context.now (local_of pass.old.known) object) }
    requires room { length pass.old.known.log < pass.old.limit }
    ensures { HasMadeSteps heap.now
        (notify_all_at (Some form) heap.now.heap.shape context.now (local_of pass.old.known) object)
        pass.old pass.new result }
{
    match form {
        MarkForm::Inflating => Progress::Pending(PendingCause::Inflating),
        MarkForm::Locked { .. } => {
            publish(heap, pass, context, Entry::NotifyAll { object, woken: 0 });
            Progress::Done(0)
        }
        MarkForm::Inflated { .. } => Progress::Done(monitor_notify_all(
            heap, pass, context, object,
        )),
        _ => unreachable!(),
    }
}

// The object's mark has no bias pattern.
fn notify_all_marked(
    heap: &Heap,
    pass: &mut Pass,
    context: &CallContext,
    object: u32,
) -> Progress<u32>
    requires heap { IsOf heap.now pass.old }
    requires object { object < length heap.now.heap.shape.objects }
    requires due { IsDueOn heap.now pass.old context.now.task
        (marked_notify_all heap.now.heap.shape context.now (local_of pass.old.known) object) }
    requires room { length pass.old.known.log < pass.old.limit }
    ensures { HasMadeSteps heap.now (marked_notify_all heap.now.heap.shape context.now (local_of pass.old.known) object)
        pass.old pass.new result }
{
    let mark = heap.load(pass, context, Stage::Settled, WordId::Mark { object });
    match mark_of_word(mark) {
        Some(form) => notify_all_by(heap, pass, context, object, form),
        None => unreachable!(),
    }
}

// The thread has a hold on the object.
fn notify_all_held(
    heap: &Heap,
    pass: &mut Pass,
    context: &CallContext,
    object: u32,
    now: u64,
) -> Progress<u32>
    requires heap { IsOf heap.now pass.old }
    requires object { object < length heap.now.heap.shape.objects }
    requires due { IsDueOn heap.now pass.old context.now.task
        (notify_all_going heap.now.heap.shape context.now (start_now heap.now pass.old) object now) }
    requires room { length pass.old.known.log < pass.old.limit }
    ensures { HasMadeSteps heap.now
        (notify_all_going heap.now.heap.shape context.now (start_now heap.now pass.old) object now)
        pass.old pass.new result }
{
    let bias = Revocation {
        object,
        rebias: false,
        moment: now,
    };
    match unbias(heap, pass, context, &bias) {
        Progress::Done(()) => notify_all_marked(heap, pass, context, object),
        Progress::Pending(cause) => Progress::Pending(cause),
    }
}

/// Notifies each thread that waits on the object, the one that has waited longest first. `now` is the moment for the
/// policy of bulk operations, in milliseconds from 1.
///
/// `Done(woken)` says how many there were, which is 0 where a lock record of this thread has the lock: each is
/// notified, the NotifyAll of so many is logged, and nothing is unfinished.
///
/// Pending, nobody is notified and nothing logged, and the notify stays unfinished:
///
/// - `Raced { expected, found }`: an exchange of this call missed.
/// - `Inflating`: the loaded mark was 0, as another thread is inflating the lock.
/// - `Stopping { word }`: the thread's request for a safepoint stands, and by `word` another thread runs still.
/// - `Requested { word }`: by `word` another thread has a request.
///
/// # Errors
///
/// `IllegalMonitorState` exactly where the thread has no hold on the object. Then no step is made.
///
/// In OpenJDK 8: `ObjectSynchronizer::notifyall` (`synchronizer.cpp`), `ObjectMonitor::notifyAll`
/// (`objectMonitor.cpp`).
pub fn notify_all(
    heap: &Heap,
    pass: &mut Pass,
    object: u32,
    now: u64,
) -> Result<Progress<u32>, IllegalMonitorState>
    requires { MayOperate heap.now pass.old (NotifyAll object now) }
    ensures rests { Rests heap.now pass.new }
    ensures run { HasMadeSteps heap.now (notify_all_steps heap.now.heap.shape (start_now heap.now pass.old) object now)
        pass.old pass.new result }
    ensures says { Tells pass.old.known pass.new.known
        (λ ms. NotifyAllSays (start_now heap.now pass.old) object ms result) }
    ensures wakes { Tells pass.old.known pass.new.known
        (λ ms. IfDone (OwnerWakesAll pass.old.known.thread heap.now.heap.shape object) ms result) }
    ensures stands { StandsOrSame pass.old.known pass.new.known result }
    ensures others { PendsOrRefused pass.old.known.thread result }
    ensures owner { IsRefusedUnheld pass.old.known.log object result }
{
    if pass.held(object) == 0 {
        return Err(IllegalMonitorState);
    }
    let context = unfinished(
        HeapCall::NotifyAll { object, now },
        Operation::NotifyAll,
        object,
    );
    Ok(notify_all_held(heap, pass, &context, object, now))
}
