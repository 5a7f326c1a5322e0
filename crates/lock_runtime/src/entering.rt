//! The call that enters an object.
ghost use Rattle.std.specs.Prelude.{◌≡◌, ◌<◌, length, Some};
ghost use Rattle.mark_word.specs.Mark.{read_mark};
ghost use Rattle.core_world.specs.declared.heap_call.HeapCall.TheVariants.{Enter};
ghost use Rattle.core_world.specs.Trees.Operations.{enter_at, enter_monitor_steps, enter_revoked, enter_going, enter_steps};
ghost use Rattle.core_calls.specs.Paths.{Tells};
ghost use Rattle.core_calls.specs.CallsSay.{EnterSays};
ghost use Rattle.heap_table.specs.Parts.{IsDueOn, HasMadeSteps};
ghost use Rattle.heap_table.specs.Quick.{prototype_enter};
ghost use Rattle.heap_table.specs.Resting.{MayOperate, Rests, start_now};
ghost use Rattle.heap_table.specs.Seen.{IsOf};
ghost use Rattle.heap_table.specs.declared.quick.QuickEnter.TheVariants as enters;
ghost use Rattle.lock_runtime.specs.Begun.{EndsEnter, IsAmidEnter};
ghost use Rattle.lock_runtime.specs.inner.Parts.{enter_again, enter_first};
ghost use Rattle.lock_runtime.specs.Standing.{StandsOrSame};
ghost use Rattle.lock_runtime.specs.Others.{PendsOrRefused};

use crate::contexts::unfinished;
use crate::revoking::revocation;
use bias_lock::{bias_after, bias_enter, bias_enter_loaded};
use core_world::{BiasTry, HeapCall, Operation, PendingCause, Progress, TooDeep};
use heap_table::{CallContext, Heap, Pass, QuickEnter, mark_of_word};
use mark_word::MarkForm;
use object_monitor::{inflate, monitor_enter, monitor_enter_found};
use plain_monitor::Path;
use safepoint_work::Revocation;
use stack_lock::stack_enter;

// Another thread has the lock by a record: it is inflated, and entered by the monitor.
fn enter_monitor(heap: &Heap, pass: &mut Pass, context: &CallContext, object: u32) -> Progress<Path>
    requires heap { IsOf heap.now pass.old }
    requires object { object < length heap.now.heap.shape.objects }
    requires due { IsDueOn heap.now pass.old context.now.task
        (enter_monitor_steps heap.now.heap.shape context.now (start_now heap.now pass.old) object) }
    requires room { length pass.old.known.log < pass.old.limit }
    ensures { HasMadeSteps heap.now
        (enter_monitor_steps heap.now.heap.shape context.now (start_now heap.now pass.old) object)
        pass.old pass.new result }
{
    match inflate(heap, pass, context, object) {
        Progress::Done(monitor) => monitor_enter(heap, pass, context, object, monitor),
        Progress::Pending(cause) => Progress::Pending(cause),
    }
}

// The object's mark has this form.
fn enter_by_mark(
    heap: &Heap,
    pass: &mut Pass,
    context: &CallContext,
    object: u32,
    mark: u64,
    form: MarkForm,
) -> Progress<Path>
    requires heap { IsOf heap.now pass.old }
    requires object { object < length heap.now.heap.shape.objects }
    requires form { read_mark mark ≡ Some form }
    requires due { IsDueOn heap.now pass.old context.now.task
        (enter_at (Some form) heap.now.heap.shape context.now (start_now heap.now pass.old) object mark) }
    requires room { length pass.old.known.log < pass.old.limit }
    ensures { HasMadeSteps heap.now
        (enter_at (Some form) heap.now.heap.shape context.now (start_now heap.now pass.old) object mark)
        pass.old pass.new result }
{
    match form {
        MarkForm::Inflating => Progress::Pending(PendingCause::Inflating),
        MarkForm::Neutral { .. } => stack_enter(heap, pass, context, object, mark),
        MarkForm::Locked { thread, .. } => {
            if thread == pass.thread() {
                stack_enter(heap, pass, context, object, mark)
            } else {
                enter_monitor(heap, pass, context, object)
            }
        }
        MarkForm::Inflated { monitor } => monitor_enter(heap, pass, context, object, monitor),
        _ => unreachable!(),
    }
}

// The object's mark, as it was found or made, has no bias pattern.
fn enter_marked(
    heap: &Heap,
    pass: &mut Pass,
    context: &CallContext,
    object: u32,
    mark: u64,
) -> Progress<Path>
    requires heap { IsOf heap.now pass.old }
    requires object { object < length heap.now.heap.shape.objects }
    requires due { IsDueOn heap.now pass.old context.now.task
        (enter_at (read_mark mark) heap.now.heap.shape context.now (start_now heap.now pass.old) object mark) }
    requires room { length pass.old.known.log < pass.old.limit }
    ensures { HasMadeSteps heap.now
        (enter_at (read_mark mark) heap.now.heap.shape context.now (start_now heap.now pass.old) object mark)
        pass.old pass.new result }
{
    match mark_of_word(mark) {
        Some(form) => enter_by_mark(heap, pass, context, object, mark, form),
        None => unreachable!(),
    }
}

// The object's bias was revoked at the thread's safepoint, which is over. `took` says whether the thread gave itself a new
// one.
fn enter_again(
    heap: &Heap,
    pass: &mut Pass,
    context: &CallContext,
    object: u32,
    took: bool,
) -> Progress<Path>
    requires heap { IsOf heap.now pass.old }
    requires object { object < length heap.now.heap.shape.objects }
    requires due { IsDueOn heap.now pass.old context.now.task
        (enter_again heap.now.heap.shape context.now (start_now heap.now pass.old) object took) }
    requires room { length pass.old.known.log < pass.old.limit }
    ensures { HasMadeSteps heap.now
        (enter_again heap.now.heap.shape context.now (start_now heap.now pass.old) object took)
        pass.old pass.new result }
{
    match bias_after(heap, pass, context, object, took) {
        BiasTry::Took(path) => Progress::Done(path),
        BiasTry::Unbiased { mark } => enter_marked(heap, pass, context, object, mark),
        BiasTry::Raced { expected, found } => Progress::Pending(PendingCause::Raced {
            expected,
            found,
        }),
        BiasTry::Valid { .. } => unreachable!(),
    }
}

// Another thread has a valid bias of the object: it is revoked at a safepoint, and the mark is loaded again.
fn enter_revoked(
    heap: &Heap,
    pass: &mut Pass,
    context: &CallContext,
    bias: &Revocation,
    requesting: bool,
) -> Progress<Path>
    requires heap { IsOf heap.now pass.old }
    requires object { bias.now.object < length heap.now.heap.shape.objects }
    requires due { IsDueOn heap.now pass.old context.now.task
        (enter_revoked heap.now.heap.shape requesting context.now (start_now heap.now pass.old) bias.now) }
    requires room { length pass.old.known.log < pass.old.limit }
    ensures { HasMadeSteps heap.now
        (enter_revoked heap.now.heap.shape requesting context.now (start_now heap.now pass.old) bias.now)
        pass.old pass.new result }
{
    match revocation(heap, pass, context, bias, requesting) {
        Progress::Done(took) => enter_again(heap, pass, context, bias.object, took),
        Progress::Pending(cause) => Progress::Pending(cause),
    }
}

// No request of the thread stands: it tries the bias first.
fn enter_first(
    heap: &Heap,
    pass: &mut Pass,
    context: &CallContext,
    bias: &Revocation,
) -> Progress<Path>
    requires heap { IsOf heap.now pass.old }
    requires object { bias.now.object < length heap.now.heap.shape.objects }
    requires due { IsDueOn heap.now pass.old context.now.task
        (enter_first heap.now.heap.shape context.now (start_now heap.now pass.old) bias.now) }
    requires room { length pass.old.known.log < pass.old.limit }
    ensures { HasMadeSteps heap.now (enter_first heap.now.heap.shape context.now (start_now heap.now pass.old) bias.now)
        pass.old pass.new result }
{
    match bias_enter(heap, pass, context, bias.object) {
        BiasTry::Took(path) => Progress::Done(path),
        BiasTry::Unbiased { mark } => enter_marked(heap, pass, context, bias.object, mark),
        BiasTry::Valid { .. } => enter_revoked(heap, pass, context, bias, false),
        BiasTry::Raced { expected, found } => Progress::Pending(PendingCause::Raced {
            expected,
            found,
        }),
    }
}

// The thread has a place for one more hold.
fn enter_placed(
    heap: &Heap,
    pass: &mut Pass,
    context: &CallContext,
    bias: &Revocation,
) -> Progress<Path>
    requires heap { IsOf heap.now pass.old }
    requires object { bias.now.object < length heap.now.heap.shape.objects }
    requires due { IsDueOn heap.now pass.old context.now.task
        (enter_going heap.now.heap.shape context.now (start_now heap.now pass.old) bias.now) }
    requires room { length pass.old.known.log < pass.old.limit }
    ensures { HasMadeSteps heap.now (enter_going heap.now.heap.shape context.now (start_now heap.now pass.old) bias.now)
        pass.old pass.new result }
{
    if pass.requesting() {
        return enter_revoked(heap, pass, context, bias, true);
    }
    enter_first(heap, pass, context, bias)
}

// Nothing is made yet.
#[inline(never)]
fn enter_slowly(
    heap: &Heap,
    pass: &mut Pass,
    object: u32,
    now: u64,
) -> Result<Progress<Path>, TooDeep>
    requires { MayOperate heap.now pass.old (Enter object now) }
    ensures rests { Rests heap.now pass.new }
    ensures run { HasMadeSteps heap.now (enter_steps heap.now.heap.shape (start_now heap.now pass.old) object now)
        pass.old pass.new result }
    ensures says { Tells pass.old.known pass.new.known
        (λ ms. EnterSays (start_now heap.now pass.old) object ms result) }
    ensures stands { StandsOrSame pass.old.known pass.new.known result }
    ensures others { PendsOrRefused pass.old.known.thread result }
{
    if pass.is_full() {
        return Err(TooDeep);
    }
    let context = unfinished(HeapCall::Enter { object, now }, Operation::Enter, object);
    let bias = Revocation {
        object,
        rebias: true,
        moment: now,
    };
    Ok(enter_placed(heap, pass, &context, &bias))
}

/// Goes on with an enter of which `quick_enter` has loaded this mark, which has no bias pattern. From the pass on which it
/// began, this is what `enter` does and answers.
#[inline(never)]
pub fn enter_from_mark(
    heap: &Heap,
    pass: &mut Pass,
    object: u32,
    now: u64,
    mark: u64,
) -> Progress<Path>
    requires { IsAmidEnter heap.now pass.old object now (enters.Unbiased mark) }
    ensures rests { Rests heap.now pass.new }
    ensures whole { EndsEnter heap.now pass.old pass.new object now (enters.Unbiased mark) result }
{
    let context = unfinished(HeapCall::Enter { object, now }, Operation::Enter, object);
    enter_marked(heap, pass, &context, object, mark)
}

/// Goes on with an enter of which `quick_enter` has found this other owner word of this monitor. From the pass on which it
/// began, this is what `enter` does and answers.
#[inline(never)]
pub fn enter_from_owner(
    heap: &Heap,
    pass: &mut Pass,
    object: u32,
    now: u64,
    monitor: u32,
    found: u64,
) -> Progress<Path>
    requires { IsAmidEnter heap.now pass.old object now (enters.Taken monitor found) }
    ensures rests { Rests heap.now pass.new }
    ensures whole { EndsEnter heap.now pass.old pass.new object now (enters.Taken monitor found) result }
{
    let context = unfinished(HeapCall::Enter { object, now }, Operation::Enter, object);
    monitor_enter_found(heap, pass, &context, object, monitor, found)
}

// The mark was found, which has the bias pattern, and the prototype of the class.
#[inline(always)]
fn enter_by_prototype(
    heap: &Heap,
    pass: &mut Pass,
    object: u32,
    now: u64,
    mark: u64,
    prototype: u64,
) -> Progress<Path>
    requires heap { IsOf heap.now pass.old }
    requires object { object < length heap.now.heap.shape.objects }
    requires due { IsDueOn heap.now pass.old (Enter object now)
        (prototype_enter heap.now.heap.shape (start_now heap.now pass.old) object now mark prototype) }
    requires room { length pass.old.known.log < pass.old.limit }
    ensures { HasMadeSteps heap.now
        (prototype_enter heap.now.heap.shape (start_now heap.now pass.old) object now mark prototype)
        pass.old pass.new result }
{
    let context = unfinished(HeapCall::Enter { object, now }, Operation::Enter, object);
    let rebias = true;
    let bias = Revocation {
        object,
        rebias,
        moment: now,
    };
    match bias_enter_loaded(heap, pass, &context, object, mark, prototype) {
        BiasTry::Took(path) => Progress::Done(path),
        BiasTry::Unbiased { mark } => enter_marked(heap, pass, &context, object, mark),
        BiasTry::Valid { .. } => enter_revoked(heap, pass, &context, &bias, false),
        BiasTry::Raced { expected, found } => Progress::Pending(PendingCause::Raced {
            expected,
            found,
        }),
    }
}

/// Goes on with an enter of which `quick_enter` has loaded this mark, which has the bias pattern, and this prototype of the
/// class. From the pass on which it began, this is what `enter` does and answers.
#[inline(never)]
pub fn enter_from_prototype(
    heap: &Heap,
    pass: &mut Pass,
    object: u32,
    now: u64,
    mark: u64,
    prototype: u64,
) -> Progress<Path>
    requires { IsAmidEnter heap.now pass.old object now (enters.Biased mark prototype) }
    ensures rests { Rests heap.now pass.new }
    ensures whole { EndsEnter heap.now pass.old pass.new object now (enters.Biased mark prototype) result }
{
    enter_by_prototype(heap, pass, object, now, mark, prototype)
}

/// Takes a hold of the object. `now` is the moment for the policy of bulk operations, in milliseconds from 1.
///
/// `Done(path)` says that the thread has one more hold, by this path: the Enter is logged, and nothing is unfinished.
///
/// Pending, no hold is taken and nothing logged, and the enter stays unfinished:
///
/// - `Owned { word }`: the owner word of the object's monitor, which is `word`, names another thread.
/// - `Raced { expected, found }`: an exchange of this call missed.
/// - `Inflating`: the loaded mark was 0, as another thread is inflating the lock.
/// - `Stopping { word }`: the thread's request for a safepoint stands, and by `word` another thread runs still.
/// - `Requested { word }`: by `word` another thread has a request.
///
/// # Errors
///
/// `TooDeep` exactly where the thread has 64 holds. Then no step is made.
///
/// In OpenJDK 8: `ObjectSynchronizer::fast_enter` and `slow_enter` (`synchronizer.cpp`).
#[inline(always)]
pub fn enter(heap: &Heap, pass: &mut Pass, object: u32, now: u64) -> Result<Progress<Path>, TooDeep>
    requires { MayOperate heap.now pass.old (Enter object now) }
    ensures rests { Rests heap.now pass.new }
    ensures run { HasMadeSteps heap.now (enter_steps heap.now.heap.shape (start_now heap.now pass.old) object now)
        pass.old pass.new result }
    ensures says { Tells pass.old.known pass.new.known
        (λ ms. EnterSays (start_now heap.now pass.old) object ms result) }
    ensures stands { StandsOrSame pass.old.known pass.new.known result }
    ensures others { PendsOrRefused pass.old.known.thread result }
{
    if !pass.is_free() {
        return enter_slowly(heap, pass, object, now);
    }
    match heap.quick_enter(pass, object, now) {
        QuickEnter::Not => enter_slowly(heap, pass, object, now),
        QuickEnter::Done { path } => Ok(Progress::Done(path)),
        QuickEnter::Raced { expected, found } => Ok(Progress::Pending(PendingCause::Raced {
            expected,
            found,
        })),
        QuickEnter::Unbiased { mark } => Ok(enter_from_mark(heap, pass, object, now, mark)),
        QuickEnter::Biased { mark, prototype } => {
            Ok(enter_from_prototype(heap, pass, object, now, mark, prototype))
        }
        QuickEnter::Taken { monitor, found } => {
            Ok(enter_from_owner(heap, pass, object, now, monitor, found))
        }
    }
}
