//! Calls that look at all threads and objects at a safepoint: a check whether the run is stuck, and a dump. Both give
//! idle monitors back before the safepoint ends.
ghost use Rattle.std.specs.Prelude.{◌≡◌, ◌+◌, ◌<◌, ℕ, length, true, Ok};
ghost use Rattle.core_world.specs.declared.heap_call.HeapCall.TheVariants.{Check, Dump};
ghost use Rattle.core_world.specs.declared.answer.Progress.TheVariants as progress;
ghost use Rattle.core_world.specs.Threads.ThreadView.{local_of};
ghost use Rattle.core_world.specs.Trees.Operations.{check_ending, check_steps, dump_steps};
ghost use Rattle.core_calls.specs.Paths.{Tells};
ghost use Rattle.core_calls.specs.CallsSay.{CheckSays, DumpSays};
ghost use Rattle.core_calls.specs.Stuck.{CheckFinds};
ghost use Rattle.heap_table.specs.Parts.{IsDueOn, HasMadeSteps};
ghost use Rattle.heap_table.specs.Resting.{MayCall, MayOperate, Rests, start_now};
ghost use Rattle.heap_table.specs.Seen.{IsOf};
ghost use Rattle.lock_runtime.specs.inner.LookParts.{checking, reached_check, check_going};
ghost use Rattle.lock_runtime.specs.LookParts.{HasDumped};
ghost use Rattle.lock_runtime.specs.inner.LookParts.{told_dump, reached_dump, numbered_dump};
ghost use Rattle.lock_runtime.specs.Standing.{StandsOrSame, StandsAfterCheckTurn};
ghost use Rattle.lock_runtime.specs.Others.{PendsForAnother, PendsOrRefused};
ghost use Rattle.lock_runtime.specs.Shots.{HasShots};

use crate::contexts::unfinished;
use core_world::{HeapCall, Operation, Progress, Stage, TooManyDumps};
use heap_census::{stands_still, take_shot};
use heap_table::{CallContext, Heap, Pass};
use object_monitor::publish;
use plain_monitor::Entry;
use safepoint::{halt, release, safepoint};
use safepoint_work::deflate_idle;

// The thread's safepoint ends: by the halt where the run stands still, and else by the release.
fn end_check(heap: &Heap, pass: &mut Pass, context: &CallContext, still: bool) -> Progress<bool>
    requires heap { IsOf heap.now pass.old }
    requires due { IsDueOn heap.now pass.old context.now.task (check_ending still context.now pass.old.known.thread) }
    ensures { HasMadeSteps heap.now (check_ending still context.now pass.old.known.thread) pass.old pass.new result }
{
    if still {
        halt(heap, pass, context);
        return Progress::Done(true);
    }
    release(heap, pass, context);
    Progress::Done(false)
}

// The thread has its safepoint.
fn check_reached(heap: &Heap, pass: &mut Pass, context: &CallContext) -> Progress<bool>
    requires heap { IsOf heap.now pass.old }
    requires due { IsDueOn heap.now pass.old context.now.task
        (reached_check heap.now.heap.shape pass.old.known.thread context.now) }
    ensures { HasMadeSteps heap.now (reached_check heap.now.heap.shape pass.old.known.thread context.now)
        pass.old pass.new result }
{
    let still = stands_still(heap, pass, context);
    deflate_idle(heap, pass, context, Stage::Settled);
    end_check(heap, pass, context, still)
}

// A check asks for a safepoint, or goes on with the one that it asked for.
fn check_asking(
    heap: &Heap,
    pass: &mut Pass,
    context: &CallContext,
    requesting: bool,
) -> Progress<bool>
    requires heap { IsOf heap.now pass.old }
    requires due { IsDueOn heap.now pass.old context.now.task
        (check_going heap.now.heap.shape pass.old.known.thread requesting context.now) }
    ensures { HasMadeSteps heap.now (check_going heap.now.heap.shape pass.old.known.thread requesting context.now)
        pass.old pass.new result }
{
    match safepoint(heap, pass, context, requesting) {
        Progress::Done(()) => check_reached(heap, pass, context),
        Progress::Pending(cause) => Progress::Pending(cause),
    }
}

// A check leaves the unfinished operation as it is.
fn checking(pass: &Pass) -> CallContext
    ensures { result ≡ checking pass.now.known.unfinished }
{
    CallContext {
        task: HeapCall::Check,
        unfinished: pass.unfinished(),
        check: true,
    }
}

/// Looks at a safepoint of the thread's own whether the run is stuck.
///
/// `Done(true)` says that it is: some thread has not ended, and each such thread waits to be notified, or waits for a
/// monitor that another thread owns. Then the run is halted, and no thread runs any more. `Done(false)` says that all
/// threads have ended, or that some thread waits for nothing, or for a monitor that is free or its own. Then the
/// safepoint is over, and the thread runs on.
///
/// Pending, nothing was looked at. `Stopping { word }` says that the thread's request stands and the check is unfinished: by
/// `word` another thread runs still. After the others the thread runs on, and no check is unfinished. `Requested { word }`
/// says that another thread has a request by `word`, which was loaded or found by the exchange. `Raced { expected, found }`
/// says that the exchange found another word, with no request.
///
/// Where it is done, idle monitors were given back before the halt or the release.
/// Nothing is logged, and an unfinished operation stays so.
///
/// In OpenJDK 8: nothing; `VM_FindDeadlocks` (`vm_operations.hpp`) looks for circles.
pub fn check_stuck(heap: &Heap, pass: &mut Pass) -> Progress<bool>
    requires { MayCall heap.now pass.old Check }
    ensures rests { Rests heap.now pass.new }
    ensures run { HasMadeSteps heap.now (check_steps heap.now.heap.shape (start_now heap.now pass.old))
        pass.old pass.new result }
    ensures says { Tells pass.old.known pass.new.known (λ ms. CheckSays (start_now heap.now pass.old) ms result) }
    ensures finds { Tells pass.old.known pass.new.known (λ ms. CheckFinds heap.now.heap.shape ms result) }
    ensures stands { StandsAfterCheckTurn pass.new.known result }
    ensures others { PendsForAnother pass.old.known.thread result }
{
    let context = checking(pass);
    let requesting = pass.requesting();
    check_asking(heap, pass, &context, requesting)
}

// The shot is kept: the safepoint ends, and the dump of this number is logged.
fn tell_dump(heap: &Heap, pass: &mut Pass, context: &CallContext, number: u32) -> Progress<u32>
    requires heap { IsOf heap.now pass.old }
    requires due { IsDueOn heap.now pass.old context.now.task (told_dump context.now (local_of pass.old.known) number) }
    requires room { length pass.old.known.log < pass.old.limit }
    ensures { HasMadeSteps heap.now (told_dump context.now (local_of pass.old.known) number) pass.old pass.new result }
{
    release(heap, pass, context);
    publish(heap, pass, context, Entry::Dump { number });
    Progress::Done(number)
}

// The thread has its safepoint.
fn dump_reached(heap: &Heap, pass: &mut Pass, context: &CallContext, number: u32) -> Progress<u32>
    requires heap { IsOf heap.now pass.old }
    requires reached { pass.old.known.reached ≡ true }
    requires due { IsDueOn heap.now pass.old context.now.task
        (reached_dump heap.now.heap.shape context.now (local_of pass.old.known) number) }
    requires room { length pass.old.known.log < pass.old.limit }
    ensures { HasDumped heap.now (reached_dump heap.now.heap.shape context.now (local_of pass.old.known) number)
        pass.old pass.new result }
{
    take_shot(heap, pass, context);
    deflate_idle(heap, pass, context, Stage::Settled);
    tell_dump(heap, pass, context, number)
}

// A dump asks for a safepoint, or goes on with the one that it asked for.
fn dump_asking(
    heap: &Heap,
    pass: &mut Pass,
    context: &CallContext,
    number: u32,
    requesting: bool,
) -> Progress<u32>
    requires heap { IsOf heap.now pass.old }
    requires due { IsDueOn heap.now pass.old context.now.task
        (numbered_dump heap.now.heap.shape requesting context.now (local_of pass.old.known) number) }
    requires room { length pass.old.known.log < pass.old.limit }
    ensures { HasDumped heap.now
        (numbered_dump heap.now.heap.shape requesting context.now (local_of pass.old.known) number)
        pass.old pass.new result }
{
    match safepoint(heap, pass, context, requesting) {
        Progress::Done(()) => dump_reached(heap, pass, context, number),
        Progress::Pending(cause) => Progress::Pending(cause),
    }
}

/// Takes a shot of all locks and logs at a safepoint of the thread's own, which is over then: for each object who has its
/// lock and how often, and the length of each thread's log. After the shot idle monitors are given back.
///
/// `Done(number)` says that the pass has one more shot, the last of `Pass::shots`, and that this is its number, from 1:
/// the Dump is logged, after the shot, and nothing is unfinished.
///
/// Pending, no shot is taken and nothing logged, and the dump stays unfinished:
///
/// - `Stopping { word }`: the thread's request for a safepoint stands, and by `word` another thread runs still.
/// - `Requested { word }`: by `word`, which was loaded or found by the exchange, another thread has a request.
/// - `Raced { expected, found }`: the exchange of the request found another word, with none.
///
/// No clause says what becomes of the pass's draft of a shot.
///
/// # Errors
///
/// `TooManyDumps` exactly where the thread has 4 shots. Then no step is made.
///
/// In OpenJDK 8: `VM_ThreadDump` (`vm_operations.hpp`), which has stacks.
pub fn dump(heap: &Heap, pass: &mut Pass) -> Result<Progress<u32>, TooManyDumps>
    requires { MayOperate heap.now pass.old Dump }
    ensures rests { Rests heap.now pass.new }
    ensures run { HasDumped heap.now (dump_steps heap.now.heap.shape (start_now heap.now pass.old))
        pass.old pass.new result }
    ensures says { Tells pass.old.known pass.new.known (λ ms. DumpSays (start_now heap.now pass.old) ms result) }
    ensures shots { HasShots pass.old.known.shots pass.new.known.shots result }
    ensures stands { StandsOrSame pass.old.known pass.new.known result }
    ensures others { PendsOrRefused pass.old.known.thread result }
{
    let taken = pass.shots().len();
    if taken == 4 {
        return Err(TooManyDumps);
    }
    let context = unfinished(HeapCall::Dump, Operation::Dump, 0);
    let requesting = pass.requesting();
    Ok(dump_asking(heap, pass, &context, taken as u32 + 1, requesting))
}
