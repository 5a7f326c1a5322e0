//! The call that a thread is at.

ghost use Rattle.std.specs.Prelude.{◌≡◌, Some};
ghost use Rattle.core_calls.specs.Causes.{of_waits};
ghost use Rattle.plain_machine.specs.declared.monitor_call.MonitorCall.TheVariants as call;
ghost use Rattle.plain_machine.specs.declared.monitor_call.Mode.TheVariants.{Calling};
ghost use Rattle.thread_calls.specs.Advances.{HasAdvanced, MayAdvance, progress_of};
ghost use Rattle.thread_calls.specs.Between.{IsHeapOf};
ghost use Rattle.thread_calls.specs.inner.Made.{IsAfterCall};
ghost use Rattle.thread_calls.specs.Timed.{StaysTimed};
ghost use Rattle.thread_frame.specs.Frames.{before_call, IsAtInstruction};

use crate::came::{Went, tell};
use crate::run_context::RunContext;
use crate::runtime_calls::{call_runtime, enter, exit, get, put};
use crate::timing::time_now;
use core_world::{PendingCause, Progress};
use heap_table::Pass;
use lock_runtime as runtime;
use plain_machine::{MonitorCall, NextEntry};
use plain_monitor::Entry;
use run_io::Clock;
use thread_frame::Frame;

/// Makes the call that the thread is at. Only where it is pending does the frame stand before it then, and is a cause written. The calls that most
/// instructions are have places of their own, so that no answer of theirs goes through memory; `call_runtime` makes the rest.
#[inline]
pub(crate) fn call<C: Clock>(
    run: &RunContext<C>,
    pass: &mut Pass,
    frame: &mut Frame,
    call: MonitorCall,
    cause: &mut PendingCause,
) -> Went
    requires heap { IsHeapOf run.now.heap.now run.now.program.now }
    requires may { MayAdvance run.now.heap.now run.now.program.now run.now.fuel
        pass.old (before_call frame.old call) }
    requires placed { IsAtInstruction frame.old.place frame.old.made (Some (Calling call)) }
    ensures advanced { HasAdvanced run.now.heap.now run.now.program.now run.now.fuel
        pass.old pass.new (before_call frame.old call) frame.new (progress_of result cause.new) }
    ensures timed { StaysTimed run.now.tick pass.old pass.new }
{
    match call {
        MonitorCall::Enter { object } => {
            let progress = enter(run.heap, pass, object, time_now(run.clock, run.tick));
            go_past(frame, MonitorCall::Enter { object }, progress, cause)
        }
        MonitorCall::Exit { object } => {
            let progress = exit(run.heap, pass, object);
            go_past(frame, MonitorCall::Exit { object }, progress, cause)
        }
        MonitorCall::Get {
            local,
            object,
            slot,
        } => {
            let progress = get(run.heap, pass, local, object, slot);
            let made = MonitorCall::Get {
                local,
                object,
                slot,
            };
            go_past(frame, made, progress, cause)
        }
        MonitorCall::Put {
            object,
            slot,
            value,
        } => {
            let progress = put(run.heap, pass, object, slot, value);
            let made = MonitorCall::Put {
                object,
                slot,
                value,
            };
            go_past(frame, made, progress, cause)
        }
        MonitorCall::Wait { object } => {
            let progress = begin_wait(run, pass, frame, object);
            tell(progress, cause)
        }
        _ => {
            let progress = call_runtime(run, pass, call);
            go_past(frame, call, progress, cause)
        }
    }
}

// Moves on past the call that was made, or stands before it where it is pending. It is built into each place that calls it, where the compiler
// knows the call, and so what of its answer the frame takes.
#[inline(always)]
fn go_past(
    frame: &mut Frame,
    call: MonitorCall,
    progress: Progress<Entry>,
    cause: &mut PendingCause,
) -> Went
    requires { IsAtInstruction frame.old.place frame.old.made (Some (Calling call)) }
    ensures { IsAfterCall frame.old frame.new call progress (progress_of result cause.new) }
{
    match progress {
        Progress::Done(entry) => {
            frame.follow(NextEntry::Calls { call }, &entry);
            Went::Done
        }
        Progress::Pending(why) => {
            frame.stand_before(call);
            *cause = why;
            Went::Pending
        }
    }
}

// Whether a wait that is pending for this has let go.
fn has_let_go(why: PendingCause) -> bool
    ensures { result ≡ of_waits why }
{
    matches!(
        why,
        PendingCause::Owned { .. } | PendingCause::NotNotified { .. }
    )
}

// Begins to wait on the object, and may go on up to the end of the wait.
#[inline(never)]
fn begin_wait<C: Clock>(
    run: &RunContext<C>,
    pass: &mut Pass,
    frame: &mut Frame,
    object: u32,
) -> Progress<bool>
    requires heap { IsHeapOf run.now.heap.now run.now.program.now }
    requires may { MayAdvance run.now.heap.now run.now.program.now run.now.fuel
        pass.old (before_call frame.old (call.Wait object)) }
    requires placed { IsAtInstruction frame.old.place frame.old.made (Some (Calling (call.Wait object))) }
    ensures advanced { HasAdvanced run.now.heap.now run.now.program.now run.now.fuel
        pass.old pass.new (before_call frame.old (call.Wait object)) frame.new result }
    ensures timed { StaysTimed run.now.tick pass.old pass.new }
{
    let call = MonitorCall::Wait { object };
    let asked = NextEntry::Calls { call };
    let entry = Entry::Wait { object };
    match runtime::wait(run.heap, pass, object, time_now(run.clock, run.tick)) {
        Ok(progress) => match progress {
            Progress::Done(()) => {
                frame.follow(asked, &entry);
                frame.follow(NextEntry::Resumes { object }, &Entry::Resume { object });
                Progress::Done(true)
            }
            Progress::Pending(why) => {
                if has_let_go(why) {
                    frame.follow(asked, &entry);
                    return Progress::Pending(why);
                }
                frame.stand_before(call);
                Progress::Pending(why)
            }
        },
        Err(_) => unreachable!(),
    }
}
