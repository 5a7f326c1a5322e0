//! The next instruction or entry of a thread.

ghost use Rattle.std.specs.Prelude.{◌≡◌, None};
ghost use Rattle.thread_calls.specs.Advances.{HasAdvanced, MayAdvance, progress_of};
ghost use Rattle.thread_calls.specs.Between.{IsHeapOf};
ghost use Rattle.thread_calls.specs.inner.Reached.{HasReached};
ghost use Rattle.thread_calls.specs.Timed.{StaysTimed};

use crate::calls::call;
use crate::came::{Went, tell};
use crate::run_context::RunContext;
use crate::waiting_and_unwinding::{continue_wait, unwind};
use core_world::PendingCause;
use heap_table::Pass;
use plain_machine::{Mode, MonitorCall};
use plain_monitor::Ending;
use run_io::Clock;
use thread_frame::{Frame, Walked};

/// Executes the next instruction of the thread, or makes its next entry where it waits or unwinds.
///
/// `Done` says that an instruction was done, `On` that the thread went on without one: it ends for want of fuel, it
/// left a hold as it unwinds, or it has ended. `Pending` says that the call isn't done, for the cause that is written
/// then, and only then: call `advance` again. Only a `wait` that released the monitor has moved on, and the next
/// `advance` continues it. A `new` makes the thread's next object on the heap, to which its local then refers; it is
/// never pending.
///
/// The run's `tick` is how many milliseconds one count of the clock stands for, and its `fuel` how many instructions
/// the thread could execute at first. A call that needs a moment gets the clock's time then, by the run's `tick`; where that is 0, the
/// clock is not looked at.
pub fn advance<C: Clock>(
    run: &RunContext<C>,
    pass: &mut Pass,
    frame: &mut Frame,
    cause: &mut PendingCause,
) -> Went
    requires heap { IsHeapOf run.now.heap.now run.now.program.now }
    requires may { MayAdvance run.now.heap.now run.now.program.now run.now.fuel pass.old frame.old }
    ensures advanced { HasAdvanced run.now.heap.now run.now.program.now run.now.fuel
        pass.old pass.new frame.old frame.new (progress_of result cause.new) }
    ensures timed { StaysTimed run.now.tick pass.old pass.new }
{
    match reach(run, pass, frame) {
        Reached::Ran => Went::Done,
        Reached::Spent => Went::On,
        Reached::Calls { call: next } => call(run, pass, frame, next, cause),
        Reached::Waits { object } => {
            let progress = continue_wait(run, pass, frame, object);
            tell(progress, cause)
        }
        Reached::Unwinds { ending } => {
            let progress = unwind(run, pass, frame, ending);
            tell(progress, cause)
        }
    }
}

/// What a thread came to without a call, or what it has to make.
#[derive(Clone, Copy)]
pub(crate) enum Reached {
    /// It executed a local instruction.
    Ran,
    /// It ends for want of fuel.
    Spent,
    /// It is at this call, or has stood before it since it was pending: there is one place in the code that makes a call, so that each
    /// instruction goes straight to what it calls.
    Calls { call: MonitorCall },
    /// It goes on with its wait.
    Waits { object: u32 },
    /// It leaves what it holds, and then ends so.
    Unwinds { ending: Ending },
}

// Looks where the thread stands, and executes its instruction where that is a local one.
#[inline]
fn reach<C>(run: &RunContext<C>, pass: &Pass, frame: &mut Frame) -> Reached
    requires heap { IsHeapOf run.now.heap.now run.now.program.now }
    requires may { MayAdvance run.now.heap.now run.now.program.now run.now.fuel pass.now frame.old }
    ensures { HasReached run.now.heap.now run.now.program.now run.now.fuel pass.now frame.old frame.new result }
{
    match frame.mode() {
        None => walk(run, pass, frame),
        Some(mode) => match mode {
            Mode::Calling { call } => Reached::Calls { call },
            Mode::Waiting { object } => Reached::Waits { object },
            Mode::Unwinding { ending } => Reached::Unwinds { ending },
            Mode::Ended { .. } => unreachable!(),
        },
    }
}

// Looks at the instruction, in the middle of local ones.
#[inline]
fn walk<C>(run: &RunContext<C>, pass: &Pass, frame: &mut Frame) -> Reached
    requires heap { IsHeapOf run.now.heap.now run.now.program.now }
    requires may { MayAdvance run.now.heap.now run.now.program.now run.now.fuel pass.now frame.old }
    requires local { frame.old.mode ≡ None }
    ensures { HasReached run.now.heap.now run.now.program.now run.now.fuel pass.now frame.old frame.new result }
{
    match frame.walk(run.program, pass, run.heap.shape().objects() as u32) {
        Walked::Ran => Reached::Ran,
        Walked::Spent => Reached::Spent,
        Walked::Arrived { call } => Reached::Calls { call },
    }
}
