//! Turns of a thread, and its checks.

ghost use Rattle.std.specs.Prelude.{◌≡◌, ◌≤◌, ℕ, false};
ghost use Rattle.thread_calls.specs.Advances.{MayAdvance, progress_of};
ghost use Rattle.thread_calls.specs.Between.{IsHeapOf, IsOn};
ghost use Rattle.thread_calls.specs.Timed.{StaysTimed};
ghost use Rattle.thread_frame.specs.Frames.{has_ended};
ghost use Rattle.thread_interp.specs.Checks.{LooksOrBarred, StandsAfterCheck};
ghost use Rattle.thread_interp.specs.Moves.{HasMoved};
ghost use Rattle.thread_interp.specs.inner.Running.{HasTriedToRun, HasPolled, HasGone, IsSetStopped};
ghost use Rattle.thread_interp.specs.Runners.{IsRunner};
ghost use Rattle.thread_interp.specs.inner.Runners.{runner_of};

use crate::moved::{Moved, RunState};
use core_world::{PendingCause, Progress};
use heap_table::Pass;
use lock_runtime::{check_stuck, poll, resume, stop};
use run_io::Clock;
use thread_calls::{RunContext, Went, advance};
use thread_frame::Frame;

// Sets the thread running, unless its request for a safepoint stands.
fn set_running<C>(run: &RunContext<C>, pass: &mut Pass, frame: &Frame) -> Progress<()>
    requires on { IsOn run.now.heap.now run.now.program.now run.now.fuel pass.old frame.now }
    requires still { pass.old.known.running ≡ false }
    ensures ready { HasTriedToRun run.now.heap.now run.now.program.now run.now.fuel
        pass.old pass.new frame.now result }
    ensures timed { (tick : ℕ) → StaysTimed tick pass.old pass.new }
{
    if pass.requesting() {
        return Progress::Done(());
    }
    resume(run.heap, pass)
}

// Polls where the thread runs, and then goes on by one instruction or entry. The cause is written where that, or the poll, is pending.
fn poll_and_advance<C: Clock>(
    run: &RunContext<C>,
    pass: &mut Pass,
    frame: &mut Frame,
    cause: &mut PendingCause,
) -> Went
    requires heap { IsHeapOf run.now.heap.now run.now.program.now }
    requires may { MayAdvance run.now.heap.now run.now.program.now run.now.fuel pass.old frame.old }
    ensures polled { HasPolled run.now.heap.now run.now.program.now run.now.fuel
        pass.old pass.new frame.old frame.new (progress_of result cause.new) }
    ensures timed { StaysTimed run.now.tick pass.old pass.new }
{
    if pass.running() {
        if let Progress::Pending(why) = poll(run.heap, pass) {
            *cause = why;
            return Went::Pending;
        }
    }
    advance(run, pass, frame, cause)
}

// Goes on by at most as many instructions as the quantum is.
fn run_quantum<C: Clock>(run: &RunContext<C>, pass: &mut Pass, frame: &mut Frame) -> Moved
    requires heap { IsHeapOf run.now.heap.now run.now.program.now }
    requires may { MayAdvance run.now.heap.now run.now.program.now run.now.fuel pass.old frame.old }
    requires quantum { 1 ≤ run.now.quantum }
    ensures gone { HasGone run.now.heap.now run.now.program.now run.now.fuel run.now.quantum
        pass.old pass.new frame.old frame.new result }
    ensures timed { StaysTimed run.now.tick pass.old pass.new }
{
    let quantum = run.quantum;
    let mut instructions = 0;
    // what a call was pending for, once one is: until then it says nothing
    let mut cause = PendingCause::Halted;
    loop {
        let went = poll_and_advance(run, pass, frame, &mut cause);
        if let Went::Pending = went {
            return Moved {
                instructions,
                state: RunState::Blocked(cause),
            };
        }
        if let Went::Done = went {
            instructions += 1;
        }
        if frame.has_ended() {
            return Moved {
                instructions,
                state: RunState::Ended,
            };
        }
        if instructions == quantum {
            return Moved {
                instructions,
                state: RunState::Live,
            };
        }
    }
}

// Stops the thread where it runs.
fn set_stopped<C>(run: &RunContext<C>, pass: &mut Pass, frame: &Frame)
    requires on { IsOn run.now.heap.now run.now.program.now run.now.fuel pass.old frame.now }
    ensures still { IsSetStopped run.now.heap.now run.now.program.now run.now.fuel pass.old pass.new frame.now }
    ensures timed { (tick : ℕ) → StaysTimed tick pass.old pass.new }
{
    if !pass.running() {
        return;
    }
    stop(run.heap, pass);
}

/// Gives the thread a turn of at most the run's `quantum` instructions, as `Runner::turn` does after its gate.
pub fn run_turn<C: Clock>(run: &RunContext<C>, pass: &mut Pass, frame: &mut Frame) -> Moved
    requires heap { IsHeapOf run.now.heap.now run.now.program.now }
    requires runner { IsRunner run.now.heap.now run.now.program.now (runner_of pass.old frame.old run.now.fuel) }
    requires unchecked { pass.old.known.checking ≡ false }
    requires live { has_ended frame.old ≡ false }
    requires quantum { 1 ≤ run.now.quantum }
    ensures runner { IsRunner run.now.heap.now run.now.program.now (runner_of pass.new frame.new run.now.fuel) }
    ensures unchecked { pass.new.known.checking ≡ false }
    ensures thread { pass.new.known.thread ≡ pass.old.known.thread }
    ensures moved { HasMoved run.now.heap.now run.now.quantum (runner_of pass.old frame.old run.now.fuel)
        (runner_of pass.new frame.new run.now.fuel) result }
    ensures timed { StaysTimed run.now.tick pass.old pass.new }
{
    if let Progress::Pending(why) = set_running(run, pass, frame) {
        return Moved {
            instructions: 0,
            state: RunState::Blocked(why),
        };
    }
    let moved = run_quantum(run, pass, frame);
    set_stopped(run, pass, frame);
    moved
}

/// Looks at a safepoint whether the run is stuck, as `Runner::check` does.
pub fn check<C>(run: &RunContext<C>, pass: &mut Pass, frame: &Frame) -> Progress<bool>
    requires heap { IsHeapOf run.now.heap.now run.now.program.now }
    requires runner { IsRunner run.now.heap.now run.now.program.now (runner_of pass.old frame.now run.now.fuel) }
    requires free { pass.old.known.requesting ≡ pass.old.known.checking }
    requires live { has_ended frame.now ≡ false }
    ensures runner { IsRunner run.now.heap.now run.now.program.now (runner_of pass.new frame.now run.now.fuel) }
    ensures thread { pass.new.known.thread ≡ pass.old.known.thread }
    ensures log { pass.new.known.log ≡ pass.old.known.log }
    ensures looked { LooksOrBarred run.now.heap.now pass.old pass.new result }
    ensures stands { StandsAfterCheck pass.new.known result }
    ensures timed { (tick : ℕ) → StaysTimed tick pass.old pass.new }
{
    if let Progress::Pending(why) = set_running(run, pass, frame) {
        return Progress::Pending(why);
    }
    let stuck = check_stuck(run.heap, pass);
    set_stopped(run, pass, frame);
    stuck
}
