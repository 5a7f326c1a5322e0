//! Calls of a thread that polls, stops and goes on.
ghost use Rattle.std.specs.Prelude.{◌≡◌};
ghost use Rattle.core_world.specs.declared.heap_call.HeapCall.TheVariants.{Poll, Stop, Resume};
ghost use Rattle.core_world.specs.Trees.Calls.{side_context};
ghost use Rattle.core_world.specs.Trees.SafepointSteps.{poll_steps, stop_steps, resume_steps};
ghost use Rattle.core_calls.specs.Paths.{Tells};
ghost use Rattle.core_calls.specs.CallsSay.{PollSays, StopSays, ResumeSays};
ghost use Rattle.heap_table.specs.Parts.{HasMadeSteps};
ghost use Rattle.heap_table.specs.Resting.{MayCall, Rests, start_now};
ghost use Rattle.lock_runtime.specs.Standing.{IsRunning, HasStopped, StandsAfterResumeTurn};
ghost use Rattle.lock_runtime.specs.Others.{PendsForAnother};

use crate::contexts::aside;
use core_world::{HeapCall, Progress};
use heap_table::{Heap, Pass};

/// Looks whether another thread asks for a safepoint. The thread runs.
///
/// `Pending(Requested { word })` comes exactly where the loaded safepoint `word` has a requester: the thread runs on, and is
/// to stop. Nothing is logged, and an unfinished operation and check stay so.
///
/// In OpenJDK 8: the polling page, and the look of `SafepointSynchronize::block` (`safepoint.cpp`).
#[inline(always)]
pub fn poll(heap: &Heap, pass: &mut Pass) -> Progress<()>
    requires { MayCall heap.now pass.old Poll }
    ensures rests { Rests heap.now pass.new }
    ensures run { HasMadeSteps heap.now (poll_steps (side_context Poll (start_now heap.now pass.old)))
        pass.old pass.new result }
    ensures says { Tells pass.old.known pass.new.known (λ ms. PollSays (start_now heap.now pass.old) ms result) }
    ensures stands { IsRunning pass.new.known }
    ensures others { PendsForAnother pass.old.known.thread result }
{
    let context = aside(pass, HeapCall::Poll);
    safepoint::poll(heap, pass, &context)
}

/// Publishes the length of the log and stops the thread, which runs.
///
/// Nothing is logged, and an unfinished operation and check stay so.
///
/// In OpenJDK 8: `SafepointSynchronize::block` (`safepoint.cpp`), where it counts its thread as safe.
pub fn stop(heap: &Heap, pass: &mut Pass)
    requires { MayCall heap.now pass.old Stop }
    ensures rests { Rests heap.now pass.new }
    ensures run { HasMadeSteps heap.now (stop_steps (side_context Stop (start_now heap.now pass.old))
        (start_now heap.now pass.old).local) pass.old pass.new result }
    ensures says { Tells pass.old.known pass.new.known (λ ms. StopSays (start_now heap.now pass.old) ms result) }
    ensures stands { HasStopped pass.new.known }
{
    let context = aside(pass, HeapCall::Stop);
    safepoint::stop(heap, pass, &context)
}

/// Sets the thread running, which is stopped and asks for no safepoint.
///
/// Pending, the thread stays stopped: `Halted` and `Requested { word }` say that the safepoint word, loaded or found by the
/// exchange, has the halt or a requester, and `Raced { expected, found }` that the exchange found another word with
/// neither. Nothing is logged, and an unfinished operation and check stay so.
///
/// In OpenJDK 8: `SafepointSynchronize::block` (`safepoint.cpp`), where its thread goes on.
pub fn resume(heap: &Heap, pass: &mut Pass) -> Progress<()>
    requires { MayCall heap.now pass.old Resume }
    ensures rests { Rests heap.now pass.new }
    ensures run { HasMadeSteps heap.now (resume_steps (side_context Resume (start_now heap.now pass.old))
        (start_now heap.now pass.old).local) pass.old pass.new result }
    ensures says { Tells pass.old.known pass.new.known (λ ms. ResumeSays (start_now heap.now pass.old) ms result) }
    ensures stands { StandsAfterResumeTurn pass.new.known result }
    ensures others { PendsForAnother pass.old.known.thread result }
{
    let context = aside(pass, HeapCall::Resume);
    safepoint::resume(heap, pass, &context)
}
