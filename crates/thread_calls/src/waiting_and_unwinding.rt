//! The entries that a thread makes while it waits or unwinds. They are rare, and stand out of line.

ghost use Rattle.std.specs.Prelude.{◌≡◌, ℕ, length, Some};
ghost use Rattle.heap_table.specs.Resting.{Rests};
ghost use Rattle.mark_word.specs.Hold.{read_hold};
ghost use Rattle.plain_machine.specs.Asking.{held_from};
ghost use Rattle.plain_machine.specs.declared.monitor_call.Mode.TheVariants.{Unwinding, Waiting};
ghost use Rattle.thread_calls.specs.Advances.{HasAdvanced, MayAdvance};
ghost use Rattle.thread_calls.specs.Between.{IsHeapOf};
ghost use Rattle.thread_calls.specs.inner.Least.{lesser, object_in};
ghost use Rattle.thread_calls.specs.Timed.{StaysTimed};
ghost use Rattle.thread_frame.specs.Sights.{counts_from};

use crate::run_context::RunContext;
use crate::timing::time_now;
use core_world::Progress;
use heap_table::{Heap, Pass, hold_of_word};
use lock_runtime as runtime;
use mark_word::HoldForm;
use plain_machine::NextEntry;
use plain_monitor::{Ending, Entry, ending_entry};
use run_io::Clock;
use thread_frame::Frame;

// The object that the hold word names.
fn object_in(word: u64) -> Option<u32>
    ensures { result ≡ object_in (read_hold word) }
{
    match hold_of_word(word) {
        Some(form) => match form {
            HoldForm::Holds { object, .. } => Some(object),
            HoldForm::Empty => None,
        },
        None => None,
    }
}

// The lesser of two numbers, where there are two.
fn lesser(one: Option<u32>, other: Option<u32>) -> Option<u32>
    ensures { result ≡ lesser one other }
{
    match one {
        None => other,
        Some(a) => match other {
            None => Some(a),
            Some(b) => Some(a.min(b)),
        },
    }
}

// The least object that the thread holds, by one look at its hold words.
fn least_held(heap: &Heap, pass: &Pass) -> Option<u32>
    requires { Rests heap.now pass.now }
    ensures { result ≡ held_from 0 (counts_from 0 (length heap.now.heap.shape.objects) pass.now.known.holds) }
{
    let words = pass.hold_words();
    let mut least = None;
    for word in words {
        least = lesser(least, object_in(*word));
    }
    least
}

/// Goes on with the thread's wait on the object.
#[inline(never)]
pub(crate) fn continue_wait<C: Clock>(
    run: &RunContext<C>,
    pass: &mut Pass,
    frame: &mut Frame,
    object: u32,
) -> Progress<bool>
    requires heap { IsHeapOf run.now.heap.now run.now.program.now }
    requires may { MayAdvance run.now.heap.now run.now.program.now run.now.fuel pass.old frame.old }
    requires at { frame.old.mode ≡ Some (Waiting object) }
    ensures advanced { HasAdvanced run.now.heap.now run.now.program.now run.now.fuel
        pass.old pass.new frame.old frame.new result }
    ensures timed { StaysTimed run.now.tick pass.old pass.new }
{
    match runtime::wait(run.heap, pass, object, time_now(run.clock, run.tick)) {
        Ok(progress) => match progress {
            Progress::Done(()) => {
                frame.follow(NextEntry::Resumes { object }, &Entry::Resume { object });
                Progress::Done(true)
            }
            Progress::Pending(why) => Progress::Pending(why),
        },
        Err(_) => unreachable!(),
    }
}

/// Leaves the least object that the thread holds, or ends the thread, which holds none.
#[inline(never)]
pub(crate) fn unwind<C>(
    run: &RunContext<C>,
    pass: &mut Pass,
    frame: &mut Frame,
    ending: Ending,
) -> Progress<bool>
    requires heap { IsHeapOf run.now.heap.now run.now.program.now }
    requires may { MayAdvance run.now.heap.now run.now.program.now run.now.fuel pass.old frame.old }
    requires at { frame.old.mode ≡ Some (Unwinding ending) }
    ensures advanced { HasAdvanced run.now.heap.now run.now.program.now run.now.fuel
        pass.old pass.new frame.old frame.new result }
    ensures timed { (tick : ℕ) → StaysTimed tick pass.old pass.new }
{
    match least_held(run.heap, pass) {
        Some(object) => leave(run, pass, frame, ending, object),
        None => {
            runtime::finish(run.heap, pass, ending);
            frame.follow(NextEntry::Ends { ending }, &ending_entry(ending));
            Progress::Done(false)
        }
    }
}

// Leaves this object, as the thread ends so.
fn leave<C>(
    run: &RunContext<C>,
    pass: &mut Pass,
    frame: &mut Frame,
    ending: Ending,
    object: u32,
) -> Progress<bool>
    requires heap { IsHeapOf run.now.heap.now run.now.program.now }
    requires may { MayAdvance run.now.heap.now run.now.program.now run.now.fuel pass.old frame.old }
    requires at { frame.old.mode ≡ Some (Unwinding ending) }
    requires least { held_from 0 (counts_from 0 (length run.now.heap.now.heap.shape.objects) pass.old.known.holds)
        ≡ Some object }
    ensures advanced { HasAdvanced run.now.heap.now run.now.program.now run.now.fuel
        pass.old pass.new frame.old frame.new result }
    ensures timed { (tick : ℕ) → StaysTimed tick pass.old pass.new }
{
    match runtime::exit(run.heap, pass, object) {
        Ok(progress) => match progress {
            Progress::Done(()) => {
                frame.follow(NextEntry::Leaves { object }, &Entry::Exit { object });
                Progress::Done(false)
            }
            Progress::Pending(why) => Progress::Pending(why),
        },
        Err(_) => unreachable!(),
    }
}
