//! What an object says of the threads' holds.

ghost use Rattle.std.specs.Prelude.{◌≡◌, ℕ, ◌<◌, ◌≤◌, ◌^◌, ◌*◌, [], length, slice_set, sum, IfOk, IfErr, OnOk};
ghost use Rattle.std.specs.List.{AllByRecursion};
ghost use Rattle.plain_monitor.specs.Limits.{most_holds};
ghost use Rattle.plain_monitor.specs.Listed.{counts_in};
ghost use Rattle.machine_laws.specs.ReachedMonitor.{standing};
ghost use Rattle.machine_words.specs.inner.Reading.{walk, hold_step};
ghost use Rattle.machine_words.specs.inner.Telling.{IsLost};

use crate::unread::Unread;
use plain_machine::{Actor, Object, Thread};
use plain_monitor::limits::HOLDS;

/// The counts that the thread is listed with, together. Where they are more than its holds may be, `NoMachine`.
fn counts_in(list: &[(u32, u32)], t: u32) -> Result<u32, Unread>
    ensures lost { IfErr result (IsLost (counts_in list.now t ≤ most_holds)) }
    ensures counts { IfOk result (λ n. n ≡ counts_in list.now t) }
    ensures few { IfOk result (λ n. n ≤ most_holds) }
{
    let mut counts = 0;
    for (thread, count) in list {
        if *thread == t {
            if *count > HOLDS - counts {
                return Err(Unread::NoMachine);
            }
            counts += *count;
        }
    }
    Ok(counts)
}

/// How often thread t has entered the object, less its exits, as the owner or as one that waits or was notified. Where that is more often than
/// it may hold objects, `NoMachine`.
fn standing(object: &Object, t: u32) -> Result<u32, Unread>
    ensures lost { IfErr result (IsLost (standing object.now.monitor t ≤ most_holds)) }
    ensures standing { IfOk result (λ n. n ≡ standing object.now.monitor t) }
    ensures few { IfOk result (λ n. n ≤ most_holds * 3) }
{
    let monitor = object.monitor();
    let waiting = counts_in(monitor.all_waiting(), t)?;
    let called = counts_in(monitor.all_called(), t)?;
    let own = match monitor.owner() {
        Some(owner) if owner == t => monitor.count(),
        _ => 0,
    };
    if own > HOLDS {
        return Err(Unread::NoMachine);
    }
    Ok(own + waiting + called)
}

/// Thread t holds the object with this number as often as its monitor says. Where its holds are more than they may be, `NoMachine`.
fn hold(number: u32, object: &Object, t: u32, thread: &mut Thread) -> Result<(), Unread>
    requires { number < length thread.old.holds }
    ensures lost { IfErr result (IsLost ((standing object.now.monitor t ≤ most_holds)
        × (sum thread.old.holds ≤ most_holds))) }
    ensures held { OnOk result (thread.new
        ≡ record thread.old { holds = slice_set thread.old.holds number (standing object.now.monitor t) }) }
{
    let count = standing(object, t)?;
    if thread.depth() > HOLDS {
        return Err(Unread::NoMachine);
    }
    thread.set_holds(number, count);
    Ok(())
}

/// All threads hold the object with this number as often as its monitor says.
pub(crate) fn place_object(
    number: u32,
    object: &Object,
    threads: &mut [Thread],
) -> Result<(), Unread>
    requires few { length threads.old < 2 ^ 32 }
    requires number { AllByRecursion (λ s. number < length s.holds) threads.old }
    ensures lost { IfErr result (IsLost (((t : ℕ) → t < length threads.old → standing object.now.monitor t ≤ most_holds)
        × AllByRecursion (λ s. sum s.holds ≤ most_holds) threads.old)) }
    ensures held { OnOk result (threads.new ≡ (walk (hold_step number object.now) 0 threads.old []).0) }
{
    for (t, thread) in threads.iter_mut().enumerate() {
        hold(number, object, t as u32, thread)?;
    }
    Ok(())
}
