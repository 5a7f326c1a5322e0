//! How machines end.

ghost use Rattle.std.specs.Prelude.{◌≡◌, not};
ghost use Rattle.plain_machine.specs.Machine.{is_live};
ghost use Rattle.outcome_search.specs.Ends.{has_trapped, have_ended, has_any_trapped, end_of};

use crate::moves::is_any_spent;
use plain_machine::{Machine, Mode, Thread};
use plain_monitor::Ending;

/// How a machine ends.
#[derive(Clone, Copy, Debug, PartialEq, Eq)]
pub enum End {
    /// A thread had no fuel left before an instruction. What the machine leads to isn't looked for.
    Spent,
    /// Some thread hasn't ended, and none that hasn't can go on by itself.
    Stuck,
    /// All threads have ended, and one by a fault.
    Faulted,
    /// All threads have ended, and none by a fault.
    Ended,
}

fn has_trapped(mode: Mode) -> bool
    ensures { result ≡ has_trapped mode }
{
    match mode {
        Mode::Ended {
            ending: Ending::Trap { .. },
        } => true,
        _ => false,
    }
}

fn has_ended(thread: &Thread) -> bool
    ensures { result ≡ not (is_live thread.now) }
{
    match thread.mode() {
        Mode::Ended { .. } => true,
        _ => false,
    }
}

/// Whether all threads have ended.
fn have_ended(machine: &Machine) -> bool
    ensures { result ≡ have_ended machine.now }
{
    for thread in machine.threads() {
        if !has_ended(thread) {
            return false;
        }
    }
    true
}

/// Whether a thread has ended by a fault.
fn has_any_trapped(machine: &Machine) -> bool
    ensures { result ≡ has_any_trapped machine.now }
{
    for thread in machine.threads() {
        if has_trapped(thread.mode()) {
            return true;
        }
    }
    false
}

/// How a machine ends; `None` where it goes on.
pub(crate) fn end_of(machine: &Machine) -> Option<End>
    ensures { result ≡ end_of machine.now }
{
    if is_any_spent(machine) {
        return Some(End::Spent);
    }
    if machine.is_stuck() {
        return Some(End::Stuck);
    }
    if !have_ended(machine) {
        return None;
    }
    if has_any_trapped(machine) {
        return Some(End::Faulted);
    }
    Some(End::Ended)
}
