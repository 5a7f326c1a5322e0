//! Which entry a thread has next, and which entries go alone.

ghost use Rattle.std.specs.Prelude.{◌≡◌, ◌<◌, length};
ghost use Rattle.plain_monitor.specs.Objects.{named};
ghost use Rattle.every_outcome.specs.Alone.{is_hash, goes_alone};
ghost use Rattle.plain_monitor.specs.Monitor.{owns};
ghost use Rattle.plain_machine.specs.Machine.{monitor_at};
ghost use Rattle.plain_machine.specs.Offering.{offered};
ghost use Rattle.outcome_search.specs.Settled.{entry_in};

use plain_machine::{Machine, Offer};
use plain_monitor::Entry;

/// The object that the entry names.
fn named(entry: &Entry) -> Option<u32>
    ensures { result ≡ named entry.now }
{
    match entry {
        Entry::Enter { object, .. } => Some(*object),
        Entry::Exit { object } => Some(*object),
        Entry::Wait { object } => Some(*object),
        Entry::Resume { object } => Some(*object),
        Entry::Notify { object, .. } => Some(*object),
        Entry::NotifyAll { object, .. } => Some(*object),
        Entry::Get { object, .. } => Some(*object),
        Entry::Put { object, .. } => Some(*object),
        Entry::Hash { object, .. } => Some(*object),
        Entry::New { .. }
        | Entry::Print { .. }
        | Entry::Dump { .. }
        | Entry::Trap { .. }
        | Entry::Spent
        | Entry::Done => None,
    }
}

fn is_hash(entry: &Entry) -> bool
    ensures { result ≡ is_hash entry.now }
{
    match entry {
        Entry::Hash { .. } => true,
        _ => false,
    }
}

/// Whether thread t has the monitor of the object.
pub(crate) fn owns(machine: &Machine, t: u32, object: u32) -> bool
    ensures { result ≡ owns (monitor_at machine.now object) t }
{
    match machine.objects().get(object as usize) {
        Some(found) => match found.monitor().owner() {
            Some(owner) => owner == t,
            None => false,
        },
        None => false,
    }
}

/// Whether the entry of thread t goes alone.
pub(crate) fn goes_alone(machine: &Machine, t: u32, entry: &Entry) -> bool
    ensures { result ≡ goes_alone machine.now t entry.now }
{
    match named(entry) {
        None => true,
        Some(object) => owns(machine, t, object) && !is_hash(entry),
    }
}

/// The entry of thread t, where it is told which.
pub(crate) fn next_entry(machine: &Machine, t: u32) -> Option<Entry>
    requires { t < length machine.now.threads }
    ensures { result ≡ entry_in (offered machine.now t) }
{
    match machine.offer(t) {
        Offer::Next(entry) => Some(entry),
        Offer::NextHash { .. } | Offer::Blocked { .. } | Offer::Waiting { .. } | Offer::Ended => {
            None
        }
    }
}
