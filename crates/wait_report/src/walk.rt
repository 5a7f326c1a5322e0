//! The way from a thread to those that it waits for.

ghost use Rattle.std.specs.Prelude.{◌≡◌, IfOk, length};
ghost use Rattle.plain_machine.specs.Offering.{offered};
ghost use Rattle.wait_report.specs.inner.Walk.{blocker, cycle_from};

use crate::cycles::{Cycle, Link};
use plain_machine::{Machine, Offer};
use plain_monitor::{List, NoMemory};
use std::alloc::Global;

/// The cycle whose least thread is `first`, in a machine of so many threads. It goes from thread to thread until it comes back,
/// to a lesser thread or to one that waits for none.
pub(crate) fn walk(
    alloc: Global,
    machine: &Machine,
    threads: u32,
    first: u32,
) -> Result<Option<Cycle>, NoMemory>
    requires { threads ≡ length machine.now.threads }
    ensures { IfOk result (λ cycle. cycle ≡ cycle_from machine.now threads first) }
{
    let mut links = Vec::new(alloc);
    let mut thread = first;
    for _step in 0..threads {
        let Some((object, owner)) = blocker(machine, threads, thread) else {
            return Ok(None);
        };
        links.push(Link { thread, object }).map_err(|_| NoMemory)?;
        if owner == first {
            return Ok(Some(Cycle {
                links: List::of(links),
            }));
        }
        if owner < first {
            return Ok(None);
        }
        thread = owner;
    }
    Ok(None)
}

/// The object and the other thread that has it, where this thread waits for one.
fn blocker(machine: &Machine, threads: u32, thread: u32) -> Option<(u32, u32)>
    requires { threads ≡ length machine.now.threads }
    ensures { result ≡ blocker (offered machine.now thread) }
{
    if thread >= threads {
        return None;
    }
    match machine.offer(thread) {
        Offer::Blocked { object, owner } => Some((object, owner)),
        _ => None,
    }
}
