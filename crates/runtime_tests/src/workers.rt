//! Two threads that enter and leave one object beside each other.
ghost use Rattle.heap_table.specs.Resting.{Rests};

use crate::calls::{LEFT, begin, enter, exit, poll, resume, stop};
use crate::compare::{holds, same};
use core_world::Progress;
use heap_table::{Heap, Pass};
use plain_monitor::{Entry, Logged};
use std::test::Fail;
use std::thread::{Threads, join};

// How often each thread enters, and how many calls it may make for that.
const ENTERS: u32 = 900;

const TRIES: u32 = 50000000;

// One call more, by a thread that is inside the object or not. It answers whether the thread is inside then.
fn go_on(heap: &Heap, pass: &mut Pass, inside: bool) -> bool
    requires { Rests heap.now pass.old }
    ensures { Rests heap.now pass.new }
{
    if let Some(Progress::Pending(_)) = poll(heap, pass) {
        stop(heap, pass);
        return inside;
    }
    if !pass.running() && !pass.requesting() {
        resume(heap, pass);
        return inside;
    }
    if inside {
        return exit(heap, pass, 0) != LEFT;
    }
    match enter(heap, pass, 0, 1) {
        Some(Ok(Progress::Done(_))) => true,
        _ => false,
    }
}

// Enters and leaves the object so often, and stops.
fn work(heap: &Heap, pass: &mut Pass)
    requires { Rests heap.now pass.old }
    ensures { Rests heap.now pass.new }
{
    let mut inside = false;
    let mut left = 0;
    for _ in 0..TRIES {
        if left >= ENTERS {
            break;
        }
        let now = go_on(heap, pass, inside);
        if inside && !now {
            left += 1;
        }
        inside = now;
    }
    stop(heap, pass);
}

fn work_both<R: Threads>(rt: &R, heap: &Heap, first: Pass, second: Pass) -> (Pass, Pass)
    requires { Rests heap.now first × Rests heap.now second }
    ensures { Rests heap.now result.0 × Rests heap.now result.1 }
{
    join(
        rt,
        move || -> Pass
            requires { Rests heap.now first }
            ensures { Rests heap.entry.now result }
        {
            let mut pass = first;
            work(heap, &mut pass);
            pass
        },
        move || -> Pass
            requires { Rests heap.now second }
            ensures { Rests heap.entry.now result }
        {
            let mut pass = second;
            work(heap, &mut pass);
            pass
        },
    )
}

// Whether the first log has the next entry of the two.
fn comes_first(first: &[Logged], second: &[Logged]) -> bool {
    match (first.first(), second.first()) {
        (Some(one), Some(other)) => one.stamp < other.stamp,
        (Some(_), None) => true,
        _ => false,
    }
}

// Who has the object after this entry of the thread: `None` where it may not come there.
fn owner_after(entry: Entry, thread: u32, owner: Option<u32>) -> Option<Option<u32>> {
    match entry {
        Entry::Enter { object: 0, .. } if owner.is_none() => Some(Some(thread)),
        Entry::Exit { object: 0 } if owner == Some(thread) => Some(None),
        _ => None,
    }
}

// Whether the stamps of both logs are all different, and by their order one thread at most is inside the object.
fn exclude(first: &[Logged], second: &[Logged]) -> bool {
    let mut first = first;
    let mut second = second;
    let mut owner = None;
    let mut last = 0;
    for _ in 0..first.len() + second.len() {
        let thread = if comes_first(first, second) { 0 } else { 1 };
        let log = if thread == 0 { first } else { second };
        let Some((next, rest)) = log.split_first() else {
            return false;
        };
        if next.stamp <= last {
            return false;
        }
        last = next.stamp;
        let Some(after) = owner_after(next.entry, thread, owner) else {
            return false;
        };
        owner = after;
        if thread == 0 {
            first = rest;
        } else {
            second = rest;
        }
    }
    owner.is_none()
}

#[test]
fn two_workers_exclude_each_other(rt: HostRuntime) -> Result<(), Fail> {
    for biasing in [false, true] {
        let (heap, first, second) = begin(rt.alloc(), biasing, true)?;
        let (first, second) = work_both(&rt, &heap, first, second);
        holds(&rt, !first.running() && !second.running());
        same(&rt, first.log().len(), 1800);
        same(&rt, second.log().len(), 1800);
        holds(&rt, exclude(first.log(), second.log()));
    }
    Ok(())
}
