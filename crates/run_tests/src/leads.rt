//! Threads that have turns while another one is held, and how many are in their turns at once.

use crate::calls::{Call, calling};
use crate::due::{expect_end_by, same};
use example_programs::CONTENTION;
use run_io::Gate;
use std::process::Abort;
use std::sync::Wait;
use std::sync::atomic::{AtomicBool, AtomicU32, Ordering};
use std::test::Fail;
use std::thread::Threads;

/// How often a thread that is held looks whether it may go on.
const LOOKS: u32 = 100_000_000;

/// How many turns thread 1 has to have until then.
const TURNS: u32 = 1000;

/// A gate that holds the first turn of thread 0 until thread 1 has begun a thousand turns, but not for ever.
#[derive(Drop)]
struct Lead {
    turns: AtomicU32,
    came: AtomicBool,
    saw: AtomicBool,
}

impl Lead {
    fn new() -> Lead {
        Lead {
            turns: AtomicU32::new(0),
            came: AtomicBool::new(false),
            saw: AtomicBool::new(false),
        }
    }

    fn hold(&self) {
        if self.came.swap(true, Ordering::SeqCst) {
            return;
        }
        for _ in 0..LOOKS {
            if self.turns.load(Ordering::SeqCst) >= TURNS {
                self.saw.store(true, Ordering::SeqCst);
                return;
            }
        }
    }
}

impl Gate for Lead {
    fn visit(&self, thread: u32) {
        match thread {
            0 => self.hold(),
            1 => {
                self.turns.fetch_add(1, Ordering::SeqCst);
            }
            _ => {}
        }
    }
}

/// Three threads that count to 1,000, each in locals of its own: 2,003 instructions each.
const THREE: &str = "\
class C 1
object a C
thread t1
local i
local n
local one
set i 0
set n 1000
set one 1
label l
add i i one
jlt i n l
end
thread t2
local i
local n
local one
set i 0
set n 1000
set one 1
label l
add i i one
jlt i n l
end
thread t3
local i
local n
local one
set i 0
set n 1000
set one 1
label l
add i i one
jlt i n l
end
";

/// A thread has its turns while the only other one is in a turn that lasts.
#[test]
fn a_thread_goes_on_while_another_is_held(rt: HostRuntime) -> Result<(), Fail> {
    run_held(&rt, CONTENTION)
}

/// No worker has runners of its own: of three threads and two workers, the two threads that aren't held have their turns, whichever these are.
#[test]
fn all_others_go_on_while_a_thread_is_held(rt: HostRuntime) -> Result<(), Fail> {
    run_held(&rt, THREE)
}

const TWO_WORKERS: &[&str] = &["run", "--workers", "2", "--quantum", "1"];

/// A run of this program by two workers, in turns of one instruction, in which thread 0 sees that thread 1 has begun a thousand turns before
/// its own first one goes on.
fn run_held<R: Threads + Wait + Abort + AllocGlobal + Sync>(
    rt: &R,
    text: &str,
) -> Result<(), Fail> {
    expect_seen(rt, &calling(TWO_WORKERS, text), &Lead::new())
}

/// The call by this gate, at which thread 0 sees it.
fn expect_seen<R: Threads + Wait + Abort + AllocGlobal + Sync>(
    rt: &R,
    call: &Call,
    gate: &Lead,
) -> Result<(), Fail> {
    expect_end_by(rt, call, gate)?;
    same(rt, call, gate.saw.load(Ordering::SeqCst), true)
}

/// Five threads, each of which ends in its first turn.
const FIVE: &str = "\
class C 1
object a C
thread t1
end
thread t2
end
thread t3
end
thread t4
end
thread t5
end
";

/// A gate at which each thread waits until five have come, but not for ever. It counts how often one came, and how often one saw five there.
#[derive(Drop)]
struct Crowd {
    came: AtomicU32,
    saw: AtomicU32,
}

impl Crowd {
    fn new() -> Crowd {
        Crowd {
            came: AtomicU32::new(0),
            saw: AtomicU32::new(0),
        }
    }
}

impl Gate for Crowd {
    fn visit(&self, _thread: u32) {
        self.came.fetch_add(1, Ordering::SeqCst);
        for _ in 0..LOOKS {
            if self.came.load(Ordering::SeqCst) >= 5 {
                self.saw.fetch_add(1, Ordering::SeqCst);
                return;
            }
        }
    }
}

const FIVE_WORKERS: &[&str] = &["run", "--workers", "5"];

/// By five workers five threads are in their turns at once: nobody waits in vain, and so the first five that come are five threads. One that
/// is set running while another one is may have to come again, but not before.
#[test]
fn five_workers_run_five_threads_at_once(rt: HostRuntime) -> Result<(), Fail> {
    expect_crowd(&rt, &calling(FIVE_WORKERS, FIVE), &Crowd::new())
}

/// The call by this gate, at which each thread that comes sees five.
fn expect_crowd<R: Threads + Wait + Abort + AllocGlobal + Sync>(
    rt: &R,
    call: &Call,
    gate: &Crowd,
) -> Result<(), Fail> {
    expect_end_by(rt, call, gate)?;
    let came = gate.came.load(Ordering::SeqCst);
    same(rt, call, came >= 5, true)?;
    same(rt, call, gate.saw.load(Ordering::SeqCst), came)
}
