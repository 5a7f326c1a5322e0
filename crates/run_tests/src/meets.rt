//! Threads of a program that run at the same time.

use crate::calls::{Call, calling};
use crate::due::{expect_end_by, same};
use example_programs::CONTENTION;
use run_io::Gate;
use std::process::Abort;
use std::sync::Wait;
use std::sync::atomic::{AtomicBool, Ordering};
use std::test::Fail;
use std::thread::Threads;

/// How often a thread looks whether the other one has come, where it should.
const LOOKS: u32 = 100_000_000;

/// How often it looks where it shouldn't, and so looks to the end: still far longer than a worker takes to start.
const FEWER_LOOKS: u32 = 20_000_000;

/// What one of two threads tells the other: that it has come, and that it saw the other one.
#[derive(Drop)]
struct Side {
    came: AtomicBool,
    saw: AtomicBool,
}

impl Side {
    fn new() -> Side {
        Side {
            came: AtomicBool::new(false),
            saw: AtomicBool::new(false),
        }
    }

    /// At the first call this says that the thread has come, and waits for the other one, but not for ever.
    fn meet(&self, other: &Side, looks: u32) {
        if self.came.swap(true, Ordering::SeqCst) {
            return;
        }
        for _ in 0..looks {
            if other.came.load(Ordering::SeqCst) {
                self.saw.store(true, Ordering::SeqCst);
                return;
            }
        }
    }
}

/// A gate at which threads 0 and 1 meet before their first turns. `Runner::turn` visits it, which no contract says: where no turn did, the
/// tests here and those of `turns` would fail.
#[derive(Drop)]
struct Meeting {
    first: Side,
    second: Side,
    looks: u32,
}

impl Gate for Meeting {
    fn visit(&self, thread: u32) {
        match thread {
            0 => self.first.meet(&self.second, self.looks),
            1 => self.second.meet(&self.first, self.looks),
            _ => {}
        }
    }
}

const TWO_WORKERS: &[&[&str]] = &[
    &["run", "--workers", "2"],
    &["run", "--workers", "2", "--bias", "off"],
];

/// With two workers a thread's turn may begin while another's is not over.
#[test]
fn two_threads_run_at_once(rt: HostRuntime) -> Result<(), Fail> {
    for words in TWO_WORKERS {
        meet(&rt, words)?;
    }
    Ok(())
}

const ONE_WORKER: &[&[&str]] = &[
    &["run", "--workers", "1"],
    &["run", "--workers", "1", "--quantum", "1"],
];

/// With one worker no turn begins before the one under way is over: the thread that comes first looks for the other one in vain, and that
/// one finds it there. The worker goes from the least thread up.
#[test]
fn one_worker_runs_one_thread_at_a_time(rt: HostRuntime) -> Result<(), Fail> {
    for words in ONE_WORKER {
        miss(&rt, words)?;
    }
    Ok(())
}

/// A run with these words in which each of two threads sees the other one's flag.
fn meet<R: Threads + Wait + Abort + AllocGlobal + Sync>(
    rt: &R,
    words: &'static [&'static str],
) -> Result<(), Fail> {
    let call = calling(words, CONTENTION);
    let saw = seen(rt, &call, LOOKS)?;
    same(rt, &call, saw, (true, true))
}

/// A run with these words in which the second thread alone sees the other one's flag.
fn miss<R: Threads + Wait + Abort + AllocGlobal + Sync>(
    rt: &R,
    words: &'static [&'static str],
) -> Result<(), Fail> {
    let call = calling(words, CONTENTION);
    let saw = seen(rt, &call, FEWER_LOOKS)?;
    same(rt, &call, saw, (false, true))
}

/// Whether in the run the first of two threads sees the flag of the second, and the second that of the first.
fn seen<R: Threads + Wait + Abort + AllocGlobal + Sync>(
    rt: &R,
    call: &Call,
    looks: u32,
) -> Result<(bool, bool), Fail> {
    let gate = Meeting {
        first: Side::new(),
        second: Side::new(),
        looks,
    };
    expect_end_by(rt, call, &gate)?;
    Ok((
        gate.first.saw.load(Ordering::SeqCst),
        gate.second.saw.load(Ordering::SeqCst),
    ))
}
