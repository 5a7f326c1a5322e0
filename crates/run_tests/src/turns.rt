//! How many turns a thread has.

use crate::calls::{Call, calling};
use crate::due::{expect_end_by, same};
use example_programs::ANSWER;
use run_io::Gate;
use std::process::Abort;
use std::sync::Wait;
use std::sync::atomic::{AtomicU32, Ordering};
use std::test::Fail;
use std::thread::Threads;

/// A gate that counts how often it is visited: once at the start of each turn.
#[derive(Drop)]
struct Counting {
    visits: AtomicU32,
}

impl Gate for Counting {
    fn visit(&self, _thread: u32) {
        self.visits.fetch_add(1, Ordering::SeqCst);
    }
}

/// How many instructions a turn has, and how many turns the thread has then.
const TURNS: &[(&str, u32)] = &[
    ("1000", 1),
    ("7", 1),
    ("6", 2),
    ("4", 2),
    ("3", 3),
    ("1", 7),
];

/// The thread of the program executes six instructions, and then ends, which is no instruction. A turn is over after as many instructions
/// as are asked for: so with six to a turn it has a second one, in which it ends, and with seven it hasn't.
#[test]
fn a_quantum_is_how_long_a_turn_is(rt: HostRuntime) -> Result<(), Fail> {
    for (quantum, turns) in TURNS {
        expect_turns(&rt, quantum, *turns)?;
    }
    Ok(())
}

/// A run by turns of so many instructions has so many turns.
fn expect_turns<R: Threads + Wait + Abort + AllocGlobal + Sync>(
    rt: &R,
    quantum: &'static str,
    turns: u32,
) -> Result<(), Fail> {
    let words: &[&str] = &["run", "--quantum", quantum];
    let call = calling(words, ANSWER);
    let found = turns_of(rt, &call)?;
    same(rt, &call, found, turns)
}

/// The turns of a run.
fn turns_of<R: Threads + Wait + Abort + AllocGlobal + Sync>(
    rt: &R,
    call: &Call,
) -> Result<u32, Fail> {
    let gate = Counting {
        visits: AtomicU32::new(0),
    };
    expect_end_by(rt, call, &gate)?;
    Ok(gate.visits.load(Ordering::SeqCst))
}
