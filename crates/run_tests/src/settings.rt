//! Settings under which programs are run, and many runs of two threads that contend.

use crate::calls::{Call, calling};
use crate::due::{Due, Held, expect_by_order, expect_due};
use example_programs::CONTENTION;
use std::process::Abort;
use std::sync::Wait;
use std::test::Fail;
use std::thread::Threads;

/// The arguments of `run` for other settings: one worker and four, with biases and without, and turns of one instruction each.
pub const SETTINGS: &[&[&str]] = &[
    &["run"],
    &["run", "--workers", "1"],
    &["run", "--workers", "1", "--bias", "off"],
    &["run", "--workers", "4", "--bias", "off"],
    &["run", "--workers", "4", "--quantum", "1"],
    &["run", "--workers", "1", "--quantum", "1"],
    &["run", "--quantum", "1", "--bias", "off"],
];

/// Makes the call under each of the settings, with its own words after theirs, and compares what became of it.
pub fn expect_under_each<R: Threads + Wait + Abort + AllocGlobal + Sync>(
    rt: &R,
    call: &Call,
    status: u8,
    has_record: bool,
    held: &str,
) -> Result<(), Fail> {
    let due = Due {
        status,
        has_record,
        held: Held::Text(held),
    };
    for setting in SETTINGS {
        expect_under(rt, setting, call, &due)?;
    }
    Ok(())
}

/// The same under one setting.
fn expect_under<R: Threads + Wait + Abort + AllocGlobal + Sync>(
    rt: &R,
    setting: &'static [&'static str],
    call: &Call,
    due: &Due,
) -> Result<(), Fail> {
    let mut words = Vec::from_slice(rt.alloc(), setting)?;
    words.extend_from_slice(call.words)?;
    let call = Call {
        words: words.as_slice(),
        ..*call
    };
    expect_due(rt, &call, due)
}

/// What is written of the contention program, by who is last.
const COUNTED: &[&str] = &[
    "t1: 2000\nthread t1 done\nthread t2 done\n",
    "t2: 2000\nthread t1 done\nthread t2 done\n",
];

/// Two threads count to 2,000 together under each of the settings, and the last of them prints it.
#[test]
fn no_setting_loses_a_count(rt: HostRuntime) -> Result<(), Fail> {
    for words in SETTINGS {
        count_together(&rt, words)?;
    }
    Ok(())
}

const MANY_WORKERS: &[&str] = &["run", "--workers", "16", "--quantum", "1"];

/// Sixteen workers for two threads lose none either, in turns of one instruction.
#[test]
fn more_workers_than_threads_lose_no_count(rt: HostRuntime) -> Result<(), Fail> {
    count_together(&rt, MANY_WORKERS)
}

const SHORT_TURNS: &[&[&str]] = &[
    &["run", "--quantum", "10", "--bias", "on"],
    &["run", "--quantum", "20", "--bias", "on"],
];

const LONGER_TURNS: &[&[&str]] = &[
    &["run", "--quantum", "35", "--bias", "on"],
    &["run", "--quantum", "50", "--bias", "on"],
];

const SHORT_TURNS_WITHOUT_BIASES: &[&[&str]] = &[
    &["run", "--quantum", "10", "--bias", "off"],
    &["run", "--quantum", "20", "--bias", "off"],
];

const LONGER_TURNS_WITHOUT_BIASES: &[&[&str]] = &[
    &["run", "--quantum", "35", "--bias", "off"],
    &["run", "--quantum", "50", "--bias", "off"],
];

/// Two threads count to 2,000 together in each of 60 runs with biases, in turns of at most 10 and 20 instructions.
#[test]
fn short_turns_with_biases_lose_no_count(rt: HostRuntime) -> Result<(), Fail> {
    contend(&rt, SHORT_TURNS)
}

/// The same in turns of at most 35 and 50 instructions.
#[test]
fn longer_turns_with_biases_lose_no_count(rt: HostRuntime) -> Result<(), Fail> {
    contend(&rt, LONGER_TURNS)
}

/// The same without biases, in short turns.
#[test]
fn short_turns_without_biases_lose_no_count(rt: HostRuntime) -> Result<(), Fail> {
    contend(&rt, SHORT_TURNS_WITHOUT_BIASES)
}

/// And in longer ones.
#[test]
fn longer_turns_without_biases_lose_no_count(rt: HostRuntime) -> Result<(), Fail> {
    contend(&rt, LONGER_TURNS_WITHOUT_BIASES)
}

/// 30 runs of the contention program by four workers with each of these words; the record of each run is replayed.
fn contend<R: Threads + Wait + Abort + AllocGlobal + Sync>(
    rt: &R,
    settings: &[&'static [&'static str]],
) -> Result<(), Fail> {
    for words in settings {
        for _ in 0..30 {
            count_together(rt, words)?;
        }
    }
    Ok(())
}

/// A run of the contention program with these words: both threads end, and the last prints what they counted.
fn count_together<R: Threads + Wait + Abort + AllocGlobal + Sync>(
    rt: &R,
    words: &'static [&'static str],
) -> Result<(), Fail> {
    expect_by_order(rt, &calling(words, CONTENTION), 0, Held::OneOf(COUNTED))
}
