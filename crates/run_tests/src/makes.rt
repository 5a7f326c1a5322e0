//! Programs that are made, and what becomes of them.

use crate::calls::{Call, calling, failing, followed_by, make};
use crate::due::{Row, expect, expect_around, expect_faults, expect_rows, same};
use example_programs::HANDOVER_40;
use std::process::Abort;
use std::sync::Wait;
use std::test::Fail;
use std::thread::Threads;

const MAKE_40: &[&str] = &["make", "40"];

#[test]
fn the_program_for_40_items_is_written(rt: HostRuntime) -> Result<(), Fail> {
    let all_goes_well = calling(MAKE_40, "");
    expect_forty(&rt, &all_goes_well)?;
    // Writes of one byte each change nothing.
    let piece_by_piece = Call {
        cut: 1,
        ..all_goes_well
    };
    expect_forty(&rt, &piece_by_piece)?;
    // Nothing is read: the first read would fail.
    expect_forty(&rt, &failing(&all_goes_well, 1, 0))
}

/// The call writes the program for 40 items.
fn expect_forty<R: Threads + Wait + Abort + AllocGlobal + Sync>(
    rt: &R,
    call: &Call,
) -> Result<(), Fail> {
    expect(rt, call, 0, false, HANDOVER_40)
}

/// Words that make no program.
const OTHER_WORDS: &[Row] = &[
    (&["make", "0"], "", 2, "words refused\n"),
    (&["make", "1501"], "", 2, "words refused\n"),
    (&["make"], "", 2, "words refused\n"),
    (&["make", "40", "--stats"], "", 2, "words refused\n"),
];

#[test]
fn other_words_are_refused(rt: HostRuntime) -> Result<(), Fail> {
    expect_rows(&rt, false, OTHER_WORDS)
}

#[test]
fn faults_end_the_writing(rt: HostRuntime) -> Result<(), Fail> {
    let all_at_once = calling(MAKE_40, "");
    expect_faults(&rt, &all_at_once, &[(0, 1, 6, false, "")])?;
    let by_twelve = Call {
        cut: 12,
        ..all_at_once
    };
    expect_faults(&rt, &by_twelve, &[(0, 2, 6, false, "class Item 0")])
}

const STATS: &[&str] = &["run", "--stats"];

/// What is written of the most items.
const MOST_ITEMS: &str = "\
t1: 1500
thread t1 done
thread t2 done
class Item single 38 rebias 1 revoke 1 count 40 prototype 1 enters 0 2981 1500 0 0 0
class Flag single ";

/// The program for the most items runs to its end within the fuel that is there without words. Its items are biased as those of the
/// program for 40 are.
#[test]
fn the_program_for_1500_items_runs_to_its_end(rt: HostRuntime) -> Result<(), Fail> {
    let making = calling(&["make", "1500"], "");
    let made = make(&rt, &making)?;
    same(&rt, &making, made.finish.status, 0)?;
    expect_most_items(&rt, made.held.as_slice())
}

/// Runs the program that was made for the most items.
fn expect_most_items<R: Threads + Wait + Abort + AllocGlobal + Sync>(
    rt: &R,
    program: &[u8],
) -> Result<(), Fail> {
    let run = followed_by(&calling(STATS, ""), program);
    expect_around(rt, &run, 0, MOST_ITEMS, &["\n"])
}

/// What is written of the 40 items where no time goes on.
const FORTY_ITEMS: &str = "\
t1: 40
thread t1 done
thread t2 done
class Item single 38 rebias 1 revoke 1 count 40 prototype 1 enters 0 61 40 0 0 0
class Flag single ";

/// Of the 40 items, which the first thread has first, the second one takes 20 one by one and 20 more at once, when the class is biased
/// anew, and after 40 the class has no biases any more.
#[test]
fn biases_of_40_items_are_renewed_and_then_revoked_in_bulk(rt: HostRuntime) -> Result<(), Fail> {
    let run = calling(&["run", "--stats"], HANDOVER_40);
    expect_around(&rt, &run, 0, FORTY_ITEMS, &["\n"])
}

/// The same by a clock that stands at its greatest count, with the longest tick: every moment is the same one.
#[test]
fn biases_of_40_items_end_the_same_where_the_clock_stands(rt: HostRuntime) -> Result<(), Fail> {
    let run = Call {
        clock: (u64::MAX, 0),
        ..calling(&["run", "--stats", "--tick", "4294967295"], HANDOVER_40)
    };
    expect_around(&rt, &run, 0, FORTY_ITEMS, &["\n"])
}

/// Where time goes on by 25 seconds with each look at the clock, the count of a class decays after a bulk rebias: the first thread takes
/// 19 items back one by one, and the class is biased anew for the 20th, in place of a bulk revoke.
#[test]
fn the_count_of_40_items_decays_as_time_goes_on(rt: HostRuntime) -> Result<(), Fail> {
    let front = "\
t1: 40
thread t1 done
thread t2 done
class Item single 38 rebias 2 revoke 0 count 20 prototype 517 enters 0 63 38 0 0 0
class Flag single ";
    expect_around(
        &rt,
        &calling(&["run", "--stats", "--tick", "25000"], HANDOVER_40),
        0,
        front,
        &["\n"],
    )
}
