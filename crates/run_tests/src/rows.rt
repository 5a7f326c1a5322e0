//! Words, texts, and what is written.

use crate::calls::{Call, calling};
use crate::due::{Fault, Program, Row, expect_faults, expect_rows};
use crate::settings::{SETTINGS, expect_under_each};
use example_programs::{
    ANSWER, BULK_REBIAS, CROSSWISE, DINING_THREE, DUMP, EXIT_TOO_OFTEN, HAND_OVER, HASH, INFLATED,
    OVERFLOW, STALE_EPOCH, TOO_DEEP, UNGUARDED_GET, WAIT_FOREVER, WAIT_WITHOUT_HOLD,
};
use std::process::Abort;
use std::sync::Wait;
use std::test::Fail;
use std::thread::Threads;

/// `ANSWER` up to its fifth line.
const NO_END: &str = "\
class C 1
object a C
thread t1
local o
local v
";

/// A slot that the class doesn't have, of an object that the thread doesn't hold. `Range` comes before `Unguarded`.
const NO_SLOT: &str = "\
class C 1
object a C
thread t1
local o
local v
ref o a
get v o 1
end
";

/// A run of the text, by no more words than a setting has.
fn running(text: &str) -> Call {
    calling(&[], text)
}

/// Runs each of these texts under each of the settings, and compares what became of it.
fn expect_programs_under_each<R: Threads + Wait + Abort + AllocGlobal + Sync>(
    rt: &R,
    has_record: bool,
    rows: &[Program],
) -> Result<(), Fail> {
    for (text, status, held) in rows {
        expect_under_each(rt, &running(text), *status, has_record, held)?;
    }
    Ok(())
}

/// Programs whose output no order of steps changes, and what becomes of them.
const PROGRAMS: &[Program] = &[
    (ANSWER, 0, "t1: 42\nthread t1 done\n"),
    (
        EXIT_TOO_OFTEN,
        1,
        "thread t1 fault IllegalMonitorState at 6\n",
    ),
    (
        WAIT_WITHOUT_HOLD,
        1,
        "thread t1 fault IllegalMonitorState at 2\n",
    ),
    (WAIT_FOREVER, 4, "thread t1 waiting on a\n"),
    (HASH, 0, "t1: 273329069\nthread t1 done\n"),
    (TOO_DEEP, 1, "thread t1 fault TooDeep at 5\n"),
    (OVERFLOW, 1, "thread t1 fault Overflow at 3\n"),
    (UNGUARDED_GET, 1, "thread t1 fault Unguarded at 2\n"),
    (NO_SLOT, 1, "thread t1 fault Range at 2\n"),
    (HAND_OVER, 0, "t2: 7\nthread t1 done\nthread t2 done\n"),
    (
        CROSSWISE,
        4,
        "thread t1 blocked on b\nthread t2 blocked on a\n",
    ),
    (DUMP, 0, "dump t1 1\na held by t1 2\nthread t1 done\n"),
    (INFLATED, 0, "t1: 273329069\nthread t1 done\n"),
    (BULK_REBIAS, 0, "t2: 20\nthread t1 done\nthread t2 done\n"),
    (STALE_EPOCH, 0, "t1: 21\nthread t1 done\nthread t2 done\n"),
];

/// Programs whose output no order of steps changes, under each of the settings.
#[test]
fn programs_write_the_same_under_each_setting(rt: HostRuntime) -> Result<(), Fail> {
    expect_programs_under_each(&rt, true, PROGRAMS)
}

/// What is written of `ANSWER` with its journal.
const BY_BIAS: &str = "\
t1: 42
thread t1 done
@1 t1 enter a bias-taken
@2 t1 print 42
@3 t1 exit a
@4 t1 done
";

/// The same without biases.
const BY_STACK_LOCK: &str = "\
t1: 42
thread t1 done
@1 t1 enter a stack-first
@2 t1 print 42
@3 t1 exit a
@4 t1 done
";

/// What is written of `INFLATED` with its journal, without biases. The hash has no room in the lock record, so that its thread inflates the
/// object, and the second enter finds the free monitor.
const INFLATED_JOURNAL: &str = "\
t1: 273329069
thread t1 done
@1 t1 enter a stack-first
@2 t1 hash a 273329069 draw 1
@3 t1 exit a
@4 t1 enter a monitor-first
@5 t1 print 273329069
@6 t1 exit a
@7 t1 done
";

/// Words and programs, and what they write.
const BY_WORDS: &[Row] = &[
    (&["run", "--journal"], ANSWER, 0, BY_BIAS),
    (
        &[
            "run",
            "--journal",
            "--fuel=100",
            "--workers=2",
            "--quantum=10",
            "--tick=1",
        ],
        ANSWER,
        0,
        BY_BIAS,
    ),
    (
        &["run", "--journal", "--bias=off"],
        ANSWER,
        0,
        BY_STACK_LOCK,
    ),
    (
        &["run", "--stats"],
        ANSWER,
        0,
        "t1: 42\nthread t1 done\nclass C single 0 rebias 0 revoke 0 count 0 prototype 5 enters 0 1 0 0 0 0\n",
    ),
    (
        &["run", "--stats", "--bias", "off"],
        ANSWER,
        0,
        "t1: 42\nthread t1 done\nclass C single 0 rebias 0 revoke 0 count 0 prototype 1 enters 0 0 1 0 0 0\n",
    ),
    (
        &["run", "--workers=1"],
        CROSSWISE,
        4,
        "thread t1 blocked on b\nthread t2 blocked on a\n",
    ),
    (
        &["run", "--hash-start", "2"],
        HASH,
        0,
        "t1: 273331126\nthread t1 done\n",
    ),
    (
        &["run", "--workers=1", "--quantum=1"],
        DINING_THREE,
        4,
        "thread plato blocked on b\nthread zeno blocked on c\nthread thales blocked on a\n",
    ),
    (
        &["run", "--workers=1"],
        DINING_THREE,
        0,
        "thread plato done\nthread zeno done\nthread thales done\n",
    ),
    (
        &["run", "--journal", "--bias", "off"],
        INFLATED,
        0,
        INFLATED_JOURNAL,
    ),
    (
        &["run", "--stats"],
        INFLATED,
        0,
        "t1: 273329069\nthread t1 done\nclass C single 1 rebias 0 revoke 0 count 1 prototype 5 enters 0 1 0 0 1 0\n",
    ),
];

#[test]
fn words_choose_what_is_written(rt: HostRuntime) -> Result<(), Fail> {
    expect_rows(&rt, true, BY_WORDS)
}

/// The first instruction takes the only unit of fuel.
#[test]
fn one_unit_of_fuel_is_soon_spent(rt: HostRuntime) -> Result<(), Fail> {
    let call = calling(&["--fuel", "1"], ANSWER);
    expect_under_each(&rt, &call, 1, true, "thread t1 spent\n")
}

/// Words that are none of a command.
const OTHER_WORDS: &[Row] = &[
    (&["walk"], ANSWER, 2, "words refused\n"),
    (&["run", "--workers", "0"], ANSWER, 2, "words refused\n"),
];

#[test]
fn other_words_are_refused(rt: HostRuntime) -> Result<(), Fail> {
    expect_rows(&rt, false, OTHER_WORDS)
}

/// Texts that are no programs.
const NO_PROGRAMS: &[Program] = &[
    (NO_END, 3, "line 3: NoEnd\n"),
    ("", 3, "program: NoThread\n"),
    ("class C 17\n", 3, "line 1: BadNumber\n"),
];

#[test]
fn what_cannot_run_is_refused(rt: HostRuntime) -> Result<(), Fail> {
    expect_programs_under_each(&rt, false, NO_PROGRAMS)
}

/// A text of so many empty lines, in reads of 100,000 bytes.
fn empty_lines(empty_lines: u32) -> Call<'static> {
    Call {
        empty_lines,
        cut: 100_000,
        ..running("")
    }
}

/// A text may have 1,048,576 bytes.
#[test]
fn longest_text_is_read(rt: HostRuntime) -> Result<(), Fail> {
    let call = empty_lines(1_048_576);
    expect_under_each(&rt, &call, 3, false, "program: NoThread\n")
}

#[test]
fn too_long_a_text_is_refused(rt: HostRuntime) -> Result<(), Fail> {
    let call = empty_lines(1_048_577);
    expect_under_each(&rt, &call, 3, false, "program: Limit\n")
}

/// Reads and writes of one byte each change nothing.
#[test]
fn cuts_change_nothing(rt: HostRuntime) -> Result<(), Fail> {
    let piece_by_piece = Call {
        cut: 1,
        ..running(ANSWER)
    };
    expect_under_each(&rt, &piece_by_piece, 0, true, "t1: 42\nthread t1 done\n")
}

/// Faults of a run of `ANSWER`, which writes twice.
const FAULTS: &[Fault] = &[
    (1, 0, 5, false, "read fault\n"),
    (2, 0, 5, false, "read fault\n"),
    (0, 1, 6, true, ""),
    (0, 2, 6, true, "t1: 42\n"),
    (1, 1, 6, false, ""),
];

/// A read that fails leaves nothing but its line to be written, and a write that fails ends the writing.
#[test]
fn faults_end_a_call(rt: HostRuntime) -> Result<(), Fail> {
    for words in SETTINGS {
        expect_faults(&rt, &calling(words, ANSWER), FAULTS)?;
    }
    Ok(())
}
