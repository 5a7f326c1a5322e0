//! Programs with blocks, run and compiled.

use crate::calls::{Call, calling};
use crate::due::{After, Fault, Program, Row, expect, expect_after, expect_faults, expect_rows};
use example_programs::{
    BOUNDED_BUFFER_SYNC, COUNTING, COUNTING_SYNC, CROSSED_BLOCKS_SYNC, PHILOSOPHERS_SYNC,
    READERS_AND_WRITERS_SYNC,
};
use std::process::Abort;
use std::sync::Wait;
use std::test::Fail;
use std::thread::Threads;

const SYNC: &[&str] = &["sync"];

const COMPILE: &[&str] = &["compile"];

const BOTH: &[&[&str]] = &[SYNC, COMPILE];

/// What `COUNTING_SYNC` writes.
const COUNTED: &str = "t1: 0\nt1: 1\nthread t1 done\n";

/// Options of a run, of one worker and four, with biases and without, and turns of one instruction each.
const SETTINGS: &[&[&str]] = &[
    &["sync"],
    &["sync", "--workers", "1", "--bias", "off"],
    &["sync", "--workers", "4", "--quantum", "1"],
    &["sync", "--quantum", "1", "--bias", "off"],
];

/// Runs each of these programs under each of the settings, and compares what became of it.
pub fn expect_blocks<R: Threads + Wait + Abort + AllocGlobal + Sync>(
    rt: &R,
    rows: &[Program],
) -> Result<(), Fail> {
    for row in rows {
        expect_under_each(rt, row)?;
    }
    Ok(())
}

fn expect_under_each<R: Threads + Wait + Abort + AllocGlobal + Sync>(
    rt: &R,
    row: &Program,
) -> Result<(), Fail> {
    let (text, status, held) = row;
    for words in SETTINGS {
        expect(rt, &calling(words, text), *status, true, held)?;
    }
    Ok(())
}

/// Programs whose output no order of steps changes, and what becomes of them.
const BLOCKS: &[Program] = &[
    (COUNTING_SYNC, 0, COUNTED),
    (
        BOUNDED_BUFFER_SYNC,
        0,
        "\
consumer: 1
consumer: 2
consumer: 3
consumer: 4
consumer: 5
consumer: 6
thread producer done
thread consumer done
",
    ),
    (
        READERS_AND_WRITERS_SYNC,
        0,
        "\
judge: 10
judge: 0
thread reader_1 done
thread reader_2 done
thread writer_1 done
thread writer_2 done
thread judge done
",
    ),
    (
        PHILOSOPHERS_SYNC,
        0,
        "\
host: 8
host: 8
host: 8
thread plato done
thread zeno done
thread thales done
thread host done
",
    ),
    (
        CROSSED_BLOCKS_SYNC,
        4,
        "thread t1 blocked on b\nthread t2 blocked on a\n",
    ),
];

/// Programs whose output no order of steps changes, under each of the settings.
#[test]
fn blocks_are_run(rt: HostRuntime) -> Result<(), Fail> {
    expect_blocks(&rt, BLOCKS)
}

/// What is written of `COUNTING_SYNC` with its journal. The second enter finds the bias that the first one made.
const JOURNAL: &str = "\
t1: 0
t1: 1
thread t1 done
@1 t1 enter a bias-taken
@2 t1 print 0
@3 t1 exit a
@4 t1 enter a bias-own
@5 t1 print 1
@6 t1 exit a
@7 t1 done
";

/// Words, and what is written of `COUNTING_SYNC`.
const BY_WORDS: &[Row] = &[
    (&["sync", "--journal"], COUNTING_SYNC, 0, JOURNAL),
    (
        &["sync", "--stats"],
        COUNTING_SYNC,
        0,
        "t1: 0\nt1: 1\nthread t1 done\nclass C single 0 rebias 0 revoke 0 count 0 prototype 5 enters 1 1 0 0 0 0\n",
    ),
    (
        &["sync", "--report", "--bias=off"],
        COUNTING_SYNC,
        0,
        "t1: 0\nt1: 1\nthread t1 done\nobject a 0 0 2 0 0 0 handovers 0\n",
    ),
    (&["sync", "--fuel", "19"], COUNTING_SYNC, 0, COUNTED),
    (
        &["sync", "--fuel", "18"],
        COUNTING_SYNC,
        1,
        "t1: 0\nt1: 1\nthread t1 spent\n",
    ),
];

/// The options of a run do what they do there. A loop of two passes takes 19 units of fuel: four lines before it, six for each pass, its
/// last test with the jump past it, and the end.
#[test]
fn words_choose_what_is_written(rt: HostRuntime) -> Result<(), Fail> {
    expect_rows(&rt, true, BY_WORDS)
}

/// The code is a program that `run` runs, and writes of it what `sync` writes of the blocks.
#[test]
fn blocks_are_compiled(rt: HostRuntime) -> Result<(), Fail> {
    let all_goes_well = calling(COMPILE, COUNTING_SYNC);
    expect(&rt, &all_goes_well, 0, false, COUNTING)?;
    let piece_by_piece = Call {
        cut: 1,
        ..all_goes_well
    };
    expect(&rt, &piece_by_piece, 0, false, COUNTING)?;
    expect(&rt, &calling(&["run"], COUNTING), 0, true, COUNTED)
}

/// The first lines of a text, up to its `sync`.
const FRONT: &str = "\
class C 1
object a C
thread t1
local o
local i
local n
local one
ref o a
set i 0
set n 2
set one 1
while i < n
sync o
";

/// Lines after `FRONT` with which it has no blocks.
const NO_BLOCKS: &[After] = &[
    ("print i\ndone\nadd i i one\nend\n", 3, "line 12: Open\n"),
    (
        "ref o a\ndone\nadd i i one\ndone\nend\n",
        3,
        "line 14: Assigned\n",
    ),
    ("done\ndone\ndone\nend\n", 3, "line 16: Stray\n"),
    ("done\ndone\nenter o\nend\n", 3, "line 16: UnknownWord\n"),
    ("done\ndone\n", 3, "line 3: NoEnd\n"),
];

#[test]
fn what_has_no_blocks_is_refused(rt: HostRuntime) -> Result<(), Fail> {
    for words in BOTH {
        expect_no_blocks(&rt, words)?;
    }
    Ok(())
}

fn expect_no_blocks<R: Threads + Wait + Abort + AllocGlobal + Sync>(
    rt: &R,
    words: &'static [&'static str],
) -> Result<(), Fail> {
    expect_after(rt, &calling(words, FRONT), NO_BLOCKS)?;
    expect(rt, &calling(words, ""), 3, false, "program: NoThread\n")
}

/// A thread that faults says the number of the instruction in its code: here of the enter.
#[test]
fn faults_name_the_code(rt: HostRuntime) -> Result<(), Fail> {
    let text = "thread t\nlocal o\nset o 1\nsync o\nprint o\ndone\nend\n";
    expect(
        &rt,
        &calling(SYNC, text),
        1,
        true,
        "thread t fault NotRef at 2\n",
    )
}

/// A text of so many empty lines, in reads of 100,000 bytes, is refused so.
fn expect_empty<R: Threads + Wait + Abort + AllocGlobal + Sync>(
    rt: &R,
    words: &'static [&'static str],
    empty_lines: u32,
    held: &str,
) -> Result<(), Fail> {
    let call = Call {
        empty_lines,
        cut: 100_000,
        ..calling(words, "")
    };
    expect(rt, &call, 3, false, held)
}

/// How many empty lines a text has, and what is written of it.
const LONGEST: &[(u32, &str)] = &[
    (1_048_576, "program: NoThread\n"),
    (1_048_577, "program: Limit\n"),
];

/// A text may have 1,048,576 bytes.
#[test]
fn too_long_a_text_is_refused(rt: HostRuntime) -> Result<(), Fail> {
    for (empty_lines, held) in LONGEST {
        expect_empty(&rt, SYNC, *empty_lines, held)?;
        expect_empty(&rt, COMPILE, *empty_lines, held)?;
    }
    Ok(())
}

/// Words that are none of a command.
const OTHER_WORDS: &[Row] = &[
    (&["compile", "x"], COUNTING_SYNC, 2, "words refused\n"),
    (&["compile", "--stats"], COUNTING_SYNC, 2, "words refused\n"),
    (&["sync", "--items"], COUNTING_SYNC, 2, "words refused\n"),
];

#[test]
fn other_words_are_refused(rt: HostRuntime) -> Result<(), Fail> {
    expect_rows(&rt, false, OTHER_WORDS)
}

/// Faults of a run, which writes twice and more.
const FAULTS_OF_SYNC: &[Fault] = &[(1, 0, 5, false, "read fault\n"), (0, 2, 6, true, "t1: 0\n")];

/// Faults where the code is written.
const FAULTS_OF_COMPILE: &[Fault] = &[
    (1, 0, 5, false, "read fault\n"),
    (0, 1, 6, false, ""),
    (1, 1, 6, false, ""),
];

/// A read that fails leaves nothing but its line to be written, and a write that fails ends the writing.
#[test]
fn faults_end_a_call(rt: HostRuntime) -> Result<(), Fail> {
    expect_faults(&rt, &calling(SYNC, COUNTING_SYNC), FAULTS_OF_SYNC)?;
    expect_faults(&rt, &calling(COMPILE, COUNTING_SYNC), FAULTS_OF_COMPILE)
}
