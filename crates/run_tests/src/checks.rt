//! Journals that are checked, and what is written of them.

use crate::calls::{Call, Made, calling, followed_by, make};
use crate::due::{After, Fault, expect, expect_after, expect_faults};
use crate::told::{Named, programs};
use example_programs::{ANSWER, HASH, WAIT_FOREVER};
use std::alloc::{AllocError, Global};
use std::process::Abort;
use std::sync::Wait;
use std::test::Fail;
use std::thread::Threads;

const CHECK: &[&str] = &["check"];

/// A check of this text, after which this stands.
fn checking<'a>(text: &'a str, after: &'a [u8]) -> Call<'a> {
    followed_by(&calling(CHECK, text), after)
}

/// Words, a text and what stands after it, and what a check of it comes to: its status and what is written.
type Checked = (
    &'static [&'static str],
    &'static str,
    &'static str,
    u8,
    &'static str,
);

/// Makes the check of each row, and compares what became of it.
fn expect_checks<R: Threads + Wait + Abort + AllocGlobal + Sync>(
    rt: &R,
    rows: &[Checked],
) -> Result<(), Fail> {
    for row in rows {
        expect_check(rt, row)?;
    }
    Ok(())
}

fn expect_check<R: Threads + Wait + Abort + AllocGlobal + Sync>(
    rt: &R,
    row: &Checked,
) -> Result<(), Fail> {
    let (words, text, after, status, held) = row;
    let call = followed_by(&calling(words, text), after.as_bytes());
    expect(rt, &call, *status, false, held)
}

/// Journals of `ANSWER`, and what stands in their place.
const JOURNALS: &[After] = &[
    (
        "%journal\n@1 t1 enter a stack-first\n@2 t1 print 42\n@3 t1 exit a\n@4 t1 done\n",
        0,
        "legal 4 ended\n",
    ),
    (
        "%journal\n@1 t1 enter a stack-first\n@2 t1 print 42\n@3 t1 wait a\n@4 t1 done\n",
        1,
        "journal 3: no step\n",
    ),
    ("%journal\n", 0, "legal 0 open\n"),
    (
        "%journal\n@1 t1 enter z stack-first\n@2 t1 print 42\n@3 t1 exit a\n@4 t1 done\n",
        3,
        "journal 1: unreadable\n",
    ),
    (
        "%journal\n@1 t1 enter a stack-first\n@2 t1 print 42\n@3 t1 exit a\n@4 t1 done",
        3,
        "journal 4: unreadable\n",
    ),
    (
        "%journal\n@1 t1 enter a stack-first\n@1 t1 print 42\n",
        1,
        "journal 2: no step\n",
    ),
    (
        "%journal\n@1 t1 enter a bias-taken\n@2 t1 print 42\n",
        0,
        "legal 2 open\n",
    ),
    ("%journal\n%journal\n", 3, "journal 1: unreadable\n"),
    ("", 3, "program: NoJournal\n"),
    ("%journal", 3, "program: NoJournal\n"),
    (" %journal\n%journal\r\n", 3, "program: NoJournal\n"),
];

#[test]
fn journals_of_one_program_are_answered(rt: HostRuntime) -> Result<(), Fail> {
    expect_after(&rt, &calling(CHECK, ANSWER), JOURNALS)
}

/// Programs with journals.
const OTHER_PROGRAMS: &[Checked] = &[
    (
        CHECK,
        HASH,
        "%journal\n@1 t1 hash a 273329069 draw 1\n@2 t1 print 273329069\n@3 t1 done\n",
        0,
        "legal 3 ended\n",
    ),
    (
        CHECK,
        HASH,
        "%journal\n@1 t1 hash a 77\n@2 t1 print 77\n@3 t1 done\n",
        1,
        "hash a\n",
    ),
    (
        CHECK,
        WAIT_FOREVER,
        "%journal\n@1 t1 enter a monitor-first\n@2 t1 wait a\n",
        0,
        "legal 2 stuck\n",
    ),
    (
        CHECK,
        "class C 17\n",
        "%journal\n@1\n",
        3,
        "line 1: BadNumber\n",
    ),
    (CHECK, "", "%journal\n", 3, "program: NoThread\n"),
];

#[test]
fn journals_of_other_programs_are_answered(rt: HostRuntime) -> Result<(), Fail> {
    expect_checks(&rt, OTHER_PROGRAMS)
}

/// Words, programs and journals.
const BY_WORDS: &[Checked] = &[
    (
        &["check", "--fuel", "1"],
        ANSWER,
        "%journal\n@1 t1 spent\n",
        0,
        "legal 1 ended\n",
    ),
    (
        &["check", "--hash-start=2"],
        HASH,
        "%journal\n@1 t1 hash a 273331126 draw 1\n",
        0,
        "legal 1 open\n",
    ),
    (
        CHECK,
        HASH,
        "%journal\n@1 t1 hash a 273331126 draw 1\n",
        1,
        "hash a\n",
    ),
    (
        &["check", "--stats"],
        ANSWER,
        "%journal\n",
        2,
        "words refused\n",
    ),
];

#[test]
fn words_choose_fuel_and_generators(rt: HostRuntime) -> Result<(), Fail> {
    expect_checks(&rt, BY_WORDS)
}

/// Faults of a check, which writes once.
const FAULTS: &[Fault] = &[(1, 0, 5, false, "read fault\n"), (0, 1, 6, false, "")];

#[test]
fn faults_end_a_check(rt: HostRuntime) -> Result<(), Fail> {
    expect_faults(&rt, &checking(ANSWER, b"%journal\n"), FAULTS)
}

/// What a run writes of its journal, after its program and the marker, is legal.
#[test]
fn journals_of_runs_are_legal(rt: HostRuntime) -> Result<(), Fail> {
    expect_all_legal(&rt, programs())
}

/// Runs each of the programs, and checks the journal of the run.
fn expect_all_legal<R: Threads + Wait + Abort + AllocGlobal + Sync>(
    rt: &R,
    programs: &[Named],
) -> Result<(), Fail> {
    for (_, text) in programs {
        expect_legal(rt, text)?;
    }
    Ok(())
}

const WITH_JOURNAL: &[&str] = &["run", "--journal"];

fn expect_legal<R: Threads + Wait + Abort + AllocGlobal + Sync>(
    rt: &R,
    text: &str,
) -> Result<(), Fail> {
    let run = make(rt, &calling(WITH_JOURNAL, text))?;
    check_journal(rt, text, &run)
}

/// Checks the journal of a run of this program.
fn check_journal<R: Threads + Wait + Abort + AllocGlobal + Sync>(
    rt: &R,
    text: &str,
    run: &Made,
) -> Result<(), Fail> {
    let after = journal_of(rt.alloc(), run.held.as_slice())?;
    let held = answer_to(rt.alloc(), run)?;
    let check = checking(text, after.as_slice());
    expect(rt, &check, 0, false, held.as_str())
}

/// The journal in what a run wrote, after its marker: it begins with the first `@`.
fn journal_of(alloc: Global, held: &[u8]) -> Result<Vec<u8>, AllocError> {
    let mut journal = Vec::from_slice(alloc, b"%journal\n")?;
    let mut is_journal = false;
    for byte in held {
        is_journal = is_journal || *byte == b'@';
        if is_journal {
            journal.push(*byte)?;
        }
    }
    Ok(journal)
}

/// How many entries the journal has in what a run wrote: each of its lines has an `@`, and no other line has one.
fn entries_in(held: &[u8]) -> u32 {
    let mut entries = 0u32;
    for byte in held {
        if *byte == b'@' {
            entries = entries.saturating_add(1);
        }
    }
    entries
}

/// What a check has to answer of the journal of a run.
fn answer_to(alloc: Global, run: &Made) -> Result<String, AllocError> {
    let entries = entries_in(run.held.as_slice());
    let state = if run.finish.status == 4 {
        "stuck"
    } else {
        "ended"
    };
    format!(in alloc; "legal {entries} {state}\n")
}
