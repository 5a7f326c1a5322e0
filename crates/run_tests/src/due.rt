//! What calls have to come to. A test fails in one of two functions here, which say of which program and which words the call was.
//!
//! Each comparison stands in a function, so that a test is proved as one straight line, where a macro would fork with all that is known at it.

use crate::calls::{Call, Made, calling, failing, followed_by, make, make_by};
use crate::told::{differing, told};
use run_io::Gate;
use std::fmt::Debug;
use std::process::Abort;
use std::sync::Wait;
use std::test::Fail;
use std::thread::Threads;

/// What has to be written: a text, or one of some, or what begins and ends so. What stands between, and may be two ways or more, is what
/// the order of the threads' steps decides.
#[derive(Clone, Copy)]
pub enum Held<'a> {
    Text(&'a str),
    OneOf(&'a [&'a str]),
    Around(&'a str, &'a [&'a str]),
}

/// What a call has to come to: its status, whether it has a record, and what is written.
#[derive(Clone, Copy)]
pub struct Due<'a> {
    pub status: u8,
    pub has_record: bool,
    pub held: Held<'a>,
}

/// Whether the machine under the record has to be stuck.
pub fn is_to_be_stuck(due: &Due) -> bool {
    due.has_record && due.status == 4
}

/// Whether this is one of the texts.
fn is_one_of(held: &[u8], texts: &[&str]) -> bool {
    let mut found = false;
    for text in texts {
        if held == text.as_bytes() {
            found = true;
        }
    }
    found
}

/// Whether this ends with one of the texts.
fn ends_with_one_of(held: &[u8], texts: &[&str]) -> bool {
    let mut ends = false;
    for text in texts {
        if held.ends_with(text.as_bytes()) {
            ends = true;
        }
    }
    ends
}

fn is_written(held: &[u8], due: &Held) -> bool {
    match due {
        Held::Text(text) => held == text.as_bytes(),
        Held::OneOf(texts) => is_one_of(held, texts),
        Held::Around(front, backs) => {
            held.starts_with(front.as_bytes()) && ends_with_one_of(held, backs)
        }
    }
}

/// A call with a record has a closed heap, and is stuck where its status says so.
fn is_as_due(made: &Made, due: &Due) -> bool {
    made.finish.status == due.status
        && made.finish.run.is_some() == due.has_record
        && made.finish.closed.is_some() == due.has_record
        && made.is_stuck == is_to_be_stuck(due)
        && is_written(made.held.as_slice(), &due.held)
}

/// Ends the test where the call came to something else.
pub fn compare<R: Abort + AllocGlobal>(
    rt: &R,
    call: &Call,
    made: &Made,
    due: &Due,
) -> Result<(), Fail> {
    if !is_as_due(made, due) {
        let text = differing(rt.alloc(), call, made, due)?;
        panic!(rt; "{text}");
    }
    Ok(())
}

/// Ends the test where two values differ that tell of the call.
pub fn same<T: Drop + PartialEq + Debug, R: Abort + AllocGlobal>(
    rt: &R,
    call: &Call,
    found: T,
    wanted: T,
) -> Result<(), Fail> {
    if found == wanted {
        Ok(())
    } else {
        differ(rt, call, &found, &wanted)
    }
}

/// Ends the test, which found something else of the call.
fn differ<T: Debug, R: Abort + AllocGlobal>(
    rt: &R,
    call: &Call,
    found: &T,
    wanted: &T,
) -> Result<(), Fail> {
    let line = told(rt.alloc(), call)?;
    panic!(rt; "{line}\nexpected: {wanted:?}\ngot: {found:?}");
}

/// Makes the call by this gate, and compares its status, which has to be 0.
pub fn expect_end_by<R: Threads + Wait + Abort + AllocGlobal + Sync, G: Gate + Sync>(
    rt: &R,
    call: &Call,
    gate: &G,
) -> Result<(), Fail> {
    let made = make_by(rt, call, gate)?;
    same(rt, call, made.finish.status, 0)
}

/// Makes the call, and compares what became of it.
pub fn expect<R: Threads + Wait + Abort + AllocGlobal + Sync>(
    rt: &R,
    call: &Call,
    status: u8,
    has_record: bool,
    held: &str,
) -> Result<(), Fail> {
    let due = Due {
        status,
        has_record,
        held: Held::Text(held),
    };
    expect_due(rt, call, &due)
}

/// Makes the call, and compares what became of it with all that is due.
pub fn expect_due<R: Threads + Wait + Abort + AllocGlobal + Sync>(
    rt: &R,
    call: &Call,
    due: &Due,
) -> Result<(), Fail> {
    let made = make(rt, call)?;
    compare(rt, call, &made, due)
}

/// Words, a text, and what the call has to come to: its status and what is written.
pub type Row = (&'static [&'static str], &'static str, u8, &'static str);

/// Makes the call of each row. Each has a record, or none has.
pub fn expect_rows<R: Threads + Wait + Abort + AllocGlobal + Sync>(
    rt: &R,
    has_record: bool,
    rows: &[Row],
) -> Result<(), Fail> {
    for row in rows {
        expect_row(rt, has_record, row)?;
    }
    Ok(())
}

fn expect_row<R: Threads + Wait + Abort + AllocGlobal + Sync>(
    rt: &R,
    has_record: bool,
    row: &Row,
) -> Result<(), Fail> {
    let (words, text, status, held) = row;
    expect(rt, &calling(words, text), *status, has_record, held)
}

/// A text, and what calls with it have to come to: their status and what is written.
pub type Program = (&'static str, u8, &'static str);

/// Makes the call by these words of the text in each row. Each has a record, or none has.
pub fn expect_programs<R: Threads + Wait + Abort + AllocGlobal + Sync>(
    rt: &R,
    words: &'static [&'static str],
    has_record: bool,
    rows: &[Program],
) -> Result<(), Fail> {
    for row in rows {
        expect_program(rt, words, has_record, row)?;
    }
    Ok(())
}

fn expect_program<R: Threads + Wait + Abort + AllocGlobal + Sync>(
    rt: &R,
    words: &'static [&'static str],
    has_record: bool,
    row: &Program,
) -> Result<(), Fail> {
    let (text, status, held) = row;
    expect(rt, &calling(words, text), *status, has_record, held)
}

/// What stands after the text of a call, and what the call has to come to: its status and what is written.
pub type After = (&'static str, u8, &'static str);

/// Makes the call, which has no record, with what stands after its text in each row.
pub fn expect_after<R: Threads + Wait + Abort + AllocGlobal + Sync>(
    rt: &R,
    call: &Call,
    rows: &[After],
) -> Result<(), Fail> {
    for (after, status, held) in rows {
        let call = followed_by(call, after.as_bytes());
        expect(rt, &call, *status, false, held)?;
    }
    Ok(())
}

/// The read and the write of a call that fail, as it has them, and what the call has to come to: its status, whether it has a record, and
/// what is written.
pub type Fault = (u32, u32, u8, bool, &'static str);

/// Makes the call with the faults of each row.
pub fn expect_faults<R: Threads + Wait + Abort + AllocGlobal + Sync>(
    rt: &R,
    call: &Call,
    rows: &[Fault],
) -> Result<(), Fail> {
    for (read, write, status, has_record, held) in rows {
        expect(
            rt,
            &failing(call, *read, *write),
            *status,
            *has_record,
            held,
        )?;
    }
    Ok(())
}

/// Makes the call of a run, and compares what became of it where the order of the threads' steps decides.
pub fn expect_by_order<R: Threads + Wait + Abort + AllocGlobal + Sync>(
    rt: &R,
    call: &Call,
    status: u8,
    held: Held,
) -> Result<(), Fail> {
    let due = Due {
        status,
        has_record: true,
        held,
    };
    expect_due(rt, call, &due)
}

/// Makes the call of a run, and compares its status, and how what was written begins and how it ends.
pub fn expect_around<R: Threads + Wait + Abort + AllocGlobal + Sync>(
    rt: &R,
    call: &Call,
    status: u8,
    front: &str,
    backs: &[&str],
) -> Result<(), Fail> {
    expect_by_order(rt, call, status, Held::Around(front, backs))
}
