//! `ANSWER` cut short after each of its bytes, and faults at each of its reads and writes, where each of these moves one byte.

use crate::calls::{Call, calling, failing, followed_by};
use crate::due::{Fault, expect, expect_faults};
use example_programs::ANSWER;
use std::process::Abort;
use std::sync::Wait;
use std::test::Fail;
use std::thread::Threads;

/// What a run of `ANSWER` writes: 22 bytes.
const WRITTEN: &str = "t1: 42\nthread t1 done\n";

/// Beginnings of `ANSWER`: the number of bytes of the shortest one, one more than that of the longest, and what a run of each has to come
/// to: its status, whether it has a record, and what is written.
type Beginnings = (usize, usize, u8, bool, &'static str);

/// `ANSWER` has 91 bytes, and its lines begin after 0, 10, 21, 31, 39, 47, 55, 64, 72, 80 and 87 of them.
const BEGINNINGS: &[Beginnings] = &[
    (0, 1, 3, false, "program: NoThread\n"),
    // From `c` to `clas`.
    (1, 5, 3, false, "line 1: UnknownWord\n"),
    // From `class` to the space before its number.
    (5, 9, 3, false, "line 1: Operands\n"),
    // `class C 1`, without its line feed and with it.
    (9, 11, 3, false, "program: NoThread\n"),
    // From `o` to `objec`.
    (11, 16, 3, false, "line 2: UnknownWord\n"),
    // From `object` to the space before its class.
    (16, 20, 3, false, "line 2: Operands\n"),
    // `object a C`, without its line feed and with it.
    (20, 22, 3, false, "program: NoThread\n"),
    // From `t` to `threa`.
    (22, 27, 3, false, "line 3: UnknownWord\n"),
    // `thread`, and the space before its name.
    (27, 29, 3, false, "line 3: Operands\n"),
    // From `thread t` to the `en` of the last line. What is wrong with a later line comes after what is wrong with this one.
    (29, 90, 3, false, "line 3: NoEnd\n"),
    // The whole program, without its last line feed and with it.
    (90, 92, 0, true, WRITTEN),
];

#[test]
fn each_beginning_of_a_program_has_its_answer(rt: HostRuntime) -> Result<(), Fail> {
    for beginnings in BEGINNINGS {
        expect_beginnings(&rt, beginnings)?;
    }
    Ok(())
}

fn expect_beginnings<R: Threads + Wait + Abort + AllocGlobal + Sync>(
    rt: &R,
    beginnings: &Beginnings,
) -> Result<(), Fail> {
    let (shortest, past, status, has_record, held) = beginnings;
    for size in *shortest..*past {
        expect(rt, &beginning(size), *status, *has_record, held)?;
    }
    Ok(())
}

/// A run of the first bytes of `ANSWER`, so many.
fn beginning(size: usize) -> Call<'static> {
    let text = ANSWER.as_bytes();
    followed_by(&calling(&["run"], ""), &text[..size.min(text.len())])
}

/// A run of `ANSWER` in which each read gives one byte, and each write takes one.
fn byte_by_byte() -> Call<'static> {
    Call {
        cut: 1,
        ..calling(&["run"], ANSWER)
    }
}

/// 91 reads give a byte each, and the 92nd finds the end. There is no other, so that one more would fail in vain.
#[test]
fn each_read_may_fail(rt: HostRuntime) -> Result<(), Fail> {
    for read in 1..93 {
        expect(
            &rt,
            &failing(&byte_by_byte(), read, 0),
            5,
            false,
            "read fault\n",
        )?;
    }
    expect(&rt, &failing(&byte_by_byte(), 93, 0), 0, true, WRITTEN)
}

/// The write that fails, and the bytes of those before it. There are 22 writes, so that one more would fail in vain.
const WRITES: &[Fault] = &[
    (0, 1, 6, true, ""),
    (0, 2, 6, true, "t"),
    (0, 3, 6, true, "t1"),
    (0, 4, 6, true, "t1:"),
    (0, 5, 6, true, "t1: "),
    (0, 6, 6, true, "t1: 4"),
    (0, 7, 6, true, "t1: 42"),
    (0, 8, 6, true, "t1: 42\n"),
    (0, 9, 6, true, "t1: 42\nt"),
    (0, 10, 6, true, "t1: 42\nth"),
    (0, 11, 6, true, "t1: 42\nthr"),
    (0, 12, 6, true, "t1: 42\nthre"),
    (0, 13, 6, true, "t1: 42\nthrea"),
    (0, 14, 6, true, "t1: 42\nthread"),
    (0, 15, 6, true, "t1: 42\nthread "),
    (0, 16, 6, true, "t1: 42\nthread t"),
    (0, 17, 6, true, "t1: 42\nthread t1"),
    (0, 18, 6, true, "t1: 42\nthread t1 "),
    (0, 19, 6, true, "t1: 42\nthread t1 d"),
    (0, 20, 6, true, "t1: 42\nthread t1 do"),
    (0, 21, 6, true, "t1: 42\nthread t1 don"),
    (0, 22, 6, true, "t1: 42\nthread t1 done"),
    (0, 23, 0, true, WRITTEN),
];

#[test]
fn each_write_may_fail(rt: HostRuntime) -> Result<(), Fail> {
    expect_faults(&rt, &byte_by_byte(), WRITES)
}

/// The first line has 7 bytes, and of the second one three are taken.
#[test]
fn a_full_sink_ends_the_writing(rt: HostRuntime) -> Result<(), Fail> {
    let call = Call {
        room: 10,
        ..calling(&["run"], ANSWER)
    };
    expect(&rt, &call, 6, true, "t1: 42\nthr")
}
