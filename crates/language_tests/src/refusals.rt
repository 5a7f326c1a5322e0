//! Each cause of refusal, with its line.

use crate::texts::{Refused, expect_all_refused, expect_refusal, is_read, is_refused};
use example_programs::ANSWER;
use program_syntax::RefusalCause;
use std::process::Abort;
use std::test::Fail;

/// Ends the test where the front of the example up to this line, counted from 0, isn't refused, or where all of it isn't read.
fn expect_front<R: Abort + AllocGlobal>(rt: &R, text: &[u8], last: usize) {
    let is_as_due = if last < 2 {
        is_refused(rt.alloc(), text, 0, RefusalCause::NoThread)
    } else if last < 10 {
        is_refused(rt.alloc(), text, 3, RefusalCause::NoEnd)
    } else {
        is_read(rt.alloc(), text)
    };
    assert!(rt; is_as_due, "{last}");
}

#[test]
fn each_front_of_an_example_is_refused(rt: HostRuntime) -> Result<(), Fail> {
    expect_refusal(&rt, b"", 0, RefusalCause::NoThread);
    let mut text = Vec::new(rt.alloc());
    for (count, line) in ANSWER.split_inclusive('\n').enumerate() {
        text.extend_from_slice(line.as_bytes())?;
        expect_front(&rt, text.as_slice(), count);
    }
    Ok(())
}

/// Texts with a wrong line outside of the sections of threads, or with too few of them.
const OUTSIDE_SECTIONS: &[Refused] = &[
    (b"class C\x01 1\nthread t\nend\n", 1, RefusalCause::NotAscii),
    (b"thread t\nend\n# \xff\n", 3, RefusalCause::NotAscii),
    (b"thread t\nend\n\x7f", 3, RefusalCause::NotAscii),
    (b"class C 1\r \nthread t\nend\n", 1, RefusalCause::NotAscii),
    (b"\rthread t\nend\n", 1, RefusalCause::NotAscii),
    (b"thread t\nend\n\r\r\n", 3, RefusalCause::NotAscii),
    (b"Class C 1\n", 1, RefusalCause::UnknownWord),
    (b"local x\n", 1, RefusalCause::UnknownWord),
    (b"end\n", 1, RefusalCause::UnknownWord),
    (b"class C 1\nnew x C\n", 2, RefusalCause::UnknownWord),
    (b"thread t\nend\nend\n", 3, RefusalCause::UnknownWord),
    (b"thread t\nend\nprint v\n", 3, RefusalCause::UnknownWord),
    (b"class C\n", 1, RefusalCause::Operands),
    (b"class C 1 1\n", 1, RefusalCause::Operands),
    (b"class C#1 1\n", 1, RefusalCause::Operands),
    (b"thread\n", 1, RefusalCause::Operands),
    (b"thread t u\nend\n", 1, RefusalCause::Operands),
    (b"class 1C 1\n", 1, RefusalCause::BadName),
    (b"class C-1 1\n", 1, RefusalCause::BadName),
    (b"class C 1\nobject a 7\n", 2, RefusalCause::BadName),
    (b"class C 99\nclass C 1\n", 1, RefusalCause::BadNumber),
    (b"class C 1\nclass C 99\n", 2, RefusalCause::Twice),
    (
        b"class C 1\nobject a C\narray a D 9999\n",
        3,
        RefusalCause::Twice,
    ),
    (
        b"class C 1\narray a C 3\nobject a C\n",
        3,
        RefusalCause::Twice,
    ),
    (b"thread t\nend\nthread t\nend\n", 3, RefusalCause::Twice),
    (b"object a C\nclass C 1\n", 1, RefusalCause::Undeclared),
    (b"class C 17\n", 1, RefusalCause::BadNumber),
    (b"class C -1\n", 1, RefusalCause::BadNumber),
    (b"class C x\n", 1, RefusalCause::BadNumber),
    (b"class C 1\narray a C 0\n", 2, RefusalCause::BadNumber),
    (b"class C 1\narray a C 4097\n", 2, RefusalCause::BadNumber),
    (b"class C 1\n", 0, RefusalCause::NoThread),
    (b"# nothing\n\n", 0, RefusalCause::NoThread),
];

#[test]
fn lines_outside_sections_are_refused_for_their_causes(rt: HostRuntime) {
    expect_all_refused(&rt, OUTSIDE_SECTIONS);
}

/// Texts with a wrong line in the section of a thread, or without its end.
const IN_SECTIONS: &[Refused] = &[
    (b"thread t\nfoo\nend\n", 2, RefusalCause::UnknownWord),
    (b"thread t\nend x\n", 2, RefusalCause::Operands),
    (b"thread t\ndump now\nend\n", 2, RefusalCause::Operands),
    (
        b"thread t\nlocal x\nadd x x\nend\n",
        3,
        RefusalCause::Operands,
    ),
    (b"thread t\nlocal x y\nend\n", 2, RefusalCause::Operands),
    (b"thread t\nlocal 1\nend\n", 2, RefusalCause::BadName),
    (
        b"thread t\nlocal x\nset 5 y\nend\n",
        3,
        RefusalCause::BadName,
    ),
    (b"thread t\nlocal x\nlocal x\nend\n", 3, RefusalCause::Twice),
    (b"thread t\nlabel l\nlabel l\nend\n", 3, RefusalCause::Twice),
    (
        b"thread t\nset v 1\nlocal v\nend\n",
        2,
        RefusalCause::Undeclared,
    ),
    (
        b"thread t\nlocal x\nref x a\nend\n",
        3,
        RefusalCause::Undeclared,
    ),
    (
        b"thread t\nlocal x\nref x a\nend\nclass C 1\nobject a C\n",
        3,
        RefusalCause::Undeclared,
    ),
    (
        b"thread t\njump l\nend\nthread u\nlabel l\nend\n",
        2,
        RefusalCause::Undeclared,
    ),
    (
        b"thread t\nlabel l\nend\nthread u\njump l\nend\n",
        5,
        RefusalCause::Undeclared,
    ),
    (
        b"thread t\nlocal x\nend\nthread u\nprint x\nend\n",
        5,
        RefusalCause::Undeclared,
    ),
    (
        b"thread t\njump l\nlabel l x\nend\n",
        2,
        RefusalCause::Undeclared,
    ),
    (
        b"thread t\njump l\nlabel l # \x01\nend\n",
        3,
        RefusalCause::NotAscii,
    ),
    (
        b"thread t\njump l\nlabel l\nlabel l\nend\n",
        4,
        RefusalCause::Twice,
    ),
    (
        b"thread t\njump l\nend\nlabel l\nend\n",
        2,
        RefusalCause::Undeclared,
    ),
    (
        b"thread t\nlocal x\nset x 2305843009213693952\nend\n",
        3,
        RefusalCause::BadNumber,
    ),
    (
        b"thread t\nlocal x\nset x -2305843009213693953\nend\n",
        3,
        RefusalCause::BadNumber,
    ),
    (
        b"thread t\nlocal x\nset x 00000000000000000001\nend\n",
        3,
        RefusalCause::BadNumber,
    ),
    (
        b"thread t\nlocal x\nset x -\nend\n",
        3,
        RefusalCause::BadNumber,
    ),
    (
        b"thread t\nlocal x\nset x +1\nend\n",
        3,
        RefusalCause::BadNumber,
    ),
    (
        b"thread t\nlocal x\nget x x 16\nend\n",
        3,
        RefusalCause::BadNumber,
    ),
    (
        b"thread t\nlocal x\nput x -1 x\nend\n",
        3,
        RefusalCause::BadNumber,
    ),
    (
        b"thread t\nlocal x\nset y 99999999999999999999\nend\n",
        3,
        RefusalCause::Undeclared,
    ),
    (b"thread t\n", 1, RefusalCause::NoEnd),
    (b"thread t\nlocal v\n", 1, RefusalCause::NoEnd),
    (b"thread t\nfoo\nthread u\nend\n", 1, RefusalCause::NoEnd),
    (b"thread t\nclass C 1\nend\n", 1, RefusalCause::NoEnd),
    (b"thread t\nend\nthread u\nset x\n", 3, RefusalCause::NoEnd),
    (b"thread t\nfoo # \xff\nend\n", 2, RefusalCause::NotAscii),
];

#[test]
fn lines_of_sections_are_refused_for_their_causes(rt: HostRuntime) {
    expect_all_refused(&rt, IN_SECTIONS);
}

/// Texts with a wrong `new`.
const MAKING_OBJECTS: &[Refused] = &[
    (
        b"class C 1\nthread t\nlocal x\nnew x\nend\n",
        4,
        RefusalCause::Operands,
    ),
    (
        b"class C 1\nthread t\nlocal x\nnew x C 1\nend\n",
        4,
        RefusalCause::Operands,
    ),
    (
        b"class C 1\nthread t\nlocal x\nnew x 1\nend\n",
        4,
        RefusalCause::BadName,
    ),
    (
        b"class C 1\nthread t\nnew x C\nend\n",
        3,
        RefusalCause::Undeclared,
    ),
    (
        b"class C 1\nthread t\nnew x C\nlocal x\nend\n",
        3,
        RefusalCause::Undeclared,
    ),
    (
        b"class C 1\nthread t\nlocal x\nend\nthread u\nnew x C\nend\n",
        6,
        RefusalCause::Undeclared,
    ),
    (
        b"thread t\nlocal x\nnew x C\nend\n",
        3,
        RefusalCause::Undeclared,
    ),
    (
        b"thread t\nlocal x\nnew x C\nend\nclass C 1\n",
        3,
        RefusalCause::Undeclared,
    ),
    (
        b"class C 1\nobject a C\nthread t\nlocal x\nnew x a\nend\n",
        5,
        RefusalCause::Undeclared,
    ),
    (
        b"class C 1\nthread t\nlocal x\nlocal C\nnew C x\nend\n",
        5,
        RefusalCause::Undeclared,
    ),
];

#[test]
fn lines_that_make_objects_are_refused_for_their_causes(rt: HostRuntime) {
    expect_all_refused(&rt, MAKING_OBJECTS);
}
