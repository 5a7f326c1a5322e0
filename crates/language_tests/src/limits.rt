//! Each limit, at it and one past it.

use crate::texts::{Part, Refused, expect_all_refused, expect_read, expect_refused};
use program_syntax::RefusalCause;
use std::test::Fail;

/// A text of 1,048,576 bytes, and one of one more.
const LONGEST: &[Part] = &[
    Part::Times(1, b"thread t\nend\n"),
    Part::Times(1048576 - 13, b"\n"),
];

const TOO_LONG: &[Part] = &[
    Part::Times(1, b"thread t\nend\n"),
    Part::Times(1048576 - 12, b"\n"),
];

#[test]
fn a_text_has_1048576_bytes_at_most(rt: HostRuntime) -> Result<(), Fail> {
    expect_read(&rt, LONGEST)?;
    expect_refused(&rt, TOO_LONG, 0, RefusalCause::Limit)
}

/// A thread whose name has 32 bytes, before one without a name, and before one whose name has 33.
const LONGEST_NAME: &[Part] = &[
    Part::Times(1, b"thread "),
    Part::Times(32, b"n"),
    Part::Times(1, b"\nend\nthread "),
];

const TOO_LONG_NAME: &[Part] = &[
    Part::Times(1, b"thread "),
    Part::Times(32, b"n"),
    Part::Times(1, b"\nend\nthread "),
    Part::Times(33, b"n"),
];

#[test]
fn a_name_has_32_bytes_at_most(rt: HostRuntime) -> Result<(), Fail> {
    expect_refused(&rt, LONGEST_NAME, 3, RefusalCause::Operands)?;
    expect_refused(&rt, TOO_LONG_NAME, 3, RefusalCause::BadName)
}

/// 64 classes and 16 threads, and one class more, of too many slots.
const MOST_SECTIONS: &[Part] = &[
    Part::Numbered(64, b"class C", b" 16\n"),
    Part::Numbered(16, b"thread t", b"\nend\n"),
];

const CLASS_OF_17_SLOTS: &[Part] = &[
    Part::Numbered(64, b"class C", b" 16\n"),
    Part::Numbered(16, b"thread t", b"\nend\n"),
    Part::Times(1, b"class D 17\n"),
];

const TOO_MANY_CLASSES: &[Part] = &[Part::Numbered(65, b"class C", b" 0\n")];

const TOO_MANY_THREADS: &[Part] = &[Part::Numbered(17, b"thread t", b"\nend\n")];

#[test]
fn classes_and_threads_are_limited(rt: HostRuntime) -> Result<(), Fail> {
    expect_read(&rt, MOST_SECTIONS)?;
    expect_refused(&rt, CLASS_OF_17_SLOTS, 97, RefusalCause::BadNumber)?;
    expect_refused(&rt, TOO_MANY_CLASSES, 65, RefusalCause::Limit)?;
    expect_refused(&rt, TOO_MANY_THREADS, 33, RefusalCause::Limit)
}

/// Arrays of 4,096 objects with others, and arrays that have one object too many together.
const TOO_LARGE_ARRAYS: &[Refused] = &[
    (
        b"class C 1\narray a C 4096\nobject b C\nthread t\nend\n",
        3,
        RefusalCause::Limit,
    ),
    (
        b"class C 1\nobject b C\narray a C 4096\nthread t\nend\n",
        3,
        RefusalCause::Limit,
    ),
    (
        b"class C 1\narray a C 4000\narray b C 97\nthread t\nend\n",
        3,
        RefusalCause::Limit,
    ),
];

const LARGEST_ARRAY: &[Part] = &[Part::Times(
    1,
    b"class C 1\narray a C 4095\nobject b C\nthread t\nend\n",
)];
/// 4,096 objects, and one more.
const MOST_OBJECTS: &[Part] = &[
    Part::Times(1, b"class C 0\nthread t\nend\n"),
    Part::Numbered(4096, b"object a", b" C\n"),
];

const TOO_MANY_OBJECTS: &[Part] = &[
    Part::Times(1, b"class C 0\nthread t\nend\n"),
    Part::Numbered(4096, b"object a", b" C\n"),
    Part::Times(1, b"object b C\n"),
];

#[test]
fn objects_are_limited(rt: HostRuntime) -> Result<(), Fail> {
    expect_all_refused(&rt, TOO_LARGE_ARRAYS);
    expect_read(&rt, LARGEST_ARRAY)?;
    expect_read(&rt, MOST_OBJECTS)?;
    expect_refused(&rt, TOO_MANY_OBJECTS, 4100, RefusalCause::Limit)
}

/// A thread with 32 locals and 4,096 instructions, and one with one more of each.
const LARGEST_THREAD: &[Part] = &[
    Part::Times(1, b"thread t\n"),
    Part::Numbered(32, b"local x", b"\n"),
    Part::Times(4095, b"dump\n"),
    Part::Times(1, b"end\n"),
];

const TOO_MANY_LOCALS: &[Part] = &[
    Part::Times(1, b"thread t\n"),
    Part::Numbered(33, b"local x", b"\n"),
    Part::Times(1, b"end\n"),
];

const TOO_MANY_INSTRUCTIONS: &[Part] = &[
    Part::Times(1, b"thread t\n"),
    Part::Times(4096, b"dump\n"),
    Part::Times(1, b"end\n"),
];

#[test]
fn locals_and_instructions_are_limited(rt: HostRuntime) -> Result<(), Fail> {
    expect_read(&rt, LARGEST_THREAD)?;
    expect_refused(&rt, TOO_MANY_LOCALS, 34, RefusalCause::Limit)?;
    expect_refused(&rt, TOO_MANY_INSTRUCTIONS, 4098, RefusalCause::Limit)
}
