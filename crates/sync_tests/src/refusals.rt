//! Each cause of refusal that blocks bring, with its line, and those of the plain language at the lines of blocks.

use crate::texts::{after_front, expect_causes, expect_lines_refused, expect_refusal, is_read};
use program_syntax::RefusalCause;
use std::test::Fail;
use sync_syntax::SyncRefusalCause;

/// Lines of which one opens a block that no line closes.
const NOT_CLOSED: &[(&[u8], u32)] = &[
    (b"sync o\nend\n", 7),
    (b"sync o\nsync o\ndone\nend\n", 7),
    (b"sync o\ndone\nif x < y\nend\n", 9),
    (b"while x = y\nif x = y\nelse\ndone\nend\n", 7),
    (b"if x = y\nelse\nend\ndone\n", 7),
    (b"sync o\nend\nthread u\ndone\nend\n", 7),
    (b"sync o\n# done\nend\n", 7),
    (b"sync o\nDone\nend\n", 7),
    (b"while x < y\nlabel done\nend\n", 7),
];

#[test]
fn blocks_that_are_not_closed_are_refused(rt: HostRuntime) -> Result<(), Fail> {
    expect_lines_refused(&rt, NOT_CLOSED, SyncRefusalCause::Open)
}

/// Lines with a `done` or an `else` too many.
const STRAY: &[(&[u8], u32)] = &[
    (b"done\nend\n", 7),
    (b"else\nend\n", 7),
    (b"if x < y\ndone\ndone\nend\n", 9),
    (b"if x < y\nelse\nelse\ndone\nend\n", 9),
    (b"while x < y\nelse\ndone\nend\n", 8),
    (b"sync o\nelse\ndone\nend\n", 8),
    (b"if x < y\nsync o\nelse\ndone\ndone\nend\n", 9),
    (
        b"if x < y\nelse\nif x < y\nelse\ndone\nelse\ndone\nend\n",
        12,
    ),
];

#[test]
fn lines_that_close_no_block_are_refused(rt: HostRuntime) -> Result<(), Fail> {
    expect_lines_refused(&rt, STRAY, SyncRefusalCause::Stray)
}

/// Lines of which one gives a value to the local of a `sync` that is open.
const ASSIGNED: &[(&[u8], u32)] = &[
    (b"sync o\nset o 1\ndone\nend\n", 8),
    (b"sync o\nadd o x y\ndone\nend\n", 8),
    (b"sync o\nsub o x y\ndone\nend\n", 8),
    (b"sync o\nmul o x y\ndone\nend\n", 8),
    (b"sync o\nref o a\ndone\nend\n", 8),
    (b"sync o\nelem o a x\ndone\nend\n", 8),
    (b"sync o\nget o x 0\ndone\nend\n", 8),
    (b"sync o\nhash o x\ndone\nend\n", 8),
    (b"sync o\nnew o C\ndone\nend\n", 8),
    (
        b"sync o\nsync x\nif x < y\nelse\nset o 1\ndone\ndone\ndone\nend\n",
        11,
    ),
    (b"sync o\nsync o\ndone\nset o 1\ndone\nend\n", 10),
];

#[test]
fn locals_of_open_syncs_may_not_be_changed(rt: HostRuntime) -> Result<(), Fail> {
    expect_lines_refused(&rt, ASSIGNED, SyncRefusalCause::Assigned)
}

/// Lines that the plain language refuses, too.
const PLAIN: &[(&[u8], u32, RefusalCause)] = &[
    (b"if x y\ndone\nend\n", 7, RefusalCause::Operands),
    (b"if x < y x\ndone\nend\n", 7, RefusalCause::Operands),
    (b"if x > y\ndone\nend\n", 7, RefusalCause::Operands),
    (b"while < x y\ndone\nend\n", 7, RefusalCause::Operands),
    (b"while x <= y\ndone\nend\n", 7, RefusalCause::Operands),
    (b"sync\ndone\nend\n", 7, RefusalCause::Operands),
    (b"sync o x\ndone\nend\n", 7, RefusalCause::Operands),
    (b"if x < y\nelse x\ndone\nend\n", 8, RefusalCause::Operands),
    (b"sync o\ndone o\nend\n", 8, RefusalCause::Operands),
    (b"sync 1\nend\n", 7, RefusalCause::BadName),
    (b"if x < 1\nend\n", 7, RefusalCause::BadName),
    (b"sync a\nend\n", 7, RefusalCause::Undeclared),
    (b"while z = x\nend\n", 7, RefusalCause::Undeclared),
    (b"sync o\nset z 1\ndone\nend\n", 8, RefusalCause::Undeclared),
    (b"sync o\nset o z\ndone\nend\n", 8, RefusalCause::BadNumber),
    (b"sync o\nlocal o\ndone\nend\n", 8, RefusalCause::Twice),
    (b"label l\nend\n", 7, RefusalCause::UnknownWord),
    (b"enter o\nexit o\nend\n", 7, RefusalCause::UnknownWord),
    (b"jump l\nend\n", 7, RefusalCause::UnknownWord),
    (b"end\nsync o\n", 8, RefusalCause::UnknownWord),
];

#[test]
fn lines_are_refused_for_causes_of_the_plain_language(rt: HostRuntime) -> Result<(), Fail> {
    expect_causes(&rt, PLAIN)
}

/// Whole texts, without a thread or without the end of one.
const SECTIONS: &[(&[u8], u32, RefusalCause)] = &[
    (b"", 0, RefusalCause::NoThread),
    (b"class C 1\n", 0, RefusalCause::NoThread),
    (b"thread t\nlocal o\nsync o\ndone\n", 1, RefusalCause::NoEnd),
    (
        b"thread t\nlocal o\nsync o\nclass C 1\ndone\nend\n",
        1,
        RefusalCause::NoEnd,
    ),
];

#[test]
fn sections_that_are_not_closed_are_refused(rt: HostRuntime) {
    for (text, line, why) in SECTIONS {
        expect_refusal(&rt, text, *line, SyncRefusalCause::Plain(*why));
    }
}

/// Lines that are read.
const ALLOWED: &[&[u8]] = &[
    b"end\n",
    b"sync o\ndone\nset o 1\nend\n",
    b"sync o\nput o 0 x\nget x o 0\nwait o\nprint o\ndone\nend\n",
    b"if x = y\nelse\ndone\nend\n",
    b"if x < y\nif x < y\nelse\ndone\nelse\nwhile x = y\ndone\ndone\nend\n",
    b"while x < y\nsync o\nnew x C\ndone\nnew o C\ndone\nend\n",
    b"sync o\nlocal z\nset z 1\ndone\nprint z\nend\n",
    b"\tsync  o # on o\r\n\n done\nend",
];

#[test]
fn allowed_texts_are_read(rt: HostRuntime) -> Result<(), Fail> {
    for lines in ALLOWED {
        let text = after_front(rt.alloc(), lines)?;
        assert!(rt; is_read(rt.alloc(), text.as_slice()));
    }
    Ok(())
}
