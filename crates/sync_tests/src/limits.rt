//! Limits of blocks, at each and one past it. The lines of a thread begin after the six that all have.

use crate::texts::{Pieces, expect_read, expect_refused};
use program_syntax::RefusalCause;
use std::test::Fail;
use sync_syntax::SyncRefusalCause;

/// 32 blocks, one in another, then 33, and then 33 of which one is left open.
const DEEPEST: Pieces = &[(32, b"sync o\n"), (32, b"done\n"), (1, b"end\n")];

const TOO_DEEP: Pieces = &[
    (1, b"sync o\ndone\n"),
    (32, b"if x = y\nelse\n"),
    (1, b"while x < y\n"),
    (33, b"done\n"),
    (1, b"end\n"),
];

const LEFT_OPEN: Pieces = &[(33, b"sync o\n"), (32, b"done\n"), (1, b"end\n")];

#[test]
fn blocks_stand_32_deep_at_most(rt: HostRuntime) -> Result<(), Fail> {
    expect_read(&rt, DEEPEST)?;
    expect_refused(&rt, TOO_DEEP, 73, SyncRefusalCause::Deep)?;
    expect_refused(&rt, LEFT_OPEN, 7, SyncRefusalCause::Open)
}

/// 1,365 loops have 4,095 instructions, and the end is one more.
const MOST_LOOPS: Pieces = &[(1365, b"while x < y\ndone\n"), (1, b"end\n")];

const TOO_MANY_LOOPS: Pieces = &[(1366, b"while x < y\ndone\n"), (1, b"end\n")];
/// 2,048 tests have 4,096, whatever their `else`, and leave no room for the end.
const TOO_MANY_TESTS: Pieces = &[(2048, b"if x = y\nelse\ndone\n"), (1, b"end\n")];

#[test]
fn a_thread_has_4096_instructions_at_most(rt: HostRuntime) -> Result<(), Fail> {
    let limit = SyncRefusalCause::Plain(RefusalCause::Limit);
    expect_read(&rt, MOST_LOOPS)?;
    expect_refused(&rt, TOO_MANY_LOOPS, 2737, limit)?;
    expect_refused(&rt, TOO_MANY_TESTS, 6151, limit)
}
