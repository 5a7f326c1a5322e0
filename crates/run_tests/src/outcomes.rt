//! Every end of a program. The counts, and the ways to ends, are worked out by hand from the rules of the language.

use crate::calls::calling;
use crate::due::{Fault, Program, Row, expect, expect_faults, expect_programs, expect_rows};
use example_programs::{
    ANSWER, DINING_RISING, DINING_THREE, FAULT_BY_ORDER, HASH, LOST_NOTIFY, TWO_ADDERS,
};
use std::test::Fail;

const OUTCOMES: &[&str] = &["outcomes"];

const WITNESS: &[&str] = &["outcomes", "--witness"];

/// Two threads that take two monitors, each in its own order.
const CROSSED: &str = "\
class C 0
object a C
object b C
thread t1
local x
local y
ref x a
ref y b
enter x
enter y
exit y
exit x
end
thread t2
local x
local y
ref x b
ref y a
enter x
enter y
exit y
exit x
end
";

/// The same in one order.
const ORDERED: &str = "\
class C 0
object a C
object b C
thread t1
local x
local y
ref x a
ref y b
enter x
enter y
exit y
exit x
end
thread t2
local x
local y
ref x a
ref y b
enter x
enter y
exit y
exit x
end
";

/// A thread that has no call between its jumps.
const ENDLESS: &str = "\
class C 0
object a C
thread t1
label l
jump l
end
";

/// One that prints, and so makes entries that go alone for ever.
const PRINTS: &str = "\
class C 0
object a C
thread t1
local x
label l
print x
jump l
end
";

/// Programs, and the counts of their ends.
const ENDS: &[Program] = &[
    (ANSWER, 0, "states 2\nended 1\nfaulted 0\nstuck 0\n"),
    (CROSSED, 4, "states 9\nended 1\nfaulted 0\nstuck 1\n"),
    (ORDERED, 0, "states 8\nended 1\nfaulted 0\nstuck 0\n"),
    (FAULT_BY_ORDER, 1, "states 5\nended 1\nfaulted 1\nstuck 0\n"),
    (LOST_NOTIFY, 4, "states 6\nended 1\nfaulted 0\nstuck 1\n"),
    (
        ENDLESS,
        1,
        "states 1\nended 0\nfaulted 0\nstuck 0\nspent 1\n",
    ),
    (PRINTS, 0, "states 1\nended 0\nfaulted 0\nstuck 0\n"),
    (DINING_THREE, 4, "states 27\nended 1\nfaulted 0\nstuck 1\n"),
    (DINING_RISING, 0, "states 24\nended 1\nfaulted 0\nstuck 0\n"),
    (TWO_ADDERS, 0, "states 17\nended 4\nfaulted 0\nstuck 0\n"),
    (HASH, 3, "program: Hash\n"),
];

#[test]
fn ends_are_counted(rt: HostRuntime) -> Result<(), Fail> {
    expect_programs(&rt, OUTCOMES, false, ENDS)
}

/// Programs, and what is written of them with a way to an end.
const WAYS: &[Program] = &[
    (
        CROSSED,
        4,
        "states 9\nended 1\nfaulted 0\nstuck 1\n%journal\n\
            @1 t1 enter a stack-first\n@2 t2 enter b stack-first\n",
    ),
    (
        FAULT_BY_ORDER,
        1,
        "states 5\nended 1\nfaulted 1\nstuck 0\n%journal\n\
            @1 t2 enter a stack-first\n@2 t2 put a 0 a\n@3 t2 exit a\n@4 t2 done\n\
            @5 t1 enter a stack-first\n@6 t1 get a 0 a\n@7 t1 exit a\n@8 t1 fault NotInt at 5\n",
    ),
    (ANSWER, 0, "states 2\nended 1\nfaulted 0\nstuck 0\n"),
];

/// After the counts stands a journal that leads to the stuck end, else to the one with a fault, where there is one.
#[test]
fn ways_to_ends_are_shown(rt: HostRuntime) -> Result<(), Fail> {
    expect_programs(&rt, WITNESS, false, WAYS)
}

/// How many states are kept, and what is written of `CROSSED`.
const LIMITS: &[Row] = &[
    (
        &["outcomes", "--states", "1"],
        CROSSED,
        8,
        "states 1\nended 0\nfaulted 0\nstuck 0\nopen 1\n",
    ),
    (
        &["outcomes", "--states", "3"],
        CROSSED,
        8,
        "states 3\nended 0\nfaulted 0\nstuck 0\nopen 2\n",
    ),
    (
        &["outcomes", "--states", "9"],
        CROSSED,
        4,
        "states 9\nended 1\nfaulted 0\nstuck 1\n",
    ),
    (
        &["outcomes", "--states", "10000001"],
        CROSSED,
        2,
        "words refused\n",
    ),
];

/// A search that has to stop says how many states it didn't go into.
#[test]
fn states_are_limited(rt: HostRuntime) -> Result<(), Fail> {
    expect_rows(&rt, false, LIMITS)
}

/// Faults of a search, which writes once.
const FAULTS: &[Fault] = &[(1, 0, 5, false, "read fault\n"), (0, 1, 6, false, "")];

/// A text without a program, and a read or a write that fails.
#[test]
fn searches_that_cannot_be_made_are_refused(rt: HostRuntime) -> Result<(), Fail> {
    expect_faults(&rt, &calling(OUTCOMES, ANSWER), FAULTS)?;
    expect(
        &rt,
        &calling(OUTCOMES, "class C\n"),
        3,
        false,
        "line 1: Operands\n",
    )
}
