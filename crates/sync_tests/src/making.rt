//! A program that makes an object in each pass of a loop, hands it on under a monitor, and enters it: its code as text, what it logs with
//! just enough fuel and with one less, both worked out by hand, and its refusals. Four statements, two passes of nine units (a test, an enter, a
//! `new`, a put, an enter, two exits, an addition, and the way back), the test that is missed, the way out, and the `end`: 25 in all.

use crate::code::expect_code;
use crate::fuel::expect_log;
use crate::texts::expect_refusal;
use crate::writing::expect_written;
use object_program::Program;
use plain_monitor::{Entry, Path, Value};
use program_syntax::RefusalCause;
use std::process::Abort;
use std::test::Fail;
use sync_source::compile;
use sync_syntax::{SyncRefusalCause, read_sync};

/// Thirteen lines, after which the others of the thread follow.
const FRONT: &str = "\
class C 1
class D 2
object a C
thread t1
local o
local p
local i
local n
local one
ref o a
set i 0
set n 2
set one 1
";

const LOOP: &str = "\
while i < n
sync o
new p D
put o 0 p
sync p
done
done
add i i one
done
end
";

/// The instructions of the loop.
const CODE: &str = "\
label L5
jlt i n L7
jump L15
label L7
enter o
new p D
put o 0 p
enter p
exit p
exit o
add i i one
jump L5
label L15
end
";

/// The one declared object has the number 0, and so those that the first thread makes have the numbers from 1 on.
const PASSES: &[Entry] = &[
    Entry::Enter {
        object: 0,
        path: Path::StackFirst,
    },
    Entry::New {
        object: 1,
        class: 1,
    },
    Entry::Put {
        object: 0,
        slot: 0,
        value: Value::Ref(1),
    },
    Entry::Enter {
        object: 1,
        path: Path::StackFirst,
    },
    Entry::Exit { object: 1 },
    Entry::Exit { object: 0 },
    Entry::Enter {
        object: 0,
        path: Path::StackFirst,
    },
    Entry::New {
        object: 2,
        class: 1,
    },
    Entry::Put {
        object: 0,
        slot: 0,
        value: Value::Ref(2),
    },
    Entry::Enter {
        object: 2,
        path: Path::StackFirst,
    },
    Entry::Exit { object: 2 },
    Entry::Exit { object: 0 },
];

/// The thirteen lines, and then these.
fn after_lines<R: AllocGlobal>(rt: &R, lines: &str) -> Result<Vec<u8>, Fail> {
    let mut text = Vec::new(rt.alloc());
    text.extend_from_slice(FRONT.as_bytes())?;
    text.extend_from_slice(lines.as_bytes())?;
    Ok(text)
}

/// The program of the loop's code.
fn loop_program<R: AllocGlobal>(rt: &R) -> Result<Program, Fail> {
    let text = after_lines(rt, LOOP)?;
    let source = read_sync(rt.alloc(), text.as_slice())?;
    Ok(compile(rt.alloc(), &source)?)
}

#[test]
fn a_new_is_an_instruction_of_the_code(rt: HostRuntime) -> Result<(), Fail> {
    let program = loop_program(&rt)?;
    let code = after_lines(&rt, CODE)?;
    expect_code(&rt, &program, code.as_slice())
}

#[test]
fn a_new_is_written_as_it_was_read(rt: HostRuntime) -> Result<(), Fail> {
    let text = after_lines(&rt, LOOP)?;
    let source = read_sync(rt.alloc(), text.as_slice())?;
    expect_written(&rt, &source, text.as_slice())
}

/// Asserts that the thread makes these entries, then this one, and then no more.
fn expect<R: Abort + AllocGlobal>(rt: &R, fuel: u32, last: Entry) -> Result<(), Fail> {
    let program = loop_program(rt)?;
    expect_log(rt, &program, fuel, PASSES, last)
}

#[test]
fn twenty_five_units_bring_the_end(rt: HostRuntime) -> Result<(), Fail> {
    expect(&rt, 25, Entry::Done)
}

#[test]
fn twenty_four_units_are_spent(rt: HostRuntime) -> Result<(), Fail> {
    expect(&rt, 24, Entry::Spent)
}

/// Lines with a wrong `new`. A class that a later line declares isn't declared yet.
const WRONG: &[(&str, u32, SyncRefusalCause)] = &[
    (
        "while i < n\nnew p E\ndone\nend\n",
        15,
        SyncRefusalCause::Plain(RefusalCause::Undeclared),
    ),
    (
        "new p a\nend\n",
        14,
        SyncRefusalCause::Plain(RefusalCause::Undeclared),
    ),
    (
        "sync o\nnew q D\ndone\nend\n",
        15,
        SyncRefusalCause::Plain(RefusalCause::Undeclared),
    ),
    (
        "new p E\nend\nclass E 0\n",
        14,
        SyncRefusalCause::Plain(RefusalCause::Undeclared),
    ),
    (
        "new p\nend\n",
        14,
        SyncRefusalCause::Plain(RefusalCause::Operands),
    ),
    (
        "new p D D\nend\n",
        14,
        SyncRefusalCause::Plain(RefusalCause::Operands),
    ),
    (
        "new 1 D\nend\n",
        14,
        SyncRefusalCause::Plain(RefusalCause::BadName),
    ),
    (
        "sync o\nnew o D\ndone\nend\n",
        15,
        SyncRefusalCause::Assigned,
    ),
];

#[test]
fn wrong_lines_of_a_new_are_refused(rt: HostRuntime) -> Result<(), Fail> {
    for (lines, line, why) in WRONG {
        let text = after_lines(&rt, lines)?;
        expect_refusal(&rt, text.as_slice(), *line, *why);
    }
    Ok(())
}
