//! What the counting program logs, with just enough fuel and with one less. Four statements, two passes of six units (a test, an enter, a
//! print, an exit, an addition, and the way back), the test that is missed, the way out, and the `end`: 19 in all.

ghost use Rattle.std.specs.Prelude.{◌<◌, length};

use crate::counting::counting_program;
use object_program::Program;
use plain_machine::{Machine, Offer};
use plain_monitor::{Entry, Path, Value};
use std::process::Abort;
use std::test::Fail;
use sync_source::compile;

/// Each pass prints under the monitor.
const PASSES: &[Entry] = &[
    Entry::Enter {
        object: 0,
        path: Path::StackFirst,
    },
    Entry::Print {
        value: Value::Int(0),
    },
    Entry::Exit { object: 0 },
    Entry::Enter {
        object: 0,
        path: Path::StackFirst,
    },
    Entry::Print {
        value: Value::Int(1),
    },
    Entry::Exit { object: 0 },
];

/// Asserts that the counting program makes these entries with this fuel, then this one, and then no more.
fn expect<R: Abort + AllocGlobal>(rt: &R, fuel: u32, last: Entry) -> Result<(), Fail> {
    let source = counting_program(rt.alloc())?;
    let program = compile(rt.alloc(), &source)?;
    expect_log(rt, &program, fuel, PASSES, last)
}

/// Asserts that the first thread of the program makes these entries with this fuel, then the last one, and then no more.
pub fn expect_log<R: Abort + AllocGlobal>(
    rt: &R,
    program: &Program,
    fuel: u32,
    passes: &[Entry],
    last: Entry,
) -> Result<(), Fail> {
    let mut machine = Machine::new(rt.alloc(), program, fuel)?;
    take_all(rt, &mut machine, passes);
    take(rt, &mut machine, last);
    assert!(rt; machine.offer(0) == Offer::Ended);
    Ok(())
}

/// Asserts that the first thread makes these entries next.
fn take_all(rt: &impl Abort, machine: &mut Machine, entries: &[Entry])
    requires { 0 < length machine.old.threads }
    ensures { 0 < length machine.new.threads }
{
    for entry in entries {
        take(rt, machine, *entry);
    }
}

/// Asserts that the first thread makes this entry next.
fn take(rt: &impl Abort, machine: &mut Machine, entry: Entry)
    requires { 0 < length machine.old.threads }
    ensures { 0 < length machine.new.threads }
{
    assert!(rt; machine.offer(0) == Offer::Next(entry));
    assert!(rt; machine.take(0, &entry).is_ok());
}

#[test]
fn nineteen_units_bring_the_end(rt: HostRuntime) -> Result<(), Fail> {
    expect(&rt, 19, Entry::Done)
}

#[test]
fn eighteen_units_are_spent(rt: HostRuntime) -> Result<(), Fail> {
    expect(&rt, 18, Entry::Spent)
}
