//! The lines of a small run, written by hand.

ghost use Rattle.std.specs.Prelude.{◌≡◌, [], ◌∷◌, length, true, IfOk};
ghost use Rattle.std.specs.List.{AllByRecursion};
ghost use Rattle.plain_monitor.specs.History.{RisesAbove};
ghost use Rattle.lock_journal.specs.Merging.{AreOfSixteen};
ghost use Rattle.lock_journal.specs.LinesLeft.{IsShown};
ghost use Rattle.object_program.specs.Name.{is_name};
ghost use Rattle.object_program.specs.declared.program.Code.TheVariants.{End};

use lock_journal::{Cell, ClassLine, Line, Lines, RunRecord, Shot};
use object_program::{ClassDef, Code, Name, ObjectDef, Program, ThreadDef};
use plain_machine::Machine;
use plain_monitor::{Entry, Fault, List, Logged, NoMemory, Path, Value};
use std::alloc::{AllocError, Global};
use std::process::Abort;
use std::test::Fail;

/// What thread `t1` logged, which is no history of the program: the lines are those of any record. Object 0 is `a`, and object 2 is `pool[1]`.
const LOG_OF_T1: [Logged; 6] = [
    Logged {
        stamp: 1,
        entry: Entry::Enter {
            object: 0,
            path: Path::BiasTaken,
        },
    },
    Logged {
        stamp: 3,
        entry: Entry::Put {
            object: 0,
            slot: 0,
            value: Value::Int(-5),
        },
    },
    Logged {
        stamp: 4,
        entry: Entry::Dump { number: 1 },
    },
    Logged {
        stamp: 6,
        entry: Entry::Hash {
            object: 2,
            value: 77,
            drawn: Some(1),
        },
    },
    Logged {
        stamp: 8,
        entry: Entry::Print {
            value: Value::Ref(2),
        },
    },
    Logged {
        stamp: 9,
        entry: Entry::Trap {
            fault: Fault::Range,
            index: 7,
        },
    },
];

/// What thread `t2` logged. One of its stamps is one of `t1` too.
const LOG_OF_T2: [Logged; 5] = [
    Logged {
        stamp: 2,
        entry: Entry::Enter {
            object: 2,
            path: Path::StackFirst,
        },
    },
    Logged {
        stamp: 5,
        entry: Entry::Enter {
            object: 2,
            path: Path::MonitorAgain,
        },
    },
    Logged {
        stamp: 6,
        entry: Entry::Print {
            value: Value::Int(42),
        },
    },
    Logged {
        stamp: 7,
        entry: Entry::Notify {
            object: 2,
            woken: None,
        },
    },
    Logged {
        stamp: 10,
        entry: Entry::Done,
    },
];

/// A log that prints the least number and 0.
const PRINTS: [Logged; 2] = [
    Logged {
        stamp: 1,
        entry: Entry::Print {
            value: Value::Int(-2305843009213693952),
        },
    },
    Logged {
        stamp: 2,
        entry: Entry::Print {
            value: Value::Int(0),
        },
    },
];

/// What it prints, and how both threads end.
const PRINTED: &[&str] = &[
    "t1: -2305843009213693952\n",
    "t1: 0\n",
    "thread t1 done\n",
    "thread t2 done\n",
];

/// The owners at the dump of `t1`.
const CELLS: [Cell; 4] = [
    Cell {
        owner: Some(0),
        count: 1,
    },
    Cell {
        owner: None,
        count: 0,
    },
    Cell {
        owner: Some(1),
        count: 2,
    },
    Cell {
        owner: None,
        count: 0,
    },
];

const CLASS_LINES: [ClassLine; 2] = [
    ClassLine {
        single: 1,
        rebias: 2,
        revoke: 3,
        count: 4,
        prototype: 5,
    },
    ClassLine {
        single: 0,
        rebias: 0,
        revoke: 0,
        count: 0,
        prototype: 1,
    },
];

/// The text of the run, with the statistics and the journal.
const LINES: &[&str] = &[
    "dump t1 1\n",
    "a held by t1 1\n",
    "pool[1] held by t2 2\n",
    "t2: 42\n",
    "t1: pool[1]\n",
    "thread t1 done\n",
    "thread t2 done\n",
    "class C single 1 rebias 2 revoke 3 count 4 prototype 5 enters 0 1 0 0 0 0\n",
    "class D single 0 rebias 0 revoke 0 count 0 prototype 1 enters 0 0 1 0 0 1\n",
    "@1 t1 enter a bias-taken\n",
    "@2 t2 enter pool[1] stack-first\n",
    "@3 t1 put a 0 -5\n",
    "@4 t1 dump 1\n",
    "@5 t2 enter pool[1] monitor-again\n",
    "@6 t1 hash pool[1] 77 draw 1\n",
    "@6 t2 print 42\n",
    "@7 t2 notify pool[1] none\n",
    "@8 t1 print pool[1]\n",
    "@9 t1 fault Range at 7\n",
    "@10 t2 done\n",
];

/// A thread of this name that has nothing but its end.
fn thread(alloc: Global, bytes: &[u8]) -> Result<ThreadDef, AllocError>
    requires { is_name bytes.now ≡ true }
    ensures { IfOk result (λ t. t ≡ record { name = bytes.now; locals = []; labels = []; code = End ∷ [] }) }
{
    Ok(ThreadDef {
        name: Name::of(bytes),
        locals: List::of(Vec::new(alloc)),
        labels: List::of(Vec::new(alloc)),
        code: List::of(Vec::from_slice(alloc, &[Code::End])?),
    })
}

/// A program of two classes, an object, an array and two threads.
fn two_threads(alloc: Global) -> Result<Program, AllocError> {
    let classes = [
        ClassDef {
            name: Name::of(b"C"),
            slots: 1,
        },
        ClassDef {
            name: Name::of(b"D"),
            slots: 0,
        },
    ];
    let objects = [
        ObjectDef {
            name: Name::of(b"a"),
            class: 0,
            first: 0,
            size: 1,
            array: false,
        },
        ObjectDef {
            name: Name::of(b"pool"),
            class: 1,
            first: 1,
            size: 3,
            array: true,
        },
    ];
    let mut threads = Vec::new(alloc);
    threads.push(thread(alloc, b"t1")?)?;
    threads.push(thread(alloc, b"t2")?)?;
    Ok(Program {
        classes: List::of(Vec::from_slice(alloc, &classes)?),
        objects: List::of(Vec::from_slice(alloc, &objects)?),
        threads: List::of(threads),
    })
}

/// The logs of both threads.
fn two_logs(alloc: Global) -> Result<List<List<Logged>>, AllocError>
    ensures rising { IfOk result (AllByRecursion (RisesAbove 0)) }
    ensures few { IfOk result AreOfSixteen }
{
    let mut logs = Vec::new(alloc);
    logs.push(List::of(Vec::from_slice(alloc, &LOG_OF_T1)?))?;
    logs.push(List::of(Vec::from_slice(alloc, &LOG_OF_T2)?))?;
    Ok(List::of(logs))
}

/// A log of two prints, of the least number and of 0.
fn prints(alloc: Global) -> Result<List<List<Logged>>, AllocError>
    ensures rising { IfOk result (AllByRecursion (RisesAbove 0)) }
    ensures few { IfOk result AreOfSixteen }
{
    let mut logs = Vec::new(alloc);
    logs.push(List::of(Vec::from_slice(alloc, &PRINTS)?))?;
    Ok(List::of(logs))
}

/// A dump at the third entry of the first thread and the first of the second.
fn dump(alloc: Global) -> Result<Shot, AllocError> {
    Ok(Shot {
        number: 1,
        cut: List::of(Vec::from_slice(alloc, &[3, 1])?),
        cells: List::of(Vec::from_slice(alloc, &CELLS)?),
    })
}

/// That dump alone.
fn dumps(alloc: Global) -> Result<List<Shot>, AllocError> {
    let mut shots = Vec::new(alloc);
    shots.push(dump(alloc)?)?;
    Ok(List::of(shots))
}

/// One dump of the first thread, and none of the second.
fn one_dump(alloc: Global) -> Result<List<List<Shot>>, AllocError> {
    let mut threads = Vec::new(alloc);
    threads.push(dumps(alloc)?)?;
    threads.push(List::of(Vec::new(alloc)))?;
    Ok(List::of(threads))
}

/// What happened to the biases of each class.
fn class_lines(alloc: Global) -> Result<List<ClassLine>, AllocError> {
    Ok(List::of(Vec::from_slice(alloc, &CLASS_LINES)?))
}

/// The record of a run with these logs.
pub fn run_of(alloc: Global, logs: List<List<Logged>>) -> Result<RunRecord, AllocError>
    requires rising { AllByRecursion (RisesAbove 0) logs }
    requires few { AreOfSixteen logs }
    ensures rising { IfOk result (λ run. AllByRecursion (RisesAbove 0) run.logs) }
    ensures few { IfOk result (λ run. AreOfSixteen run.logs) }
{
    let classes = class_lines(alloc)?;
    let shots = one_dump(alloc)?;
    Ok(RunRecord {
        program: two_threads(alloc)?,
        fuel: 100,
        start: 1,
        bias: true,
        logs,
        shots,
        classes,
        halted: false,
    })
}

/// The machine in which each thread of the program came to its end.
fn ended(alloc: Global, program: &Program) -> Result<Machine, NoMemory>
    ensures program { IfOk result (λ m. m.program ≡ program.now) }
    ensures threads { IfOk result (λ m. length m.threads ≡ length program.now.threads) }
{
    let mut machine = Machine::new(alloc, program, 100)?;
    for t in 0..program.threads.items().len() {
        let _ = machine.take(t as u32, &Entry::Done);
    }
    Ok(machine)
}

/// Expects this line next, in place of what `line` holds.
fn expect_line(
    rt: &impl Abort,
    run: &RunRecord,
    machine: &Machine,
    lines: &mut Lines,
    line: &mut Line,
    expected: &str,
)
    requires { IsShown run.now machine.now }
{
    assert!(rt; lines.next(run, machine, line), "before {expected}");
    assert_eq!(rt; line.bytes(), expected.as_bytes());
}

/// Expects these lines next.
fn expect_lines(
    rt: &impl Abort,
    run: &RunRecord,
    machine: &Machine,
    lines: &mut Lines,
    expected: &[&str],
)
    requires { IsShown run.now machine.now }
{
    let mut line = Line::new();
    for text in expected {
        expect_line(rt, run, machine, lines, &mut line, text);
    }
}

/// Expects no line, twice, and that nothing is left of a line that was written before.
fn expect_end(rt: &impl Abort, run: &RunRecord, machine: &Machine, lines: &mut Lines)
    requires { IsShown run.now machine.now }
{
    let mut line = Line::new();
    line.push(b"before");
    assert!(rt; !lines.next(run, machine, &mut line));
    assert!(rt; !lines.next(run, machine, &mut line));
    assert_eq!(rt; line.bytes(), b"".as_slice());
}

/// Expects these lines and no more, with the statistics and the journal where they are asked for.
fn expect_text(rt: &impl Abort, run: &RunRecord, machine: &Machine, all: bool, expected: &[&str])
    requires { IsShown run.now machine.now }
{
    let mut lines = Lines::new(all, all);
    expect_lines(rt, run, machine, &mut lines, expected);
    expect_end(rt, run, machine, &mut lines);
}

/// The same, where each thread of the run came to its end.
fn expect_ended<R: Abort + AllocGlobal>(
    rt: &R,
    run: &RunRecord,
    all: bool,
    expected: &[&str],
) -> Result<(), Fail>
    requires rising { AllByRecursion (RisesAbove 0) run.now.logs }
    requires few { AreOfSixteen run.now.logs }
{
    let machine = ended(rt.alloc(), &run.program)?;
    expect_text(rt, run, &machine, all, expected);
    Ok(())
}

#[test]
fn lines_come_in_order(rt: HostRuntime) -> Result<(), Fail> {
    let run = run_of(rt.alloc(), two_logs(rt.alloc())?)?;
    expect_ended(&rt, &run, true, LINES)
}

#[test]
fn numbers_are_written_in_digits(rt: HostRuntime) -> Result<(), Fail> {
    let run = run_of(rt.alloc(), prints(rt.alloc())?)?;
    expect_ended(&rt, &run, false, PRINTED)?;
    expect_greatest(&rt);
    Ok(())
}

/// Expects the digits of the greatest number.
fn expect_greatest(rt: &impl Abort) {
    let mut line = Line::new();
    line.push_number(18446744073709551615);
    assert_eq!(rt; line.bytes(), b"18446744073709551615".as_slice());
}
