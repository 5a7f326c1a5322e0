//! The counts of a record.

ghost use Rattle.std.specs.Prelude.{◌≡◌, [], ◌∷◌, false, codes, true, IfOk};
ghost use Rattle.plain_machine.specs.Legal.{IsLegal};
ghost use Rattle.object_program.specs.Name.{is_name};
ghost use Rattle.object_program.specs.declared.program.Code.{Code};

use crate::compare::same;
use lock_journal::RunRecord;
use object_program::{ClassDef, Code, Name, ObjectDef, Program, ThreadDef};
use plain_monitor::{Entry, List, Logged, NoMemory, Path};
use std::alloc::{AllocError, Global};
use std::process::Abort;
use std::test::Fail;
use wait_report::{ObjectCount, count_objects};

/// Thread `t1` enters object 0, waits on it, and leaves it once it was notified.
const CODE_OF_T1: [Code; 5] = [
    Code::Ref { x: 0, n: 0 },
    Code::Enter { x: 0 },
    Code::Wait { x: 0 },
    Code::Exit { x: 0 },
    Code::End,
];

/// Thread `t2` enters object 0 twice, notifies `t1` and leaves it, and then enters and leaves object 2.
const CODE_OF_T2: [Code; 10] = [
    Code::Ref { x: 0, n: 0 },
    Code::Enter { x: 0 },
    Code::Enter { x: 0 },
    Code::Notify { x: 0 },
    Code::Exit { x: 0 },
    Code::Exit { x: 0 },
    Code::Ref { x: 0, n: 2 },
    Code::Enter { x: 0 },
    Code::Exit { x: 0 },
    Code::End,
];

/// What `t1` logs.
const LOG_OF_T1: [Logged; 5] = [
    Logged {
        stamp: 1,
        entry: Entry::Enter {
            object: 0,
            path: Path::BiasTaken,
        },
    },
    Logged {
        stamp: 2,
        entry: Entry::Wait { object: 0 },
    },
    Logged {
        stamp: 8,
        entry: Entry::Resume { object: 0 },
    },
    Logged {
        stamp: 9,
        entry: Entry::Exit { object: 0 },
    },
    Logged {
        stamp: 10,
        entry: Entry::Done,
    },
];

/// What `t2` logs.
const LOG_OF_T2: [Logged; 8] = [
    Logged {
        stamp: 3,
        entry: Entry::Enter {
            object: 0,
            path: Path::StackFirst,
        },
    },
    Logged {
        stamp: 4,
        entry: Entry::Enter {
            object: 0,
            path: Path::StackAgain,
        },
    },
    Logged {
        stamp: 5,
        entry: Entry::Notify {
            object: 0,
            woken: Some(0),
        },
    },
    Logged {
        stamp: 6,
        entry: Entry::Exit { object: 0 },
    },
    Logged {
        stamp: 7,
        entry: Entry::Exit { object: 0 },
    },
    Logged {
        stamp: 8,
        entry: Entry::Enter {
            object: 2,
            path: Path::MonitorFirst,
        },
    },
    Logged {
        stamp: 9,
        entry: Entry::Exit { object: 2 },
    },
    Logged {
        stamp: 10,
        entry: Entry::Done,
    },
];

/// A thread of this name with one local, `x`.
fn thread(alloc: Global, bytes: &[u8], code: &[Code]) -> Result<ThreadDef, AllocError>
    requires { is_name bytes.now ≡ true }
    ensures { IfOk result (λ t. t
        ≡ record { name = bytes.now; locals = codes "x" ∷ []; labels = []; code = code.now }) }
{
    Ok(ThreadDef {
        name: Name::of(bytes),
        locals: List::of(Vec::from_slice(alloc, &[Name::of(b"x")])?),
        labels: List::of(Vec::new(alloc)),
        code: List::of(Vec::from_slice(alloc, code)?),
    })
}

/// An object of the class.
fn object(bytes: &[u8], first: u32) -> ObjectDef
    requires { is_name bytes.now ≡ true }
    ensures { result ≡ record { name = bytes.now; class = 0; first = first; size = 1; array = false } }
{
    ObjectDef {
        name: Name::of(bytes),
        class: 0,
        first,
        size: 1,
        array: false,
    }
}

/// The class of the objects.
fn classes(alloc: Global) -> Result<List<ClassDef>, AllocError>
    ensures { IfOk result (λ l. l ≡ record { name = codes "C"; slots = 0 } ∷ []) }
{
    let class = ClassDef {
        name: Name::of(b"C"),
        slots: 0,
    };
    Ok(List::of(Vec::from_slice(alloc, &[class])?))
}

/// The objects `a`, `b` and `c`.
fn objects(alloc: Global) -> Result<List<ObjectDef>, AllocError>
    ensures { IfOk result (λ l. l
        ≡ record { name = codes "a"; class = 0; first = 0; size = 1; array = false }
        ∷ record { name = codes "b"; class = 0; first = 1; size = 1; array = false }
        ∷ record { name = codes "c"; class = 0; first = 2; size = 1; array = false } ∷ []) }
{
    let mut objects = Vec::new(alloc);
    objects.push(object(b"a", 0))?;
    objects.push(object(b"b", 1))?;
    objects.push(object(b"c", 2))?;
    Ok(List::of(objects))
}

/// The two threads.
fn threads(alloc: Global) -> Result<List<ThreadDef>, AllocError>
    ensures { IfOk result (λ l. l
        ≡ record { name = codes "t1"; locals = codes "x" ∷ []; labels = []; code = CODE_OF_T1 }
        ∷ record { name = codes "t2"; locals = codes "x" ∷ []; labels = []; code = CODE_OF_T2 } ∷ []) }
{
    let mut threads = Vec::new(alloc);
    threads.push(thread(alloc, b"t1", &CODE_OF_T1)?)?;
    threads.push(thread(alloc, b"t2", &CODE_OF_T2)?)?;
    Ok(List::of(threads))
}

/// The program of both threads, over the three objects. A name has its 32 bytes by value, so each list is made in a function of its own.
fn program(alloc: Global) -> Result<Program, AllocError>
    ensures { IfOk result (λ p. p ≡ record {
      classes = record { name = codes "C"; slots = 0 } ∷ [];
      objects = record { name = codes "a"; class = 0; first = 0; size = 1; array = false }
          ∷ record { name = codes "b"; class = 0; first = 1; size = 1; array = false }
          ∷ record { name = codes "c"; class = 0; first = 2; size = 1; array = false } ∷ [];
      threads = record { name = codes "t1"; locals = codes "x" ∷ []; labels = []; code = CODE_OF_T1 }
          ∷ record { name = codes "t2"; locals = codes "x" ∷ []; labels = []; code = CODE_OF_T2 } ∷ [];
    }) }
{
    Ok(Program {
        classes: classes(alloc)?,
        objects: objects(alloc)?,
        threads: threads(alloc)?,
    })
}

/// The record of a run of it.
fn record_of_run(alloc: Global) -> Result<RunRecord, AllocError>
    ensures { IfOk result (λ run. IsLegal run.program run.fuel run.logs) }
{
    let mut logs = Vec::new(alloc);
    logs.push(List::of(Vec::from_slice(alloc, &LOG_OF_T1)?))?;
    logs.push(List::of(Vec::from_slice(alloc, &LOG_OF_T2)?))?;
    Ok(RunRecord {
        program: program(alloc)?,
        fuel: 100,
        start: 1,
        bias: true,
        logs: List::of(logs),
        shots: List::of(Vec::new(alloc)),
        classes: List::of(Vec::new(alloc)),
        halted: false,
    })
}

/// An object, how often it is entered by each path, and how often it goes from one thread to another.
const COUNTED: &[(u32, &[u64], u64)] = &[(0, &[0, 1, 1, 1, 0, 0], 2), (2, &[0, 0, 0, 0, 1, 0], 0)];

/// Asserts that these are the counts of an object.
fn expect_count(rt: &impl Abort, count: &ObjectCount, expected: &(u32, &[u64], u64)) {
    let (object, paths, handovers) = expected;
    same(rt, (count.object, count.handovers), (*object, *handovers));
    same(rt, count.paths.items(), *paths);
}

/// Asserts that these are the counts of the objects.
fn expect_counts(rt: &impl Abort, counts: &[ObjectCount], expected: &[(u32, &[u64], u64)]) {
    same(rt, counts.len(), expected.len());
    for (count, of_object) in counts.iter().zip(expected.iter()) {
        expect_count(rt, count, of_object);
    }
}

/// Asserts that these are the counts of the record's objects. The record is large, so it is borrowed here.
fn expect_counted<R: Abort + AllocGlobal>(
    rt: &R,
    run: &RunRecord,
    expected: &[(u32, &[u64], u64)],
) -> Result<(), NoMemory>
    requires { IsLegal run.now.program run.now.fuel run.now.logs }
{
    let counts = count_objects(rt.alloc(), run)?;
    expect_counts(rt, counts.items(), expected);
    Ok(())
}

/// Object 0 goes from `t1` to `t2` and back. Object 1 isn't entered, and object 2 has one thread.
#[test]
fn objects_are_counted(rt: HostRuntime) -> Result<(), Fail> {
    let run = record_of_run(rt.alloc())?;
    expect_counted(&rt, &run, COUNTED)?;
    Ok(())
}
