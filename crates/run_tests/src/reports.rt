//! Runs with a report.

use crate::calls::calling;
use crate::due::{Program, expect, expect_around, expect_programs};
use example_programs::{ANSWER, CROSSWISE, DUMP, HAND_OVER, WAIT_FOREVER};
use std::alloc::{AllocError, Global};
use std::test::Fail;

const REPORT: &[&str] = &["run", "--report"];

/// Programs of one thread, and what is written of them.
const OF_ONE_THREAD: &[Program] = &[
    (
        WAIT_FOREVER,
        4,
        "thread t1 waiting on a\ncycle none\nobject a 0 1 0 0 0 0 handovers 0\n",
    ),
    (
        ANSWER,
        0,
        "t1: 42\nthread t1 done\nobject a 0 1 0 0 0 0 handovers 0\n",
    ),
    (
        DUMP,
        0,
        "dump t1 1\na held by t1 2\nthread t1 done\nobject a 1 1 0 0 0 0 handovers 0\n",
    ),
];

#[test]
fn reports_of_one_thread_are_written(rt: HostRuntime) -> Result<(), Fail> {
    expect_programs(&rt, REPORT, true, OF_ONE_THREAD)
}

/// What is written of `CROSSWISE`, but for the paths to `h`.
const CROSSWISE_REPORT: &str = "\
thread t1 blocked on b
thread t2 blocked on a
cycle t1 b t2 a
object a 0 1 0 0 0 0 handovers 0
object b 0 1 0 0 0 0 handovers 0
object h 0 1 ";

/// Programs of two threads, their status, and how what is written of them begins and ends.
const OF_TWO_THREADS: &[(&str, u8, &str, &[&str])] = &[
    (CROSSWISE, 4, CROSSWISE_REPORT, &[" handovers 2\n"]),
    (
        HAND_OVER,
        0,
        "t2: 7\nthread t1 done\nthread t2 done\nobject b 0 1 ",
        &[" handovers 1\n", " handovers 2\n"],
    ),
];

/// By which paths the second thread gets a lock depends on where the first one is.
#[test]
fn reports_of_two_threads_are_written(rt: HostRuntime) -> Result<(), Fail> {
    for (text, status, front, backs) in OF_TWO_THREADS {
        expect_around(&rt, &calling(REPORT, text), *status, front, backs)?;
    }
    Ok(())
}

const ALL: &[&str] = &["run", "--report", "--journal", "--stats"];

#[test]
fn a_report_stands_after_all_others(rt: HostRuntime) -> Result<(), Fail> {
    let held = "\
t1: 42
thread t1 done
class C single 0 rebias 0 revoke 0 count 0 prototype 5 enters 0 1 0 0 0 0
@1 t1 enter a bias-taken
@2 t1 print 42
@3 t1 exit a
@4 t1 done
object a 0 1 0 0 0 0 handovers 0
";
    expect(&rt, &calling(ALL, ANSWER), 0, true, held)
}

/// Before the threads of `three_cycles`.
const OBJECTS: &str = "\
class C 0
class Gate 1
object o0 C
object o1 C
object o2 C
object o3 C
object o4 C
object o5 C
object o6 C
object o7 C
object g Gate
";

/// The object that each thread enters first, and the one that it enters last.
const ENTERED: &[(u32, u32)] = &[
    (0, 3),
    (1, 5),
    (2, 1),
    (3, 0),
    (4, 6),
    (5, 2),
    (6, 4),
    (7, 3),
];

/// A program of eight threads, each of which enters the object of its own number, waits until all have done so, and then enters another
/// one: 0 and 3 wait for one another, 1, 5 and 2 in this order, and 4 and 6; 7 waits for one of the first.
fn three_cycles(alloc: Global) -> Result<String, Fail> {
    let mut text = String::from_str(alloc, OBJECTS)?;
    for (own, other) in ENTERED {
        text.push_str(thread_of(alloc, *own, *other)?.as_str())?;
    }
    Ok(text)
}

/// The thread with the number `own`, and `other` for the object that it enters last.
fn thread_of(alloc: Global, own: u32, other: u32) -> Result<String, AllocError> {
    format!(in alloc;
        "\
thread t{own}
local x
local h
local v
local one
local all
ref x o{own}
ref h g
set one 1
set all 8
enter x
enter h
get v h 0
add v v one
put h 0 v
notifyall h
label w
get v h 0
jeq v all r
wait h
jump w
label r
exit h
ref x o{other}
enter x
end
"
    )
}

/// What is written of it, but for the paths to the gate `g`.
const THREE_CYCLES: &str = "\
thread t0 blocked on o3
thread t1 blocked on o5
thread t2 blocked on o1
thread t3 blocked on o0
thread t4 blocked on o6
thread t5 blocked on o2
thread t6 blocked on o4
thread t7 blocked on o3
cycle t0 o3 t3 o0
cycle t1 o5 t5 o2 t2 o1
cycle t4 o6 t6 o4
object o0 0 1 0 0 0 0 handovers 0
object o1 0 1 0 0 0 0 handovers 0
object o2 0 1 0 0 0 0 handovers 0
object o3 0 1 0 0 0 0 handovers 0
object o4 0 1 0 0 0 0 handovers 0
object o5 0 1 0 0 0 0 handovers 0
object o6 0 1 0 0 0 0 handovers 0
object o7 0 1 0 0 0 0 handovers 0
object g 0 1 ";

/// Each cycle is told once, from its least thread on, and the cycles by rising first thread.
#[test]
fn three_cycles_are_told_once_each(rt: HostRuntime) -> Result<(), Fail> {
    let text = three_cycles(rt.alloc())?;
    let call = calling(REPORT, text.as_str());
    expect_around(&rt, &call, 4, THREE_CYCLES, &["\n"])
}
