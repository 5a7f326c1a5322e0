//! Programs whose threads make objects.

use crate::blocks::expect_blocks;
use crate::calls::calling;
use crate::due::{After, Program, Row, expect_after, expect_rows};
use example_programs::{MADE, MADE_BY_EACH_SYNC, MADE_QUEUE_SYNC, TOO_MANY};
use std::test::Fail;

/// What is written of `MADE` with its journal.
const JOURNAL: &str = "\
t1: t1.0
thread t1 done
@1 t1 new t1.0 C
@2 t1 enter t1.0 bias-taken
@3 t1 print t1.0
@4 t1 exit t1.0
@5 t1 done
";

/// An object of the second class, where the declared one is of the first.
const OF_TWO_CLASSES: &str = "\
class A 0
class B 0
object a A
thread t1
local x
new x B
enter x
exit x
end
";

/// The second thread reaches the object that the first one made by a slot, and has it when it makes its dump. The first one has nothing then.
const HANDED_OVER: &str = "\
class Hand 1
class Item 1
object hand Hand
thread t1
local h
local x
local one
ref h hand
set one 1
new x Item
enter x
put x 0 one
exit x
enter h
put h 0 x
notifyall h
exit h
end
thread t2
local h
local x
local v
local zero
ref h hand
set zero 0
enter h
label again
get x h 0
jeq x zero asleep
jump awake
label asleep
wait h
jump again
label awake
exit h
enter x
get v x 0
dump
exit x
print x
print v
new x Hand
print x
end
";

const HANDED_OVER_OUT: &str = "\
dump t2 1
t1.0 held by t2 1
t2: t1.0
t2: 1
t2: t2.0
thread t1 done
thread t2 done
";

/// Words and programs of one thread, and what they write.
const OF_ONE_THREAD: &[Row] = &[
    (&["run", "--journal"], MADE, 0, JOURNAL),
    (
        &["run", "--stats"],
        OF_TWO_CLASSES,
        0,
        "\
thread t1 done
class A single 0 rebias 0 revoke 0 count 0 prototype 5 enters 0 0 0 0 0 0
class B single 0 rebias 0 revoke 0 count 0 prototype 5 enters 0 1 0 0 0 0
",
    ),
    (
        &["run", "--stats"],
        MADE,
        0,
        "t1: t1.0\nthread t1 done\nclass C single 0 rebias 0 revoke 0 count 0 prototype 5 enters 0 1 0 0 0 0\n",
    ),
    (
        &["run", "--report"],
        MADE,
        0,
        "t1: t1.0\nthread t1 done\nobject t1.0 0 1 0 0 0 0 handovers 0\n",
    ),
    (
        &["run", "--report", "--bias=off"],
        MADE,
        0,
        "t1: t1.0\nthread t1 done\nobject t1.0 0 0 1 0 0 0 handovers 0\n",
    ),
    (&["run"], TOO_MANY, 1, "thread t1 fault TooMany at 4\n"),
    (
        &["run", "--fuel", "4"],
        MADE,
        1,
        "t1: t1.0\nthread t1 spent\n",
    ),
];

#[test]
fn a_thread_makes_objects(rt: HostRuntime) -> Result<(), Fail> {
    expect_rows(&rt, true, OF_ONE_THREAD)
}

/// Programs of several threads whose output no order of steps changes, and what becomes of them.
const OF_SEVERAL_THREADS: &[Program] = &[
    (
        MADE_QUEUE_SYNC,
        0,
        "\
consumer: 1
consumer: 2
consumer: 3
consumer: 4
consumer: 5
consumer: 6
thread producer done
thread consumer done
",
    ),
    (
        MADE_BY_EACH_SYNC,
        0,
        "\
host: plato.0
host: 3
host: zeno.0
host: 3
host: thales.0
host: 3
thread plato done
thread zeno done
thread thales done
thread host done
",
    ),
];

/// They write the same under each of the settings.
#[test]
fn made_objects_go_from_thread_to_thread(rt: HostRuntime) -> Result<(), Fail> {
    expect_blocks(&rt, OF_SEVERAL_THREADS)
}

/// Words of runs with a dump.
const DUMPS: &[Row] = &[
    (&["run"], HANDED_OVER, 0, HANDED_OVER_OUT),
    (
        &["run", "--workers", "1", "--bias", "off"],
        HANDED_OVER,
        0,
        HANDED_OVER_OUT,
    ),
    (
        &["run", "--workers", "2", "--quantum", "1"],
        HANDED_OVER,
        0,
        HANDED_OVER_OUT,
    ),
];

/// A made object in a slot, and in a dump.
#[test]
fn dumps_have_made_objects(rt: HostRuntime) -> Result<(), Fail> {
    expect_rows(&rt, true, DUMPS)
}

/// Journals of `MADE`, and what a check answers.
const JOURNALS: &[After] = &[
    (
        "%journal\n@1 t1 new t1.0 C\n@2 t1 enter t1.0 bias-taken\n@3 t1 print t1.0\n@4 t1 exit t1.0\n@5 t1 done\n",
        0,
        "legal 5 ended\n",
    ),
    ("%journal\n@1 t1 new t1.0 C\n", 0, "legal 1 open\n"),
    ("%journal\n@1 t1 new t1.1 C\n", 1, "journal 1: no step\n"),
    (
        "%journal\n@1 t1 enter t1.0 bias-taken\n",
        1,
        "journal 1: no step\n",
    ),
    ("%journal\n@1 t1 new t1.0 D\n", 3, "journal 1: unreadable\n"),
];

#[test]
fn journals_of_made_objects_are_checked(rt: HostRuntime) -> Result<(), Fail> {
    expect_after(&rt, &calling(&["check"], MADE), JOURNALS)
}
