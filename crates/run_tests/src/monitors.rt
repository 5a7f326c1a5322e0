//! Runs in which monitors go round: they are given back at dumps, and other inflations take them again.
//!
//! All runs are without biases and by one worker, whose threads have turns of a fixed length one after the other, so that what
//! each turn does can be counted by hand.

use crate::calls::{Call, Made, calling, make};
use crate::due::{Due, Held, compare, expect, same};
use std::alloc::{AllocError, Global};
use std::process::Abort;
use std::sync::Wait;
use std::test::Fail;
use std::thread::Threads;

/// Before the threads of `crowd`: as many objects as there may be.
const OBJECTS: &str = "\
class C 1
array a C 4096
";

/// The first thread goes over all objects, dumps, and goes over them once more. It asks for each object's hash, enters the object
/// twice, and counts its slot up. One object takes 13 instructions, which is the length of a turn: so each of its turns ends on one of
/// the objects, with two holds.
///
/// `s` is the sum of what it wrote, `d` that of the hashes of the first round less those of the second.
const LEADER: &str = "\
thread t0
local x
local i
local v
local one
local all
local s
local h
local d
set one 1
set all 4096
set s 0
set d 0
set i 0
label first
elem x a i
hash h x
add d d h
enter x
enter x
get v x 0
add v v one
put x 0 v
exit x
exit x
add s s v
add i i one
jlt i all first
dump
set i 0
label second
elem x a i
hash h x
sub d d h
enter x
enter x
get v x 0
add v v one
put x 0 v
exit x
exit x
add s s v
add i i one
jlt i all second
print s
print d
end
";

/// Another thread, with this number. From an enter to the next it takes 9 instructions, or 11 where the second round begins: so in each
/// of its turns it comes to the next object, and finds the first thread there.
fn follower(alloc: Global, number: u32) -> Result<String, AllocError> {
    format!(in alloc;
        "\
thread t{number}
local x
local i
local v
local one
local all
local s
set one 1
set all 4096
set s 0
set i 0
label first
elem x a i
enter x
get v x 0
add v v one
put x 0 v
exit x
add s s v
add i i one
jlt i all first
dump
set i 0
label second
elem x a i
enter x
get v x 0
add v v one
put x 0 v
exit x
add s s v
add i i one
jlt i all second
print s
end
"
    )
}

/// A program of 16 threads that go over 4,096 objects twice, the first of them ahead of the others.
fn crowd(alloc: Global) -> Result<String, AllocError> {
    let mut text = String::from_str(alloc, OBJECTS)?;
    text.push_str(LEADER)?;
    add_followers(alloc, &mut text)?;
    Ok(text)
}

fn add_followers(alloc: Global, text: &mut String) -> Result<(), AllocError> {
    for number in 1..16 {
        text.push_str(follower(alloc, number)?.as_str())?;
    }
    Ok(())
}

/// What is written of it. The first thread dumps while nobody has an object. The others dump in their next turns, while it has
/// the first object again, by two holds. In both rounds n threads come to an object before thread n: it writes n + 1 and n + 17.
/// So its sum is 4,096 times 2 n + 18. The hashes of the second round are those of the first.
const OF_THE_CROWD: &str = "\
dump t0 1
dump t1 1
a[0] held by t0 2
dump t2 1
a[0] held by t0 2
dump t3 1
a[0] held by t0 2
dump t4 1
a[0] held by t0 2
dump t5 1
a[0] held by t0 2
dump t6 1
a[0] held by t0 2
dump t7 1
a[0] held by t0 2
dump t8 1
a[0] held by t0 2
dump t9 1
a[0] held by t0 2
dump t10 1
a[0] held by t0 2
dump t11 1
a[0] held by t0 2
dump t12 1
a[0] held by t0 2
dump t13 1
a[0] held by t0 2
dump t14 1
a[0] held by t0 2
dump t15 1
a[0] held by t0 2
t0: 73728
t0: 0
t1: 81920
t2: 90112
t3: 98304
t4: 106496
t5: 114688
t6: 122880
t7: 131072
t8: 139264
t9: 147456
t10: 155648
t11: 163840
t12: 172032
t13: 180224
t14: 188416
t15: 196608
thread t0 done
thread t1 done
thread t2 done
thread t3 done
thread t4 done
thread t5 done
thread t6 done
thread t7 done
thread t8 done
thread t9 done
thread t10 done
thread t11 done
thread t12 done
thread t13 done
thread t14 done
thread t15 done
";

/// How many ring positions were claimed in the run, each by an inflation, and the position after the last monitor that stands in the
/// ring after it: so many monitors there are, and so often one was given back.
fn ring(made: &Made) -> Option<(u64, u64)> {
    let closed = made.finish.closed.as_ref()?;
    let words = closed.words().items();
    let shape = closed.shape();
    Some((*words.get(shape.claim_at())?, *words.get(shape.end_at())?))
}

const CROWDED: &[&str] = &[
    "run",
    "--workers",
    "1",
    "--quantum",
    "13",
    "--bias",
    "off",
    "--fuel",
    "110000",
];

/// There are 4,112 monitors, and 8,192 inflations: the second thread finds the first one on each object in both rounds, which has it by a
/// record. The 4,096 monitors of the first round are given back: at the dump of the first thread all but that of the last object, for
/// which the others ask still, and this one at the dump of the last thread. Those of the second round stay, so that 16 are left in the
/// ring.
#[test]
fn monitors_given_back_serve_later_inflations(rt: HostRuntime) -> Result<(), Fail> {
    let text = crowd(rt.alloc())?;
    expect_ring(&rt, &calling(CROWDED, text.as_str()))
}

/// What the run of `crowd` has to come to.
const DUE_OF_THE_CROWD: &Due = &Due {
    status: 0,
    has_record: true,
    held: Held::Text(OF_THE_CROWD),
};

/// Runs `crowd`, and compares what became of it and how its monitors went round.
fn expect_ring<R: Threads + Wait + Abort + AllocGlobal + Sync>(
    rt: &R,
    call: &Call,
) -> Result<(), Fail> {
    let made = make(rt, call)?;
    compare_crowd(rt, call, &made)?;
    same(rt, call, ring(&made), Some((8192, 8208)))
}

fn compare_crowd<R: Abort + AllocGlobal>(rt: &R, call: &Call, made: &Made) -> Result<(), Fail> {
    compare(rt, call, made, DUE_OF_THE_CROWD)
}

/// Two threads contend for an object, and then one of them dumps and enters it again.
const AGAIN: &str = "\
class C 0
object a C
thread t1
local x
local v
ref x a
enter x
exit x
set v 0
dump
enter x
exit x
end
thread t2
local x
ref x a
enter x
exit x
end
";

/// What is written of it in turns of two instructions. The first turn of `t1` ends on the object. `t2` inflates it, and has it in its
/// second turn by the monitor. When `t1` dumps in its third turn, nobody has it and nobody asks for it: `t1` has it by its record again.
const OF_AGAIN: &str = "\
dump t1 1
thread t1 done
thread t2 done
class C single 0 rebias 0 revoke 0 count 0 prototype 1 enters 0 0 2 0 1 0
@1 t1 enter a stack-first
@2 t1 exit a
@3 t1 dump 1
@3 t2 enter a monitor-first
@4 t2 exit a
@5 t1 enter a stack-first
@5 t2 done
@6 t1 exit a
@7 t1 done
";

const TWO_BY_TWO: &[&str] = &[
    "run",
    "--workers",
    "1",
    "--quantum",
    "2",
    "--bias",
    "off",
    "--stats",
    "--journal",
];

#[test]
fn an_object_is_locked_by_a_record_again(rt: HostRuntime) -> Result<(), Fail> {
    expect(&rt, &calling(TWO_BY_TWO, AGAIN), 0, true, OF_AGAIN)
}
