//! Biases of objects that one thread enters and another after it. What the flag is entered by, over which the threads meet, is left open.

use crate::calls::calling;
use crate::due::expect_around;
use example_programs::{BULK_REBIAS, STALE_EPOCH};
use std::process::Abort;
use std::sync::Wait;
use std::test::Fail;
use std::thread::Threads;

/// Of `BULK_REBIAS`: the second thread ends 19 biases one by one, and takes each object by a record. The 20th is the last of a bulk rebias,
/// by which it gets a bias.
const REBIAS_REPORT: &str = "\
t2: 20
thread t1 done
thread t2 done
object items[0] 0 1 1 0 0 0 handovers 1
object items[1] 0 1 1 0 0 0 handovers 1
object items[2] 0 1 1 0 0 0 handovers 1
object items[3] 0 1 1 0 0 0 handovers 1
object items[4] 0 1 1 0 0 0 handovers 1
object items[5] 0 1 1 0 0 0 handovers 1
object items[6] 0 1 1 0 0 0 handovers 1
object items[7] 0 1 1 0 0 0 handovers 1
object items[8] 0 1 1 0 0 0 handovers 1
object items[9] 0 1 1 0 0 0 handovers 1
object items[10] 0 1 1 0 0 0 handovers 1
object items[11] 0 1 1 0 0 0 handovers 1
object items[12] 0 1 1 0 0 0 handovers 1
object items[13] 0 1 1 0 0 0 handovers 1
object items[14] 0 1 1 0 0 0 handovers 1
object items[15] 0 1 1 0 0 0 handovers 1
object items[16] 0 1 1 0 0 0 handovers 1
object items[17] 0 1 1 0 0 0 handovers 1
object items[18] 0 1 1 0 0 0 handovers 1
object items[19] 0 2 0 0 0 0 handovers 1
object flag ";

/// The same by classes. The prototype has the epoch 1.
const REBIAS_STATS: &str = "\
t2: 20
thread t1 done
thread t2 done
class Item single 19 rebias 1 revoke 0 count 20 prototype 261 enters 0 21 19 0 0 0
class Flag single ";

/// Of `STALE_EPOCH`: the same, and the first thread takes a bias of the 21st object twice, the second time in the new epoch, which its third
/// enter finds.
const STALE_REPORT: &str = "\
t1: 21
thread t1 done
thread t2 done
object items[0] 0 1 1 0 0 0 handovers 1
object items[1] 0 1 1 0 0 0 handovers 1
object items[2] 0 1 1 0 0 0 handovers 1
object items[3] 0 1 1 0 0 0 handovers 1
object items[4] 0 1 1 0 0 0 handovers 1
object items[5] 0 1 1 0 0 0 handovers 1
object items[6] 0 1 1 0 0 0 handovers 1
object items[7] 0 1 1 0 0 0 handovers 1
object items[8] 0 1 1 0 0 0 handovers 1
object items[9] 0 1 1 0 0 0 handovers 1
object items[10] 0 1 1 0 0 0 handovers 1
object items[11] 0 1 1 0 0 0 handovers 1
object items[12] 0 1 1 0 0 0 handovers 1
object items[13] 0 1 1 0 0 0 handovers 1
object items[14] 0 1 1 0 0 0 handovers 1
object items[15] 0 1 1 0 0 0 handovers 1
object items[16] 0 1 1 0 0 0 handovers 1
object items[17] 0 1 1 0 0 0 handovers 1
object items[18] 0 1 1 0 0 0 handovers 1
object items[19] 0 2 0 0 0 0 handovers 1
object items[20] 1 2 0 0 0 0 handovers 0
object flag ";

const STALE_STATS: &str = "\
t1: 21
thread t1 done
thread t2 done
class Item single 19 rebias 1 revoke 0 count 20 prototype 261 enters 1 23 19 0 0 0
class Flag single ";

/// Words, a program, and how what they write begins.
type Front = (&'static [&'static str], &'static str, &'static str);

const TWENTY_ITEMS: &[Front] = &[
    (&["run", "--report"], BULK_REBIAS, REBIAS_REPORT),
    (&["run", "--stats"], BULK_REBIAS, REBIAS_STATS),
    (&["run", "--report"], STALE_EPOCH, STALE_REPORT),
    (&["run", "--stats"], STALE_EPOCH, STALE_STATS),
];

#[test]
fn biases_of_twenty_items(rt: HostRuntime) -> Result<(), Fail> {
    expect_fronts(&rt, TWENTY_ITEMS)
}

/// Runs the program of each row, and compares its status and how what was written begins.
fn expect_fronts<R: Threads + Wait + Abort + AllocGlobal + Sync>(
    rt: &R,
    rows: &[Front],
) -> Result<(), Fail> {
    for (words, text, front) in rows {
        expect_around(rt, &calling(words, text), 0, front, &["\n"])?;
    }
    Ok(())
}
