//! The order of known logs.

ghost use Rattle.std.specs.Prelude.{◌<◌, IfOk};
ghost use Rattle.std.specs.List.{AllByRecursion};
ghost use Rattle.plain_monitor.specs.History.{RisesAbove};
ghost use Rattle.lock_journal.specs.Merging.{AreOfSixteen};

use crate::lines::run_of;
use lock_journal::{Merge, RunRecord};
use plain_monitor::{Entry, List, Logged};
use std::alloc::{AllocError, Global};
use std::process::Abort;
use std::test::Fail;

/// A log of two entries with these stamps.
fn two(alloc: Global, first: u64, second: u64) -> Result<List<Logged>, AllocError>
    requires first { 0 < first }
    requires second { first < second }
    ensures { IfOk result (RisesAbove 0) }
{
    let mut log = Vec::new(alloc);
    log.push(Logged {
        stamp: first,
        entry: Entry::Spent,
    })?;
    log.push(Logged {
        stamp: second,
        entry: Entry::Done,
    })?;
    Ok(List::of(log))
}

/// Two logs with one stamp in common, and an empty one.
fn three_logs(alloc: Global) -> Result<List<List<Logged>>, AllocError>
    ensures rising { IfOk result (AllByRecursion (RisesAbove 0)) }
    ensures few { IfOk result AreOfSixteen }
{
    let mut logs = Vec::new(alloc);
    logs.push(two(alloc, 1, 4)?)?;
    logs.push(two(alloc, 2, 4)?)?;
    logs.push(List::of(Vec::new(alloc)))?;
    Ok(List::of(logs))
}

/// The same with 17 more that are empty: more logs than a program has threads.
fn twenty_logs(alloc: Global) -> Result<List<List<Logged>>, AllocError>
    ensures rising { IfOk result (AllByRecursion (RisesAbove 0)) }
    ensures few { IfOk result AreOfSixteen }
{
    let mut logs = three_logs(alloc)?.into_vec();
    for _ in 0..17 {
        logs.push(List::of(Vec::new(alloc)))?;
    }
    Ok(List::of(logs))
}

#[test]
fn entries_come_by_stamp_and_thread(rt: HostRuntime) -> Result<(), Fail> {
    expect_merged(&rt, three_logs(rt.alloc())?)?;
    expect_merged(&rt, twenty_logs(rt.alloc())?)
}

/// The thread and the stamp of each entry, in the order in which they come.
const MERGED: &[(u32, u64)] = &[(0, 1), (1, 2), (0, 4), (1, 4)];

/// Merges the logs, which have four entries.
fn expect_merged<R: Abort + AllocGlobal>(rt: &R, logs: List<List<Logged>>) -> Result<(), Fail>
    requires rising { AllByRecursion (RisesAbove 0) logs }
    requires few { AreOfSixteen logs }
{
    let run = run_of(rt.alloc(), logs)?;
    expect_entries(rt, &run);
    Ok(())
}

/// Expects those entries from the logs of the run, and no more.
fn expect_entries(rt: &impl Abort, run: &RunRecord)
    requires rising { AllByRecursion (RisesAbove 0) run.now.logs }
    requires few { AreOfSixteen run.now.logs }
{
    let mut merge = Merge::new(run);
    for expected in MERGED {
        let given = merge
            .next(run)
            .map(|(thread, logged)| (thread, logged.stamp));
        assert_eq!(rt; given, Some(*expected));
    }
    assert!(rt; merge.next(run).is_none());
    assert!(rt; merge.next(run).is_none());
}
