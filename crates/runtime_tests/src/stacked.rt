//! Heaps without biases: locks by records and by monitors.
use crate::compare::{holds, same};
use crate::lab::Lab;
use crate::lab::Thread::{First, Second};
use crate::last::{closed, displaced, mark, monitor, stamp, waiting};
use core_world::{IllegalMonitorState, PendingCause, Progress, TooDeep, Unguarded};
use plain_monitor::{Entry, Path, Value};
use std::process::Abort;
use std::test::Fail;

#[test]
fn a_lone_owner_locks_by_records(rt: HostRuntime) -> Result<(), Fail> {
    for kept in [true, false] {
        let mut lab = Lab::begin_with(rt.alloc(), false, kept)?;
        lab.resumes(&rt, First);
        lab.resumes(&rt, Second);
        lab.enters(&rt, First, 0, 1, Path::StackFirst);
        lab.enters(&rt, First, 0, 1, Path::StackAgain);
        same(&rt, lab.put(First, 0, 0, Value::Int(5)), Some(Ok(())));
        same(&rt, lab.get(Second, 0, 0), Some(Err(Unguarded)));
        same(&rt, lab.get(First, 0, 0), Some(Ok(Value::Int(5))));
        lab.leaves(&rt, First, 0);
        lab.leaves(&rt, First, 0);
        lab.stops(&rt, First);
        lab.stops(&rt, Second);
        lab.has_logged(&rt, First, &[1, 2, 3, 4, 5, 6]);
        lab.has_logged(&rt, Second, &[]);
        let closed = closed(&rt, lab);
        same(&rt, mark(&closed, 0), Some(1));
        same(&rt, stamp(&closed, 0), Some(6));
    }
    Ok(())
}

// The second thread enters an object that the first has entered three times.
fn contend(rt: &impl Abort, lab: &mut Lab) {
    lab.resumes(rt, First);
    lab.resumes(rt, Second);
    lab.enters(rt, First, 0, 1, Path::StackFirst);
    lab.enters(rt, First, 0, 1, Path::StackAgain);
    lab.enters(rt, First, 0, 1, Path::StackAgain);
    let owned = PendingCause::Owned { word: 4096 };
    lab.is_kept_out(rt, Second, 0, 1, owned);
    lab.enters(rt, First, 0, 1, Path::MonitorAgain);
}

#[test]
fn a_contended_lock_goes_to_the_next_by_the_monitor(rt: HostRuntime) -> Result<(), Fail> {
    for kept in [true, false] {
        let mut lab = Lab::begin_with(rt.alloc(), false, kept)?;
        contend(&rt, &mut lab);
        lab.leaves(&rt, First, 0);
        lab.leaves(&rt, First, 0);
        lab.leaves(&rt, First, 0);
        lab.leaves(&rt, First, 0);
        lab.enters(&rt, Second, 0, 1, Path::MonitorFirst);
        lab.has_logged(&rt, First, &[1, 2, 3, 4, 5, 6, 7, 8]);
        lab.has_logged(&rt, Second, &[9]);
    }
    Ok(())
}

#[test]
fn a_contended_lock_has_its_header_in_the_monitor(rt: HostRuntime) -> Result<(), Fail> {
    let mut lab = Lab::begin(rt.alloc(), false)?;
    contend(&rt, &mut lab);
    lab.stops(&rt, First);
    lab.stops(&rt, Second);
    let closed = closed(&rt, lab);
    same(&rt, mark(&closed, 0), Some(10));
    same(&rt, monitor(&closed, 0), Some([1, 9, 1, 0]));
    same(&rt, displaced(&closed, 0, 0), Some(1));
    same(&rt, displaced(&closed, 0, 1), Some(0));
    same(&rt, displaced(&closed, 0, 2), Some(0));
    same(&rt, displaced(&closed, 0, 3), Some(3));
    same(&rt, waiting(&closed, 1), Some(1));
    Ok(())
}

#[test]
fn a_print_has_the_next_stamp_of_its_thread(rt: HostRuntime) -> Result<(), Fail> {
    let mut lab = Lab::begin(rt.alloc(), false)?;
    lab.resumes(&rt, First);
    lab.resumes(&rt, Second);
    lab.enters(&rt, First, 0, 1, Path::StackFirst);
    holds(&rt, lab.print(First, Value::Int(7)));
    lab.leaves(&rt, First, 0);
    holds(&rt, lab.print(Second, Value::Ref(100)));
    holds(&rt, !lab.print(Second, Value::Ref(101)));
    lab.enters(&rt, Second, 0, 1, Path::StackFirst);
    lab.has_logged(&rt, First, &[1, 2, 3]);
    lab.has_logged(&rt, Second, &[1, 4]);
    let value = Value::Int(7);
    let printed = lab.pass(First).log().get(1).map(|logged| logged.entry);
    same(&rt, printed, Some(Entry::Print { value }));
    Ok(())
}

#[test]
fn a_thread_has_64_holds_at_most(rt: HostRuntime) -> Result<(), Fail> {
    for biasing in [false, true] {
        let mut lab = Lab::begin(rt.alloc(), biasing)?;
        lab.resumes(&rt, First);
        holds(&rt, lab.enter_times(First, 0, 64));
        same(&rt, lab.pass(First).log().len(), 64);
        same(&rt, lab.pass(First).holds(), 64);
        same(&rt, lab.enter(First, 1, 1), Some(Err(TooDeep)));
        same(&rt, lab.exit(First, 2), Some(Err(IllegalMonitorState)));
        same(&rt, lab.pass(First).log().len(), 64);
        same(&rt, lab.pass(First).holds(), 64);
    }
    Ok(())
}

/// Where no log is kept none is full: a page would have room for 2,066 entries.
#[test]
fn a_heap_without_pages_keeps_no_entries(rt: HostRuntime) -> Result<(), Fail> {
    let mut lab = Lab::begin_with(rt.alloc(), false, false)?;
    lab.resumes(&rt, First);
    for _ in 0..3000 {
        holds(&rt, lab.print(First, Value::Nil));
    }
    holds(&rt, lab.pass(First).log().is_empty());
    same(&rt, lab.pass(First).length(), 3000);
    same(&rt, lab.pass(First).last_stamp(), 3000);
    same(&rt, lab.pass(First).room(), 4_398_046_508_104);
    Ok(())
}
