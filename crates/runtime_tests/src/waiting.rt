//! Threads that wait, are notified, and are stuck.
use crate::calls::{LEFT, pending};
use crate::compare::{holds, same};
use crate::lab::Thread::{First, Second};
use crate::lab::{Lab, Thread};
use crate::last::{closed, count, mark};
use core_world::{IllegalMonitorState, PendingCause, Progress};
use plain_monitor::{Ending, Path, Value};
use std::process::Abort;
use std::test::Fail;

#[test]
fn a_notified_thread_waits_for_the_monitor(rt: HostRuntime) -> Result<(), Fail> {
    for kept in [true, false] {
        let mut lab = Lab::begin_with(rt.alloc(), false, kept)?;
        lab.resumes(&rt, First);
        lab.resumes(&rt, Second);
        lab.enters(&rt, First, 0, 1, Path::StackFirst);
        let unheard = Progress::Pending(PendingCause::NotNotified { word: 524290 });
        same(&rt, lab.wait(First, 0, 1), Some(Ok(unheard)));
        lab.enters(&rt, Second, 0, 1, Path::MonitorFirst);
        lab.has_logged(&rt, Second, &[3]);
        same(
            &rt,
            lab.notify(Second, 0, 1),
            Some(Ok(Progress::Done(Some(0)))),
        );
        lab.has_logged(&rt, Second, &[3, 4]);
        let owned = Progress::Pending(PendingCause::Owned { word: 17 });
        same(&rt, lab.wait(First, 0, 1), Some(Ok(owned)));
        lab.leaves(&rt, Second, 0);
        lab.has_logged(&rt, Second, &[3, 4, 5]);
        same(&rt, lab.wait(First, 0, 1), LEFT);
        lab.has_logged(&rt, First, &[1, 2, 6]);
        same(&rt, lab.notify(First, 0, 1), Some(Ok(Progress::Done(None))));
        same(
            &rt,
            lab.notify_all(First, 0, 1),
            Some(Ok(Progress::Done(0))),
        );
    }
    Ok(())
}

// Both threads run, and the first one enters object 0 three times and waits there: its waiting word has the stamp 4 of the Wait and
// object 0.
fn wait_with_three_holds(rt: &impl Abort, lab: &mut Lab) {
    lab.resumes(rt, First);
    lab.resumes(rt, Second);
    holds(rt, lab.enter_times(First, 0, 3));
    let unheard = Progress::Pending(PendingCause::NotNotified { word: 1048578 });
    same(rt, lab.wait(First, 0, 1), Some(Ok(unheard)));
}

// The second thread notifies the first one, and leaves it the monitor.
fn resume_by_a_notify(rt: &impl Abort, lab: &mut Lab) {
    lab.enters(rt, Second, 0, 1, Path::MonitorFirst);
    same(
        rt,
        lab.notify(Second, 0, 1),
        Some(Ok(Progress::Done(Some(0)))),
    );
    lab.leaves(rt, Second, 0);
    same(rt, lab.wait(First, 0, 1), LEFT);
}

/// Who has waited has as many holds as before, so that the first exit doesn't let go.
#[test]
fn a_wait_gives_all_holds_back(rt: HostRuntime) -> Result<(), Fail> {
    let mut lab = Lab::begin(rt.alloc(), false)?;
    wait_with_three_holds(&rt, &mut lab);
    resume_by_a_notify(&rt, &mut lab);
    lab.leaves(&rt, First, 0);
    let owned = PendingCause::Owned { word: 9 };
    lab.is_kept_out(&rt, Second, 0, 1, owned);
    lab.leaves(&rt, First, 0);
    lab.leaves(&rt, First, 0);
    lab.enters(&rt, Second, 0, 1, Path::MonitorFirst);
    Ok(())
}

// Prints until the log has room for so many entries. Whether it has.
fn fill(lab: &mut Lab, thread: Thread, room: u64) -> bool {
    for _ in 0..lab.pass(thread).room().saturating_sub(room) {
        if !lab.print(thread, Value::Nil) {
            return false;
        }
    }
    lab.pass(thread).room() == room
}

/// A wait logs two entries, in two calls here: the room that the first one needs does for both.
#[test]
fn a_wait_that_has_room_to_begin_has_room_to_end(rt: HostRuntime) -> Result<(), Fail> {
    let mut lab = Lab::begin(rt.alloc(), false)?;
    lab.resumes(&rt, First);
    lab.resumes(&rt, Second);
    lab.enters(&rt, First, 0, 1, Path::StackFirst);
    holds(&rt, fill(&mut lab, First, 2));
    let waits = lab.wait(First, 0, 1);
    let unheard = matches!(
        waits,
        Some(Ok(Progress::Pending(PendingCause::NotNotified { .. })))
    );
    holds(&rt, unheard);
    same(&rt, lab.pass(First).room(), 1);
    lab.enters(&rt, Second, 0, 1, Path::MonitorFirst);
    same(
        &rt,
        lab.notify(Second, 0, 1),
        Some(Ok(Progress::Done(Some(0)))),
    );
    lab.leaves(&rt, Second, 0);
    same(&rt, lab.wait(First, 0, 1), LEFT);
    same(&rt, lab.pass(First).room(), 0);
    Ok(())
}

/// A wait with room for one entry may not begin, and an exit may.
#[test]
fn a_call_begins_where_there_is_room_for_what_it_logs(rt: HostRuntime) -> Result<(), Fail> {
    let mut lab = Lab::begin(rt.alloc(), false)?;
    lab.resumes(&rt, First);
    lab.enters(&rt, First, 0, 1, Path::StackFirst);
    holds(&rt, fill(&mut lab, First, 1));
    same(&rt, lab.wait(First, 0, 1), None);
    lab.leaves(&rt, First, 0);
    holds(&rt, !lab.print(First, Value::Nil));
    Ok(())
}

#[test]
fn a_notify_revokes_its_own_bias(rt: HostRuntime) -> Result<(), Fail> {
    for kept in [true, false] {
        let mut lab = Lab::begin_with(rt.alloc(), true, kept)?;
        lab.resumes(&rt, First);
        lab.enters(&rt, First, 0, 1, Path::BiasTaken);
        same(&rt, lab.notify(First, 0, 1), Some(Ok(Progress::Done(None))));
        lab.stops(&rt, First);
        let Some(counts) = lab.pass(First).counts().first() else {
            panic!(rt; "there is a class")
        };
        same(&rt, counts.single, 1);
        let closed = closed(&rt, lab);
        same(&rt, mark(&closed, 0), Some(4096));
        same(&rt, count(&closed, 0), Some(1));
    }
    Ok(())
}

#[test]
fn a_thread_without_a_hold_may_not_wait_or_notify(rt: HostRuntime) -> Result<(), Fail> {
    let mut lab = Lab::begin(rt.alloc(), true)?;
    lab.resumes(&rt, First);
    same(&rt, lab.wait(First, 0, 1), Some(Err(IllegalMonitorState)));
    same(&rt, lab.notify(First, 0, 1), Some(Err(IllegalMonitorState)));
    same(
        &rt,
        lab.notify_all(First, 0, 1),
        Some(Err(IllegalMonitorState)),
    );
    holds(&rt, lab.pass(First).log().is_empty());
    lab.stops(&rt, First);
    let closed = closed(&rt, lab);
    same(&rt, mark(&closed, 0), Some(5));
    same(&rt, count(&closed, 0), Some(0));
    Ok(())
}

#[test]
fn a_run_of_waiting_threads_alone_is_halted(rt: HostRuntime) -> Result<(), Fail> {
    let mut lab = Lab::begin(rt.alloc(), false)?;
    lab.resumes(&rt, First);
    lab.resumes(&rt, Second);
    lab.enters(&rt, First, 0, 1, Path::StackFirst);
    let unheard = Progress::Pending(PendingCause::NotNotified { word: 524290 });
    same(&rt, lab.wait(First, 0, 1), Some(Ok(unheard)));
    lab.stops(&rt, Second);
    same(&rt, lab.check_stuck(First), Some(Progress::Done(false)));
    lab.resumes(&rt, Second);
    holds(&rt, lab.finish(Second, Ending::Done));
    lab.stops(&rt, Second);
    same(&rt, lab.check_stuck(First), Some(Progress::Done(true)));
    same(&rt, lab.resume(Second), pending(PendingCause::Halted));
    Ok(())
}
