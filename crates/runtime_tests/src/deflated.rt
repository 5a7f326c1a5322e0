//! Heaps without biases whose idle monitors are given back at the safepoint of a dump. There are 103 monitors, for 101 objects and two
//! threads, and so 128 places in the ring.
use crate::compare::same;
use crate::lab::Lab;
use crate::lab::Thread::{First, Second};
use crate::last::{claim, closed, end, mark, monitor, ring};
use core_world::{PendingCause, Progress};
use plain_monitor::Path;
use std::process::Abort;
use std::test::Fail;

// The first thread locks object 0, the second inflates the lock, and then has it by the monitor and leaves it. It stops, and the first one dumps.
fn inflate_and_dump(rt: &impl Abort, lab: &mut Lab) {
    lab.resumes(rt, First);
    lab.resumes(rt, Second);
    lab.enters(rt, First, 0, 1, Path::StackFirst);
    let owned = PendingCause::Owned { word: 4096 };
    lab.is_kept_out(rt, Second, 0, 1, owned);
    lab.leaves(rt, First, 0);
    lab.enters(rt, Second, 0, 1, Path::MonitorFirst);
    lab.leaves(rt, Second, 0);
    lab.stops(rt, Second);
    same(rt, lab.dump(First), Some(Ok(Progress::Done(1))));
}

// The first claim gave monitor 0. It stands after the 103 positions of the beginning again.
#[test]
fn an_idle_monitor_stands_in_the_ring_again(rt: HostRuntime) -> Result<(), Fail> {
    let mut lab = Lab::begin(rt.alloc(), false)?;
    inflate_and_dump(&rt, &mut lab);
    lab.stops(&rt, First);
    let closed = closed(&rt, lab);
    same(&rt, mark(&closed, 0), Some(1));
    same(&rt, monitor(&closed, 0), Some([0, 0, 0, 0]));
    same(&rt, claim(&closed), Some(1));
    same(&rt, end(&closed), Some(104));
    same(&rt, ring(&closed, 103), Some(0));
    Ok(())
}

// The mark 18 names monitor 1.
#[test]
fn the_next_inflation_has_the_next_monitor(rt: HostRuntime) -> Result<(), Fail> {
    let mut lab = Lab::begin(rt.alloc(), false)?;
    inflate_and_dump(&rt, &mut lab);
    lab.resumes(&rt, Second);
    lab.enters(&rt, First, 1, 1, Path::StackFirst);
    let owned = PendingCause::Owned { word: 4096 };
    lab.is_kept_out(&rt, Second, 1, 1, owned);
    lab.stops(&rt, First);
    lab.stops(&rt, Second);
    let closed = closed(&rt, lab);
    same(&rt, mark(&closed, 1), Some(18));
    same(&rt, claim(&closed), Some(2));
    same(&rt, end(&closed), Some(104));
    Ok(())
}

// The second thread has the object by its monitor, while the first one dumps.
fn own_and_dump(rt: &impl Abort, lab: &mut Lab) {
    lab.resumes(rt, First);
    lab.resumes(rt, Second);
    lab.enters(rt, First, 0, 1, Path::StackFirst);
    let owned = PendingCause::Owned { word: 4096 };
    lab.is_kept_out(rt, Second, 0, 1, owned);
    lab.leaves(rt, First, 0);
    lab.enters(rt, Second, 0, 1, Path::MonitorFirst);
    lab.stops(rt, Second);
    same(rt, lab.dump(First), Some(Ok(Progress::Done(1))));
    lab.stops(rt, First);
}

// The mark 10 names monitor 0, and the owner 17 is the second thread.
#[test]
fn an_object_with_an_owner_keeps_its_monitor(rt: HostRuntime) -> Result<(), Fail> {
    let mut lab = Lab::begin(rt.alloc(), false)?;
    own_and_dump(&rt, &mut lab);
    let closed = closed(&rt, lab);
    same(&rt, mark(&closed, 0), Some(10));
    same(&rt, monitor(&closed, 0), Some([1, 17, 0, 0]));
    same(&rt, end(&closed), Some(103));
    Ok(())
}

// The waiting word has the stamp 2 of the Wait and object 0.
#[test]
fn an_object_with_a_waiter_keeps_its_monitor(rt: HostRuntime) -> Result<(), Fail> {
    let mut lab = Lab::begin(rt.alloc(), false)?;
    lab.resumes(&rt, First);
    lab.resumes(&rt, Second);
    lab.enters(&rt, First, 0, 1, Path::StackFirst);
    let unheard = Progress::Pending(PendingCause::NotNotified { word: 524290 });
    same(&rt, lab.wait(First, 0, 1), Some(Ok(unheard)));
    lab.stops(&rt, First);
    same(&rt, lab.dump(Second), Some(Ok(Progress::Done(1))));
    lab.stops(&rt, Second);
    let closed = closed(&rt, lab);
    same(&rt, mark(&closed, 0), Some(10));
    same(&rt, end(&closed), Some(103));
    Ok(())
}
