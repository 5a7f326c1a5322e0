//! Heaps with biases.
ghost use Rattle.std.specs.Prelude.{◌<◌};

use crate::calls::{DONE, LEFT, pending};
use crate::compare::{holds, same};
use crate::lab::Thread::{First, Second};
use crate::lab::{Lab, Thread};
use crate::last::{closed, count, displaced, mark, monitor, prototype};
use core_world::{PendingCause, Progress};
use plain_monitor::Path;
use std::process::Abort;
use std::test::Fail;

// The first thread has entered the first object three times, and both run.
fn bias(rt: &impl Abort, lab: &mut Lab) {
    lab.resumes(rt, First);
    lab.resumes(rt, Second);
    lab.enters(rt, First, 0, 1, Path::BiasTaken);
    lab.enters(rt, First, 0, 1, Path::BiasOwn);
    lab.enters(rt, First, 0, 1, Path::BiasOwn);
}

// The first stops, and the second revokes the bias and stops.
fn revoke(rt: &impl Abort, lab: &mut Lab) {
    bias(rt, lab);
    lab.stops(rt, First);
    let owned = PendingCause::Owned { word: 4096 };
    lab.is_kept_out(rt, Second, 0, 1, owned);
    lab.stops(rt, Second);
}

#[test]
fn a_revoked_bias_stands_in_records(rt: HostRuntime) -> Result<(), Fail> {
    let mut lab = Lab::begin(rt.alloc(), true)?;
    revoke(&rt, &mut lab);
    let closed = closed(&rt, lab);
    same(&rt, mark(&closed, 0), Some(10));
    same(&rt, monitor(&closed, 0), Some([1, 4096, 0, 0]));
    same(&rt, displaced(&closed, 0, 0), Some(1));
    same(&rt, displaced(&closed, 0, 1), Some(0));
    same(&rt, displaced(&closed, 0, 2), Some(0));
    same(&rt, count(&closed, 0), Some(1));
    Ok(())
}

// The first thread has 63 holds of object 0, and then one of object 1 at the last place, 63. Its record has the word 4096 + 63 * 8.
fn revoke_the_last_place(rt: &impl Abort, lab: &mut Lab) {
    lab.resumes(rt, First);
    lab.resumes(rt, Second);
    holds(rt, lab.enter_times(First, 0, 63));
    lab.enters(rt, First, 1, 1, Path::BiasTaken);
    lab.stops(rt, First);
    let owned = PendingCause::Owned { word: 4600 };
    lab.is_kept_out(rt, Second, 1, 1, owned);
    lab.stops(rt, Second);
}

#[test]
fn a_revocation_visits_the_last_place(rt: HostRuntime) -> Result<(), Fail> {
    let mut lab = Lab::begin(rt.alloc(), true)?;
    revoke_the_last_place(&rt, &mut lab);
    let closed = closed(&rt, lab);
    same(&rt, mark(&closed, 1), Some(10));
    same(&rt, monitor(&closed, 0), Some([1, 4600, 0, 1]));
    Ok(())
}

#[test]
fn a_revoked_lock_goes_to_the_next_by_the_monitor(rt: HostRuntime) -> Result<(), Fail> {
    for kept in [true, false] {
        let mut lab = Lab::begin_with(rt.alloc(), true, kept)?;
        revoke(&rt, &mut lab);
        lab.resumes(&rt, First);
        lab.leaves(&rt, First, 0);
        lab.leaves(&rt, First, 0);
        lab.leaves(&rt, First, 0);
        lab.stops(&rt, First);
        lab.resumes(&rt, Second);
        lab.enters(&rt, Second, 0, 1, Path::MonitorFirst);
        lab.has_logged(&rt, Second, &[7]);
    }
    Ok(())
}

#[test]
fn a_revocation_waits_until_the_others_stop(rt: HostRuntime) -> Result<(), Fail> {
    let mut lab = Lab::begin(rt.alloc(), true)?;
    bias(&rt, &mut lab);
    let word = 8589934593;
    let stopping = PendingCause::Stopping { word };
    let owned = PendingCause::Owned { word: 4096 };
    lab.is_kept_out(&rt, Second, 0, 1, stopping);
    same(
        &rt,
        lab.poll(First),
        pending(PendingCause::Requested { word }),
    );
    lab.stops(&rt, First);
    lab.is_kept_out(&rt, Second, 0, 1, owned);
    Ok(())
}

// Whether the stopped thread resumed, entered and left these objects at this moment, and stopped.
fn visit(lab: &mut Lab, thread: Thread, from: u32, to: u32, now: u64) -> bool {
    if lab.resume(thread) != DONE {
        return false;
    }
    for object in from..to {
        let Some(Ok(Progress::Done(_))) = lab.enter(thread, object, now) else {
            return false;
        };
        if lab.exit(thread, object) != LEFT {
            return false;
        }
    }
    lab.stop(thread)
}

// Whether both threads visited the twenty objects of this round, from 0, the first thread first.
fn round(lab: &mut Lab, round: u32) -> bool
    requires rounds { round < 5 }
{
    let now = 1 + 25000 * round as u64;
    let from = 20 * round;
    visit(lab, First, from, from + 20, now) && visit(lab, Second, from, from + 20, now)
}

// Whether the first thread visited the last object, after the first round.
fn first_round(lab: &mut Lab) -> bool {
    round(lab, 0) && visit(lab, First, 100, 101, 1)
}

fn five_rounds(lab: &mut Lab) -> bool {
    if !first_round(lab) {
        return false;
    }
    if !round(lab, 1) {
        return false;
    }
    if !round(lab, 2) {
        return false;
    }
    if !round(lab, 3) {
        return false;
    }
    round(lab, 4)
}

#[test]
fn a_bias_has_the_epoch_of_its_class(rt: HostRuntime) -> Result<(), Fail> {
    let mut lab = Lab::begin(rt.alloc(), true)?;
    holds(&rt, first_round(&mut lab));
    let closed = closed(&rt, lab);
    same(&rt, mark(&closed, 100), Some(1285));
    Ok(())
}

#[test]
fn the_epochs_of_a_class_begin_again(rt: HostRuntime) -> Result<(), Fail> {
    let mut lab = Lab::begin(rt.alloc(), true)?;
    holds(&rt, five_rounds(&mut lab));
    let closed = closed(&rt, lab);
    same(&rt, prototype(&closed, 0), Some(261));
    same(&rt, count(&closed, 0), Some(20));
    Ok(())
}

#[test]
fn a_bias_of_an_epoch_that_came_again_is_valid(rt: HostRuntime) -> Result<(), Fail> {
    let mut lab = Lab::begin(rt.alloc(), true)?;
    holds(&rt, five_rounds(&mut lab));
    let now = 100001;
    lab.resumes(&rt, First);
    lab.enters(&rt, First, 100, now, Path::BiasOwn);
    lab.leaves(&rt, First, 100);
    lab.stops(&rt, First);
    lab.resumes(&rt, Second);
    lab.enters(&rt, Second, 100, now, Path::StackFirst);
    lab.stops(&rt, Second);
    let Some(counts) = lab.pass(Second).counts().first() else {
        panic!(rt; "there is a class")
    };
    same(&rt, counts.single, 96);
    same(&rt, counts.rebias, 5);
    same(&rt, counts.revoke, 0);
    let closed = closed(&rt, lab);
    same(&rt, count(&closed, 0), Some(21));
    Ok(())
}
