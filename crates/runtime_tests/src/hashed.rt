//! Identity hashes of free objects, and of objects that a thread has a bias of.
use crate::compare::same;
use crate::lab::Lab;
use crate::lab::Thread::{First, Second};
use crate::last::{closed, mark, monitor};
use core_world::Progress;
use plain_monitor::{Entry, Logged, Path};
use std::test::Fail;

// What the log's last entry is.
fn last(log: &[Logged]) -> Option<Entry> {
    match log.last() {
        Some(logged) => Some(logged.entry),
        None => None,
    }
}

fn hashed(object: u32, value: u32, drawn: Option<u32>) -> Option<Entry> {
    Some(Entry::Hash {
        object,
        value,
        drawn,
    })
}

#[test]
fn a_hash_is_drawn_once(rt: HostRuntime) -> Result<(), Fail> {
    let mut lab = Lab::begin(rt.alloc(), false)?;
    lab.resumes(&rt, First);
    lab.resumes(&rt, Second);
    same(&rt, lab.hash(Second, 5, 1), Some(Progress::Done(273331126)));
    same(
        &rt,
        last(lab.pass(Second).log()),
        hashed(5, 273331126, Some(1)),
    );
    same(&rt, lab.hash(First, 5, 1), Some(Progress::Done(273331126)));
    same(&rt, last(lab.pass(First).log()), hashed(5, 273331126, None));
    lab.stops(&rt, First);
    lab.stops(&rt, Second);
    let closed = closed(&rt, lab);
    same(&rt, mark(&closed, 5), Some(69972768257));
    Ok(())
}

#[test]
fn a_hash_under_a_bias_is_kept_in_the_monitor(rt: HostRuntime) -> Result<(), Fail> {
    let mut lab = Lab::begin(rt.alloc(), true)?;
    lab.resumes(&rt, First);
    lab.enters(&rt, First, 0, 1, Path::BiasTaken);
    same(&rt, lab.hash(First, 0, 1), Some(Progress::Done(273329069)));
    same(&rt, lab.pass(First).held(0), 1);
    let Some(counts) = lab.pass(First).counts().first() else {
        panic!(rt; "there is a class")
    };
    same(&rt, counts.single, 1);
    lab.stops(&rt, First);
    let closed = closed(&rt, lab);
    same(&rt, mark(&closed, 0), Some(10));
    same(&rt, monitor(&closed, 0), Some([69972241665, 4096, 0, 0]));
    Ok(())
}

#[test]
fn a_hash_in_the_monitor_is_found_again(rt: HostRuntime) -> Result<(), Fail> {
    let mut lab = Lab::begin(rt.alloc(), true)?;
    lab.resumes(&rt, First);
    lab.enters(&rt, First, 0, 1, Path::BiasTaken);
    same(&rt, lab.hash(First, 0, 1), Some(Progress::Done(273329069)));
    same(&rt, lab.hash(First, 0, 1), Some(Progress::Done(273329069)));
    same(&rt, last(lab.pass(First).log()), hashed(0, 273329069, None));
    lab.leaves(&rt, First, 0);
    Ok(())
}
