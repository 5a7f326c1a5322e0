//! Objects that threads make.
use crate::compare::{holds, same};
use crate::lab::Thread::{First, Second};
use crate::lab::{Lab, Thread};
use crate::last::{class, closed, displaced, mark, monitor};
use core_world::{PendingCause, Progress, TooMany, Unguarded};
use plain_monitor::{Entry, Logged, Path, Value};
use std::process::Abort;
use std::test::Fail;

// What the log's last entry is.
fn last(log: &[Logged]) -> Option<Entry> {
    match log.last() {
        Some(logged) => Some(logged.entry),
        None => None,
    }
}

fn new(object: u32) -> Option<Entry> {
    Some(Entry::New { object, class: 0 })
}

// What a call to make an object answers that made this one.
fn made(object: u32) -> Option<Result<u32, TooMany>> {
    Some(Ok(object))
}

#[test]
fn each_thread_makes_its_objects_in_turn(rt: HostRuntime) -> Result<(), Fail> {
    let mut lab = Lab::begin_to_make(rt.alloc(), true)?;
    lab.resumes(&rt, First);
    lab.resumes(&rt, Second);
    same(&rt, lab.create(First, 0), made(1));
    same(&rt, last(lab.pass(First).log()), new(1));
    same(&rt, lab.create(Second, 0), made(1025));
    same(&rt, last(lab.pass(Second).log()), new(1025));
    same(&rt, lab.create(First, 0), made(2));
    same(&rt, last(lab.pass(First).log()), new(2));
    same(&rt, lab.create(First, 1), None);
    lab.stops(&rt, First);
    same(&rt, lab.create(First, 0), None);
    Ok(())
}

#[test]
fn no_object_is_made_on_a_heap_without_their_numbers(rt: HostRuntime) -> Result<(), Fail> {
    let mut lab = Lab::begin(rt.alloc(), true)?;
    lab.resumes(&rt, First);
    same(&rt, lab.create(First, 0), None);
    Ok(())
}

// The first thread makes two objects, enters and leaves the first one, by this path, and both are stopped.
fn visit_the_first(rt: &impl Abort, lab: &mut Lab, path: Path) {
    lab.resumes(rt, First);
    same(rt, lab.create(First, 0), made(1));
    same(rt, lab.create(First, 0), made(2));
    lab.enters(rt, First, 1, 1, path);
    lab.leaves(rt, First, 1);
    lab.stops(rt, First);
}

#[test]
fn a_made_object_is_entered_by_a_record(rt: HostRuntime) -> Result<(), Fail> {
    let mut lab = Lab::begin_to_make(rt.alloc(), false)?;
    visit_the_first(&rt, &mut lab, Path::StackFirst);
    let closed = closed(&rt, lab);
    same(&rt, class(&closed, 1), Some(1));
    same(&rt, mark(&closed, 1), Some(1));
    same(&rt, mark(&closed, 2), Some(1));
    Ok(())
}

#[test]
fn a_made_object_takes_a_bias(rt: HostRuntime) -> Result<(), Fail> {
    let mut lab = Lab::begin_to_make(rt.alloc(), true)?;
    visit_the_first(&rt, &mut lab, Path::BiasTaken);
    let closed = closed(&rt, lab);
    same(&rt, class(&closed, 1), Some(1));
    same(&rt, mark(&closed, 1), Some(1029));
    same(&rt, mark(&closed, 2), Some(5));
    same(&rt, class(&closed, 3), Some(0));
    same(&rt, mark(&closed, 3), Some(1));
    Ok(())
}

// The first thread makes an object, puts it into the slot of the declared one, which it enters by this path, and stops.
fn hand_over(rt: &impl Abort, lab: &mut Lab, path: Path) {
    lab.resumes(rt, First);
    same(rt, lab.create(First, 0), made(1));
    lab.enters(rt, First, 0, 1, path);
    same(rt, lab.put(First, 0, 0, Value::Ref(1)), Some(Ok(())));
    lab.leaves(rt, First, 0);
    lab.stops(rt, First);
}

// The second gets it there. Before that it has no reference to it.
fn take_over(rt: &impl Abort, lab: &mut Lab) {
    lab.resumes(rt, Second);
    same(rt, lab.enter(Second, 1, 1), None);
    lab.enters(rt, Second, 0, 1, Path::StackFirst);
    same(rt, lab.get(Second, 0, 0), Some(Ok(Value::Ref(1))));
    lab.leaves(rt, Second, 0);
}

// It enters it by this path, and draws its hash.
fn hash_inside(rt: &impl Abort, lab: &mut Lab, path: Path) {
    same(rt, lab.get(Second, 1, 0), Some(Err(Unguarded)));
    lab.enters(rt, Second, 1, 1, path);
    same(rt, lab.get(Second, 1, 0), Some(Ok(Value::Int(0))));
    same(rt, lab.hash(Second, 1, 1), Some(Progress::Done(273331126)));
    lab.leaves(rt, Second, 1);
}

// The first thread has the made object by its bias, and stops; the second is kept out of it.
fn revoke_a_made_object(rt: &impl Abort, lab: &mut Lab) {
    hand_over(rt, lab, Path::BiasTaken);
    lab.resumes(rt, First);
    lab.enters(rt, First, 1, 1, Path::BiasTaken);
    lab.stops(rt, First);
    take_over(rt, lab);
    let owned = PendingCause::Owned { word: 4096 };
    lab.is_kept_out(rt, Second, 1, 1, owned);
    lab.stops(rt, Second);
}

#[test]
fn a_held_made_object_stands_in_a_record_after_its_bias(rt: HostRuntime) -> Result<(), Fail> {
    let mut lab = Lab::begin_to_make(rt.alloc(), true)?;
    revoke_a_made_object(&rt, &mut lab);
    let closed = closed(&rt, lab);
    same(&rt, mark(&closed, 1), Some(10));
    same(&rt, monitor(&closed, 0), Some([1, 4096, 0, 1]));
    same(&rt, displaced(&closed, 0, 0), Some(1));
    Ok(())
}

#[test]
fn a_made_object_is_handed_over(rt: HostRuntime) -> Result<(), Fail> {
    for biasing in [false, true] {
        let first = if biasing {
            Path::BiasTaken
        } else {
            Path::StackFirst
        };
        let mut lab = Lab::begin_to_make(rt.alloc(), biasing)?;
        hand_over(&rt, &mut lab, first);
        take_over(&rt, &mut lab);
        hash_inside(&rt, &mut lab, first);
        lab.resumes(&rt, First);
        same(&rt, lab.hash(First, 1, 1), Some(Progress::Done(273331126)));
    }
    Ok(())
}

// Whether the thread made as many objects as a thread may.
fn make_all(lab: &mut Lab, thread: Thread) -> bool {
    for _ in 0..1024 {
        let Some(Ok(_)) = lab.create(thread, 0) else {
            return false;
        };
    }
    true
}

#[test]
fn no_thread_makes_1025_objects(rt: HostRuntime) -> Result<(), Fail> {
    let mut lab = Lab::begin_to_make(rt.alloc(), true)?;
    lab.resumes(&rt, First);
    lab.resumes(&rt, Second);
    holds(&rt, make_all(&mut lab, First));
    same(&rt, last(lab.pass(First).log()), new(1024));
    same(&rt, lab.create(First, 0), Some(Err(TooMany)));
    same(&rt, lab.pass(First).log().len(), 1024);
    same(&rt, lab.create(Second, 0), made(1025));
    Ok(())
}
