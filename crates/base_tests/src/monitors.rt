//! Worked examples of the monitor and of the words of values, and the calls of `List`.
//!
//! A test makes a monitor, and all that is done with it stands in functions that borrow it: where a function has the monitor itself,
//! its proof lists the words of it at each step and at each exit.

ghost use Rattle.std.specs.Prelude.{◌≡◌, ◌≤◌};
ghost use Rattle.plain_monitor.specs.Monitor.{free_monitor};

use crate::compare::same;
use plain_monitor::{BadWord, List, Monitor, Refused, Value, value_word, word_value};
use std::process::Abort;
use std::test::Fail;

/// Thread 0 enters and waits, and then thread 1 enters.
fn one_waits(rt: &impl Abort, monitor: &mut Monitor) -> Result<(), Refused>
    requires free { monitor.old.plain ≡ free_monitor }
    requires spare { 1 ≤ monitor.old.spare }
{
    monitor.enter(0)?;
    monitor.wait(0)?;
    same(rt, monitor.count(), 0);
    monitor.enter(1)
}

/// Thread 1 notifies thread 0, which may resume once thread 1 has left.
fn one_resumes(rt: &impl Abort, monitor: &mut Monitor) -> Result<(), Refused> {
    same(rt, (monitor.waits(0), monitor.called(0)), (true, false));
    same(rt, monitor.oldest(), Some(0));
    same(rt, monitor.waiting(), 1);
    same(rt, monitor.notify(1)?, Some(0));
    same(rt, (monitor.waits(0), monitor.called(0)), (false, true));
    same(rt, monitor.resume(0), Err(Refused));
    monitor.exit(1)?;
    monitor.resume(0)
}

/// Thread 0 has the monitor, and nobody waits.
fn one_has_it(rt: &impl Abort, monitor: &mut Monitor) -> Result<(), Refused> {
    same(rt, monitor.owner(), Some(0));
    same(rt, monitor.count(), 1);
    same(rt, monitor.notify_all(0)?, 0);
    Ok(())
}

/// All that one thread that waits and one that notifies do with a monitor.
fn one_waits_and_resumes(rt: &impl Abort, monitor: &mut Monitor) -> Result<(), Refused>
    requires free { monitor.old.plain ≡ free_monitor }
    requires spare { 1 ≤ monitor.old.spare }
{
    one_waits(rt, monitor)?;
    one_resumes(rt, monitor)?;
    one_has_it(rt, monitor)
}

/// Thread 0, which has entered twice, and thread 1 wait, and then thread 2 enters.
fn two_wait(monitor: &mut Monitor) -> Result<(), Refused>
    requires free { monitor.old.plain ≡ free_monitor }
    requires spare { 2 ≤ monitor.old.spare }
{
    monitor.enter(0)?;
    monitor.enter(0)?;
    monitor.wait(0)?;
    monitor.enter(1)?;
    monitor.wait(1)?;
    monitor.enter(2)
}

/// Thread 2 notifies both and leaves, and thread 0 resumes.
fn one_of_two_resumes(rt: &impl Abort, monitor: &mut Monitor) -> Result<(), Refused> {
    same(rt, monitor.waiting(), 2);
    same(rt, monitor.notify_all(2)?, 2);
    same(rt, (monitor.called(0), monitor.called(1)), (true, true));
    monitor.exit(2)?;
    monitor.resume(0)?;
    same(rt, monitor.count(), 2);
    same(rt, monitor.enter(1), Err(Refused));
    Ok(())
}

#[test]
fn a_notified_thread_resumes_once_the_monitor_is_free(rt: HostRuntime) -> Result<(), Fail> {
    let mut monitor = Monitor::new(rt.alloc());
    monitor.reserve(1)?;
    one_waits_and_resumes(&rt, &mut monitor)?;
    Ok(())
}

#[test]
fn each_notified_thread_resumes_with_its_own_count(rt: HostRuntime) -> Result<(), Fail> {
    let mut monitor = Monitor::new(rt.alloc());
    monitor.reserve(2)?;
    two_wait(&mut monitor)?;
    one_of_two_resumes(&rt, &mut monitor)?;
    Ok(())
}

#[test]
fn a_list_gives_its_items_back(rt: HostRuntime) -> Result<(), Fail> {
    let list = List::of(vec![in rt.alloc(); 7, 8, 9]?);
    same(&rt, list.items(), [7, 8, 9].as_slice());
    same(&rt, list.into_vec().as_slice(), [7, 8, 9].as_slice());
    Ok(())
}

#[test]
fn values_are_read_and_written_as_words(rt: HostRuntime) {
    let greatest = (1_i64 << 61) - 1;
    same(&rt, value_word(&Value::Nil), 0);
    same(&rt, value_word(&Value::Int(0)), 9_223_372_036_854_775_809);
    same(&rt, value_word(&Value::Int(-1 - greatest)), 1);
    same(
        &rt,
        value_word(&Value::Int(greatest)),
        18_446_744_073_709_551_613,
    );
    same(&rt, value_word(&Value::Ref(3)), 14);
    same(&rt, word_value(0), Ok(Value::Nil));
    same(&rt, word_value(1), Ok(Value::Int(-1 - greatest)));
    same(
        &rt,
        word_value(18_446_744_073_709_551_613),
        Ok(Value::Int(greatest)),
    );
    same(&rt, word_value(131_070), Ok(Value::Ref(32_767)));
    same(&rt, word_value(131_074), Err(BadWord));
    same(&rt, word_value(3), Err(BadWord));
    same(&rt, word_value(4), Err(BadWord));
}
