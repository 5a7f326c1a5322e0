//! How a heap is planned: class by class, and object by object.
ghost use Rattle.std.specs.Prelude.{◌≡◌, None};
ghost use Rattle.lock_runtime_c.specs.Planning as planning;
ghost use Rattle.lock_runtime_c.specs.Rest.{IsInLimits};

use crate::answers::{Answer, answered, done_with};
use crate::inner::Plan;
use crate::outcome::{Misuse, Outcome};
use plain_monitor::limits::{CLASSES, OBJECTS, SLOTS, THREADS};
use std::alloc::Global;

/// The most entries for which a log may be given room.
const ENTRIES: u32 = 400_000;

/// Why there is no plan for so many threads and entries.
pub fn begin_reason(threads: u32, entries: u32) -> Option<Misuse>
    ensures { result ≡ planning.begin_reason threads entries }
{
    if threads == 0 || threads > THREADS {
        return Some(Misuse::NoThread);
    }
    if entries > ENTRIES {
        return Some(Misuse::TooManyEntries);
    }
    None
}

/// The plan of a heap of so many threads, without classes or objects.
pub fn begin(alloc: Global, threads: u32, entries: u32, start: u32, biased: bool) -> Plan
    requires { planning.begin_reason threads entries ≡ None }
    ensures limits { IsInLimits result }
    ensures begun { planning.IsBegun threads entries start biased result }
{
    Plan {
        threads,
        fuel: entries.div_ceil(2),
        start,
        biased,
        slots: Vec::new(alloc),
        classes: Vec::new(alloc),
    }
}

/// One more class, whose objects have so many slots. Its number is answered.
pub fn add_class(plan: &mut Plan, slots: u32) -> Answer
    requires { IsInLimits plan.old }
    ensures limits { IsInLimits plan.new }
    ensures class { planning.GetsClass plan.old plan.new slots result }
{
    let number = plan.slots.len() as u32;
    if number >= CLASSES {
        return answered(Outcome::Misused(Misuse::TooManyClasses));
    }
    if slots > SLOTS {
        return answered(Outcome::Misused(Misuse::TooManySlots));
    }
    match plan.slots.push(slots) {
        Ok(()) => done_with(number as u64),
        Err(_) => answered(Outcome::NoMemory),
    }
}

/// One more object, of this class. Its number is answered.
pub fn add_object(plan: &mut Plan, class: u32) -> Answer
    requires { IsInLimits plan.old }
    ensures limits { IsInLimits plan.new }
    ensures object { planning.GetsObject plan.old plan.new class result }
{
    let number = plan.classes.len() as u32;
    if number >= OBJECTS {
        return answered(Outcome::Misused(Misuse::TooManyObjects));
    }
    if class as usize >= plan.slots.len() {
        return answered(Outcome::Misused(Misuse::NoClass));
    }
    match plan.classes.push(class) {
        Ok(()) => done_with(number as u64),
        Err(_) => answered(Outcome::NoMemory),
    }
}
