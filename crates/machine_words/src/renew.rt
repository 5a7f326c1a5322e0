//! A machine whose objects are all as at first, into which others are read.

ghost use Rattle.std.specs.Prelude.{◌≡◌, ◌<◌, ◌≤◌, ◌^◌, length, map, slice_set, slice_index_or, sum, IfErr, OnOk};
ghost use Rattle.std.specs.List.{AllByRecursion};
ghost use Rattle.plain_monitor.specs.Limits.{most_holds};
ghost use Rattle.plain_monitor.specs.Objects.{new_object};
ghost use Rattle.object_program.specs.Program.{numbering_of};
ghost use Rattle.machine_laws.specs.Reached.{IsReached};
ghost use Rattle.machine_words.specs.Untouched.{IsUntouched};
ghost use Rattle.machine_words.specs.inner.Reading.{renewed, beside};
ghost use Rattle.machine_words.specs.declared.unread.Unread.TheVariants.{NoMemory as OutOfMemory};

use crate::numbers::after_row;
use crate::object_words::is_new;
use crate::place_object::place_object;
use crate::unread::Unread;
use object_program::Program;
use plain_machine::{Object, Register, Thread};
use plain_monitor::{NoMemory, Value};

/// The object as at first, with as many slots as it has.
fn renew(object: &mut Object) -> Result<(), NoMemory>
    ensures { OnOk result (object.new ≡ renewed object.old) }
{
    let slots = object.slots().len();
    object.clear();
    for _ in 0..slots {
        object.add_slot(Value::Int(0))?;
    }
    Ok(())
}

/// Makes the object with this number as at first, so that no thread holds it.
fn renew_at(number: usize, objects: &mut [Object], threads: &mut [Thread]) -> Result<(), Unread>
    requires within { number < length objects.old }
    requires small { length objects.old < 2 ^ 32 }
    requires few { length threads.old < 2 ^ 32 }
    requires beside { threads.old ≡ beside objects.old 0 threads.old }
    requires holds { AllByRecursion (λ s. sum s.holds ≤ most_holds) threads.old }
    ensures memory { IfErr result (λ e. e ≡ OutOfMemory) }
    ensures objects { OnOk result (objects.new
        ≡ slice_set objects.old number (renewed (slice_index_or objects.old number (new_object 0)))) }
    ensures threads { OnOk result (threads.new ≡ beside objects.new 0 threads.old) }
{
    if is_new(&objects[number]) {
        return Ok(());
    }
    renew(&mut objects[number])?;
    place_object(number as u32, &objects[number], threads)?;
    Ok(())
}

/// Makes each object of a reached machine as at first, so that no thread holds any. Those that aren't there are so already.
pub(crate) fn renew_all(
    program: &Program,
    register: &Register,
    objects: &mut [Object],
    threads: &mut [Thread],
) -> Result<(), Unread>
    requires reached { IsReached (record {
      program = program.now;
      objects = objects.old;
      made = register.now.made;
      threads = threads.old;
    }) }
    requires untouched { IsUntouched (record {
      program = program.now;
      objects = objects.old;
      made = register.now.made;
      threads = threads.old;
    }) }
    requires numbering { register.now.numbering ≡ numbering_of program.now }
    ensures memory { IfErr result (λ e. e ≡ OutOfMemory) }
    ensures objects { OnOk result (objects.new ≡ map renewed objects.old) }
    ensures threads { OnOk result (threads.new ≡ beside objects.new 0 threads.old) }
{
    let first = program.declared_total() as usize;
    let mut number = 0;
    while number < objects.len() {
        if register.class_of(number as u32).is_some() {
            renew_at(number, objects, threads)?;
            number += 1;
        } else {
            number = after_row(first, number);
        }
    }
    Ok(())
}
