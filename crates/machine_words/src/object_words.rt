//! The words of objects.

ghost use Rattle.std.specs.Prelude.{◌≡◌, ◌++◌, ◌∷◌, [], if◌then◌else◌, pos, OnOk};
ghost use Rattle.std.specs.List.{AllByRecursion, list_all};
ghost use Rattle.plain_monitor.specs.Objects.{same_value};
ghost use Rattle.plain_monitor.specs.ValueWords.{IsSpellable};
ghost use Rattle.plain_monitor.specs.declared.entry.Value.TheVariants.{Int};
ghost use Rattle.machine_laws.specs.Reached.{IsReached};
ghost use Rattle.machine_words.specs.ObjectWords.{is_new, object_words, objects_words};
ghost use Rattle.machine_words.specs.Untouched.{IsUntouched};

use crate::numbers::after_row;
use crate::writer::{add, add_pairs, add_values, option_word};
use plain_machine::{Machine, Object};
use plain_monitor::{NoMemory, Value};

/// Whether each value is the number 0.
fn are_zeros(values: &[Value]) -> bool
    ensures { result ≡ list_all (same_value (Int (pos 0))) values.now }
{
    for value in values {
        if !is_zero(value) {
            return false;
        }
    }
    true
}

fn is_zero(value: &Value) -> bool
    ensures { result ≡ same_value (Int (pos 0)) value.now }
{
    match value {
        Value::Int(number) => *number == 0,
        _ => false,
    }
}

/// Whether the object is as at first.
pub(crate) fn is_new(object: &Object) -> bool
    ensures { result ≡ is_new object.now }
{
    let monitor = object.monitor();
    monitor.owner().is_none()
        && monitor.count() == 0
        && monitor.all_waiting().is_empty()
        && monitor.all_called().is_empty()
        && object.hash().is_none()
        && are_zeros(object.slots())
}

/// The words of an object.
fn add_object(out: &mut Vec<u64>, object: &Object) -> Result<(), NoMemory>
    requires { AllByRecursion IsSpellable object.now.slots }
    ensures { OnOk result (out.new.items ≡ out.old.items ++ object_words object.now) }
{
    let monitor = object.monitor();
    let waiting = monitor.all_waiting();
    let called = monitor.all_called();
    add(out, option_word(monitor.owner()))?;
    add(out, u64::from(monitor.count()))?;
    add(out, option_word(object.hash()))?;
    add(out, waiting.len() as u64)?;
    add(out, called.len() as u64)?;
    add_pairs(out, waiting)?;
    add_pairs(out, called)?;
    add_values(out, object.slots())?;
    Ok(())
}

/// The words of the object with this number, after it, where it isn't as at first.
fn add_changed(out: &mut Vec<u64>, number: u64, object: &Object) -> Result<(), NoMemory>
    requires { AllByRecursion IsSpellable object.now.slots }
    ensures { OnOk result (out.new.items ≡ out.old.items ++ (if is_new object.now then [] else number ∷ object_words object.now)) }
{
    if is_new(object) {
        return Ok(());
    }
    add(out, number)?;
    add_object(out, object)?;
    Ok(())
}

/// The words of the machine's objects, by their numbers: of those that are there, as each other is as at first.
pub(crate) fn add_objects(out: &mut Vec<u64>, machine: &Machine) -> Result<(), NoMemory>
    requires reached { IsReached machine.now }
    requires untouched { IsUntouched machine.now }
    ensures { OnOk result (out.new.items ≡ out.old.items ++ objects_words 0 machine.now.objects) }
{
    let objects = machine.objects();
    let first = machine.program().declared_total() as usize;
    let mut number = 0;
    while number < objects.len() {
        if machine.class_of(number as u32).is_some() {
            add_changed(out, number as u64, &objects[number])?;
            number += 1;
        } else {
            number = after_row(first, number);
        }
    }
    Ok(())
}
