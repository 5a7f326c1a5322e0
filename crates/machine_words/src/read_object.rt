//! Objects by their words.

ghost use Rattle.std.specs.Prelude.{◌≡◌, ◌<◌, ◌^◌, ◌++◌, List, length, map, drop, IfErr, OnOk};
ghost use Rattle.plain_monitor.specs.Objects.{PlainObject};
ghost use Rattle.machine_words.specs.Readers.{read_pairs, read_values};
ghost use Rattle.machine_words.specs.ObjectWords.{objects_words, after_one, read_object};
ghost use Rattle.machine_words.specs.inner.Reading.{walk, renewed, object_step, beside};
ghost use Rattle.machine_words.specs.inner.Telling.{IsLost, HasWord, TellsPairs, TellsValues, TellsObject, AreTold};

use crate::place_object::place_object;
use crate::reader::{option_of, take_number, take_word, value_of};
use crate::unread::Unread;
use plain_machine::{Object, Thread};

/// So many threads that wait, each with its count.
fn read_waiting(
    words: &[u64],
    at: &mut usize,
    count: u64,
    object: &mut Object,
) -> Result<(), Unread>
    ensures lost { IfErr result (IsLost (TellsPairs count (drop at.old words.now))) }
    ensures object { OnOk result (object.new ≡ record object.old {
      monitor = record object.old.monitor {
        waits = object.old.monitor.waits ++ (read_pairs count (drop at.old words.now)).0;
      };
    }) }
    ensures rest { OnOk result (drop at.new words.now ≡ (read_pairs count (drop at.old words.now)).1) }
{
    for _ in 0..count {
        let thread = take_number(words, at)?;
        let holds = take_number(words, at)?;
        object.add_waiting(thread, holds)?;
    }
    Ok(())
}

/// So many threads that were notified, each with its count.
fn read_called(words: &[u64], at: &mut usize, count: u64, object: &mut Object) -> Result<(), Unread>
    ensures lost { IfErr result (IsLost (TellsPairs count (drop at.old words.now))) }
    ensures object { OnOk result (object.new ≡ record object.old {
      monitor = record object.old.monitor {
        called = object.old.monitor.called ++ (read_pairs count (drop at.old words.now)).0;
      };
    }) }
    ensures rest { OnOk result (drop at.new words.now ≡ (read_pairs count (drop at.old words.now)).1) }
{
    for _ in 0..count {
        let thread = take_number(words, at)?;
        let holds = take_number(words, at)?;
        object.add_called(thread, holds)?;
    }
    Ok(())
}

/// So many slots.
fn read_slots(
    words: &[u64],
    at: &mut usize,
    slots: usize,
    object: &mut Object,
) -> Result<(), Unread>
    ensures lost { IfErr result (IsLost (TellsValues slots (drop at.old words.now))) }
    ensures object { OnOk result (object.new ≡ record object.old {
      slots = object.old.slots ++ (read_values slots (drop at.old words.now)).0;
    }) }
    ensures rest { OnOk result (drop at.new words.now ≡ (read_values slots (drop at.old words.now)).1) }
{
    for _ in 0..slots {
        let word = take_word(words, at)?;
        let value = value_of(word)?;
        object.add_slot(value)?;
    }
    Ok(())
}

/// An object of so many slots.
fn read_object(
    words: &[u64],
    at: &mut usize,
    slots: usize,
    object: &mut Object,
) -> Result<(), Unread>
    ensures lost { IfErr result (IsLost (TellsObject slots (drop at.old words.now))) }
    ensures object { OnOk result (object.new ≡ (read_object slots (drop at.old words.now)).0) }
    ensures rest { OnOk result (drop at.new words.now ≡ (read_object slots (drop at.old words.now)).1) }
{
    let owner_word = take_word(words, at)?;
    let count = take_number(words, at)?;
    let hash_word = take_word(words, at)?;
    let waiting = take_word(words, at)?;
    let called = take_word(words, at)?;
    let owner = option_of(owner_word)?;
    let hash = option_of(hash_word)?;
    object.clear();
    object.give(owner, count);
    object.set_hash(hash);
    read_waiting(words, at, waiting, object)?;
    read_called(words, at, called, object)?;
    read_slots(words, at, slots, object)?;
    Ok(())
}

/// The object whose number the words go on with, with as many slots as it has.
fn read_at(words: &[u64], at: &mut usize, object: &mut Object) -> Result<(), Unread>
    ensures lost { IfErr result (IsLost (HasWord (drop at.old words.now)
        × TellsObject (length object.old.slots) (after_one (drop at.old words.now)))) }
    ensures object { OnOk result (object.new ≡ (read_object (length object.old.slots) (after_one (drop at.old words.now))).0) }
    ensures rest { OnOk result (drop at.new words.now ≡ (read_object (length object.old.slots) (after_one (drop at.old words.now))).1) }
{
    let slots = object.slots().len();
    take_word(words, at)?;
    read_object(words, at, slots, object)?;
    Ok(())
}

/// All objects, which are as at first, each with as many slots as it has, and the threads' holds of them. Where the words of an object don't
/// stand after those of the ones before it, `NoMachine`.
pub(crate) fn read_objects(
    words: &[u64],
    at: &mut usize,
    objects: &mut [Object],
    threads: &mut [Thread],
) -> Result<(), Unread>
    requires new { objects.old ≡ map renewed objects.old }
    requires few { length objects.old < 2 ^ 32 }
    requires threads { length threads.old < 2 ^ 32 }
    requires beside { threads.old ≡ beside objects.old 0 threads.old }
    ensures lost { IfErr result (IsLost ((xs : List PlainObject) × AreTold (length threads.old) objects.old xs
        × (drop at.old words.now ≡ objects_words 0 xs))) }
    ensures objects { OnOk result (objects.new ≡ (walk object_step 0 objects.old (drop at.old words.now)).0) }
    ensures threads { OnOk result (threads.new ≡ beside objects.new 0 threads.old) }
{
    let mut number = 0;
    while *at < words.len() {
        let next = words[*at];
        if next < number as u64 || next >= objects.len() as u64 {
            return Err(Unread::NoMachine);
        }
        number = next as usize;
        read_at(words, at, &mut objects[number])?;
        place_object(number as u32, &objects[number], threads)?;
        number += 1;
    }
    Ok(())
}
