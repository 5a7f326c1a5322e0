//! Threads by their words, not yet beside their objects.

ghost use Rattle.std.specs.Prelude.{◌≡◌, ◌+◌, ◌<◌, ◌≤◌, ◌++◌, length, drop, slice_set, IfErr, OnOk};
ghost use Rattle.plain_monitor.specs.Limits.{most_made};
ghost use Rattle.plain_monitor.specs.Made.{made_by};
ghost use Rattle.plain_machine.specs.declared.monitor_call.MonitorCall.TheVariants.{Dump};
ghost use Rattle.plain_machine.specs.declared.monitor_call.Mode.TheVariants.{Calling};
ghost use Rattle.machine_words.specs.Readers.{read_values, read_numbers};
ghost use Rattle.machine_words.specs.MadeWords.{read_row, read_made};
ghost use Rattle.machine_words.specs.ModeWords.{fault_with, ending_with, mode_with};
ghost use Rattle.machine_words.specs.ThreadWords.{read_thread};
ghost use Rattle.machine_words.specs.inner.Reading.{walk, unplaced, thread_step};
ghost use Rattle.machine_words.specs.inner.Telling.{IsLost, TellsNumbers, TellsValues, TellsThread, TellsThreads, TellsRow, TellsRows};

use crate::reader::{number_of, take_number, take_word, value_of};
use crate::unread::Unread;
use plain_machine::{Mode, MonitorCall, Register, Thread};
use plain_monitor::{Ending, Fault};

fn fault_with(number: u64) -> Fault
    ensures { result ≡ fault_with number }
{
    match number {
        0 => Fault::IllegalMonitorState,
        1 => Fault::Unguarded,
        2 => Fault::NotRef,
        3 => Fault::NotInt,
        4 => Fault::Range,
        5 => Fault::Overflow,
        6 => Fault::TooDeep,
        7 => Fault::TooManyDumps,
        _ => Fault::TooMany,
    }
}

fn ending_with(kind: u64, rest: u32) -> Ending
    ensures { result ≡ ending_with kind rest }
{
    if kind == 0 {
        Ending::Done
    } else if kind == 1 {
        Ending::Spent
    } else {
        Ending::Trap {
            fault: fault_with(kind - 2),
            index: rest,
        }
    }
}

/// The mode of this kind. Of a thread that stands before a call it isn't told which one.
fn mode_with(kind: u64, rest: u32) -> Mode
    ensures { result ≡ mode_with (Calling (Dump 0)) kind rest }
{
    if kind == 0 {
        Mode::Calling {
            call: MonitorCall::Dump { number: 0 },
        }
    } else if kind == 1 {
        Mode::Waiting { object: rest }
    } else if kind < 13 {
        Mode::Unwinding {
            ending: ending_with(kind - 2, rest),
        }
    } else {
        Mode::Ended {
            ending: ending_with(kind - 13, rest),
        }
    }
}

/// So many locals.
fn read_locals(words: &[u64], at: &mut usize, count: u64, thread: &mut Thread) -> Result<(), Unread>
    ensures lost { IfErr result (IsLost (TellsValues count (drop at.old words.now))) }
    ensures thread { OnOk result (thread.new ≡ record thread.old {
      locals = thread.old.locals ++ (read_values count (drop at.old words.now)).0;
    }) }
    ensures rest { OnOk result (drop at.new words.now ≡ (read_values count (drop at.old words.now)).1) }
{
    for _ in 0..count {
        let word = take_word(words, at)?;
        let value = value_of(word)?;
        thread.add_local(value)?;
    }
    Ok(())
}

/// A thread that has this much fuel. Its holds stay.
fn read_thread(words: &[u64], at: &mut usize, fuel: u32, thread: &mut Thread) -> Result<(), Unread>
    ensures lost { IfErr result (IsLost (TellsThread (drop at.old words.now))) }
    ensures thread { OnOk result (thread.new ≡ unplaced fuel thread.old.holds (read_thread (drop at.old words.now)).0) }
    ensures rest { OnOk result (drop at.new words.now ≡ (read_thread (drop at.old words.now)).1) }
{
    let head = take_word(words, at)?;
    let rest = take_number(words, at)?;
    let made = take_number(words, at)?;
    let locals = take_word(words, at)?;
    let place = number_of(head / 256)?;
    let dumps = (head / 32 % 8) as u32;
    let mode = mode_with(head % 32, rest);
    thread.restart(place, dumps, made);
    thread.stand(fuel, mode);
    read_locals(words, at, locals, thread)?;
    Ok(())
}

/// All threads, each with this much fuel. Their holds stay.
pub(crate) fn read_threads(
    words: &[u64],
    at: &mut usize,
    fuel: u32,
    threads: &mut [Thread],
) -> Result<(), Unread>
    ensures lost { IfErr result (IsLost (TellsThreads (length threads.old) (drop at.old words.now))) }
    ensures threads { OnOk result (threads.new ≡ (walk (thread_step fuel) 0 threads.old (drop at.old words.now)).0) }
    ensures rest { OnOk result (drop at.new words.now ≡ (walk (thread_step fuel) 0 threads.old (drop at.old words.now)).1) }
{
    for thread in threads.iter_mut() {
        read_thread(words, at, fuel, thread)?;
    }
    Ok(())
}

/// The classes of so many objects that thread t has made, after those that it has. Where there are more than a thread may make, `NoMachine`.
fn read_classes(
    words: &[u64],
    at: &mut usize,
    count: u64,
    t: u32,
    register: &mut Register,
) -> Result<(), Unread>
    requires { t < length register.old.made }
    ensures lost { IfErr result (IsLost ((length (made_by register.old.made t) + count ≤ most_made)
        × TellsNumbers count (drop at.old words.now))) }
    ensures made { OnOk result (register.new.made ≡ slice_set register.old.made t
        (made_by register.old.made t ++ (read_numbers count (drop at.old words.now)).0)) }
    ensures numbering { register.new.numbering ≡ register.old.numbering }
    ensures rest { OnOk result (drop at.new words.now ≡ (read_numbers count (drop at.old words.now)).1) }
{
    for _ in 0..count {
        let class = take_number(words, at)?;
        if !register.may_add(t) {
            return Err(Unread::NoMachine);
        }
        register.add(t, class);
    }
    Ok(())
}

/// What thread t has made.
fn read_row(words: &[u64], at: &mut usize, t: u32, register: &mut Register) -> Result<(), Unread>
    requires { t < length register.old.made }
    ensures lost { IfErr result (IsLost (TellsRow (drop at.old words.now))) }
    ensures made { OnOk result (register.new.made ≡ slice_set register.old.made t (read_row (drop at.old words.now)).0) }
    ensures numbering { register.new.numbering ≡ register.old.numbering }
    ensures rest { OnOk result (drop at.new words.now ≡ (read_row (drop at.old words.now)).1) }
{
    let count = take_word(words, at)?;
    register.clear(t);
    read_classes(words, at, count, t, register)?;
    Ok(())
}

/// What each thread has made.
pub(crate) fn read_made(
    words: &[u64],
    at: &mut usize,
    register: &mut Register,
) -> Result<(), Unread>
    ensures lost { IfErr result (IsLost (TellsRows (length register.old.made) (drop at.old words.now))) }
    ensures made { OnOk result (register.new.made ≡ (read_made (length register.old.made) (drop at.old words.now)).0) }
    ensures numbering { register.new.numbering ≡ register.old.numbering }
    ensures rest { OnOk result (drop at.new words.now ≡ (read_made (length register.old.made) (drop at.old words.now)).1) }
{
    for t in 0..register.threads() {
        read_row(words, at, t, register)?;
    }
    Ok(())
}
