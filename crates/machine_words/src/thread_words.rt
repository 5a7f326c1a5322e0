//! The words of threads.

ghost use Rattle.std.specs.Prelude.{◌≡◌, ◌<◌, ◌^◌, ◌++◌, IfOk, OnOk};
ghost use Rattle.std.specs.List.{AllByRecursion};
ghost use Rattle.plain_monitor.specs.ValueWords.{IsSpellable};
ghost use Rattle.plain_machine.specs.Asking.{fault_number};
ghost use Rattle.machine_words.specs.ModeWords.{ending_kind, ending_rest, mode_kind, mode_rest};
ghost use Rattle.machine_words.specs.Numbers.{HasSmall};
ghost use Rattle.machine_words.specs.ThreadWords.{head_word, thread_words, threads_words};

use crate::writer::{add, add_values};
use plain_machine::{Actor, Mode, Thread};
use plain_monitor::{Ending, Fault, NoMemory};

fn fault_number(fault: Fault) -> u64
    ensures { result ≡ fault_number fault }
{
    match fault {
        Fault::IllegalMonitorState => 0,
        Fault::Unguarded => 1,
        Fault::NotRef => 2,
        Fault::NotInt => 3,
        Fault::Range => 4,
        Fault::Overflow => 5,
        Fault::TooDeep => 6,
        Fault::TooManyDumps => 7,
        Fault::TooMany => 8,
    }
}

fn ending_kind(ending: Ending) -> u64
    ensures kind { result ≡ ending_kind ending }
    ensures small { result < 11 }
{
    match ending {
        Ending::Done => 0,
        Ending::Spent => 1,
        Ending::Trap { fault, .. } => fault_number(fault) + 2,
    }
}

fn ending_rest(ending: Ending) -> u64
    ensures rest { result ≡ ending_rest ending }
    ensures small { result < 2 ^ 32 }
{
    match ending {
        Ending::Trap { index, .. } => u64::from(index),
        _ => 0,
    }
}

fn mode_kind(mode: Mode) -> u64
    ensures kind { result ≡ mode_kind mode }
    ensures small { result < 32 }
{
    match mode {
        Mode::Calling { .. } => 0,
        Mode::Waiting { .. } => 1,
        Mode::Unwinding { ending } => ending_kind(ending) + 2,
        Mode::Ended { ending } => ending_kind(ending) + 13,
    }
}

fn mode_rest(mode: Mode) -> u64
    ensures rest { result ≡ mode_rest mode }
    ensures small { result < 2 ^ 32 }
{
    match mode {
        Mode::Calling { .. } => 0,
        Mode::Waiting { object } => u64::from(object),
        Mode::Unwinding { ending } => ending_rest(ending),
        Mode::Ended { ending } => ending_rest(ending),
    }
}

/// The word of a thread's place, its dumps and the kind of its mode.
fn head_word(thread: &Thread) -> u64
    ensures word { result ≡ head_word thread.now }
    ensures small { thread.now.place < 2 ^ 32 }
{
    (u64::from(thread.place()) * 8 + u64::from(thread.dumps())) * 32 + mode_kind(thread.mode())
}

/// The words of a thread.
fn add_thread(out: &mut Vec<u64>, thread: &Thread) -> Result<(), NoMemory>
    requires { AllByRecursion IsSpellable thread.now.locals }
    ensures words { OnOk result (out.new.items ≡ out.old.items ++ thread_words thread.now) }
    ensures numbers { IfOk result (λ _. HasSmall thread.now) }
{
    let locals = thread.locals();
    add(out, head_word(thread))?;
    add(out, mode_rest(thread.mode()))?;
    add(out, u64::from(thread.made()))?;
    add(out, locals.len() as u64)?;
    add_values(out, locals)?;
    Ok(())
}

/// The words of threads.
pub(crate) fn add_threads(out: &mut Vec<u64>, threads: &[Thread]) -> Result<(), NoMemory>
    requires { AllByRecursion (λ s. AllByRecursion IsSpellable s.locals) threads.now }
    ensures words { OnOk result (out.new.items ≡ out.old.items ++ threads_words threads.now) }
    ensures numbers { IfOk result (λ _. AllByRecursion HasSmall threads.now) }
{
    for thread in threads {
        add_thread(out, thread)?;
    }
    Ok(())
}
