//! The check of a journal.

ghost use Rattle.std.specs.Prelude.{◌≡◌, ◌≢◌, ◌⊎◌, Result, ◌≤◌, ◌<◌, ◌^◌, not, length, IfOk, OnOk, MatchOption, Ok, Err, Some, None};
ghost use Rattle.std.specs.List.{list_all};
ghost use Rattle.plain_machine.specs.Machine.{is_live};
ghost use Rattle.object_program.specs.Valid.{IsProgram};
ghost use Rattle.bias_check.specs.declared.answer.Checked.{Checked};
ghost use Rattle.bias_check.specs.declared.answer.CheckFault.{CheckFault};
ghost use Rattle.bias_check.specs.Answer.{state_of, IsTrueOf};
ghost use Rattle.bias_check.specs.Lines.{lines_of};
ghost use Rattle.bias_check.specs.inner.Table.{names_of};
ghost use Rattle.bias_check.specs.inner.Checking.{is_above, taken, first_check, gone, stepped, checked_from, verdict_of, answer_of};

use crate::answer::{CheckFault, Checked, Reached};
use crate::entries::{EntryRead, LineRead};
use crate::hashes::Hashes;
use crate::lines::next_line;
use crate::names::Names;
use object_program::Program;
use plain_machine::Machine;
use plain_monitor::{Entry, NoMemory};
use std::alloc::Global;

/// A check under way: the machine and the hashes after the lines so far, the stamp and the thread of the last one, and the
/// number of the first line that was no step, if there was one.
#[derive(Drop)]
pub(crate) struct Check {
    machine: Machine,
    hashes: Hashes,
    last: Option<(u64, u32)>,
    stopped: Option<u32>,
}

/// Whether this stamp and thread stand above the last ones. The first stamp has to be at least 1.
fn is_above(last: Option<(u64, u32)>, stamp: u64, thread: u32) -> bool
    ensures { result ≡ is_above last stamp thread }
{
    match last {
        None => 0 < stamp,
        Some((before, other)) => before < stamp || (before == stamp && other < thread),
    }
}

/// Lets the machine take the entry that the words tell, or their second reading, and gives the one that it took.
fn take(machine: &mut Machine, t: u32, read: &EntryRead) -> Option<Entry>
    requires { t < length machine.old.threads }
    ensures taken { MatchOption result (taken machine.old t read.now ≡ None)
        (λ e. taken machine.old t read.now ≡ Some (e, machine.new)) }
    ensures refused { result ≡ None → machine.new ≡ machine.old }
    ensures threads { length machine.new.threads ≡ length machine.old.threads }
{
    if machine.take(t, &read.plain).is_ok() {
        return Some(read.plain);
    }
    let other = read.other?;
    match machine.take(t, &other) {
        Ok(()) => Some(other),
        Err(_) => None,
    }
}

impl Check {
    /// Before the first line.
    fn new(alloc: Global, program: &Program, fuel: u32, start: u32) -> Result<Check, NoMemory>
        ensures { IfOk result (λ check. check ≡ first_check program.now fuel start) }
    {
        let machine = Machine::new(alloc, program, fuel)?;
        let hashes = Hashes::new(alloc, program, start)?;
        Ok(Check {
            machine,
            hashes,
            last: None,
            stopped: None,
        })
    }

    /// Goes on by the line with this number, which tells this. After a line that was no step nothing is taken.
    fn go(&mut self, number: u32, read: &LineRead) -> Result<(), NoMemory>
        requires machine { read.now.thread < length self.old.machine.threads }
        requires hashes { read.now.thread < length self.old.hashes.drawers }
        ensures gone { OnOk result (self.new ≡ gone number self.old read.now) }
        ensures machine_threads { length self.new.machine.threads ≡ length self.old.machine.threads }
        ensures hash_threads { length self.new.hashes.drawers ≡ length self.old.hashes.drawers }
    {
        if self.stopped.is_some() {
            return Ok(());
        }
        if !is_above(self.last, read.stamp, read.thread) {
            self.stopped = Some(number);
            return Ok(());
        }
        self.step(number, read)
    }

    /// Goes on by a line that stands above the last one.
    fn step(&mut self, number: u32, read: &LineRead) -> Result<(), NoMemory>
        requires machine { read.now.thread < length self.old.machine.threads }
        requires hashes { read.now.thread < length self.old.hashes.drawers }
        ensures gone { OnOk result (self.new ≡ stepped number self.old read.now) }
        ensures machine_threads { length self.new.machine.threads ≡ length self.old.machine.threads }
        ensures hash_threads { length self.new.hashes.drawers ≡ length self.old.hashes.drawers }
    {
        let Some(entry) = take(&mut self.machine, read.thread, &read.entry) else {
            self.stopped = Some(number);
            return Ok(());
        };
        self.hashes.note(read.thread, &entry)?;
        self.last = Some((read.stamp, read.thread));
        Ok(())
    }

    /// The answer after the last line, where so many lines were read.
    fn verdict(&self, lines: u32, threads: u32) -> Checked
        requires { threads ≡ length self.now.machine.threads }
        ensures { result ≡ verdict_of self.now lines }
    {
        if let Some(line) = self.stopped {
            return Checked::NoStep { line };
        }
        match self.hashes.first_bad() {
            Some(object) => Checked::BadHash { object },
            None => Checked::Legal {
                entries: u64::from(lines),
                state: state_of(&self.machine, threads),
            },
        }
    }
}

/// Whether each thread of the machine, which has so many, has ended.
fn all_ended(machine: &Machine, threads: u32) -> bool
    requires { threads ≡ length machine.now.threads }
    ensures { result ≡ list_all (λ s. not (is_live s)) machine.now.threads }
{
    for t in 0..threads {
        match machine.ending(t) {
            None => return false,
            Some(_) => {}
        }
    }
    true
}

/// How the threads of the machine, which has so many, stand.
fn state_of(machine: &Machine, threads: u32) -> Reached
    requires { threads ≡ length machine.now.threads }
    ensures { result ≡ state_of machine.now }
{
    if all_ended(machine, threads) {
        Reached::Ended
    } else if machine.is_stuck() {
        Reached::Stuck
    } else {
        Reached::Open
    }
}

/// Checks the lines one after the other.
fn answer(
    alloc: Global,
    program: &Program,
    fuel: u32,
    start: u32,
    lines: &[u8],
) -> Result<Checked, CheckFault>
    requires { length lines.now < 2 ^ 32 }
    ensures { (result ≡ Err CheckFault.NoMemory)
        ⊎ (result ≡ answer_of
        (checked_from (names_of program.now) 0 (first_check program.now fuel start) (lines_of lines.now))
        (length (lines_of lines.now))) }
{
    let Ok(names) = Names::new(alloc, program) else {
        return Err(CheckFault::NoMemory);
    };
    let Ok(mut check) = Check::new(alloc, program, fuel, start) else {
        return Err(CheckFault::NoMemory);
    };
    let mut left = lines;
    let mut number: u32 = 0;
    while !left.is_empty() {
        let (line, rest) = next_line(left);
        number += 1;
        let Some(read) = names.read_line(line) else {
            return Err(CheckFault::Unreadable { line: number });
        };
        if check.go(number, &read).is_err() {
            return Err(CheckFault::NoMemory);
        }
        left = rest;
    }
    let threads = names.threads.items().len() as u32;
    Ok(check.verdict(number, threads))
}

/// The program's names, numbers and counts are allowed ones.
fn know(program: &Program)
    ensures { IsProgram program.now }
{
    let _classes = program.classes.items();
}

/// Checks whether the lines, each an entry of the journal with its line feed, are a legal history of the program, where each thread
/// has this much fuel and the generators of hashes start from `start`. The lines are read once, and each is taken in the time of
/// a few look-ups of names. The lines have fewer than 2^32 bytes. A line that is unreadable is answered before one that is no step, wherever they
/// stand, and a bad hash only where all lines are steps.
///
/// # Errors
///
/// `Unreadable` with the number, from 1, of the first line that isn't the line of any entry. `NoMemory` where an allocation fails.
pub fn check_journal(
    alloc: Global,
    program: &Program,
    fuel: u32,
    start: u32,
    lines: &[u8],
) -> Result<Checked, CheckFault>
    requires { length lines.now < 2 ^ 32 }

    // The answer says what holds of the lines.
    ensures is_true { IsTrueOf program.now fuel start (lines_of lines.now) result }

    // And where an answer holds, it comes, unless memory is wanting.
    ensures only { (answer : Result Checked CheckFault)
        → IsTrueOf program.now fuel start (lines_of lines.now) answer → answer ≢ Err CheckFault.NoMemory
        → (result ≡ answer) ⊎ (result ≡ Err CheckFault.NoMemory) }
{
    know(program);
    answer(alloc, program, fuel, start, lines)
}
