//! Where the machines of a program lead, as keys of a search.

ghost use Rattle.std.specs.Prelude.{◌≡◌, ◌<◌, ◌≤◌, length, IfOk, IfSome, OnOk, Some, None, option_map};
ghost use Rattle.every_outcome.specs.Fuel.{is_spent, refuelled};
ghost use Rattle.plain_machine.specs.Machine.{new_machine};
ghost use Rattle.machine_words.specs.MachineWords.{words_of, machine_of};
ghost use Rattle.machine_words.specs.Numbers.{HasNumbers};
ghost use Rattle.machine_words.specs.Untouched.{IsUntouched};
ghost use Rattle.machine_laws.specs.Reached.{IsReached};
ghost use Rattle.outcome_search.specs.Settled.{settled};
ghost use Rattle.outcome_search.specs.Ends.{end_of};
ghost use Rattle.outcome_search.specs.Keys.{IsFound, IsKept, IsKey, IsScratch};
ghost use Rattle.outcome_search.specs.NextWords.{is_any_spent, first_key, next_of, next_key};

use crate::ends::{End, end_of};
use crate::walk::{Refuels, go, settle};
use machine_words::{Unread, add_words, load};
use object_program::Program;
use plain_machine::{Machine, Mode};
use plain_monitor::{Ending, NoMemory};
use state_search::Moves;
use std::alloc::Global;
use std::marker::Model;

/// A program, and a machine of it to load others into, where there is one.
#[derive(Drop)]
struct Scratch {
    program: Program,
    machine: Option<Machine>,
}

/// The machines of a program, each told by its words, and the entries that lead from each to others, where all threads have the same fuel
/// again after each entry, and entries that go alone are made at once, so many one after the other.
///
/// The program and the machine lie in a box, as the proof of a function lists at each of its steps all words that it holds itself.
#[derive(Drop)]
pub struct MachineMoves {
    alloc: Global,
    scratch: Box<Scratch>,
    fuel: u32,
    steps: u32,
}

impl Model for MachineMoves {
    ghost use Rattle.outcome_search.specs.MovesView.{Ways};

    ghost Value = { Ways };

    ghost use Rattle.outcome_search.specs.MovesView.{ways, HasScratch};

    ghost view = { ways };

    ghost invariant = { HasScratch };
}

/// The words of a machine.
fn words_of(alloc: Global, machine: &Machine, room: usize) -> Result<Vec<u64>, NoMemory>
    requires reached { IsReached machine.now }
    requires untouched { IsUntouched machine.now }
    ensures words { IfOk result (λ v. v.items ≡ words_of machine.now) }
    ensures numbers { IfOk result (λ _. HasNumbers machine.now) }
{
    let mut words = Vec::with_capacity(alloc, room).map_err(|_| NoMemory)?;
    add_words(machine, &mut words)?;
    Ok(words)
}

/// Whether a thread in this mode had no fuel left before an instruction.
fn is_spent(mode: Mode) -> bool
    ensures { result ≡ is_spent mode }
{
    match mode {
        Mode::Unwinding {
            ending: Ending::Spent,
        } => true,
        Mode::Ended {
            ending: Ending::Spent,
        } => true,
        _ => false,
    }
}

/// Whether a thread had no fuel left before an instruction.
pub(crate) fn is_any_spent(machine: &Machine) -> bool
    ensures { result ≡ is_any_spent machine.now }
{
    for thread in machine.threads() {
        if is_spent(thread.mode()) {
            return true;
        }
    }
    false
}

/// The key after the next entry of thread t, if there is one. The machine is left as that entry makes it, where nothing fails.
fn step(
    alloc: Global,
    machine: &mut Machine,
    t: u32,
    fuel: u32,
    steps: u32,
    room: usize,
) -> Result<Option<Vec<u64>>, NoMemory>
    requires t { t < length machine.old.threads }
    requires some { 1 ≤ fuel }
    requires found { IsFound machine.old.program fuel machine.old }
    ensures next { IfOk result (λ to. option_map (λ v. v.items) to ≡ next_of fuel steps t machine.old) }
    ensures again { IfOk result (λ to. IfSome to (λ v. IsKey machine.old.program fuel v.items)) }
    ensures found { OnOk result (IsFound machine.old.program fuel machine.new) }
{
    if is_any_spent(machine) {
        return Ok(None);
    }
    if !go(&mut Refuels { fuel }, machine, t, steps)? {
        return Ok(None);
    }
    machine.is_sound();
    let words = words_of(alloc, machine, room)?;
    Ok(Some(words))
}

impl MachineMoves {
    /// The moves of a program, and the key of its first machine.
    ///
    /// # Errors
    ///
    /// `NoMemory` where an allocation fails.
    pub fn new(
        alloc: Global,
        program: &Program,
        fuel: u32,
        steps: u32,
    ) -> Result<(MachineMoves, Vec<u64>), NoMemory>
        requires { 1 ≤ fuel }
        ensures ways { IfOk result (λ r. r.0 ≡ record { program = program.now; fuel = fuel; steps = steps }) }
        ensures first { IfOk result (λ r. r.1.items ≡ first_key program.now fuel steps) }
        ensures key { IfOk result (λ r. IsKey program.now fuel r.1.items) }
    {
        let mut scratch = empty_scratch(alloc, program)?;
        let words = first_key(alloc, &mut scratch, fuel, steps)?;
        let moves = MachineMoves {
            alloc,
            scratch,
            fuel,
            steps,
        };
        Ok((moves, words))
    }

    /// Where a key leads to by the next entry of thread t, if it has one. After an error each later call fails too.
    pub(crate) fn go(&mut self, key: &[u64], t: u32) -> Result<Option<Vec<u64>>, NoMemory>
        requires key { IsKey self.old.program self.old.fuel key.now }
        requires t { t < length self.old.program.threads }
        ensures next { IfOk result (λ to. option_map (λ v. v.items) to
            ≡ next_key self.old.program self.old.fuel self.old.steps key.now t) }
        ensures again { IfOk result (λ to. IfSome to (λ v. IsKey self.old.program self.old.fuel v.items)) }
        ensures same { self.new ≡ self.old }
    {
        next_key(self.alloc, &mut self.scratch, key, t, self.fuel, self.steps)
    }

    /// How the machine of a key ends; `None` where it goes on. After an error each later call fails too.
    pub fn end(&mut self, key: &[u64]) -> Result<Option<End>, NoMemory>
        requires { IsKey self.old.program self.old.fuel key.now }
        ensures end { IfOk result (λ e. e ≡ end_of (machine_of self.old.program self.old.fuel key.now)) }
        ensures same { self.new ≡ self.old }
    {
        end_of_key(&mut self.scratch, key, self.fuel)
    }
}

/// The value in a box.
pub(crate) fn boxed<T: Drop>(alloc: Global, value: T) -> Result<Box<T>, NoMemory>
    ensures { IfOk result (λ b. b.value ≡ value) }
{
    Box::new(alloc, value).map_err(|_| NoMemory)
}

/// A copy of the program, with no machine.
fn empty_scratch(alloc: Global, program: &Program) -> Result<Box<Scratch>, NoMemory>
    ensures { IfOk result (λ b. b.value ≡ record { program = program.now; machine = None }) }
{
    let program = program.try_clone(alloc)?;
    boxed(
        alloc,
        Scratch {
            program,
            machine: None,
        },
    )
}

/// Makes the program's first machine, which is at hand from then on where nothing fails.
fn make_machine(alloc: Global, scratch: &mut Scratch, fuel: u32) -> Result<(), NoMemory>
    ensures program { scratch.new.program ≡ scratch.old.program }
    ensures machine { OnOk result (scratch.new.machine ≡ Some (new_machine scratch.old.program fuel)) }
{
    let machine = Machine::new(alloc, &scratch.program, fuel)?;
    scratch.machine = Some(machine);
    Ok(())
}

/// The key of the program's first machine, once it has come to where entries that go alone lead. That machine is at hand from then on,
/// where nothing fails.
fn first_key(
    alloc: Global,
    scratch: &mut Scratch,
    fuel: u32,
    steps: u32,
) -> Result<Vec<u64>, NoMemory>
    requires { 1 ≤ fuel }
    ensures program { scratch.new.program ≡ scratch.old.program }
    ensures kept { OnOk result (IsScratch scratch.old.program fuel scratch.new.machine) }
    ensures first { IfOk result (λ words. words.items ≡ first_key scratch.old.program fuel steps) }
    ensures key { IfOk result (λ words. IsKey scratch.old.program fuel words.items) }
{
    make_machine(alloc, scratch, fuel)?;
    let Some(machine) = &mut scratch.machine else {
        unreachable!()
    };
    settle_first(machine, fuel, steps)?;
    let words = words_of(alloc, machine, 0)?;
    Ok(words)
}

/// Where the first machine comes to by entries that go alone.
fn settle_first(machine: &mut Machine, fuel: u32, steps: u32) -> Result<(), NoMemory>
    requires some { 1 ≤ fuel }
    requires first { machine.old ≡ new_machine machine.old.program fuel }
    ensures settled { OnOk result (machine.new ≡ settled fuel steps (refuelled fuel machine.old)) }
    ensures kept { OnOk result (IsKept machine.old.program fuel machine.new) }
{
    machine.is_sound();
    machine.refuel(fuel);
    settle(&mut Refuels { fuel }, machine, steps)?;
    machine.is_sound();
    Ok(())
}

/// Makes the machine that is at hand that of a key, which is read back from it. Out of memory is the only error: there is no machine then, and
/// each later call fails, too.
fn load_key(scratch: &mut Scratch, key: &[u64], fuel: u32) -> Result<(), NoMemory>
    requires kept { IsScratch scratch.old.program fuel scratch.old.machine }
    requires key { IsKey scratch.old.program fuel key.now }
    ensures program { scratch.new.program ≡ scratch.old.program }
    ensures kept { IsScratch scratch.old.program fuel scratch.new.machine }
    ensures found { OnOk result (scratch.new.machine ≡ Some (machine_of scratch.old.program fuel key.now)) }
{
    // It was lost where memory gave out.
    let Some(machine) = scratch.machine.take() else {
        return Err(NoMemory);
    };
    match load(machine, key, fuel) {
        Ok(found) => {
            scratch.machine = Some(found);
            Ok(())
        }
        Err(Unread::NoMemory) => Err(NoMemory),
        // The key is the words of a machine.
        Err(Unread::NoMachine) => unreachable!(),
    }
}

/// No machine is at hand from now on.
fn drop_machine(scratch: &mut Scratch)
    ensures { scratch.new ≡ record scratch.old { machine = None } }
{
    scratch.machine = None;
}

/// Where a key leads to by the next entry of thread t, if it has one. After an error no machine is at hand.
fn next_key(
    alloc: Global,
    scratch: &mut Scratch,
    key: &[u64],
    t: u32,
    fuel: u32,
    steps: u32,
) -> Result<Option<Vec<u64>>, NoMemory>
    requires some { 1 ≤ fuel }
    requires t { t < length scratch.old.program.threads }
    requires kept { IsScratch scratch.old.program fuel scratch.old.machine }
    requires key { IsKey scratch.old.program fuel key.now }
    ensures program { scratch.new.program ≡ scratch.old.program }
    ensures kept { IsScratch scratch.old.program fuel scratch.new.machine }
    ensures next { IfOk result (λ to. option_map (λ v. v.items) to
        ≡ next_key scratch.old.program fuel steps key.now t) }
    ensures again { IfOk result (λ to. IfSome to (λ v. IsKey scratch.old.program fuel v.items)) }
{
    load_key(scratch, key, fuel)?;
    let Some(machine) = &mut scratch.machine else {
        unreachable!()
    };
    match step(alloc, machine, t, fuel, steps, key.len()) {
        Ok(to) => {
            machine.is_sound();
            Ok(to)
        }
        Err(NoMemory) => {
            drop_machine(scratch);
            Err(NoMemory)
        }
    }
}

/// How the machine of a key ends. After an error no machine is at hand.
fn end_of_key(scratch: &mut Scratch, key: &[u64], fuel: u32) -> Result<Option<End>, NoMemory>
    requires kept { IsScratch scratch.old.program fuel scratch.old.machine }
    requires key { IsKey scratch.old.program fuel key.now }
    ensures program { scratch.new.program ≡ scratch.old.program }
    ensures kept { IsScratch scratch.old.program fuel scratch.new.machine }
    ensures end { IfOk result (λ e. e ≡ end_of (machine_of scratch.old.program fuel key.now)) }
{
    load_key(scratch, key, fuel)?;
    match &scratch.machine {
        Some(machine) => Ok(end_of(machine)),
        None => unreachable!(),
    }
}

impl Moves for MachineMoves {
    ghost is_key = { λ m words. IsKey m.program m.fuel words };

    ghost next = { λ m key t. next_key m.program m.fuel m.steps key t };

    ghost choices = { λ m. length m.program.threads };

    fn choices(&self) -> u32 {
        self.scratch.program.threads.items().len() as u32
    }

    fn next(&mut self, key: &[u64], choice: u32) -> Result<Option<Vec<u64>>, NoMemory> {
        self.go(key, choice)
    }
}
