//! A thread: where it is, its locals and its holds.

ghost use Rattle.std.specs.Prelude.{◌≡◌, ◌+◌, ◌<◌, ◌^◌, IfOk, IfSome, sum, length};
ghost use Rattle.object_program.specs.Limits.{most_code};
ghost use Rattle.plain_monitor.specs.Limits.{most_holds, most_made};
ghost use Rattle.plain_machine.specs.Thread.{ThreadState, local, with_local, past, holds_of};
ghost use Rattle.plain_machine.specs.Asking.{holds_more, holds_less, ask, held_from, unwinds};
ghost use Rattle.plain_machine.specs.Sound.{ThreadIsReady, unrun};
ghost use Rattle.plain_machine.specs.Ready.{IsReadyToAsk, IsUnwinding};

mod parts;

use crate::actor::Actor;
use crate::monitor_call::{Mode, NextEntry};
use plain_monitor::{Ending, NoMemory, Value};
use std::alloc::Global;
use std::marker::Model;

#[derive(Drop)]
pub struct Thread {
    place: u32,
    locals: Vec<Value>,
    fuel: u32,
    holds: Vec<u32>,
    depth: u32,
    dumps: u32,
    made: u32,
    mode: Mode,
}

impl Model for Thread {
    ghost use Rattle.plain_machine.specs.Thread.{ThreadState};

    ghost Value = { ThreadState };

    ghost use Rattle.plain_machine.specs.ThreadView.{state, IsCounted};

    ghost view = { state };

    ghost invariant = { IsCounted };
}

impl Thread {
    /// A thread that has not run, with this many locals, for a machine of this many objects.
    ///
    /// # Errors
    ///
    /// `NoMemory` where an allocation fails.
    pub fn new(alloc: Global, locals: u32, objects: u32, fuel: u32) -> Result<Thread, NoMemory>
        ensures { IfOk result (λ s. s ≡ unrun locals objects fuel) }
    {
        let locals = vec![in alloc; Value::Nil; locals as usize].map_err(|_| NoMemory)?;
        let holds = vec![in alloc; 0; objects as usize].map_err(|_| NoMemory)?;
        Ok(Thread {
            place: 0,
            locals,
            fuel,
            holds,
            depth: 0,
            dumps: 0,
            made: 0,
            mode: Mode::Unwinding {
                ending: Ending::Done,
            },
        })
    }

    /// How many instructions it may still pay for.
    pub fn fuel(&self) -> u32
        ensures { result ≡ self.now.fuel }
    {
        self.fuel
    }

    /// Whether it runs, waits, unwinds or has ended.
    pub fn mode(&self) -> Mode
        ensures { result ≡ self.now.mode }
    {
        self.mode
    }

    /// x becomes the value, where there is such a local.
    pub fn set_local(&mut self, x: u32, value: Value)
        ensures { self.new ≡ with_local self.old x value }
    {
        let x = x as usize;
        if x >= self.locals.len() {
            return;
        }
        self.locals[x] = value;
    }

    /// The thread stands past the instruction.
    pub fn step(&mut self)
        requires { self.old.place < most_code }
        ensures { self.new ≡ past self.old }
    {
        self.place += 1;
    }

    /// The thread stands past this many instructions.
    pub fn go_to(&mut self, place: u32)
        ensures { self.new ≡ record self.old { place = place } }
    {
        self.place = place;
    }

    /// It has made this many dumps.
    pub fn count_dumps(&mut self, dumps: u32)
        ensures { self.new ≡ record self.old { dumps = dumps } }
    {
        self.dumps = dumps;
    }

    /// It has made one object more.
    pub fn count_made(&mut self)
        requires { self.old.made < most_made }
        ensures { self.new ≡ record self.old { made = self.old.made + 1 } }
    {
        self.made += 1;
    }

    /// It has this much fuel, and is where the mode says.
    pub fn stand(&mut self, fuel: u32, mode: Mode)
        ensures { self.new ≡ record self.old { fuel = fuel; mode = mode } }
    {
        self.fuel = fuel;
        self.mode = mode;
    }

    /// One hold more.
    pub fn hold_more(&mut self, object: u32)
        requires { sum self.old.holds < most_holds }
        ensures { self.new ≡ holds_more self.old object }
    {
        let object = object as usize;
        if object >= self.holds.len() {
            return;
        }
        self.holds[object] += 1;
        self.depth += 1;
    }

    /// One hold less, where there is one.
    pub fn hold_less(&mut self, object: u32)
        ensures { self.new ≡ holds_less self.old object }
    {
        let object = object as usize;
        if object >= self.holds.len() {
            return;
        }
        let held = self.holds[object];
        if held == 0 {
            return;
        }
        self.holds[object] = held - 1;
        self.depth -= 1;
    }

    /// What the thread has to make next.
    pub fn asked(&self) -> Option<NextEntry>
        ensures asked { result ≡ ask self.now }
        ensures ready { ThreadIsReady self.now → IfSome result (λ asked. IsReadyToAsk self.now asked) }
    {
        match self.mode {
            Mode::Calling { call } => Some(NextEntry::Calls { call }),
            Mode::Waiting { object } => Some(NextEntry::Resumes { object }),
            Mode::Unwinding { ending } => Some(unwinding(&self.holds, ending)),
            Mode::Ended { .. } => None,
        }
    }
}

impl Actor for Thread {
    ghost state = { λ s. s };

    fn place(&self) -> u32 {
        self.place
    }

    fn local(&self, x: u32) -> Value {
        match self.locals.get(x as usize) {
            Some(value) => *value,
            None => Value::Nil,
        }
    }

    fn holds(&self, object: u32) -> u32 {
        match self.holds.get(object as usize) {
            Some(held) => *held,
            None => 0,
        }
    }

    fn depth(&self) -> u32 {
        self.depth
    }

    fn dumps(&self) -> u32 {
        self.dumps
    }

    fn made(&self) -> u32 {
        self.made
    }
}

/// What a thread with these holds has to make next, where it ends so.
fn unwinding(holds: &[u32], ending: Ending) -> NextEntry
    requires { length holds.now < 2 ^ 32 }
    ensures asked { result ≡ unwinds ending (held_from 0 holds.now) }
    ensures ready { (s : ThreadState) → IsUnwinding s.mode → IsReadyToAsk s result }
{
    match first_held(holds) {
        Some(object) => NextEntry::Leaves { object },
        None => NextEntry::Ends { ending },
    }
}

/// The least object that is held.
fn first_held(holds: &[u32]) -> Option<u32>
    requires { length holds.now < 2 ^ 32 }
    ensures { result ≡ held_from 0 holds.now }
{
    for (object, held) in holds.iter().enumerate() {
        if *held >= 1 {
            return Some(object as u32);
        }
    }
    None
}
