//! A pass and the state of its thread.
ghost use Rattle.std.specs.Prelude.{◌≡◌, ◌≤◌, ℕ, false};
ghost use Rattle.thread_frame.specs.Frames.{first_frame, has_ended};
ghost use Rattle.thread_interp.specs.Checks.{LooksOrBarred, StandsAfterCheck};
ghost use Rattle.thread_interp.specs.Moves.{HasMoved};
ghost use Rattle.thread_calls.specs.Between.{IsHeapOf};
ghost use Rattle.thread_calls.specs.Timed.{StaysTimed};
ghost use Rattle.thread_interp.specs.Runners.{RunnerSeen, IsRunner, IsSame};

use crate::moved::Moved;
use core_world::Progress;
use heap_table::Pass;
use run_io::{Clock, Gate};
use std::marker::Model;
use thread_calls::RunContext;
use thread_frame::Frame;

/// A thread of a program on a heap.
#[derive(Drop)]
pub struct Runner {
    pass: Pass,
    frame: Frame,
    fuel: u32,
}

impl Model for Runner {
    ghost use Rattle.thread_interp.specs.Runners.{RunnerSeen};

    ghost Value = { RunnerSeen };

    ghost view = { λ r. record { pass = r.pass; frame = r.frame; fuel = r.fuel } };
}

impl Runner {
    /// Makes the runner of a pass on which no call was made yet, for a thread that may execute `fuel` instructions,
    /// at most 200,000. The pass's log has room for what so many may log. It takes no memory.
    pub fn new(pass: Pass, fuel: u32) -> Runner
        ensures { result ≡ record { pass = pass; frame = first_frame fuel; fuel = fuel } }
    {
        let frame = Frame::new(fuel);
        Runner { pass, frame, fuel }
    }

    /// Gives the thread a turn: it goes on by at most as many instructions as the run's `quantum` is.
    ///
    /// The gate is visited first, and the thread set running, unless its request for a safepoint stands. Before each instruction, and each
    /// exit of a thread that unwinds, it polls where it runs: as often as it does instructions at least, or once less where its request
    /// stood. The turn ends after so many instructions, at the thread's end, or where a call that it began is pending, be that a poll or
    /// the resume; after it the thread is stopped, or its request stands. It makes one step of the heap at least. Each call that needs a
    /// moment gets `1 + tick * count`, in milliseconds, for some count of the clock. Where the run's
    /// `tick` is 0, the clock is not looked at.
    pub fn turn<C: Clock, G: Gate>(&mut self, run: &RunContext<C>, gate: &G) -> Moved
        requires heap { IsHeapOf run.now.heap.now run.now.program.now }
        requires runner { IsRunner run.now.heap.now run.now.program.now self.old }
        requires unchecked { self.old.pass.known.checking ≡ false }
        requires live { has_ended self.old.frame ≡ false }
        requires quantum { 1 ≤ run.now.quantum }
        ensures runner { IsRunner run.now.heap.now run.now.program.now self.new }
        ensures unchecked { self.new.pass.known.checking ≡ false }
        ensures same { IsSame self.old self.new }
        ensures moved { HasMoved run.now.heap.now run.now.quantum self.old self.new result }
        ensures timed { StaysTimed run.now.tick self.old.pass self.new.pass }
    {
        gate.visit(self.pass.thread());
        let own = RunContext {
            fuel: self.fuel,
            ..*run
        };
        crate::turn::run_turn(&own, &mut self.pass, &mut self.frame)
    }

    /// Looks at a safepoint whether the run is stuck, as `check_stuck`: the thread is set running before it, unless its request stands, and
    /// stopped after it where it runs. The answer is that of `check_stuck`; where the resume was pending before it, for `Raced`,
    /// `Requested` or `Halted`, it is the resume's. Nothing is logged, and what the thread stands before stays as it is.
    pub fn check<C>(&mut self, run: &RunContext<C>) -> Progress<bool>
        requires heap { IsHeapOf run.now.heap.now run.now.program.now }
        requires runner { IsRunner run.now.heap.now run.now.program.now self.old }
        requires free { self.old.pass.known.requesting ≡ self.old.pass.known.checking }
        requires live { has_ended self.old.frame ≡ false }
        ensures runner { IsRunner run.now.heap.now run.now.program.now self.new }
        ensures same { IsSame self.old self.new }
        ensures frame { self.new.frame ≡ self.old.frame }
        ensures log { self.new.pass.known.log ≡ self.old.pass.known.log }
        ensures looked { LooksOrBarred run.now.heap.now self.old.pass self.new.pass result }
        ensures stands { StandsAfterCheck self.new.pass.known result }
        ensures timed { (tick : ℕ) → StaysTimed tick self.old.pass self.new.pass }
    {
        let own = RunContext {
            fuel: self.fuel,
            ..*run
        };
        crate::turn::check(&own, &mut self.pass, &self.frame)
    }

    /// Whether the thread has ended.
    pub fn has_ended(&self) -> bool
        ensures { result ≡ has_ended self.now.frame }
    {
        self.frame.has_ended()
    }

    /// Whether the thread's request for a safepoint stands.
    pub fn requesting(&self) -> bool
        ensures { result ≡ self.now.pass.known.requesting }
    {
        self.pass.requesting()
    }

    /// Whether a check of the thread is unfinished.
    pub fn checking(&self) -> bool
        ensures { result ≡ self.now.pass.known.checking }
    {
        self.pass.checking()
    }

    /// Gives the pass back.
    pub fn into_pass(self) -> Pass
        ensures { result ≡ self.pass }
    {
        self.pass
    }
}
