//! A thread's place, locals and fuel, its dumps, and how many objects it has made.

ghost use Rattle.std.specs.Prelude.{◌≡◌, ◌<◌, slice_index_or, slice_set, None, Some};
ghost use Rattle.object_program.specs.Limits.{most_locals};
ghost use Rattle.plain_machine.specs.declared.monitor_call.Mode.TheVariants.{Calling};
ghost use Rattle.plain_monitor.specs.declared.entry.Value.TheVariants.{Nil};
ghost use Rattle.thread_frame.specs.Frames.{before_call, first_frame, frame_answered, frame_after, frame_after_call, has_ended};
ghost use Rattle.thread_frame.specs.Frames.{IsAtInstruction, MayFollow, MayMakeMore};

use plain_machine::{Mode, MonitorCall, NextEntry};
use plain_monitor::{Entry, Value};
use std::marker::Model;

/// A thread of a program between two of its entries, apart from its holds.
#[derive(Clone, Copy)]
pub struct Frame {
    place: u32,
    locals: [Value; 32],
    fuel: u32,
    dumps: u32,
    made: u32,
    mode: Option<Mode>,
}

impl Model for Frame {
    ghost use Rattle.thread_frame.specs.Frames.{FrameSeen};

    ghost Value = { FrameSeen };

    ghost view = { λ f.
        record { place = f.place; locals = f.locals; fuel = f.fuel; dumps = f.dumps; made = f.made; mode = f.mode } };

    // a thread before a call stands at an instruction
    ghost use Rattle.thread_frame.specs.Frames.{IsAtInstruction};

    ghost invariant = { λ f. IsAtInstruction f.place f.made f.mode };

    ghost inverse = { λ f.
        record { place = f.place; locals = f.locals; fuel = f.fuel; dumps = f.dumps; made = f.made; mode = f.mode } };
}

impl Frame {
    /// A thread before its first instruction, which may pay for so many. Its locals are nil.
    pub fn new(fuel: u32) -> Frame
        ensures { result ≡ first_frame fuel }
    {
        Frame {
            place: 0,
            locals: [Value::Nil; 32],
            fuel,
            dumps: 0,
            made: 0,
            mode: None,
        }
    }

    /// What it stands before, or how it ended; `None` in the middle of its local instructions. Before a call it is at an instruction.
    pub fn mode(&self) -> Option<Mode>
        ensures is { result ≡ self.now.mode }
        ensures placed { IsAtInstruction self.now.place self.now.made result }
    {
        self.mode
    }

    /// How many instructions it may still pay for.
    pub fn fuel(&self) -> u32
        ensures { result ≡ self.now.fuel }
    {
        self.fuel
    }

    /// Whether it has ended.
    pub fn has_ended(&self) -> bool
        ensures { result ≡ has_ended self.now }
    {
        matches!(self.mode, Some(Mode::Ended { .. }))
    }

    /// How many instructions stand before the one that it is at.
    #[inline]
    pub(crate) fn place(&self) -> u32
        ensures { result ≡ self.now.place }
    {
        self.place
    }

    /// What the local is, where a thread may declare so many.
    #[inline]
    pub(crate) fn local(&self, x: u32) -> Value
        requires { x < most_locals }
        ensures { result ≡ slice_index_or self.now.locals x Nil }
    {
        self.locals[x as usize]
    }

    /// How many dumps it has made.
    #[inline]
    pub(crate) fn dumps(&self) -> u32
        ensures { result ≡ self.now.dumps }
    {
        self.dumps
    }

    /// How many objects it has made.
    #[inline]
    pub(crate) fn made(&self) -> u32
        ensures { result ≡ self.now.made }
    {
        self.made
    }

    /// Stands before the call that it is at, which is pending.
    pub fn stand_before(&mut self, call: MonitorCall)
        requires { IsAtInstruction self.old.place self.old.made (Some (Calling call)) }
        ensures { self.new ≡ before_call self.old call }
    {
        self.mode = Some(Mode::Calling { call });
    }

    /// Moves on after an entry that is what it asked. A call that was made at once it need not have stood before.
    #[inline]
    pub fn follow(&mut self, asked: NextEntry, entry: &Entry)
        requires { MayFollow self.old asked }
        ensures { self.new ≡ frame_after self.old asked entry.now }
    {
        match asked {
            NextEntry::Calls { call } => self.follow_call(call, entry),
            NextEntry::Resumes { .. } => self.mode = None,
            NextEntry::Leaves { .. } => {}
            NextEntry::Ends { ending } => self.mode = Some(Mode::Ended { ending }),
        }
    }

    // Moves on past this call, which is paid for.
    #[inline]
    #[tactic(auto, using(crate::proofs::Moves::answered_later))]
    fn follow_call(&mut self, call: MonitorCall, entry: &Entry)
        requires { IsAtInstruction self.old.place self.old.made (Some (Calling call)) }
        ensures { self.new ≡ frame_after_call self.old call entry.now }
    {
        let place = self.place + 1;
        let fuel = self.fuel.saturating_sub(1);
        if let MonitorCall::Wait { object } = call {
            return self.stand(place, fuel, Some(Mode::Waiting { object }));
        }
        self.stand(place, fuel, None);
        self.answer(call, entry);
    }

    // What the call's answer makes of it, after the call.
    #[inline]
    fn answer(&mut self, call: MonitorCall, entry: &Entry)
        requires after { self.old.mode ≡ None }
        requires room { MayMakeMore self.old.made call }
        ensures { self.new ≡ frame_answered self.old call entry.now }
    {
        match call {
            MonitorCall::Get { local, .. } => {
                if let Entry::Get { value, .. } = entry {
                    self.set_local(local, *value);
                }
            }
            MonitorCall::Hash { local, .. } => {
                if let Entry::Hash { value, .. } = entry {
                    self.set_local(local, Value::Int(i64::from(*value)));
                }
            }
            MonitorCall::New { local, .. } => {
                if let Entry::New { object, .. } = entry {
                    self.made += 1;
                    self.set_local(local, Value::Ref(*object));
                }
            }
            MonitorCall::Dump { number } => self.dumps = number,
            MonitorCall::Enter { .. }
            | MonitorCall::Exit { .. }
            | MonitorCall::Wait { .. }
            | MonitorCall::Notify { .. }
            | MonitorCall::NotifyAll { .. }
            | MonitorCall::Put { .. }
            | MonitorCall::Print { .. } => {}
        }
    }

    /// x becomes the value, where there is such a local.
    #[inline]
    pub(crate) fn set_local(&mut self, x: u32, value: Value)
        ensures { self.new ≡ record self.old { locals = slice_set self.old.locals x value } }
    {
        let locals = &mut self.locals;
        if x as usize >= locals.len() {
            return;
        }
        locals[x as usize] = value;
    }

    /// It is at this place, has this much fuel, and stands before this.
    #[inline]
    pub(crate) fn stand(&mut self, place: u32, fuel: u32, mode: Option<Mode>)
        requires { IsAtInstruction place self.old.made mode }
        ensures { self.new ≡ record self.old { place = place; fuel = fuel; mode = mode } }
    {
        self.place = place;
        self.fuel = fuel;
        self.mode = mode;
    }
}
