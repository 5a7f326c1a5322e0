//! What an instruction sees.

ghost use Rattle.std.specs.Prelude.{◌≤◌};
ghost use Rattle.object_program.specs.Limits.{most_locals};
ghost use Rattle.thread_frame.specs.Frames.{state_in};
ghost use Rattle.thread_frame.specs.Sights.{counts_from, AreOf};

use crate::frame::Frame;
use heap_table::Pass;
use plain_machine::Actor;
use plain_monitor::Value;

/// A frame of a thread that declares so many locals, and the thread's pass, on a heap of so many objects. The frame has a place for each local that a
/// thread may declare, so that a look at one is a look at their number alone.
#[derive(Clone, Copy)]
pub(crate) struct FrameActor<'a> {
    pub frame: &'a Frame,
    pub pass: &'a Pass,
    pub objects: u32,
    pub locals: u32,
    pub ghost few: { locals ≤ most_locals },
    pub ghost counted: { AreOf objects pass.now.known.holds },
}

impl Actor for FrameActor<'_> {
    ghost state = { λ s. state_in s.locals (counts_from 0 s.objects s.pass.now.known.holds) s.frame.now };

    #[inline]
    fn place(&self) -> u32 {
        self.frame.place()
    }

    #[inline]
    fn local(&self, x: u32) -> Value {
        if x < self.locals {
            return self.frame.local(x);
        }
        Value::Nil
    }

    #[inline]
    fn holds(&self, object: u32) -> u32 {
        if object < self.objects {
            return self.pass.held(object);
        }
        0
    }

    #[inline]
    fn depth(&self) -> u32 {
        self.pass.holds()
    }

    #[inline]
    fn dumps(&self) -> u32 {
        self.frame.dumps()
    }

    #[inline]
    fn made(&self) -> u32 {
        self.frame.made()
    }
}
