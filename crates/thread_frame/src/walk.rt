//! Local instructions.

ghost use Rattle.std.specs.Prelude.{◌≡◌, ◌<◌, ◌≤◌, length, None};
ghost use Rattle.object_program.specs.Limits.{most_locals};
ghost use Rattle.plain_machine.specs.Machine.{code_of};
ghost use Rattle.plain_machine.specs.Next.{meant};
ghost use Rattle.plain_machine.specs.Running.{instruction_at};
ghost use Rattle.plain_machine.specs.Thread.{step_of};
ghost use Rattle.thread_frame.specs.Frames.{locals_of, next_state, state_in};
ghost use Rattle.thread_frame.specs.Sights.{counts_from, AreOf};
ghost use Rattle.thread_frame.specs.Walking.{HasWalked, walked_to};
ghost use Rattle.thread_frame.specs.inner.Walking.{frame_moved, IsPlacedFor};

use crate::frame::Frame;
use crate::frame_actor::FrameActor;
use heap_table::Pass;
use object_program::Program;
use plain_machine::{Mode, MonitorCall, Next, code_of, look};
use plain_monitor::Ending;

/// What a thread in the middle of its local instructions came to.
#[derive(Clone, Copy, Debug, PartialEq, Eq)]
pub enum Walked {
    /// It executed an instruction, and paid for it: a local one, or one that ends it.
    Ran,
    /// It is at this call, which is not yet paid for, and was left as it was. Made at once, the call is what it follows; pending, it is what
    /// it then stands before.
    Arrived { call: MonitorCall },
    /// It has no fuel left, and ends.
    Spent,
}

impl Frame {
    /// Looks at the instruction that the thread is at, and executes it where it is a local one or ends the thread. The pass is the
    /// thread's, on a heap of so many objects. A call it tells, and leaves the frame.
    pub fn walk(&mut self, program: &Program, pass: &Pass, objects: u32) -> Walked
        requires thread { pass.now.known.thread < length program.now.threads }
        requires local { self.old.mode ≡ None }
        requires holds { AreOf objects pass.now.known.holds }
        ensures leads { let holds = counts_from 0 objects pass.now.known.holds in
            next_state program.now pass.now.known.thread holds (walked_to self.new result)
            ≡ next_state program.now pass.now.known.thread holds self.old }
        ensures walked { HasWalked self.old self.new result }
    {
        if self.fuel() == 0 {
            let place = self.place();
            let ending = Ending::Spent;
            self.stand(place, 0, Some(Mode::Unwinding { ending }));
            return Walked::Spent;
        }
        let next = self.decode_next(program, pass, objects);
        self.apply(next)
    }

    // What the instruction that it is at leads to.
    #[inline]
    #[tactic(auto, using(crate::proofs::Walks::placed))]
    fn decode_next(&self, program: &Program, pass: &Pass, objects: u32) -> Next
        requires thread { pass.now.known.thread < length program.now.threads }
        requires holds { AreOf objects pass.now.known.holds }
        ensures next { let t = pass.now.known.thread in
            let s = state_in (locals_of program.now t) (counts_from 0 objects pass.now.known.holds) self.now in
            step_of program.now s (instruction_at (code_of program.now t) self.now.place) ≡ meant s result }
        ensures placed { IsPlacedFor self.now result }
    {
        let thread = pass.thread();
        let actor = FrameActor {
            frame: self,
            pass,
            objects,
            locals: locals_of(program, thread),
        };
        look(program, code_of(program, thread), &actor)
    }

    // Goes on past the instruction, and pays for it unless it calls.
    #[inline]
    fn apply(&mut self, next: Next) -> Walked
        requires local { self.old.mode ≡ None }
        requires fuel { 0 < self.old.fuel }
        requires placed { IsPlacedFor self.old next }
        ensures moved { walked_to self.new result ≡ frame_moved self.old next }
        ensures walked { HasWalked self.old self.new result }
    {
        let place = self.place();
        let fuel = self.fuel();
        match next {
            Next::Sets { local, value } => {
                self.set_local(local, value);
                self.stand(place + 1, fuel - 1, None);
            }
            Next::Jumps { place } => self.stand(place, fuel - 1, None),
            Next::Calls { call } => return Walked::Arrived { call },
            Next::Stops { ending } => self.stand(place, fuel - 1, Some(Mode::Unwinding { ending })),
        }
        Walked::Ran
    }
}

/// How many locals thread t declares.
#[inline]
#[tactic(auto, using(crate::proofs::Few::few_locals))]
fn locals_of(program: &Program, t: u32) -> u32
    requires { t < length program.now.threads }
    ensures count { result ≡ locals_of program.now t }
    ensures few { result ≤ most_locals }
{
    program.threads.items()[t as usize].locals.items().len() as u32
}
