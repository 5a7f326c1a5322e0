//! Steps by what they do. Each is `Heap::step` with a plan of one form. At a call that names its word, only the act and
//! what the step makes of the pass are left of it in the built code.
ghost use Rattle.std.specs.Prelude.{◌≡◌};
ghost use Rattle.mark_word.specs.Safe.{read_safe};
ghost use Rattle.core_world.specs.Trees.Plans.{quiet_plan, load_plan, load};
ghost use Rattle.heap_table.specs.StepPlans.{store_plan, store_hold_plan, swap_plan};
ghost use Rattle.heap_table.specs.Stepping.{CanStep, HasStepped};

use crate::call_context::CallContext;
use crate::heap::Heap;
use crate::pass::Pass;
use crate::plans::quiet;
use crate::reads::safe_of_word;
use core_world::{Act, Stage, WordId};
use mark_word::SafeForm;

/// Steps that log nothing. Each answers the word that it found.
impl Heap {
    /// Loads the word.
    #[inline(always)]
    pub fn load(&self, pass: &mut Pass, call: &CallContext, stage: Stage, at: WordId) -> u64
        requires { CanStep self.now pass.old (load_plan call.now stage at) }
        ensures { HasStepped self.now pass.old pass.new (load_plan call.now stage at) result }
    {
        self.step(pass, quiet(call, stage, at, Act::Load))
    }

    /// Loads the safepoint word. It answers what the word says, too.
    #[inline(always)]
    pub fn look(&self, pass: &mut Pass, call: &CallContext) -> (u64, Option<SafeForm>)
        requires { CanStep self.now pass.old (load call.now WordId.Safepoint) }
        ensures stepped { HasStepped self.now pass.old pass.new (load call.now WordId.Safepoint) result.0 }
        ensures form { result.1 ≡ read_safe result.0 }
    {
        let found = self.load(pass, call, Stage::Settled, WordId::Safepoint);
        (found, safe_of_word(found))
    }

    /// `look` by a call that leaves unfinished what is unfinished: where nobody asks, the pass is not written.
    #[inline(always)]
    pub fn look_in_passing(&self, pass: &mut Pass, call: &CallContext) -> (u64, Option<SafeForm>)
        requires can { CanStep self.now pass.old (load call.now WordId.Safepoint) }
        requires same { (call.now.unfinished ≡ pass.old.known.unfinished) × (call.now.check ≡ pass.old.known.checking) }
        ensures stepped { HasStepped self.now pass.old pass.new (load call.now WordId.Safepoint) result.0 }
        ensures form { result.1 ≡ read_safe result.0 }
    {
        let plan = quiet(call, Stage::Settled, WordId::Safepoint, Act::Load);
        let found = self.step_in_passing(pass, plan);
        (found, safe_of_word(found))
    }

    /// Stores the word. In the built code it is an exchange: its contract speaks of the word that it found, so it
    /// fetches that in the same act.
    #[inline(always)]
    pub fn store(
        &self,
        pass: &mut Pass,
        call: &CallContext,
        stage: Stage,
        at: WordId,
        word: u64,
    ) -> u64
        requires { CanStep self.now pass.old (store_plan call.now stage at word) }
        ensures { HasStepped self.now pass.old pass.new (store_plan call.now stage at word) result }
    {
        self.step(pass, quiet(call, stage, at, Act::Store { word }))
    }

    /// Stores the thread's own hold word of this place.
    #[inline(always)]
    pub fn store_hold(
        &self,
        pass: &mut Pass,
        call: &CallContext,
        stage: Stage,
        place: u32,
        word: u64,
    ) -> u64
        requires { CanStep self.now pass.old (store_hold_plan call.now stage pass.old.known.thread place word) }
        ensures { HasStepped self.now pass.old pass.new
            (store_hold_plan call.now stage pass.old.known.thread place word) result }
    {
        let thread = pass.thread();
        self.store(pass, call, stage, WordId::Hold { thread, place }, word)
    }

    /// Exchanges the word for `word` where it is `expected`, by a compare-exchange.
    #[inline(always)]
    pub fn exchange(
        &self,
        pass: &mut Pass,
        call: &CallContext,
        stage: Stage,
        at: WordId,
        expected: u64,
        word: u64,
    ) -> u64
        requires { CanStep self.now pass.old (swap_plan call.now stage at expected word) }
        ensures { HasStepped self.now pass.old pass.new (swap_plan call.now stage at expected word) result }
    {
        self.step(
            pass,
            quiet(call, stage, at, Act::CompareExchange { expected, word }),
        )
    }

    /// Raises the word to `word` where it is smaller.
    #[inline(always)]
    pub fn raise(&self, pass: &mut Pass, call: &CallContext, at: WordId, word: u64) -> u64
        requires { CanStep self.now pass.old (quiet_plan call.now at (Act.FetchMax word)) }
        ensures { HasStepped self.now pass.old pass.new (quiet_plan call.now at (Act.FetchMax word)) result }
    {
        self.step(
            pass,
            quiet(call, Stage::Settled, at, Act::FetchMax { word }),
        )
    }

    /// Clears all bits of the word but these.
    #[inline(always)]
    pub fn mask(&self, pass: &mut Pass, call: &CallContext, at: WordId, bits: u64) -> u64
        requires { CanStep self.now pass.old (quiet_plan call.now at (Act.FetchAnd bits)) }
        ensures { HasStepped self.now pass.old pass.new (quiet_plan call.now at (Act.FetchAnd bits)) result }
    {
        self.step(
            pass,
            quiet(call, Stage::Settled, at, Act::FetchAnd { bits }),
        )
    }
}
