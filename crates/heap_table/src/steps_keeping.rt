//! Steps of which the thread keeps something for itself.
ghost use Rattle.core_world.specs.Trees.Plans.{with_own, load, swap};
ghost use Rattle.heap_table.specs.StepPlans.{store_plan};
ghost use Rattle.core_world.specs.Trees.MonitorSteps.{claim_plan, fetch_plan};
ghost use Rattle.heap_table.specs.Stepping.{CanStep, HasStepped};

use crate::call_context::CallContext;
use crate::heap::Heap;
use crate::pass::Pass;
use crate::plans::keeping;
use core_world::{Act, LocalEffect, Stage, WordId};

/// Steps that log nothing, of which the thread keeps this for itself, where they hit. Each answers the word that it
/// found.
impl Heap {
    /// Loads the word, and keeps of it what `own` says.
    #[inline(always)]
    pub fn load_and_keep(
        &self,
        pass: &mut Pass,
        call: &CallContext,
        own: LocalEffect,
        at: WordId,
    ) -> u64
        requires { CanStep self.now pass.old (with_own own (load call.now at)) }
        ensures { HasStepped self.now pass.old pass.new (with_own own (load call.now at)) result }
    {
        self.step(pass, keeping(call, Stage::Settled, own, at, Act::Load))
    }

    /// Stores the word, and keeps of it what `own` says.
    #[inline(always)]
    pub fn store_and_keep(
        &self,
        pass: &mut Pass,
        call: &CallContext,
        stage: Stage,
        own: LocalEffect,
        at: WordId,
        word: u64,
    ) -> u64
        requires { CanStep self.now pass.old (with_own own (store_plan call.now stage at word)) }
        ensures { HasStepped self.now pass.old pass.new (with_own own (store_plan call.now stage at word)) result }
    {
        self.step(pass, keeping(call, stage, own, at, Act::Store { word }))
    }

    /// Exchanges the word for `word` where it is `expected`, and keeps of it what `own` says where it was.
    #[inline(always)]
    pub fn exchange_and_keep(
        &self,
        pass: &mut Pass,
        call: &CallContext,
        own: LocalEffect,
        at: WordId,
        expected: u64,
        word: u64,
    ) -> u64
        requires { CanStep self.now pass.old (with_own own (swap call.now at expected word)) }
        ensures { HasStepped self.now pass.old pass.new (with_own own (swap call.now at expected word)) result }
    {
        let act = Act::CompareExchange { expected, word };
        self.step(pass, keeping(call, Stage::Settled, own, at, act))
    }

    /// Claims the next ring position: the count of claimed ones rises by one, modulo 2^64. It answers the position,
    /// which is the number that the count was; the thread fetches its monitor next.
    #[inline(always)]
    pub fn claim(&self, pass: &mut Pass, call: &CallContext) -> u64
        requires { CanStep self.now pass.old (claim_plan call.now) }
        ensures { HasStepped self.now pass.old pass.new (claim_plan call.now) result }
    {
        self.step(
            pass,
            keeping(
                call,
                Stage::Settled,
                LocalEffect::Position,
                WordId::Claim,
                Act::FetchAdd,
            ),
        )
    }

    /// Loads the ring's place of this position. It answers the monitor that stands there, and the thread keeps it.
    #[inline(always)]
    pub fn fetch(&self, pass: &mut Pass, call: &CallContext, position: u64) -> u64
        requires { CanStep self.now pass.old (fetch_plan call.now self.now.heap.shape position) }
        ensures { HasStepped self.now pass.old pass.new (fetch_plan call.now self.now.heap.shape position) result }
    {
        let places = self.shape().ring_places() as u64;
        let place = (position % places) as u32;
        self.load_and_keep(pass, call, LocalEffect::Claim, WordId::Ring { place })
    }
}
