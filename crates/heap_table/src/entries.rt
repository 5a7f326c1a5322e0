//! Steps that log.
ghost use Rattle.core_world.specs.declared.plan.LogEffect.{LogEffect};
ghost use Rattle.core_world.specs.Trees.Plans.{logging_plan};
ghost use Rattle.core_world.specs.Trees.HashSteps.{find_hash_plan};
ghost use Rattle.core_world.specs.Trees.Operations.{get_plan};
ghost use Rattle.heap_table.specs.StepPlans.{log_store_plan, log_swap_plan, log_store_within_plan};
ghost use Rattle.heap_table.specs.Stepping.{CanStep, HasStepped};

use crate::call_context::CallContext;
use crate::heap::Heap;
use crate::pass::Pass;
use crate::plans::{logging, noting};
use core_world::{Act, LogEffect, Stage, WordId};
use plain_monitor::Entry;

/// Steps that log an entry, where they hit, and end the operation with it. Each answers the word that it found.
impl Heap {
    /// Loads the word, and logs this entry.
    #[inline(always)]
    pub fn log_load(&self, pass: &mut Pass, call: &CallContext, at: WordId, entry: Entry) -> u64
        requires { CanStep self.now pass.old (logging_plan entry call.now at Act.Load) }
        ensures { HasStepped self.now pass.old pass.new (logging_plan entry call.now at Act.Load) result }
    {
        self.step(pass, logging(call, Stage::Settled, at, Act::Load, entry))
    }

    /// Stores the word, and logs this entry.
    #[inline(always)]
    pub fn log_store(
        &self,
        pass: &mut Pass,
        call: &CallContext,
        stage: Stage,
        at: WordId,
        word: u64,
        entry: Entry,
    ) -> u64
        requires { CanStep self.now pass.old (log_store_plan call.now stage at word entry) }
        ensures { HasStepped self.now pass.old pass.new (log_store_plan call.now stage at word entry) result }
    {
        self.step(pass, logging(call, stage, at, Act::Store { word }, entry))
    }

    /// Exchanges the word for `word` where it is `expected`, and logs this entry where it was.
    #[inline(always)]
    pub fn log_exchange(
        &self,
        pass: &mut Pass,
        call: &CallContext,
        stage: Stage,
        at: WordId,
        expected: u64,
        word: u64,
        entry: Entry,
    ) -> u64
        requires { CanStep self.now pass.old (log_swap_plan call.now stage at expected word entry) }
        ensures { HasStepped self.now pass.old pass.new (log_swap_plan call.now stage at expected word entry) result }
    {
        let act = Act::CompareExchange { expected, word };
        self.step(pass, logging(call, stage, at, act, entry))
    }
}

/// Steps that log and leave the operation unfinished. Each answers the word that it found.
impl Heap {
    /// Stores the word, and logs this entry; the operation stays unfinished.
    #[inline(always)]
    pub fn log_store_within(
        &self,
        pass: &mut Pass,
        call: &CallContext,
        stage: Stage,
        at: WordId,
        word: u64,
        entry: Entry,
    ) -> u64
        requires { CanStep self.now pass.old (log_store_within_plan call.now stage at word entry) }
        ensures { HasStepped self.now pass.old pass.new (log_store_within_plan call.now stage at word entry) result }
    {
        let note = LogEffect::Log { entry };
        self.step(pass, noting(call, stage, at, Act::Store { word }, note))
    }

    /// Loads the word, and where it is neutral and has a hash logs a Hash of the object and ends the operation.
    #[inline(always)]
    pub fn find_hash(&self, pass: &mut Pass, call: &CallContext, at: WordId, object: u32) -> u64
        requires { CanStep self.now pass.old (find_hash_plan call.now at object) }
        ensures { HasStepped self.now pass.old pass.new (find_hash_plan call.now at object) result }
    {
        let note = LogEffect::LogHash { object };
        self.step(pass, noting(call, Stage::Settled, at, Act::Load, note))
    }

    /// Loads a slot, and logs a Get with the value found.
    #[inline(always)]
    pub fn log_get(&self, pass: &mut Pass, call: &CallContext, object: u32, slot: u32) -> u64
        requires { CanStep self.now pass.old (get_plan call.now object slot) }
        ensures { HasStepped self.now pass.old pass.new (get_plan call.now object slot) result }
    {
        let at = WordId::Slot { object, slot };
        let note = LogEffect::LogGet { object, slot };
        self.step(pass, noting(call, Stage::Settled, at, Act::Load, note))
    }
}
