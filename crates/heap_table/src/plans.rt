//! The plans of steps, by what a call says of them.
ghost use Rattle.std.specs.Prelude.{◌≡◌};
ghost use Rattle.core_world.specs.Trees.Plans.{quiet_plan, with_stage, with_own, logging_plan};

use crate::call_context::CallContext;
use core_world::{Act, LocalEffect, LogEffect, Stage, StepPlan, WordId};
use plain_monitor::Entry;

/// A step that logs nothing, of which the thread keeps this for itself.
#[inline(always)]
pub fn keeping(call: &CallContext, stage: Stage, own: LocalEffect, at: WordId, act: Act) -> StepPlan
    ensures { result ≡ with_own own (with_stage stage (quiet_plan call.now at act)) }
{
    StepPlan {
        at,
        act,
        note: LogEffect::Quiet,
        own,
        task: call.task,
        after: call.unfinished,
        check: call.check,
        stage,
    }
}

/// A step that logs nothing.
#[inline(always)]
pub fn quiet(call: &CallContext, stage: Stage, at: WordId, act: Act) -> StepPlan
    ensures { result ≡ with_stage stage (quiet_plan call.now at act) }
{
    StepPlan {
        at,
        act,
        note: LogEffect::Quiet,
        own: LocalEffect::Unchanged,
        task: call.task,
        after: call.unfinished,
        check: call.check,
        stage,
    }
}

/// A step that logs this and leaves the operation unfinished.
#[inline(always)]
pub fn noting(call: &CallContext, stage: Stage, at: WordId, act: Act, note: LogEffect) -> StepPlan
    ensures { result ≡ record (with_stage stage (quiet_plan call.now at act)) { note = note } }
{
    StepPlan {
        at,
        act,
        note,
        own: LocalEffect::Unchanged,
        task: call.task,
        after: call.unfinished,
        check: call.check,
        stage,
    }
}

/// A step that logs this entry and ends the operation.
#[inline(always)]
pub fn logging(call: &CallContext, stage: Stage, at: WordId, act: Act, entry: Entry) -> StepPlan
    ensures { result ≡ with_stage stage (logging_plan entry call.now at act) }
{
    StepPlan {
        at,
        act,
        note: LogEffect::Log { entry },
        own: LocalEffect::Unchanged,
        task: call.task,
        after: None,
        check: call.check,
        stage,
    }
}
