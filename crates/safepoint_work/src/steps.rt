//! Single steps in the middle of a revocation.
ghost use Rattle.std.specs.Prelude.{◌≡◌, [], ◌∷◌};
ghost use Rattle.core_world.specs.RevocationRules.{write};
ghost use Rattle.core_world.specs.Trees.Plans.{load_plan};
ghost use Rattle.core_world.specs.Trees.RevocationSteps.{revocation_stage, store_steps};
ghost use Rattle.heap_table.specs.Parts.{IsDueOn, HasMadeSteps};
ghost use Rattle.heap_table.specs.Seen.{IsOf};
ghost use Rattle.heap_table.specs.Stepping.{CanStep, HasStepped};

use crate::revocation::Revocation;
use core_world::WordId;
use heap_table::{CallContext, Heap, Pass};

/// Loads the word in the middle of a revocation. It answers the word that it found.
#[inline(always)]
pub fn look(
    heap: &Heap,
    pass: &mut Pass,
    call: &CallContext,
    revocation: &Revocation,
    at: WordId,
) -> u64
    requires { CanStep heap.now pass.old (load_plan call.now (revocation_stage revocation.now) at) }
    ensures { HasStepped heap.now pass.old pass.new (load_plan call.now (revocation_stage revocation.now) at) result }
{
    heap.load(pass, call, revocation.stage(), at)
}

/// Makes one store of a revocation.
#[inline(always)]
pub fn store_one(
    heap: &Heap,
    pass: &mut Pass,
    call: &CallContext,
    revocation: &Revocation,
    at: WordId,
    word: u64,
)
    requires heap { IsOf heap.now pass.old }
    requires due { IsDueOn heap.now pass.old call.now.task (store_steps call.now revocation.now (write at word ∷ [])) }
    ensures { HasMadeSteps heap.now (store_steps call.now revocation.now (write at word ∷ []))
        pass.old pass.new result }
{
    heap.store(pass, call, revocation.stage(), at, word);
}
