//! The end of a bias: at a safepoint of the thread's own where it is valid, and else by an exchange.
ghost use Rattle.std.specs.Prelude.{◌≡◌, ◌<◌, length};
ghost use Rattle.core_world.specs.Trees.Operations.{revocation_steps, revoked_steps, unbias_steps};
ghost use Rattle.heap_table.specs.Parts.{IsDueOn, HasMadeSteps};
ghost use Rattle.heap_table.specs.Resting.{start_now};
ghost use Rattle.heap_table.specs.Seen.{IsOf};
ghost use Rattle.lock_runtime.specs.inner.Parts.{ended_revocation, reached_revocation, unbias_first};

use bias_lock::{bias_drop, stage_after};
use core_world::{BiasTry, PendingCause, Progress, Stage};
use heap_table::{CallContext, Heap, Pass};
use safepoint::{release_to, safepoint};
use safepoint_work::{Revocation, deflate_idle, revoke_at_safepoint};

// The bias is revoked, and the thread stands at this stage: idle monitors are given back, and the safepoint ends. It
// answers whether the thread gave itself a new bias.
fn end_revocation(
    heap: &Heap,
    pass: &mut Pass,
    context: &CallContext,
    stage: Stage,
    took: bool,
) -> Progress<bool>
    requires heap { IsOf heap.now pass.old }
    requires due { IsDueOn heap.now pass.old context.now.task
        (ended_revocation heap.now.heap.shape pass.old.known.thread context.now stage took) }
    ensures { HasMadeSteps heap.now (ended_revocation heap.now.heap.shape pass.old.known.thread context.now stage took)
        pass.old pass.new result }
{
    deflate_idle(heap, pass, context, stage);
    release_to(heap, pass, context, stage);
    Progress::Done(took)
}

// The thread has its safepoint: the object's bias is revoked, idle monitors are given back, and the safepoint ends.
fn revoke_reached(
    heap: &Heap,
    pass: &mut Pass,
    context: &CallContext,
    revocation: &Revocation,
) -> Progress<bool>
    requires heap { IsOf heap.now pass.old }
    requires object { revocation.now.object < length heap.now.heap.shape.objects }
    requires due { IsDueOn heap.now pass.old context.now.task
        (reached_revocation heap.now.heap.shape pass.old.known.thread context.now revocation.now) }
    ensures { HasMadeSteps heap.now (reached_revocation heap.now.heap.shape pass.old.known.thread context.now revocation.now)
        pass.old pass.new result }
{
    let outcome = revoke_at_safepoint(
        heap,
        pass,
        context,
        revocation.object,
        revocation.rebias,
        revocation.moment,
    );
    let stage = stage_after(outcome.took, revocation.object);
    end_revocation(heap, pass, context, stage, outcome.took)
}

/// Revokes the object's bias at a safepoint of the thread's own, whose request stands already or is made, and gives idle
/// monitors back there. It answers whether the thread gave itself a new bias.
///
/// It is pending as `enter` is where it asks for a safepoint: `Stopping`, `Requested` and `Raced`.
///
/// In OpenJDK 8: `BiasedLocking::revoke_and_rebias` (`biasedLocking.cpp`), the part with an operation at a safepoint.
pub fn revocation(
    heap: &Heap,
    pass: &mut Pass,
    context: &CallContext,
    revocation: &Revocation,
    requesting: bool,
) -> Progress<bool>
    requires heap { IsOf heap.now pass.old }
    requires object { revocation.now.object < length heap.now.heap.shape.objects }
    requires due { IsDueOn heap.now pass.old context.now.task
        (revocation_steps heap.now.heap.shape pass.old.known.thread requesting context.now revocation.now) }
    ensures { HasMadeSteps heap.now
        (revocation_steps heap.now.heap.shape pass.old.known.thread requesting context.now revocation.now)
        pass.old pass.new result }
{
    match safepoint(heap, pass, context, requesting) {
        Progress::Done(()) => revoke_reached(heap, pass, context, revocation),
        Progress::Pending(cause) => Progress::Pending(cause),
    }
}

// Revokes the bias for an operation that takes no new one.
fn revoked(
    heap: &Heap,
    pass: &mut Pass,
    context: &CallContext,
    bias: &Revocation,
    requesting: bool,
) -> Progress<()>
    requires heap { IsOf heap.now pass.old }
    requires object { bias.now.object < length heap.now.heap.shape.objects }
    requires due { IsDueOn heap.now pass.old context.now.task
        (revoked_steps heap.now.heap.shape pass.old.known.thread requesting context.now bias.now) }
    ensures { HasMadeSteps heap.now (revoked_steps heap.now.heap.shape pass.old.known.thread requesting context.now bias.now)
        pass.old pass.new result }
{
    match revocation(heap, pass, context, bias, requesting) {
        Progress::Done(_) => Progress::Done(()),
        Progress::Pending(cause) => Progress::Pending(cause),
    }
}

// No request of the thread stands.
fn unbias_first(
    heap: &Heap,
    pass: &mut Pass,
    context: &CallContext,
    bias: &Revocation,
) -> Progress<()>
    requires heap { IsOf heap.now pass.old }
    requires object { bias.now.object < length heap.now.heap.shape.objects }
    requires due { IsDueOn heap.now pass.old context.now.task
        (unbias_first heap.now.heap.shape context.now (start_now heap.now pass.old) bias.now) }
    ensures { HasMadeSteps heap.now (unbias_first heap.now.heap.shape context.now (start_now heap.now pass.old) bias.now)
        pass.old pass.new result }
{
    match bias_drop(heap, pass, context, bias.object) {
        BiasTry::Unbiased { .. } => Progress::Done(()),
        BiasTry::Valid { .. } => revoked(heap, pass, context, bias, false),
        BiasTry::Raced { expected, found } => Progress::Pending(PendingCause::Raced {
            expected,
            found,
        }),
        BiasTry::Took(_path) => unreachable!(),
    }
}

/// Sees that the object's mark has no bias pattern. `Done(())` says that it has none.
///
/// In OpenJDK 8: `BiasedLocking::revoke_and_rebias` with `attempt_rebias` false (`biasedLocking.cpp`).
pub fn unbias(
    heap: &Heap,
    pass: &mut Pass,
    context: &CallContext,
    bias: &Revocation,
) -> Progress<()>
    requires heap { IsOf heap.now pass.old }
    requires object { bias.now.object < length heap.now.heap.shape.objects }
    requires due { IsDueOn heap.now pass.old context.now.task
        (unbias_steps heap.now.heap.shape context.now (start_now heap.now pass.old) bias.now) }
    ensures { HasMadeSteps heap.now (unbias_steps heap.now.heap.shape context.now (start_now heap.now pass.old) bias.now)
        pass.old pass.new result }
{
    if pass.requesting() {
        return revoked(heap, pass, context, bias, true);
    }
    unbias_first(heap, pass, context, bias)
}
