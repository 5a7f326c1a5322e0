//! The revocation of a bias at a reached safepoint, by the verdict on the object's class.
ghost use Rattle.std.specs.Prelude.{◌≡◌, ◌<◌, length, Some};
ghost use Rattle.core_world.specs.Trees.RevocationSteps.{verdict_steps, decided_steps, revoke_at_safepoint_steps};
ghost use Rattle.heap_table.specs.Parts.{IsDueOn, HasMadeSteps};
ghost use Rattle.heap_table.specs.Seen.{IsOf};

use crate::bulks::{bulk_rebias, bulk_revoke};
use crate::outcome::Outcome;
use crate::revocation::Revocation;
use crate::revokes::revoke;
use core_world::{LocalEffect, Stage, WordId};
use heap_table::{CallContext, Heap, Pass, class_epoch};
use lock_policy::{Verdict, decide, has_decayed};

// Does what the verdict says. It answers whether the thread gave itself a new bias.
fn carry_out(
    heap: &Heap,
    pass: &mut Pass,
    call: &CallContext,
    revocation: &Revocation,
    class: u32,
    epoch: u8,
    verdict: Verdict,
) -> bool
    requires heap { IsOf heap.now pass.old }
    requires object { revocation.now.object < length heap.now.heap.shape.objects }
    requires epoch { epoch < 4 }
    requires due { IsDueOn heap.now pass.old call.now.task
        (verdict_steps heap.now.heap.shape pass.old.known.thread class call.now revocation.now (Some epoch) verdict) }
    ensures { HasMadeSteps heap.now
        (verdict_steps heap.now.heap.shape pass.old.known.thread class call.now revocation.now (Some epoch) verdict)
        pass.old pass.new result }
{
    match verdict {
        Verdict::Single => {
            revoke(heap, pass, call, revocation, revocation.object, false);
            false
        }
        Verdict::BulkRebias => bulk_rebias(heap, pass, call, revocation, class, epoch),
        Verdict::BulkRevoke => {
            bulk_revoke(heap, pass, call, revocation, class);
            false
        }
    }
}

// Decides by the class's count and the moment of its last bulk operation, stores the new count, which counts the
// verdict, and carries the verdict out.
fn decide_and_revoke(
    heap: &Heap,
    pass: &mut Pass,
    call: &CallContext,
    revocation: &Revocation,
    class: u32,
    epoch: u8,
    count: u64,
    last: u64,
) -> Outcome
    requires heap { IsOf heap.now pass.old }
    requires object { revocation.now.object < length heap.now.heap.shape.objects }
    requires epoch { epoch < 4 }
    requires due { IsDueOn heap.now pass.old call.now.task (decided_steps
        heap.now.heap.shape pass.old.known.thread class call.now revocation.now (Some epoch) count last) }
    ensures { HasMadeSteps heap.now (decided_steps
        heap.now.heap.shape pass.old.known.thread class call.now revocation.now (Some epoch) count last)
        pass.old pass.new result }
{
    let moment = revocation.moment;
    let (verdict, new) = decide(count, last, moment);
    let reset = has_decayed(count, last, moment);
    let own = LocalEffect::CountVerdict {
        class,
        verdict,
        reset,
    };
    let at = WordId::Revocations { class };
    heap.store_and_keep(pass, call, revocation.stage(), own, at, new);
    let took = carry_out(heap, pass, call, revocation, class, epoch, verdict);
    Outcome { verdict, took }
}

/// Revokes the bias of the object at the thread's reached safepoint. The object is validly biased to a thread. `rebias`
/// says whether the thread may take a new bias to it, and `now` is the moment for the policy of bulk operations, in
/// milliseconds.
///
/// The class's count of revocations is stored anew, and the thread counts the verdict, which the answer has. `Single`:
/// the object's bias alone is revoked, so that it is locked by the records that its biased thread has of it, or neutral
/// where there are none. `BulkRebias`: the class gets its next epoch, which makes the biases of its objects invalid but
/// for those of the objects that lock records name; then the object's bias is revoked, and where `rebias` is true and
/// no record locks it, it is biased to this thread and `took` is true. `BulkRevoke`: the class's prototype becomes
/// neutral, and the biases of its objects that lock records name are revoked, and the object's. Where no new bias is
/// given, `took` is false.
///
/// In OpenJDK 8: `update_heuristics`, and the operations `VM_RevokeBias` and `VM_BulkRevokeBias`
/// (`biasedLocking.cpp`), which the VM thread carries out.
pub fn revoke_at_safepoint(
    heap: &Heap,
    pass: &mut Pass,
    call: &CallContext,
    object: u32,
    rebias: bool,
    now: u64,
) -> Outcome
    requires heap { IsOf heap.now pass.old }
    requires object { object < length heap.now.heap.shape.objects }
    requires due { IsDueOn heap.now pass.old call.now.task (revoke_at_safepoint_steps heap.now.heap.shape
        pass.old.known.thread call.now (record { object = object; rebias = rebias; now = now })) }
    ensures { HasMadeSteps heap.now (revoke_at_safepoint_steps heap.now.heap.shape
        pass.old.known.thread call.now (record { object = object; rebias = rebias; now = now }))
        pass.old pass.new result }
{
    heap.load(pass, call, Stage::Settled, WordId::Mark { object });
    let class = heap.class_of(pass, call, Stage::Settled, object);
    let prototype = heap.load(pass, call, Stage::Settled, WordId::Prototype { class });
    let count = heap.load(pass, call, Stage::Settled, WordId::Revocations { class });
    let last = heap.load(pass, call, Stage::Settled, WordId::LastBulk { class });
    let revocation = Revocation {
        object,
        rebias,
        moment: now,
    };
    match class_epoch(prototype) {
        Some(epoch) => decide_and_revoke(heap, pass, call, &revocation, class, epoch, count, last),
        None => unreachable!(),
    }
}
