//! Bulk operations: the biases of all objects of a class are made invalid, or revoked.
ghost use Rattle.std.specs.Prelude.{◌≡◌, ◌<◌, length, Some};
ghost use Rattle.core_world.specs.Trees.RevocationSteps.{take_bias_steps, bulk_rebias_steps, bulk_revoke_steps};
ghost use Rattle.core_world.specs.Trees.RevocationSteps.{store_steps, revoke_steps};
ghost use Rattle.heap_table.specs.Parts.{IsDueOn, HasMadeSteps};
ghost use Rattle.heap_table.specs.Seen.{IsOf};
ghost use Rattle.safepoint_work.specs.inner.RevokeParts.{renewed_steps, rebiased_steps, raised_steps};
ghost use Rattle.safepoint_work.specs.inner.RevokeParts.{unbiased_steps, neutral_steps};

use crate::revocation::Revocation;
use crate::revokes::revoke;
use crate::steps::{look, store_one};
use crate::visit::Visit;
use crate::walks::walk;
use core_world::WordId;
use heap_table::{CallContext, Heap, Pass, is_biased};
use mark_word::{MarkForm, encode};

// The thread takes the new bias in this epoch, where the object's mark is still biased. It answers whether it did.
fn take_bias(
    heap: &Heap,
    pass: &mut Pass,
    call: &CallContext,
    revocation: &Revocation,
    epoch: u8,
) -> bool
    requires heap { IsOf heap.now pass.old }
    requires epoch { epoch < 4 }
    requires due { IsDueOn heap.now pass.old call.now.task
        (take_bias_steps call.now revocation.now (Some epoch) pass.old.known.thread) }
    ensures { HasMadeSteps heap.now (take_bias_steps call.now revocation.now (Some epoch) pass.old.known.thread)
        pass.old pass.new result }
{
    let thread = pass.thread();
    let at = WordId::Mark {
        object: revocation.object,
    };
    let mark = look(heap, pass, call, revocation, at);
    if is_biased(mark) {
        let own = encode(&MarkForm::Biased {
            thread,
            epoch,
            age: 0,
        });
        store_one(heap, pass, call, revocation, at, own);
        return true;
    }
    false
}

// The object's own bias is revoked, and the thread takes a new one where one is allowed, in this epoch. It answers
// whether it did.
fn rebias(
    heap: &Heap,
    pass: &mut Pass,
    call: &CallContext,
    revocation: &Revocation,
    epoch: u8,
) -> bool
    requires heap { IsOf heap.now pass.old }
    requires object { revocation.now.object < length heap.now.heap.shape.objects }
    requires epoch { epoch < 4 }
    requires due { IsDueOn heap.now pass.old call.now.task
        (rebiased_steps call.now revocation.now epoch pass.old.known.thread) }
    ensures { HasMadeSteps heap.now (rebiased_steps call.now revocation.now epoch pass.old.known.thread)
        pass.old pass.new result }
{
    revoke(
        heap,
        pass,
        call,
        revocation,
        revocation.object,
        revocation.rebias,
    );
    if revocation.rebias {
        return take_bias(heap, pass, call, revocation, epoch);
    }
    false
}

// The marks of the class's objects that records name get this epoch, and then the object's own bias is revoked.
fn renew_class(
    heap: &Heap,
    pass: &mut Pass,
    call: &CallContext,
    revocation: &Revocation,
    class: u32,
    epoch: u8,
) -> bool
    requires heap { IsOf heap.now pass.old }
    requires object { revocation.now.object < length heap.now.heap.shape.objects }
    requires epoch { epoch < 4 }
    requires due { IsDueOn heap.now pass.old call.now.task
        (renewed_steps heap.now.heap.shape pass.old.known.thread class call.now revocation.now epoch) }
    ensures { HasMadeSteps heap.now
        (renewed_steps heap.now.heap.shape pass.old.known.thread class call.now revocation.now epoch)
        pass.old pass.new result }
{
    walk(heap, pass, call, revocation, class, Visit::Renew { epoch });
    rebias(heap, pass, call, revocation, epoch)
}

// The class's epoch, which was this one, is raised.
fn raise_epoch(
    heap: &Heap,
    pass: &mut Pass,
    call: &CallContext,
    revocation: &Revocation,
    class: u32,
    epoch: u8,
) -> bool
    requires heap { IsOf heap.now pass.old }
    requires object { revocation.now.object < length heap.now.heap.shape.objects }
    requires epoch { epoch < 4 }
    requires due { IsDueOn heap.now pass.old call.now.task
        (raised_steps heap.now.heap.shape pass.old.known.thread class call.now revocation.now epoch) }
    ensures { HasMadeSteps heap.now
        (raised_steps heap.now.heap.shape pass.old.known.thread class call.now revocation.now epoch)
        pass.old pass.new result }
{
    let next = (epoch + 1) % 4;
    let prototype = encode(&MarkForm::Anonymous {
        epoch: next,
        age: 0,
    });
    store_one(
        heap,
        pass,
        call,
        revocation,
        WordId::Prototype { class },
        prototype,
    );
    renew_class(heap, pass, call, revocation, class, next)
}

/// Makes the biases of all objects of the class invalid, whose epoch is this one: the class gets the next epoch, and so
/// do the marks of those objects that lock records name. Then the object's own bias is revoked, and where a new one is
/// allowed the thread takes it. It answers whether it did.
///
/// In OpenJDK 8: `bulk_revoke_or_rebias_at_safepoint` with `bulk_rebias` true (`biasedLocking.cpp`).
pub fn bulk_rebias(
    heap: &Heap,
    pass: &mut Pass,
    call: &CallContext,
    revocation: &Revocation,
    class: u32,
    epoch: u8,
) -> bool
    requires heap { IsOf heap.now pass.old }
    requires object { revocation.now.object < length heap.now.heap.shape.objects }
    requires epoch { epoch < 4 }
    requires due { IsDueOn heap.now pass.old call.now.task
        (bulk_rebias_steps heap.now.heap.shape pass.old.known.thread class call.now revocation.now (Some epoch)) }
    ensures { HasMadeSteps heap.now
        (bulk_rebias_steps heap.now.heap.shape pass.old.known.thread class call.now revocation.now (Some epoch))
        pass.old pass.new result }
{
    let at = WordId::LastBulk { class };
    store_one(heap, pass, call, revocation, at, revocation.moment);
    raise_epoch(heap, pass, call, revocation, class, epoch)
}

// The biases of the class's objects that records name are revoked, and then the object's own.
fn unbias_class(
    heap: &Heap,
    pass: &mut Pass,
    call: &CallContext,
    revocation: &Revocation,
    class: u32,
)
    requires heap { IsOf heap.now pass.old }
    requires object { revocation.now.object < length heap.now.heap.shape.objects }
    requires due { IsDueOn heap.now pass.old call.now.task
        (unbiased_steps heap.now.heap.shape class call.now revocation.now) }
    ensures { HasMadeSteps heap.now (unbiased_steps heap.now.heap.shape class call.now revocation.now)
        pass.old pass.new result }
{
    walk(heap, pass, call, revocation, class, Visit::Revoke);
    revoke(heap, pass, call, revocation, revocation.object, false)
}

// The class's prototype becomes neutral, so that no bias to it is valid.
fn end_epochs(heap: &Heap, pass: &mut Pass, call: &CallContext, revocation: &Revocation, class: u32)
    requires heap { IsOf heap.now pass.old }
    requires object { revocation.now.object < length heap.now.heap.shape.objects }
    requires due { IsDueOn heap.now pass.old call.now.task
        (neutral_steps heap.now.heap.shape class call.now revocation.now) }
    ensures { HasMadeSteps heap.now (neutral_steps heap.now.heap.shape class call.now revocation.now)
        pass.old pass.new result }
{
    let at = WordId::Prototype { class };
    store_one(heap, pass, call, revocation, at, 0b001);
    unbias_class(heap, pass, call, revocation, class)
}

/// Revokes the biases of all objects of the class: its prototype becomes neutral, so that no bias to it is valid, and
/// the biases of its objects that lock records name are revoked one by one. Then the object's own bias is revoked.
///
/// In OpenJDK 8: `bulk_revoke_or_rebias_at_safepoint` with `bulk_rebias` false (`biasedLocking.cpp`).
pub fn bulk_revoke(
    heap: &Heap,
    pass: &mut Pass,
    call: &CallContext,
    revocation: &Revocation,
    class: u32,
)
    requires heap { IsOf heap.now pass.old }
    requires object { revocation.now.object < length heap.now.heap.shape.objects }
    requires due { IsDueOn heap.now pass.old call.now.task
        (bulk_revoke_steps heap.now.heap.shape class call.now revocation.now) }
    ensures { HasMadeSteps heap.now (bulk_revoke_steps heap.now.heap.shape class call.now revocation.now)
        pass.old pass.new result }
{
    let at = WordId::LastBulk { class };
    store_one(heap, pass, call, revocation, at, revocation.moment);
    end_epochs(heap, pass, call, revocation, class)
}
