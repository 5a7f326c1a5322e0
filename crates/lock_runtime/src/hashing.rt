//! The call that hashes an object.
ghost use Rattle.std.specs.Prelude.{◌≡◌, ◌<◌, length};
ghost use Rattle.core_world.specs.declared.heap_call.HeapCall.TheVariants.{Hash};
ghost use Rattle.core_world.specs.Trees.Operations.{hash_steps};
ghost use Rattle.core_calls.specs.Paths.{Tells};
ghost use Rattle.core_calls.specs.CallsSay.{HashSays};
ghost use Rattle.heap_table.specs.Parts.{IsDueOn, HasMadeSteps};
ghost use Rattle.heap_table.specs.Resting.{MayOperate, Rests, start_now};
ghost use Rattle.heap_table.specs.Seen.{IsOf};
ghost use Rattle.lock_runtime.specs.inner.HashParts.{hash_unbiased, hash_going};
ghost use Rattle.lock_runtime.specs.Standing.{StandsAfterTurn};
ghost use Rattle.lock_runtime.specs.Others.{PendsForAnother};

use crate::contexts::unfinished;
use crate::revoking::unbias;
use core_world::{HeapCall, Operation, Progress};
use heap_table::{CallContext, Heap, Pass};
use identity_hash::header_hash;
use safepoint_work::Revocation;

// The object's mark has no bias pattern: the hash is found in its header, or drawn.
fn hash_unbiased(heap: &Heap, pass: &mut Pass, context: &CallContext, object: u32) -> Progress<u32>
    requires heap { IsOf heap.now pass.old }
    requires object { object < length heap.now.heap.shape.objects }
    requires due { IsDueOn heap.now pass.old context.now.task
        (hash_unbiased heap.now.heap.shape context.now (start_now heap.now pass.old) object) }
    requires room { length pass.old.known.log < pass.old.limit }
    ensures { HasMadeSteps heap.now (hash_unbiased heap.now.heap.shape context.now (start_now heap.now pass.old) object)
        pass.old pass.new result }
{
    let number = pass.draws() as u32 + 1;
    let value = pass.draw();
    header_hash(heap, pass, context, number, value, object)
}

// The object's bias is ended first, if it has one.
fn hash_going(
    heap: &Heap,
    pass: &mut Pass,
    context: &CallContext,
    object: u32,
    now: u64,
) -> Progress<u32>
    requires heap { IsOf heap.now pass.old }
    requires object { object < length heap.now.heap.shape.objects }
    requires due { IsDueOn heap.now pass.old context.now.task
        (hash_going heap.now.heap.shape context.now (start_now heap.now pass.old) object now) }
    requires room { length pass.old.known.log < pass.old.limit }
    ensures { HasMadeSteps heap.now (hash_going heap.now.heap.shape context.now (start_now heap.now pass.old) object now)
        pass.old pass.new result }
{
    let bias = Revocation {
        object,
        rebias: false,
        moment: now,
    };
    match unbias(heap, pass, context, &bias) {
        Progress::Done(()) => hash_unbiased(heap, pass, context, object),
        Progress::Pending(cause) => Progress::Pending(cause),
    }
}

/// The object's identity hash: the one that it has, or else the thread's next draw, which becomes its hash. `now` is the
/// moment for the policy of bulk operations, in milliseconds from 1: a bias of the object is ended first.
///
/// `Done(hash)` says that the object has this hash: the Hash is logged, as found in a header or with the number of the
/// thread's draw, and nothing is unfinished.
///
/// Pending, nothing is logged, no draw is spent, and the hash stays unfinished:
///
/// - `Raced { expected, found }`: an exchange of this call missed.
/// - `Inflating`: the loaded mark was 0, as another thread is inflating the lock.
/// - `Stopping { word }`: the thread's request for a safepoint stands, and by `word` another thread runs still.
/// - `Requested { word }`: by `word` another thread has a request.
///
/// In OpenJDK 8: `ObjectSynchronizer::FastHashCode` (`synchronizer.cpp`).
pub fn hash(heap: &Heap, pass: &mut Pass, object: u32, now: u64) -> Progress<u32>
    requires { MayOperate heap.now pass.old (Hash object now) }
    ensures rests { Rests heap.now pass.new }
    ensures run { HasMadeSteps heap.now (hash_steps heap.now.heap.shape (start_now heap.now pass.old) object now)
        pass.old pass.new result }
    ensures says { Tells pass.old.known pass.new.known (λ ms. HashSays (start_now heap.now pass.old) object ms result) }
    ensures stands { StandsAfterTurn pass.new.known result }
    ensures others { PendsForAnother pass.old.known.thread result }
{
    let context = unfinished(HeapCall::Hash { object, now }, Operation::Hash, object);
    hash_going(heap, pass, &context, object, now)
}
