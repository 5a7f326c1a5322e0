//! A call that makes an object.
ghost use Rattle.std.specs.Prelude.{◌≡◌, ◌<◌, ℕ, length, true, Ok};
ghost use Rattle.plain_monitor.specs.Limits.{most_made};
ghost use Rattle.core_world.specs.declared.heap_call.HeapCall.TheVariants.{Create};
ghost use Rattle.core_world.specs.Threads.ThreadView.{local_of};
ghost use Rattle.core_world.specs.Threads.References.{has_reference};
ghost use Rattle.core_world.specs.Trees.CreateSteps.{count_made, next_made, make_steps};
ghost use Rattle.core_world.specs.Trees.Operations.{create_steps};
ghost use Rattle.core_calls.specs.Paths.{Tells};
ghost use Rattle.core_calls.specs.CallsSay.{CreateSays};
ghost use Rattle.heap_table.specs.Parts.{IsDueOn, HasMadeSteps};
ghost use Rattle.heap_table.specs.Resting.{MayOperate, Rests, start_now};
ghost use Rattle.heap_table.specs.Seen.{IsOf};
ghost use Rattle.lock_runtime.specs.Standing.{RunsOrSame};

use crate::contexts::{alone, unfinished};
use core_world::{HeapCall, Operation, Stage, TooMany, WordId};
use heap_table::{Heap, Pass};
use plain_monitor::Entry;
use plain_monitor::limits::MADE;

// The number of the object that the thread makes next: the declared objects come first, and then each thread has its own numbers.
fn next_object(heap: &Heap, pass: &Pass) -> u32
    requires heap { IsOf heap.now pass.now }
    requires room { count_made (local_of pass.now.known) < most_made }
    ensures { result ≡ next_made heap.now.heap.shape (local_of pass.now.known) }
{
    let first = heap.shape().declared() + MADE * pass.thread();
    first + pass.made() as u32
}

// The three steps. The operation is unfinished from the second on.
fn make(heap: &Heap, pass: &mut Pass, object: u32, class: u32)
    requires heap { IsOf heap.now pass.old }
    requires room { length pass.old.known.log < pass.old.limit }
    requires due { IsDueOn heap.now pass.old (Create class) (make_steps object class) }
    ensures { HasMadeSteps heap.now (make_steps object class) pass.old pass.new object }
{
    let task = HeapCall::Create { class };
    let prototype = heap.load(
        pass,
        &alone(task),
        Stage::Settled,
        WordId::Prototype { class },
    );
    let context = unfinished(task, Operation::Create, object);
    let word = u64::from(class) + 1;
    heap.store(
        pass,
        &context,
        Stage::Settled,
        WordId::Class { object },
        word,
    );
    let entry = Entry::New { object, class };
    let at = WordId::Mark { object };
    heap.log_store(pass, &context, Stage::Settled, at, prototype, entry);
}

/// Makes an object of the class, the thread's next one, and answers its number.
///
/// It makes three steps: the load of the class's prototype, the store of the object's class word, and the store of
/// its first mark, which logs the object's New. It is never pending.
///
/// # Errors
///
/// `TooMany` exactly where the thread has made 1,024 objects. Then no step is made.
///
/// In OpenJDK 8: `CollectedHeap::post_allocation_setup` (`collectedHeap.inline.hpp`).
pub fn create(heap: &Heap, pass: &mut Pass, class: u32) -> Result<u32, TooMany>
    requires { MayOperate heap.now pass.old (Create class) }
    ensures rests { Rests heap.now pass.new }
    ensures run { HasMadeSteps heap.now (create_steps heap.now.heap.shape (start_now heap.now pass.old) class)
        pass.old pass.new result }
    ensures says { Tells pass.old.known pass.new.known
        (λ ms. CreateSays heap.now.heap.shape (start_now heap.now pass.old) class ms result) }
    ensures stands { RunsOrSame pass.old.known pass.new.known result }
    ensures made { (o : ℕ) → result ≡ Ok o → has_reference heap.now.heap.shape pass.new.known o ≡ true }
{
    let made = pass.made();
    if made >= u64::from(MADE) {
        return Err(TooMany);
    }
    let object = next_object(heap, pass);
    make(heap, pass, object, class);
    Ok(object)
}
