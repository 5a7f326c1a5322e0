//! Calls that make one entry at once: slots, prints and the end of a thread.
ghost use Rattle.std.specs.Prelude.{◌≡◌, ◌≤◌, true, Ok};
ghost use Rattle.plain_history.specs.HeldByLog.{held_by, nothing_held};
ghost use Rattle.core_world.specs.declared.heap_call.HeapCall.TheVariants.{Get, Put, Print, Finish};
ghost use Rattle.core_world.specs.Trees.Operations.{get_steps, put_steps, print_steps, finish_steps};
ghost use Rattle.core_calls.specs.Paths.{Tells};
ghost use Rattle.core_calls.specs.CallsSay.{GetSays, PutSays, PrintSays, FinishSays};
ghost use Rattle.heap_table.specs.Parts.{HasMadeSteps};
ghost use Rattle.heap_table.specs.Resting.{MayOperate, Rests, start_now};
ghost use Rattle.lock_runtime.specs.Standing.{IsRunning, RunsOrSame};
ghost use Rattle.lock_runtime.specs.Refusals.{IsRefusedUnheld};
ghost use Rattle.plain_monitor.specs.declared.entry.Value.{Value};
ghost use Rattle.core_world.specs.Trees.Calls.{is_value};

use crate::contexts::alone;
use core_world::{HeapCall, Stage, Unguarded, WordId};
use heap_table::{Heap, Pass, value_of_word};
use mark_word::{WaitForm, encode_wait};
use object_monitor::publish;
use plain_monitor::{Ending, Entry, Value, ending_entry, value_word};

/// Loads the value of the object's slot, by one load, which logs a Get with it.
///
/// # Errors
///
/// `Unguarded` exactly where the thread has no hold on the object. Then no step is made.
#[inline(always)]
pub fn get(heap: &Heap, pass: &mut Pass, object: u32, slot: u32) -> Result<Value, Unguarded>
    requires { MayOperate heap.now pass.old (Get object slot) }
    ensures rests { Rests heap.now pass.new }
    ensures run { HasMadeSteps heap.now (get_steps (start_now heap.now pass.old) object slot) pass.old pass.new result }
    ensures says { Tells pass.old.known pass.new.known
        (λ ms. GetSays (start_now heap.now pass.old) object slot ms result) }
    ensures stands { RunsOrSame pass.old.known pass.new.known result }
    ensures owner { IsRefusedUnheld pass.old.known.log object result }
    ensures value { (v : Value) → result ≡ Ok v → is_value heap.now.heap.shape v ≡ true }
{
    if pass.held(object) == 0 {
        return Err(Unguarded);
    }
    Ok(get_held(heap, pass, object, slot))
}

/// Loads the value of the object's slot, as `get` does, where the thread has a hold on the object by its log. Whoever
/// calls has looked for that, so the hold words are not looked through again.
#[inline(always)]
pub fn get_held(heap: &Heap, pass: &mut Pass, object: u32, slot: u32) -> Value
    requires may { MayOperate heap.now pass.old (Get object slot) }
    requires held { 1 ≤ held_by nothing_held pass.old.known.log object }
    ensures rests { Rests heap.now pass.new }
    ensures run { HasMadeSteps heap.now (get_steps (start_now heap.now pass.old) object slot)
        pass.old pass.new (Ok result) }
    ensures says { Tells pass.old.known pass.new.known
        (λ ms. GetSays (start_now heap.now pass.old) object slot ms (Ok result)) }
    ensures stands { IsRunning pass.new.known }
    ensures value { is_value heap.now.heap.shape result ≡ true }
{
    let context = alone(HeapCall::Get { object, slot });
    let word = heap.log_get(pass, &context, object, slot);
    value_of_word(word)
}

/// Stores the value in the object's slot, by one store, which logs a Put with it.
///
/// # Errors
///
/// `Unguarded` exactly where the thread has no hold on the object. Then no step is made.
#[inline(always)]
pub fn put(
    heap: &Heap,
    pass: &mut Pass,
    object: u32,
    slot: u32,
    value: Value,
) -> Result<(), Unguarded>
    requires { MayOperate heap.now pass.old (Put object slot value) }
    ensures rests { Rests heap.now pass.new }
    ensures run { HasMadeSteps heap.now (put_steps (start_now heap.now pass.old) object slot value)
        pass.old pass.new result }
    ensures says { Tells pass.old.known pass.new.known
        (λ ms. PutSays (start_now heap.now pass.old) object slot value ms result) }
    ensures stands { RunsOrSame pass.old.known pass.new.known result }
    ensures owner { IsRefusedUnheld pass.old.known.log object result }
{
    if pass.held(object) == 0 {
        return Err(Unguarded);
    }
    put_held(heap, pass, object, slot, value);
    Ok(())
}

/// Stores the value in the object's slot, as `put` does, where the thread has a hold on the object by its log. Whoever
/// calls has looked for that, so the hold words are not looked through again.
#[inline(always)]
pub fn put_held(heap: &Heap, pass: &mut Pass, object: u32, slot: u32, value: Value)
    requires may { MayOperate heap.now pass.old (Put object slot value) }
    requires held { 1 ≤ held_by nothing_held pass.old.known.log object }
    ensures rests { Rests heap.now pass.new }
    ensures run { HasMadeSteps heap.now (put_steps (start_now heap.now pass.old) object slot value)
        pass.old pass.new (Ok result) }
    ensures says { Tells pass.old.known pass.new.known
        (λ ms. PutSays (start_now heap.now pass.old) object slot value ms (Ok result)) }
    ensures stands { IsRunning pass.new.known }
{
    let context = alone(HeapCall::Put {
        object,
        slot,
        value,
    });
    let entry = Entry::Put {
        object,
        slot,
        value,
    };
    let at = WordId::Slot { object, slot };
    heap.log_store(
        pass,
        &context,
        Stage::Settled,
        at,
        value_word(&value),
        entry,
    );
}

/// Logs a Print of the value.
pub fn print(heap: &Heap, pass: &mut Pass, value: Value)
    requires { MayOperate heap.now pass.old (Print value) }
    ensures rests { Rests heap.now pass.new }
    ensures run { HasMadeSteps heap.now (print_steps (start_now heap.now pass.old) value) pass.old pass.new result }
    ensures says { Tells pass.old.known pass.new.known (λ ms. PrintSays value ms result) }
    ensures stands { IsRunning pass.new.known }
{
    let context = alone(HeapCall::Print { value });
    publish(heap, pass, &context, Entry::Print { value })
}

/// Ends the thread, which has no holds: logs how it ended, and says so in its waiting word. It may be stopped and
/// resumed afterwards.
pub fn finish(heap: &Heap, pass: &mut Pass, ending: Ending)
    requires { MayOperate heap.now pass.old (Finish ending) }
    ensures rests { Rests heap.now pass.new }
    ensures run { HasMadeSteps heap.now (finish_steps (start_now heap.now pass.old) ending) pass.old pass.new result }
    ensures says { Tells pass.old.known pass.new.known (λ ms. FinishSays ending ms result) }
    ensures stands { IsRunning pass.new.known }
{
    let context = alone(HeapCall::Finish { ending });
    publish(heap, pass, &context, ending_entry(ending));
    let at = WordId::Waiting {
        thread: pass.thread(),
    };
    heap.store(
        pass,
        &context,
        Stage::Settled,
        at,
        encode_wait(&WaitForm::Ended),
    );
}
