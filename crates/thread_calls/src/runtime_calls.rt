//! The calls that make one entry each, by their passes. Those that are rare stand out of line, so that the frame of the others has no place for them.

ghost use Rattle.std.specs.Prelude.{◌≡◌, ◌+◌, ◌<◌, ◌≤◌, length, false};
ghost use Rattle.core_calls.specs.CallsSay.{is_full};
ghost use Rattle.core_calls.specs.Moments.{HasCalled};
ghost use Rattle.core_world.specs.declared.heap_call.HeapCall.TheVariants as task;
ghost use Rattle.heap_table.specs.Resting.{MayOperate, start_now};
ghost use Rattle.plain_history.specs.Known.{news};
ghost use Rattle.plain_machine.specs.declared.monitor_call.MonitorCall.TheVariants as call;
ghost use Rattle.plain_monitor.specs.Limits.{most_made};
ghost use Rattle.thread_calls.specs.inner.Made.{HasMade, Holds, IsRare, MayMake};
ghost use Rattle.thread_calls.specs.Timed.{StaysTimed};

use crate::run_context::RunContext;
use crate::timing::time_now;
use core_world::Progress;
use heap_table::{Heap, Pass};
use lock_runtime as runtime;
use plain_machine::MonitorCall;
use plain_monitor::{Entry, Value};
use run_io::Clock;

/// An enter, which is not refused, since the thread has fewer than 64 holds.
pub(crate) fn enter(heap: &Heap, pass: &mut Pass, object: u32, now: u64) -> Progress<Entry>
    requires may { MayOperate heap.now pass.old (task.Enter object now) }
    requires room { is_full (start_now heap.now pass.old) object ≡ false }
    ensures made { HasMade heap.now pass.old pass.new (call.Enter object) result }
    ensures called { HasCalled (task.Enter object now) pass.old.known pass.new.known }
{
    match runtime::enter(heap, pass, object, now) {
        Ok(progress) => match progress {
            Progress::Done(path) => Progress::Done(Entry::Enter { object, path }),
            Progress::Pending(why) => Progress::Pending(why),
        },
        Err(_) => unreachable!(),
    }
}

/// An exit of an object that the thread holds.
pub(crate) fn exit(heap: &Heap, pass: &mut Pass, object: u32) -> Progress<Entry>
    requires may { MayOperate heap.now pass.old (task.Exit object) }
    requires holds { Holds pass.old object }
    ensures made { HasMade heap.now pass.old pass.new (call.Exit object) result }
    ensures called { HasCalled (task.Exit object) pass.old.known pass.new.known }
{
    match runtime::exit_held(heap, pass, object) {
        Progress::Done(()) => Progress::Done(Entry::Exit { object }),
        Progress::Pending(why) => Progress::Pending(why),
    }
}

// A notify, on an object that the thread holds.
#[inline(never)]
fn notify(heap: &Heap, pass: &mut Pass, object: u32, now: u64) -> Progress<Entry>
    requires may { MayOperate heap.now pass.old (task.Notify object now) }
    requires holds { Holds pass.old object }
    ensures made { HasMade heap.now pass.old pass.new (call.Notify object) result }
    ensures called { HasCalled (task.Notify object now) pass.old.known pass.new.known }
{
    match runtime::notify(heap, pass, object, now) {
        Ok(progress) => match progress {
            Progress::Done(woken) => Progress::Done(Entry::Notify { object, woken }),
            Progress::Pending(why) => Progress::Pending(why),
        },
        Err(_) => unreachable!(),
    }
}

// A notify of all, on an object that the thread holds.
#[inline(never)]
fn notify_all(heap: &Heap, pass: &mut Pass, object: u32, now: u64) -> Progress<Entry>
    requires may { MayOperate heap.now pass.old (task.NotifyAll object now) }
    requires holds { Holds pass.old object }
    ensures made { HasMade heap.now pass.old pass.new (call.NotifyAll object) result }
    ensures called { HasCalled (task.NotifyAll object now) pass.old.known pass.new.known }
{
    match runtime::notify_all(heap, pass, object, now) {
        Ok(progress) => match progress {
            Progress::Done(woken) => Progress::Done(Entry::NotifyAll { object, woken }),
            Progress::Pending(why) => Progress::Pending(why),
        },
        Err(_) => unreachable!(),
    }
}

/// A get from a slot of an object that the thread holds, for this local.
pub(crate) fn get(
    heap: &Heap,
    pass: &mut Pass,
    local: u32,
    object: u32,
    slot: u32,
) -> Progress<Entry>
    requires may { MayOperate heap.now pass.old (task.Get object slot) }
    requires holds { Holds pass.old object }
    ensures made { HasMade heap.now pass.old pass.new (call.Get local object slot) result }
    ensures called { HasCalled (task.Get object slot) pass.old.known pass.new.known }
{
    let value = runtime::get_held(heap, pass, object, slot);
    Progress::Done(Entry::Get {
        object,
        slot,
        value,
    })
}

/// A put into a slot of an object that the thread holds.
pub(crate) fn put(
    heap: &Heap,
    pass: &mut Pass,
    object: u32,
    slot: u32,
    value: Value,
) -> Progress<Entry>
    requires may { MayOperate heap.now pass.old (task.Put object slot value) }
    requires holds { Holds pass.old object }
    ensures made { HasMade heap.now pass.old pass.new (call.Put object slot value) result }
    ensures called { HasCalled (task.Put object slot value) pass.old.known pass.new.known }
{
    runtime::put_held(heap, pass, object, slot, value);
    Progress::Done(Entry::Put {
        object,
        slot,
        value,
    })
}

// A hash, for this local. Whether it was drawn is in the log alone: no frame asks for that.
#[inline(never)]
fn hash(heap: &Heap, pass: &mut Pass, local: u32, object: u32, now: u64) -> Progress<Entry>
    requires may { MayOperate heap.now pass.old (task.Hash object now) }
    ensures made { HasMade heap.now pass.old pass.new (call.Hash local object) result }
    ensures called { HasCalled (task.Hash object now) pass.old.known pass.new.known }
{
    match runtime::hash(heap, pass, object, now) {
        Progress::Done(value) => Progress::Done(Entry::Hash {
            object,
            value,
            drawn: None,
        }),
        Progress::Pending(why) => Progress::Pending(why),
    }
}

// A new object, for this local: the thread's next one. It is not refused, since the thread has made fewer than 1,024.
#[inline(never)]
fn create(heap: &Heap, pass: &mut Pass, local: u32, class: u32) -> Progress<Entry>
    requires may { MayOperate heap.now pass.old (task.Create class) }
    requires room { length (news pass.old.known.log) < most_made }
    ensures made { HasMade heap.now pass.old pass.new (call.New local class) result }
    ensures called { HasCalled (task.Create class) pass.old.known pass.new.known }
{
    match runtime::create(heap, pass, class) {
        Ok(object) => Progress::Done(Entry::New { object, class }),
        Err(_) => unreachable!(),
    }
}

// A print.
fn print(heap: &Heap, pass: &mut Pass, value: Value) -> Progress<Entry>
    requires may { MayOperate heap.now pass.old (task.Print value) }
    ensures made { HasMade heap.now pass.old pass.new (call.Print value) result }
    ensures called { HasCalled (task.Print value) pass.old.known pass.new.known }
{
    runtime::print(heap, pass, value);
    Progress::Done(Entry::Print { value })
}

// The thread's dump with this number.
#[inline(never)]
fn dump(heap: &Heap, pass: &mut Pass, number: u32) -> Progress<Entry>
    requires may { MayOperate heap.now pass.old task.Dump }
    requires number { number ≡ length pass.old.known.shots + 1 }
    requires room { number ≤ 4 }
    ensures made { HasMade heap.now pass.old pass.new (call.Dump number) result }
    ensures called { HasCalled task.Dump pass.old.known pass.new.known }
{
    match runtime::dump(heap, pass) {
        Ok(progress) => match progress {
            Progress::Done(number) => Progress::Done(Entry::Dump { number }),
            Progress::Pending(why) => Progress::Pending(why),
        },
        Err(_) => unreachable!(),
    }
}

/// Makes the call, which may begin and isn't refused, and is none of those that have a place of their own where calls are made. Calls that
/// need a moment get the clock's time now, in milliseconds, by the run's `tick`.
pub(crate) fn call_runtime<C: Clock>(
    run: &RunContext<C>,
    pass: &mut Pass,
    call: MonitorCall,
) -> Progress<Entry>
    requires may { MayMake run.now.heap.now pass.old call }
    requires rare { IsRare call }
    ensures made { HasMade run.now.heap.now pass.old pass.new call result }
    ensures timed { StaysTimed run.now.tick pass.old pass.new }
{
    match call {
        MonitorCall::Enter { .. } => unreachable!(),
        MonitorCall::Exit { .. } => unreachable!(),
        MonitorCall::Wait { .. } => unreachable!(),
        MonitorCall::Notify { object } => notify(
            run.heap,
            pass,
            object,
            time_now(run.clock, run.tick),
        ),
        MonitorCall::NotifyAll { object } => notify_all(
            run.heap,
            pass,
            object,
            time_now(run.clock, run.tick),
        ),
        MonitorCall::Get { .. } => unreachable!(),
        MonitorCall::Put { .. } => unreachable!(),
        MonitorCall::Hash { local, object } => {
            hash(run.heap, pass, local, object, time_now(run.clock, run.tick))
        }
        MonitorCall::New { local, class } => create(run.heap, pass, local, class),
        MonitorCall::Print { value } => print(run.heap, pass, value),
        MonitorCall::Dump { number } => dump(run.heap, pass, number),
    }
}
