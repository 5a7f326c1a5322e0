//! The calls on a pass, by their tasks.
ghost use Rattle.std.specs.Prelude.{◌≡◌, None};
ghost use Rattle.core_world.specs.declared.heap_call.HeapCall.TheVariants as task;
ghost use Rattle.heap_table.specs.Resting.{MayCall, MayOperate, Rests};
ghost use Rattle.lock_runtime_c.specs.LogRoom.{KeepsRoom};
ghost use Rattle.lock_runtime_c.specs.Told.{barred, IsMade, Told};
ghost use Rattle.lock_runtime_c.specs.inner.MayMake.{MayMake};

use crate::outcome::{Outcome, Said};
use crate::reasons::{first_reason, is_full};
use crate::told::{checked, dumped, entered, got, hashed, owned, stored, turned, woke, woke_all};
use core_world::HeapCall;
use heap_table::{Heap, Pass};
use lock_runtime as runtime;
use plain_monitor::{Ending, Value};

#[inline(always)]
fn enter(heap: &Heap, pass: &mut Pass, object: u32, now: u64) -> Outcome
    requires { MayOperate heap.now pass.old (task.Enter object now) }
    ensures rests { Rests heap.now pass.new }
    ensures limit { pass.new.limit ≡ pass.old.limit }
    ensures made { IsMade heap.now (task.Enter object now) pass.old pass.new result }
{
    entered(runtime::enter(heap, pass, object, now))
}

#[inline(always)]
fn exit(heap: &Heap, pass: &mut Pass, object: u32) -> Outcome
    requires { MayOperate heap.now pass.old (task.Exit object) }
    ensures rests { Rests heap.now pass.new }
    ensures limit { pass.new.limit ≡ pass.old.limit }
    ensures made { IsMade heap.now (task.Exit object) pass.old pass.new result }
{
    owned(runtime::exit(heap, pass, object))
}

fn wait(heap: &Heap, pass: &mut Pass, object: u32, now: u64) -> Outcome
    requires { MayOperate heap.now pass.old (task.Wait object now) }
    ensures rests { Rests heap.now pass.new }
    ensures limit { pass.new.limit ≡ pass.old.limit }
    ensures made { IsMade heap.now (task.Wait object now) pass.old pass.new result }
{
    owned(runtime::wait(heap, pass, object, now))
}

fn notify(heap: &Heap, pass: &mut Pass, object: u32, now: u64) -> Outcome
    requires { MayOperate heap.now pass.old (task.Notify object now) }
    ensures rests { Rests heap.now pass.new }
    ensures limit { pass.new.limit ≡ pass.old.limit }
    ensures made { IsMade heap.now (task.Notify object now) pass.old pass.new result }
{
    woke(runtime::notify(heap, pass, object, now))
}

fn notify_all(heap: &Heap, pass: &mut Pass, object: u32, now: u64) -> Outcome
    requires { MayOperate heap.now pass.old (task.NotifyAll object now) }
    ensures rests { Rests heap.now pass.new }
    ensures limit { pass.new.limit ≡ pass.old.limit }
    ensures made { IsMade heap.now (task.NotifyAll object now) pass.old pass.new result }
{
    woke_all(runtime::notify_all(heap, pass, object, now))
}

fn hash(heap: &Heap, pass: &mut Pass, object: u32, now: u64) -> Outcome
    requires { MayOperate heap.now pass.old (task.Hash object now) }
    ensures rests { Rests heap.now pass.new }
    ensures limit { pass.new.limit ≡ pass.old.limit }
    ensures made { IsMade heap.now (task.Hash object now) pass.old pass.new result }
{
    hashed(runtime::hash(heap, pass, object, now))
}

/// A get that may begin.
#[inline(always)]
pub fn get(heap: &Heap, pass: &mut Pass, object: u32, slot: u32) -> Outcome
    requires { MayOperate heap.now pass.old (task.Get object slot) }
    ensures rests { Rests heap.now pass.new }
    ensures limit { pass.new.limit ≡ pass.old.limit }
    ensures made { IsMade heap.now (task.Get object slot) pass.old pass.new result }
{
    got(runtime::get(heap, pass, object, slot))
}

/// A put that may begin.
#[inline(always)]
pub fn put(heap: &Heap, pass: &mut Pass, object: u32, slot: u32, value: Value) -> Outcome
    requires { MayOperate heap.now pass.old (task.Put object slot value) }
    ensures rests { Rests heap.now pass.new }
    ensures limit { pass.new.limit ≡ pass.old.limit }
    ensures made { IsMade heap.now (task.Put object slot value) pass.old pass.new result }
{
    stored(runtime::put(heap, pass, object, slot, value))
}

fn print(heap: &Heap, pass: &mut Pass, value: Value) -> Outcome
    requires { MayOperate heap.now pass.old (task.Print value) }
    ensures rests { Rests heap.now pass.new }
    ensures limit { pass.new.limit ≡ pass.old.limit }
    ensures made { IsMade heap.now (task.Print value) pass.old pass.new result }
{
    runtime::print(heap, pass, value);
    Outcome::Done(Said::Nothing)
}

fn dump(heap: &Heap, pass: &mut Pass) -> Outcome
    requires { MayOperate heap.now pass.old task.Dump }
    ensures rests { Rests heap.now pass.new }
    ensures limit { pass.new.limit ≡ pass.old.limit }
    ensures made { IsMade heap.now task.Dump pass.old pass.new result }
{
    dumped(runtime::dump(heap, pass))
}

fn finish(heap: &Heap, pass: &mut Pass, ending: Ending) -> Outcome
    requires { MayOperate heap.now pass.old (task.Finish ending) }
    ensures rests { Rests heap.now pass.new }
    ensures limit { pass.new.limit ≡ pass.old.limit }
    ensures made { IsMade heap.now (task.Finish ending) pass.old pass.new result }
{
    runtime::finish(heap, pass, ending);
    Outcome::Done(Said::Nothing)
}

#[inline(always)]
fn poll(heap: &Heap, pass: &mut Pass) -> Outcome
    requires { MayCall heap.now pass.old task.Poll }
    ensures rests { Rests heap.now pass.new }
    ensures limit { pass.new.limit ≡ pass.old.limit }
    ensures made { IsMade heap.now task.Poll pass.old pass.new result }
{
    turned(runtime::poll(heap, pass))
}

fn stop(heap: &Heap, pass: &mut Pass) -> Outcome
    requires { MayCall heap.now pass.old task.Stop }
    ensures rests { Rests heap.now pass.new }
    ensures limit { pass.new.limit ≡ pass.old.limit }
    ensures made { IsMade heap.now task.Stop pass.old pass.new result }
{
    runtime::stop(heap, pass);
    Outcome::Done(Said::Nothing)
}

fn resume(heap: &Heap, pass: &mut Pass) -> Outcome
    requires { MayCall heap.now pass.old task.Resume }
    ensures rests { Rests heap.now pass.new }
    ensures limit { pass.new.limit ≡ pass.old.limit }
    ensures made { IsMade heap.now task.Resume pass.old pass.new result }
{
    turned(runtime::resume(heap, pass))
}

fn check_stuck(heap: &Heap, pass: &mut Pass) -> Outcome
    requires { MayCall heap.now pass.old task.Check }
    ensures rests { Rests heap.now pass.new }
    ensures limit { pass.new.limit ≡ pass.old.limit }
    ensures made { IsMade heap.now task.Check pass.old pass.new result }
{
    checked(runtime::check_stuck(heap, pass))
}

// What can't begin: a misuse, or the log has no room for it.
#[inline(always)]
fn barred(heap: &Heap, pass: &Pass, task: HeapCall) -> Option<Outcome>
    requires { Rests heap.now pass.now }
    ensures why { result ≡ barred heap.now pass.now task }
    ensures may { result ≡ None → MayMake heap.now pass.now task }
{
    match first_reason(heap, pass, task) {
        Some(why) => Some(Outcome::Misused(why)),
        None => {
            if is_full(pass, task) {
                Some(Outcome::Full)
            } else {
                None
            }
        }
    }
}

// The call of this task, which may begin.
#[inline(never)]
fn begin(heap: &Heap, pass: &mut Pass, task: HeapCall) -> Outcome
    requires { MayMake heap.now pass.old task }
    ensures rests { Rests heap.now pass.new }
    ensures limit { pass.new.limit ≡ pass.old.limit }
    ensures made { IsMade heap.now task pass.old pass.new result }
{
    match task {
        HeapCall::Poll => poll(heap, pass),
        HeapCall::Stop => stop(heap, pass),
        HeapCall::Resume => resume(heap, pass),
        HeapCall::Check => check_stuck(heap, pass),
        HeapCall::Enter { object, now } => enter(heap, pass, object, now),
        HeapCall::Exit { object } => exit(heap, pass, object),
        HeapCall::Wait { object, now } => wait(heap, pass, object, now),
        HeapCall::Notify { object, now } => notify(heap, pass, object, now),
        HeapCall::NotifyAll { object, now } => notify_all(heap, pass, object, now),
        HeapCall::Hash { object, now } => hash(heap, pass, object, now),
        HeapCall::Get { object, slot } => get(heap, pass, object, slot),
        HeapCall::Put {
            object,
            slot,
            value,
        } => put(heap, pass, object, slot, value),
        HeapCall::Print { value } => print(heap, pass, value),
        HeapCall::Dump => dump(heap, pass),
        HeapCall::Finish { ending } => finish(heap, pass, ending),
        HeapCall::Create { .. }
        | HeapCall::StackEnter { .. }
        | HeapCall::StackExit { .. }
        | HeapCall::Request
        | HeapCall::Reached
        | HeapCall::Release => unreachable!(),
    }
}

/// A call on a pass. A `HeapCall` is the call of that task. An export that should have the code of one call alone makes it by a type of
/// its own.
pub trait PassCall: Copy {
    ghost use Rattle.core_world.specs.declared.heap_call.HeapCall.{HeapCall};

    /// The call's task.
    ghost task: { Self → HeapCall };

    /// The call's task.
    fn task(&self) -> HeapCall
        ensures { result ≡ task self.now };

    /// Makes the call, which may begin.
    fn begin(self, heap: &Heap, pass: &mut Pass) -> Outcome
        requires { MayMake heap.now pass.old (task self) }
        ensures rests { Rests heap.now pass.new }
        ensures limit { pass.new.limit ≡ pass.old.limit }
        ensures made { IsMade heap.now (task self) pass.old pass.new result };
}

impl PassCall for HeapCall {
    ghost task = { λ t. t };

    fn task(&self) -> HeapCall {
        *self
    }

    fn begin(self, heap: &Heap, pass: &mut Pass) -> Outcome {
        begin(heap, pass, self)
    }
}

/// An enter of this object, at this time.
#[derive(Clone, Copy)]
pub struct EnterCall {
    pub object: u32,
    pub now: u64,
}

impl PassCall for EnterCall {
    ghost task = { λ c. task.Enter c.object c.now };

    #[inline(always)]
    fn task(&self) -> HeapCall {
        HeapCall::Enter {
            object: self.object,
            now: self.now,
        }
    }

    #[inline(always)]
    fn begin(self, heap: &Heap, pass: &mut Pass) -> Outcome {
        enter(heap, pass, self.object, self.now)
    }
}

/// An exit of this object.
#[derive(Clone, Copy)]
pub struct ExitCall {
    pub object: u32,
}

impl PassCall for ExitCall {
    ghost task = { λ c. task.Exit c.object };

    #[inline(always)]
    fn task(&self) -> HeapCall {
        HeapCall::Exit {
            object: self.object,
        }
    }

    #[inline(always)]
    fn begin(self, heap: &Heap, pass: &mut Pass) -> Outcome {
        exit(heap, pass, self.object)
    }
}

/// A get of this slot, from 0, of this object.
#[derive(Clone, Copy)]
pub struct GetCall {
    pub object: u32,
    pub slot: u32,
}

impl PassCall for GetCall {
    ghost task = { λ c. task.Get c.object c.slot };

    #[inline(always)]
    fn task(&self) -> HeapCall {
        HeapCall::Get {
            object: self.object,
            slot: self.slot,
        }
    }

    #[inline(always)]
    fn begin(self, heap: &Heap, pass: &mut Pass) -> Outcome {
        get(heap, pass, self.object, self.slot)
    }
}

/// A put of this value into this slot, from 0, of this object.
#[derive(Clone, Copy)]
pub struct PutCall {
    pub object: u32,
    pub slot: u32,
    pub value: Value,
}

impl PassCall for PutCall {
    ghost task = { λ c. task.Put c.object c.slot c.value };

    #[inline(always)]
    fn task(&self) -> HeapCall {
        HeapCall::Put {
            object: self.object,
            slot: self.slot,
            value: self.value,
        }
    }

    #[inline(always)]
    fn begin(self, heap: &Heap, pass: &mut Pass) -> Outcome {
        put(heap, pass, self.object, self.slot, self.value)
    }
}

/// A poll.
#[derive(Clone, Copy)]
pub struct PollCall;

impl PassCall for PollCall {
    ghost task = { λ c. task.Poll };

    #[inline(always)]
    fn task(&self) -> HeapCall {
        HeapCall::Poll
    }

    #[inline(always)]
    fn begin(self, heap: &Heap, pass: &mut Pass) -> Outcome {
        poll(heap, pass)
    }
}

/// Makes the call, where it may begin.
#[inline(always)]
pub fn make<C: PassCall>(heap: &Heap, pass: &mut Pass, call: C) -> Outcome
    requires { Rests heap.now pass.old }
    ensures rests { Rests heap.now pass.new }
    ensures told { Told heap.now (C.task call) pass.old pass.new result }
    ensures room { KeepsRoom pass.old → KeepsRoom pass.new }
{
    match barred(heap, pass, call.task()) {
        Some(why) => why,
        None => call.begin(heap, pass),
    }
}
