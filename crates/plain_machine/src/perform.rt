//! The instructions that call.

ghost use Rattle.std.specs.Prelude.{◌≡◌, ◌<◌};
ghost use Rattle.object_program.specs.Limits.{most_code};
ghost use Rattle.plain_machine.specs.Thread.{ThreadState, on_object, enters, owner_only, on_slot, dumps_next, makes_next, Calls};
ghost use Rattle.plain_machine.specs.Next.{meant, IsReadyNext};
ghost use Rattle.plain_machine.specs.Ready.{HasRoomFor};
ghost use Rattle.plain_machine.specs.inner.OwnerCalls.{owner_call};
ghost use Rattle.plain_machine.specs.declared.monitor_call.MonitorCall.TheVariants as call;
ghost use Rattle.plain_monitor.specs.declared.entry.Fault.TheVariants as fault;

use crate::actor::Actor;
use crate::code::slots_of;
use crate::monitor_call::MonitorCall;
use crate::step::{Next, fault};
use object_program::Program;
use plain_monitor::limits::{HOLDS, MADE};
use plain_monitor::{Fault, Value};

/// An enter, of at most so many holds as a thread may have.
pub fn enter<T: Actor>(thread: &T, value: Value) -> Next
    requires { (T.state thread.now).place < most_code }
    ensures next { on_object (T.state thread.now) value (enters (T.state thread.now))
        ≡ meant (T.state thread.now) result }
    ensures ready { IsReadyNext (T.state thread.now) result }
{
    let Value::Ref(object) = value else {
        return fault(thread, Fault::NotRef);
    };
    if thread.depth() >= HOLDS {
        return fault(thread, Fault::TooDeep);
    }
    Next::Calls {
        call: MonitorCall::Enter { object },
    }
}

/// What only the owner may do: a thread that has no hold on the object faults.
fn owner_only<T: Actor>(thread: &T, object: u32, otherwise: Fault, call: MonitorCall) -> Next
    requires place { (T.state thread.now).place < most_code }
    requires room { HasRoomFor (T.state thread.now) call }
    ensures next { owner_only (T.state thread.now) object otherwise (Calls call) ≡ meant (T.state thread.now) result }
    ensures ready { IsReadyNext (T.state thread.now) result }
{
    if thread.holds(object) < 1 {
        return fault(thread, otherwise);
    }
    Next::Calls { call }
}

/// A call on an object that only its owner may make.
#[derive(Clone, Copy)]
pub enum OwnerCall {
    Exit,
    Wait,
    Notify,
    NotifyAll,
}

impl OwnerCall {
    /// The call on this object.
    fn on(self, object: u32) -> MonitorCall
        ensures call { result ≡ owner_call self object }
        ensures room { (s : ThreadState) → HasRoomFor s result }
    {
        match self {
            OwnerCall::Exit => MonitorCall::Exit { object },
            OwnerCall::Wait => MonitorCall::Wait { object },
            OwnerCall::Notify => MonitorCall::Notify { object },
            OwnerCall::NotifyAll => MonitorCall::NotifyAll { object },
        }
    }
}

/// An exit, a wait, a notify or a notify of all.
pub fn of_owner<T: Actor>(thread: &T, value: Value, wish: OwnerCall) -> Next
    requires { (T.state thread.now).place < most_code }
    ensures next { on_object (T.state thread.now) value
        (λ o. owner_only (T.state thread.now) o fault.IllegalMonitorState (Calls (owner_call wish o)))
        ≡ meant (T.state thread.now) result }
    ensures ready { IsReadyNext (T.state thread.now) result }
{
    match value {
        Value::Ref(object) => {
            owner_only(thread, object, Fault::IllegalMonitorState, wish.on(object))
        }
        _ => fault(thread, Fault::NotRef),
    }
}

/// What reads or writes slot k of an object.
fn on_slot<T: Actor>(program: &Program, thread: &T, object: u32, k: u32, call: MonitorCall) -> Next
    requires place { (T.state thread.now).place < most_code }
    requires room { HasRoomFor (T.state thread.now) call }
    ensures next { on_slot program.now (T.state thread.now) object k call ≡ meant (T.state thread.now) result }
    ensures ready { IsReadyNext (T.state thread.now) result }
{
    if k >= slots_of(program, object) {
        return fault(thread, Fault::Range);
    }
    owner_only(thread, object, Fault::Unguarded, call)
}

/// A read of slot k into x.
pub fn get<T: Actor>(program: &Program, thread: &T, x: u32, value: Value, k: u32) -> Next
    requires { (T.state thread.now).place < most_code }
    ensures next { on_object (T.state thread.now) value
        (λ o. on_slot program.now (T.state thread.now) o k (call.Get x o k))
        ≡ meant (T.state thread.now) result }
    ensures ready { IsReadyNext (T.state thread.now) result }
{
    let Value::Ref(object) = value else {
        return fault(thread, Fault::NotRef);
    };
    let call = MonitorCall::Get {
        local: x,
        object,
        slot: k,
    };
    on_slot(program, thread, object, k, call)
}

/// A write of a value to slot k.
pub fn put<T: Actor>(program: &Program, thread: &T, value: Value, k: u32, written: Value) -> Next
    requires { (T.state thread.now).place < most_code }
    ensures next { on_object (T.state thread.now) value
        (λ o. on_slot program.now (T.state thread.now) o k (call.Put o k written))
        ≡ meant (T.state thread.now) result }
    ensures ready { IsReadyNext (T.state thread.now) result }
{
    let Value::Ref(object) = value else {
        return fault(thread, Fault::NotRef);
    };
    let call = MonitorCall::Put {
        object,
        slot: k,
        value: written,
    };
    on_slot(program, thread, object, k, call)
}

/// A wish for the object's hash.
pub fn hash<T: Actor>(thread: &T, x: u32, value: Value) -> Next
    requires { (T.state thread.now).place < most_code }
    ensures next { on_object (T.state thread.now) value (λ o. Calls (call.Hash x o))
        ≡ meant (T.state thread.now) result }
    ensures ready { IsReadyNext (T.state thread.now) result }
{
    match value {
        Value::Ref(object) => Next::Calls {
            call: MonitorCall::Hash { local: x, object },
        },
        _ => fault(thread, Fault::NotRef),
    }
}

/// A new object of class c, which x then refers to, of at most so many as a thread may make.
pub fn create<T: Actor>(thread: &T, x: u32, c: u32) -> Next
    requires { (T.state thread.now).place < most_code }
    ensures next { makes_next (T.state thread.now) x c ≡ meant (T.state thread.now) result }
    ensures ready { IsReadyNext (T.state thread.now) result }
{
    if thread.made() >= MADE {
        return fault(thread, Fault::TooMany);
    }
    Next::Calls {
        call: MonitorCall::New { local: x, class: c },
    }
}

/// A print of the value.
pub fn print<T: Actor>(thread: &T, value: Value) -> Next
    requires { (T.state thread.now).place < most_code }
    ensures next { Calls (call.Print value) ≡ meant (T.state thread.now) result }
    ensures ready { IsReadyNext (T.state thread.now) result }
{
    Next::Calls {
        call: MonitorCall::Print { value },
    }
}

/// A dump, of at most 4.
pub fn dump<T: Actor>(thread: &T) -> Next
    requires { (T.state thread.now).place < most_code }
    ensures next { dumps_next (T.state thread.now) ≡ meant (T.state thread.now) result }
    ensures ready { IsReadyNext (T.state thread.now) result }
{
    if thread.dumps() >= 4 {
        return fault(thread, Fault::TooManyDumps);
    }
    Next::Calls {
        call: MonitorCall::Dump {
            number: thread.dumps() + 1,
        },
    }
}
