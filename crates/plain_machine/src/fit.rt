//! Which entries a thread asks for.

ghost use Rattle.std.specs.Prelude.{◌≡◌, ℕ, true, false, Some, IfNone, IfSome};
ghost use Rattle.plain_monitor.specs.Objects.{same_value};
ghost use Rattle.plain_machine.specs.declared.monitor_call.MonitorCall.TheVariants as call;
ghost use Rattle.plain_monitor.specs.declared.entry.Ending.TheVariants as ending;
ghost use Rattle.plain_machine.specs.Asking.{ask, fits, is_call, is_exit, is_resume, is_ending, fault_number};
ghost use Rattle.plain_machine.specs.Sound.{ThreadIsReady};
ghost use Rattle.plain_machine.specs.Ready.{IsReadyToAsk};

use crate::monitor_call::{MonitorCall, NextEntry};
use crate::thread::Thread;
use plain_monitor::{Ending, Entry, Fault, Value};

/// What the thread asks, where the entry is that; None where it asks for something else, or for nothing.
pub fn asked_for(thread: &Thread, entry: &Entry) -> Option<NextEntry>
    requires { ThreadIsReady thread.now }
    ensures asked { IfSome result (λ asked. ask thread.now ≡ Some asked) }
    ensures fits { IfSome result (λ asked. fits asked entry.now ≡ true) }
    ensures ready { IfSome result (λ asked. IsReadyToAsk thread.now asked) }
    ensures other { IfNone result (IfSome (ask thread.now) (λ asked. fits asked entry.now ≡ false)) }
{
    let asked = thread.asked()?;
    if fits(asked, entry) {
        return Some(asked);
    }
    None
}

/// Whether the entry is what is asked.
fn fits(asked: NextEntry, entry: &Entry) -> bool
    ensures { result ≡ fits asked entry.now }
{
    match asked {
        NextEntry::Calls { call } => is_call(call, entry),
        NextEntry::Resumes { object } => is_resume(object, entry),
        NextEntry::Leaves { object } => is_exit(object, entry),
        NextEntry::Ends { ending } => is_ending(ending, entry),
    }
}

/// Whether the entry is this call.
fn is_call(call: MonitorCall, entry: &Entry) -> bool
    ensures { result ≡ is_call call entry.now }
{
    match call {
        MonitorCall::Enter { object } => is_enter(object, entry),
        MonitorCall::Exit { object } => is_exit(object, entry),
        MonitorCall::Wait { object } => is_wait(object, entry),
        MonitorCall::Notify { object } => is_notify(object, entry),
        MonitorCall::NotifyAll { object } => is_notify_all(object, entry),
        MonitorCall::Get { object, slot, .. } => is_get(object, slot, entry),
        MonitorCall::Put {
            object,
            slot,
            value,
        } => is_put(object, slot, value, entry),
        MonitorCall::Hash { object, .. } => is_hash(object, entry),
        MonitorCall::New { class, .. } => is_new(class, entry),
        MonitorCall::Print { value } => is_print(value, entry),
        MonitorCall::Dump { number } => is_dump(number, entry),
    }
}

fn is_enter(object: u32, entry: &Entry) -> bool
    ensures { result ≡ is_call (call.Enter object) entry.now }
{
    match entry {
        Entry::Enter {
            object: entered,
            ..
        } => object == *entered,
        _ => false,
    }
}

fn is_exit(object: u32, entry: &Entry) -> bool
    ensures exit { result ≡ is_exit object entry.now }
    ensures call { result ≡ is_call (call.Exit object) entry.now }
{
    match entry {
        Entry::Exit { object: left } => object == *left,
        _ => false,
    }
}

fn is_wait(object: u32, entry: &Entry) -> bool
    ensures { result ≡ is_call (call.Wait object) entry.now }
{
    match entry {
        Entry::Wait { object: waited } => object == *waited,
        _ => false,
    }
}

fn is_resume(object: u32, entry: &Entry) -> bool
    ensures { result ≡ is_resume object entry.now }
{
    match entry {
        Entry::Resume { object: resumed } => object == *resumed,
        _ => false,
    }
}

fn is_notify(object: u32, entry: &Entry) -> bool
    ensures { result ≡ is_call (call.Notify object) entry.now }
{
    match entry {
        Entry::Notify {
            object: notified,
            ..
        } => object == *notified,
        _ => false,
    }
}

fn is_notify_all(object: u32, entry: &Entry) -> bool
    ensures { result ≡ is_call (call.NotifyAll object) entry.now }
{
    match entry {
        Entry::NotifyAll {
            object: notified,
            ..
        } => object == *notified,
        _ => false,
    }
}

fn is_get(object: u32, slot: u32, entry: &Entry) -> bool
    ensures { (local : ℕ) → result ≡ is_call (call.Get local object slot) entry.now }
{
    match entry {
        Entry::Get {
            object: read,
            slot: at,
            ..
        } => object == *read && slot == *at,
        _ => false,
    }
}

fn is_put(object: u32, slot: u32, value: Value, entry: &Entry) -> bool
    ensures { result ≡ is_call (call.Put object slot value) entry.now }
{
    match entry {
        Entry::Put {
            object: written,
            slot: at,
            value: put,
        } => object == *written && slot == *at && same_value(value, *put),
        _ => false,
    }
}

fn is_hash(object: u32, entry: &Entry) -> bool
    ensures { (local : ℕ) → result ≡ is_call (call.Hash local object) entry.now }
{
    match entry {
        Entry::Hash { object: hashed, .. } => object == *hashed,
        _ => false,
    }
}

fn is_new(class: u32, entry: &Entry) -> bool
    ensures { (local : ℕ) → result ≡ is_call (call.New local class) entry.now }
{
    match entry {
        Entry::New { class: made, .. } => class == *made,
        _ => false,
    }
}

fn is_print(value: Value, entry: &Entry) -> bool
    ensures { result ≡ is_call (call.Print value) entry.now }
{
    match entry {
        Entry::Print { value: printed } => same_value(value, *printed),
        _ => false,
    }
}

fn is_dump(number: u32, entry: &Entry) -> bool
    ensures { result ≡ is_call (call.Dump number) entry.now }
{
    match entry {
        Entry::Dump { number: dumped } => number == *dumped,
        _ => false,
    }
}

/// Whether the values are the same.
pub fn same_value(value: Value, other: Value) -> bool
    ensures { result ≡ same_value value other }
{
    match (value, other) {
        (Value::Nil, Value::Nil) => true,
        (Value::Int(n), Value::Int(m)) => n == m,
        (Value::Ref(n), Value::Ref(m)) => n == m,
        _ => false,
    }
}

/// Whether the entry is this ending.
fn is_ending(ending: Ending, entry: &Entry) -> bool
    ensures { result ≡ is_ending ending entry.now }
{
    match ending {
        Ending::Trap { fault, index } => is_trap(fault, index, entry),
        Ending::Spent => matches!(entry, Entry::Spent),
        Ending::Done => matches!(entry, Entry::Done),
    }
}

fn is_trap(fault: Fault, index: u32, entry: &Entry) -> bool
    ensures { result ≡ is_ending (ending.Trap fault index) entry.now }
{
    match entry {
        Entry::Trap {
            fault: met,
            index: at,
        } => { fault_number(fault) == fault_number(*met) && index == *at }
        _ => false,
    }
}

fn fault_number(fault: Fault) -> u32
    ensures { result ≡ fault_number fault }
{
    match fault {
        Fault::IllegalMonitorState => 0,
        Fault::Unguarded => 1,
        Fault::NotRef => 2,
        Fault::NotInt => 3,
        Fault::Range => 4,
        Fault::Overflow => 5,
        Fault::TooDeep => 6,
        Fault::TooManyDumps => 7,
        Fault::TooMany => 8,
    }
}
