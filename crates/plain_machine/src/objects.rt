//! What entries do to the objects.

ghost use Rattle.std.specs.Prelude.{◌≡◌, OnOk, OnErr, Some, None};
ghost use Rattle.plain_monitor.specs.Objects.{take_entry};
ghost use Rattle.plain_monitor.specs.declared.entry.Path.TheVariants.{StackFirst};
ghost use Rattle.plain_monitor.specs.declared.entry.Entry.TheVariants as entry;
ghost use Rattle.plain_machine.specs.inner.Takable.{IsTakable};

use crate::object::Object;
use plain_monitor::{Entry, Refused, Value};

/// The objects take an entry of thread t, or it is refused, and they stay as they are.
pub fn take(objects: &mut [Object], t: u32, entry: &Entry) -> Result<(), Refused>
    requires { IsTakable objects.old t entry.now }
    ensures ok { OnOk result (take_entry objects.old t entry.now ≡ Some objects.new) }
    ensures refused { OnErr result (take_entry objects.old t entry.now ≡ None) }
    ensures unchanged { OnErr result (objects.new ≡ objects.old) }
{
    match entry {
        Entry::Enter { object, .. } => take_enter(objects, t, *object),
        Entry::Exit { object } => take_exit(objects, t, *object),
        Entry::Wait { object } => take_wait(objects, t, *object),
        Entry::Resume { object } => take_resume(objects, t, *object),
        Entry::Notify { object, woken } => take_notify(objects, t, *object, *woken),
        Entry::NotifyAll { object, woken } => take_notify_all(objects, t, *object, *woken),
        Entry::Get {
            object,
            slot,
            value,
        } => take_get(objects, t, *object, *slot, *value),
        Entry::Put {
            object,
            slot,
            value,
        } => take_put(objects, t, *object, *slot, *value),
        Entry::Hash { object, value, .. } => take_hash(objects, t, *object, *value),
        Entry::New { .. }
        | Entry::Print { .. }
        | Entry::Dump { .. }
        | Entry::Trap { .. }
        | Entry::Spent
        | Entry::Done => Ok(()),
    }
}

/// The objects after an enter of thread t.
fn take_enter(objects: &mut [Object], t: u32, object: u32) -> Result<(), Refused>
    requires { IsTakable objects.old t (entry.Enter object StackFirst) }
    ensures ok { OnOk result (take_entry objects.old t (entry.Enter object StackFirst) ≡ Some objects.new) }
    ensures refused { OnErr result (take_entry objects.old t (entry.Enter object StackFirst) ≡ None) }
    ensures unchanged { OnErr result (objects.new ≡ objects.old) }
{
    let at = object as usize;
    if at >= objects.len() {
        return Err(Refused);
    }
    objects[at].enter(t)
}

/// The objects after an exit of thread t.
fn take_exit(objects: &mut [Object], t: u32, object: u32) -> Result<(), Refused>
    ensures ok { OnOk result (take_entry objects.old t (entry.Exit object) ≡ Some objects.new) }
    ensures refused { OnErr result (take_entry objects.old t (entry.Exit object) ≡ None) }
    ensures unchanged { OnErr result (objects.new ≡ objects.old) }
{
    let at = object as usize;
    if at >= objects.len() {
        return Err(Refused);
    }
    objects[at].exit(t)
}

/// The objects after a wait of thread t.
fn take_wait(objects: &mut [Object], t: u32, object: u32) -> Result<(), Refused>
    requires { IsTakable objects.old t (entry.Wait object) }
    ensures ok { OnOk result (take_entry objects.old t (entry.Wait object) ≡ Some objects.new) }
    ensures refused { OnErr result (take_entry objects.old t (entry.Wait object) ≡ None) }
    ensures unchanged { OnErr result (objects.new ≡ objects.old) }
{
    let at = object as usize;
    if at >= objects.len() {
        return Err(Refused);
    }
    objects[at].wait(t)
}

/// The objects after a resume of thread t.
fn take_resume(objects: &mut [Object], t: u32, object: u32) -> Result<(), Refused>
    requires { IsTakable objects.old t (entry.Resume object) }
    ensures ok { OnOk result (take_entry objects.old t (entry.Resume object) ≡ Some objects.new) }
    ensures refused { OnErr result (take_entry objects.old t (entry.Resume object) ≡ None) }
    ensures unchanged { OnErr result (objects.new ≡ objects.old) }
{
    let at = object as usize;
    if at >= objects.len() {
        return Err(Refused);
    }
    objects[at].resume(t)
}

/// The objects after a notify of thread t.
fn take_notify(
    objects: &mut [Object],
    t: u32,
    object: u32,
    woken: Option<u32>,
) -> Result<(), Refused>
    ensures ok { OnOk result (take_entry objects.old t (entry.Notify object woken) ≡ Some objects.new) }
    ensures refused { OnErr result (take_entry objects.old t (entry.Notify object woken) ≡ None) }
    ensures unchanged { OnErr result (objects.new ≡ objects.old) }
{
    let at = object as usize;
    if at >= objects.len() {
        return Err(Refused);
    }
    objects[at].notify(t, woken)
}

/// The objects after a notify of all by thread t.
fn take_notify_all(objects: &mut [Object], t: u32, object: u32, woken: u32) -> Result<(), Refused>
    ensures ok { OnOk result (take_entry objects.old t (entry.NotifyAll object woken) ≡ Some objects.new) }
    ensures refused { OnErr result (take_entry objects.old t (entry.NotifyAll object woken) ≡ None) }
    ensures unchanged { OnErr result (objects.new ≡ objects.old) }
{
    let at = object as usize;
    if at >= objects.len() {
        return Err(Refused);
    }
    objects[at].notify_all(t, woken)
}

/// Whether thread t reads this value from the slot of the object.
fn take_get(objects: &[Object], t: u32, object: u32, slot: u32, value: Value) -> Result<(), Refused>
    ensures ok { OnOk result (take_entry objects.now t (entry.Get object slot value) ≡ Some objects.now) }
    ensures refused { OnErr result (take_entry objects.now t (entry.Get object slot value) ≡ None) }
{
    let at = object as usize;
    if at >= objects.len() || !objects[at].reads(t, slot, value) {
        return Err(Refused);
    }
    Ok(())
}

/// The objects after a write of thread t.
fn take_put(
    objects: &mut [Object],
    t: u32,
    object: u32,
    slot: u32,
    value: Value,
) -> Result<(), Refused>
    ensures ok { OnOk result (take_entry objects.old t (entry.Put object slot value) ≡ Some objects.new) }
    ensures refused { OnErr result (take_entry objects.old t (entry.Put object slot value) ≡ None) }
    ensures unchanged { OnErr result (objects.new ≡ objects.old) }
{
    let at = object as usize;
    if at >= objects.len() {
        return Err(Refused);
    }
    objects[at].put(t, slot, value)
}

/// The objects after a hash entry, whatever was drawn.
fn take_hash(objects: &mut [Object], t: u32, object: u32, value: u32) -> Result<(), Refused>
    ensures ok { OnOk result (take_entry objects.old t (entry.Hash object value None) ≡ Some objects.new) }
    ensures refused { OnErr result (take_entry objects.old t (entry.Hash object value None) ≡ None) }
    ensures unchanged { OnErr result (objects.new ≡ objects.old) }
{
    let at = object as usize;
    if at >= objects.len() {
        return Err(Refused);
    }
    objects[at].has_hash(value)
}
