//! An object: its monitor, its slots and its hash.

ghost use Rattle.std.specs.Prelude.{◌≡◌, ℕ, ◌+◌, ◌<◌, ◌≤◌, ◌&&◌, length, slice_get, slice_set, slice_index_or, nat_lt, false, OnOk, OnErr, IfOk, Some, None};
ghost use Rattle.plain_monitor.specs.Limits.{most_threads, most_holds};
ghost use Rattle.plain_monitor.specs.Monitor.{enter, exit, wait, resume, notify, notify_all, without, owns, only_if};
ghost use Rattle.plain_monitor.specs.Objects.{new_object, with_monitor, with_hash, has_value, hashed};
ghost use Rattle.plain_monitor.specs.declared.entry.Value.TheVariants.{Nil};

mod parts;

use crate::fit::same_value;
use plain_monitor::limits::THREADS;
use plain_monitor::{Monitor, NoMemory, Refused, Value};
use std::alloc::Global;
use std::marker::Model;

/// One past the greatest hash.
const HASHES: u32 = 1 << 31;

/// An object with room for every thread to wait on it. Contracts see the plain object. Each call that changes it is the step of
/// the plain object exactly where there is one; else it is `Refused` and nothing changes.
#[derive(Drop)]
pub struct Object {
    monitor: Monitor,
    slots: Vec<Value>,
    hash: Option<u32>,
}

impl Model for Object {
    ghost use Rattle.plain_monitor.specs.Objects.{PlainObject};

    ghost Value = { PlainObject };

    ghost use Rattle.plain_machine.specs.ObjectView.{plain_object, ObjectHasRoom};

    ghost view = { plain_object };

    ghost invariant = { ObjectHasRoom };
}

impl Object {
    /// An object with a free monitor, the number 0 in each of its slots, and no hash. It takes all memory that it
    /// will need.
    ///
    /// # Errors
    ///
    /// `NoMemory` where an allocation fails.
    pub fn new(alloc: Global, slots: u32) -> Result<Object, NoMemory>
        ensures { IfOk result (λ x. x ≡ new_object slots) }
    {
        let slots = vec![in alloc; Value::Int(0); slots as usize].map_err(|_| NoMemory)?;
        let mut monitor = Monitor::new(alloc);
        monitor.reserve(THREADS)?;
        Ok(Object {
            monitor,
            slots,
            hash: None,
        })
    }

    /// Its monitor.
    pub fn monitor(&self) -> &Monitor
        ensures { result.now.plain ≡ self.now.monitor }
    {
        &self.monitor
    }

    /// What the slot has; nil where there is no such slot.
    pub fn slot(&self, slot: u32) -> Value
        ensures { result ≡ slice_index_or self.now.slots slot Nil }
    {
        match self.slots.get(slot as usize) {
            Some(value) => *value,
            None => Value::Nil,
        }
    }

    /// Its hash, once it has one.
    pub fn hash(&self) -> Option<u32>
        ensures { result ≡ self.now.hash }
    {
        self.hash
    }

    /// The thread enters the monitor once more, where it may.
    pub fn enter(&mut self, t: u32) -> Result<(), Refused>
        requires { self.old.monitor.count ≤ most_holds }
        ensures ok { OnOk result (with_monitor self.old (enter self.old.monitor t) ≡ Some self.new) }
        ensures refused { OnErr result (with_monitor self.old (enter self.old.monitor t) ≡ None) }
        ensures unchanged { OnErr result (self.new ≡ self.old) }
    {
        self.monitor.enter(t)
    }

    /// The owner leaves the monitor once.
    pub fn exit(&mut self, t: u32) -> Result<(), Refused>
        ensures ok { OnOk result (with_monitor self.old (exit self.old.monitor t) ≡ Some self.new) }
        ensures refused { OnErr result (with_monitor self.old (exit self.old.monitor t) ≡ None) }
        ensures unchanged { OnErr result (self.new ≡ self.old) }
    {
        self.monitor.exit(t)
    }

    /// The owner lets go of the monitor and waits.
    pub fn wait(&mut self, t: u32) -> Result<(), Refused>
        requires { length self.old.monitor.waits + length self.old.monitor.called < most_threads }
        ensures ok { OnOk result (with_monitor self.old (wait self.old.monitor t) ≡ Some self.new) }
        ensures refused { OnErr result (with_monitor self.old (wait self.old.monitor t) ≡ None) }
        ensures unchanged { OnErr result (self.new ≡ self.old) }
    {
        self.monitor.wait(t)
    }

    /// A thread that was notified has the monitor again.
    pub fn resume(&mut self, t: u32) -> Result<(), Refused>
        requires { length self.old.monitor.called ≤ length (without self.old.monitor.called t) + 1 }
        ensures ok { OnOk result (with_monitor self.old (resume self.old.monitor t) ≡ Some self.new) }
        ensures refused { OnErr result (with_monitor self.old (resume self.old.monitor t) ≡ None) }
        ensures unchanged { OnErr result (self.new ≡ self.old) }
    {
        self.monitor.resume(t)
    }

    /// The owner notifies the oldest of those who wait, where that is the one that is woken here.
    pub fn notify(&mut self, t: u32, woken: Option<u32>) -> Result<(), Refused>
        ensures ok { OnOk result (with_monitor self.old (notify self.old.monitor t woken) ≡ Some self.new) }
        ensures refused { OnErr result (with_monitor self.old (notify self.old.monitor t woken) ≡ None) }
        ensures unchanged { OnErr result (self.new ≡ self.old) }
    {
        if self.monitor.oldest() != woken {
            return Err(Refused);
        }
        self.monitor.notify(t)?;
        Ok(())
    }

    /// The owner notifies all who wait, where they are as many as are woken here.
    pub fn notify_all(&mut self, t: u32, woken: u32) -> Result<(), Refused>
        ensures ok { OnOk result (with_monitor self.old (notify_all self.old.monitor t woken) ≡ Some self.new) }
        ensures refused { OnErr result (with_monitor self.old (notify_all self.old.monitor t woken) ≡ None) }
        ensures unchanged { OnErr result (self.new ≡ self.old) }
    {
        if self.monitor.waiting() != woken {
            return Err(Refused);
        }
        self.monitor.notify_all(t)?;
        Ok(())
    }

    fn is_owned_by(&self, t: u32) -> bool
        ensures { result ≡ owns self.now.monitor t }
    {
        match self.monitor.owner() {
            Some(owner) => owner == t,
            None => false,
        }
    }

    /// Whether the owner reads this value from the slot.
    pub fn reads(&self, t: u32, slot: u32, value: Value) -> bool
        ensures { result ≡ (owns self.now.monitor t && has_value (slice_get self.now.slots slot) value) }
    {
        match self.slots.get(slot as usize) {
            Some(held) => self.is_owned_by(t) && same_value(*held, value),
            None => false,
        }
    }

    /// The owner writes the value to the slot.
    pub fn put(&mut self, t: u32, slot: u32, value: Value) -> Result<(), Refused>
        ensures ok { OnOk result (only_if (owns self.old.monitor t && nat_lt slot (length self.old.slots))
            (record self.old { slots = slice_set self.old.slots slot value })
            ≡ Some self.new) }
        ensures refused { OnErr result ((owns self.old.monitor t && nat_lt slot (length self.old.slots)) ≡ false) }
        ensures unchanged { OnErr result (self.new ≡ self.old) }
    {
        let slot = slot as usize;
        if !self.is_owned_by(t) || slot >= self.slots.len() {
            return Err(Refused);
        }
        self.slots[slot] = value;
        Ok(())
    }

    /// The object has this hash: its first, or the same again.
    pub fn has_hash(&mut self, value: u32) -> Result<(), Refused>
        ensures ok { OnOk result (with_hash self.old (hashed self.old.hash value) ≡ Some self.new) }
        ensures refused { OnErr result (with_hash self.old (hashed self.old.hash value) ≡ None) }
        ensures unchanged { OnErr result (self.new ≡ self.old) }
    {
        match self.hash {
            Some(hash) => {
                if hash != value {
                    return Err(Refused);
                }
            }
            None => {
                if value < 1 || value >= HASHES {
                    return Err(Refused);
                }
                self.hash = Some(value);
            }
        }
        Ok(())
    }
}
