//! An object by its parts, so that it can be kept in another form and made again.

ghost use Rattle.std.specs.Prelude.{◌≡◌, ◌++◌, ◌∷◌, [], OnOk};
ghost use Rattle.plain_monitor.specs.Objects.{new_object};

use crate::object::Object;
use plain_monitor::{NoMemory, Value};

impl Object {
    /// The values of its slots.
    pub fn slots(&self) -> &[Value]
        ensures { result.now ≡ self.now.slots }
    {
        self.slots.as_slice()
    }

    /// Makes it an object without slots, with a free monitor and no hash. It keeps its room.
    pub fn clear(&mut self)
        ensures { self.new ≡ new_object 0 }
    {
        self.monitor.clear();
        self.slots.clear();
        self.hash = None;
    }

    /// Gives its monitor to the owner, who has entered this often, or to nobody.
    pub fn give(&mut self, owner: Option<u32>, count: u32)
        ensures { self.new ≡ record self.old { monitor = record self.old.monitor { owner = owner; count = count } } }
    {
        self.monitor.give(owner, count);
    }

    /// Its hash becomes this one.
    pub fn set_hash(&mut self, hash: Option<u32>)
        ensures { self.new ≡ record self.old { hash = hash } }
    {
        self.hash = hash;
    }

    /// Puts a thread with its count last among those who wait on it.
    ///
    /// # Errors
    ///
    /// `NoMemory` where an allocation fails.
    pub fn add_waiting(&mut self, t: u32, count: u32) -> Result<(), NoMemory>
        ensures { OnOk result (self.new
            ≡ record self.old { monitor = record self.old.monitor { waits = self.old.monitor.waits ++ (t, count) ∷ [] } }) }
    {
        self.monitor.add_waiting(t, count)
    }

    /// Puts a thread with its count last among those who were notified.
    ///
    /// # Errors
    ///
    /// `NoMemory` where an allocation fails.
    pub fn add_called(&mut self, t: u32, count: u32) -> Result<(), NoMemory>
        ensures { OnOk result (self.new
            ≡ record self.old { monitor = record self.old.monitor { called = self.old.monitor.called ++ (t, count) ∷ [] } }) }
    {
        self.monitor.add_called(t, count)
    }

    /// One more slot, with this value.
    ///
    /// # Errors
    ///
    /// `NoMemory` where an allocation fails.
    pub fn add_slot(&mut self, value: Value) -> Result<(), NoMemory>
        ensures { OnOk result (self.new ≡ record self.old { slots = self.old.slots ++ value ∷ [] }) }
    {
        self.slots.push(value).map_err(|_| NoMemory)
    }
}
