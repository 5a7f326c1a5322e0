//! A monitor by its parts, so that it can be kept in another form and made again.

ghost use Rattle.std.specs.Prelude.{◌≡◌, ◌+◌, ◌≤◌, ◌++◌, ◌∷◌, [], length, OnOk, OnErr};
ghost use Rattle.plain_monitor.specs.Monitor.{free_monitor};

use crate::monitor::Monitor;
use crate::refusal::NoMemory;
use crate::waiters;

impl Monitor {
    /// The threads that wait, oldest first, each with its count.
    pub fn all_waiting(&self) -> &[(u32, u32)]
        ensures { result.now ≡ self.now.plain.waits }
    {
        self.waits.as_slice()
    }

    /// The threads that were notified and haven't the monitor again, each with its count.
    pub fn all_called(&self) -> &[(u32, u32)]
        ensures { result.now ≡ self.now.plain.called }
    {
        self.called.as_slice()
    }

    /// Makes it free, with nobody waiting. It keeps its room.
    pub fn clear(&mut self)
        ensures plain { self.new.plain ≡ free_monitor }
        ensures spare { self.new.spare ≡ self.old.spare + length self.old.plain.waits + length self.old.plain.called }
    {
        let used = self.waits.len() + self.called.len();
        self.owner = None;
        self.count = 0;
        self.waits.clear();
        self.called.clear();
        self.spare += used as u32;
    }

    /// Gives it to the owner, who has entered this often, or to nobody.
    pub fn give(&mut self, owner: Option<u32>, count: u32)
        ensures plain { self.new.plain ≡ record self.old.plain { owner = owner; count = count } }
        ensures spare { self.new.spare ≡ self.old.spare }
    {
        self.owner = owner;
        self.count = count;
    }

    /// Puts a thread with its count last among those who wait.
    ///
    /// # Errors
    ///
    /// `NoMemory` where an allocation fails. Then the monitor is as it was.
    pub fn add_waiting(&mut self, t: u32, count: u32) -> Result<(), NoMemory>
        ensures plain { OnOk result (self.new.plain
            ≡ record self.old.plain { waits = self.old.plain.waits ++ (t, count) ∷ [] }) }
        ensures spare { OnOk result (self.old.spare ≤ self.new.spare + 1) }
        ensures err { OnErr result (self.new ≡ self.old) }
    {
        self.reserve(1)?;
        waiters::add(&mut self.waits, t, count);
        self.spare -= 1;
        Ok(())
    }

    /// Puts a thread with its count last among those who were notified.
    ///
    /// # Errors
    ///
    /// `NoMemory` where an allocation fails. Then the monitor is as it was.
    pub fn add_called(&mut self, t: u32, count: u32) -> Result<(), NoMemory>
        ensures plain { OnOk result (self.new.plain
            ≡ record self.old.plain { called = self.old.plain.called ++ (t, count) ∷ [] }) }
        ensures spare { OnOk result (self.old.spare ≤ self.new.spare + 1) }
        ensures err { OnErr result (self.new ≡ self.old) }
    {
        self.reserve(1)?;
        waiters::add(&mut self.called, t, count);
        self.spare -= 1;
        Ok(())
    }
}
