//! The monitor of one object.

ghost use Rattle.std.specs.Prelude.{◌≡◌, ℕ, ◌+◌, ◌<◌, ◌≤◌, OnOk, OnErr, IfOk, Some, None, Option, length, slice_get, option_map};
ghost use Rattle.plain_monitor.specs.Monitor.{free_monitor, enter, exit, wait, resume, notify, notify_all, is_listed};

mod parts;

use crate::refusal::{NoMemory, Refused};
use crate::waiters;
use std::alloc::Global;
use std::marker::Model;

/// A recursive monitor with wait and notify, by a part of the Java Language Specification 8, 17.1 and 17.2. What it leaves out: a notify wakes the
/// thread that has waited longest, as HotSpot's does, where the specification lets it be any that waits (17.2.2); and nobody wakes but by a notify, so
/// there are no spurious wake-ups, no timed waits and no interrupts (17.2.1, 17.2.3).
///
/// Each call that changes it is the step of `specs/Monitor.antt` exactly where there is one; else it is `Refused` and nothing changes.
/// Contracts see the plain monitor and `spare`, the number of further threads for whose wait there is room.
#[derive(Drop)]
pub struct Monitor {
    owner: Option<u32>,
    count: u32,
    waits: Vec<(u32, u32)>,
    called: Vec<(u32, u32)>,
    spare: u32,
}

impl Model for Monitor {
    ghost use Rattle.plain_monitor.specs.Seen.{Seen};

    ghost Value = { Seen };

    ghost use Rattle.plain_monitor.specs.View.{seen, MonitorHasRoom};

    ghost view = { seen };

    ghost invariant = { MonitorHasRoom };
}

impl Monitor {
    /// Free, with nobody waiting and no room for a thread that waits. It takes no memory.
    pub fn new(alloc: Global) -> Monitor
        ensures plain { result.plain ≡ free_monitor }
        ensures spare { result.spare ≡ 0 }
    {
        Monitor {
            owner: None,
            count: 0,
            waits: Vec::new(alloc),
            called: Vec::new(alloc),
            spare: 0,
        }
    }

    /// Makes room for the waits of `n` further threads.
    ///
    /// # Errors
    ///
    /// `NoMemory` where an allocation fails. Then the monitor is as it was.
    pub fn reserve(&mut self, n: u32) -> Result<(), NoMemory>
        ensures plain { self.new.plain ≡ self.old.plain }
        ensures ok { OnOk result (n ≤ self.new.spare) }
        ensures kept { self.old.spare ≤ self.new.spare }
        ensures err { OnErr result (self.new ≡ self.old) }
    {
        if n <= self.spare {
            return Ok(());
        }
        let used = self.waits.len() + self.called.len();
        let room = n as usize;
        if used + room > u32::MAX as usize {
            return Err(NoMemory);
        }
        self.waits
            .reserve(self.called.len() + room)
            .map_err(|_| NoMemory)?;
        self.called
            .reserve(self.waits.len() + room)
            .map_err(|_| NoMemory)?;
        self.spare = n;
        Ok(())
    }

    /// Thread `t` takes the free monitor, or enters it once more.
    ///
    /// # Errors
    ///
    /// `Refused` exactly where another thread has it, or where it is free but `t` waits or was notified and didn't
    /// resume. Then the monitor is as it was.
    pub fn enter(&mut self, t: u32) -> Result<(), Refused>
        requires { self.old.plain.count < 4294967295 }
        ensures ok { OnOk result (enter self.old.plain t ≡ Some self.new.plain) }
        ensures refused { OnErr result (enter self.old.plain t ≡ None) }
        ensures unchanged { OnErr result (self.new ≡ self.old) }
        ensures spare { self.new.spare ≡ self.old.spare }
    {
        match self.owner {
            Some(owner) => {
                if owner != t {
                    return Err(Refused);
                }
                self.count += 1;
            }
            None => {
                if waiters::is_listed(&self.waits, t) || waiters::is_listed(&self.called, t) {
                    return Err(Refused);
                }
                self.owner = Some(t);
                self.count = 1;
            }
        }
        Ok(())
    }

    /// The owner leaves once, and with its last exit lets go.
    ///
    /// # Errors
    ///
    /// `Refused` exactly where `t` isn't the owner. Then the monitor is as it was.
    pub fn exit(&mut self, t: u32) -> Result<(), Refused>
        ensures ok { OnOk result (exit self.old.plain t ≡ Some self.new.plain) }
        ensures refused { OnErr result (exit self.old.plain t ≡ None) }
        ensures unchanged { OnErr result (self.new ≡ self.old) }
        ensures spare { self.new.spare ≡ self.old.spare }
    {
        if self.owner != Some(t) {
            return Err(Refused);
        }
        if self.count <= 1 {
            self.owner = None;
            self.count = 0;
        } else {
            self.count -= 1;
        }
        Ok(())
    }

    /// The owner goes last among those who wait, and lets go. Its count is kept.
    ///
    /// # Errors
    ///
    /// `Refused` exactly where `t` isn't the owner. Then the monitor is as it was.
    pub fn wait(&mut self, t: u32) -> Result<(), Refused>
        requires { 1 ≤ self.old.spare }
        ensures ok { OnOk result (wait self.old.plain t ≡ Some self.new.plain) }
        ensures refused { OnErr result (wait self.old.plain t ≡ None) }
        ensures unchanged { OnErr result (self.new ≡ self.old) }
        ensures spare { OnOk result (self.new.spare + 1 ≡ self.old.spare) }
    {
        if self.owner != Some(t) {
            return Err(Refused);
        }
        waiters::add(&mut self.waits, t, self.count);
        self.owner = None;
        self.count = 0;
        self.spare -= 1;
        Ok(())
    }

    /// A thread that was notified takes the free monitor with the count that it had.
    ///
    /// # Errors
    ///
    /// `Refused` exactly where some thread has it, or where `t` wasn't notified. Then the monitor is as it was.
    pub fn resume(&mut self, t: u32) -> Result<(), Refused>
        ensures ok { OnOk result (resume self.old.plain t ≡ Some self.new.plain) }
        ensures refused { OnErr result (resume self.old.plain t ≡ None) }
        ensures unchanged { OnErr result (self.new ≡ self.old) }
        ensures spare { OnOk result (self.new.spare ≡ self.old.spare + 1) }
    {
        if self.owner.is_some() {
            return Err(Refused);
        }
        let Some(count) = waiters::count_of(&self.called, t) else {
            return Err(Refused);
        };
        waiters::remove(&mut self.called, t);
        self.owner = Some(t);
        self.count = count;
        self.spare += 1;
        Ok(())
    }

    /// Notifies the oldest of those who wait, and answers who it is; `None` exactly where nobody waits.
    ///
    /// # Errors
    ///
    /// `Refused` exactly where `t` isn't the owner. Then the monitor is as it was.
    pub fn notify(&mut self, t: u32) -> Result<Option<u32>, Refused>
        ensures ok { IfOk result (λ woken. notify self.old.plain t woken ≡ Some self.new.plain) }
        ensures refused { OnErr result ((woken : Option ℕ) → notify self.old.plain t woken ≡ None) }
        ensures unchanged { OnErr result (self.new ≡ self.old) }
        ensures spare { self.new.spare ≡ self.old.spare }
    {
        if self.owner != Some(t) {
            return Err(Refused);
        }
        if self.waits.is_empty() {
            return Ok(None);
        }
        let (woken, count) = self.waits.remove(0);
        waiters::add(&mut self.called, woken, count);
        Ok(Some(woken))
    }

    /// Notifies all who wait, and answers how many.
    ///
    /// # Errors
    ///
    /// `Refused` exactly where `t` isn't the owner. Then the monitor is as it was.
    pub fn notify_all(&mut self, t: u32) -> Result<u32, Refused>
        ensures ok { IfOk result (λ woken. notify_all self.old.plain t woken ≡ Some self.new.plain) }
        ensures refused { OnErr result ((woken : ℕ) → notify_all self.old.plain t woken ≡ None) }
        ensures unchanged { OnErr result (self.new ≡ self.old) }
        ensures spare { self.new.spare ≡ self.old.spare }
    {
        if self.owner != Some(t) {
            return Err(Refused);
        }
        let woken = self.waits.len() as u32;
        waiters::add_all(&mut self.called, &mut self.waits);
        Ok(woken)
    }

    /// The thread that has the monitor. `None` exactly where it is free.
    pub fn owner(&self) -> Option<u32>
        ensures { result ≡ self.now.plain.owner }
    {
        self.owner
    }

    /// How often the owner has entered, less its exits; 0 where the monitor is free.
    pub fn count(&self) -> u32
        ensures { result ≡ self.now.plain.count }
    {
        self.count
    }

    /// The oldest of those who wait. `None` exactly where nobody waits.
    pub fn oldest(&self) -> Option<u32>
        ensures { result ≡ option_map (λ p. p.0) (slice_get self.now.plain.waits 0) }
    {
        match self.waits.get(0) {
            Some((thread, _)) => Some(*thread),
            None => None,
        }
    }

    /// How many wait.
    pub fn waiting(&self) -> u32
        ensures { result ≡ length self.now.plain.waits }
    {
        self.waits.len() as u32
    }

    /// Whether `t` waits and wasn't notified.
    pub fn waits(&self, t: u32) -> bool
        ensures { result ≡ is_listed self.now.plain.waits t }
    {
        waiters::is_listed(&self.waits, t)
    }

    /// Whether `t` was notified and hasn't the monitor again.
    pub fn called(&self, t: u32) -> bool
        ensures { result ≡ is_listed self.now.plain.called t }
    {
        waiters::is_listed(&self.called, t)
    }
}
