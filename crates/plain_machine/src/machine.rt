//! The plain machine.

ghost use Rattle.std.specs.Prelude.{◌≡◌, ◌<◌, if◌then◌else◌, length, OnOk, OnErr, IfOk, Some, None};
ghost use Rattle.plain_machine.specs.Machine.{new_machine, take, class_at, object_at, monitor_at, slot_at, ending_of, ending_in, other_owner, wanted, is_blocked, is_waiting, is_barred, is_live, all_barred, is_stuck};
ghost use Rattle.plain_machine.specs.declared.monitor_call.MonitorCall.TheVariants as call;
ghost use Rattle.plain_machine.specs.Offering.{offered, call_offer, resume_offer, unless_owned, hash_offer, oldest};
ghost use Rattle.plain_monitor.specs.Monitor.{is_thread, is_listed};
ghost use Rattle.std.specs.List.{list_any};

mod parts;

use crate::advance::advance;
use crate::build::{new_objects, new_threads};
use crate::code::code_of;
use crate::fit::asked_for;
use crate::monitor_call::{Mode, MonitorCall, NextEntry};
use crate::object::Object;
use crate::objects;
use crate::offer::Offer;
use crate::register::Register;
use crate::thread::Thread;
use object_program::Program;
pub use parts::Parts;
use plain_monitor::{Ending, Entry, NoMemory, Path, Refused, Value, ending_entry};
use std::alloc::Global;
use std::marker::Model;

/// A program under way: its objects, and its threads, each before its next entry.
#[derive(Drop)]
pub struct Machine {
    program: Program,
    objects: Vec<Object>,
    register: Register,
    threads: Vec<Thread>,
}

impl Model for Machine {
    ghost use Rattle.plain_machine.specs.Machine.{PlainMachine};

    ghost Value = { PlainMachine };

    ghost use Rattle.plain_machine.specs.MachineView.{plain_machine, IsAllowed};

    ghost view = { plain_machine };

    ghost invariant = { IsAllowed };
}

impl Machine {
    /// Makes the machine before the first entry, where each thread has `fuel` units of fuel, one for each
    /// instruction. It keeps a copy of the program, and takes all memory that it will need.
    ///
    /// # Errors
    ///
    /// `NoMemory` where an allocation fails.
    pub fn new(alloc: Global, program: &Program, fuel: u32) -> Result<Machine, NoMemory>
        ensures { IfOk result (λ m. m ≡ new_machine program.now fuel) }
    {
        let program = program.try_clone(alloc)?;
        let objects = new_objects(alloc, &program)?;
        let register = Register::new(alloc, &program)?;
        let threads = new_threads(alloc, &program, objects.len() as u32, fuel)?;
        Ok(Machine {
            program,
            objects,
            register,
            threads,
        })
    }

    /// What thread t may do next: its next entry, with what the objects answer, or why there is none.
    pub fn offer(&self, t: u32) -> Offer
        requires { t < length self.now.threads }
        ensures { result ≡ offered self.now t }
    {
        match self.threads[t as usize].asked() {
            Some(NextEntry::Calls { call }) => self.offer_call(t, call),
            Some(NextEntry::Resumes { object }) => self.offer_resume(t, object),
            Some(NextEntry::Leaves { object }) => Offer::Next(Entry::Exit { object }),
            Some(NextEntry::Ends { ending }) => Offer::Next(ending_entry(ending)),
            None => Offer::Ended,
        }
    }

    /// What a thread that stands before the call is offered.
    fn offer_call(&self, t: u32, call: MonitorCall) -> Offer
        requires { t < length self.now.threads }
        ensures { result ≡ call_offer self.now t call }
    {
        match call {
            MonitorCall::Enter { object } => self.offer_enter(t, object),
            MonitorCall::Exit { object } => Offer::Next(Entry::Exit { object }),
            MonitorCall::Wait { object } => Offer::Next(Entry::Wait { object }),
            MonitorCall::Notify { object } => {
                let woken = self.oldest(object);
                Offer::Next(Entry::Notify { object, woken })
            }
            MonitorCall::NotifyAll { object } => {
                let woken = self.waiting(object);
                Offer::Next(Entry::NotifyAll { object, woken })
            }
            MonitorCall::Get { object, slot, .. } => {
                let value = self.value_of(object, slot);
                Offer::Next(Entry::Get {
                    object,
                    slot,
                    value,
                })
            }
            MonitorCall::Put {
                object,
                slot,
                value,
            } => Offer::Next(Entry::Put {
                object,
                slot,
                value,
            }),
            MonitorCall::Hash { object, .. } => hash_offer(object, self.hash_of(object)),
            MonitorCall::New { class, .. } => {
                let object = self.register.next_of(t);
                Offer::Next(Entry::New { object, class })
            }
            MonitorCall::Print { value } => Offer::Next(Entry::Print { value }),
            MonitorCall::Dump { number } => Offer::Next(Entry::Dump { number }),
        }
    }

    /// What a thread that enters the object is offered.
    fn offer_enter(&self, t: u32, object: u32) -> Offer
        ensures { result ≡ call_offer self.now t (call.Enter object) }
    {
        let path = Path::StackFirst;
        unless_owned(
            object,
            self.other_owner(object, t),
            Entry::Enter { object, path },
        )
    }

    /// What a thread that waits on the object is offered: nothing until it is notified.
    fn offer_resume(&self, t: u32, object: u32) -> Offer
        ensures { let m = monitor_at self.now object in result ≡ resume_offer m t object (other_owner m t) }
    {
        if self.waits_on(t, object) {
            return Offer::Waiting { object };
        }
        unless_owned(
            object,
            self.other_owner(object, t),
            Entry::Resume { object },
        )
    }

    /// Takes an entry of thread t.
    ///
    /// # Errors
    ///
    /// `Refused` exactly where the thread doesn't ask for the entry, an object isn't there that it needs, or the
    /// objects don't take it. Then the machine stays as it is.
    pub fn take(&mut self, t: u32, entry: &Entry) -> Result<(), Refused>
        requires { t < length self.old.threads }
        ensures ok { OnOk result (take self.old t entry.now ≡ Some self.new) }
        ensures refused { OnErr result (take self.old t entry.now ≡ None) }
        ensures unchanged { OnErr result (self.new ≡ self.old) }
        ensures threads { length self.new.threads ≡ length self.old.threads }
        ensures objects { length self.new.objects ≡ length self.old.objects }
    {
        let at = t as usize;
        let Some(asked) = asked_for(&self.threads[at], entry) else {
            return Err(Refused);
        };
        if !self.register.may_take(t, entry) {
            return Err(Refused);
        }
        objects::take(&mut self.objects, t, entry)?;
        self.register.note(t, entry);
        let code = code_of(&self.program, t);
        advance(&self.program, code, &mut self.threads[at], asked, entry);
        Ok(())
    }

    /// How thread t ended; None while it goes on.
    pub fn ending(&self, t: u32) -> Option<Ending>
        requires { t < length self.now.threads }
        ensures { result ≡ ending_of self.now t }
    {
        ending_in(&self.threads[t as usize])
    }

    /// The class of object o, where it is there.
    pub fn class_of(&self, o: u32) -> Option<u32>
        ensures { result ≡ class_at self.now o }
    {
        self.register.class_of(o)
    }

    /// The thread that has the monitor of the object.
    pub fn owner_of(&self, o: u32) -> Option<u32>
        requires { o < length self.now.objects }
        ensures { result ≡ (monitor_at self.now o).owner }
    {
        self.objects[o as usize].monitor().owner()
    }

    /// How often the owner of the object has entered its monitor, less its exits.
    pub fn count_of(&self, o: u32) -> u32
        requires { o < length self.now.objects }
        ensures { result ≡ (monitor_at self.now o).count }
    {
        self.objects[o as usize].monitor().count()
    }

    /// What the slot of the object has.
    pub fn slot_of(&self, o: u32, slot: u32) -> Value
        requires object { o < length self.now.objects }
        requires slot { slot < length (object_at self.now o).slots }
        ensures { result ≡ slot_at self.now o slot }
    {
        self.value_of(o, slot)
    }

    /// Whether some thread is live, and none that is can go on by itself.
    pub fn is_stuck(&self) -> bool
        ensures { result ≡ is_stuck self.now }
    {
        self.any_live() && self.all_barred()
    }

    fn any_live(&self) -> bool
        ensures { result ≡ list_any is_live self.now.threads }
    {
        for thread in &self.threads {
            if is_live(thread) {
                return true;
            }
        }
        false
    }

    /// Whether each thread that is live can't go on by itself.
    fn all_barred(&self) -> bool
        ensures { result ≡ all_barred self.now 0 self.now.threads }
    {
        for (t, thread) in self.threads.iter().enumerate() {
            if is_live(thread) && !self.is_barred(t as u32, thread) {
                return false;
            }
        }
        true
    }

    /// Whether thread t can't go on by itself.
    fn is_barred(&self, t: u32, thread: &Thread) -> bool
        ensures { result ≡ is_barred self.now t thread.now }
    {
        self.is_waiting(t, thread.mode()) || self.is_blocked(t, wanted(thread.asked()))
    }

    /// Whether a thread in this mode waits and was not notified.
    fn is_waiting(&self, t: u32, mode: Mode) -> bool
        ensures { result ≡ is_waiting self.now t mode }
    {
        match mode {
            Mode::Waiting { object } => self.waits_on(t, object),
            _ => false,
        }
    }

    /// Whether another thread has the monitor that this one wants.
    fn is_blocked(&self, t: u32, wanted: Option<u32>) -> bool
        ensures { result ≡ is_blocked self.now t wanted }
    {
        match wanted {
            Some(object) => self.other_owner(object, t).is_some(),
            None => false,
        }
    }

    /// Whether the thread waits on the object and was not notified.
    fn waits_on(&self, t: u32, object: u32) -> bool
        ensures { result ≡ is_listed (monitor_at self.now object).waits t }
    {
        match self.objects.get(object as usize) {
            Some(object) => object.monitor().waits(t),
            None => false,
        }
    }

    /// The oldest of those who wait on the object.
    fn oldest(&self, object: u32) -> Option<u32>
        ensures { result ≡ oldest (monitor_at self.now object).waits }
    {
        self.objects.get(object as usize)?.monitor().oldest()
    }

    /// How many wait on the object.
    fn waiting(&self, object: u32) -> u32
        ensures { result ≡ length (monitor_at self.now object).waits }
    {
        match self.objects.get(object as usize) {
            Some(object) => object.monitor().waiting(),
            None => 0,
        }
    }

    /// What the slot of the object has; nil where there is no such slot.
    fn value_of(&self, object: u32, slot: u32) -> Value
        ensures { result ≡ slot_at self.now object slot }
    {
        match self.objects.get(object as usize) {
            Some(object) => object.slot(slot),
            None => Value::Nil,
        }
    }

    /// The hash of the object, once it has one.
    fn hash_of(&self, object: u32) -> Option<u32>
        ensures { result ≡ (object_at self.now object).hash }
    {
        match self.objects.get(object as usize) {
            Some(object) => object.hash(),
            None => None,
        }
    }

    /// The owner of the object's monitor, where that is another thread.
    fn other_owner(&self, object: u32, t: u32) -> Option<u32>
        ensures { result ≡ other_owner (monitor_at self.now object) t }
    {
        match self.objects.get(object as usize) {
            Some(object) => other(object.monitor().owner(), t),
            None => None,
        }
    }
}

/// The owner, where it is another thread than t.
fn other(owner: Option<u32>, t: u32) -> Option<u32>
    ensures { result ≡ (if is_thread owner t then None else owner) }
{
    match owner {
        Some(owner) if owner != t => Some(owner),
        _ => None,
    }
}

/// The entry, unless another thread has the monitor of the object.
fn unless_owned(object: u32, owner: Option<u32>, entry: Entry) -> Offer
    ensures { result ≡ unless_owned object owner entry }
{
    match owner {
        Some(owner) => Offer::Blocked { object, owner },
        None => Offer::Next(entry),
    }
}

/// The hash that the object has, or a wish for one.
fn hash_offer(object: u32, hash: Option<u32>) -> Offer
    ensures { result ≡ hash_offer object hash }
{
    match hash {
        Some(value) => Offer::Next(Entry::Hash {
            object,
            value,
            drawn: None,
        }),
        None => Offer::NextHash { object },
    }
}

/// How the thread ended.
fn ending_in(thread: &Thread) -> Option<Ending>
    ensures { result ≡ ending_in thread.now.mode }
{
    match thread.mode() {
        Mode::Ended { ending } => Some(ending),
        _ => None,
    }
}

fn is_live(thread: &Thread) -> bool
    ensures { result ≡ is_live thread.now }
{
    ending_in(thread).is_none()
}

/// The object whose monitor a thread that asks this wants.
fn wanted(asked: Option<NextEntry>) -> Option<u32>
    ensures { result ≡ wanted asked }
{
    match asked {
        Some(
            NextEntry::Calls {
                call: MonitorCall::Enter { object },
            },
        ) => Some(object),
        Some(NextEntry::Resumes { object }) => Some(object),
        _ => None,
    }
}
