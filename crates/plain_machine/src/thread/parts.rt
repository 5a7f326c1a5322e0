//! A thread by its parts, so that it can be kept in another form and made again.

ghost use Rattle.std.specs.Prelude.{◌≡◌, ◌<◌, ◌^◌, ◌++◌, ◌∷◌, [], sum, length, slice_set, OnOk};
ghost use Rattle.plain_monitor.specs.declared.entry.Ending.TheVariants.{Done};
ghost use Rattle.plain_machine.specs.declared.monitor_call.Mode.TheVariants.{Unwinding};

use crate::monitor_call::Mode;
use crate::thread::Thread;
use plain_monitor::{Ending, NoMemory, Value};

impl Thread {
    /// The values of its locals.
    pub fn locals(&self) -> &[Value]
        ensures { result.now ≡ self.now.locals }
    {
        self.locals.as_slice()
    }

    /// Makes it a thread at this place that has made so many dumps and objects, without locals, on the way to its end. Its holds stay, and it
    /// keeps its room.
    pub fn restart(&mut self, place: u32, dumps: u32, made: u32)
        ensures { self.new ≡ record {
          place = place;
          locals = [];
          fuel = self.old.fuel;
          holds = self.old.holds;
          dumps = dumps;
          made = made;
          mode = Unwinding Done;
        } }
    {
        self.place = place;
        self.locals.clear();
        self.dumps = dumps;
        self.made = made;
        self.mode = Mode::Unwinding {
            ending: Ending::Done,
        };
    }

    /// One more local, with this value.
    ///
    /// # Errors
    ///
    /// `NoMemory` where an allocation fails.
    pub fn add_local(&mut self, value: Value) -> Result<(), NoMemory>
        ensures { OnOk result (self.new ≡ record self.old { locals = self.old.locals ++ value ∷ [] }) }
    {
        self.locals.push(value).map_err(|_| NoMemory)
    }

    /// It holds the object so often.
    pub fn set_holds(&mut self, object: u32, count: u32)
        requires object { object < length self.old.holds }
        requires few { sum (slice_set self.old.holds object count) < 2 ^ 32 }
        ensures { self.new ≡ record self.old { holds = slice_set self.old.holds object count } }
    {
        let object = object as usize;
        self.depth -= self.holds[object];
        self.depth += count;
        self.holds[object] = count;
    }

    /// It has this much fuel.
    pub fn refuel(&mut self, fuel: u32)
        ensures { self.new ≡ record self.old { fuel = fuel } }
    {
        self.fuel = fuel;
    }
}
