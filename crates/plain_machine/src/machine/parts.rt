//! A machine by its parts, so that it can be kept in another form and made again.

ghost use Rattle.std.specs.Prelude.{◌≡◌, map};
ghost use Rattle.object_program.specs.Program.{numbering_of};
ghost use Rattle.plain_machine.specs.Sound.{IsSound};
ghost use Rattle.plain_machine.specs.Thread.{ThreadState};

use crate::machine::Machine;
use crate::object::Object;
use crate::register::Register;
use crate::thread::Thread;
use object_program::Program;

/// The parts of a machine.
#[derive(Drop)]
pub struct Parts {
    pub program: Program,
    pub objects: Vec<Object>,
    pub register: Register,
    pub threads: Vec<Thread>,
}

impl Machine {
    /// Its program.
    pub fn program(&self) -> &Program
        ensures { result.now ≡ self.now.program }
    {
        &self.program
    }

    /// Its objects, by their numbers.
    pub fn objects(&self) -> &[Object]
        ensures { result.now ≡ self.now.objects }
    {
        self.objects.as_slice()
    }

    /// What its threads have made.
    pub fn register(&self) -> &Register
        ensures made { result.now.made ≡ self.now.made }
    {
        &self.register
    }

    /// Its threads.
    pub fn threads(&self) -> &[Thread]
        ensures { result.now ≡ self.now.threads }
    {
        self.threads.as_slice()
    }

    /// Each machine is sound.
    pub fn is_sound(&self)
        ensures { IsSound self.now }
    {
        let _ = &self.threads;
    }

    /// Each thread has this much fuel.
    pub fn refuel(&mut self, fuel: u32)
        ensures { self.new ≡ record self.old { threads = map (λ (s : ThreadState). record s { fuel = fuel }) self.old.threads } }
    {
        refuel_all(&mut self.threads, fuel);
    }

    /// The machine as its parts.
    pub fn into_parts(self) -> Parts
        ensures machine { self ≡ record {
          program = result.program;
          objects = result.objects.items;
          made = result.register.made;
          threads = result.threads.items;
        } }
        ensures numbering { result.register.numbering ≡ numbering_of self.program }
    {
        let Machine {
            program,
            objects,
            register,
            threads,
        } = self;
        Parts {
            program,
            objects,
            register,
            threads,
        }
    }
}

impl Parts {
    /// The machine that has these parts, which have to fit each other.
    pub fn into_machine(self) -> Machine
        requires sound { IsSound (record {
          program = self.program;
          objects = self.objects.items;
          made = self.register.made;
          threads = self.threads.items;
        }) }
        requires numbering { self.register.numbering ≡ numbering_of self.program }
        ensures { result ≡ record {
          program = self.program;
          objects = self.objects.items;
          made = self.register.made;
          threads = self.threads.items;
        } }
    {
        let Parts {
            program,
            objects,
            register,
            threads,
        } = self;
        Machine {
            program,
            objects,
            register,
            threads,
        }
    }
}

/// Each of these threads has this much fuel.
fn refuel_all(threads: &mut [Thread], fuel: u32)
    ensures { threads.new ≡ map (λ (s : ThreadState). record s { fuel = fuel }) threads.old }
{
    for thread in threads.iter_mut() {
        thread.refuel(fuel);
    }
}
