//! A machine by its words.

ghost use Rattle.std.specs.Prelude.{◌≡◌, length, Err, IfOk, IfErr, OnOk};
ghost use Rattle.object_program.specs.Program.{numbering_of};
ghost use Rattle.machine_laws.specs.Reached.{IsReached};
ghost use Rattle.plain_machine.specs.Machine.{PlainMachine};
ghost use Rattle.plain_machine.specs.Sound.{IsSound};
ghost use Rattle.machine_words.specs.MachineWords.{words_of, machine_of};
ghost use Rattle.machine_words.specs.Numbers.{HasNumbers};
ghost use Rattle.machine_words.specs.declared.unread.Unread.TheVariants.{NoMachine};
ghost use Rattle.machine_words.specs.inner.Telling.{IsLost};
ghost use Rattle.machine_words.specs.Untouched.{IsUntouched};

use crate::place_thread::place_threads;
use crate::read_object::read_objects;
use crate::read_thread::{read_made, read_threads};
use crate::renew::renew_all;
use crate::unread::Unread;
use object_program::Program;
use plain_machine::{Machine, Object, Parts, Register, Thread};

/// The machine of these words, whose threads have this much fuel each. It is made of a machine of the same program, and takes memory only
/// where that has no room. After an error the machine is gone.
///
/// # Errors
///
/// `NoMemory` where an allocation fails. `NoMachine` only where these are the words of no machine that entries of the program lead to.
pub fn load(machine: Machine, words: &[u64], fuel: u32) -> Result<Machine, Unread>
    requires room { IsReached machine }
    requires untouched { IsUntouched machine }
    requires sound { IsSound (machine_of machine.program fuel words.now) }
    ensures machine { IfOk result (λ m. m ≡ machine_of machine.program fuel words.now) }
    ensures lost { result ≡ Err NoMachine → (m : PlainMachine) → IsReached m → HasNumbers m
        → m.program ≡ machine.program → words_of m ≡ words.now → ⊥ }
{
    let Parts {
        program,
        mut objects,
        mut register,
        mut threads,
    } = machine.into_parts();
    read_parts(
        &program,
        words,
        fuel,
        &mut objects,
        &mut register,
        &mut threads,
    )?;
    let parts = Parts {
        program,
        objects,
        register,
        threads,
    };
    Ok(parts.into_machine())
}

/// Makes the parts of a machine of the program those of the machine of these words.
fn read_parts(
    program: &Program,
    words: &[u64],
    fuel: u32,
    objects: &mut [Object],
    register: &mut Register,
    threads: &mut [Thread],
) -> Result<(), Unread>
    requires room { IsReached (record {
      program = program.now;
      objects = objects.old;
      made = register.old.made;
      threads = threads.old;
    }) }
    requires untouched { IsUntouched (record {
      program = program.now;
      objects = objects.old;
      made = register.old.made;
      threads = threads.old;
    }) }
    requires numbering { register.old.numbering ≡ numbering_of program.now }
    requires sound { IsSound (machine_of program.now fuel words.now) }
    ensures lost { IfErr result (IsLost ((m : PlainMachine) × IsReached m × HasNumbers m
        × (m.program ≡ program.now) × (words_of m ≡ words.now))) }
    ensures machine { OnOk result (record {
      program = program.now;
      objects = objects.new;
      made = register.new.made;
      threads = threads.new;
    } ≡ machine_of program.now fuel words.now) }
    ensures objects { OnOk result (length objects.new ≡ length objects.old) }
    ensures threads { OnOk result (length threads.new ≡ length threads.old) }
    ensures numbering { register.new.numbering ≡ register.old.numbering }
{
    renew_all(program, register, objects, threads)?;
    let mut at = 0;
    read_threads(words, &mut at, fuel, threads)?;
    read_made(words, &mut at, register)?;
    read_objects(words, &mut at, objects, threads)?;
    place_threads(program, fuel, threads);
    Ok(())
}
