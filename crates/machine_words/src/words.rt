//! The words of a machine.

ghost use Rattle.std.specs.Prelude.{◌≡◌, ◌++◌, IfOk, OnOk};
ghost use Rattle.machine_laws.specs.Reached.{IsReached};
ghost use Rattle.machine_words.specs.MadeWords.{made_words};
ghost use Rattle.machine_words.specs.MachineWords.{words_of};
ghost use Rattle.machine_words.specs.Numbers.{HasNumbers};
ghost use Rattle.machine_words.specs.Untouched.{IsUntouched};

use crate::object_words::add_objects;
use crate::thread_words::add_threads;
use crate::writer::{add, add_numbers};
use plain_machine::{Machine, Register};
use plain_monitor::NoMemory;

/// The classes of what each thread has made.
fn add_made(out: &mut Vec<u64>, register: &Register) -> Result<(), NoMemory>
    ensures { OnOk result (out.new.items ≡ out.old.items ++ made_words register.now.made) }
{
    for t in 0..register.threads() {
        let row = register.row(t);
        add(out, row.len() as u64)?;
        add_numbers(out, row)?;
    }
    Ok(())
}

/// Writes the words of a machine that entries of its program lead to, after those that are there. Its numbers have 32 bits, as in memory, so
/// that it is read back from them (`load`).
///
/// # Errors
///
/// `NoMemory` where an allocation fails.
pub fn add_words(machine: &Machine, out: &mut Vec<u64>) -> Result<(), NoMemory>
    requires reached { IsReached machine.now }
    requires untouched { IsUntouched machine.now }
    ensures words { OnOk result (out.new.items ≡ out.old.items ++ words_of machine.now) }
    ensures numbers { IfOk result (λ _. HasNumbers machine.now) }
{
    add_threads(out, machine.threads())?;
    add_made(out, machine.register())?;
    add_objects(out, machine)?;
    Ok(())
}
