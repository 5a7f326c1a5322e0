//! The words of a machine tell it.

ghost use Rattle.std.specs.Prelude.{◌≡◌, ℕ, Some};
ghost use Rattle.plain_monitor.specs.declared.entry.Entry.{Entry};
ghost use Rattle.object_program.specs.Program.{ProgramText};
ghost use Rattle.plain_machine.specs.Machine.{PlainMachine, new_machine, take};
ghost use Rattle.machine_laws.specs.Reached.{IsReached};
ghost use Rattle.every_outcome.specs.Fuel.{refuelled};
ghost use Rattle.every_outcome.specs.Stands.{AllStand};
ghost use Rattle.machine_words.specs.MachineWords.{words_of, machine_of};
ghost use Rattle.machine_words.specs.Untouched.{IsUntouched};

/// A reached machine is read back from its words, with its fuel filled up.
pub fn machines_are_read_back()
    ensures { (m : PlainMachine) (fuel : ℕ) → IsReached m → AllStand m
        → machine_of m.program fuel (words_of m) ≡ refuelled fuel m }
{}

/// Reached machines of one program with the same words are the same, up to the fuel that is left.
pub fn words_tell_machines_apart()
    ensures { (m n : PlainMachine) (fuel : ℕ) → IsReached m → AllStand m → IsReached n → AllStand n
        → m.program ≡ n.program → words_of m ≡ words_of n → refuelled fuel m ≡ refuelled fuel n }
{}

/// The fuel that is left has no part in the words.
pub fn fuel_makes_no_words()
    ensures { (m : PlainMachine) (fuel : ℕ) → words_of (refuelled fuel m) ≡ words_of m }
{}

/// Before the first entry each object is as at first, whether it is there or not.
pub fn first_machines_are_untouched()
    ensures { (p : ProgramText) (fuel : ℕ) → IsUntouched (new_machine p fuel) }
{}

/// No entry changes an object that isn't there, so that one is as at first until it is made.
pub fn machines_stay_untouched()
    ensures { (m n : PlainMachine) (t : ℕ) (e : Entry) → IsUntouched m → take m t e ≡ Some n → IsUntouched n }
{}
