//! Which entries a machine takes, and which of them may go first.

ghost use Rattle.std.specs.Prelude.{◌≡◌, ◌≢◌, ◌+◌, ℕ, true, false, List, Some};
ghost use Rattle.plain_monitor.specs.declared.entry.Entry.{Entry};
ghost use Rattle.plain_monitor.specs.declared.entry.Logged.{Logged};
ghost use Rattle.object_program.specs.declared.program.Code.{Code};
ghost use Rattle.object_program.specs.Program.{ProgramText};
ghost use Rattle.plain_machine.specs.declared.monitor_call.Mode.{Mode};
ghost use Rattle.plain_machine.specs.Thread.{ThreadState};
ghost use Rattle.plain_machine.specs.Running.{run_on};
ghost use Rattle.plain_machine.specs.Machine.{PlainMachine, new_machine, take};
ghost use Rattle.plain_machine.specs.Legal.{after_all};
ghost use Rattle.plain_machine.specs.Offering.{offered};
ghost use Rattle.machine_laws.specs.Reached.{IsReached};
ghost use Rattle.every_outcome.specs.Alone.{goes_alone, is_hash};
ghost use Rattle.every_outcome.specs.Fuel.{with_fuel, is_spent, refuelled};
ghost use Rattle.every_outcome.specs.NoHash.{HasNoHash, AsksNoHash};
ghost use Rattle.every_outcome.specs.Offers.{StandsFor};

/// An entry that goes alone commutes with each entry of another thread, and goes alone after it too.
pub fn alone_entries_commute()
    ensures { (m a b : PlainMachine) (t u : ℕ) (e f : Entry) → t ≢ u → goes_alone m t e ≡ true
        → take m t e ≡ Some a → take m u f ≡ Some b
        → (c : PlainMachine) × (take a u f ≡ Some c) × (take b t e ≡ Some c) × (goes_alone b t e ≡ true) }
{}

/// Each entry that a reached machine takes is one that it offers.
pub fn taken_entries_are_offered()
    ensures { (m n : PlainMachine) (t : ℕ) (e : Entry) → IsReached m → take m t e ≡ Some n → StandsFor (offered m t) e }
{}

/// A thread that isn't spent does the same with more fuel, whatever fuel it says that it has.
pub fn more_fuel_changes_nothing()
    ensures { (n d g top : ℕ) (p : ProgramText) (c : List Code) (s : ThreadState) → is_spent (run_on p c n s).mode ≡ false
        → with_fuel top (run_on p c (n + d) (with_fuel g s)) ≡ with_fuel top (run_on p c n s) }
{}

/// A program without the instruction for it makes no hash entry, with the fuel given back or not.
pub fn no_hash_without_its_instruction()
    ensures led { (p : ProgramText) (fuel : ℕ) (xs : List (ℕ × Logged)) (m n : PlainMachine) (t : ℕ) (e : Entry) → HasNoHash p
        → after_all (new_machine p fuel) xs ≡ Some m → take m t e ≡ Some n → is_hash e ≡ false }
    ensures first { (p : ProgramText) (fuel : ℕ) → HasNoHash p → AsksNoHash (new_machine p fuel) }
    ensures each { (m n : PlainMachine) (t : ℕ) (e : Entry) → AsksNoHash m → take m t e ≡ Some n → AsksNoHash n }
    ensures full { (top : ℕ) (m : PlainMachine) → AsksNoHash m → AsksNoHash (refuelled top m) }
    ensures none { (m n : PlainMachine) (t : ℕ) (e : Entry) → AsksNoHash m → take m t e ≡ Some n → is_hash e ≡ false }
{}
