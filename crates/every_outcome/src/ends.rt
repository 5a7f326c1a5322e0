//! Lists of machines that have every end of a program, and no others.

ghost use Rattle.std.specs.Prelude.{◌≡◌, ◌⊎◌, ◌+◌, ◌*◌, ◌≤◌, ℕ, false, List, length, Some};
ghost use Rattle.plain_monitor.specs.declared.entry.Logged.{Logged};
ghost use Rattle.object_program.specs.Program.{ProgramText};
ghost use Rattle.object_program.specs.Valid.{IsProgram};
ghost use Rattle.plain_machine.specs.Machine.{PlainMachine, new_machine, is_stuck};
ghost use Rattle.plain_machine.specs.Legal.{after_all, machine_after};
ghost use Rattle.every_outcome.specs.Covered.{IsSeen, IsClosed};
ghost use Rattle.every_outcome.specs.Fuel.{refuelled, HasSpent, IsClosedFull, LeadsFull};
ghost use Rattle.every_outcome.specs.Led.{LeadsTo, IsAfterLogs, IsOver};

/// A list that covers the first machine, and each one after an entry of one of its own, has every end of the program: each
/// machine under logs that is stuck, or whose threads have all ended.
pub fn closed_lists_have_every_end()
    ensures { (p : ProgramText) (fuel : ℕ) (seen : List PlainMachine) (logs : List (List Logged)) (n : PlainMachine)
        → IsProgram p → IsClosed p fuel seen → machine_after p fuel logs ≡ Some n → IsOver n → IsSeen seen n }
{}

/// Each machine that entries lead to is under legal logs.
pub fn led_machines_are_under_legal_logs()
    ensures { (p : ProgramText) (fuel : ℕ) (m : PlainMachine) → IsProgram p → LeadsTo (new_machine p fuel) m → IsAfterLogs p fuel m }
{}

/// A list has every end of every run with at most this fuel in which no thread is spent, up to the fuel that is left,
/// where it covers the first machine and each one after an entry of one of its own. All threads get their fuel back
/// after each entry.
pub fn full_lists_have_every_end_of_any_fuel()
    ensures { (p : ProgramText) (fuel top : ℕ) (seen : List PlainMachine) (logs : List (List Logged)) (n : PlainMachine)
        → IsProgram p → IsClosedFull p top seen → fuel ≤ top → machine_after p fuel logs ≡ Some n → IsOver n
        → HasSpent n ⊎ IsSeen seen (refuelled top n) }
{}

/// Where no machine of such a list is stuck, no machine under logs with at most this fuel is, unless a thread of it is spent.
pub fn lists_without_stuck_machines()
    ensures { (p : ProgramText) (fuel top : ℕ) (seen : List PlainMachine) (logs : List (List Logged)) (n : PlainMachine)
        → IsProgram p → IsClosedFull p top seen → fuel ≤ top → machine_after p fuel logs ≡ Some n
        → ((m : PlainMachine) → IsSeen seen m → is_stuck m ≡ false)
        → HasSpent n ⊎ (is_stuck n ≡ false) }
{}

/// What entries lead to where all threads get their fuel back, and none is spent, they lead to with enough fuel, up to the fuel left.
pub fn found_machines_are_real()
    ensures { (p : ProgramText) (top : ℕ) (xs : List (ℕ × Logged)) (r : PlainMachine) → 1 ≤ top → (HasSpent (new_machine p top) → ⊥)
        → LeadsFull top (refuelled top (new_machine p top)) xs r
        → (n : PlainMachine) × (after_all (new_machine p (top + length xs * top)) xs ≡ Some n) × (refuelled top n ≡ r) }
{}
