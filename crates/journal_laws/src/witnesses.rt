//! Logs of a run and machines that are over, so that what these laws ask for comes about. The functions do nothing.

ghost use Rattle.std.specs.Prelude.{◌≡◌, ℕ, not, ◌≤◌, true, [], ◌∷◌, Some};
ghost use Rattle.std.specs.List.{AllByRecursion, list_all};
ghost use Rattle.hash_laws.specs.HashExample.{hash_end, hash_fuel, hash_logs, hash_program};
ghost use Rattle.lock_journal.specs.Hashes.{hash_fits};
ghost use Rattle.object_program.specs.Valid.{IsProgram};
ghost use Rattle.plain_history.specs.ExactStamps.{StampsAreExact};
ghost use Rattle.plain_machine.specs.Legal.{IsLegal, machine_after};
ghost use Rattle.plain_machine.specs.Machine.{PlainMachine, is_live, is_stuck};
ghost use Rattle.plain_machine.specs.Thread.{ThreadState};
ghost use Rattle.plain_machine.specs.declared.monitor_call.Mode.TheVariants.{Waiting};
ghost use Rattle.plain_monitor.specs.History.{RisesAbove};
ghost use Rattle.plain_monitor.specs.Limits.{most_fuel};
ghost use Rattle.plain_monitor.specs.Order.{order};

/// Two threads ask for the hash of one object, print it and end. These logs have all that `exact_stamps_leave_no_gap`,
/// `entries_of_a_run_can_be_told` and `journals_of_runs_are_legal` ask for, and the machine after them is one in which all threads have ended.
pub fn logs_of_a_run_come_about()
    ensures rises { AllByRecursion (RisesAbove 0) hash_logs × StampsAreExact hash_logs }
    ensures run { IsProgram hash_program × (hash_fuel ≤ most_fuel) × IsLegal hash_program hash_fuel hash_logs
        × StampsAreExact hash_logs × ((o : ℕ) → hash_fits 0 (order hash_logs) o ≡ true)
        × (machine_after hash_program hash_fuel hash_logs ≡ Some hash_end) }
    ensures ended { list_all (λ s. not (is_live s)) hash_end.threads ≡ true }
{}

/// A thread waits, and there is no other: the machine is stuck, as `journals_of_runs_are_legal` asks.
pub fn a_stuck_machine_comes_about()
    ensures { (m : PlainMachine) × (s : ThreadState) × (m.threads ≡ s ∷ []) × (s.mode ≡ Waiting 0) × (is_stuck m ≡ true) }
{}
