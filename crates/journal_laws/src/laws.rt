//! Laws of the logs of runs, and of their journals. The functions do nothing.

ghost use Rattle.std.specs.Prelude.{◌≡◌, ℕ, not, ◌<◌, ◌≤◌, ◌^◌, true, List, length, Some, Ok};
ghost use Rattle.std.specs.List.{AllByRecursion, list_all};
ghost use Rattle.bias_check.specs.declared.answer.Checked.TheVariants.{Legal};
ghost use Rattle.bias_check.specs.declared.answer.Reached.TheVariants.{Ended, Stuck};
ghost use Rattle.bias_check.specs.Answer.{IsTrueOf, state_of};
ghost use Rattle.bias_check.specs.Printed.{IsTellable, journal_of};
ghost use Rattle.lock_journal.specs.Hashes.{hash_fits};
ghost use Rattle.lock_journal.specs.RunText.{text_of_lines};
ghost use Rattle.object_program.specs.Program.{ProgramText};
ghost use Rattle.object_program.specs.Valid.{IsProgram};
ghost use Rattle.plain_history.specs.ExactStamps.{StampsAreExact};
ghost use Rattle.plain_machine.specs.Legal.{IsLegal, machine_after};
ghost use Rattle.plain_machine.specs.Machine.{PlainMachine, is_live, is_stuck};
ghost use Rattle.plain_monitor.specs.Limits.{most_fuel};
ghost use Rattle.plain_monitor.specs.declared.entry.Logged.{Logged};
ghost use Rattle.plain_monitor.specs.History.{RisesAbove};
ghost use Rattle.plain_monitor.specs.Order.{order};

/// Where stamps are exact, none is left out: below each stamp stands an entry with the stamp one less, or it is 1. So no stamp is above the
/// number of entries.
pub fn exact_stamps_leave_no_gap()
    ensures { (logs : List (List Logged)) → AllByRecursion (RisesAbove 0) logs → StampsAreExact logs
        → AllByRecursion (λ x. x.1.stamp ≤ length (order logs)) (order logs) }
{}

/// Each entry of a run can be told by a line: its objects, threads and values are the program's, its numbers have 32 bits, and its stamp
/// has 46.
pub fn entries_of_a_run_can_be_told()
    ensures { (p : ProgramText) (fuel start : ℕ) (logs : List (List Logged)) → IsProgram p → fuel ≤ most_fuel
        → IsLegal p fuel logs → StampsAreExact logs → ((o : ℕ) → hash_fits start (order logs) o ≡ true)
        → AllByRecursion (IsTellable p) (order logs) }
{}

/// The journal of a run is legal, with as many entries as were logged, and its threads stand as those of the machine under the logs.
/// After a run that is over they have ended, or are stuck. The journal has fewer than 2^32 bytes.
pub fn journals_of_runs_are_legal()
    ensures legal { (p : ProgramText) (fuel start : ℕ) (logs : List (List Logged)) (m : PlainMachine) → IsProgram p
        → fuel ≤ most_fuel → IsLegal p fuel logs → StampsAreExact logs
        → ((o : ℕ) → hash_fits start (order logs) o ≡ true)
        → machine_after p fuel logs ≡ Some m
        → IsTrueOf p fuel start (journal_of p logs) (Ok (Legal (length (order logs)) (state_of m))) }
    ensures short { (p : ProgramText) (fuel start : ℕ) (logs : List (List Logged)) → IsProgram p → fuel ≤ most_fuel
        → IsLegal p fuel logs → StampsAreExact logs → ((o : ℕ) → hash_fits start (order logs) o ≡ true)
        → length (text_of_lines (journal_of p logs)) < 2 ^ 32 }
    ensures ended { (m : PlainMachine) → list_all (λ s. not (is_live s)) m.threads ≡ true → state_of m ≡ Ended }
    ensures stuck { (m : PlainMachine) → is_stuck m ≡ true → state_of m ≡ Stuck }
{}
