//! A law of the machines under logs that are cut. The function does nothing.

ghost use Rattle.std.specs.Prelude.{◌≡◌, ℕ, List, Some};
ghost use Rattle.std.specs.List.{AllByRecursion};
ghost use Rattle.object_program.specs.Program.{ProgramText};
ghost use Rattle.object_program.specs.Valid.{IsProgram};
ghost use Rattle.plain_history.specs.Cuts.{IsCutInOrder};
ghost use Rattle.plain_machine.specs.Legal.{machine_after};
ghost use Rattle.plain_machine.specs.Machine.{PlainMachine};
ghost use Rattle.plain_monitor.specs.declared.entry.Logged.{Logged};
ghost use Rattle.plain_monitor.specs.History.{RisesAbove};
ghost use Rattle.thread_logs.specs.Passed.{IsOnTheWay};

/// Where a cut of logs is in order, the machine under the logs as they are cut is one that the logs pass through: it takes all later
/// entries in stamped order, and comes to the machine under the logs.
pub fn machines_pass_through_a_cut_in_order()
    ensures { (p : ProgramText) (fuel : ℕ) (logs : List (List Logged)) (cut : List ℕ) (last : PlainMachine)
        → IsProgram p → AllByRecursion (RisesAbove 0) logs → IsCutInOrder cut logs → machine_after p fuel logs ≡ Some last
        → (m : PlainMachine) × IsOnTheWay p fuel logs cut last m }
{}
