//! Why a machine is stuck.

ghost use Rattle.std.specs.Prelude.{◌≡◌, ℕ, true, List, [], Some};
ghost use Rattle.plain_monitor.specs.declared.entry.Logged.{Logged};
ghost use Rattle.object_program.specs.Program.{ProgramText};
ghost use Rattle.object_program.specs.Valid.{IsProgram};
ghost use Rattle.plain_machine.specs.Machine.{PlainMachine, is_stuck};
ghost use Rattle.plain_machine.specs.Legal.{machine_after};
ghost use Rattle.machine_laws.specs.Reached.{IsReached};
ghost use Rattle.wait_report.specs.declared.cycles.Cycle.{Cycle};
ghost use Rattle.wait_report.specs.Waiting.{WaitsUnnotified};
ghost use Rattle.wait_report.specs.Cycles.{IsCycle, AreCycles};

/// A machine that is stuck and has no cycle has a thread that waits, and that nobody has notified (`waits`). One that is stuck and
/// where no thread waits so has a cycle (`cycle`). Both hold of each machine that is reached, as the one under a program's logs is
/// (`reached`).
pub fn a_stuck_machine_without_a_cycle_has_one_that_waits()
    ensures waits { (m : PlainMachine) → IsReached m → is_stuck m ≡ true → AreCycles m []
        → (t : ℕ) × (o : ℕ) × WaitsUnnotified m t o }
    ensures cycle { (m : PlainMachine) → IsReached m → is_stuck m ≡ true
        → ((t o : ℕ) → WaitsUnnotified m t o → ⊥) → (c : Cycle) × IsCycle m c }
    ensures reached { (p : ProgramText) (fuel : ℕ) (logs : List (List Logged)) (m : PlainMachine) → IsProgram p
        → machine_after p fuel logs ≡ Some m → IsReached m }
{}
