//! Machines that stand still, of either kind, so that what the law of stuck machines asks for comes about. The functions do nothing.

ghost use Rattle.std.specs.Prelude.{◌≡◌, ℕ, true, [], Some};
ghost use Rattle.machine_laws.specs.Reached.{IsReached};
ghost use Rattle.object_program.specs.Valid.{IsProgram};
ghost use Rattle.plain_machine.specs.Legal.{machine_after};
ghost use Rattle.plain_machine.specs.Machine.{is_stuck};
ghost use Rattle.wait_report.specs.Cycles.{AreCycles};
ghost use Rattle.wait_report.specs.StuckExamples.{circle_end, circle_logs, circle_program, stuck_fuel};
ghost use Rattle.wait_report.specs.StuckExamples.{waiting_end, waiting_logs, waiting_program};
ghost use Rattle.wait_report.specs.Waiting.{WaitsUnnotified};

/// A program's only thread waits, and nobody is left to notify it: the machine is stuck and has no cycle, as
/// `a_stuck_machine_without_a_cycle_has_one_that_waits` asks for its first conclusion.
pub fn a_machine_is_stuck_where_its_only_thread_waits()
    ensures program { IsProgram waiting_program }
    ensures under { machine_after waiting_program stuck_fuel waiting_logs ≡ Some waiting_end }
    ensures stuck { IsReached waiting_end × (is_stuck waiting_end ≡ true) × AreCycles waiting_end [] }
{}

/// Each of two threads has an object and asks for the other one's: the machine is stuck and no thread waits to be notified, as
/// `a_stuck_machine_without_a_cycle_has_one_that_waits` asks for its second conclusion.
pub fn a_machine_is_stuck_in_a_circle()
    ensures program { IsProgram circle_program }
    ensures under { machine_after circle_program stuck_fuel circle_logs ≡ Some circle_end }
    ensures stuck { IsReached circle_end × (is_stuck circle_end ≡ true) × ((t o : ℕ) → WaitsUnnotified circle_end t o → ⊥) }
{}
