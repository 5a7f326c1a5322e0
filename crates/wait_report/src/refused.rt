//! Reasons for standing still that are none, and a machine that no logs lead to, are refused. The functions do nothing.

ghost use Rattle.std.specs.Prelude.{◌≡◌, ℕ, true, [], ◌∷◌, Some};
ghost use Rattle.machine_laws.specs.Reached.{IsReached};
ghost use Rattle.plain_machine.specs.Legal.{machine_after};
ghost use Rattle.plain_machine.specs.Machine.{PlainMachine, is_stuck};
ghost use Rattle.plain_monitor.specs.declared.entry.Entry.TheVariants.{Enter};
ghost use Rattle.plain_monitor.specs.declared.entry.Path.TheVariants.{StackFirst};
ghost use Rattle.plain_monitor.specs.Monitor.{free_monitor};
ghost use Rattle.wait_report.specs.declared.cycles.Cycle.{Cycle};
ghost use Rattle.wait_report.specs.Cycles.{IsCycle};
ghost use Rattle.wait_report.specs.StuckExamples.{circle_end, circle_program, stuck_fuel, waiting_by, waiting_end};
ghost use Rattle.wait_report.specs.Waiting.{WaitsUnnotified};

/// Where two threads wait for each other's objects, none waits to be notified; and where the only thread waits to be notified, there is no cycle.
/// Refuses the conclusions `waits` and `cycle` of `a_stuck_machine_without_a_cycle_has_one_that_waits` for a machine that is stuck for the other
/// reason.
pub fn no_machine_is_stuck_for_the_other_reason()
    ensures waits { (t o : ℕ) → WaitsUnnotified circle_end t o → ⊥ }
    ensures cycle { (c : Cycle) → IsCycle waiting_end c → ⊥ }
{}

/// A thread waits on an object, and the object's monitor has forgotten it, so that no notify will ever wake it. Refuses the conclusion `reached` of
/// `a_stuck_machine_without_a_cycle_has_one_that_waits`.
pub fn no_machine_that_forgets_who_waits()
    ensures { IsReached (waiting_by free_monitor) → ⊥ }
{}

/// Of two threads that are about to enter each other's objects one has entered its first, and the other can go on. Refuses
/// what `a_stuck_machine_without_a_cycle_has_one_that_waits` asks for.
pub fn no_machine_is_stuck_where_a_thread_goes_on()
    ensures { (m : PlainMachine)
        → machine_after circle_program stuck_fuel ((record { stamp = 1; entry = Enter 0 StackFirst } ∷ []) ∷ [] ∷ []) ≡ Some m
        → is_stuck m ≡ true → ⊥ }
{}
