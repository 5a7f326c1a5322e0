//! What of a machine need not be kept to tell it from others.

ghost use Rattle.std.specs.Prelude.{◌≡◌, ◌≤◌, ℕ, List, slice_get, Some};
ghost use Rattle.plain_monitor.specs.declared.entry.Entry.{Entry};
ghost use Rattle.object_program.specs.declared.program.Code.{Code};
ghost use Rattle.object_program.specs.Program.{ProgramText};
ghost use Rattle.plain_machine.specs.declared.monitor_call.MonitorCall.{MonitorCall};
ghost use Rattle.plain_machine.specs.declared.monitor_call.Mode.TheVariants.{Calling};
ghost use Rattle.plain_machine.specs.Thread.{ThreadState};
ghost use Rattle.plain_machine.specs.Machine.{PlainMachine, new_machine, take};
ghost use Rattle.machine_laws.specs.Reached.{IsReached};
ghost use Rattle.every_outcome.specs.Fuel.{refuelled};
ghost use Rattle.every_outcome.specs.Stands.{IsAtCall, AllStand};

/// A reached machine stays reached where its threads get fuel, and the holds of its threads are told by its objects.
pub fn reached_machines_in_a_search()
    ensures full { (top : ℕ) (m : PlainMachine) → 1 ≤ top → IsReached m → IsReached (refuelled top m) }
    ensures holds { (m n : PlainMachine) (t : ℕ) (s u : ThreadState) → IsReached m → IsReached n → m.program ≡ n.program
        → m.objects ≡ n.objects → slice_get m.threads t ≡ Some s → slice_get n.threads t ≡ Some u → s.holds ≡ u.holds }
{}

/// Each thread that stands before a call stands at an instruction that leads to just this call, which the rest of the thread tells.
pub fn threads_stand_before_their_calls()
    ensures first { (p : ProgramText) (fuel : ℕ) → AllStand (new_machine p fuel) }
    ensures each { (m n : PlainMachine) (t : ℕ) (e : Entry) → AllStand m → take m t e ≡ Some n → AllStand n }
    ensures full { (top : ℕ) (m : PlainMachine) → AllStand m → AllStand (refuelled top m) }
    ensures told { (p : ProgramText) (code : List Code) (s : ThreadState) (fuel fuel2 : ℕ) (c d : MonitorCall)
        → IsAtCall p code (record s { fuel = fuel; mode = Calling c }) (Calling c)
        → IsAtCall p code (record s { fuel = fuel2; mode = Calling d }) (Calling d) → c ≡ d }
{}
