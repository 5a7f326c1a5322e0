//! Small programs, their machines and closed lists, that the laws' premises are met. The functions do nothing.

ghost use Rattle.std.specs.Prelude.{◌≡◌, ◌≢◌, ◌≤◌, ℕ, true, false, List, slice_get, Some};
ghost use Rattle.plain_monitor.specs.declared.entry.Path.TheVariants.{StackFirst};
ghost use Rattle.plain_monitor.specs.declared.entry.Entry.TheVariants.{Enter, Exit, Print};
ghost use Rattle.plain_monitor.specs.declared.entry.Value.TheVariants.{Nil};
ghost use Rattle.plain_monitor.specs.Order.{order};
ghost use Rattle.object_program.specs.Valid.{IsProgram};
ghost use Rattle.plain_machine.specs.declared.monitor_call.MonitorCall.TheVariants as call;
ghost use Rattle.plain_machine.specs.declared.monitor_call.Mode.TheVariants.{Calling};
ghost use Rattle.plain_machine.specs.Thread.{ThreadState};
ghost use Rattle.plain_machine.specs.Running.{run_on};
ghost use Rattle.plain_machine.specs.Machine.{PlainMachine, new_machine, take, code_of, is_stuck};
ghost use Rattle.plain_machine.specs.Legal.{after_all, machine_after};
ghost use Rattle.machine_laws.specs.Examples.{printed, printers, printing};
ghost use Rattle.machine_laws.specs.Reached.{IsReached};
ghost use Rattle.every_outcome.specs.Alone.{goes_alone};
ghost use Rattle.every_outcome.specs.Covered.{IsSeen, IsClosed};
ghost use Rattle.every_outcome.specs.Fuel.{HasSpent, IsClosedFull, LeadsFull, is_spent, refuelled};
ghost use Rattle.every_outcome.specs.Led.{IsOver, LeadsTo};
ghost use Rattle.every_outcome.specs.NoHash.{AsksNoHash, HasNoHash};
ghost use Rattle.every_outcome.specs.Stands.{AllStand, IsAtCall};

/// Of two threads, one enters an object, prints it and leaves it, and the other prints something else. A list of two machines is closed: that
/// before the enter, where the other thread has ended, and the end (`own`, and `full` where threads get their fuel back). Entries lead to
/// that end (`led`, `found`).
///
/// A witness for `closed_lists_have_every_end`, `full_lists_have_every_end_of_any_fuel`, `lists_without_stuck_machines`,
/// `led_machines_are_under_legal_logs` and `found_machines_are_real`.
pub fn a_program_can_have_a_closed_list()
    ensures own { (seen : List PlainMachine) × (n : PlainMachine) × IsProgram printers × IsClosed printers 8 seen
        × (machine_after printers 8 printed ≡ Some n) × IsOver n }
    ensures full { (seen : List PlainMachine) × (n : PlainMachine) × IsProgram printers × IsClosedFull printers 8 seen
        × (8 ≤ 8) × (machine_after printers 8 printed ≡ Some n) × IsOver n
        × ((m : PlainMachine) → IsSeen seen m → is_stuck m ≡ false) }
    ensures led { (n : PlainMachine) × IsProgram printers × LeadsTo (new_machine printers 8) n × IsOver n }
    ensures found { (r : PlainMachine) × (1 ≤ 8) × (HasSpent (new_machine printers 8) → ⊥)
        × LeadsFull 8 (refuelled 8 (new_machine printers 8)) (order printed) r }
{}

/// In the middle of that program, the thread that owns the object may leave it, which goes alone, and the other one may print.
///
/// A witness for `alone_entries_commute`, and for `taken_entries_are_offered` and `reached_machines_in_a_search`, since the machine is
/// reached.
pub fn an_exit_can_go_alone()
    ensures { (m a b : PlainMachine) × (s : ThreadState) × IsReached m × (slice_get m.threads 0 ≡ Some s)
        × (◌≢◌ {A = ℕ} 0 1) × (goes_alone m 0 (Exit 0) ≡ true) × (take m 0 (Exit 0) ≡ Some a)
        × (take m 1 (Print Nil) ≡ Some b) }
{}

/// Its first thread comes to its enter and isn't spent (`runs`), stands before it, as all threads do before their calls (`stands`), and no
/// thread asks for a hash (`asks`).
///
/// A witness for `more_fuel_changes_nothing`, `threads_stand_before_their_calls` and `no_hash_without_its_instruction`.
pub fn a_thread_can_stand_before_its_enter()
    ensures runs { (s : ThreadState) × (s.place ≡ 0) × (is_spent (run_on printers printing 2 s).mode ≡ false) }
    ensures stands { (n : PlainMachine) × AllStand (new_machine printers 8)
        × (take (new_machine printers 8) 0 (Enter 0 StackFirst) ≡ Some n) }
    ensures told { (s : ThreadState) × IsAtCall printers (code_of printers 0)
        (record s { fuel = 3; mode = Calling (call.Enter 0) }) (Calling (call.Enter 0)) }
    ensures asks { (m n : PlainMachine) × HasNoHash printers
        × (after_all (new_machine printers 8) (order printed) ≡ Some m) × AsksNoHash (new_machine printers 8)
        × (take (new_machine printers 8) 0 (Enter 0 StackFirst) ≡ Some n) }
{}
