//! Machines and logs of small programs, that the laws' premises are met. The functions do nothing.

ghost use Rattle.std.specs.Prelude.{◌≡◌, ◌<◌, ◌≤◌, ◌^◌, ℕ, true, false, not, length, slice_get, Some};
ghost use Rattle.std.specs.List.{list_all};
ghost use Rattle.plain_monitor.specs.declared.entry.Ending.TheVariants as ending;
ghost use Rattle.plain_monitor.specs.declared.entry.Entry.TheVariants.{Done, Enter};
ghost use Rattle.plain_monitor.specs.declared.entry.Entry.TheVariants as entry;
ghost use Rattle.plain_monitor.specs.declared.entry.Path.TheVariants.{StackFirst};
ghost use Rattle.plain_monitor.specs.declared.entry.Value.TheVariants.{Ref};
ghost use Rattle.plain_monitor.specs.History.{log_of};
ghost use Rattle.object_program.specs.Valid.{IsProgram};
ghost use Rattle.plain_machine.specs.declared.monitor_call.MonitorCall.TheVariants.{Dump};
ghost use Rattle.plain_machine.specs.declared.monitor_call.MonitorCall.TheVariants as call;
ghost use Rattle.plain_machine.specs.declared.monitor_call.NextEntry.TheVariants.{Calls};
ghost use Rattle.plain_machine.specs.declared.offer.Offer.TheVariants.{Next, NextHash};
ghost use Rattle.plain_machine.specs.Thread.{ThreadState, local};
ghost use Rattle.plain_machine.specs.Asking.{ask};
ghost use Rattle.plain_machine.specs.Legal.{IsLegal, machine_after};
ghost use Rattle.plain_machine.specs.Machine.{PlainMachine, new_machine, take, monitor_at, slot_at, is_live, is_stuck};
ghost use Rattle.plain_machine.specs.Offering.{offered, is_next};
ghost use Rattle.machine_laws.specs.Examples.{askers, logged, printed, printers, waited, waiter};
ghost use Rattle.machine_laws.specs.LogEnds.{ending_said, HaveEnded};
ghost use Rattle.machine_laws.specs.Reached.{IsReached};

/// The first machine of a program is reached; it takes an enter, which it offers (`enters`), and that of another one offers a hash (`hashes`).
///
/// A witness for `machines_stay_reached`, `each_entry_uses_up_work` and `offered_entries_are_taken`.
pub fn a_reached_machine_can_enter_and_hash()
    ensures enters { (n : PlainMachine) × IsProgram printers × IsReached (new_machine printers 8)
        × (offered (new_machine printers 8) 0 ≡ Next (Enter 0 StackFirst))
        × (take (new_machine printers 8) 0 (Enter 0 StackFirst) ≡ Some n) }
    ensures hashes { IsReached (new_machine askers 8) × (offered (new_machine askers 8) 0 ≡ NextHash 0) × (1 ≤ 7)
        × (7 < 2 ^ 31) }
{}

/// A thread that waits has left the object, to which its local refers, and a slot of the object (`refers`); before that it owned it (`owns`); and one
/// asks for its first dump and makes it (`dumps`).
///
/// A witness for `reached_machines_are_in_range` and `what_a_reached_machine_refers_to_is_there`.
pub fn a_reached_machine_can_refer_own_and_dump()
    ensures refers { (m : PlainMachine) × (s : ThreadState) × IsReached m × (slice_get m.threads 0 ≡ Some s)
        × (local s 0 ≡ Ref 0) × (slot_at m 0 0 ≡ Ref 0) }
    ensures owns { (m n : PlainMachine) × IsReached m × (take m 0 (Enter 0 StackFirst) ≡ Some n) × IsReached n
        × ((monitor_at n 0).owner ≡ Some 0) }
    ensures dumps { (m n : PlainMachine) × (s : ThreadState) × IsReached m × (slice_get m.threads 2 ≡ Some s)
        × (ask s ≡ Some (Calls (Dump 1))) × (take m 2 (entry.Dump 1) ≡ Some n) }
{}

/// The second thread of a program asks for a new object. A witness for `a_new_object_has_the_next_number_of_its_thread`.
pub fn a_thread_can_ask_for_a_new_object()
    ensures { (m : PlainMachine) × (s : ThreadState) × IsReached m × (slice_get m.threads 1 ≡ Some s)
        × (ask s ≡ Some (Calls (call.New 0 0))) }
{}

/// Two threads print and end: their logs are legal, and each ends with its Done (`ends`). The machine under them has ended, and one whose
/// only thread waits is stuck; both offer nothing (`ended`, `stuck`).
///
/// A witness for `legal_logs_are_made_in_time`, `ended_logs_say_how_threads_ended` and `a_machine_that_offers_nothing_is_over`.
pub fn logs_can_end_with_their_threads()
    ensures ends { (m : PlainMachine) × IsLegal printers 8 printed × (machine_after printers 8 printed ≡ Some m)
        × (length printed ≡ length printers.threads) × HaveEnded printed
        × (slice_get (log_of printed 0) 3 ≡ Some (logged 4 Done)) × (ending_said Done ≡ Some ending.Done) }
    ensures ended { (m : PlainMachine) × (machine_after printers 8 printed ≡ Some m)
        × (list_all (λ s. not (is_live s)) m.threads ≡ true)
        × ((t : ℕ) → t < length m.threads → is_next (offered m t) ≡ false) }
    ensures stuck { (m : PlainMachine) × (machine_after waiter 8 waited ≡ Some m) × (is_stuck m ≡ true)
        × ((t : ℕ) → t < length m.threads → is_next (offered m t) ≡ false) }
{}
