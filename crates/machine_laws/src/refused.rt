//! Entries that no machine takes, whatever its threads ask, and machines that entries don't lead to. The functions do nothing.

ghost use Rattle.std.specs.Prelude.{◌≡◌, ◌≢◌, ◌⊎◌, ◌==◌, ◌<◌, ◌≤◌, ℕ, true, false, not, length, sum, slice_get, IsSome, Option, Some, None, List, [], ◌∷◌};
ghost use Rattle.std.specs.List.{list_all, list_any};
ghost use Rattle.plain_monitor.specs.declared.entry.Ending.{Ending};
ghost use Rattle.plain_monitor.specs.declared.entry.Ending.TheVariants as ending;
ghost use Rattle.plain_monitor.specs.declared.entry.Entry.{Entry};
ghost use Rattle.plain_monitor.specs.declared.entry.Entry.TheVariants.{Hash, New, Notify, Print};
ghost use Rattle.plain_monitor.specs.declared.entry.Entry.TheVariants as entry;
ghost use Rattle.plain_monitor.specs.declared.entry.Value.TheVariants.{Ref};
ghost use Rattle.plain_monitor.specs.Limits.{most_holds, most_made};
ghost use Rattle.plain_monitor.specs.Made.{Numbering, IsMadeInTime, made_number, made_by, is_there, needs, nothing_made};
ghost use Rattle.object_program.specs.Program.{ProgramText, numbering_of};
ghost use Rattle.plain_machine.specs.declared.monitor_call.MonitorCall.TheVariants.{Dump};
ghost use Rattle.plain_machine.specs.declared.monitor_call.NextEntry.TheVariants.{Calls};
ghost use Rattle.plain_machine.specs.declared.offer.Offer.TheVariants.{Blocked};
ghost use Rattle.plain_machine.specs.Thread.{ThreadState, local};
ghost use Rattle.plain_machine.specs.Asking.{ask};
ghost use Rattle.plain_machine.specs.Legal.{machine_after};
ghost use Rattle.plain_machine.specs.Machine.{PlainMachine, new_machine, take, ending_of, monitor_at, slot_at, is_live, is_stuck};
ghost use Rattle.plain_machine.specs.Offering.{offered, is_next};
ghost use Rattle.machine_laws.specs.Examples.{logged, printed, printers, waited, waiter};
ghost use Rattle.machine_laws.specs.Reached.{IsReached};
ghost use Rattle.machine_laws.specs.Work.{work_left};

/// An object is neither named, nor put, nor printed before its New.
pub fn what_is_not_there_is_refused()
    ensures { (m : PlainMachine) (t o : ℕ) (e : Entry)
        → list_any (λ i. o == i) (needs e) ≡ true → is_there (numbering_of m.program) m.made o ≡ false
        → take m t e ≡ None }
{}

/// A thread makes its next object by that object's number alone, and so by none of another thread's. Refuses that
/// `a_new_object_has_the_next_number_of_its_thread` has the entry taken by any other number.
pub fn a_new_by_another_number_is_refused()
    ensures { (m : PlainMachine) (t o c : ℕ)
        → o ≢ made_number (numbering_of m.program) t (length (made_by m.made t)) → take m t (New o c) ≡ None }
{}

/// A thread that has made as many objects as it may makes no other one, be it by the next number. Refuses the conclusion of
/// `a_new_object_has_the_next_number_of_its_thread` for a thread that asks for one too many.
pub fn one_new_too_many_is_refused()
    ensures { (m : PlainMachine) (t o c : ℕ) → most_made ≤ length (made_by m.made t) → take m t (New o c) ≡ None }
{}

/// Not reached: a machine with a monitor whose owner there isn't (`owner`), or that is held more than 64 times (`count`); on which a thread
/// waits that there isn't (`waits`), or from which one was called that held it more than 64 times (`called`); with a thread that holds more
/// (`holds`); of which a local or a slot refers to no object of the program (`local_value`, `slot_value`); that takes a notify of a thread that
/// there isn't (`taken`), or says that one is held back by such a thread (`offer`); and that makes or asks for a fifth dump (`dumped`, `dump`). Nor
/// the first machine of a text without threads (`text`).
///
/// Refuses the conclusions of `machines_stay_reached` and `reached_machines_are_in_range`.
pub fn no_machine_out_of_range_is_reached()
    ensures owner { (m : PlainMachine) (o t : ℕ) → (monitor_at m o).owner ≡ Some t → length m.threads ≤ t
        → IsReached m → ⊥ }
    ensures count { (m : PlainMachine) (o : ℕ) → most_holds < (monitor_at m o).count → IsReached m → ⊥ }
    ensures waits { (m : PlainMachine) (o t n : ℕ) (ws : List (ℕ × ℕ)) → (monitor_at m o).waits ≡ (t, n) ∷ ws
        → length m.threads ≤ t → IsReached m → ⊥ }
    ensures called { (m : PlainMachine) (o t n : ℕ) (ws : List (ℕ × ℕ)) → (monitor_at m o).called ≡ (t, n) ∷ ws
        → most_holds < n → IsReached m → ⊥ }
    ensures holds { (m : PlainMachine) (t : ℕ) (s : ThreadState) → slice_get m.threads t ≡ Some s
        → most_holds < sum s.holds → IsReached m → ⊥ }
    ensures local_value { (m : PlainMachine) (t x o : ℕ) (s : ThreadState) → slice_get m.threads t ≡ Some s
        → local s x ≡ Ref o → length m.objects ≤ o → IsReached m → ⊥ }
    ensures slot_value { (m : PlainMachine) (p k o : ℕ) → slot_at m p k ≡ Ref o → length m.objects ≤ o
        → IsReached m → ⊥ }
    ensures taken { (m n : PlainMachine) (t o u : ℕ) → take m t (Notify o (Some u)) ≡ Some n → length m.threads ≤ u
        → IsReached m → ⊥ }
    ensures offer { (m : PlainMachine) (t o u : ℕ) → offered m t ≡ Blocked o u → length m.threads ≤ u
        → IsReached m → ⊥ }
    ensures dumped { (m n : PlainMachine) (t : ℕ) (s : ThreadState) → slice_get m.threads t ≡ Some s
        → take m t (entry.Dump 5) ≡ Some n → IsReached m → ⊥ }
    ensures dump { (m : PlainMachine) (t : ℕ) (s : ThreadState) → slice_get m.threads t ≡ Some s
        → ask s ≡ Some (Calls (Dump 5)) → IsReached m → ⊥ }
    ensures text { (p : ProgramText) (fuel : ℕ) → p.threads ≡ [] → IsReached (new_machine p fuel) → ⊥ }
{}

/// Nor is a machine reached of which a local or a slot refers to an object that isn't there. Refuses the conclusions of
/// `what_a_reached_machine_refers_to_is_there`.
pub fn no_machine_that_refers_to_what_is_not_there_is_reached()
    ensures local_value { (m : PlainMachine) (t x o : ℕ) (s : ThreadState) → slice_get m.threads t ≡ Some s
        → local s x ≡ Ref o → is_there (numbering_of m.program) m.made o ≡ false → IsReached m → ⊥ }
    ensures slot_value { (m : PlainMachine) (p k o : ℕ) → slot_at m p k ≡ Ref o
        → is_there (numbering_of m.program) m.made o ≡ false → IsReached m → ⊥ }
{}

/// No entry leaves a reached machine as it is (`same`), or with as much work or more (`more`). Refuses the conclusion of
/// `each_entry_uses_up_work`.
pub fn no_entry_leaves_the_work_that_there_was()
    ensures same { (m : PlainMachine) (t : ℕ) (e : Entry) → IsReached m → take m t e ≡ Some m → ⊥ }
    ensures more { (m n : PlainMachine) (t : ℕ) (e : Entry) → IsReached m → take m t e ≡ Some n
        → work_left m ≤ work_left n → ⊥ }
{}

/// Not taken: an entry of a thread that there isn't (`thread`), one of a thread that has ended (`ended`), and a hash that is 0 (`zero`).
/// Refuses the conclusions of `offered_entries_are_taken`.
pub fn what_is_not_offered_is_not_taken()
    ensures thread { (m : PlainMachine) (t : ℕ) (e : Entry) → length m.threads ≤ t → IsSome (take m t e) → ⊥ }
    ensures ended { (m : PlainMachine) (t : ℕ) (e : Entry) (s : ThreadState) → slice_get m.threads t ≡ Some s
        → ask s ≡ None → IsSome (take m t e) → ⊥ }
    ensures zero { (m : PlainMachine) (t o : ℕ) (drawn : Option ℕ) → IsReached m
        → IsSome (take m t (Hash o 0 drawn)) → ⊥ }
{}

/// Logs whose first entry prints an object that isn't there. Refuses the conclusion of `legal_logs_are_made_in_time`.
pub fn logs_that_print_what_is_not_there_are_not_made_in_time()
    ensures { (n : Numbering) (o stamp : ℕ) → is_there n (nothing_made n) o ≡ false
        → IsMadeInTime n ((logged stamp (Print (Ref o)) ∷ []) ∷ []) → ⊥ }
{}

/// A machine that offers an entry isn't stuck, nor have its threads all ended (`over`). The first one of a program offers an entry
/// (`offers`), and one whose only thread waits is stuck (`stuck`). Refuses the conclusions of `a_machine_that_offers_nothing_is_over`.
pub fn a_machine_that_offers_an_entry_is_not_over()
    ensures over { (m : PlainMachine) (t : ℕ) → is_next (offered m t) ≡ true
        → (is_stuck m ≡ true) ⊎ (list_all (λ s. not (is_live s)) m.threads ≡ true) → ⊥ }
    ensures offers { is_next (offered (new_machine printers 8) 0) ≡ false → ⊥ }
    ensures stuck { (m : PlainMachine) → machine_after waiter 8 waited ≡ Some m → is_stuck m ≡ false → ⊥ }
{}

/// Under logs that end with a wait, the thread has not ended, in whatever way (`waits`, `live`), and the machine is stuck (`stuck`); and a
/// thread that ended with a Done wasn't spent (`spent`). Refuses the conclusions of `ended_logs_say_how_threads_ended`.
pub fn logs_that_end_with_a_wait_say_no_ending()
    ensures waits { (m : PlainMachine) (e : Ending) → machine_after waiter 8 waited ≡ Some m
        → ending_of m 0 ≡ Some e → ⊥ }
    ensures live { (m : PlainMachine) → machine_after waiter 8 waited ≡ Some m
        → list_all (λ s. not (is_live s)) m.threads ≡ true → ⊥ }
    ensures stuck { (m : PlainMachine) → machine_after waiter 8 waited ≡ Some m → is_stuck m ≡ false → ⊥ }
    ensures spent { (m : PlainMachine) → machine_after printers 8 printed ≡ Some m
        → ending_of m 0 ≡ Some ending.Spent → ⊥ }
{}
