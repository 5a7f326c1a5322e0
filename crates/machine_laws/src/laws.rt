//! What holds of every machine that a program's entries lead to.

ghost use Rattle.std.specs.Prelude.{◌≡◌, ◌⊎◌, ℕ, ◌<◌, ◌≤◌, ◌+◌, ◌^◌, Bool, true, false, not, length, sum, slice_get, ◌==◌, IsSome, is_some, Option, Some, List};
ghost use Rattle.std.specs.List.{AllByRecursion, list_all};
ghost use Rattle.plain_monitor.specs.Limits.{most_holds};
ghost use Rattle.plain_monitor.specs.declared.entry.Ending.{Ending};
ghost use Rattle.plain_monitor.specs.declared.entry.Entry.{Entry};
ghost use Rattle.plain_monitor.specs.declared.entry.Entry.TheVariants.{Enter, Hash};
ghost use Rattle.plain_monitor.specs.declared.entry.Entry.TheVariants as entry;
ghost use Rattle.plain_monitor.specs.declared.entry.Path.{Path};
ghost use Rattle.plain_monitor.specs.declared.entry.Value.TheVariants.{Ref};
ghost use Rattle.plain_monitor.specs.declared.entry.Logged.{Logged};
ghost use Rattle.plain_monitor.specs.History.{log_of};
ghost use Rattle.plain_monitor.specs.Made.{is_there, IsMadeInTime};
ghost use Rattle.object_program.specs.Program.{ProgramText, numbering_of};
ghost use Rattle.object_program.specs.Valid.{IsProgram};
ghost use Rattle.plain_machine.specs.declared.monitor_call.MonitorCall.TheVariants.{Dump};
ghost use Rattle.plain_machine.specs.declared.monitor_call.MonitorCall.TheVariants as call;
ghost use Rattle.plain_machine.specs.declared.monitor_call.NextEntry.TheVariants.{Calls};
ghost use Rattle.plain_machine.specs.declared.offer.Offer.TheVariants.{Next, NextHash};
ghost use Rattle.plain_machine.specs.Thread.{ThreadState, local};
ghost use Rattle.plain_machine.specs.Asking.{ask};
ghost use Rattle.plain_machine.specs.Machine.{PlainMachine, new_machine, take, ending_of, monitor_at, slot_at, is_live, is_stuck};
ghost use Rattle.plain_machine.specs.Legal.{IsLegal, machine_after};
ghost use Rattle.plain_machine.specs.Offering.{next_made, offered, is_next};
ghost use Rattle.machine_laws.specs.Work.{work_left};
ghost use Rattle.plain_machine.specs.Values.{IsValueOf};
ghost use Rattle.machine_laws.specs.Reached.{IsReached};
ghost use Rattle.machine_laws.specs.LogEnds.{ending_said, HaveEnded};
ghost use Rattle.machine_laws.specs.ReachedEntry.{IsEntryOf, IsOfferOf};

/// A machine before its first entry is one that is reached, and so is each one after an entry of such a machine.
pub fn machines_stay_reached()
    ensures first { (p : ProgramText) (fuel : ℕ) → IsProgram p → IsReached (new_machine p fuel) }
    ensures each { (m n : PlainMachine) (t : ℕ) (e : Entry) → IsReached m → take m t e ≡ Some n → IsReached n }
{}

/// Each entry uses up some of the machine's work, so that a program has no endless run.
pub fn each_entry_uses_up_work()
    ensures { (m n : PlainMachine) (t : ℕ) (e : Entry) → IsReached m → take m t e ≡ Some n → work_left n < work_left m }
{}

/// The machine takes each entry that it offers, and for an object without a hash each one that hashes it.
pub fn offered_entries_are_taken()
    ensures next { (m : PlainMachine) (t : ℕ) (e : Entry) → IsReached m → offered m t ≡ Next e → IsSome (take m t e) }
    ensures hash { (m : PlainMachine) (t o value : ℕ) (drawn : Option ℕ) → IsReached m
        → offered m t ≡ NextHash o → 1 ≤ value → value < 2 ^ 31 → IsSome (take m t (Hash o value drawn)) }
{}

/// Each thread and each object that a reached machine names is one of its own: in its monitors, its locals and slots, the entries
/// that it takes and its offers. Counts, values, hashes and the numbers of dumps are in their ranges.
pub fn reached_machines_are_in_range()
    ensures owner { (m : PlainMachine) (o t : ℕ) → IsReached m → (monitor_at m o).owner ≡ Some t
        → t < length m.threads }
    ensures count { (m : PlainMachine) (o : ℕ) → IsReached m → (monitor_at m o).count ≤ most_holds }
    ensures waits { (m : PlainMachine) (o : ℕ) → IsReached m
        → AllByRecursion (λ w. (w.0 < length m.threads) × (w.1 ≤ most_holds)) (monitor_at m o).waits }
    ensures called { (m : PlainMachine) (o : ℕ) → IsReached m
        → AllByRecursion (λ w. (w.0 < length m.threads) × (w.1 ≤ most_holds)) (monitor_at m o).called }
    ensures holds { (m : PlainMachine) (t : ℕ) (s : ThreadState) → IsReached m
        → slice_get m.threads t ≡ Some s → sum s.holds ≤ most_holds }
    ensures local_value { (m : PlainMachine) (t x : ℕ) (s : ThreadState) → IsReached m
        → slice_get m.threads t ≡ Some s → IsValueOf (length m.objects) (local s x) }
    ensures slot_value { (m : PlainMachine) (o k : ℕ) → IsReached m → IsValueOf (length m.objects) (slot_at m o k) }
    ensures taken { (m n : PlainMachine) (t : ℕ) (e : Entry) → IsReached m → take m t e ≡ Some n
        → IsEntryOf (length m.objects) (length m.threads) e }
    ensures offer { (m : PlainMachine) (t : ℕ) → IsReached m
        → IsOfferOf (length m.objects) (length m.threads) (offered m t) }
    ensures dumped { (m n : PlainMachine) (t number : ℕ) (s : ThreadState) → IsReached m
        → slice_get m.threads t ≡ Some s → take m t (entry.Dump number) ≡ Some n → (number ≡ s.dumps + 1)
        × (number ≤ 4) }
    ensures dump { (m : PlainMachine) (t number : ℕ) (s : ThreadState) → IsReached m
        → slice_get m.threads t ≡ Some s → ask s ≡ Some (Calls (Dump number)) → (number ≡ s.dumps + 1)
        × (number ≤ 4) }
{}

/// An object that a local or a slot of a reached machine refers to is there.
pub fn what_a_reached_machine_refers_to_is_there()
    ensures local_value { (m : PlainMachine) (t x o : ℕ) (s : ThreadState) → IsReached m
        → slice_get m.threads t ≡ Some s → local s x ≡ Ref o → is_there (numbering_of m.program) m.made o ≡ true }
    ensures slot_value { (m : PlainMachine) (p k o : ℕ) → IsReached m
        → slot_at m p k ≡ Ref o → is_there (numbering_of m.program) m.made o ≡ true }
{}

/// A thread that asks for a new object makes it by its next number, and by no other one.
pub fn a_new_object_has_the_next_number_of_its_thread()
    ensures { (m : PlainMachine) (t x c o : ℕ) (s : ThreadState) → IsReached m
        → slice_get m.threads t ≡ Some s → ask s ≡ Some (Calls (call.New x c))
        → is_some (take m t (entry.New o c)) ≡ (o == next_made m t) }
{}

/// Legal logs are made in time: each entry of their order finds the objects that it needs.
pub fn legal_logs_are_made_in_time()
    ensures { (p : ProgramText) (fuel : ℕ) (logs : List (List Logged)) → IsLegal p fuel logs
        → IsMadeInTime (numbering_of p) logs }
{}

/// Neither the path of an enter nor the draw of a hash changes what a machine makes of it.
pub fn paths_and_draws_change_nothing()
    ensures path { (m : PlainMachine) (t o : ℕ) (p q : Path) → take m t (Enter o p) ≡ take m t (Enter o q) }
    ensures drawn { (m : PlainMachine) (t o value : ℕ) (p q : Option ℕ)
        → take m t (Hash o value p) ≡ take m t (Hash o value q) }
{}

/// A machine offers no thread an entry just where it is stuck or all its threads have ended, and it is not both.
pub fn a_machine_that_offers_nothing_is_over()
    ensures over { (m : PlainMachine) → ((t : ℕ) → t < length m.threads → is_next (offered m t) ≡ false)
        → (is_stuck m ≡ true) ⊎ (list_all (λ s. not (is_live s)) m.threads ≡ true) }
    ensures stuck { (m : PlainMachine) (t : ℕ) → is_stuck m ≡ true → is_next (offered m t) ≡ false }
    ensures ended { (m : PlainMachine) (t : ℕ) → list_all (λ s. not (is_live s)) m.threads ≡ true
        → is_next (offered m t) ≡ false }
    ensures apart { (m : PlainMachine) → list_all (λ s. not (is_live s)) m.threads ≡ true → is_stuck m ≡ false }
{}

/// Under legal logs, a thread that logged an ending has ended so. Where each log ends with its ending entry, every thread of the
/// machine under them has ended, and it isn't stuck.
pub fn ended_logs_say_how_threads_ended()
    ensures each { (p : ProgramText) (fuel : ℕ) (logs : List (List Logged)) (m : PlainMachine) (t k : ℕ) (l : Logged)
        (e : Ending) → IsLegal p fuel logs → machine_after p fuel logs ≡ Some m
        → slice_get (log_of logs t) k ≡ Some l → ending_said l.entry ≡ Some e → ending_of m t ≡ Some e }
    ensures all { (p : ProgramText) (fuel : ℕ) (logs : List (List Logged)) (m : PlainMachine)
        → IsLegal p fuel logs → machine_after p fuel logs ≡ Some m → length logs ≡ length p.threads → HaveEnded logs
        → list_all (λ s. not (is_live s)) m.threads ≡ true }
    ensures stuck { (p : ProgramText) (fuel : ℕ) (logs : List (List Logged)) (m : PlainMachine)
        → IsLegal p fuel logs → machine_after p fuel logs ≡ Some m → length logs ≡ length p.threads → HaveEnded logs
        → is_stuck m ≡ false }
{}
