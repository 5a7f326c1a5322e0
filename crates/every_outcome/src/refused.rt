//! Laws that what is said of entries, lists and machines is refused where it is wrong: entries that don't go alone, lists that leave out an end, and
//! machines that are no program's. The functions do nothing.

ghost use Rattle.std.specs.Prelude.{◌≡◌, ◌≢◌, ◌⊎◌, ◌+◌, ℕ, false, List, [], ◌∷◌, slice_get, Option, Some, None};
ghost use Rattle.plain_monitor.specs.declared.entry.Path.{Path};
ghost use Rattle.plain_monitor.specs.declared.entry.Entry.{Entry};
ghost use Rattle.plain_monitor.specs.declared.entry.Entry.TheVariants.{Enter, Resume, Hash, Done};
ghost use Rattle.plain_monitor.specs.declared.entry.Logged.{Logged};
ghost use Rattle.object_program.specs.declared.program.Code.{Code};
ghost use Rattle.object_program.specs.declared.program.Code.TheVariants as code;
ghost use Rattle.object_program.specs.Program.{ProgramText};
ghost use Rattle.plain_machine.specs.declared.monitor_call.MonitorCall.{MonitorCall};
ghost use Rattle.plain_machine.specs.declared.monitor_call.MonitorCall.TheVariants as call;
ghost use Rattle.plain_machine.specs.declared.monitor_call.Mode.TheVariants.{Calling};
ghost use Rattle.plain_machine.specs.declared.offer.Offer.TheVariants as offer;
ghost use Rattle.plain_machine.specs.Thread.{ThreadState};
ghost use Rattle.plain_machine.specs.Running.{instruction_at, run_on};
ghost use Rattle.plain_machine.specs.Legal.{after_all, machine_after};
ghost use Rattle.plain_machine.specs.Machine.{PlainMachine, code_of, is_stuck, new_machine, take};
ghost use Rattle.machine_laws.specs.Examples.{logged, printed, printers, waited, waiter};
ghost use Rattle.machine_laws.specs.Reached.{IsReached};
ghost use Rattle.every_outcome.specs.Covered.{IsSeen, IsClosed, TakesNothing};
ghost use Rattle.every_outcome.specs.Fuel.{HasSpent, refuelled, with_fuel};
ghost use Rattle.every_outcome.specs.Led.{IsAfterLogs};
ghost use Rattle.every_outcome.specs.NoHash.{AsksNoHash};
ghost use Rattle.every_outcome.specs.Offers.{StandsFor};
ghost use Rattle.every_outcome.specs.Stands.{AllStand, IsAtCall};

/// Of threads that may enter, the one that does shuts the others out, so that a first enter doesn't go alone.
/// Refuses the conclusion of `alone_entries_commute` for entries that don't go alone, as the next two do.
pub fn first_enters_do_not_go_alone()
    ensures { (m a : PlainMachine) (t u o : ℕ) (p q : Path) → t ≢ u → take m t (Enter o p) ≡ Some a
        → take a u (Enter o q) ≡ None }
{}

/// The same of threads that may resume.
pub fn resumes_do_not_go_alone()
    ensures { (m a : PlainMachine) (t u o : ℕ) → t ≢ u → take m t (Resume o) ≡ Some a → take a u (Resume o) ≡ None }
{}

/// A hash keeps each other one out, also where its thread owns the object.
pub fn hashes_do_not_go_alone()
    ensures { (m a : PlainMachine) (t u o v w : ℕ) (d g : Option ℕ) → v ≢ w → take m t (Hash o v d) ≡ Some a
        → take a u (Hash o w g) ≡ None }
{}

/// A list isn't closed without a machine that takes nothing after an entry of one of its own, of whichever thread.
pub fn a_list_that_leaves_out_an_end_is_refused()
    ensures { (p : ProgramText) (fuel : ℕ) (seen : List PlainMachine) (m n : PlainMachine) (t : ℕ) (e : Entry)
        → IsSeen seen m → take m t e ≡ Some n → TakesNothing n → (IsSeen seen n → ⊥) → IsClosed p fuel seen → ⊥ }
{}

/// The end of a program whose threads print is not in a list of its first machine alone, with its own fuel (`closed`) or all of it
/// again (`full`). Refuses the conclusions of `closed_lists_have_every_end` and `full_lists_have_every_end_of_any_fuel`.
pub fn a_list_of_the_first_machine_alone_has_no_end()
    ensures closed { (n : PlainMachine) → machine_after printers 8 printed ≡ Some n
        → IsSeen (new_machine printers 8 ∷ []) n → ⊥ }
    ensures full { (n : PlainMachine) → machine_after printers 8 printed ≡ Some n
        → HasSpent n ⊎ IsSeen (refuelled 8 (new_machine printers 8) ∷ []) (refuelled 8 n) → ⊥ }
{}

/// A thread that waits and that nobody notifies is stuck, and not for want of fuel. Refuses the conclusion of
/// `lists_without_stuck_machines`.
pub fn a_thread_that_nobody_notifies_is_stuck()
    ensures { (n : PlainMachine) → machine_after waiter 8 waited ≡ Some n → HasSpent n ⊎ (is_stuck n ≡ false) → ⊥ }
{}

/// A machine of another program is under no logs of this one. Refuses the conclusion of `led_machines_are_under_legal_logs`.
pub fn a_machine_of_another_program_is_under_no_logs()
    ensures { (p : ProgramText) (fuel : ℕ) (m : PlainMachine) → m.program ≢ p → IsAfterLogs p fuel m → ⊥ }
{}

/// No machine is found by an entry that isn't taken (`entry`), nor one of which a thread hasn't its fuel
/// back (`fuel`). Refuses the conclusion of `found_machines_are_real`.
pub fn what_entries_do_not_lead_to_is_not_found()
    ensures entry { (r : PlainMachine)
        → (n : PlainMachine) × (after_all (new_machine printers 16) ((0, logged 1 Done) ∷ []) ≡ Some n)
        × (refuelled 8 n ≡ r) → ⊥ }
    ensures fuel { (p : ProgramText) (fuel top t : ℕ) (xs : List (ℕ × Logged)) (r : PlainMachine) (s : ThreadState)
        → slice_get r.threads t ≡ Some s → s.fuel ≢ top
        → (n : PlainMachine) × (after_all (new_machine p fuel) xs ≡ Some n) × (refuelled top n ≡ r) → ⊥ }
{}

/// What bars a thread stands for no entry, and the enter of an object for none of another. Refuses the conclusion of
/// `taken_entries_are_offered`.
pub fn what_bars_a_thread_stands_for_no_entry()
    ensures blocked { (o u : ℕ) (e : Entry) → StandsFor (offer.Blocked o u) e → ⊥ }
    ensures waiting { (o : ℕ) (e : Entry) → StandsFor (offer.Waiting o) e → ⊥ }
    ensures ended { (e : Entry) → StandsFor offer.Ended e → ⊥ }
    ensures other { (o k : ℕ) (p q : Path) → o ≢ k → StandsFor (offer.Next (Enter o p)) (Enter k q) → ⊥ }
{}

/// A thread that was spent before its end comes to it with more fuel. Refuses the conclusion of `more_fuel_changes_nothing`.
pub fn a_spent_thread_goes_on_with_more_fuel()
    ensures { (p : ProgramText) (g top : ℕ) (s : ThreadState) → s.place ≡ 0
        → with_fuel top (run_on p (code.End ∷ []) (0 + 1) (with_fuel g s))
        ≡ with_fuel top (run_on p (code.End ∷ []) 0 s) → ⊥ }
{}

/// Where an entry is a hash, or a thread stands before the call for one, the machine doesn't ask for none. Refuses the
/// conclusions of `no_hash_without_its_instruction`.
pub fn a_machine_that_takes_a_hash_asks_for_one()
    ensures taken { (m n : PlainMachine) (t o v : ℕ) (drawn : Option ℕ) → take m t (Hash o v drawn) ≡ Some n
        → AsksNoHash m → ⊥ }
    ensures before { (m : PlainMachine) (t x o : ℕ) (s : ThreadState) → slice_get m.threads t ≡ Some s
        → s.mode ≡ Calling (call.Hash x o) → AsksNoHash m → ⊥ }
{}

/// A machine with a thread before a call isn't reached any more where its threads get no fuel (`fuel`), nor one in which a thread
/// holds otherwise than in a reached machine with the same objects (`holds`). Refuses the conclusions of
/// `reached_machines_in_a_search`.
pub fn machines_without_fuel_or_with_other_holds_are_not_reached()
    ensures fuel { (m : PlainMachine) (t : ℕ) (s : ThreadState) (c : MonitorCall) → slice_get m.threads t ≡ Some s
        → s.mode ≡ Calling c → IsReached (refuelled 0 m) → ⊥ }
    ensures holds { (m n : PlainMachine) (t : ℕ) (s u : ThreadState) → IsReached m → m.program ≡ n.program
        → m.objects ≡ n.objects → slice_get m.threads t ≡ Some s → slice_get n.threads t ≡ Some u → s.holds ≢ u.holds
        → IsReached n → ⊥ }
{}

/// No thread stands before a call at its `end` (`end`), nor before two calls at one instruction (`two`). Refuses the conclusions of
/// `threads_stand_before_their_calls`.
pub fn no_thread_stands_before_a_call_of_another_instruction()
    ensures end { (m : PlainMachine) (t : ℕ) (s : ThreadState) (c : MonitorCall) → slice_get m.threads t ≡ Some s
        → s.mode ≡ Calling c → instruction_at (code_of m.program t) s.place ≡ code.End → AllStand m → ⊥ }
    ensures two { (p : ProgramText) (instructions : List Code) (s : ThreadState) (fuel fuel2 : ℕ) (c d : MonitorCall)
        → c ≢ d → IsAtCall p instructions (record s { fuel = fuel; mode = Calling c }) (Calling c)
        → IsAtCall p instructions (record s { fuel = fuel2; mode = Calling d }) (Calling d) → ⊥ }
{}

/// Another object, and another hash, are another entry, of which a machine makes something else or nothing. Refuses the conclusions of
/// `machine_laws::paths_and_draws_change_nothing`.
pub fn another_object_or_hash_is_another_entry()
    ensures object { (m a : PlainMachine) (t o k : ℕ) (p q : Path) → o ≢ k → take m t (Enter o p) ≡ Some a
        → take m t (Enter o p) ≡ take m t (Enter k q) → ⊥ }
    ensures hash { (m a : PlainMachine) (t o v w : ℕ) (d g : Option ℕ) → v ≢ w → take m t (Hash o v d) ≡ Some a
        → take m t (Hash o v d) ≡ take m t (Hash o w g) → ⊥ }
{}
