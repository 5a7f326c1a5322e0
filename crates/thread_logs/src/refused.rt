//! Laws that what is said of a thread and its log is refused where it is wrong. The functions do nothing.

ghost use Rattle.std.specs.Prelude.{◌≡◌, ◌≢◌, ◌+◌, ◌*◌, ◌<◌, ◌≤◌, ◌++◌, ◌∷◌, [], ℕ, true, false, List, length, sum, drop, slice_get, Some, None};
ghost use Rattle.object_program.specs.Program.{ProgramText, objects_total, numbering_of, shape_of};
ghost use Rattle.object_program.specs.Valid.{IsProgram};
ghost use Rattle.plain_history.specs.Known.{knows_by_log};
ghost use Rattle.plain_machine.specs.Asking.{ask, thread_after};
ghost use Rattle.plain_machine.specs.Legal.{IsLegal, machine_after};
ghost use Rattle.plain_machine.specs.Machine.{PlainMachine, code_of, new_machine, is_live};
ghost use Rattle.plain_machine.specs.Ready.{waits_on};
ghost use Rattle.plain_machine.specs.Thread.{ThreadState, local, holds_of};
ghost use Rattle.plain_machine.specs.declared.monitor_call.MonitorCall.TheVariants as call;
ghost use Rattle.plain_machine.specs.declared.monitor_call.Mode.TheVariants.{Ended};
ghost use Rattle.plain_machine.specs.declared.monitor_call.NextEntry.TheVariants.{Calls};
ghost use Rattle.plain_monitor.specs.History.{log_of, objects_after};
ghost use Rattle.plain_monitor.specs.Limits.{most_holds};
ghost use Rattle.plain_monitor.specs.Objects.{PlainObject};
ghost use Rattle.plain_monitor.specs.declared.entry.Ending.{Ending};
ghost use Rattle.plain_monitor.specs.declared.entry.Entry.TheVariants as entry;
ghost use Rattle.plain_monitor.specs.declared.entry.Path.{Path};
ghost use Rattle.plain_monitor.specs.declared.entry.Value.TheVariants.{Ref};
ghost use Rattle.plain_monitor.specs.declared.entry.Logged.{Logged};
ghost use Rattle.machine_laws.specs.ReachedThread.{IsThreadOf};
ghost use Rattle.thread_logs.specs.Examples.{printers, entered, prints_from, in_turn};
ghost use Rattle.thread_logs.specs.Followed.{FollowsCode, HasFollowed, HaveFollowed, HaveValues};
ghost use Rattle.thread_logs.specs.Passed.{IsOnTheWay};

use crate::joins::the_machine_is_what_the_logs_make_it;

/// An entry that its thread's code doesn't ask: no log goes on with one. So no thread has moved on before its first entry, and the rest
/// of a log that follows its code needn't follow it, though each front does.
///
/// Refuses the conclusions of `threads_stay_theirs` that speak of logs, and that of `fronts_of_logs_follow_the_code`.
pub fn no_log_with_an_entry_that_its_code_does_not_ask()
    ensures next { (p : ProgramText) (fuel t : ℕ) (log : List Logged) (l : Logged) (s : ThreadState)
        → FollowsCode p fuel t log s → thread_after p (code_of p t) s l.entry ≡ None
        → HasFollowed p fuel t (log ++ l ∷ []) → ⊥ }
    ensures first { (p : ProgramText) (fuel t : ℕ) (first s : ThreadState)
        → slice_get (new_machine p fuel).threads t ≡ Some first → s ≢ first → FollowsCode p fuel t [] s → ⊥ }
    ensures rest { HasFollowed printers 8 0 (drop 1 (prints_from 1)) → ⊥ }
{}

/// A state that no thread of a program has: it holds objects more than 64 times, or has ended and still holds one. And a log that is
/// longer than the fuel allows.
///
/// Refuses what `threads_stay_theirs` says of a thread and of its work.
pub fn no_thread_beyond_its_holds_or_its_fuel()
    ensures deep { (p : ProgramText) (s : ThreadState) → most_holds < sum s.holds → IsThreadOf p s → ⊥ }
    ensures ended { (p : ProgramText) (s : ThreadState) (ending : Ending) → s.mode ≡ Ended ending → 1 ≤ sum s.holds
        → IsThreadOf p s → ⊥ }
    ensures long { (p : ProgramText) (fuel t : ℕ) (log : List Logged) → IsProgram p → HaveValues p log
        → 2 * fuel + 1 < length log → HasFollowed p fuel t log → ⊥ }
{}

/// A thread that stands elsewhere than its log says: it holds what it has left, doesn't wait after its Wait, goes on after its end, or
/// has made no dump or no object where its log has one.
///
/// Refuses the conclusions of `a_log_tells_where_its_thread_stands`.
pub fn no_thread_stands_elsewhere_than_its_log_says()
    ensures holds { (p : ProgramText) (fuel t o m n : ℕ) (path : Path) (s : ThreadState) → o < objects_total p
        → 1 ≤ holds_of s o
        → FollowsCode p fuel t
        (record { stamp = m; entry = entry.Enter o path } ∷ record { stamp = n; entry = entry.Exit o } ∷ []) s → ⊥ }
    ensures waits { (p : ProgramText) (fuel t o m n : ℕ) (path : Path) (s : ThreadState) → waits_on s.mode o ≡ false
        → FollowsCode p fuel t
        (record { stamp = m; entry = entry.Enter o path } ∷ record { stamp = n; entry = entry.Wait o } ∷ []) s → ⊥ }
    ensures ends { (p : ProgramText) (fuel t n : ℕ) (s : ThreadState) → is_live s ≡ true
        → FollowsCode p fuel t (record { stamp = n; entry = entry.Done } ∷ []) s → ⊥ }
    ensures dumps { (p : ProgramText) (fuel t n : ℕ) (s : ThreadState) → s.dumps ≡ 0
        → FollowsCode p fuel t (record { stamp = n; entry = entry.Dump 1 } ∷ []) s → ⊥ }
    ensures made { (p : ProgramText) (fuel t n o c : ℕ) (s : ThreadState) → IsProgram p → s.made ≡ 0
        → FollowsCode p fuel t (record { stamp = n; entry = entry.New o c } ∷ []) s → ⊥ }
{}

/// A thread that refers to an object of which its log doesn't tell: it asks to print it, or a local refers to it.
///
/// Refuses the conclusions of `what_a_thread_asks_its_log_tells`.
pub fn no_reference_that_no_entry_brought()
    ensures asked { (p : ProgramText) (fuel t o : ℕ) (log : List Logged) (s : ThreadState) → IsProgram p
        → knows_by_log (numbering_of p) log o ≡ false → ask s ≡ Some (Calls (call.Print (Ref o)))
        → FollowsCode p fuel t log s → ⊥ }
    ensures local { (p : ProgramText) (fuel t x o : ℕ) (log : List Logged) (s : ThreadState) → IsProgram p
        → knows_by_log (numbering_of p) log o ≡ false → local s x ≡ Ref o → FollowsCode p fuel t log s → ⊥ }
{}

/// A cut that has the second thread's enter, and leaves out the first thread's, which stands before it: no machine under the logs so cut
/// takes the other entries.
///
/// Refuses the conclusion of `machines_pass_through_a_cut_in_order`.
pub fn no_machine_passes_through_a_cut_that_leaves_out_an_earlier_entry()
    ensures { (last machine : PlainMachine) → IsOnTheWay printers 8 in_turn (0 ∷ 1 ∷ []) last machine → ⊥ }
{}

/// Logs of two threads that own the object at once, though each follows its own code: they are no program's, and no machine is under
/// them.
///
/// Refuses the conclusion of `logs_that_follow_the_code_are_legal`, and what `the_machine_is_what_the_logs_make_it` asks for.
pub fn no_logs_of_two_owners_are_legal()
    ensures legal { IsLegal printers 8 ((entered 1 ∷ []) ∷ (entered 2 ∷ []) ∷ []) → ⊥ }
    ensures machine { (m : PlainMachine)
        → machine_after printers 8 ((entered 1 ∷ []) ∷ (entered 2 ∷ []) ∷ []) ≡ Some m → ⊥ }
{}

/// A machine under logs that follow their threads' code, and that has other objects than those after the logs, or a thread more or less
/// than the program; or one of whose threads stands elsewhere than the thread that its log leads to.
///
/// Refuses the conclusions of `the_machine_is_what_the_logs_make_it`.
pub fn no_machine_beside_its_logs()
    ensures objects { (p : ProgramText) (fuel : ℕ) (logs : List (List Logged)) (m : PlainMachine)
        (objects : List PlainObject) → HaveFollowed p fuel logs
        → objects_after (shape_of p) logs ≡ Some objects → m.objects ≢ objects
        → machine_after p fuel logs ≡ Some m → ⊥ }
    ensures threads { (p : ProgramText) (fuel : ℕ) (logs : List (List Logged)) (m : PlainMachine)
        → HaveFollowed p fuel logs → length m.threads ≢ length p.threads
        → machine_after p fuel logs ≡ Some m → ⊥ }
    ensures each { (p : ProgramText) (fuel t : ℕ) (logs : List (List Logged)) (m : PlainMachine) (s now : ThreadState)
        → HaveFollowed p fuel logs → FollowsCode p fuel t (log_of logs t) now
        → slice_get m.threads t ≡ Some s → s ≢ now → machine_after p fuel logs ≡ Some m → ⊥ }
{
    the_machine_is_what_the_logs_make_it();
}
