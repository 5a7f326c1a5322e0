//! Laws of one thread of a program and its log. The functions do nothing.

ghost use Rattle.std.specs.Prelude.{◌≡◌, ◌+◌, ◌*◌, ◌<◌, ◌≤◌, ◌++◌, ◌∷◌, [], ℕ, not, true, false, List, length, slice_get, take, Some};
ghost use Rattle.std.specs.List.{AllByRecursion};
ghost use Rattle.object_program.specs.Program.{ProgramText, objects_total, numbering_of};
ghost use Rattle.object_program.specs.Valid.{IsProgram};
ghost use Rattle.plain_history.specs.HeldByLog.{held_by, nothing_held};
ghost use Rattle.plain_history.specs.Known.{news, knows_by_log};
ghost use Rattle.plain_machine.specs.Asking.{ask, fits, thread_after};
ghost use Rattle.plain_machine.specs.Machine.{code_of, new_machine, is_live};
ghost use Rattle.machine_laws.specs.ReachedThread.{IsThreadOf};
ghost use Rattle.plain_machine.specs.Ready.{waits_on};
ghost use Rattle.plain_machine.specs.Thread.{ThreadState, local, holds_of};
ghost use Rattle.machine_laws.specs.Work.{work_of};
ghost use Rattle.plain_machine.specs.declared.monitor_call.NextEntry.{NextEntry};
ghost use Rattle.plain_monitor.specs.Made.{needs};
ghost use Rattle.plain_monitor.specs.declared.entry.Entry.{Entry};
ghost use Rattle.plain_monitor.specs.declared.entry.Value.TheVariants.{Ref};
ghost use Rattle.plain_monitor.specs.declared.entry.Logged.{Logged};
ghost use Rattle.wait_history.specs.WaitsByLog.{waits_by};
ghost use Rattle.thread_logs.specs.Followed.{FollowsCode, HasFollowed, HaveValues, ends_by, dumps_by};

/// A thread's first state follows from an empty log, and its next one from one more entry that its code takes. It is what a thread of the
/// program may be, where what it read are values of the program; and each entry uses up some of its work: its log and the work that is left
/// to it are together at most 2 for each unit of fuel and one more.
pub fn threads_stay_theirs()
    ensures first { (p : ProgramText) (fuel t : ℕ) (s : ThreadState)
        → slice_get (new_machine p fuel).threads t ≡ Some s → FollowsCode p fuel t [] s }
    ensures next { (p : ProgramText) (fuel t : ℕ) (log : List Logged) (l : Logged) (s after : ThreadState)
        → FollowsCode p fuel t log s
        → thread_after p (code_of p t) s l.entry ≡ Some after → FollowsCode p fuel t (log ++ l ∷ []) after }
    ensures thread { (p : ProgramText) (fuel t : ℕ) (log : List Logged) (s : ThreadState) → IsProgram p
        → HaveValues p log → FollowsCode p fuel t log s
        → IsThreadOf p s }
    ensures work { (p : ProgramText) (fuel t : ℕ) (log : List Logged) (s : ThreadState) → IsProgram p
        → HaveValues p log → FollowsCode p fuel t log s
        → length log + work_of s ≤ 2 * fuel + 1 }
{}

/// Where a thread stands is told by its log: how often it holds each object, whether it waits on one, whether it has ended, and how many
/// dumps and objects it has made.
pub fn a_log_tells_where_its_thread_stands()
    ensures holds { (p : ProgramText) (fuel t o : ℕ) (log : List Logged) (s : ThreadState)
        → FollowsCode p fuel t log s → o < objects_total p
        → holds_of s o ≡ held_by nothing_held log o }
    ensures waits { (p : ProgramText) (fuel t o : ℕ) (log : List Logged) (s : ThreadState) → FollowsCode p fuel t log s
        → waits_on s.mode o ≡ waits_by false log o }
    ensures ends { (p : ProgramText) (fuel t : ℕ) (log : List Logged) (s : ThreadState)
        → FollowsCode p fuel t log s → not (is_live s) ≡ ends_by log }
    ensures dumps { (p : ProgramText) (fuel t : ℕ) (log : List Logged) (s : ThreadState)
        → FollowsCode p fuel t log s → s.dumps ≡ dumps_by log }
    ensures made { (p : ProgramText) (fuel t : ℕ) (log : List Logged) (s : ThreadState) → IsProgram p
        → FollowsCode p fuel t log s → s.made ≡ length (news log) }
{}

/// What a thread asks its log tells: each object that an entry needs which fits it is declared, or the thread has made it or got it from a
/// slot; and so is each object to which its locals refer.
pub fn what_a_thread_asks_its_log_tells()
    ensures asked { (p : ProgramText) (fuel t : ℕ) (log : List Logged) (s : ThreadState) (a : NextEntry) (e : Entry)
        → IsProgram p → FollowsCode p fuel t log s → ask s ≡ Some a → fits a e ≡ true
        → AllByRecursion (λ o. knows_by_log (numbering_of p) log o ≡ true) (needs e) }
    ensures local { (p : ProgramText) (fuel t x o : ℕ) (log : List Logged) (s : ThreadState)
        → IsProgram p → FollowsCode p fuel t log s → local s x ≡ Ref o
        → knows_by_log (numbering_of p) log o ≡ true }
{}

/// The front of a log that follows its thread's code follows it, too.
pub fn fronts_of_logs_follow_the_code()
    ensures { (p : ProgramText) (fuel t n : ℕ) (log : List Logged) → HasFollowed p fuel t log
        → HasFollowed p fuel t (take n log) }
{}
