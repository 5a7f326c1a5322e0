//! Laws of the log of a program's only thread. The functions do nothing.

ghost use Rattle.std.specs.Prelude.{◌≡◌, ℕ, ◌+◌, false, List, length, slice_get, Some};
ghost use Rattle.std.specs.List.{AllByRecursion};
ghost use Rattle.lock_journal.specs.RunText.{text_of_run};
ghost use Rattle.lock_journal.specs.declared.record.RunRecord.{RunRecord};
ghost use Rattle.object_program.specs.Program.{ProgramText};
ghost use Rattle.plain_history.specs.ExactStamps.{StampsAreExact};
ghost use Rattle.plain_machine.specs.Machine.{PlainMachine};
ghost use Rattle.plain_monitor.specs.declared.entry.Logged.{Logged};
ghost use Rattle.plain_monitor.specs.History.{RisesAbove, log_of};
ghost use Rattle.single_thread_law.specs.LoneRun.{IsLoneRun, AreSameButForPaths};
ghost use Rattle.single_thread_law.specs.Shots.{HasShotsOf};

/// Where one thread alone logs, and its stamps are exact, each entry's stamp is its place in the log, from 1.
pub fn stamps_of_one_thread_count_its_entries()
    ensures { (logs : List (List Logged)) (i : ℕ) (l : Logged) → length logs ≡ 1 → AllByRecursion (RisesAbove 0) logs
        → StampsAreExact logs → slice_get (log_of logs 0) i ≡ Some l → l.stamp ≡ i + 1 }
{}

/// Any two runs of a program of one thread, under one fuel and one start of the generators of hashes, log the same but
/// for the paths of enters, and leave the same machine.
pub fn one_thread_logs_one_way()
    ensures logs { (p : ProgramText) (fuel start : ℕ) (logs others : List (List Logged)) (m n : PlainMachine)
        → IsLoneRun p fuel start logs m → IsLoneRun p fuel start others n → AreSameButForPaths logs others }
    ensures machines { (p : ProgramText) (fuel start : ℕ) (logs others : List (List Logged)) (m n : PlainMachine)
        → IsLoneRun p fuel start logs m → IsLoneRun p fuel start others n → m ≡ n }
{}

/// And they write the same text, without statistics and journal.
pub fn one_thread_writes_one_text()
    ensures { (p : ProgramText) (fuel start : ℕ) (r q : RunRecord) (m n : PlainMachine) → r.program ≡ p → q.program ≡ p
        → IsLoneRun p fuel start r.logs m → IsLoneRun p fuel start q.logs n
        → HasShotsOf p fuel r → HasShotsOf p fuel q → text_of_run false false r m ≡ text_of_run false false q n }
{}
