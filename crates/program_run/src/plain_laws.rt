//! What a run is but for its workers and its biases. The functions do nothing.

ghost use Rattle.std.specs.Prelude.{◌≡◌, false, List, Some};
ghost use Rattle.heap_table.specs.Seen.{ClosedSeen};
ghost use Rattle.lock_journal.specs.RunText.{text_of_run};
ghost use Rattle.lock_journal.specs.declared.record.RunRecord.{RunRecord};
ghost use Rattle.lock_journal.specs.declared.record.Shot.{Shot};
ghost use Rattle.single_thread_law.specs.LoneRun.{with_no_paths};
ghost use Rattle.object_program.specs.Program.{ProgramText};
ghost use Rattle.plain_machine.specs.Legal.{machine_after};
ghost use Rattle.plain_machine.specs.Machine.{PlainMachine};
ghost use Rattle.plain_monitor.specs.declared.entry.Logged.{Logged};
ghost use Rattle.program_run.specs.declared.settings.Settings.{Settings};
ghost use Rattle.program_run.specs.PlainRun.{IsMadeBy, IsPlainRun, plain_text};
ghost use Rattle.program_run.specs.Ran.{IsRan};

/// A run whose logs lose the paths of enters is one that names no workers, no turns, no ticks and no biases; and what is written of it
/// without statistics and journal is what is written of that.
pub fn runs_without_paths_are_plain()
    ensures run { (s : Settings) (p : ProgramText) (r : RunRecord) (c : ClosedSeen) (m : PlainMachine) → IsRan s p r c
        → machine_after p s.fuel r.logs ≡ Some m → IsPlainRun p s.fuel s.start (with_no_paths r.logs) r.shots m }
    ensures text { (s : Settings) (p : ProgramText) (r : RunRecord) (c : ClosedSeen) (m : PlainMachine) → IsRan s p r c
        → machine_after p s.fuel r.logs ≡ Some m
        → text_of_run false false r m ≡ plain_text p (with_no_paths r.logs) r.shots m }
{}

/// And what is said of a run under any settings, with biases or without, allows each of these: with biases the first enter of each object
/// may take its bias, and all other enters may go by stack locks.
pub fn plain_runs_are_runs_of_all_settings()
    ensures { (s : Settings) (p : ProgramText) (logs : List (List Logged)) (shots : List (List Shot)) (m : PlainMachine)
        → IsPlainRun p s.fuel s.start logs shots m → IsMadeBy s p logs shots }
{}
