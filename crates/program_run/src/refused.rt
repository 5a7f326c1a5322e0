//! Laws that records, logs and lines which are none of a run are refused, whatever else is in them. The functions do nothing.

ghost use Rattle.std.specs.Prelude.{◌≡◌, ℕ, ◌+◌, ◌*◌, ◌<◌, ◌≤◌, Bool, false, List, [], ◌∷◌, ◌++◌, take};
ghost use Rattle.std.specs.Prelude.{slice_get, slice_index, Some, None, IsTrue};
ghost use Rattle.std.specs.List.{sum_by};
ghost use Rattle.heap_table.specs.Seen.{ClosedSeen};
ghost use Rattle.lock_journal.specs.MachineCells.{cells_in};
ghost use Rattle.lock_journal.specs.RunText.{text_of_run};
ghost use Rattle.lock_journal.specs.declared.record.ClassLine.{ClassLine};
ghost use Rattle.lock_journal.specs.declared.record.RunRecord.{RunRecord};
ghost use Rattle.lock_journal.specs.declared.record.Shot.{Shot};
ghost use Rattle.lock_policy.specs.Policy.{rebias_threshold};
ghost use Rattle.object_program.specs.Program.{ProgramText};
ghost use Rattle.plain_history.specs.Cuts.{cut_logs};
ghost use Rattle.plain_history.specs.Tied.{is_tied};
ghost use Rattle.plain_machine.specs.Machine.{PlainMachine};
ghost use Rattle.plain_monitor.specs.declared.entry.Entry.TheVariants.{Enter, Exit, Done};
ghost use Rattle.plain_monitor.specs.declared.entry.Path.TheVariants.{BiasOwn, BiasTaken};
ghost use Rattle.plain_monitor.specs.declared.entry.Logged.{Logged};
ghost use Rattle.plain_monitor.specs.History.{log_of};
ghost use Rattle.plain_monitor.specs.Order.{is_before};
ghost use Rattle.single_thread_law.specs.LoneExample.{lone_end, lone_fuel, lone_logs, lone_program, lone_shots};
ghost use Rattle.thread_logs.specs.Passed.{IsOnTheWay};
ghost use Rattle.program_run.specs.declared.settings.Settings.{Settings};
ghost use Rattle.program_run.specs.Biases.{RecordObeysBiasLaw, class_in, verdicts_on};
ghost use Rattle.program_run.specs.PlainRun.{IsMadeBy, IsPlainRun, plain_text};
ghost use Rattle.program_run.specs.Ran.{IsRan};
ghost use Rattle.program_run.specs.Shots.{AreRightShots, shots_of};
ghost use Rattle.program_run.specs.Verdicts.{entries_in, most_verdicts};

/// A thread takes the bias of an object and lets go of it, and another one, which never took it, enters the object by a bias of its own. Refuses the
/// law of biases in the runs that `plain_runs_are_runs_of_all_settings` gives.
pub fn no_record_with_a_bias_from_nowhere()
    ensures { (tick : ℕ) (r : RunRecord) (c : ClosedSeen)
        → r.logs ≡ (record { stamp = 1; entry = Enter 0 BiasTaken } ∷ record { stamp = 2; entry = Exit 0 } ∷ [])
        ∷ (record { stamp = 3; entry = Enter 0 BiasOwn } ∷ []) ∷ []
        → RecordObeysBiasLaw tick r c → ⊥ }
{}

/// Two threads take the bias of an object, one after the other, and its class was never rebiased in bulk. Refuses the law of biases in the runs that
/// `plain_runs_are_runs_of_all_settings` gives.
pub fn no_record_with_a_bias_that_wanders()
    ensures { (tick k : ℕ) (r : RunRecord) (c : ClosedSeen) (line : ClassLine)
        → r.logs ≡ (record { stamp = 1; entry = Enter 0 BiasTaken } ∷ record { stamp = 2; entry = Exit 0 } ∷ [])
        ∷ (record { stamp = 3; entry = Enter 0 BiasTaken } ∷ []) ∷ []
        → class_in r 0 ≡ Some k → slice_get r.classes k ≡ Some line → line.rebias ≡ 0
        → RecordObeysBiasLaw tick r c → ⊥ }
{}

/// A dump leaves out an entry of thread v, as it cuts that log, though the entry stands before one of thread u that the dump has, and is tied to
/// it. So no dump looks at its own thread's log alone, and has nothing of the others', where its thread entered an object that another one had
/// let go of. Refuses the shots in the conclusion of `runs_without_paths_are_plain`.
pub fn no_record_with_a_dump_that_leaves_out_an_earlier_entry()
    ensures { (p : ProgramText) (fuel : ℕ) (r : RunRecord) (t k u v i j : ℕ) (shot : Shot) (l m : Logged)
        → slice_get (shots_of r.shots t) k ≡ Some shot
        → slice_get (log_of r.logs u) i ≡ Some l → i < slice_index shot.cut u
        → slice_get (log_of r.logs v) j ≡ Some m → slice_index shot.cut v ≤ j
        → IsTrue (is_tied l.entry m.entry) → IsTrue (is_before (v, m) (u, l))
        → AreRightShots p fuel r.logs r.shots → ⊥ }
{}

/// A run of the small program that stops before its thread has ended, with all else as it was. It is no plain run, and no settings make it. Refuses
/// the conclusions of `runs_without_paths_are_plain` and `plain_runs_are_runs_of_all_settings`.
pub fn no_run_that_leaves_its_thread_unfinished()
    ensures plain { (start : ℕ) (shots : List (List Shot)) (m : PlainMachine)
        → IsPlainRun lone_program lone_fuel start (cut_logs (4 ∷ []) lone_logs) shots m → ⊥ }
    ensures made { (s : Settings) (shots : List (List Shot)) → s.fuel ≡ lone_fuel
        → IsMadeBy s lone_program (cut_logs (4 ∷ []) lone_logs) shots → ⊥ }
{}

/// A run of it whose last entry has a stamp too late by one. Refuses the conclusions of `runs_without_paths_are_plain` and
/// `plain_runs_are_runs_of_all_settings`.
pub fn no_run_that_leaves_out_a_stamp()
    ensures plain { (start : ℕ) (shots : List (List Shot)) (m : PlainMachine)
        → IsPlainRun lone_program lone_fuel start
        ((take 4 (log_of lone_logs 0) ++ record { stamp = 6; entry = Done } ∷ []) ∷ []) shots m → ⊥ }
    ensures made { (s : Settings) (shots : List (List Shot)) → s.fuel ≡ lone_fuel
        → IsMadeBy s lone_program ((take 4 (log_of lone_logs 0) ++ record { stamp = 6; entry = Done } ∷ []) ∷ []) shots → ⊥ }
{}

/// What is written of a run isn't told by its logs and its end alone: without the shot of its dump it is another text. Refuses the conclusion `text`
/// of `runs_without_paths_are_plain`.
pub fn no_text_without_the_shots_of_its_dumps()
    ensures { (start : ℕ) (bias halted : Bool) (classes : List ClassLine) → text_of_run false false (record {
      program = lone_program;
      fuel = lone_fuel;
      start = start;
      bias = bias;
      logs = lone_logs;
      shots = lone_shots;
      classes = classes;
      halted = halted;
    }) lone_end ≡ plain_text lone_program lone_logs [] lone_end → ⊥ }
{}

/// A dump that shows no owner after its thread has entered the object. Refuses the conclusion of
/// `a_dump_shows_a_state_that_the_run_passes_through`.
pub fn no_dump_that_misses_an_owner()
    ensures { (m : PlainMachine) → IsOnTheWay lone_program lone_fuel lone_logs (1 ∷ []) lone_end m
        → record { owner = None; count = 0 } ∷ [] ≡ cells_in m → ⊥ }
{}

/// Four entries come to no five verdicts, and to no bulk operation. Refuses the conclusions of `verdicts_come_of_entries`. So no run has a record of
/// four entries and a bulk rebias (`run`), or of four entries and a bulk revoke (`late`).
pub fn no_verdicts_beyond_the_entries()
    ensures verdicts { (r : RunRecord) (line : ClassLine) → entries_in r.logs ≡ 4 → r.halted ≡ false → r.classes ≡ line ∷ []
        → line.single ≡ 5 → sum_by verdicts_on r.classes ≤ most_verdicts r → ⊥ }
    ensures bulk { (r : RunRecord) (line : ClassLine) → entries_in r.logs ≡ 4 → r.halted ≡ false → r.classes ≡ line ∷ []
        → line.rebias ≡ 1 → rebias_threshold * sum_by (λ l. l.rebias + l.revoke) r.classes ≤ most_verdicts r → ⊥ }
    ensures late { (s : Settings) (p : ProgramText) (r : RunRecord) (c : ClosedSeen) (line : ClassLine)
        → entries_in r.logs ≡ 4 → r.halted ≡ false → r.classes ≡ line ∷ [] → line.revoke ≡ 1 → IsRan s p r c → ⊥ }
    ensures run { (s : Settings) (p : ProgramText) (r : RunRecord) (c : ClosedSeen) (line : ClassLine) → entries_in r.logs ≡ 4
        → r.halted ≡ false → r.classes ≡ line ∷ [] → line.rebias ≡ 1 → IsRan s p r c → ⊥ }
{}
