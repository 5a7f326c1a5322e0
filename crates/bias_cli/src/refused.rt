//! Calls, records and answers that are wrong in one way, of which the laws' conclusions don't hold. The functions do nothing.

ghost use Rattle.std.specs.Prelude.{◌≡◌, ◌≢◌, ◌⊎◌, ℕ, ◌+◌, ◌<◌, ◌≤◌, ◌^◌, Bool, true, false, decimal, length};
ghost use Rattle.std.specs.Prelude.{List, [], ◌∷◌, Option, Some, None, Ok};
ghost use Rattle.heap_table.specs.Seen.{ClosedSeen};
ghost use Rattle.plain_monitor.specs.declared.entry.Logged.{Logged};
ghost use Rattle.plain_monitor.specs.declared.entry.Value.TheVariants.{Nil, Ref};
ghost use Rattle.plain_monitor.specs.Limits.{most_fuel};
ghost use Rattle.plain_monitor.specs.Order.{order};
ghost use Rattle.object_program.specs.Program.{ProgramText};
ghost use Rattle.object_program.specs.Valid.{IsProgram};
ghost use Rattle.plain_machine.specs.Legal.{IsLegal, machine_after};
ghost use Rattle.plain_machine.specs.Machine.{PlainMachine, is_stuck};
ghost use Rattle.lock_journal.specs.RunText.{lines_of_run, text_of_lines, text_of_run};
ghost use Rattle.lock_journal.specs.declared.record.RunRecord.{RunRecord};
ghost use Rattle.single_thread_law.specs.LoneExample.{lone_end, lone_fuel, lone_logs, lone_program};
ghost use Rattle.single_thread_law.specs.LoneRun.{AreSameButForPaths};
ghost use Rattle.every_outcome.specs.Covered.{IsSeen};
ghost use Rattle.every_outcome.specs.Fuel.{HasSpent, refuelled};
ghost use Rattle.outcome_search.specs.Outcomes.{top_fuel};
ghost use Rattle.bias_check.specs.declared.answer.Checked.TheVariants.{Legal};
ghost use Rattle.bias_check.specs.declared.answer.Reached.{Reached};
ghost use Rattle.bias_check.specs.declared.answer.Reached.TheVariants.{Stuck};
ghost use Rattle.bias_check.specs.Answer.{IsTrueOf};
ghost use Rattle.bias_check.specs.Example.{done_logs, split_program};
ghost use Rattle.bias_check.specs.Lines.{lines_of};
ghost use Rattle.bias_check.specs.Printed.{journal_of};
ghost use Rattle.cli_args.specs.declared.options.Command.{Command};
ghost use Rattle.cli_args.specs.declared.options.Options.{Options};
ghost use Rattle.sync_source.specs.Compiled.{compiled};
ghost use Rattle.sync_source.specs.Source.{SyncText};
ghost use Rattle.bias_cli.specs.declared.finish.Finish.{Finish};
ghost use Rattle.bias_cli.specs.Example.{faulted_end, later_logs, lone_lines, nothing_held, printing, waiting_end};
ghost use Rattle.bias_cli.specs.Finish.{Checks, IsFinish, IsGivenUp, IsRunOf, IsWritten, Meets};
ghost use Rattle.bias_cli.specs.Finish.{check_due, run_due, status_of, sync_due};
ghost use Rattle.bias_cli.specs.Input.{most_of_journal};
ghost use Rattle.bias_cli.specs.MayBeWritten.{IsAllowedBy, MayBeWritten, WroteAllowed};
ghost use Rattle.bias_cli.specs.Seen.{SourceSeen, SinkSeen};
ghost use Rattle.bias_cli.specs.Verdict.{IsVerdict, answer_to, with_journal};

/// A call with status 7 that wrote something: it was neither given up, nor did it what was due. And one that was given up has status 7. Refuses the
/// conclusions of `status_7_is_want_of_memory`.
pub fn no_status_7_of_a_call_that_wrote()
    ensures wrote { (c : Option Command) (source_before source_after : SourceSeen) (sink_before sink_after : SinkSeen)
        (finish : Finish) → finish.status ≡ 7 → sink_after ≢ sink_before
        → IsGivenUp sink_before sink_after finish
        ⊎ IsFinish c source_before source_after sink_before sink_after finish → ⊥ }
    ensures given_up { (sink_before sink_after : SinkSeen) (finish : Finish)
        → IsGivenUp sink_before sink_after finish → finish.status ≢ 7 → ⊥ }
{}

/// Records that can't be replayed: one with less fuel than its entries cost, one with a program that has no threads, and one with a log too many.
/// Refuses the conclusions of `records_can_be_replayed`.
pub fn no_replay_of_a_wrong_record()
    ensures fuel { IsLegal lone_program 4 lone_logs → ⊥ }
    ensures program { IsLegal (record lone_program { threads = [] }) lone_fuel lone_logs → ⊥ }
    ensures logs { length ([] ∷ lone_logs) ≡ length lone_program.threads → ⊥ }
{}

/// Runs that differ in one thing: in the stamps of their entries, in their fuel, in what is printed, or in how the thread ended. Refuses the
/// conclusions of `one_thread_decides_what_is_written`.
pub fn no_same_run_by_another_stamp_fuel_print_or_end()
    ensures logs { AreSameButForPaths lone_logs later_logs → ⊥ }
    ensures machine { (m n : PlainMachine) → machine_after lone_program lone_fuel lone_logs ≡ Some m
        → machine_after lone_program (lone_fuel + 1) lone_logs ≡ Some n → m ≡ n → ⊥ }
    ensures text { text_of_run false false (printing Nil) lone_end
        ≡ text_of_run false false (printing (Ref 0)) lone_end → ⊥ }
    ensures status { status_of lone_end ≡ status_of faulted_end → ⊥ }
{}

/// What isn't so of journals and answers: that `--journal` adds no line, that a name with a line feed is read again, that as many as 2^32 entries have
/// fewer bytes; that a journal is legal with one entry more, or stuck where the run wasn't halted; and that a check of the lines is due where
/// the marker is no line, or where the text is longer than `check` takes; or that status 1 is answered, or another line is written. Refuses the
/// conclusions of `the_journal_of_each_run_is_legal_for_check`.
pub fn no_other_answer_to_a_journal()
    ensures written { (stats : Bool) (m : PlainMachine)
        → lines_of_run stats true (printing Nil) m ≡ lines_of_run stats false (printing Nil) m → ⊥ }
    ensures lines { lines_of (text_of_lines (journal_of split_program done_logs))
        ≡ journal_of split_program done_logs → ⊥ }
    ensures short { (p : ProgramText) (logs : List (List Logged)) → 2 ^ 32 ≤ length (order logs)
        → length (text_of_lines (journal_of p logs)) < 2 ^ 32 → ⊥ }
    ensures one_more { (p : ProgramText) (fuel start : ℕ) (logs : List (List Logged)) (state : Reached)
        → IsTrueOf p fuel start (journal_of p logs) (Ok (Legal (length (order logs) + 1) state)) → ⊥ }
    ensures stuck { (o : Options) (p : ProgramText) (r : RunRecord) (c : ClosedSeen) (m : PlainMachine)
        → IsProgram p → o.fuel ≤ most_fuel → IsRunOf o p r c m → r.halted ≡ false
        → IsVerdict p o.fuel o.start (journal_of p r.logs) (Ok (Legal (length (order r.logs)) Stuck)) → ⊥ }
    ensures unterminated { (fuel start : ℕ) → check_due fuel start (with_journal lone_lines lone_program [])
        ≡ Checks lone_program fuel start (journal_of lone_program []) → ⊥ }
    ensures long { (fuel start : ℕ) (p : ProgramText) (logs : List (List Logged)) (text : List ℕ)
        → most_of_journal < length (with_journal text p logs)
        → check_due fuel start (with_journal text p logs) ≡ Checks p fuel start (journal_of p logs) → ⊥ }
    ensures status { (sink_before sink_after : SinkSeen) (text : List ℕ)
        → IsWritten sink_before sink_after 1 0 text → ⊥ }
    ensures line { (text other : List ℕ) (faults : ℕ) → other ≢ text
        → IsWritten nothing_held (record { held = Some other; faults = faults }) 0 0 text → ⊥ }
{}

/// Calls of `run` and `sync` that don't do what is due: they leave no record, or that of another program. Refuses the conclusions of
/// `compiling_first_changes_nothing`.
pub fn no_run_without_a_record_of_its_program()
    ensures run { (o : Options) (p : ProgramText) (before after : SinkSeen) (finish : Finish) → finish.run ≡ None
        → Meets before after finish (run_due o (Ok p)) → ⊥ }
    ensures sync { (o : Options) (s : SyncText) (before after : SinkSeen) (finish : Finish) → finish.run ≡ None
        → Meets before after finish (sync_due o (Ok s)) → ⊥ }
    ensures program { (o : Options) (p : ProgramText) (before after : SinkSeen) (finish : Finish) (r : RunRecord)
        → finish.run ≡ Some r → r.program ≢ p → Meets before after finish (run_due o (Ok p)) → ⊥ }
    ensures code { (o : Options) (s : SyncText) (before after : SinkSeen) (finish : Finish) (r : RunRecord)
        → finish.run ≡ Some r → r.program ≢ compiled decimal s → Meets before after finish (sync_due o (Ok s)) → ⊥ }
{}

/// Ends that a search has to find: one that it kept no machine of, one that is stuck, and one with a fault. Refuses the conclusions of
/// `runs_end_as_a_search_found`.
pub fn no_end_that_a_search_may_miss()
    ensures found { HasSpent lone_end ⊎ IsSeen [] (refuelled top_fuel lone_end) → ⊥ }
    ensures stuck { HasSpent waiting_end ⊎ (is_stuck waiting_end ≡ false) → ⊥ }
    ensures status { HasSpent faulted_end ⊎ (status_of faulted_end ≡ 0) → ⊥ }
{}

/// Another status than 0 of a program of one thread that comes to its `end`, under any settings; but for 6 where a write failed. Refuses the conclusions of
/// `settings_change_nothing_that_may_be_written`.
pub fn no_other_status_by_other_settings()
    ensures plain { (start status : ℕ) (text : List ℕ) → status ≢ 0
        → MayBeWritten lone_program lone_fuel start status text → ⊥ }
    ensures allowed { (o : Options) (status : ℕ) (text : List ℕ) → o.fuel ≡ lone_fuel → status ≢ 0
        → IsAllowedBy o lone_program status text → ⊥ }
    ensures call { (start status : ℕ) (before after : SinkSeen) → status ≢ 0 → status ≢ 6
        → WroteAllowed lone_program lone_fuel start before after status → ⊥ }
{}
