//! What follows from the contract of the top call.

ghost use Rattle.std.specs.Prelude.{◌≡◌, ◌≢◌, ◌⊎◌, ℕ, ◌<◌, ◌≤◌, ◌^◌, Bool, true, false, List, ◌++◌, length};
ghost use Rattle.std.specs.Prelude.{IsTrue, Option, Some, Result, Ok};
ghost use Rattle.run_io.specs.Faults.{rose};
ghost use Rattle.plain_monitor.specs.Limits.{most_fuel};
ghost use Rattle.heap_table.specs.Seen.{ClosedSeen};
ghost use Rattle.object_program.specs.Program.{ProgramText};
ghost use Rattle.object_program.specs.Valid.{IsProgram};
ghost use Rattle.program_syntax.specs.Refusal.{program_of};
ghost use Rattle.plain_machine.specs.Legal.{IsLegal};
ghost use Rattle.plain_machine.specs.Machine.{PlainMachine};
ghost use Rattle.lock_journal.specs.RunText.{lines_of_run, text_of_lines, text_of_run};
ghost use Rattle.lock_journal.specs.declared.record.RunRecord.{RunRecord};
ghost use Rattle.single_thread_law.specs.LoneRun.{AreSameButForPaths};
ghost use Rattle.bias_check.specs.declared.answer.Checked.{Checked};
ghost use Rattle.bias_check.specs.declared.answer.CheckFault.{CheckFault};
ghost use Rattle.bias_check.specs.Answer.{IsTrueOf};
ghost use Rattle.bias_check.specs.Lines.{lines_of};
ghost use Rattle.bias_check.specs.Parts.{lines_are_terminated};
ghost use Rattle.bias_check.specs.Printed.{journal_of};
ghost use Rattle.cli_args.specs.Command.{accepted};
ghost use Rattle.cli_args.specs.declared.options.Command.{Command};
ghost use Rattle.cli_args.specs.declared.options.Command.TheVariants.{Check};
ghost use Rattle.cli_args.specs.declared.options.Options.{Options};
ghost use Rattle.bias_cli.specs.declared.finish.Finish.{Finish};
ghost use Rattle.bias_cli.specs.Seen.{SourceSeen, SinkSeen};
ghost use Rattle.bias_cli.specs.Input.{most_of_journal};
ghost use Rattle.bias_cli.specs.Finish.{Checks, IsGivenUp, IsFinish, IsRunOf, IsWritten, check_due, status_of};
ghost use Rattle.bias_cli.specs.Verdict.{IsVerdict, answer_to, verdict_text, with_journal};

/// Status 7 says that memory was wanting, and no other call has it: what is due has a status from 0 to 5, or 8, and a failed write has 6.
/// So by the two clauses of `biasrun` each call either was given up or did what was due.
pub fn status_7_is_want_of_memory()
    ensures another { (c : Option Command) (source_before source_after : SourceSeen)
        (sink_before sink_after : SinkSeen) (finish : Finish)
        → IsFinish c source_before source_after sink_before sink_after finish → finish.status ≢ 7 }
    ensures either { (c : Option Command) (source_before source_after : SourceSeen)
        (sink_before sink_after : SinkSeen) (finish : Finish)
        → (finish.status ≡ 7 → IsGivenUp sink_before sink_after finish)
        → (finish.status ≢ 7 → IsFinish c source_before source_after sink_before sink_after finish)
        → IsGivenUp sink_before sink_after finish
        ⊎ IsFinish c source_before source_after sink_before sink_after finish }
{}

/// The record that a call leaves can be replayed: its logs are legal for its own program and fuel, one for each thread.
pub fn records_can_be_replayed()
    ensures legal { (c : Option Command) (source_before source_after : SourceSeen)
        (sink_before sink_after : SinkSeen) (finish : Finish) (r : RunRecord)
        → IsGivenUp sink_before sink_after finish
        ⊎ IsFinish c source_before source_after sink_before sink_after finish
        → finish.run ≡ Some r → IsLegal r.program r.fuel r.logs }
    ensures threads { (c : Option Command) (source_before source_after : SourceSeen)
        (sink_before sink_after : SinkSeen) (finish : Finish) (r : RunRecord)
        → IsGivenUp sink_before sink_after finish
        ⊎ IsFinish c source_before source_after sink_before sink_after finish
        → finish.run ≡ Some r → length r.logs ≡ length r.program.threads }
{}

/// Of a program of one thread the contract determines all that is due but the paths of enters and the numbers of
/// classes, where memory suffices and no read or write fails.
///
/// Any two runs of it, under one fuel and one start of the generators of hashes, leave the same machine and log the
/// same entries with the same stamps, but for the paths of enters. So they are due the same status, and the same
/// bytes where neither statistics, nor a journal, nor a report is asked for. How many workers there are, how long
/// turns are, and whether there are biases may differ.
pub fn one_thread_decides_what_is_written()
    ensures logs { (o q : Options) (p : ProgramText) (r s : RunRecord) (c d : ClosedSeen) (m n : PlainMachine)
        → length p.threads ≡ 1 → o.fuel ≡ q.fuel → o.start ≡ q.start
        → IsRunOf o p r c m → IsRunOf q p s d n → AreSameButForPaths r.logs s.logs }
    ensures machine { (o q : Options) (p : ProgramText) (r s : RunRecord) (c d : ClosedSeen) (m n : PlainMachine)
        → length p.threads ≡ 1 → o.fuel ≡ q.fuel → o.start ≡ q.start
        → IsRunOf o p r c m → IsRunOf q p s d n → m ≡ n }
    ensures text { (o q : Options) (p : ProgramText) (r s : RunRecord) (c d : ClosedSeen) (m n : PlainMachine)
        → length p.threads ≡ 1 → o.fuel ≡ q.fuel → o.start ≡ q.start
        → IsRunOf o p r c m → IsRunOf q p s d n → text_of_run false false r m ≡ text_of_run false false s n }
    ensures status { (o q : Options) (p : ProgramText) (r s : RunRecord) (c d : ClosedSeen) (m n : PlainMachine)
        → length p.threads ≡ 1 → o.fuel ≡ q.fuel → o.start ≡ q.start
        → IsRunOf o p r c m → IsRunOf q p s d n → status_of m ≡ status_of n }
{}

/// The journal of each run is legal for a check. Its lines are those that `--journal` writes after the prints and dumps, the threads and the
/// statistics, and the text of them falls into just these lines. Of them the answer holds that they are legal, that they are as many as the run
/// logged, and that all threads have ended, or are stuck where the run was halted. No other answer holds, and the lines have fewer than 2^32
/// bytes, as `check_journal` asks; so by its own contract, and unless memory runs out, it answers just this to the lines, under the fuel
/// and the start of the generators of hashes that the run had. A record that any call leaves is that of such a run.
///
/// So where `check` reads a text of the program, whose lines are all terminated, the marker and that journal, and this is no longer than it takes,
/// then a check of just these lines is due of it (`joined`), and whoever does what is due writes this answer with status 0, but for faults
/// (`answered`).
pub fn the_journal_of_each_run_is_legal_for_check()
    ensures written { (o : Options) (p : ProgramText) (r : RunRecord) (c : ClosedSeen) (m : PlainMachine) (stats : Bool)
        → IsRunOf o p r c m → lines_of_run stats true r m ≡ lines_of_run stats false r m ++ journal_of p r.logs }
    ensures lines { (o : Options) (p : ProgramText) (r : RunRecord) (c : ClosedSeen) (m : PlainMachine)
        → IsProgram p → o.fuel ≤ most_fuel → IsRunOf o p r c m
        → lines_of (text_of_lines (journal_of p r.logs)) ≡ journal_of p r.logs }
    ensures short { (o : Options) (p : ProgramText) (r : RunRecord) (c : ClosedSeen) (m : PlainMachine)
        → IsProgram p → o.fuel ≤ most_fuel → IsRunOf o p r c m
        → length (text_of_lines (journal_of p r.logs)) < 2 ^ 32 }
    ensures legal { (o : Options) (p : ProgramText) (r : RunRecord) (c : ClosedSeen) (m : PlainMachine)
        → IsProgram p → o.fuel ≤ most_fuel → IsRunOf o p r c m
        → IsTrueOf p o.fuel o.start (journal_of p r.logs) (answer_to r) }
    ensures only { (o : Options) (p : ProgramText) (r : RunRecord) (c : ClosedSeen) (m : PlainMachine)
        (answer : Result Checked CheckFault)
        → IsProgram p → o.fuel ≤ most_fuel → IsRunOf o p r c m
        → IsVerdict p o.fuel o.start (journal_of p r.logs) answer → answer ≡ answer_to r }
    ensures call { (words : List (List ℕ)) (source_before source_after : SourceSeen)
        (sink_before sink_after : SinkSeen) (finish : Finish) (r : RunRecord)
        → IsFinish (accepted words) source_before source_after sink_before sink_after finish
        → finish.run ≡ Some r → IsVerdict r.program r.fuel r.start (journal_of r.program r.logs) (answer_to r) }
    ensures joined { (o : Options) (p : ProgramText) (r : RunRecord) (c : ClosedSeen) (m : PlainMachine)
        (text : List ℕ)
        → program_of text ≡ Ok p → lines_are_terminated text ≡ true → o.fuel ≤ most_fuel → IsRunOf o p r c m
        → length (with_journal text p r.logs) ≤ most_of_journal
        → check_due o.fuel o.start (with_journal text p r.logs) ≡ Checks p o.fuel o.start (journal_of p r.logs) }
    ensures answered { (o : Options) (p : ProgramText) (r : RunRecord) (c : ClosedSeen) (m : PlainMachine)
        (text : List ℕ) (source_before source_after : SourceSeen) (sink_before sink_after : SinkSeen) (finish : Finish)
        → program_of text ≡ Ok p → lines_are_terminated text ≡ true → o.fuel ≤ most_fuel → IsRunOf o p r c m
        → length (with_journal text p r.logs) ≤ most_of_journal
        → source_before.left ≡ Some (with_journal text p r.logs)
        → IsFinish (Some (Check o.fuel o.start)) source_before source_after sink_before sink_after finish
        → IsTrue (rose source_before.faults source_after.faults)
        ⊎ IsWritten sink_before sink_after finish.status 0 (verdict_text p (answer_to r)) }
{}
