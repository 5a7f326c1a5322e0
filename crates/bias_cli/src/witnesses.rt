//! Runs and calls of a small program, so that what the laws ask for comes about. The functions do nothing.

ghost use Rattle.std.specs.Prelude.{◌≡◌, ℕ, ◌≤◌, true, decimal, length, List, [], Some, None, Ok};
ghost use Rattle.heap_table.specs.Seen.{ClosedSeen};
ghost use Rattle.plain_monitor.specs.Limits.{most_fuel};
ghost use Rattle.object_program.specs.Valid.{IsProgram};
ghost use Rattle.program_syntax.specs.Canonical.{canonical};
ghost use Rattle.program_syntax.specs.Refusal.{program_of};
ghost use Rattle.program_syntax.specs.Text.{most_bytes};
ghost use Rattle.lock_journal.specs.declared.record.RunRecord.{RunRecord};
ghost use Rattle.single_thread_law.specs.LoneExample.{lone_end, lone_fuel, lone_program};
ghost use Rattle.bias_check.specs.Parts.{lines_are_terminated};
ghost use Rattle.bias_check.specs.Printed.{journal_of};
ghost use Rattle.outcome_search.specs.EveryEnd.{IsEveryEnd};
ghost use Rattle.cli_args.specs.Command.{accepted};
ghost use Rattle.cli_args.specs.declared.options.Command.TheVariants.{Check, Run};
ghost use Rattle.cli_args.specs.declared.options.Options.{Options};
ghost use Rattle.sync_source.specs.Compiled.{compiled};
ghost use Rattle.sync_syntax.specs.Refusal.{sync_program_of};
ghost use Rattle.bias_cli.specs.declared.finish.Finish.{Finish};
ghost use Rattle.bias_cli.specs.Example.{block_text, has_left, lone_blocks, lone_counts, lone_options, lone_text, lone_words};
ghost use Rattle.bias_cli.specs.Example.{nothing_held, with_lone_fuel};
ghost use Rattle.bias_cli.specs.Input.{most_of_journal};
ghost use Rattle.bias_cli.specs.Finish.{IsFinish, IsGivenUp, IsRunOf, LeavesRun, Meets, run_due, sync_due};
ghost use Rattle.bias_cli.specs.MayBeWritten.{AsksForNoMore, IsAllowedBy, MayBeWritten};
ghost use Rattle.bias_cli.specs.Seen.{SinkSeen};
ghost use Rattle.bias_cli.specs.Verdict.{answer_to, IsVerdict, with_journal};

/// A program of one thread, which enters an object, dumps, prints the object, leaves it and ends. A text has it, whose lines are terminated. Under all
/// options there is a run of it with this fuel, whose journal `check` can read after that text. So what
/// `one_thread_decides_what_is_written`, `the_journal_of_each_run_is_legal_for_check` and `settings_change_nothing_that_may_be_written`
/// ask for comes about.
pub fn a_small_program_can_be_run()
    ensures program { IsProgram lone_program }
    ensures alone { length lone_program.threads ≡ 1 }
    ensures text { program_of lone_text ≡ Ok lone_program }
    ensures terminated { lines_are_terminated lone_text ≡ true }
    ensures fuel { lone_fuel ≤ most_fuel }
    ensures run { (o : Options)
        → (r : RunRecord) × (c : ClosedSeen) × IsRunOf (with_lone_fuel o) lone_program r c lone_end
        × IsVerdict lone_program lone_fuel o.start (journal_of lone_program r.logs) (answer_to r)
        × (length (with_journal lone_text lone_program r.logs) ≤ most_of_journal) }
    ensures plain { (start : ℕ) → (text : List ℕ) × MayBeWritten lone_program lone_fuel start 0 text }
    ensures allowed { (o : Options) → (text : List ℕ) × IsAllowedBy (with_lone_fuel o) lone_program 0 text }
{}

/// Calls that did what was due: of arguments that aren't accepted, of a run of that program, and of a check of its journal. So what
/// `status_7_is_want_of_memory`, `records_can_be_replayed`, and the clauses on calls of `the_journal_of_each_run_is_legal_for_check`
/// and of `settings_change_nothing_that_may_be_written` ask for comes about.
pub fn calls_can_do_what_is_due()
    ensures refused { (k : SinkSeen) × (finish : Finish)
        × IsFinish None (has_left []) (has_left []) nothing_held k finish
        × (finish.status ≡ 7 → IsGivenUp nothing_held k finish) }
    ensures words { accepted lone_words ≡ Some (Run lone_options) }
    ensures run { (r : RunRecord) × (k : SinkSeen) × (finish : Finish)
        × IsFinish (accepted lone_words) (has_left lone_text) (has_left []) nothing_held k finish
        × (finish.run ≡ Some r) }
    ensures leaves { (k : SinkSeen) × (finish : Finish) × LeavesRun nothing_held k finish lone_options lone_program
        × AsksForNoMore lone_options }
    ensures check { (r : RunRecord) × (c : ClosedSeen) × (k : SinkSeen) × (finish : Finish)
        × IsRunOf lone_options lone_program r c lone_end
        × (length (with_journal lone_text lone_program r.logs) ≤ most_of_journal)
        × IsFinish (Some (Check lone_options.fuel lone_options.start))
        (has_left (with_journal lone_text lone_program r.logs)) (has_left []) nothing_held k finish }
{}

/// A text with a block, whose code is that program, and is short enough to be run; and a call that runs it by `run` and by `sync`. So what
/// `compiling_first_changes_nothing` asks for comes about.
pub fn a_small_program_with_a_block_can_be_run()
    ensures text { sync_program_of block_text ≡ Ok lone_blocks }
    ensures code { compiled decimal lone_blocks ≡ lone_program }
    ensures short { length (canonical (compiled decimal lone_blocks)) ≤ most_bytes }
    ensures met { (k : SinkSeen) × (finish : Finish)
        × Meets nothing_held k finish (run_due lone_options (program_of (canonical (compiled decimal lone_blocks))))
        × Meets nothing_held k finish (sync_due lone_options (sync_program_of block_text)) }
{}

/// A search for all ends of that program, which keeps two machines and leaves none open, and counts neither a stuck end nor one with a fault; and runs of the
/// program under all options with its fuel. So what `runs_end_as_a_search_found` asks for comes about.
pub fn all_ends_of_a_small_program_can_be_found()
    ensures { (o : Options)
        → (r : RunRecord) × (c : ClosedSeen) × IsRunOf (with_lone_fuel o) lone_program r c lone_end
        × IsEveryEnd lone_program 2 lone_counts × (lone_counts.«open» ≡ 0) × (lone_counts.stuck ≡ 0)
        × (lone_counts.faulted ≡ 0) × (lone_fuel ≤ most_fuel) }
{}
