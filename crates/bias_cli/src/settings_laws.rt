//! What the settings of a run don't change. The functions do nothing.

ghost use Rattle.std.specs.Prelude.{◌≡◌, ℕ, false, List};
ghost use Rattle.heap_table.specs.Seen.{ClosedSeen};
ghost use Rattle.object_program.specs.Program.{ProgramText};
ghost use Rattle.plain_machine.specs.Machine.{PlainMachine};
ghost use Rattle.lock_journal.specs.RunText.{text_of_run};
ghost use Rattle.lock_journal.specs.declared.record.RunRecord.{RunRecord};
ghost use Rattle.cli_args.specs.declared.options.Options.{Options};
ghost use Rattle.bias_cli.specs.declared.finish.Finish.{Finish};
ghost use Rattle.bias_cli.specs.Seen.{SinkSeen};
ghost use Rattle.bias_cli.specs.Finish.{IsRunOf, LeavesRun, status_of};
ghost use Rattle.bias_cli.specs.MayBeWritten.{AsksForNoMore, IsAllowedBy, MayBeWritten, WroteAllowed};

/// The texts that a run of a program may write without statistics, journal and report, each with its status, are one
/// set for `--bias on` and `--bias off`, for all numbers of workers, all lengths of turns and all ticks.
///
/// `MayBeWritten` has of the options the fuel and the start of the generators of hashes alone. What a run writes
/// under any options is of the set, and under any options all of the set is allowed. The program may be the code of a
/// program with blocks (`LeavesRun` is said of `run` and of `sync`).
///
/// The set is what is allowed, and not what is reached. It is of all runs that the plain machine, the stamps, the
/// draws and the shots allow. Which of them the workers come to under some options, no contract says: one worker with
/// long turns may never come to a schedule that is allowed.
pub fn settings_change_nothing_that_may_be_written()
    ensures run { (o : Options) (p : ProgramText) (r : RunRecord) (c : ClosedSeen) (m : PlainMachine) → IsRunOf o p r c m
        → MayBeWritten p o.fuel o.start (status_of m) (text_of_run false false r m) }
    ensures call { (o : Options) (p : ProgramText) (before after : SinkSeen) (finish : Finish) → AsksForNoMore o
        → LeavesRun before after finish o p → WroteAllowed p o.fuel o.start before after finish.status }
    ensures all { (o : Options) (p : ProgramText) (status : ℕ) (text : List ℕ)
        → MayBeWritten p o.fuel o.start status text → IsAllowedBy o p status text }
    ensures others { (o q : Options) (p : ProgramText) (status : ℕ) (text : List ℕ) → o.fuel ≡ q.fuel → o.start ≡ q.start
        → IsAllowedBy o p status text → IsAllowedBy q p status text }
{}
