//! What holds of the commands for programs with blocks. The function does nothing.

ghost use Rattle.std.specs.Prelude.{◌≡◌, ◌≤◌, decimal, length, List, ℕ, Ok};
ghost use Rattle.program_syntax.specs.Canonical.{canonical};
ghost use Rattle.program_syntax.specs.Refusal.{program_of};
ghost use Rattle.program_syntax.specs.Text.{most_bytes};
ghost use Rattle.cli_args.specs.declared.options.Options.{Options};
ghost use Rattle.sync_source.specs.Compiled.{compiled};
ghost use Rattle.sync_source.specs.Source.{SyncText};
ghost use Rattle.sync_syntax.specs.Refusal.{sync_program_of};
ghost use Rattle.bias_cli.specs.declared.finish.Finish.{Finish};
ghost use Rattle.bias_cli.specs.Seen.{SinkSeen};
ghost use Rattle.bias_cli.specs.Finish.{Meets, run_due, sync_due};

/// Running a text with blocks by `sync` is the same as compiling it, and running what `compile` writes by `run` with
/// the same options, unless that is longer than a text may be. What does what is due of one does what is due of the
/// other.
pub fn compiling_first_changes_nothing()
    ensures run { (o : Options) (bytes : List ℕ) (s : SyncText) (before after : SinkSeen) (finish : Finish)
        → sync_program_of bytes ≡ Ok s → length (canonical (compiled decimal s)) ≤ most_bytes
        → Meets before after finish (run_due o (program_of (canonical (compiled decimal s))))
        → Meets before after finish (sync_due o (sync_program_of bytes)) }
    ensures sync { (o : Options) (bytes : List ℕ) (s : SyncText) (before after : SinkSeen) (finish : Finish)
        → sync_program_of bytes ≡ Ok s → length (canonical (compiled decimal s)) ≤ most_bytes
        → Meets before after finish (sync_due o (sync_program_of bytes))
        → Meets before after finish (run_due o (program_of (canonical (compiled decimal s)))) }
{}
