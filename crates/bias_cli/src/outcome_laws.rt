//! What a search for all ends of a program says of its runs.

ghost use Rattle.std.specs.Prelude.{◌≡◌, ◌⊎◌, ◌≤◌, ℕ, false};
ghost use Rattle.plain_monitor.specs.Limits.{most_fuel};
ghost use Rattle.object_program.specs.Program.{ProgramText};
ghost use Rattle.plain_machine.specs.Machine.{PlainMachine, is_stuck};
ghost use Rattle.heap_table.specs.Seen.{ClosedSeen};
ghost use Rattle.lock_journal.specs.declared.record.RunRecord.{RunRecord};
ghost use Rattle.cli_args.specs.declared.options.Options.{Options};
ghost use Rattle.every_outcome.specs.Covered.{IsSeen};
ghost use Rattle.every_outcome.specs.Fuel.{HasSpent, refuelled};
ghost use Rattle.outcome_search.specs.declared.outcome.Outcomes.{Outcomes};
ghost use Rattle.outcome_search.specs.EveryEnd.{IsEveryEnd};
ghost use Rattle.outcome_search.specs.Outcomes.{top_fuel};
ghost use Rattle.bias_cli.specs.Finish.{IsRunOf, status_of};

/// A search that left no state open has kept the end of every run: the machine under the record of each run of the
/// program, on any workers, with any biases, turns, clock and schedule, is one of its states, up to the fuel that is
/// left, unless a thread of it is spent.
///
/// So where it found no stuck end, no run is stuck, but for one with a spent thread; and where it found no end with a
/// fault either, each other run has status 0. The search is one of the plain machine, and the runs are those of the
/// real locks.
pub fn runs_end_as_a_search_found()
    ensures found { (o : Options) (p : ProgramText) (most : ℕ) (counts : Outcomes) (r : RunRecord) (c : ClosedSeen)
        (m : PlainMachine) (every : IsEveryEnd p most counts) → counts.«open» ≡ 0 → o.fuel ≤ most_fuel → IsRunOf o p r c m
        → HasSpent m ⊎ IsSeen every.kept (refuelled top_fuel m) }
    ensures stuck { (o : Options) (p : ProgramText) (most : ℕ) (counts : Outcomes) (r : RunRecord) (c : ClosedSeen)
        (m : PlainMachine) → IsEveryEnd p most counts → counts.«open» ≡ 0 → counts.stuck ≡ 0
        → o.fuel ≤ most_fuel → IsRunOf o p r c m → HasSpent m ⊎ (is_stuck m ≡ false) }
    ensures status { (o : Options) (p : ProgramText) (most : ℕ) (counts : Outcomes) (r : RunRecord) (c : ClosedSeen)
        (m : PlainMachine) → IsEveryEnd p most counts → counts.«open» ≡ 0 → counts.stuck ≡ 0 → counts.faulted ≡ 0
        → o.fuel ≤ most_fuel → IsRunOf o p r c m → HasSpent m ⊎ (status_of m ≡ 0) }
{}
