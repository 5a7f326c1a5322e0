//! Laws of the verdicts that a record tells. The functions do nothing.

ghost use Rattle.std.specs.Prelude.{◌≡◌, ◌+◌, ◌*◌, ◌<◌, ◌≤◌};
ghost use Rattle.std.specs.List.{AllByRecursion, sum_by};
ghost use Rattle.lock_policy.specs.Policy.{rebias_threshold, revoke_threshold};
ghost use Rattle.heap_table.specs.Seen.{ClosedSeen};
ghost use Rattle.lock_journal.specs.declared.record.RunRecord.{RunRecord};
ghost use Rattle.object_program.specs.Program.{ProgramText};
ghost use Rattle.program_run.specs.declared.settings.Settings.{Settings};
ghost use Rattle.program_run.specs.Biases.{verdicts_on};
ghost use Rattle.program_run.specs.Ran.{IsRan};
ghost use Rattle.program_run.specs.Verdicts.{most_verdicts};

/// The lines of all classes tell no more verdicts than the threads logged entries, but for one more of each thread where the run was
/// halted; and each bulk operation takes 20 verdicts. So a run with few entries has no bulk operation, and one in which there can't have
/// been 40 verdicts has revoked no class in bulk: a class that was rebiased and revoked by four entries is in no record.
pub fn verdicts_come_of_entries()
    ensures verdicts { (s : Settings) (p : ProgramText) (r : RunRecord) (c : ClosedSeen) → IsRan s p r c
        → sum_by verdicts_on r.classes ≤ most_verdicts r }
    ensures bulk { (s : Settings) (p : ProgramText) (r : RunRecord) (c : ClosedSeen) → IsRan s p r c
        → rebias_threshold * sum_by (λ line. line.rebias + line.revoke) r.classes ≤ most_verdicts r }
    ensures late { (s : Settings) (p : ProgramText) (r : RunRecord) (c : ClosedSeen) → IsRan s p r c
        → most_verdicts r < revoke_threshold → AllByRecursion (λ line. line.revoke ≡ 0) r.classes }
{}
