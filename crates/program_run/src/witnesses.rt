//! A plain run of a small program, and runs of it under all other settings, so that what the laws of runs ask for comes about. The functions do
//! nothing.

ghost use Rattle.std.specs.Prelude.{◌≡◌, ◌<◌, ℕ, Bool, Some};
ghost use Rattle.heap_table.specs.Seen.{ClosedSeen};
ghost use Rattle.lock_journal.specs.declared.record.RunRecord.{RunRecord};
ghost use Rattle.lock_policy.specs.Policy.{revoke_threshold};
ghost use Rattle.object_program.specs.Valid.{IsProgram};
ghost use Rattle.plain_machine.specs.Legal.{machine_after};
ghost use Rattle.single_thread_law.specs.LoneExample.{lone_end, lone_fuel, lone_logs, lone_program, lone_shots};
ghost use Rattle.program_run.specs.PlainRun.{IsMadeBy, IsPlainRun};
ghost use Rattle.program_run.specs.Ran.{IsRan};
ghost use Rattle.program_run.specs.Verdicts.{most_verdicts};

/// A program of one thread, which enters an object, dumps, prints the object, leaves it and ends, runs plainly with these logs and shots (`plain`),
/// as `plain_runs_are_runs_of_all_settings` asks. Runs with and without biases, by any workers, turns and ticks, make them
/// (`made`), and leave this machine and a dump (`ran`), as `runs_without_paths_are_plain` and
/// `a_dump_shows_a_state_that_the_run_passes_through` ask; they may have too few verdicts for a bulk revocation, as
/// `verdicts_come_of_entries` asks.
pub fn a_plain_run_comes_about()
    ensures plain { (start : ℕ) → IsPlainRun lone_program lone_fuel start lone_logs lone_shots lone_end }
    ensures made { (start workers quantum tick : ℕ) (bias : Bool)
        → IsMadeBy (record { fuel = lone_fuel; start = start; bias = bias; workers = workers; quantum = quantum; tick = tick })
        lone_program lone_logs lone_shots }
    ensures ran { (start workers quantum tick : ℕ) (bias : Bool) → (r : RunRecord) × (c : ClosedSeen)
        × IsRan (record { fuel = lone_fuel; start = start; bias = bias; workers = workers; quantum = quantum; tick = tick })
        lone_program r c
        × (machine_after lone_program lone_fuel r.logs ≡ Some lone_end) × (most_verdicts r < revoke_threshold)
        × (r.shots ≡ lone_shots) }
    ensures program { IsProgram lone_program }
{}
