//! A run of a program of one thread, so that what these laws ask for comes about. The functions do nothing.

ghost use Rattle.std.specs.Prelude.{ℕ, Bool, List};
ghost use Rattle.std.specs.List.{AllByRecursion};
ghost use Rattle.object_program.specs.Valid.{IsProgram};
ghost use Rattle.lock_journal.specs.declared.record.ClassLine.{ClassLine};
ghost use Rattle.plain_history.specs.ExactStamps.{StampsAreExact};
ghost use Rattle.plain_monitor.specs.History.{RisesAbove};
ghost use Rattle.single_thread_law.specs.LoneExample.{lone_end, lone_fuel, lone_logs, lone_program, lone_shots};
ghost use Rattle.single_thread_law.specs.LoneRun.{IsLoneRun};
ghost use Rattle.single_thread_law.specs.Shots.{HasShotsOf};

/// A thread enters an object, dumps, prints the object, leaves it and ends, and this is its run, from whichever start its generator of hashes
/// begins. So what `stamps_of_one_thread_count_its_entries`, `one_thread_logs_one_way` and `one_thread_writes_one_text` ask for comes about.
pub fn a_program_of_one_thread_runs_alone()
    ensures program { IsProgram lone_program }
    ensures run { (start : ℕ) → IsLoneRun lone_program lone_fuel start lone_logs lone_end }
    ensures shots { (start : ℕ) (bias halted : Bool) (classes : List ClassLine) → HasShotsOf lone_program lone_fuel (record {
      program = lone_program;
      fuel = lone_fuel;
      start = start;
      bias = bias;
      logs = lone_logs;
      shots = lone_shots;
      classes = classes;
      halted = halted;
    }) }
{}
