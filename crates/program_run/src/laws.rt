//! Laws of a run's record. The functions do nothing.

ghost use Rattle.std.specs.Prelude.{◌≡◌, ℕ, ◌≤◌, slice_get, Some};
ghost use Rattle.plain_monitor.specs.Limits.{most_fuel};
ghost use Rattle.heap_table.specs.Seen.{ClosedSeen};
ghost use Rattle.lock_journal.specs.declared.record.RunRecord.{RunRecord};
ghost use Rattle.lock_journal.specs.declared.record.Shot.{Shot};
ghost use Rattle.lock_journal.specs.MachineCells.{cells_in};
ghost use Rattle.object_program.specs.Program.{ProgramText};
ghost use Rattle.object_program.specs.Valid.{IsProgram};
ghost use Rattle.plain_machine.specs.Legal.{machine_after};
ghost use Rattle.plain_machine.specs.Machine.{PlainMachine};
ghost use Rattle.run_rounds.specs.Outcome.{IsRunOutcome};
ghost use Rattle.thread_logs.specs.Passed.{IsOnTheWay};
ghost use Rattle.program_run.specs.declared.settings.Settings.{Settings};
ghost use Rattle.program_run.specs.HeapFor.{heap_for};
ghost use Rattle.program_run.specs.Left.{IsOfClosed};
ghost use Rattle.program_run.specs.inner.Lines.{HasSmallCounts};
ghost use Rattle.program_run.specs.Ran.{IsRecordOf, IsRan};
ghost use Rattle.program_run.specs.Shots.{shots_of};

/// The record that is copied from what a run leaves is a record of the run. The counts of its classes are small.
pub fn the_record_tells_the_run()
    ensures record { (s : Settings) (p : ProgramText) (r : RunRecord) (c : ClosedSeen) → IsProgram p
        → s.fuel ≤ most_fuel
        → IsRunOutcome (heap_for s p) p s.fuel s.tick c → IsRecordOf s p r → IsOfClosed r c → IsRan s p r c }
    ensures small { (s : Settings) (p : ProgramText) (c : ClosedSeen)
        → IsRunOutcome (heap_for s p) p s.fuel s.tick c → HasSmallCounts c }
{
    thread_logs::logs_that_follow_the_code_are_legal();
    thread_logs::the_machine_is_what_the_logs_make_it();
    thread_logs::fronts_of_logs_follow_the_code();
    thread_logs::threads_stay_theirs();
    machine_laws::machines_stay_reached();
    machine_laws::each_entry_uses_up_work();
    closed_heap_laws::the_end_of_a_heap_tells_its_run();
    closed_heap_laws::the_end_of_a_heap_tells_its_prototypes();
}

/// A dump shows a state that the run passes through. What it has of each object is the owner and the count in the
/// machine under the logs as the dump cuts them. That machine takes all later entries in stamped order, and comes to
/// the machine under the logs of the run.
pub fn a_dump_shows_a_state_that_the_run_passes_through()
    ensures { (s : Settings) (p : ProgramText) (r : RunRecord) (c : ClosedSeen) (last : PlainMachine) (t i : ℕ) (shot : Shot)
        → IsProgram p → IsRan s p r c → machine_after p s.fuel r.logs ≡ Some last → slice_get (shots_of r.shots t) i ≡ Some shot
        → (m : PlainMachine) × IsOnTheWay p s.fuel r.logs shot.cut last m × (shot.cells ≡ cells_in m) }
{
    thread_logs::machines_pass_through_a_cut_in_order();
}
