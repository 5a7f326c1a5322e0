//! The machine under a record.

ghost use Rattle.std.specs.Prelude.{◌≡◌, ℕ, List, IfOk, Some};
ghost use Rattle.object_program.specs.Program.{ProgramText};
ghost use Rattle.object_program.specs.Valid.{IsProgram};
ghost use Rattle.plain_machine.specs.Legal.{IsLegal, machine_after};
ghost use Rattle.plain_monitor.specs.declared.entry.Logged.{Logged};
ghost use Rattle.lock_journal.specs.Merging.{AreOfSixteen};

use crate::order::Merge;
use crate::record::RunRecord;
use plain_machine::Machine;
use plain_monitor::{NoMemory, Refused};
use std::alloc::Global;

/// Legal logs of a program are empty after the sixteenth, however many they are: a machine takes entries of its own threads alone, and a
/// program has 16 at most. So `Merge` gives them all.
pub fn legal_logs_can_be_merged()
    ensures { (p : ProgramText) (fuel : ℕ) (logs : List (List Logged)) → IsProgram p → IsLegal p fuel logs → AreOfSixteen logs }
{}

// So it gives those of this run.
fn logs_can_be_merged(run: &RunRecord)
    requires { IsLegal run.now.program run.now.fuel run.now.logs }
    ensures { AreOfSixteen run.now.logs }
{
    legal_logs_can_be_merged();
    let _threads = run.program.threads.items();
}

/// The machine after all entries of the record's logs, taken by rising stamp. The logs are legal for the record's
/// program and fuel.
///
/// # Errors
///
/// `NoMemory` where an allocation fails.
pub fn replay(alloc: Global, run: &RunRecord) -> Result<Machine, NoMemory>
    requires { IsLegal run.now.program run.now.fuel run.now.logs }
    ensures { IfOk result (λ m. machine_after run.now.program run.now.fuel run.now.logs ≡ Some m) }
{
    logs_can_be_merged(run);
    let mut machine = Machine::new(alloc, &run.program, run.fuel)?;
    let mut ahead = Merge::new(run).ahead(run);
    while let Some((t, logged)) = ahead.next(run) {
        match machine.take(t, &logged.entry) {
            Ok(()) => {}
            Err(Refused) => unreachable!(),
        }
    }
    Ok(machine)
}
