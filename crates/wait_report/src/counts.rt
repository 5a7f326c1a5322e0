//! How each object was locked, and how often it changed hands.

ghost use Rattle.std.specs.Prelude.{◌≡◌, ℕ, false, ◌≤◌, ◌<◌, ◌^◌, ◌++◌, [], ◌∷◌, IfOk, OnOk, length};
ghost use Rattle.plain_monitor.specs.Order.{order};
ghost use Rattle.object_program.specs.Program.{objects_total};
ghost use Rattle.plain_machine.specs.Legal.{IsLegal};
ghost use Rattle.lock_journal.specs.Merging.{AreOfSixteen};
ghost use Rattle.wait_report.specs.Counts.{is_entered, counts_of};
ghost use Rattle.wait_report.specs.inner.Tallies.{count_in, counts_from};

use crate::tallies::{Tally, count_entry, is_counted};
use lock_journal::{Merge, RunRecord, legal_logs_can_be_merged};
use plain_monitor::{List, NoMemory};
use std::alloc::Global;

/// What is counted of an object.
#[derive(Drop)]
pub struct ObjectCount {
    pub object: u32,
    /// Its enters by path, in the order of the paths.
    pub paths: List<u64>,
    /// How often a thread took it after another one had.
    pub handovers: u64,
}

/// The counts of each object that a thread entered, by rising number. The logs are legal for the record's program and
/// fuel. It goes through the entries once, with a table of the objects up to the greatest that they take: so what it
/// keeps goes by the logs, and not by how many objects there may be.
///
/// # Errors
///
/// `NoMemory` where an allocation fails.
pub fn count_objects(alloc: Global, run: &RunRecord) -> Result<List<ObjectCount>, NoMemory>
    requires legal { IsLegal run.now.program run.now.fuel run.now.logs }
    ensures { IfOk result (λ counts. counts ≡ counts_of run.now.program (order run.now.logs)) }
{
    entries_are_few(run, run.fuel);
    let mut tallies = Vec::new(alloc);
    let mut merge = Merge::new(run);
    while let Some((t, logged)) = merge.next(run) {
        count_entry(&mut tallies, t, &logged.entry)?;
    }
    list_counts(alloc, &tallies)
}

/// A machine takes fewer entries than a number of 64 bits counts, since each costs fuel or ends a hold or a wait. Only its objects are entered. And
/// legal logs can be merged.
fn entries_are_few(run: &RunRecord, fuel: u32)
    requires legal { IsLegal run.now.program run.now.fuel run.now.logs }
    requires fuel { fuel ≡ run.now.fuel }
    ensures few { length (order run.now.logs) < 2 ^ 64 }
    ensures within { (o : ℕ) → objects_total run.now.program ≤ o → is_entered (order run.now.logs) o ≡ false }
    ensures merged { AreOfSixteen run.now.logs }
{
    legal_logs_can_be_merged();
    machine_laws::machines_stay_reached();
    machine_laws::each_entry_uses_up_work();
    let _threads = run.program.threads.items();
}

/// The counts of the objects that were entered.
fn list_counts(alloc: Global, tallies: &[Tally]) -> Result<List<ObjectCount>, NoMemory>
    requires { length tallies.now ≤ 2 ^ 32 }
    ensures { IfOk result (λ counts. counts ≡ counts_from 0 tallies.now) }
{
    let mut counts = Vec::new(alloc);
    for (object, tally) in tallies.iter().enumerate() {
        if is_counted(tally) {
            push_count(alloc, &mut counts, object as u32, tally)?;
        }
    }
    Ok(List::of(counts))
}

/// Adds the counts of an object.
fn push_count(
    alloc: Global,
    counts: &mut Vec<ObjectCount>,
    object: u32,
    tally: &Tally,
) -> Result<(), NoMemory>
    ensures { OnOk result (counts.new.items ≡ counts.old.items ++ count_in object tally.now ∷ []) }
{
    let paths = Vec::from_slice(alloc, &tally.paths).map_err(|_| NoMemory)?;
    let count = ObjectCount {
        object,
        paths: List::of(paths),
        handovers: tally.handovers,
    };
    counts.push(count).map_err(|_| NoMemory)?;
    Ok(())
}
