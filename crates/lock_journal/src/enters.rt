//! How often the objects of a class were entered by each path.

ghost use Rattle.std.specs.Prelude.{◌≡◌, ◌+◌, ◌<◌, ◌≤◌, ◌^◌};
ghost use Rattle.plain_monitor.specs.declared.entry.Path.{Path};
ghost use Rattle.plain_monitor.specs.Order.{order};
ghost use Rattle.lock_journal.specs.Merging.{AreOfSixteen};
ghost use Rattle.lock_journal.specs.RunText.{path_number};
ghost use Rattle.lock_journal.specs.inner.Enters.{enter_by, enters_in, enters_of, count_at, AreAtMost};

use crate::order::first_logs;
use crate::record::RunRecord;
use plain_machine::Machine;
use plain_monitor::{Entry, Logged, Path};

/// How many paths there are.
pub(crate) const PATHS: usize = 6;

/// How often the entries of the run enter the objects of class `c`, by path, in the order of the paths. Which class an
/// object has the machine under the run says.
pub(crate) fn enters_of(run: &RunRecord, machine: &Machine, c: usize) -> [u128; PATHS]
    requires { AreOfSixteen run.now.logs }
    ensures { result ≡ enters_of machine.now c (order run.now.logs) }
{
    let mut counts = [0; PATHS];
    for log in first_logs(run) {
        count_log(&mut counts, machine, c, log.items());
    }
    counts
}

/// Counts the enters of a log.
fn count_log(counts: &mut [u128; PATHS], machine: &Machine, c: usize, log: &[Logged])
    requires { AreAtMost counts.old (2 ^ 100) }
    ensures counted { (path : Path) → count_at counts.new path ≡ count_at counts.old path
        + enters_in machine.now c path log.now }
    ensures few { (path : Path) → count_at counts.new path ≤ count_at counts.old path + 2 ^ 64 }
{
    for logged in log {
        count_entry(counts, machine, c, &logged.entry);
    }
}

/// Counts the entry, where it enters an object of class `c`.
fn count_entry(counts: &mut [u128; PATHS], machine: &Machine, c: usize, entry: &Entry)
    requires { AreAtMost counts.old (2 ^ 101) }
    ensures { (path : Path) → count_at counts.new path ≡ count_at counts.old path
        + enter_by machine.now c path entry.now }
{
    if let Entry::Enter { object, path } = entry {
        if let Some(class) = machine.class_of(*object) {
            if class as usize == c {
                counts[path_number(*path)] += 1;
            }
        }
    }
}

/// The number of a path in the order of the paths, from 0.
fn path_number(path: Path) -> usize
    ensures is { result ≡ path_number path }
    ensures within { result < 6 }
{
    match path {
        Path::BiasOwn => 0,
        Path::BiasTaken => 1,
        Path::StackFirst => 2,
        Path::StackAgain => 3,
        Path::MonitorFirst => 4,
        Path::MonitorAgain => 5,
    }
}
