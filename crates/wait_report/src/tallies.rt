//! What is counted of each object.

ghost use Rattle.std.specs.Prelude.{◌≡◌, ◌<◌, ◌≤◌, ◌+◌, ◌^◌, ◌++◌, OnOk, replicate, vec_len};
ghost use Rattle.lock_journal.specs.RunText.{path_number};
ghost use Rattle.wait_report.specs.Handovers.{is_handover};
ghost use Rattle.wait_report.specs.inner.Tallies.{new_tally, had_by, entered_by, count_at, reaching, with_enter, with_resume, after_entry, HaveRoom, is_counted};

use plain_monitor::{Entry, NoMemory, Path};

/// How many paths there are.
const PATHS: usize = 6;

/// What the entries so far did with an object: its enters by path, its handovers, and who took it last.
#[derive(Clone, Copy)]
pub(crate) struct Tally {
    pub(crate) paths: [u64; PATHS],
    pub(crate) handovers: u64,
    pub(crate) taker: Option<u32>,
}

/// Counts an entry of thread `t`. Only an object up to the greatest that was entered or resumed has a tally.
pub(crate) fn count_entry(tallies: &mut Vec<Tally>, t: u32, entry: &Entry) -> Result<(), NoMemory>
    requires room { HaveRoom 1 tallies.old.items }
    requires few { vec_len tallies.old ≤ 2 ^ 32 }
    ensures counted { OnOk result (tallies.new.items ≡ after_entry tallies.old.items t entry.now) }
    ensures few { OnOk result (vec_len tallies.new ≤ 2 ^ 32) }
{
    match entry {
        Entry::Enter { object, path } => count_enter(tallies, t, *object, *path),
        Entry::Resume { object } => count_resume(tallies, t, *object),
        _ => Ok(()),
    }
}

/// Counts an enter of the object.
fn count_enter(tallies: &mut Vec<Tally>, t: u32, object: u32, path: Path) -> Result<(), NoMemory>
    requires room { HaveRoom 1 tallies.old.items }
    requires few { vec_len tallies.old ≤ 2 ^ 32 }
    ensures counted { OnOk result (tallies.new.items ≡ with_enter (reaching tallies.old.items object) t object path) }
    ensures few { OnOk result (vec_len tallies.new ≤ 2 ^ 32) }
{
    reach(tallies, object)?;
    let tally = &mut tallies[object as usize];
    count_taker(tally, t);
    count_path(tally, path);
    Ok(())
}

/// Counts a resume of the object.
fn count_resume(tallies: &mut Vec<Tally>, t: u32, object: u32) -> Result<(), NoMemory>
    requires room { HaveRoom 1 tallies.old.items }
    requires few { vec_len tallies.old ≤ 2 ^ 32 }
    ensures counted { OnOk result (tallies.new.items ≡ with_resume (reaching tallies.old.items object) t object) }
    ensures few { OnOk result (vec_len tallies.new ≤ 2 ^ 32) }
{
    reach(tallies, object)?;
    count_taker(&mut tallies[object as usize], t);
    Ok(())
}

/// Adds new tallies until the object has one.
fn reach(tallies: &mut Vec<Tally>, object: u32) -> Result<(), NoMemory>
    requires room { HaveRoom 1 tallies.old.items }
    requires few { vec_len tallies.old ≤ 2 ^ 32 }
    ensures items { OnOk result (tallies.new.items ≡ reaching tallies.old.items object) }
    ensures within { OnOk result (object < vec_len tallies.new) }
    ensures room { OnOk result (HaveRoom 1 tallies.new.items) }
    ensures few { OnOk result (vec_len tallies.new ≤ 2 ^ 32) }
{
    let wanted = object as usize + 1;
    let missing = wanted.saturating_sub(tallies.len());
    push_new(tallies, missing)
}

/// Adds this many tallies.
fn push_new(tallies: &mut Vec<Tally>, size: usize) -> Result<(), NoMemory>
    ensures { OnOk result (tallies.new.items ≡ tallies.old.items ++ replicate size new_tally) }
{
    for _ in 0..size {
        let tally = Tally {
            paths: [0; PATHS],
            handovers: 0,
            taker: None,
        };
        tallies.push(tally).map_err(|_| NoMemory)?;
    }
    Ok(())
}

/// Counts that thread `t` took the object, or had it and entered it once more: then it is the last that took it, and nothing
/// changes. So no count of the monitor is kept.
fn count_taker(tally: &mut Tally, t: u32)
    requires { tally.old.handovers + 1 < 2 ^ 64 }
    ensures { tally.new ≡ had_by tally.old t }
{
    if is_handover(tally.taker, t) {
        tally.handovers += 1;
    }
    tally.taker = Some(t);
}

/// Counts an enter by this path.
fn count_path(tally: &mut Tally, path: Path)
    requires { count_at tally.old.paths path + 1 < 2 ^ 64 }
    ensures { tally.new ≡ entered_by tally.old path }
{
    tally.paths[path_number(path)] += 1;
}

/// Whether another thread took the object before `t`.
fn is_handover(before: Option<u32>, t: u32) -> bool
    ensures { result ≡ is_handover before t }
{
    match before {
        Some(thread) => thread != t,
        None => false,
    }
}

/// The number of a path in the order of the paths, from 0.
fn path_number(path: Path) -> usize
    ensures is { result ≡ path_number path }
    ensures within { result < 6 }
{
    match path {
        Path::BiasOwn => 0,
        Path::BiasTaken => 1,
        Path::StackFirst => 2,
        Path::StackAgain => 3,
        Path::MonitorFirst => 4,
        Path::MonitorAgain => 5,
    }
}

/// Whether the object was entered.
pub(crate) fn is_counted(tally: &Tally) -> bool
    ensures { result ≡ is_counted tally.now }
{
    tally.paths.iter().any(|n| *n >= 1)
}
