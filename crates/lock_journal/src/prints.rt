//! The lines of prints, and the first lines of dumps.

ghost use Rattle.std.specs.Prelude.{◌≡◌, ◌+◌, ◌≤◌, ◌++◌, ◌∷◌, [], drop, MatchBool, MatchOption, IfNone};
ghost use Rattle.std.specs.List.{AllByRecursion};
ghost use Rattle.plain_monitor.specs.History.{RisesAbove};
ghost use Rattle.plain_monitor.specs.Kept.{kept_of};
ghost use Rattle.lock_journal.specs.LinesLeft.{cells_left, prints_left};
ghost use Rattle.lock_journal.specs.Merging.{AreOfSixteen};
ghost use Rattle.lock_journal.specs.inner.Heads.{IsAhead};
ghost use Rattle.lock_journal.specs.inner.LineTexts.{prints, printed_in, print_line, dump_line, lines_of};

use crate::cells::{Place, next_cell};
use crate::line::Line;
use crate::order::{Ahead, MOST_THREADS, Merge};
use crate::record::RunRecord;
use crate::words::{push_thread, push_value};
use object_program::Program;
use plain_monitor::{Entry, Logged, Value};

/// What an entry prints.
#[derive(Clone, Copy)]
pub(crate) enum Printed {
    /// This value.
    Print(Value),
    /// Its thread's dump with this number.
    Dump(u32),
}

/// Writes the next line of a dump that is being given, and after these that of the next print or dump. False exactly where there is
/// none. `printer` is the thread of the last print or dump, if there was one.
pub(crate) fn next_said(
    merge: &mut Merge,
    printer: &mut Option<u32>,
    cells: &mut Option<Place>,
    run: &RunRecord,
    out: &mut Line,
) -> bool
    requires rising { AllByRecursion (RisesAbove 0) run.now.logs }
    requires few { AreOfSixteen run.now.logs }
    requires clear { out.old ≡ [] }
    ensures { MatchBool result
        (cells_left run.now cells.old ++ prints_left run.now merge.old
        ≡ out.new ∷ (cells_left run.now cells.new ++ prints_left run.now merge.new))
        ((cells_left run.now cells.old ≡ []) × (prints_left run.now merge.old ≡ [])
        × (cells_left run.now cells.new ≡ []) × (prints_left run.now merge.new ≡ []) × (out.new ≡ [])) }
{
    next_cell(cells, run, out) || next_print(merge, printer, cells, run, out)
}

/// Writes the line of the next print, or the first of the next dump, whose objects are to come then. False exactly where no entry
/// is left that prints or dumps, and then `cells` and `out` stay as they are.
fn next_print(
    merge: &mut Merge,
    printer: &mut Option<u32>,
    cells: &mut Option<Place>,
    run: &RunRecord,
    out: &mut Line,
) -> bool
    requires rising { AllByRecursion (RisesAbove 0) run.now.logs }
    requires few { AreOfSixteen run.now.logs }
    requires clear { out.old ≡ [] }
    ensures { MatchBool result
        (prints_left run.now merge.old ≡ out.new ∷ (cells_left run.now cells.new ++ prints_left run.now merge.new))
        ((prints_left run.now merge.old ≡ []) × (prints_left run.now merge.new ≡ []) × (cells.new ≡ cells.old)
        × (out.new ≡ [])) }
{
    match next_printed(merge, printer, run) {
        Some((t, printed)) => {
            *cells = push_printed(out, run, t, printed);
            true
        }
        None => false,
    }
}

/// Takes the next entry that prints or dumps, with its thread, and those before it. `None` exactly where no such entry is left. Each log
/// stands before such an entry after the first call, but that of the printer.
fn next_printed(
    merge: &mut Merge,
    printer: &mut Option<u32>,
    run: &RunRecord,
) -> Option<(u32, Printed)>
    requires rising { AllByRecursion (RisesAbove 0) run.now.logs }
    requires few { AreOfSixteen run.now.logs }
    ensures first { MatchOption result (prints_left run.now merge.old ≡ [])
        (λ x. prints_left run.now merge.old ≡ lines_of run.now.program run.now.shots x.0 x.1
        ++ prints_left run.now merge.new) }
    ensures end { IfNone result (prints_left run.now merge.new ≡ []) }
{
    match *printer {
        None => skip_all(merge, run),
        Some(thread) => skip(merge, run, thread as usize),
    }
    let mut ahead = merge.ahead(run);
    let printed = next_printed_ahead(&mut ahead, run)?;
    merge.go_to(&ahead);
    *printer = Some(printed.0);
    Some(printed)
}

/// Passes in each log over the entries before its next one that prints or dumps.
fn skip_all(merge: &mut Merge, run: &RunRecord)
    ensures { prints_left run.now merge.new ≡ prints_left run.now merge.old }
{
    for thread in 0..MOST_THREADS {
        skip(merge, run, thread);
    }
}

/// Passes in the thread's log over the entries before its next one that prints or dumps.
fn skip(merge: &mut Merge, run: &RunRecord, thread: usize)
    ensures { prints_left run.now merge.new ≡ prints_left run.now merge.old }
{
    if thread < MOST_THREADS {
        if let Some(log) = run.logs.items().get(thread) {
            let place = next_printing(log.items(), merge.place(thread));
            merge.set_place(thread, place);
        }
    }
}

/// The place of the first entry from this place on that prints or dumps, or the end of the log.
fn next_printing(log: &[Logged], from: usize) -> usize
    ensures { kept_of prints (drop result log.now) ≡ kept_of prints (drop from log.now) }
{
    let mut place = from;
    while place < log.len() && printed_in(&log[place].entry).is_none() {
        place += 1;
    }
    place
}

/// The next print or dump, by a merge that has the stamps of the heads at hand.
fn next_printed_ahead(ahead: &mut Ahead, run: &RunRecord) -> Option<(u32, Printed)>
    requires rising { AllByRecursion (RisesAbove 0) run.now.logs }
    requires few { AreOfSixteen run.now.logs }
    requires stamps { IsAhead run.now.logs ahead.old }
    ensures first { MatchOption result (prints_left run.now ahead.old.places ≡ [])
        (λ x. prints_left run.now ahead.old.places ≡ lines_of run.now.program run.now.shots x.0 x.1
        ++ prints_left run.now ahead.new.places) }
    ensures end { IfNone result (prints_left run.now ahead.new.places ≡ []) }
{
    while let Some((t, logged)) = ahead.next(run) {
        if let Some(printed) = printed_in(&logged.entry) {
            return Some((t, printed));
        }
    }
    None
}

/// What the entry prints.
fn printed_in(entry: &Entry) -> Option<Printed>
    ensures { result ≡ printed_in entry.now }
{
    match entry {
        Entry::Print { value } => Some(Printed::Print(*value)),
        Entry::Dump { number } => Some(Printed::Dump(*number)),
        _ => None,
    }
}

/// Writes the first line of what thread `t` printed. It answers the first object of a dump.
fn push_printed(out: &mut Line, run: &RunRecord, t: u32, printed: Printed) -> Option<Place>
    requires { out.old ≡ [] }
    ensures { lines_of run.now.program run.now.shots t printed ≡ out.new ∷ cells_left run.now result }
{
    match printed {
        Printed::Print(value) => {
            push_print(out, &run.program, t, value);
            None
        }
        Printed::Dump(number) => {
            push_dump(out, &run.program, t, number);
            Some(Place {
                thread: t,
                number,
                object: 0,
            })
        }
    }
}

/// Writes the line of a print of thread `t`.
fn push_print(out: &mut Line, program: &Program, t: u32, value: Value)
    requires { out.old ≡ [] }
    ensures { out.new ≡ print_line program.now t value }
{
    push_thread(out, program, t);
    out.push(b": ");
    push_value(out, program, value);
    out.end();
}

/// Writes the first line of a dump of thread `t`.
fn push_dump(out: &mut Line, program: &Program, t: u32, number: u32)
    requires { out.old ≡ [] }
    ensures { out.new ≡ dump_line program.now t number }
{
    out.push(b"dump ");
    push_thread(out, program, t);
    out.push(b" ");
    out.push_number(u64::from(number));
    out.end();
}
