//! Writing the text of a run, and the status that its machine gives.

ghost use Rattle.std.specs.Prelude.{◌≡◌, ◌≤◌, ◌++◌, ◌∷◌, [], MatchBool, false, length, IsTrue, OnOk, OnErr};
ghost use Rattle.std.specs.List.{list_any};
ghost use Rattle.run_io.specs.Faults.{rose};
ghost use Rattle.plain_machine.specs.Machine.{ending_in};
ghost use Rattle.bias_cli.specs.Output.{Wrote, WroteFront};
ghost use Rattle.lock_journal.specs.RunText.{text_of_lines};
ghost use Rattle.bias_cli.specs.Finish.{status_of, is_cut_short};
ghost use Rattle.bias_cli.specs.inner.Briefly.{IsShownBy, left_by, lines_by, logs_cut_short, status_by};

use crate::output::write_piece;
use cli_args::Options;
use lock_journal::{Line, Lines, RunRecord, last_said};
use plain_machine::Machine;
use plain_monitor::{Ending, List, Logged};
use run_io::{Failed, Sink};

/// Writes the lines of the run's text, with statistics and the journal where asked, each by a write call of its own, and stops at
/// the first write that fails. `Failed` comes only where the sink's count of faults rose, and then a front of the text is written.
fn write_lines<K: Sink>(
    sink: &mut K,
    run: &RunRecord,
    machine: &Option<Machine>,
    stats: bool,
    journal: bool,
) -> Result<(), Failed>
    requires { IsShownBy run.now machine.now }
    ensures counted { K.faults sink.old ≤ K.faults sink.new }
    ensures ok { OnOk result (Wrote (K.held sink.old) (K.held sink.new)
        (text_of_lines (lines_by stats journal run.now machine.now))) }
    ensures failed { OnErr result (IsTrue (rose (K.faults sink.old) (K.faults sink.new))) }
    ensures front { OnErr result
        (WroteFront (K.held sink.old) (K.held sink.new) (text_of_lines (lines_by stats journal run.now machine.now))) }
{
    let mut lines = Lines::new(stats, journal);
    let mut line = Line::new();
    while next_line(&mut lines, run, machine, &mut line) {
        write_piece(sink, line.bytes())?;
    }
    Ok(())
}

/// Writes the next line, by the machine or by the logs.
fn next_line(lines: &mut Lines, run: &RunRecord, machine: &Option<Machine>, out: &mut Line) -> bool
    requires { IsShownBy run.now machine.now }
    ensures { MatchBool result
        (left_by run.now machine.now lines.old ≡ out.new ∷ left_by run.now machine.now lines.new)
        ((left_by run.now machine.now lines.old ≡ []) × (left_by run.now machine.now lines.new ≡ []) × (out.new ≡ [])) }
{
    match machine {
        Some(machine) => lines.next(run, machine, out),
        None => lines.next_ended(run, out),
    }
}

/// Writes the lines of the run's text, with what the options ask for, and after them those of the report.
pub(crate) fn write_text<K: Sink>(
    sink: &mut K,
    run: &RunRecord,
    machine: &Option<Machine>,
    options: &Options,
    report: &[List<u8>],
) -> Result<(), Failed>
    requires { IsShownBy run.now machine.now }
    ensures counted { K.faults sink.old ≤ K.faults sink.new }
    ensures ok { OnOk result (Wrote (K.held sink.old) (K.held sink.new)
        (text_of_lines (lines_by options.now.stats options.now.journal run.now machine.now) ++ text_of_lines report.now)) }
    ensures failed { OnErr result (IsTrue (rose (K.faults sink.old) (K.faults sink.new))) }
    ensures front { OnErr result (WroteFront (K.held sink.old) (K.held sink.new)
        (text_of_lines (lines_by options.now.stats options.now.journal run.now machine.now) ++ text_of_lines report.now)) }
{
    write_lines(sink, run, machine, options.stats, options.journal)?;
    write_report(sink, report)?;
    Ok(())
}

/// Writes these lines, each by a write call of its own, and stops at the first write that fails.
fn write_report<K: Sink>(sink: &mut K, lines: &[List<u8>]) -> Result<(), Failed>
    ensures counted { K.faults sink.old ≤ K.faults sink.new }
    ensures ok { OnOk result (Wrote (K.held sink.old) (K.held sink.new) (text_of_lines lines.now)) }
    ensures failed { OnErr result (IsTrue (rose (K.faults sink.old) (K.faults sink.new))) }
    ensures front { OnErr result (WroteFront (K.held sink.old) (K.held sink.new) (text_of_lines lines.now)) }
{
    for line in lines {
        write_piece(sink, line.items())?;
    }
    Ok(())
}

/// The status of a run whose text was written: by the machine, or where there is none by the last entries of the logs.
pub(crate) fn status_by(run: &RunRecord, machine: &Option<Machine>) -> u8
    requires { IsShownBy run.now machine.now }
    ensures { result ≡ status_by run.now machine.now }
{
    match machine {
        Some(machine) => status_of(machine, run.program.threads.items().len() as u32),
        None => if logs_cut_short(run.logs.items()) {
            1
        } else {
            0
        },
    }
}

/// Whether the last entry of one of these logs says that its thread faulted or was spent.
fn logs_cut_short(logs: &[List<Logged>]) -> bool
    ensures { result ≡ logs_cut_short logs.now }
{
    logs.iter().any(|log| is_cut_short(last_said(log.items())))
}

/// The status of a run whose text was written: 4 where the machine is stuck, else 1 where one of its threads, of which there
/// are `threads`, faulted or was spent, else 0.
fn status_of(machine: &Machine, threads: u32) -> u8
    requires { threads ≡ length machine.now.threads }
    ensures { result ≡ status_of machine.now }
{
    if machine.is_stuck() {
        4
    } else if some_cut_short(machine, threads) {
        1
    } else {
        0
    }
}

/// Whether one of the machine's threads faulted or was spent.
fn some_cut_short(machine: &Machine, threads: u32) -> bool
    requires { threads ≡ length machine.now.threads }
    ensures { result ≡ list_any (λ s. is_cut_short (ending_in s.mode)) machine.now.threads }
{
    for t in 0..threads {
        if is_cut_short(machine.ending(t)) {
            return true;
        }
    }
    false
}

/// Whether a thread that ended so faulted or was spent.
fn is_cut_short(ending: Option<Ending>) -> bool
    ensures { result ≡ is_cut_short ending }
{
    match ending {
        None | Some(Ending::Done) => false,
        Some(_) => true,
    }
}
