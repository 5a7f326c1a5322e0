//! What is reported of a run: the cycles of a machine that is stuck, and how each object was locked and passed on.

ghost use Rattle.std.specs.Prelude.{◌≡◌, ◌++◌, ◌∷◌, [], length, map, IfOk, OnOk};
ghost use Rattle.plain_machine.specs.Legal.{IsLegal};
ghost use Rattle.lock_journal.specs.Words.{object_text};
ghost use Rattle.bias_cli.specs.Report.{link_text, cycle_line, cycle_lines, number_text, count_line, IsReport, IsReportWhere};

use lock_journal::{Line, RunRecord, push_object, push_thread};
use object_program::Program;
use plain_machine::Machine;
use plain_monitor::{List, NoMemory};
use std::alloc::Global;
use wait_report::{Cycle, Link, ObjectCount, count_objects, find_cycles};

/// The lines of the report of a run, where it is asked for. The machine is the one under the record.
pub(crate) fn report_where(
    alloc: Global,
    asked: bool,
    run: &RunRecord,
    machine: &Machine,
) -> Result<Vec<List<u8>>, NoMemory>
    requires legal { IsLegal run.now.program run.now.fuel run.now.logs }
    requires threads { length machine.now.threads ≡ length run.now.program.threads }
    ensures { IfOk result (λ lines. IsReportWhere asked run.now machine.now lines.items) }
{
    if asked {
        report_lines(alloc, run, machine)
    } else {
        Ok(Vec::new(alloc))
    }
}

/// The lines of the report of a run.
fn report_lines(
    alloc: Global,
    run: &RunRecord,
    machine: &Machine,
) -> Result<Vec<List<u8>>, NoMemory>
    requires legal { IsLegal run.now.program run.now.fuel run.now.logs }
    requires threads { length machine.now.threads ≡ length run.now.program.threads }
    ensures { IfOk result (λ lines. IsReport run.now machine.now lines.items) }
{
    let cycles = find_cycles(alloc, &run.program, machine)?;
    let counts = count_objects(alloc, run)?;
    let mut lines = Vec::new(alloc);
    if machine.is_stuck() {
        push_cycles(alloc, &run.program, cycles.items(), &mut lines)?;
    }
    push_counts(alloc, &run.program, counts.items(), &mut lines)?;
    Ok(lines)
}

/// Adds the line of each cycle, or the one that says that there is none.
fn push_cycles(
    alloc: Global,
    program: &Program,
    cycles: &[Cycle],
    lines: &mut Vec<List<u8>>,
) -> Result<(), NoMemory>
    ensures { OnOk result (lines.new.items ≡ lines.old.items ++ cycle_lines program.now cycles.now) }
{
    if cycles.is_empty() {
        return push_line(alloc, lines, b"cycle none\n");
    }
    for cycle in cycles {
        let line = cycle_line(alloc, program, cycle)?;
        lines.push(List::of(line)).map_err(|_| NoMemory)?;
    }
    Ok(())
}

/// The line of a cycle. It may be longer than a `Line`.
fn cycle_line(alloc: Global, program: &Program, cycle: &Cycle) -> Result<Vec<u8>, NoMemory>
    ensures { IfOk result (λ line. line.items ≡ cycle_line program.now cycle.now) }
{
    let mut line = Vec::from_slice(alloc, b"cycle").map_err(|_| NoMemory)?;
    for link in cycle.links.items() {
        push_bytes(&mut line, link_text(program, *link).bytes())?;
    }
    push_bytes(&mut line, b"\n")?;
    Ok(line)
}

/// A thread, and the object by which it waits.
fn link_text(program: &Program, link: Link) -> Line
    ensures { result ≡ link_text program.now link }
{
    let mut text = Line::new();
    text.push(b" ");
    push_thread(&mut text, program, link.thread);
    text.push(b" ");
    push_object(&mut text, program, link.object);
    text
}

/// Adds the line of each count.
fn push_counts(
    alloc: Global,
    program: &Program,
    counts: &[ObjectCount],
    lines: &mut Vec<List<u8>>,
) -> Result<(), NoMemory>
    ensures { OnOk result (lines.new.items ≡ lines.old.items ++ map (count_line program.now) counts.now) }
{
    for count in counts {
        let line = count_line(alloc, program, count)?;
        lines.push(List::of(line)).map_err(|_| NoMemory)?;
    }
    Ok(())
}

/// The line of what is counted of an object.
fn count_line(alloc: Global, program: &Program, count: &ObjectCount) -> Result<Vec<u8>, NoMemory>
    ensures { IfOk result (λ line. line.items ≡ count_line program.now count.now) }
{
    let mut line = Vec::from_slice(alloc, b"object ").map_err(|_| NoMemory)?;
    push_bytes(&mut line, object_text(program, count.object).bytes())?;
    for number in count.paths.items() {
        push_bytes(&mut line, number_text(*number).bytes())?;
    }
    push_bytes(&mut line, b" handovers")?;
    push_bytes(&mut line, number_text(count.handovers).bytes())?;
    push_bytes(&mut line, b"\n")?;
    Ok(line)
}

/// The name of an object.
fn object_text(program: &Program, object: u32) -> Line
    ensures { result ≡ object_text program.now object }
{
    let mut text = Line::new();
    push_object(&mut text, program, object);
    text
}

/// A number after a space.
fn number_text(number: u64) -> Line
    ensures { result ≡ number_text number }
{
    let mut text = Line::new();
    text.push(b" ");
    text.push_number(number);
    text
}

/// Adds a line of these bytes.
fn push_line(alloc: Global, lines: &mut Vec<List<u8>>, bytes: &[u8]) -> Result<(), NoMemory>
    ensures { OnOk result (lines.new.items ≡ lines.old.items ++ bytes.now ∷ []) }
{
    let line = Vec::from_slice(alloc, bytes).map_err(|_| NoMemory)?;
    lines.push(List::of(line)).map_err(|_| NoMemory)
}

/// Adds these bytes to a line.
fn push_bytes(line: &mut Vec<u8>, bytes: &[u8]) -> Result<(), NoMemory>
    ensures { OnOk result (line.new.items ≡ line.old.items ++ bytes.now) }
{
    line.extend_from_slice(bytes).map_err(|_| NoMemory)
}
