//! A call of `biasrun`: the words, the text, the run and the writing.

ghost use Rattle.std.specs.Prelude.{◌≡◌, ◌⊎◌, ◌++◌, length, map, string_bytes, Some, IfOk};
ghost use Rattle.object_program.specs.Program.{ProgramText};
ghost use Rattle.program_syntax.specs.Refusal.{program_of};
ghost use Rattle.cli_args.specs.Command.{accepted};
ghost use Rattle.lock_journal.specs.RunText.{text_of_lines};
ghost use Rattle.cli_args.specs.declared.options.Command.TheVariants.{Run};
ghost use Rattle.bias_cli.specs.Asked.{settings_of};
ghost use Rattle.bias_cli.specs.inner.Asked.{IsRunnable};
ghost use Rattle.program_syntax.specs.Text.{most_bytes};
ghost use Rattle.bias_cli.specs.Seen.{source_seen, sink_seen};
ghost use Rattle.bias_cli.specs.Finish.{most_asked, Meets, Runs, run_due, IsGivenUp, IsFinish, IsWritten, TakesAtMost};
ghost use Rattle.plain_machine.specs.Legal.{IsLegal};
ghost use Rattle.program_run.specs.Ran.{IsRan};
ghost use Rattle.bias_cli.specs.inner.Briefly.{IsToldBy, IsRunBy, IsReportBy, IsShownBy, lines_by, status_by};

use crate::blocks::run_blocks_of;
use crate::check::check_source;
use crate::compile::compile_source;
use crate::finish::{Finish, WRITE_FAILED, finish_with, out_of_memory};
use crate::input::{ReadError, read_text};
use crate::make::make_program;
use crate::outcomes::find_source;
use crate::refusal::refusal_line;
use crate::report::report_where;
use crate::text::{status_by, write_text};
use cli_args::{Command, Options, WordsFault, read_words};
use lock_journal::{RunRecord, have_ended, replay};
use object_program::Program;
use plain_machine::Machine;
use plain_monitor::{List, NoMemory};
use program_run::{Ran, Settings, run_program};
use program_syntax::{BYTES, RefusalCause, read_program};
use run_io::{Clock, Gate, Sink, Source};
use std::alloc::Global;
use std::sync::Wait;
use std::thread::Threads;

/// Does what the words ask for. A run starts its workers, and waits for them.
pub(crate) fn run_command<
    R: Threads + Wait + Sync,
    S: Source,
    K: Sink,
    C: Clock + Sync,
    G: Gate + Sync,
>(
    rt: &R,
    alloc: Global,
    words: &[String],
    source: &mut S,
    sink: &mut K,
    clock: &C,
    gate: &G,
) -> Finish
    ensures over { IsGivenUp sink.old sink.new result ⊎ IsFinish (accepted (map (λ w. string_bytes w) words.now))
        (source_seen S.Source source.old) (source_seen S.Source source.new)
        (sink_seen K.Sink sink.old) (sink_seen K.Sink sink.new) result }
    ensures taken { TakesAtMost S.Source
        (most_asked (accepted (map (λ w. string_bytes w) words.now))) source.old source.new }
{
    match read_words(alloc, words) {
        Ok(Command::Run(options)) => run_source(rt, alloc, &options, source, sink, clock, gate),
        Ok(Command::Sync(options)) => run_blocks_of(rt, alloc, &options, source, sink, clock, gate),
        Ok(Command::Compile) => compile_source(alloc, source, sink),
        Ok(Command::Check { fuel, start }) => check_source(alloc, fuel, start, source, sink),
        Ok(Command::Make { items }) => make_program(alloc, items, sink),
        Ok(Command::Outcomes { states, witness }) => {
            find_source(alloc, states, witness, source, sink)
        }
        Err(WordsFault::Refused) => finish_with(sink, 2, b"words refused\n"),
        Err(WordsFault::NoMemory) => out_of_memory(),
    }
}

/// Reads the source and runs its text.
fn run_source<R: Threads + Wait + Sync, S: Source, K: Sink, C: Clock + Sync, G: Gate + Sync>(
    rt: &R,
    alloc: Global,
    options: &Options,
    source: &mut S,
    sink: &mut K,
    clock: &C,
    gate: &G,
) -> Finish
    requires { IsRunnable options.now }
    ensures over { IsGivenUp sink.old sink.new result ⊎ IsFinish (Some (Run options.now))
        (source_seen S.Source source.old) (source_seen S.Source source.new)
        (sink_seen K.Sink sink.old) (sink_seen K.Sink sink.new) result }
    ensures taken { TakesAtMost S.Source (Some most_bytes) source.old source.new }
{
    match read_text(alloc, source, BYTES) {
        Ok(bytes) => run_text(rt, alloc, options, bytes.as_slice(), sink, clock, gate),
        Err(ReadError::Fault) => finish_with(sink, 5, b"read fault\n"),
        Err(ReadError::NoMemory) => out_of_memory(),
    }
}

/// Runs the program that the bytes have.
fn run_text<R: Threads + Wait + Sync, K: Sink, C: Clock + Sync, G: Gate + Sync>(
    rt: &R,
    alloc: Global,
    options: &Options,
    bytes: &[u8],
    sink: &mut K,
    clock: &C,
    gate: &G,
) -> Finish
    requires { IsRunnable options.now }
    ensures { IsGivenUp sink.old sink.new result
        ⊎ Meets (sink_seen K.Sink sink.old) (sink_seen K.Sink sink.new) result
        (run_due options.now (program_of bytes.now)) }
{
    match read_program(alloc, bytes) {
        Ok(program) => run_and_write(rt, alloc, options, program, sink, clock, gate),
        Err(error) => match error.why {
            RefusalCause::NoMemory => out_of_memory(),
            _ => finish_with(sink, 3, refusal_line(error).bytes()),
        },
    }
}

/// Runs the program and writes the run's text.
pub(crate) fn run_and_write<R: Threads + Wait + Sync, K: Sink, C: Clock + Sync, G: Gate + Sync>(
    rt: &R,
    alloc: Global,
    options: &Options,
    program: Program,
    sink: &mut K,
    clock: &C,
    gate: &G,
) -> Finish
    requires { IsRunnable options.now }
    ensures { IsGivenUp sink.old sink.new result
        ⊎ Meets (sink_seen K.Sink sink.old) (sink_seen K.Sink sink.new) result
        (Runs options.now program) }
{
    match run_of(rt, alloc, options, program, clock, gate) {
        Ok(done) => write_run(sink, options, done),
        Err(NoMemory) => out_of_memory(),
    }
}

/// A run that is over: what it left, the machine under its record where the logs alone don't tell what is to be written, and the lines of its
/// report, none where none is asked for.
#[derive(Drop)]
struct Done {
    ran: Box<Ran>,
    machine: Option<Machine>,
    report: Vec<List<u8>>,
}

/// Runs the program to its end.
fn run_of<R: Threads + Wait + Sync, C: Clock + Sync, G: Gate + Sync>(
    rt: &R,
    alloc: Global,
    options: &Options,
    program: Program,
    clock: &C,
    gate: &G,
) -> Result<Done, NoMemory>
    requires { IsRunnable options.now }
    ensures run { IfOk result (λ done. IsRunBy options.now program done.ran.value.record done.ran.value.closed done.machine) }
    ensures shown { IfOk result (λ done. IsShownBy done.ran.value.record done.machine) }
    ensures reported { IfOk result (λ done. IsReportBy options.now.report done.ran.value.record done.machine done.report.items) }
{
    let ran = ran_by(rt, alloc, options, program, clock, gate)?;
    let machine = machine_where(alloc, options, &ran.record)?;
    let report = report_by(alloc, options.report, &ran.record, &machine)?;
    Ok(Done {
        ran,
        machine,
        report,
    })
}

/// What a run of the program leaves. It lies in a box, as the proof of a function lists at each of its steps all words that it holds itself.
fn ran_by<R: Threads + Wait + Sync, C: Clock + Sync, G: Gate + Sync>(
    rt: &R,
    alloc: Global,
    options: &Options,
    program: Program,
    clock: &C,
    gate: &G,
) -> Result<Box<Ran>, NoMemory>
    requires { IsRunnable options.now }
    ensures { IfOk result (λ ran. IsRan (settings_of options.now) program ran.value.record ran.value.closed) }
{
    let settings = settings_of(options);
    let ran = run_program(rt, alloc, program, &settings, clock, gate)?;
    Box::new(alloc, ran).map_err(|_| NoMemory)
}

/// The machine under the record, where the logs alone don't tell what is to be written: a log doesn't end with its thread's ending, a
/// report is asked for, or statistics, which go by the classes of the objects that threads made.
fn machine_where(
    alloc: Global,
    options: &Options,
    run: &RunRecord,
) -> Result<Option<Machine>, NoMemory>
    requires legal { IsLegal run.now.program run.now.fuel run.now.logs }
    requires logs { length run.now.logs ≡ length run.now.program.threads }
    ensures told { IfOk result (λ at. IsToldBy options.now run.now at) }
    ensures shown { IfOk result (λ at. IsShownBy run.now at) }
{
    // The type of a program says that its threads are few.
    let _threads = run.program.threads.items();
    if !options.report && !options.stats && have_ended(run) {
        return Ok(None);
    }
    let machine = replay(alloc, run)?;
    Ok(Some(machine))
}

/// The lines of the report where one is asked for, and none where there is no machine.
fn report_by(
    alloc: Global,
    asked: bool,
    run: &RunRecord,
    machine: &Option<Machine>,
) -> Result<Vec<List<u8>>, NoMemory>
    requires legal { IsLegal run.now.program run.now.fuel run.now.logs }
    requires shown { IsShownBy run.now machine.now }
    ensures { IfOk result (λ lines. IsReportBy asked run.now machine.now lines.items) }
{
    match machine {
        None => Ok(Vec::new(alloc)),
        Some(machine) => report_where(alloc, asked, run, machine),
    }
}

/// How the options say that a program is run.
fn settings_of(options: &Options) -> Settings
    ensures { result ≡ settings_of options.now }
{
    Settings {
        fuel: options.fuel,
        start: options.start,
        bias: options.bias,
        workers: options.workers,
        quantum: options.quantum,
        tick: options.tick,
    }
}

/// Writes the text of a run that is over.
fn write_run<K: Sink>(sink: &mut K, options: &Options, done: Done) -> Finish
    requires shown { IsShownBy done.ran.value.record done.machine }
    requires reported { IsReportBy options.now.report done.ran.value.record done.machine done.report.items }
    ensures { (p : ProgramText) → IsRunBy options.now p done.ran.value.record done.ran.value.closed done.machine
        → Meets (sink_seen K.Sink sink.old) (sink_seen K.Sink sink.new) result (Runs options.now p) }
{
    let Done {
        ran,
        machine,
        report,
    } = done;
    let status = write_done(sink, options, &ran.record, &machine, &report);
    let Ran {
        record: run,
        closed,
    } = Box::into_inner(ran);
    Finish {
        status,
        run: Some(run),
        closed: Some(closed),
    }
}

/// Writes the text of a run that is over, and answers the status alone.
fn write_done<K: Sink>(
    sink: &mut K,
    options: &Options,
    run: &RunRecord,
    machine: &Option<Machine>,
    report: &[List<u8>],
) -> u8
    requires { IsShownBy run.now machine.now }
    ensures { IsWritten (sink_seen K.Sink sink.old) (sink_seen K.Sink sink.new) result (status_by run.now machine.now)
        (text_of_lines (lines_by options.now.stats options.now.journal run.now machine.now) ++ text_of_lines report.now) }
{
    match write_text(sink, run, machine, options, report) {
        Ok(()) => status_by(run, machine),
        Err(_) => WRITE_FAILED,
    }
}
