//! A check of a journal: the text, its program, and the answer to its lines.

ghost use Rattle.std.specs.Prelude.{◌⊎◌, ◌≤◌, length, Some};
ghost use Rattle.program_syntax.specs.Refusal.{program_of};
ghost use Rattle.cli_args.specs.declared.options.Command.TheVariants.{Check};
ghost use Rattle.bias_check.specs.Lines.{lines_of};
ghost use Rattle.bias_cli.specs.Seen.{source_seen, sink_seen};
ghost use Rattle.bias_cli.specs.Input.{most_of_journal};
ghost use Rattle.bias_cli.specs.Finish.{Meets, Checks, check_due, journal_due, IsGivenUp, IsFinish, TakesAtMost};

use crate::finish::{Finish, finish_with, out_of_memory};
use crate::input::{MOST_OF_JOURNAL, ReadError, read_text};
use crate::refusal::refusal_line;
use crate::verdict::{verdict_line, verdict_status};
use bias_check::{CheckFault, Parts, check_journal, split_text};
use object_program::Program;
use program_syntax::{RefusalCause, read_program};
use run_io::{Sink, Source};
use std::alloc::Global;

/// Reads the source and checks the journal in its text, with this fuel for each thread and generators of hashes from `start` on.
pub(crate) fn check_source<S: Source, K: Sink>(
    alloc: Global,
    fuel: u32,
    start: u32,
    source: &mut S,
    sink: &mut K,
) -> Finish
    ensures over { IsGivenUp sink.old sink.new result ⊎ IsFinish (Some (Check fuel start))
        (source_seen S.Source source.old) (source_seen S.Source source.new)
        (sink_seen K.Sink sink.old) (sink_seen K.Sink sink.new) result }
    ensures taken { TakesAtMost S.Source (Some most_of_journal) source.old source.new }
{
    match read_text(alloc, source, MOST_OF_JOURNAL) {
        Ok(bytes) => check_text(alloc, fuel, start, bytes.as_slice(), sink),
        Err(ReadError::Fault) => finish_with(sink, 5, b"read fault\n"),
        Err(ReadError::NoMemory) => out_of_memory(),
    }
}

/// Checks the journal in these bytes.
fn check_text<K: Sink>(alloc: Global, fuel: u32, start: u32, bytes: &[u8], sink: &mut K) -> Finish
    ensures { IsGivenUp sink.old sink.new result
        ⊎ Meets (sink_seen K.Sink sink.old) (sink_seen K.Sink sink.new) result (check_due fuel start bytes.now) }
{
    if bytes.len() > MOST_OF_JOURNAL {
        return finish_with(sink, 3, b"program: Limit\n");
    }
    match split_text(bytes) {
        Some(parts) => check_parts(alloc, fuel, start, parts, sink),
        None => finish_with(sink, 3, b"program: NoJournal\n"),
    }
}

/// Checks the journal of the program that stands before it.
fn check_parts<K: Sink>(alloc: Global, fuel: u32, start: u32, parts: Parts, sink: &mut K) -> Finish
    requires { length parts.journal.now ≤ 67108864 }
    ensures { IsGivenUp sink.old sink.new result
        ⊎ Meets (sink_seen K.Sink sink.old) (sink_seen K.Sink sink.new) result
        (journal_due fuel start (lines_of parts.entry.journal.now) (program_of parts.entry.program.now)) }
{
    match read_program(alloc, parts.program) {
        Ok(program) => check_lines(alloc, fuel, start, &program, parts.journal, sink),
        Err(error) => match error.why {
            RefusalCause::NoMemory => out_of_memory(),
            _ => finish_with(sink, 3, refusal_line(error).bytes()),
        },
    }
}

/// Checks the lines of the journal, and writes the answer.
fn check_lines<K: Sink>(
    alloc: Global,
    fuel: u32,
    start: u32,
    program: &Program,
    lines: &[u8],
    sink: &mut K,
) -> Finish
    requires { length lines.now ≤ 67108864 }
    ensures { IsGivenUp sink.old sink.new result
        ⊎ Meets (sink_seen K.Sink sink.old) (sink_seen K.Sink sink.new) result
        (Checks program.now fuel start (lines_of lines.now)) }
{
    match check_journal(alloc, program, fuel, start, lines) {
        Err(CheckFault::NoMemory) => out_of_memory(),
        answer => finish_with(
            sink,
            verdict_status(answer),
            verdict_line(program, answer).bytes(),
        ),
    }
}
