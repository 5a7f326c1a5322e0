//! A text of the language with blocks: it is read, and its code is run.

ghost use Rattle.std.specs.Prelude.{◌≢◌, ◌⊎◌, Some};
ghost use Rattle.program_syntax.specs.declared.error.RefusalCause.TheVariants as why;
ghost use Rattle.cli_args.specs.declared.options.Command.TheVariants.{Sync};
ghost use Rattle.sync_source.specs.SourceView.{sync_text};
ghost use Rattle.sync_syntax.specs.Refusal.{sync_program_of};
ghost use Rattle.sync_syntax.specs.declared.error.SyncRefusalCause.TheVariants.{Plain};
ghost use Rattle.bias_cli.specs.inner.Asked.{IsRunnable};
ghost use Rattle.program_syntax.specs.Text.{most_bytes};
ghost use Rattle.bias_cli.specs.Seen.{source_seen, sink_seen};
ghost use Rattle.bias_cli.specs.Finish.{Meets, RunsBlocks, no_sync_program, sync_due, IsGivenUp, IsFinish, TakesAtMost};

use crate::finish::{Finish, finish_with, out_of_memory};
use crate::input::{ReadError, read_text};
use crate::refusal::sync_refusal_line;
use crate::run::run_and_write;
use cli_args::Options;
use plain_monitor::NoMemory;
use program_syntax::{BYTES, RefusalCause};
use run_io::{Clock, Gate, Sink, Source};
use std::alloc::Global;
use std::sync::Wait;
use std::thread::Threads;
use sync_source::{SyncProgram, compile};
use sync_syntax::{SyncError, SyncRefusalCause, read_sync};

/// Reads the source and runs the program with blocks of its text.
pub(crate) fn run_blocks_of<
    R: Threads + Wait + Sync,
    S: Source,
    K: Sink,
    C: Clock + Sync,
    G: Gate + Sync,
>(
    rt: &R,
    alloc: Global,
    options: &Options,
    source: &mut S,
    sink: &mut K,
    clock: &C,
    gate: &G,
) -> Finish
    requires { IsRunnable options.now }
    ensures over { IsGivenUp sink.old sink.new result ⊎ IsFinish (Some (Sync options.now))
        (source_seen S.Source source.old) (source_seen S.Source source.new)
        (sink_seen K.Sink sink.old) (sink_seen K.Sink sink.new) result }
    ensures taken { TakesAtMost S.Source (Some most_bytes) source.old source.new }
{
    match read_text(alloc, source, BYTES) {
        Ok(bytes) => run_blocks_in(rt, alloc, options, bytes.as_slice(), sink, clock, gate),
        Err(ReadError::Fault) => finish_with(sink, 5, b"read fault\n"),
        Err(ReadError::NoMemory) => out_of_memory(),
    }
}

/// Runs the program with blocks that the bytes have.
fn run_blocks_in<R: Threads + Wait + Sync, K: Sink, C: Clock + Sync, G: Gate + Sync>(
    rt: &R,
    alloc: Global,
    options: &Options,
    bytes: &[u8],
    sink: &mut K,
    clock: &C,
    gate: &G,
) -> Finish
    requires { IsRunnable options.now }
    ensures { IsGivenUp sink.old sink.new result
        ⊎ Meets (sink_seen K.Sink sink.old) (sink_seen K.Sink sink.new) result
        (sync_due options.now (sync_program_of bytes.now)) }
{
    match read_sync(alloc, bytes) {
        Ok(blocks) => run_blocks(rt, alloc, options, &blocks, sink, clock, gate),
        Err(error) => refuse(sink, error),
    }
}

/// Runs the code of the program with blocks, and writes the run's text.
fn run_blocks<R: Threads + Wait + Sync, K: Sink, C: Clock + Sync, G: Gate + Sync>(
    rt: &R,
    alloc: Global,
    options: &Options,
    blocks: &SyncProgram,
    sink: &mut K,
    clock: &C,
    gate: &G,
) -> Finish
    requires { IsRunnable options.now }
    ensures { IsGivenUp sink.old sink.new result
        ⊎ Meets (sink_seen K.Sink sink.old) (sink_seen K.Sink sink.new) result
        (RunsBlocks options.now (sync_text blocks.now)) }
{
    match compile(alloc, blocks) {
        Ok(program) => run_and_write(rt, alloc, options, program, sink, clock, gate),
        Err(NoMemory) => out_of_memory(),
    }
}

/// What becomes of a text that was not read as a program with blocks: its refusal is written, unless it was memory that was wanting.
pub(crate) fn refuse<K: Sink>(sink: &mut K, error: SyncError) -> Finish
    ensures { IsGivenUp sink.old sink.new result
        ⊎ ((error.why ≢ Plain why.NoMemory)
        × Meets (sink_seen K.Sink sink.old) (sink_seen K.Sink sink.new) result (no_sync_program error)) }
{
    if error.why == SyncRefusalCause::Plain(RefusalCause::NoMemory) {
        out_of_memory()
    } else {
        finish_with(sink, 3, sync_refusal_line(error).bytes())
    }
}
