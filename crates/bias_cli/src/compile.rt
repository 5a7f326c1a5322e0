//! The code of a text of the language with blocks, written as text.

ghost use Rattle.std.specs.Prelude.{◌≡◌, ◌⊎◌, decimal, IfOk, Ok, Some};
ghost use Rattle.program_syntax.specs.Canonical.{canonical};
ghost use Rattle.cli_args.specs.declared.options.Command.TheVariants.{Compile};
ghost use Rattle.sync_source.specs.SourceView.{sync_text};
ghost use Rattle.sync_source.specs.Compiled.{compiled};
ghost use Rattle.sync_syntax.specs.Refusal.{sync_program_of};
ghost use Rattle.program_syntax.specs.Text.{most_bytes};
ghost use Rattle.bias_cli.specs.Seen.{source_seen, sink_seen};
ghost use Rattle.bias_cli.specs.Finish.{Meets, compile_due, IsGivenUp, IsFinish, TakesAtMost};

use crate::blocks::refuse;
use crate::finish::{Finish, finish_with, out_of_memory};
use crate::input::{ReadError, read_text};
use plain_monitor::NoMemory;
use program_syntax::{BYTES, write_program};
use run_io::{Sink, Source};
use std::alloc::Global;
use sync_source::{SyncProgram, compile};
use sync_syntax::read_sync;

/// Reads the source and writes the code of the program with blocks of its text.
pub(crate) fn compile_source<S: Source, K: Sink>(
    alloc: Global,
    source: &mut S,
    sink: &mut K,
) -> Finish
    ensures over { IsGivenUp sink.old sink.new result ⊎ IsFinish (Some Compile)
        (source_seen S.Source source.old) (source_seen S.Source source.new)
        (sink_seen K.Sink sink.old) (sink_seen K.Sink sink.new) result }
    ensures taken { TakesAtMost S.Source (Some most_bytes) source.old source.new }
{
    match read_text(alloc, source, BYTES) {
        Ok(bytes) => compile_text(alloc, bytes.as_slice(), sink),
        Err(ReadError::Fault) => finish_with(sink, 5, b"read fault\n"),
        Err(ReadError::NoMemory) => out_of_memory(),
    }
}

/// Writes the code of the program with blocks that the bytes have.
fn compile_text<K: Sink>(alloc: Global, bytes: &[u8], sink: &mut K) -> Finish
    ensures { IsGivenUp sink.old sink.new result
        ⊎ Meets (sink_seen K.Sink sink.old) (sink_seen K.Sink sink.new) result
        (compile_due (sync_program_of bytes.now)) }
{
    match read_sync(alloc, bytes) {
        Ok(blocks) => write_code(alloc, &blocks, sink),
        Err(error) => refuse(sink, error),
    }
}

/// Writes the code of the program with blocks.
fn write_code<K: Sink>(alloc: Global, blocks: &SyncProgram, sink: &mut K) -> Finish
    ensures { IsGivenUp sink.old sink.new result
        ⊎ Meets (sink_seen K.Sink sink.old) (sink_seen K.Sink sink.new) result
        (compile_due (Ok (sync_text blocks.now))) }
{
    match code_text(alloc, blocks) {
        Ok(text) => finish_with(sink, 0, text.as_slice()),
        Err(NoMemory) => out_of_memory(),
    }
}

/// The canonical text of the code.
fn code_text(alloc: Global, blocks: &SyncProgram) -> Result<Vec<u8>, NoMemory>
    ensures { IfOk result (λ text. text.items ≡ canonical (compiled decimal (sync_text blocks.now))) }
{
    let code = compile(alloc, blocks)?;
    let mut text = Vec::new(alloc);
    write_program(&code, &mut text)?;
    Ok(text)
}
