//! Making a program: its text, of the number of its items alone.

ghost use Rattle.std.specs.Prelude.{◌≡◌, ◌⊎◌, ◌≤◌, IfOk};
ghost use Rattle.handover_program.specs.HandoverText.{handover_text};
ghost use Rattle.bias_cli.specs.Seen.{sink_seen};
ghost use Rattle.bias_cli.specs.Finish.{Meets, program_made, IsGivenUp};

use crate::finish::{Finish, finish_with, out_of_memory};
use handover_program::handover;
use plain_monitor::NoMemory;
use program_syntax::write_program;
use run_io::Sink;
use std::alloc::Global;

/// Makes the handover program for this many items, and writes its text. It reads nothing.
pub(crate) fn make_program<K: Sink>(alloc: Global, items: u32, sink: &mut K) -> Finish
    requires some { 1 ≤ items }
    requires few { items ≤ 1500 }
    ensures { IsGivenUp sink.old sink.new result
        ⊎ Meets (sink_seen K.Sink sink.old) (sink_seen K.Sink sink.new) result (program_made items) }
{
    match text_made(alloc, items) {
        Ok(text) => finish_with(sink, 0, text.as_slice()),
        Err(NoMemory) => out_of_memory(),
    }
}

/// The text of the handover program for this many items.
fn text_made(alloc: Global, items: u32) -> Result<Vec<u8>, NoMemory>
    requires some { 1 ≤ items }
    requires few { items ≤ 1500 }
    ensures { IfOk result (λ text. text.items ≡ handover_text items) }
{
    let program = handover(alloc, items)?;
    let mut text = Vec::new(alloc);
    write_program(&program, &mut text)?;
    Ok(text)
}
