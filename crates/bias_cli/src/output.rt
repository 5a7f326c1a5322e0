//! Writing to a sink.

ghost use Rattle.std.specs.Prelude.{◌≡◌, ℕ, ◌≤◌, IsTrue, OnOk, OnErr};
ghost use Rattle.run_io.specs.Faults.{rose};
ghost use Rattle.bias_cli.specs.Output.{Wrote, WroteFront};

use run_io::{Failed, Sink};

/// Writes the whole piece: what a write leaves of it is offered again. `Failed` comes only where the sink's count of faults
/// rose, and then a front of the piece is written.
pub(crate) fn write_piece<K: Sink>(sink: &mut K, piece: &[u8]) -> Result<(), Failed>
    ensures counted { K.faults sink.old ≤ K.faults sink.new }
    ensures ok { OnOk result (Wrote (K.held sink.old) (K.held sink.new) piece.now) }
    ensures failed { OnErr result (IsTrue (rose (K.faults sink.old) (K.faults sink.new))) }
    ensures front { OnErr result (WroteFront (K.held sink.old) (K.held sink.new) piece.now) }
{
    let mut written = 0;
    while written < piece.len() {
        written += sink.write(&piece[written..])?;
    }
    Ok(())
}
