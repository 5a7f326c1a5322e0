//! What the top call answers.

ghost use Rattle.std.specs.Prelude.{◌≡◌};
ghost use Rattle.bias_cli.specs.Seen.{sink_seen};
ghost use Rattle.bias_cli.specs.Finish.{IsWritten, LeavesNothing};

use crate::output::write_piece;
use heap_table::Closed;
use lock_journal::RunRecord;
use run_io::Sink;

/// What became of a call of `biasrun`: its exit status, and where it ran a program, the record of the run and the closed heap.
///
/// | Status | Where |
/// |---|---|
/// | 0 | a program ran, and every thread came to its `end`; or a journal is legal; or a program was made, or compiled; or all its ends were found, and it came to its `end` in each |
/// | 1 | a program ran, some thread faulted or was spent, and the machine isn't stuck; or that is an end that was found; or a line of a journal is no step, or a hash is bad |
/// | 2 | the arguments are not accepted |
/// | 3 | the text has no program, its line and cause are written; or no journal, or a line of it is unreadable; or ends are asked for of a program with a `hash` |
/// | 4 | a program ran, and the machine under the record is stuck; or such an end was found |
/// | 5 | a read failed |
/// | 6 | a write failed, in place of any of the above |
/// | 7 | out of memory, before the first write; no contract says when that is |
/// | 8 | the search for all ends stopped at its limit, and found none with status 1 or 4 |
///
/// `run` and `closed` are there exactly where the arguments ask for a run, by `run` or by `sync`, no read failed, the text has such a program
/// and the status isn't 7, with status 6 too.
#[derive(Drop)]
pub struct Finish {
    pub status: u8,
    pub run: Option<RunRecord>,
    pub closed: Option<Closed>,
}

/// The status where a write failed.
pub(crate) const WRITE_FAILED: u8 = 6;

/// A call that runs nothing: it writes this text, and answers this status, or 6 where a write failed.
pub(crate) fn finish_with<K: Sink>(sink: &mut K, status: u8, text: &[u8]) -> Finish
    ensures left { LeavesNothing result }
    ensures written { IsWritten (sink_seen K.Sink sink.old) (sink_seen K.Sink sink.new)
        result.status status text.now }
{
    match write_piece(sink, text) {
        Ok(()) => status_alone(status),
        Err(_) => status_alone(WRITE_FAILED),
    }
}

/// Out of memory. Nothing is written.
pub(crate) fn out_of_memory() -> Finish
    ensures status { result.status ≡ 7 }
    ensures left { LeavesNothing result }
{
    status_alone(7)
}

/// This status alone.
fn status_alone(status: u8) -> Finish
    ensures status { result.status ≡ status }
    ensures left { LeavesNothing result }
{
    Finish {
        status,
        run: None,
        closed: None,
    }
}
