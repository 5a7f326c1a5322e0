//! The top call over a sink that gathers what it writes, and the last write after it.

ghost use Rattle.std.specs.Prelude.{◌≡◌, ◌≢◌, [], map, string_bytes};
ghost use Rattle.std.specs.Io.KnownBytes.{append_known};
ghost use Rattle.cli_args.specs.Command.{accepted};
ghost use Rattle.bias_cli.specs.Seen.{source_seen, sink_seen};
ghost use Rattle.bias_cli.specs.Finish.{most_asked, IsGivenUp, IsFinish, TakesAtMost};
ghost use Rattle.biasrun.specs.inner.CutOff.{buffered_seen, IsCutOff};

use bias_cli::Finish;
use run_io::{BufferedSink, Clock, Gate, Sink, Source};
use std::alloc::Global;
use std::sync::Wait;
use std::thread::Threads;

/// The status where a write failed.
const WRITE_FAILED: u8 = 6;

/// Does what `bias_cli::biasrun` does, and then writes what is pending to the sink behind. Where that write fails, the status is 6 in
/// place of the call's. Where a write failed before, it has the status 6 already, and no other one is tried.
pub(crate) fn biasrun_flushed<
    R: Threads + Wait + Sync,
    S: Source,
    K: Sink,
    C: Clock + Sync,
    G: Gate + Sync,
>(
    rt: &R,
    alloc: Global,
    words: &[String],
    source: &mut S,
    sink: &mut BufferedSink<K>,
    clock: &C,
    gate: &G,
) -> Finish
    requires { sink.old.pending ≡ [] }
    // Out of memory: nothing is left, and the sink is as it was, with nothing pending.
    ensures given_up { result.status ≡ 7 → IsGivenUp sink.old sink.new result }
    // No write failed: what is due was written to the sink behind, all of it.
    ensures finished { result.status ≢ 7 → result.status ≢ 6 →
        IsFinish (accepted (map (λ w. string_bytes w) words.now))
        (source_seen S.Source source.old) (source_seen S.Source source.new)
        (sink_seen K.Sink sink.old.inner) (sink_seen K.Sink sink.new.inner) result }
    ensures passed { result.status ≢ 6 → sink.new.pending ≡ [] }
    // A write failed: the sink behind has what was written but for its last bytes, which are pending.
    ensures cut_off { result.status ≡ 6 →
        IsCutOff (accepted (map (λ w. string_bytes w) words.now))
        (source_seen S.Source source.old) (source_seen S.Source source.new)
        (buffered_seen K.Sink sink.old) (buffered_seen K.Sink sink.new) result }
    ensures taken { TakesAtMost S.Source
        (most_asked (accepted (map (λ w. string_bytes w) words.now))) source.old source.new }
{
    let mut finish = bias_cli::biasrun(rt, alloc, words, source, sink, clock, gate);
    finish.status = flushed(sink, finish.status);
    finish
}

/// Writes what is pending, unless the status says that a write failed, and answers the status, or that of a failed write where it fails.
fn flushed<K: Sink>(sink: &mut BufferedSink<K>, status: u8) -> u8
    ensures held { append_known (K.held sink.new.inner) sink.new.pending
        ≡ append_known (K.held sink.old.inner) sink.old.pending }
    ensures passed { result ≢ 6 → sink.new.pending ≡ [] }
    ensures kept { result ≢ 6 → result ≡ status }
    ensures idle { sink.old.pending ≡ [] → result ≡ status }
    ensures same { sink.old.pending ≡ [] → sink.new ≡ sink.old }
{
    if status != WRITE_FAILED && sink.flush().is_err() {
        return WRITE_FAILED;
    }
    status
}
