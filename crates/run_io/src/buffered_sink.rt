//! A sink that gathers small writes into large ones.

ghost use Rattle.std.specs.Prelude.{◌≡◌, ◌+◌, ◌<◌, ◌≤◌, [], ◌++◌, None, Ok, length, take, IsTrue, IfOk, IsOk, OnOk, OnErr};
ghost use Rattle.std.specs.Io.KnownBytes.{append_known};
ghost use Rattle.run_io.specs.Faults.{rose};
ghost use Rattle.run_io.specs.Sink.{Appends};
ghost use Rattle.run_io.specs.Buffered.{new_buffered};

use super::counts::{append, remove_front};
use super::failed::Failed;
use super::sink::Sink;
use plain_monitor::NoMemory;
use std::alloc::Global;
use std::marker::Model;

/// A sink that passes on what it takes to the sink behind it, many writes in one.
///
/// It holds what the sink behind holds, and after that the bytes that are pending, where the sink behind tells what it
/// holds. Its faults are those of the sink behind. What is pending when it is dropped is lost: `flush` goes first.
///
/// Contracts see the sink behind, as `inner`, the bytes that are pending, and for how many there is room.
#[derive(Drop)]
pub struct BufferedSink<K> {
    sink: K,
    bytes: Vec<u8>,
    room: usize,
}

impl<K> Model for BufferedSink<K> {
    ghost use Rattle.run_io.specs.Buffered.{Buffered};

    ghost Value = { Buffered K };

    ghost use Rattle.run_io.specs.BufferedView.{buffered_of, IsBuffered};

    ghost view = { buffered_of };

    ghost invariant = { IsBuffered };
}

impl<K: Sink> BufferedSink<K> {
    /// A sink before this one, with nothing pending and room for so many bytes.
    ///
    /// All memory is taken here, and writes take none.
    ///
    /// # Errors
    ///
    /// `NoMemory` where an allocation fails. Then the sink is dropped.
    pub fn new(alloc: Global, sink: K, room: usize) -> Result<BufferedSink<K>, NoMemory>
    where
        K: Drop,
        requires { 0 < room }
        ensures { IfOk result (λ s. s ≡ new_buffered sink room) }
    {
        let bytes = Vec::with_capacity(alloc, room).map_err(|_| NoMemory)?;
        Ok(BufferedSink { sink, bytes, room })
    }

    /// Writes what is pending to the sink behind, and after that nothing is pending. Where nothing was, nothing is done.
    ///
    /// `Failed` comes only where the count of faults rose. Then what the sink behind took is pending no more, and the
    /// rest still is, so that nothing was lost.
    pub fn flush(&mut self) -> Result<(), Failed>
        ensures counted { K.faults self.old.inner ≤ K.faults self.new.inner }
        ensures failed { OnErr result (IsTrue (rose (K.faults self.old.inner) (K.faults self.new.inner))) }
        ensures held { append_known (K.held self.new.inner) self.new.pending
            ≡ append_known (K.held self.old.inner) self.old.pending }
        ensures passed { OnOk result (self.new.pending ≡ []) }
        ensures idle { self.old.pending ≡ [] → IsOk result }
        ensures same { self.old.pending ≡ [] → self.new ≡ self.old }
        ensures room { self.new.room ≡ self.old.room }
    {
        let (count, passed) = pass_on(self.bytes.as_slice(), &mut self.sink);
        remove_front(&mut self.bytes, count);
        passed
    }

    /// The sink behind. What is pending is lost.
    pub fn into_inner(self) -> K
        ensures { result ≡ self.inner }
    {
        self.sink
    }
}

impl<K: Sink> Sink for BufferedSink<K> {
    ghost held = { λ s. append_known (K.held s.inner) s.pending };

    ghost faults = { λ s. K.faults s.inner };

    /// Takes what there is room for. A piece that there is no room for goes after a `flush`, so it stands whole in
    /// one write of the sink behind, unless it is longer than all of the room. `Failed` is that of the `flush`.
    ///
    /// The sink behind gets nothing while the pieces fit.
    fn write(&mut self, piece: &[u8]) -> Result<usize, Failed>
        ensures counted { K.faults self.old.inner ≤ K.faults self.new.inner }
        ensures failed { OnErr result (IsTrue (rose (K.faults self.old.inner) (K.faults self.new.inner))) }
        ensures kept { OnErr result (append_known (K.held self.new.inner) self.new.pending
            ≡ append_known (K.held self.old.inner) self.old.pending) }
        ensures bound { IfOk result (λ n. n ≤ length piece.now) }
        ensures moved { IfOk result (λ n. 0 < length piece.now → 0 < n) }
        ensures appended { IfOk result (Appends (append_known (K.held self.old.inner) self.old.pending)
            (append_known (K.held self.new.inner) self.new.pending) piece.now) }
        ensures silent { append_known (K.held self.old.inner) self.old.pending ≡ None
            → append_known (K.held self.new.inner) self.new.pending ≡ None }
        ensures taken { length self.old.pending + length piece.now ≤ self.old.room → result ≡ Ok (length piece.now) }
        ensures gathered { length self.old.pending + length piece.now ≤ self.old.room →
            self.new ≡ record { inner = self.old.inner; pending = self.old.pending ++ piece.now; room = self.old.room } }
    {
        if piece.len() > self.room - self.bytes.len() {
            self.flush()?;
        }
        let count = piece.len().min(self.room - self.bytes.len());
        append(&mut self.bytes, &piece[..count]);
        Ok(count)
    }
}

/// Writes the bytes until all are written or a write fails, and answers how many were, and whether a write failed.
fn pass_on<K: Sink>(bytes: &[u8], to: &mut K) -> (usize, Result<(), Failed>)
    ensures counted { K.faults to.old ≤ K.faults to.new }
    ensures failed { OnErr result.1 (IsTrue (rose (K.faults to.old) (K.faults to.new))) }
    ensures bound { result.0 ≤ length bytes.now }
    ensures all { OnOk result.1 (result.0 ≡ length bytes.now) }
    ensures idle { bytes.now ≡ [] → IsOk result.1 }
    ensures same { bytes.now ≡ [] → to.new ≡ to.old }
    ensures appended { Appends (K.held to.old) (K.held to.new) bytes.now result.0 }
    ensures silent { K.held to.old ≡ None → K.held to.new ≡ None }
{
    let mut count = 0;
    while count < bytes.len() {
        match to.write(&bytes[count..]) {
            Ok(more) => count += more,
            Err(failed) => return (count, Err(failed)),
        }
    }
    (count, Ok(()))
}
