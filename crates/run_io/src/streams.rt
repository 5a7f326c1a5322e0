//! Sources and sinks over any reader and writer, as standard input and output.

ghost use Rattle.std.specs.Prelude.{◌≡◌, ◌<◌, ◌≤◌, length, if◌then◌else◌, None, is_ok, IfOk};
ghost use Rattle.std.specs.Io.KnownBytes.{ReadConsumes, WriteAppends};
ghost use Rattle.run_io.specs.Faults.{count_on};
ghost use Rattle.run_io.specs.Stream.{new_stream};

use super::counts::counted;
use super::failed::Failed;
use super::sink::Sink;
use super::source::Source;
use std::io::{Read, Write};
use std::marker::Model;

/// The source that a reader is. It takes no memory, and tells nothing of what is left.
///
/// Contracts see the reader, as `inner`, and the count of faults.
#[derive(Drop)]
pub struct ReadSource<R> {
    reader: R,
    faults: u64,
}

impl<R> Model for ReadSource<R> {
    ghost use Rattle.run_io.specs.Stream.{Stream};

    ghost Value = { Stream R };

    ghost view = { λ s. record { inner = s.reader; faults = s.faults } };
}

impl<R: Read> ReadSource<R> {
    /// A source over the reader, with no faults.
    pub fn new(reader: R) -> ReadSource<R>
        ensures { result ≡ new_stream reader }
    {
        ReadSource { reader, faults: 0 }
    }
}

impl<R: Read> Source for ReadSource<R> {
    ghost left = { λ _. None };

    ghost faults = { λ s. s.faults };

    /// One read of the reader. Each error of the reader is a fault, an interrupted read too, and there are no others.
    fn read(&mut self, into: &mut [u8]) -> Result<usize, Failed>
        ensures counted { self.old.faults ≤ self.new.faults }
        ensures bound { IfOk result (λ n. n ≤ length into.new) }
        ensures faults { self.new.faults ≡ (if is_ok result then self.old.faults else count_on self.old.faults) }
        ensures passed { ReadConsumes (R.remaining self.old.inner) (R.remaining self.new.inner) result into.new }
    {
        match self.reader.read(into) {
            Ok(count) => Ok(count),
            Err(_) => {
                self.faults = counted(self.faults);
                Err(Failed)
            }
        }
    }
}

/// The sink that a writer is. It takes no memory, and tells nothing of what it holds.
///
/// Contracts see the writer, as `inner`, and the count of faults.
#[derive(Drop)]
pub struct WriteSink<W> {
    writer: W,
    faults: u64,
}

impl<W> Model for WriteSink<W> {
    ghost use Rattle.run_io.specs.Stream.{Stream};

    ghost Value = { Stream W };

    ghost view = { λ s. record { inner = s.writer; faults = s.faults } };
}

impl<W: Write> WriteSink<W> {
    /// A sink over the writer, with no faults.
    pub fn new(writer: W) -> WriteSink<W>
        ensures { result ≡ new_stream writer }
    {
        WriteSink { writer, faults: 0 }
    }
}

impl<W: Write> Sink for WriteSink<W> {
    ghost held = { λ _. None };

    ghost faults = { λ s. s.faults };

    /// One write of the writer. Each error of the writer is a fault, an interrupted write too, and so is a write that
    /// takes nothing of some bytes.
    fn write(&mut self, piece: &[u8]) -> Result<usize, Failed>
        ensures counted { self.old.faults ≤ self.new.faults }
        ensures bound { IfOk result (λ n. n ≤ length piece.now) }
        ensures moved { IfOk result (λ n. 0 < length piece.now → 0 < n) }
        ensures faults { self.new.faults ≡ (if is_ok result then self.old.faults else count_on self.old.faults) }
        ensures passed { WriteAppends (W.contents self.old.inner) (W.contents self.new.inner) result piece.now }
    {
        match self.writer.write(piece) {
            Ok(count) if count > 0 || piece.is_empty() => Ok(count),
            _ => {
                self.faults = counted(self.faults);
                Err(Failed)
            }
        }
    }
}
