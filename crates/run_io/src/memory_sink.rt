//! A sink in memory, for tests.

ghost use Rattle.std.specs.Prelude.{◌≡◌, ◌<◌, ◌≤◌, length, Some, is_err, IsOk, IfOk, OnErr};
ghost use Rattle.run_io.specs.Store.{new_store, write_fails, write_count, write_failed, write_took};

use super::counts::{append, counted, is_among};
use super::failed::Failed;
use super::sink::Sink;
use plain_monitor::NoMemory;
use std::alloc::Global;
use std::marker::Model;

/// A sink that holds bytes up to its room, takes a few at a time, and fails where it was told to.
///
/// Contracts see the bytes that it holds, its room, its counts, the calls that fail and the most that a write takes.
#[derive(Drop)]
pub struct MemorySink {
    bytes: Vec<u8>,
    room: usize,
    faults: u64,
    calls: u64,
    fails: Vec<u32>,
    cut: u32,
}

impl Model for MemorySink {
    ghost use Rattle.run_io.specs.Store.{Store};

    ghost Value = { Store };

    ghost use Rattle.run_io.specs.StoreView.{store_of, IsStore};

    ghost view = { store_of };

    ghost invariant = { IsStore };
}

impl MemorySink {
    /// A sink that holds nothing, with room for so many bytes. A write takes at most `cut` of them, and those writes
    /// fail whose numbers, from 1, stand in `fails`, and those of some bytes where no room is left.
    ///
    /// All memory is taken here, and writes take none. The error says that there is none, and leaves nothing. It
    /// can't come where no room is asked for.
    ///
    /// # Errors
    ///
    /// `NoMemory` where an allocation fails.
    pub fn new(
        alloc: Global,
        room: usize,
        fails: Vec<u32>,
        cut: u32,
    ) -> Result<MemorySink, NoMemory>
        requires { 0 < cut }
        ensures made { IfOk result (λ s. s ≡ new_store room fails.items cut) }
        ensures roomless { room ≡ 0 → IsOk result }
    {
        let bytes = Vec::with_capacity(alloc, room).map_err(|_| NoMemory)?;
        Ok(MemorySink {
            bytes,
            room,
            faults: 0,
            calls: 0,
            fails,
            cut,
        })
    }

    /// The bytes that it holds, in the order in which they were written.
    pub fn held(&self) -> &[u8]
        ensures { result.now ≡ self.now.held }
    {
        self.bytes.as_slice()
    }
}

impl Sink for MemorySink {
    ghost held = { λ s. Some s.held };

    ghost faults = { λ s. s.faults };

    /// Fails at the listed calls, and where there is a byte to write and no room, and at no other call. Each call
    /// counts, and each that fails is a fault.
    fn write(&mut self, piece: &[u8]) -> Result<usize, Failed>
        ensures counted { self.old.faults ≤ self.new.faults }
        ensures bound { IfOk result (λ n. n ≤ length piece.now) }
        ensures moved { IfOk result (λ n. 0 < length piece.now → 0 < n) }
        ensures fails { is_err result ≡ write_fails self.old (length piece.now) }
        ensures fault { OnErr result (self.new ≡ write_failed self.old) }
        ensures count { IfOk result (λ n. n ≡ write_count self.old (length piece.now)) }
        ensures took { IfOk result (λ n. self.new ≡ write_took self.old piece.now n) }
    {
        self.calls = counted(self.calls);
        let free = self.room - self.bytes.len();
        if is_among(&self.fails, self.calls) || (!piece.is_empty() && free == 0) {
            self.faults = counted(self.faults);
            return Err(Failed);
        }
        let count = piece.len().min(self.cut as usize).min(free);
        append(&mut self.bytes, &piece[..count]);
        Ok(count)
    }
}
