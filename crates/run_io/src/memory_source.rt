//! A source in memory, for tests.

ghost use Rattle.std.specs.Prelude.{◌≡◌, ◌<◌, ◌≤◌, length, Some, is_err, IfOk, OnErr};
ghost use Rattle.run_io.specs.Source.{IsAtEnd};
ghost use Rattle.run_io.specs.Supply.{new_supply, read_fails, read_count, read_failed, read_gave, filled};

use super::counts::{copy_front, counted, is_among};
use super::failed::Failed;
use super::source::Source;
use std::marker::Model;

/// A source that gives bytes of its own, a few at a time, and fails where it was told to.
///
/// Contracts see the bytes that are left, its counts, the calls that fail and the most that a read gives.
#[derive(Drop)]
pub struct MemorySource {
    bytes: Vec<u8>,
    start: usize,
    faults: u64,
    calls: u64,
    fails: Vec<u32>,
    cut: u32,
}

impl Model for MemorySource {
    ghost use Rattle.run_io.specs.Supply.{Supply};

    ghost Value = { Supply };

    ghost use Rattle.run_io.specs.SupplyView.{supply_of, IsSupply};

    ghost view = { supply_of };

    ghost invariant = { IsSupply };
}

impl MemorySource {
    /// A source that has these bytes left. A read gives at most `cut` of them, and those reads fail whose numbers,
    /// from 1, stand in `fails`.
    pub fn new(bytes: Vec<u8>, fails: Vec<u32>, cut: u32) -> MemorySource
        requires { 0 < cut }
        ensures { result ≡ new_supply bytes.items fails.items cut }
    {
        MemorySource {
            bytes,
            start: 0,
            faults: 0,
            calls: 0,
            fails,
            cut,
        }
    }
}

impl Source for MemorySource {
    ghost left = { λ s. Some s.left };

    ghost faults = { λ s. s.faults };

    /// Fails at the listed calls, and at no other. Each call counts, and each that fails is a fault.
    fn read(&mut self, into: &mut [u8]) -> Result<usize, Failed>
        ensures counted { self.old.faults ≤ self.new.faults }
        ensures bound { IfOk result (λ n. n ≤ length into.new) }
        ensures ended { IfOk result (λ n. n ≡ 0 → 0 < length into.new → IsAtEnd (Some self.old.left)) }
        ensures fails { is_err result ≡ read_fails self.old }
        ensures fault { OnErr result (self.new ≡ read_failed self.old) }
        ensures count { IfOk result (λ n. n ≡ read_count self.old (length into.old)) }
        ensures filled { IfOk result (λ n. into.new ≡ filled self.old into.old n) }
        ensures gave { IfOk result (λ n. self.new ≡ read_gave self.old n) }
    {
        self.calls = counted(self.calls);
        if is_among(&self.fails, self.calls) {
            self.faults = counted(self.faults);
            return Err(Failed);
        }
        let count = copy_front(&self.bytes[self.start..], into, self.cut);
        self.start += count;
        Ok(count)
    }
}
