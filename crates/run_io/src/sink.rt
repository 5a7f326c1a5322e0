//! Where bytes go to.

ghost use Rattle.std.specs.Prelude.{◌≡◌, ℕ, ◌<◌, ◌≤◌, List, length, IsTrue, Option, None, IfOk, OnErr};
ghost use Rattle.run_io.specs.Faults.{rose};
ghost use Rattle.run_io.specs.Sink.{Appends};

use super::failed::Failed;

/// Takes bytes, one write after the other.
///
/// `held` is what it has taken, where it tells that, and `faults` counts its faults, at most up to 2^64 - 1.
/// A sink that tells goes on telling, and one that doesn't goes on not telling.
pub trait Sink {
    ghost held: { Self → Option (List ℕ) };

    ghost faults: { Self → ℕ };

    /// Appends the first bytes of the piece to what the sink holds, and answers how many, at most the piece's
    /// length. Of a piece that isn't empty it takes at least one.
    ///
    /// `Failed` comes only where the count of faults rose, and then nothing was appended. A caller can't tell from
    /// `Failed` whether a next write fails too.
    fn write(&mut self, piece: &[u8]) -> Result<usize, Failed>
        ensures counted { faults self.old ≤ faults self.new }
        ensures failed { OnErr result (IsTrue (rose (faults self.old) (faults self.new))) }
        ensures kept { OnErr result (held self.new ≡ held self.old) }

        ensures bound { IfOk result (λ n. n ≤ length piece.now) }
        ensures moved { IfOk result (λ n. 0 < length piece.now → 0 < n) }
        ensures appended { IfOk result (Appends (held self.old) (held self.new) piece.now) }
        ensures silent { held self.old ≡ None → held self.new ≡ None };
}
