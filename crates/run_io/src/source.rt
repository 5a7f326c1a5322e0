//! Where bytes come from.

ghost use Rattle.std.specs.Prelude.{◌≡◌, ℕ, ◌<◌, ◌≤◌, List, length, IsTrue, Option, None, IfOk, OnErr};
ghost use Rattle.run_io.specs.Faults.{rose};
ghost use Rattle.run_io.specs.Source.{Gives, IsAtEnd};

use super::failed::Failed;

/// Gives bytes, one read after the other.
///
/// `left` is what it has left to give, where it tells that, and `faults` counts its faults, at most up to 2^64 - 1.
/// A source that tells goes on telling, and one that doesn't goes on not telling.
pub trait Source {
    ghost left: { Self → Option (List ℕ) };

    ghost faults: { Self → ℕ };

    /// Reads bytes into the front of the buffer, and answers how many, at most the buffer's length. They are the
    /// first that were left, and are left no more.
    ///
    /// 0 for a buffer that has room says that nothing is left. `Failed` comes only where the count of faults rose,
    /// and then nothing was taken; what stands in the buffer is open. A caller can't tell from `Failed` whether a
    /// next read fails too.
    fn read(&mut self, into: &mut [u8]) -> Result<usize, Failed>
        ensures counted { faults self.old ≤ faults self.new }
        ensures failed { OnErr result (IsTrue (rose (faults self.old) (faults self.new))) }
        ensures kept { OnErr result (left self.new ≡ left self.old) }

        ensures bound { IfOk result (λ n. n ≤ length into.new) }
        ensures given { IfOk result (Gives (left self.old) (left self.new) into.new) }
        ensures ended { IfOk result (λ n. n ≡ 0 → 0 < length into.new → IsAtEnd (left self.old)) }
        ensures silent { left self.old ≡ None → left self.new ≡ None };
}
