//! The verdicts that a pass counts.
ghost use Rattle.std.specs.Prelude.{◌≡◌, ℕ, List};
ghost use Rattle.core_world.specs.Threads.Counts.{with_verdict, with_reset, CountedVerdict};
ghost use Rattle.core_world.specs.Threads.Counts as known;
ghost use Rattle.core_world.specs.Steps.{counts_after};
ghost use Rattle.heap_table.specs.Tallies.{capped_counts, counts_shown};

use core_world::LocalEffect;
use lock_policy::Verdict;

/// The verdicts that a thread carried out on a class. At its greatest number a count stays, so that counting has no condition.
#[derive(Clone, Copy, Debug, PartialEq, Eq)]
pub struct ClassCounts {
    /// Revocations of one bias.
    pub single: u64,
    /// Bulk rebiases.
    pub rebias: u64,
    /// Bulk revocations.
    pub revoke: u64,
    /// How often the class's count of revocations was set to 0 before the verdict.
    pub reset: u64,
}

/// No verdict.
pub const NO_COUNTS: ClassCounts = ClassCounts {
    single: 0,
    rebias: 0,
    revoke: 0,
    reset: 0,
};

fn with_verdict(counts: ClassCounts, verdict: Verdict) -> ClassCounts
    ensures { (k : known.ClassCounts) → counts ≡ capped_counts k → result ≡ capped_counts (with_verdict k verdict) }
{
    match verdict {
        Verdict::Single => ClassCounts {
            single: counts.single.saturating_add(1),
            ..counts
        },
        Verdict::BulkRebias => ClassCounts {
            rebias: counts.rebias.saturating_add(1),
            ..counts
        },
        Verdict::BulkRevoke => ClassCounts {
            revoke: counts.revoke.saturating_add(1),
            ..counts
        },
    }
}

fn with_reset(counts: ClassCounts, reset: bool) -> ClassCounts
    ensures { (k : known.ClassCounts) → counts ≡ capped_counts k → result ≡ capped_counts (with_reset k reset) }
{
    if reset {
        ClassCounts {
            reset: counts.reset.saturating_add(1),
            ..counts
        }
    } else {
        counts
    }
}

fn next_counts(counts: ClassCounts, verdict: Verdict, reset: bool) -> ClassCounts
    ensures { (k : known.ClassCounts) → counts ≡ capped_counts k
        → result ≡ capped_counts (with_reset (with_verdict k verdict) reset) }
{
    with_reset(with_verdict(counts, verdict), reset)
}

/// Counts the verdict that a step which hit tells, if it tells one.
#[inline(always)]
pub fn count_next(counts: &mut Vec<ClassCounts>, own: &LocalEffect)
    ensures { (n : ℕ) (k : List CountedVerdict) → counts.old.items ≡ counts_shown 0 n k
        → counts.new.items ≡ counts_shown 0 n (counts_after own.now k) }
{
    if let LocalEffect::CountVerdict {
        class,
        verdict,
        reset,
    } = *own
    {
        let at = class as usize;
        if at < counts.len() {
            counts[at] = next_counts(counts[at], verdict, reset);
        }
    }
}
