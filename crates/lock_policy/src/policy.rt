// When the objects of a class are rebiased or revoked in bulk.

ghost use Rattle.std.specs.Prelude.{◌≡◌};
ghost use Rattle.lock_policy.specs.Policy.{decided, decay_time, is_reset, rebias_threshold, revoke_threshold};

// The count at which a class is rebiased in bulk, and from which a count may be reset.
const BULK_REBIAS_THRESHOLD: u64 = 20;

// The count at which a class is revoked in bulk, and above which a count no longer rises.
const BULK_REVOKE_THRESHOLD: u64 = 40;

// After so many milliseconds without a bulk operation a count is reset.
const DECAY_TIME: u64 = 25_000;

/// What is to be done about a class when a bias of one of its objects is given up.
#[derive(Clone, Copy, Debug, PartialEq, Eq)]
pub enum Verdict {
    /// The bias of that one object is revoked.
    Single,
    /// The biases of all objects of the class are made invalid at once, and the objects may be biased again.
    BulkRebias,
    /// The biases of all objects of the class are revoked, and its objects are not biased again.
    BulkRevoke,
}

/// The verdict on a class whose revocation count is `count`, and its new count, after `update_heuristics` of OpenJDK 8's
/// biasedLocking.cpp.
///
/// `last` is the moment of the class's last bulk operation, in milliseconds from 1, or 0 where there was none, and
/// `now` is the moment of this call on the same clock. A count from 20 to 39 starts again at 0 where there was a bulk
/// operation, and 25,000 or more passed from `last` to `now`. Then a count up to 40 rises by one: the verdict is
/// `BulkRebias` where it comes to 20, `BulkRevoke` where it comes to 40, else `Single`. All numbers are taken, also a
/// `now` before `last`, which resets nothing. A count above 40 stays as it is, so that no count wraps.
pub fn decide(count: u64, last: u64, now: u64) -> (Verdict, u64)
    ensures { result ≡ decided count last now }
{
    let count = if has_decayed(count, last, now) {
        0
    } else {
        count
    };
    let count = if count <= BULK_REVOKE_THRESHOLD {
        count + 1
    } else {
        count
    };
    let verdict = match count {
        BULK_REVOKE_THRESHOLD => Verdict::BulkRevoke,
        BULK_REBIAS_THRESHOLD => Verdict::BulkRebias,
        _ => Verdict::Single,
    };
    (verdict, count)
}

/// The thresholds of the code, and its time, are those of the definitions.
pub fn code_has_the_thresholds()
    ensures rebias { BULK_REBIAS_THRESHOLD ≡ rebias_threshold }
    ensures revoke { BULK_REVOKE_THRESHOLD ≡ revoke_threshold }
    ensures decay { DECAY_TIME ≡ decay_time }
{}

/// Whether that count is reset: it is from 20 to 39, there was a bulk operation, which is not later than `now`, and 25,000 or more passed
/// since.
pub fn has_decayed(count: u64, last: u64, now: u64) -> bool
    ensures { result ≡ is_reset count last now }
{
    BULK_REBIAS_THRESHOLD <= count
        && count < BULK_REVOKE_THRESHOLD
        && last != 0
        && last <= now
        && now - last >= DECAY_TIME
}
