//! Laws of the policy and of the draws, which hold of all numbers.

ghost use Rattle.std.specs.Prelude.{◌≡◌, ◌≢◌, ◌↔◌, ℕ, ◌+◌, ◌-◌, ◌^◌, ◌<◌, ◌≤◌, IsTrue};
ghost use Rattle.lock_policy.specs.declared.policy.Verdict.{Verdict};
ghost use Rattle.lock_policy.specs.Policy.{after_reset, decay_time, decided, is_reset, most_revocations, rebias_threshold, revoke_threshold};
ghost use Rattle.lock_policy.specs.Draws.{next_state, nth_value, start_state, state_after, value_of};

/// A count is reset exactly where it is from 20 to 39, there was a bulk operation, that operation is not later than now, and
/// it is 25 seconds or more ago. The verdict is then `Single` and the new count 1. Any other count is not reset.
pub fn count_is_reset_under_four_conditions()
    ensures exactly { (count last now : ℕ) → IsTrue (is_reset count last now)
        ↔ ((rebias_threshold ≤ count) × (count < revoke_threshold) × (last ≢ 0) × (last ≤ now)
        × (decay_time ≤ now - last)) }
    ensures anew { (count last now : ℕ) → IsTrue (is_reset count last now)
        → decided count last now ≡ (Verdict.Single, 1) }
    ensures kept { (count last now : ℕ) → ¬ IsTrue (is_reset count last now) → after_reset count last now ≡ count }
{}

/// A class is revoked in bulk exactly where its count after the reset is 39, and rebiased in bulk exactly where it is 19. At
/// each other count one object's bias is revoked.
pub fn verdict_follows_from_count()
    ensures revoke { (count last now : ℕ) → ((decided count last now).0 ≡ Verdict.BulkRevoke)
        ↔ (after_reset count last now + 1 ≡ revoke_threshold) }
    ensures rebias { (count last now : ℕ) → ((decided count last now).0 ≡ Verdict.BulkRebias)
        ↔ (after_reset count last now + 1 ≡ rebias_threshold) }
    ensures single { (count last now : ℕ) → ((decided count last now).0 ≡ Verdict.Single)
        ↔ ((after_reset count last now + 1 ≢ revoke_threshold)
        × (after_reset count last now + 1 ≢ rebias_threshold)) }
{}

/// A new count is above 0, and at most 41 where the old one is.
pub fn counts_stay_in_range()
    ensures above_zero { (count last now : ℕ) → 0 < (decided count last now).1 }
    ensures at_most { (count last now : ℕ) → count ≤ most_revocations
        → (decided count last now).1 ≤ most_revocations }
{}

/// Each draw from each start is from 1 to 2^31 - 1.
pub fn draws_stay_in_range()
    ensures above_zero { (first n : ℕ) → 0 < nth_value first n }
    ensures within { (first n : ℕ) → nth_value first n < 2 ^ 31 }
{}

/// The draws from a start are those that the generator makes one after another from there.
pub fn draws_follow_one_another()
    ensures start { (first : ℕ) → state_after first 0 ≡ start_state first }
    ensures step { (first n : ℕ) → state_after first (n + 1) ≡ next_state (state_after first n) }
    ensures value { (first n : ℕ) → nth_value first (n + 1) ≡ value_of (next_state (state_after first n)) }
{}
