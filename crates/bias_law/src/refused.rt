//! Laws of wrong counts and of wrong steps: a verdict, a bulk operation or a reset that is counted wrongly, and an Enter by a bias that has
//! ended, that its thread never took, or that was taken too often. None leads to a world that meets the law of biases. The functions do
//! nothing.

ghost use Rattle.std.specs.Prelude.{◌≡◌, ℕ, ◌<◌, ◌≤◌, true, false, List};
ghost use Rattle.std.specs.List.{list_any};
ghost use Rattle.lock_policy.specs.declared.policy.Verdict.{Verdict};
ghost use Rattle.lock_policy.specs.Policy.{decided, is_reset, rebias_threshold, revoke_threshold, most_revocations};
ghost use Rattle.plain_monitor.specs.declared.entry.Entry.TheVariants.{Enter};
ghost use Rattle.plain_monitor.specs.declared.entry.Path.{Path};
ghost use Rattle.plain_monitor.specs.declared.entry.Path.TheVariants.{BiasOwn, BiasTaken};
ghost use Rattle.plain_monitor.specs.Objects.{PlainObject};
ghost use Rattle.plain_monitor.specs.Order.{order};
ghost use Rattle.plain_history.specs.EnterPaths.{entries_on, ends_bias, is_by_bias};
ghost use Rattle.core_world.specs.declared.act.Act.TheVariants.{Load};
ghost use Rattle.core_world.specs.declared.word_id.WordId.TheVariants.{Revocations, LastBulk, Stamp};
ghost use Rattle.core_world.specs.Threads.Counts.{CountedVerdict, counts_of, with_verdict_counted};
ghost use Rattle.core_world.specs.Trees.Plans.{CallContext, logging_plan};
ghost use Rattle.core_world.specs.Steps.{world_after};
ghost use Rattle.core_world.specs.Valid.{Fits};
ghost use Rattle.core_world.specs.Words.Names.{class_by};
ghost use Rattle.core_world.specs.World.{World, with_word_and_known, logs};
ghost use Rattle.core_locks.specs.JournalLaws.{MayLogEnter};
ghost use Rattle.core_law.specs.BiasLaw.{BiasLawHolds, summed};
ghost use Rattle.core_law.specs.TakenBiases.{has_taken, times_taken};
ghost use Rattle.bias_law.specs.Miscounts.{NothingReset, with_counts, with_counts_of};

/// A verdict that is counted twice, or never, where nothing of its class was reset and the class's count is below 41, at which it stays. Of
/// two worlds that differ only in the verdict that a thread counted last, at most one meets the law: not the one with a verdict more, where
/// the one without it does, and not the one without it, where the one with it does.
pub fn no_verdict_counted_twice_or_never()
    ensures twice { (w : World) (t c : ℕ) (verdict : Verdict) → t < w.shape.threads → NothingReset w c
        → w.words (Revocations c) < most_revocations
        → BiasLawHolds w → BiasLawHolds
        (with_counts_of t (with_verdict_counted (w.known t).counts c verdict false) w) → ⊥ }
    ensures never { (w : World) (t c : ℕ) (verdict : Verdict) (counts : List CountedVerdict)
        → t < w.shape.threads → NothingReset w c
        → w.words (Revocations c) < most_revocations → (w.known t).counts ≡ with_verdict_counted counts c verdict false
        → BiasLawHolds w → BiasLawHolds (with_counts_of t counts w) → ⊥ }
{}

/// A bulk rebias that a thread has counted on a class of which nothing was reset, while the class's count is below 20.
pub fn no_bulk_rebias_at_a_count_below_20()
    ensures { (w : World) (t c : ℕ) → t < w.shape.threads → NothingReset w c
        → w.words (Revocations c) < rebias_threshold
        → 1 ≤ (counts_of (w.known t).counts c).rebias → BiasLawHolds w → ⊥ }
{}

/// A count of 20 or more, of a class on which no thread has counted a bulk rebias, whatever was reset.
pub fn no_count_of_20_without_a_bulk_rebias()
    ensures { (w : World) (c : ℕ) → rebias_threshold ≤ w.words (Revocations c)
        → ((t : ℕ) → t < w.shape.threads → (counts_of (w.known t).counts c).rebias ≡ 0) → BiasLawHolds w → ⊥ }
{}

/// A bulk revoke that a thread has counted on a class whose count is below 40, whatever was reset: a count of 40 never falls.
pub fn no_bulk_revoke_at_a_count_below_40()
    ensures { (w : World) (t c : ℕ) → t < w.shape.threads → w.words (Revocations c) < revoke_threshold
        → 1 ≤ (counts_of (w.known t).counts c).revoke → BiasLawHolds w → ⊥ }
{}

/// A count of 40 or more, of a class on which no thread has counted a bulk revoke, whatever was reset.
pub fn no_count_of_40_without_a_bulk_revoke()
    ensures { (w : World) (c : ℕ) → revoke_threshold ≤ w.words (Revocations c)
        → ((t : ℕ) → t < w.shape.threads → (counts_of (w.known t).counts c).revoke ≡ 0) → BiasLawHolds w → ⊥ }
{}

/// A reset that is not counted, of a class of which nothing was reset before: the policy sets the count to 0 and decides, the count is the
/// one that it decides on, and a thread has counted the verdict, but no reset.
pub fn no_reset_that_is_not_counted()
    ensures { (w : World) (t c now : ℕ) → t < w.shape.threads → NothingReset w c
        → is_reset (w.words (Revocations c)) (w.words (LastBulk c)) now ≡ true → BiasLawHolds w
        → BiasLawHolds
        (with_word_and_known (Revocations c)
        (decided (w.words (Revocations c)) (w.words (LastBulk c)) now).1 t
        (with_counts
        (with_verdict_counted (w.known t).counts c
        (decided (w.words (Revocations c)) (w.words (LastBulk c)) now).0 false)
        (w.known t)) w) → ⊥ }
{}

/// A load of a stamp that logs an Enter by a bias, taken or own, of an object whose bias has ended by the logs: they have a Wait, a Notify
/// or a NotifyAll of it, or an Enter of it by a path that is no bias path. It is refused from every world of which the other clauses hold.
pub fn no_enter_by_a_bias_that_has_ended()
    ensures { (w : World) (objects : List PlainObject) (t : ℕ) (e : CallContext) (o p : ℕ) (path : Path)
        → t < w.shape.threads
        → MayLogEnter w.shape (w.known t) o p path → Fits w objects → is_by_bias path ≡ true
        → list_any ends_bias (entries_on o (order (logs w))) ≡ true
        → BiasLawHolds (world_after (logging_plan (Enter o path) e (Stamp o) Load) t w) → ⊥ }
{}

/// A load of a stamp that logs an Enter by a bias of the thread's own, of an object of which the thread has logged no Enter with which
/// it took the bias. It is refused from every world of which the other clauses hold.
pub fn no_enter_by_an_own_bias_that_was_not_taken()
    ensures { (w : World) (objects : List PlainObject) (t : ℕ) (e : CallContext) (o p : ℕ)
        → t < w.shape.threads
        → MayLogEnter w.shape (w.known t) o p BiasOwn → Fits w objects → has_taken o (w.known t).log ≡ false
        → BiasLawHolds (world_after (logging_plan (Enter o BiasOwn) e (Stamp o) Load) t w) → ⊥ }
{}

/// A load of a stamp that logs an Enter with which its thread takes the bias of an object, where that was taken already once more than its
/// class was rebiased in bulk. It is refused from every world of which the other clauses hold.
pub fn no_bias_taken_more_often_than_rebiases_allow()
    ensures { (w : World) (objects : List PlainObject) (t : ℕ) (e : CallContext) (o p : ℕ)
        → t < w.shape.threads
        → MayLogEnter w.shape (w.known t) o p BiasTaken → Fits w objects
        → (summed w.shape.threads (λ u. counts_of (w.known u).counts) (class_by w.shape w.words o)).rebias
        < times_taken o (entries_on o (order (logs w)))
        → BiasLawHolds (world_after (logging_plan (Enter o BiasTaken) e (Stamp o) Load) t w) → ⊥ }
{}
