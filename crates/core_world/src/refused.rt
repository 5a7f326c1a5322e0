//! Laws of worlds that are wrong in one way each: none is valid, whatever the rest of it is. Where such a law speaks of a running
//! thread s, any thread serves. The functions do nothing.

ghost use Rattle.std.specs.Prelude.{◌≡◌, ◌≢◌, ℕ, ◌<◌, ◌≤◌, ◌^◌, Bool, true, false, List, ◌∷◌, Some, None};
ghost use Rattle.std.specs.List.{AllByRecursion};
ghost use Rattle.mark_word.specs.declared.mark.MarkForm.TheVariants.{Neutral, Biased, Locked};
ghost use Rattle.mark_word.specs.Mark.{mark_of};
ghost use Rattle.core_world.specs.declared.act.Act.TheVariants.{Load};
ghost use Rattle.core_world.specs.declared.word_id.WordId.{WordId};
ghost use Rattle.core_world.specs.declared.word_id.WordId.TheVariants.{Mark, Stamp, Hold, Displaced};
ghost use Rattle.core_world.specs.declared.stage.Stage.TheVariants.{OwnerConverted, Revokes};
ghost use Rattle.core_world.specs.Words.Names.{same_name, with_word};
ghost use Rattle.core_world.specs.Words.Forms.{names, epoch_in, is_biased, is_deeper};
ghost use Rattle.core_world.specs.Clauses.Draws.{all_draws};
ghost use Rattle.core_world.specs.Threads.ThreadView.{StepMade, last_seen};
ghost use Rattle.core_world.specs.World.{World, logs};
ghost use Rattle.core_world.specs.Locks.{has_epoch, prototype_of, monitor_of, owner_at, hash_at};
ghost use Rattle.plain_history.specs.HeldByLog.{HasLetGo};
ghost use Rattle.core_world.specs.RevocationRules.{writes_in};
ghost use Rattle.core_world.specs.Valid.{Valid};

/// Two owners: the mark says that a record of t has the lock, while the logs say that u is the owner.
pub fn no_two_owners()
    ensures { (w : World) (o t u p s : ℕ)
        (v : Valid (record w { words = with_word (Mark o) (mark_of (Locked t p)) w.words }))
        → (w.known s).running ≡ true
        → t < 32 → p < 64 → t ≢ u → owner_at v.objects o u ≡ true → ⊥ }
{}

/// A stale bias held: the class's prototype hasn't the epoch of the bias, and the thread has a hold word for the object.
pub fn no_stale_bias_held()
    ensures { (w : World) (o t e p s : ℕ) (v : Valid w) → (w.known s).running ≡ true → t < 32 → e < 4
        → w.words (Mark o) ≡ mark_of (Biased t e 0)
        → has_epoch (epoch_in (prototype_of w o)) e ≡ false → names o (w.words (Hold t p)) ≡ true → ⊥ }
{}

/// A displaced header lost: the mark says that a record has the lock, and that record has no header.
pub fn no_displaced_header_lost()
    ensures { (w : World) (o t p s : ℕ) (v : Valid w) → (w.known s).running ≡ true → t < 32 → p < 64
        → w.words (Mark o) ≡ mark_of (Locked t p)
        → w.words (Displaced t p) ≡ 0 → ⊥ }
{}

/// A hash changed: the neutral mark has another hash than the object.
pub fn no_hash_changed()
    ensures { (w : World) (o h s : ℕ)
        (v : Valid (record w { words = with_word (Mark o) (mark_of (Neutral h 0)) w.words }))
        → (w.known s).running ≡ true
        → h < 2 ^ 31 → hash_at v.objects o ≢ h → ⊥ }
{}

/// A stamp from nowhere: the object has no owner, and its stamp word is neither 0 nor the stamp of an entry that let go of it.
pub fn no_stamp_from_nowhere()
    ensures { (w : World) (o n s : ℕ) (v : Valid (record w { words = with_word (Stamp o) n w.words }))
        → (w.known s).running ≡ true
        → (monitor_of v.objects o).owner ≡ None → n ≢ 0 → ((t : ℕ) → HasLetGo (w.known t).log o n → ⊥) → ⊥ }
{}

/// A hash that no thread drew: the object has one, and no log has a draw of it.
pub fn no_hash_that_nobody_drew()
    ensures { (w : World) (o : ℕ) (v : Valid w) → 0 < hash_at v.objects o → all_draws o (logs w) ≡ 0 → ⊥ }
{}

/// A hash drawn twice: the logs have two draws for one object, or more.
pub fn no_hash_drawn_twice()
    ensures { (w : World) (o : ℕ) → Valid w → 2 ≤ all_draws o (logs w) → ⊥ }
{}

/// A hold that the recursions would miss: a thread has stored itself as the owner in place of its own record, and not the recursions
/// yet, while a record of it above depth 1 goes by the monitor.
pub fn no_hold_by_the_monitor_before_its_recursions()
    ensures { (w : World) (o t p : ℕ) → Valid w → (w.known t).stage ≡ OwnerConverted o
        → is_deeper o (w.words (Hold t p)) ≡ true
        → w.words (Displaced t p) ≡ 3 → ⊥ }
{}

/// A revocation of no bias: a thread is in the middle of it, and hasn't stored the object's mark, which has no bias pattern; or the
/// heap has no biases.
pub fn no_revocation_without_a_bias()
    ensures mark { (w : World) (o t now : ℕ) (rebias : Bool) → Valid w → (w.known t).stage ≡ Revokes o rebias now
        → AllByRecursion (λ x. same_name (Mark o) x.at ≡ false) (writes_in (w.known t).seen_at_safepoint)
        → is_biased (w.words (Mark o)) ≡ false → ⊥ }
    ensures heap { (w : World) (o t now : ℕ) (rebias : Bool) → Valid w
        → (w.known t).stage ≡ Revokes o rebias now → w.biasing ≡ false → ⊥ }
{}

/// A word changed at a safepoint: a thread whose safepoint is reached saw another word there than stands there now, or loaded two
/// different words there, one right after the other; also where it revokes a bias.
pub fn no_word_changed_at_a_safepoint()
    ensures now { (w : World) (t n : ℕ) (at : WordId) → Valid w → (w.known t).reached ≡ true
        → last_seen at (w.known t).seen_at_safepoint ≡ Some n
        → w.words at ≢ n → ⊥ }
    ensures before { (w : World) (t : ℕ) (a b : StepMade) (steps : List StepMade) → Valid w → (w.known t).reached ≡ true
        → (w.known t).seen_at_safepoint ≡ a ∷ b ∷ steps → b.plan.act ≡ Load → a.plan.at ≡ b.plan.at
        → a.found ≢ b.found → ⊥ }
{}
