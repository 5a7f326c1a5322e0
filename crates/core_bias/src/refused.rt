//! Laws of steps that no other law allows: of a revocation that leaves something undone or does it twice, and of a bias that is taken by a
//! store. Each leads to a world that is not valid, whatever plain objects one takes. The functions do nothing.

ghost use Rattle.std.specs.Prelude.{◌≡◌, ◌≢◌, ℕ, ◌<◌, ◌≤◌, Bool, true, false, List, [], slice_index, Some, None};
ghost use Rattle.mark_word.specs.declared.mark.MarkForm.TheVariants.{Biased, Locked};
ghost use Rattle.mark_word.specs.Mark.{mark_of, read_mark};
ghost use Rattle.plain_monitor.specs.Objects.{PlainObject};
ghost use Rattle.core_world.specs.declared.word_id.WordId.{WordId};
ghost use Rattle.core_world.specs.declared.word_id.WordId.TheVariants.{Revocations, Displaced, Mark};
ghost use Rattle.core_world.specs.declared.plan.LocalEffect.{LocalEffect};
ghost use Rattle.core_world.specs.declared.stage.Stage.TheVariants.{BiasAcquired};
ghost use Rattle.core_world.specs.Words.Forms.{epoch_in, hold_word, is_neutral};
ghost use Rattle.core_world.specs.Threads.ThreadView.{ThreadView};
ghost use Rattle.core_world.specs.Locks.{hold_count, owner_at, prototype_of};
ghost use Rattle.core_world.specs.Trees.Plans.{CallContext, with_stage, store};
ghost use Rattle.core_world.specs.RevocationRules.{writes_in};
ghost use Rattle.core_world.specs.Threads.Stages.{Revocation};
ghost use Rattle.core_world.specs.Steps.{world_after};
ghost use Rattle.core_world.specs.Valid.{Fits, Valid};
ghost use Rattle.core_world.specs.World.{World};
ghost use Rattle.core_bias.specs.Revoking.{IsReleasing, revoked_world};
ghost use Rattle.core_world.specs.Trees.RevocationSteps.{revoke_plan};
ghost use Rattle.core_world.specs.Trees.SafepointSteps.{release_plan};
ghost use Rattle.core_world.specs.Trees.BiasSteps.{stage_after};

/// A thread that releases its safepoint with a neutral mark of an object for which some thread, itself or another, has a hold word: a
/// revocation has left a held object neutral.
pub fn no_release_with_a_held_object_neutral()
    ensures { (w : World) (r t o : ℕ) (e : CallContext) (b : Revocation) (took : Bool) → IsReleasing w r
        → is_neutral (w.words (Mark o)) ≡ true
        → 1 ≤ hold_count o (w.known t).holds
        → Valid (world_after (release_plan e (stage_after took b.object) r) r w) → ⊥ }
{}

/// A thread that releases its safepoint with a mark that names a record, where the displaced word of another record of the object, above
/// depth 1, isn't 0.
pub fn no_release_with_a_header_above_depth_one()
    ensures { (w : World) (r t o p q d : ℕ) (e : CallContext) (b : Revocation) (took : Bool) → IsReleasing w r
        → t < 32 → p < 64
        → w.words (Mark o) ≡ mark_of (Locked t p) → slice_index (w.known t).holds q ≡ hold_word o d → 2 ≤ d → d ≤ 64
        → w.words (Displaced t q) ≢ 0 → Valid (world_after (release_plan e (stage_after took b.object) r) r w) → ⊥ }
{}

/// A thread that releases its safepoint with a mark that is biased to a thread in another epoch than its class's, where that thread has a
/// hold word for the object: a bulk rebias has left a held object's epoch old.
pub fn no_release_with_a_held_object_of_an_old_epoch()
    ensures { (w : World) (r t o epoch age now : ℕ) (e : CallContext) (b : Revocation) (took : Bool) → IsReleasing w r
        → read_mark (w.words (Mark o)) ≡ Some (Biased t epoch age)
        → epoch_in (prototype_of w o) ≡ Some now
        → now ≢ epoch → 1 ≤ hold_count o (w.known t).holds
        → Valid (world_after (release_plan e (stage_after took b.object) r) r w) → ⊥ }
{}

/// A thread that releases its safepoint with a mark that is biased to a thread, of a class whose prototype has no epoch, where that thread
/// has a hold word for the object: a bulk revoke has skipped its records.
pub fn no_release_with_a_held_object_of_a_revoked_class()
    ensures { (w : World) (r t o epoch age : ℕ) (e : CallContext) (b : Revocation) (took : Bool) → IsReleasing w r
        → read_mark (w.words (Mark o)) ≡ Some (Biased t epoch age)
        → epoch_in (prototype_of w o) ≡ None
        → 1 ≤ hold_count o (w.known t).holds
        → Valid (world_after (release_plan e (stage_after took b.object) r) r w) → ⊥ }
{}

/// A running thread that stores a bias to itself, and doesn't exchange the mark for it, where another thread is the plain owner meanwhile.
pub fn no_bias_taken_by_a_store()
    ensures { (w : World) (t u o epoch : ℕ) (e : CallContext) (v : Valid w) → (w.known t).running ≡ true → u ≢ t
        → owner_at v.objects o u ≡ true
        → epoch < 4 → Valid
        (world_after (with_stage (BiasAcquired o) (store e (Mark o) (mark_of (Biased t epoch 0)))) t w) → ⊥ }
{}

/// A store of a revocation while another thread runs, as one would whose records are being rewritten.
pub fn no_store_of_a_revocation_while_a_thread_runs()
    ensures { (w : World) (r u : ℕ) (e : CallContext) (b : Revocation) (own : LocalEffect) (at : WordId) (word : ℕ)
        → (w.known u).running ≡ true → u ≢ r
        → Valid (world_after (revoke_plan e b own at word) r w) → ⊥ }
{}

/// A store of a class's count by a thread that has stored something at its safepoint already: a revocation counts once.
pub fn no_second_count()
    ensures { (w : World) (r c : ℕ) (e : CallContext) (b : Revocation) (own : LocalEffect) (word : ℕ)
        → writes_in (w.known r).seen_at_safepoint ≢ []
        → Valid (world_after (revoke_plan e b own (Revocations c) word) r w) → ⊥ }
{}

/// A revocation as a whole without biasing: it counts, and nothing is counted there.
pub fn no_revocation_without_biasing()
    ensures { (w : World) (objects : List PlainObject) (r : ℕ) (b : Revocation) (l : ThreadView)
        → w.biasing ≡ false → Fits w objects
        → Fits (revoked_world w r b l) objects → ⊥ }
{}
