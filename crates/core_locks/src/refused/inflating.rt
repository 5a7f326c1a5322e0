//! Laws of steps that would inflate a lock, and lead to no valid world. The functions do nothing.

ghost use Rattle.std.specs.Prelude.{◌≡◌, ◌≢◌, ◌⊎◌, ℕ, true, false, Some};
ghost use Rattle.mark_word.specs.declared.mark.MarkForm.TheVariants.{Locked, Neutral};
ghost use Rattle.mark_word.specs.declared.owner.OwnerForm.TheVariants.{Free, ByThread, ByRecord};
ghost use Rattle.mark_word.specs.Mark.{mark_of};
ghost use Rattle.mark_word.specs.Owner.{owner_of};
ghost use Rattle.core_world.specs.declared.word_id.WordId.TheVariants.{Mark, Displaced, Owner, Header};
ghost use Rattle.core_world.specs.declared.stage.Stage.{Stage};
ghost use Rattle.core_world.specs.declared.stage.Stage.TheVariants.{Inflates};
ghost use Rattle.core_world.specs.declared.plan.StepPlan.{StepPlan};
ghost use Rattle.core_world.specs.Words.Acts.{word_after};
ghost use Rattle.core_world.specs.Words.Forms.{is_neutral, is_biased, monitor_in};
ghost use Rattle.core_world.specs.Trees.HashSteps.{NextDraw, draw_plan};
ghost use Rattle.core_world.specs.Threads.ThreadView.{last_seen};
ghost use Rattle.core_world.specs.Locks.{Open, OnRecord, header, lock};
ghost use Rattle.core_world.specs.Trees.MonitorSteps.{name_plan, name_neutral_plan};
ghost use Rattle.core_world.specs.Trees.Plans.{CallContext};
ghost use Rattle.core_world.specs.Threads.Stages.{bears};
ghost use Rattle.core_world.specs.Steps.{world_after};
ghost use Rattle.core_world.specs.Valid.{Valid};
ghost use Rattle.core_world.specs.World.{World};
ghost use Rattle.core_locks.specs.RefusedPlans.{store_inflating_plan, store_mark_plan, spend_in_mark_plan};

/// A running thread that makes a mark name a monitor whose header isn't the object's: the displaced word, or the neutral mark.
pub fn no_inflation_without_the_header()
    ensures stored { (w : World) (o m t h : ℕ) (e : CallContext) → Valid w → (w.known t).running ≡ true
        → header w o ≡ Some h → w.words (Header m) ≢ h
        → Valid (world_after (name_plan e o m) t w) → ⊥ }
    ensures exchanged { (w : World) (o m t mark : ℕ) (e : CallContext) → Valid w → (w.known t).running ≡ true
        → w.words (Mark o) ≡ mark
        → is_neutral mark ≡ true → w.words (Header m) ≢ mark
        → Valid (world_after (name_neutral_plan e o mark m) t w) → ⊥ }
{}

/// A running thread that makes a mark name a monitor which has another owner than the object's lock: where this rests on a record, and
/// the thread isn't taking it, neither that record nor its thread; and where it is open, any owner.
pub fn no_inflation_without_the_owner()
    ensures resting { (w : World) (o m t u p : ℕ) (e : CallContext) → Valid w → (w.known t).running ≡ true
        → lock w o ≡ OnRecord u p
        → bears (w.known t).stage o ≡ false → w.words (Owner m) ≢ owner_of (ByRecord u p)
        → w.words (Owner m) ≢ owner_of (ByThread u)
        → Valid (world_after (name_plan e o m) t w) → ⊥ }
    ensures free { (w : World) (o m t : ℕ) (e : CallContext) → Valid w → (w.known t).running ≡ true → lock w o ≡ Open
        → w.words (Owner m) ≢ owner_of Free → Valid (world_after (name_plan e o m) t w) → ⊥ }
    ensures exchanged { (w : World) (o m t mark : ℕ) (e : CallContext) → Valid w → (w.known t).running ≡ true
        → w.words (Mark o) ≡ mark
        → is_neutral mark ≡ true → w.words (Owner m) ≢ owner_of Free
        → Valid (world_after (name_neutral_plan e o mark m) t w) → ⊥ }
{}

/// A running thread that stores 0 to inflate, in place of the exchange, over a mark which doesn't name the record that it goes by: one
/// without the bias pattern, and not 0.
pub fn no_inflation_by_a_store()
    ensures { (w : World) (o t u p : ℕ) (e : CallContext) → Valid w → (w.known t).running ≡ true
        → is_biased (w.words (Mark o)) ≡ false
        → w.words (Mark o) ≢ 0 → w.words (Mark o) ≢ mark_of (Locked u p)
        → Valid (world_after (store_inflating_plan e o u p) t w) → ⊥ }
{}

/// A running thread that stores any other mark over one which names a monitor: that monitor would be nobody's.
pub fn no_store_over_an_inflated_mark()
    ensures kept { (w : World) (o m t mark : ℕ) (e : CallContext) (s : Stage) → Valid w → (w.known t).running ≡ true
        → monitor_in (w.words (Mark o)) ≡ Some m → monitor_in mark ≢ Some m
        → Valid (world_after (store_mark_plan e s o mark) t w) → ⊥ }
    ensures spent { (w : World) (o m t mark : ℕ) (e : CallContext) → Valid w → (w.known t).running ≡ true
        → monitor_in (w.words (Mark o)) ≡ Some m → monitor_in mark ≢ Some m
        → Valid (world_after (spend_in_mark_plan e o mark) t w) → ⊥ }
{}

/// A running thread that stores a mark which another thread is inflating: its monitor's, or 0 to inflate it too.
pub fn no_store_over_anothers_inflation()
    ensures named { (w : World) (o m t u a b : ℕ) (e : CallContext) → (w.known t).running ≡ true → u ≢ t
        → (w.known u).stage ≡ Inflates o a b
        → Valid (world_after (name_plan e o m) t w) → ⊥ }
    ensures zero { (w : World) (o t u a b c d : ℕ) (e : CallContext) → (w.known t).running ≡ true → u ≢ t
        → (w.known u).stage ≡ Inflates o a b
        → Valid (world_after (store_inflating_plan e o c d) t w) → ⊥ }
{}

/// A thread that makes another word of a displaced word than a running thread has seen there, which inflates the lock that rests on that
/// record, or whose own record it is: by any step, in any call. So a hash that is drawn into a displaced header is refused where an
/// inflation has copied that header to a monitor, or an exit to put it back. Nothing is asked of the world before.
pub fn no_hash_in_a_displaced_word_that_is_copied()
    ensures inflated { (w : World) (o u r p t copied : ℕ) (plan : StepPlan) → u ≢ t
        → (w.known u).running ≡ true → (w.known u).stage ≡ Inflates o r p
        → last_seen (Displaced r p) (w.known u).seen ≡ Some copied → plan.at ≡ Displaced r p
        → word_after plan.act (w.words plan.at) ≢ copied
        → Valid (world_after plan t w) → ⊥ }
    ensures own { (w : World) (r p t copied : ℕ) (plan : StepPlan) → r ≢ t → (w.known r).running ≡ true
        → last_seen (Displaced r p) (w.known r).seen ≡ Some copied → plan.at ≡ Displaced r p
        → word_after plan.act (w.words plan.at) ≢ copied
        → Valid (world_after plan t w) → ⊥ }
    ensures drawn { (w : World) (o u r p t copied header : ℕ) (e : CallContext) (draw : NextDraw) → u ≢ t
        → (w.known u).running ≡ true
        → ((w.known u).stage ≡ Inflates o r p) ⊎ (r ≡ u) → last_seen (Displaced r p) (w.known u).seen ≡ Some copied
        → w.words (Displaced r p) ≡ header → mark_of (Neutral draw.value 0) ≢ copied
        → Valid (world_after (draw_plan e draw (Displaced r p) o header) t w) → ⊥ }
{}
