//! Trees of steps that are weakened in one way each, or begun where they may not be: none keeps every valid world valid. The functions do
//! nothing.
//!
//! Each law has two kinds of clauses. The first is of every heap and every valid world in which a thread that knows `k` comes to the weakened
//! steps: they don't keep that world valid, whatever is to hold after them. The last names a world to which a small heap comes by its calls,
//! so that there is such a world.

ghost use Rattle.std.specs.Prelude.{◌≡◌, ◌≢◌, ◌⊎◌, ℕ, ◌<◌, ◌≤◌, Bool, true, false, length, Some, None};
ghost use Rattle.plain_monitor.specs.Limits.{most_holds};
ghost use Rattle.core_world.specs.declared.word_id.WordId.TheVariants.{Mark, Displaced};
ghost use Rattle.core_world.specs.declared.stage.Stage.{Stage};
ghost use Rattle.core_world.specs.declared.stage.Stage.TheVariants.{Settled, RecordLocked, RecursionsRaised, RecursionsLowered};
ghost use Rattle.core_world.specs.Words.Forms.{is_neutral, monitor_in};
ghost use Rattle.core_world.specs.Threads.ThreadView.{ThreadView, local_of};
ghost use Rattle.core_world.specs.Threads.Stages.{revocation_in};
ghost use Rattle.core_world.specs.Locks.{OwnedBy, lock, hold_count};
ghost use Rattle.core_world.specs.Threads.References.{making_in};
ghost use Rattle.core_world.specs.Trees.CreateSteps.{next_made};
ghost use Rattle.core_world.specs.Trees.Plans.{CallContext, free_place};
ghost use Rattle.core_world.specs.Trees.SafepointSteps.{stop_steps};
ghost use Rattle.core_world.specs.Steps.{is_idle};
ghost use Rattle.core_law.specs.Logic.{Heap, SoundWorldWith, DoesSteps};
ghost use Rattle.core_law.specs.Reached.{IsReachable};
ghost use Rattle.core_steps.specs.SmallWorlds.{small, neutral, locked, running, seized, entered, keeping, reached, known_in};
ghost use Rattle.core_steps.specs.Weakened.{late_displaced_steps, early_clearing_steps, stop_at_stage_steps, always_claiming_steps, early_cleaning_steps, early_mark_steps, any_object_steps, is_between};

/// An enter that stores the displaced word only after it has exchanged the neutral mark: the exchange leads to a world in which
/// a mark names a record that has no header.
pub fn no_displaced_word_after_the_exchange()
    ensures refused { (heap : Heap) (k : ThreadView) (fresh : Bool) (v : SoundWorldWith heap k) (e : CallContext) (o mark : ℕ)
        → is_idle heap.shape k ≡ fresh → k.running ≡ true → free_place k.holds < most_holds → is_neutral mark ≡ true
        → v.world.words (Mark o) ≡ mark
        → v.world.words (Displaced k.thread (free_place k.holds)) ≢ mark
        → DoesSteps heap fresh (late_displaced_steps e (local_of k) o mark) k → ⊥ }
    ensures there { (e : CallContext)
        → IsReachable small running
        × (DoesSteps small true (late_displaced_steps e (local_of (known_in running)) 0 neutral)
        (known_in running) → ⊥) }
{}

/// An exit that clears its hold word before it puts the header back: the plain monitor still counts the hold.
pub fn no_hold_word_cleared_before_the_exchange()
    ensures refused { (heap : Heap) (k : ThreadView) (fresh : Bool) (v : SoundWorldWith heap k) (e : CallContext) (o header mark : ℕ)
        → is_idle heap.shape k ≡ fresh → k.running ≡ true → k.stage ≡ Settled → o < length heap.shape.objects
        → 1 ≤ hold_count o k.holds
        → DoesSteps heap fresh (early_clearing_steps e (local_of k) o header mark) k → ⊥ }
    ensures there { (e : CallContext) (header mark : ℕ)
        → IsReachable small entered
        × (DoesSteps small true (early_clearing_steps e (local_of (known_in entered)) 0 header mark)
        (known_in entered) → ⊥) }
{}

/// A stop while a step on a lock is unfinished: a thread that doesn't run would stand in the middle of taking or leaving a lock.
pub fn no_stop_between_steps_on_a_lock()
    ensures refused { (heap : Heap) (k : ThreadView) (fresh : Bool) (v : SoundWorldWith heap k) (e : CallContext) (stage : Stage)
        → is_idle heap.shape k ≡ fresh → k.running ≡ true → stage ≢ Settled
        → DoesSteps heap fresh (stop_at_stage_steps e stage (local_of k)) k → ⊥ }
    ensures there { (e : CallContext)
        → IsReachable small seized
        × (DoesSteps small false (stop_at_stage_steps e (RecordLocked 0 0) (local_of (known_in seized)))
        (known_in seized) → ⊥) }
{}

/// A stop of a thread that is in the middle of taking or leaving a lock, of a wait, of an inflation, or of telling
/// several of those who wait, by the steps that every stop makes.
///
/// It would stand in the middle of nothing then, while the locks, its hold words or the waiting words are ahead of
/// its log, or behind it; as may be the recursions of a monitor that it owns.
pub fn no_stop_in_the_middle_of_a_lock()
    ensures refused { (heap : Heap) (k : ThreadView) (fresh : Bool) (v : SoundWorldWith heap k) (e : CallContext)
        → is_idle heap.shape k ≡ fresh → k.running ≡ true → is_between k.stage ≡ true
        → DoesSteps heap fresh (stop_steps e (local_of k)) k → ⊥ }
    ensures counting { (heap : Heap) (k : ThreadView) (fresh : Bool) (v : SoundWorldWith heap k) (e : CallContext) (o m : ℕ)
        → is_idle heap.shape k ≡ fresh → k.running ≡ true → monitor_in (v.world.words (Mark o)) ≡ Some m
        → lock v.world o ≡ OwnedBy k.thread
        → (k.stage ≡ RecursionsRaised o) ⊎ (k.stage ≡ RecursionsLowered o) → DoesSteps heap fresh (stop_steps e (local_of k)) k → ⊥ }
    ensures there { (e : CallContext)
        → IsReachable small seized
        × (DoesSteps small false (stop_steps e (local_of (known_in seized))) (known_in seized) → ⊥) }
{}

/// An inflation that claims a position though its thread keeps a monitor already, from an inflation that didn't come about: it would have two.
pub fn no_claim_with_a_kept_monitor()
    ensures refused { (heap : Heap) (k : ThreadView) (fresh : Bool) (v : SoundWorldWith heap k) (e : CallContext) (o mark m : ℕ)
        → is_idle heap.shape k ≡ fresh → k.running ≡ true → k.kept ≡ Some m
        → DoesSteps heap fresh (always_claiming_steps heap.shape e o mark) k → ⊥ }
    ensures there { (e : CallContext)
        → IsReachable small keeping
        × (DoesSteps small false (always_claiming_steps small.shape e 0 locked) (known_in keeping) → ⊥) }
{}

/// A deflation that clears the header of a monitor before that is the mark again: the mark would name a monitor without a header.
pub fn no_header_cleared_before_the_mark()
    ensures refused { (heap : Heap) (k : ThreadView) (fresh : Bool) (v : SoundWorldWith heap k) (e : CallContext) (stage : Stage)
        (o m header : ℕ) → is_idle heap.shape k ≡ fresh → k.reached ≡ true → revocation_in stage ≡ None
        → monitor_in (v.world.words (Mark o)) ≡ Some m
        → DoesSteps heap fresh (early_cleaning_steps e stage o m header) k → ⊥ }
    ensures there { (e : CallContext) (header : ℕ)
        → IsReachable small reached
        × (DoesSteps small true (early_cleaning_steps e Settled 0 0 header) (known_in reached) → ⊥) }
{}

/// A making of an object that stores the first mark before the class word: what a thread isn't making yet would be there.
pub fn no_first_mark_before_the_class_word()
    ensures refused { (heap : Heap) (k : ThreadView) (fresh : Bool) (v : SoundWorldWith heap k) (e : CallContext) (o c mark : ℕ)
        → is_idle heap.shape k ≡ fresh → k.running ≡ true → making_in k.unfinished ≢ Some o
        → DoesSteps heap fresh (early_mark_steps e o c mark) k → ⊥ }
    ensures there { (e : CallContext) (o c mark : ℕ)
        → IsReachable small running
        × (DoesSteps small true (early_mark_steps e o c mark) (known_in running) → ⊥) }
{}

/// A making of another object than the thread's next one, by its log: so is a second making by the number that the first one had, whose New
/// the log has by then. The thread would stand before the first mark of an object that is there, or isn't its own.
pub fn no_object_made_out_of_turn()
    ensures refused { (heap : Heap) (k : ThreadView) (fresh : Bool) (v : SoundWorldWith heap k) (o c mark : ℕ)
        → is_idle heap.shape k ≡ fresh → k.running ≡ true → o ≢ next_made heap.shape (local_of k)
        → DoesSteps heap fresh (any_object_steps o c mark) k → ⊥ }
    ensures there { (c mark : ℕ)
        → IsReachable small running
        × (DoesSteps small true (any_object_steps 2 c mark) (known_in running) → ⊥) }
{}
