//! Laws of steps that would claim a monitor or give one back, and lead to no valid world. The functions do nothing.

ghost use Rattle.std.specs.Prelude.{◌≡◌, ◌≢◌, ℕ, ◌+◌, ◌%◌, true, Some, None};
ghost use Rattle.mark_word.specs.declared.owner.OwnerForm.TheVariants.{Free};
ghost use Rattle.mark_word.specs.Owner.{owner_of};
ghost use Rattle.core_world.specs.declared.word_id.WordId.TheVariants.{Mark, Waiting, Owner, Header, Claim, End, Ring};
ghost use Rattle.core_world.specs.Words.Forms.{is_neutral, monitor_in, waits_on, says_notified, enters_on};
ghost use Rattle.core_world.specs.Words.Shape.{ring_places};
ghost use Rattle.core_world.specs.Threads.ThreadView.{Fetches, Returns};
ghost use Rattle.core_world.specs.Threads.Stages.{revocation_in};
ghost use Rattle.core_world.specs.Trees.DeflateSteps.{detach_plan, enqueue_plan, advance_plan};
ghost use Rattle.core_world.specs.Trees.MonitorSteps.{claim_plan};
ghost use Rattle.core_world.specs.Trees.Plans.{CallContext};
ghost use Rattle.core_world.specs.Steps.{world_after};
ghost use Rattle.core_world.specs.Valid.{Valid};
ghost use Rattle.core_world.specs.World.{World};
ghost use Rattle.core_locks.specs.DeflationLaws.{IsFilled};

/// A thread at its reached safepoint that stores a header as the mark of an object, and so takes any monitor from it, while its monitor is in use:
/// that has an owner; or by its waiting word some thread waits on the object, was notified from it, or enters it.
pub fn no_deflation_of_a_monitor_in_use()
    ensures owned { (w : World) (o m n t header : ℕ) (e : CallContext) → Valid w → (w.known t).reached ≡ true
        → revocation_in (w.known t).stage ≡ None → is_neutral header ≡ true
        → monitor_in (w.words (Mark o)) ≡ Some m → w.words (Owner m) ≢ owner_of Free
        → Valid (world_after (detach_plan e (w.known t).stage o n header) t w) → ⊥ }
    ensures waited { (w : World) (o n t u header : ℕ) (e : CallContext) → (w.known t).reached ≡ true
        → revocation_in (w.known t).stage ≡ None → is_neutral header ≡ true
        → waits_on (w.words (Waiting u)) o ≡ true
        → Valid (world_after (detach_plan e (w.known t).stage o n header) t w) → ⊥ }
    ensures notified { (w : World) (o n t u header : ℕ) (e : CallContext) → (w.known t).reached ≡ true
        → revocation_in (w.known t).stage ≡ None → is_neutral header ≡ true
        → says_notified (w.words (Waiting u)) o ≡ true
        → Valid (world_after (detach_plan e (w.known t).stage o n header) t w) → ⊥ }
    ensures entered { (w : World) (o n t u header : ℕ) (e : CallContext) → (w.known t).reached ≡ true
        → revocation_in (w.known t).stage ≡ None → is_neutral header ≡ true
        → enters_on (w.words (Waiting u)) o ≡ true
        → Valid (world_after (detach_plan e (w.known t).stage o n header) t w) → ⊥ }
{}

/// A thread at its reached safepoint that so stores another header than that of the object's monitor.
pub fn no_deflation_to_another_header()
    ensures { (w : World) (o m n t header : ℕ) (e : CallContext) → Valid w → (w.known t).reached ≡ true
        → revocation_in (w.known t).stage ≡ None → is_neutral header ≡ true
        → monitor_in (w.words (Mark o)) ≡ Some m → w.words (Header m) ≢ header
        → Valid (world_after (detach_plan e (w.known t).stage o n header) t w) → ⊥ }
{}

/// A thread at its reached safepoint that takes another monitor from an object than the one that the object's mark names: that one would be nowhere.
pub fn no_deflation_of_another_monitor()
    ensures { (w : World) (o m n t header : ℕ) (e : CallContext) → Valid w → (w.known t).reached ≡ true
        → revocation_in (w.known t).stage ≡ None → is_neutral header ≡ true
        → monitor_in (w.words (Mark o)) ≡ Some m → n ≢ m
        → Valid (world_after (detach_plan e (w.known t).stage o n header) t w) → ⊥ }
{}

/// A thread at its reached safepoint that moves the ring's end on while the monitor that it gives back doesn't stand at the end's place: what stands
/// there is stale, and the monitor would be nowhere.
pub fn no_end_moved_before_the_store()
    ensures { (w : World) (m t end : ℕ) (e : CallContext) → Valid w → (w.known t).reached ≡ true
        → revocation_in (w.known t).stage ≡ None → (w.known t).moving ≡ Returns m
        → w.words End ≡ end → w.words (Ring (end % ring_places w.shape)) ≢ m
        → Valid (world_after (advance_plan e (w.known t).stage end) t w) → ⊥ }
{}

/// A thread at its reached safepoint that stores the monitor that it gives back not at the end's place, but at one of the filled positions: the
/// monitor that stands there would be nowhere.
pub fn no_store_over_a_filled_position()
    ensures { (w : World) (m t d : ℕ) (e : CallContext) → (w.known t).reached ≡ true
        → revocation_in (w.known t).stage ≡ None → (w.known t).moving ≡ Returns m → IsFilled w d
        → Valid (world_after (enqueue_plan e (w.known t).stage w.shape (w.words Claim + d) m) t w) → ⊥ }
{}

/// A running thread that claims a position while it keeps a monitor, or has claimed a position and not loaded its place yet.
pub fn no_claim_of_a_second_monitor()
    ensures kept { (w : World) (m t : ℕ) (e : CallContext) → (w.known t).running ≡ true → (w.known t).kept ≡ Some m
        → Valid (world_after (claim_plan e) t w) → ⊥ }
    ensures claimed { (w : World) (p t : ℕ) (e : CallContext) → Valid w → (w.known t).running ≡ true
        → (w.known t).moving ≡ Fetches p
        → Valid (world_after (claim_plan e) t w) → ⊥ }
{}
