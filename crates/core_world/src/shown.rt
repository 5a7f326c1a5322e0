//! What the words of an object show of its owner and count, and where every clause holds.

ghost use Rattle.std.specs.Prelude.{◌≡◌, ◌≢◌, ◌⊎◌, ℕ, true, false, List, Some, None};
ghost use Rattle.plain_monitor.specs.Monitor.{is_listed, count_of};
ghost use Rattle.plain_monitor.specs.Objects.{PlainObject};
ghost use Rattle.core_world.specs.declared.word_id.WordId.TheVariants.{Hold};
ghost use Rattle.core_world.specs.declared.stage.Stage.TheVariants.{Waits};
ghost use Rattle.core_world.specs.Words.Forms.{names};
ghost use Rattle.core_world.specs.Threads.Stages.{bears, hold_words_ahead, revocation_in};
ghost use Rattle.core_world.specs.World.{World};
ghost use Rattle.core_world.specs.Locks.{owner_and_count, hold_count, monitor_of, or_zero, owner_at, waits_at, notified_at};
ghost use Rattle.core_world.specs.Valid.{Fits, Valid};

/// The owner and count that an object's words show are those of its plain monitor, where no thread is taking the object or has
/// logged its Wait and not let go; and so of every object at a reached safepoint, unless a bias is being revoked there. An object
/// that a thread is taking shows that thread with its hold words, and nobody else takes it or owns it. An object whose thread has
/// logged its Wait and not let go has no plain owner, and shows that thread with the count that it keeps as one who waits.
pub fn shown_is_plain()
    ensures at_rest { (w : World) (objects : List PlainObject) (o : ℕ) → Fits w objects
        → ((t : ℕ) → bears (w.known t).stage o ≡ false)
        → owner_and_count w o ≡ ((monitor_of objects o).owner, (monitor_of objects o).count) }
    ensures at_safepoint { (w : World) (objects : List PlainObject) (t o : ℕ) → Fits w objects
        → (w.known t).reached ≡ true
        → owner_and_count w o ≡ ((monitor_of objects o).owner, (monitor_of objects o).count) }
    ensures taken { (w : World) (objects : List PlainObject) (o t : ℕ) → Fits w objects
        → bears (w.known t).stage o ≡ true
        → owner_and_count w o ≡ (Some t, hold_count o (w.known t).holds) }
    ensures alone { (w : World) (objects : List PlainObject) (o t u : ℕ) → Fits w objects
        → bears (w.known t).stage o ≡ true → u ≢ t
        → (bears (w.known u).stage o ≡ false) × (owner_at objects o u ≡ false) }
    ensures leaving { (w : World) (objects : List PlainObject) (o t : ℕ) → Fits w objects → (w.known t).stage ≡ Waits o
        → ((monitor_of objects o).owner ≡ None)
        × (owner_and_count w o ≡ (Some t, or_zero (count_of (waits_at objects o) t))) }
    ensures safepoint { (w : World) (v : Valid w) (t o : ℕ) → (w.known t).reached ≡ true
        → ((u : ℕ) → revocation_in (w.known u).stage ≡ None)
        → owner_and_count w o ≡ ((monitor_of v.objects o).owner, (monitor_of v.objects o).count) }
{}

/// While a thread runs, every clause of a valid world holds: no bias is being revoked then.
pub fn all_clauses_hold_while_a_thread_runs()
    ensures { (w : World) (v : Valid w) (t : ℕ) → (w.known t).running ≡ true → Fits w v.objects }
{}

/// A thread that has a hold word for an object is its plain owner, or waits there, or was notified there, or is taking or leaving
/// that hold.
pub fn held_objects_are_stood_at()
    ensures { (w : World) (objects : List PlainObject) (t p o : ℕ) → Fits w objects
        → names o (w.words (Hold t p)) ≡ true
        → (owner_at objects o t ≡ true) ⊎ (is_listed (waits_at objects o) t ≡ true)
        ⊎ (is_listed (notified_at objects o) t ≡ true)
        ⊎ (hold_words_ahead (w.known t).stage o ≡ 1) }
{}
