//! Laws of the loads that log nothing: of the safepoint word, marks, displaced words, waiting words and lengths. Their functions do
//! nothing. Loads of other words are looks by `core_world`'s law, and so is an exchange that misses.
//!
//! In each law the step belongs to the call that the thread is in the middle of, or begins: it goes on with what the thread has
//! unfinished, or begins an operation where that is nothing, and leaves the thread where it stands and what it checks.

ghost use Rattle.std.specs.Prelude.{◌≡◌, ℕ, true};
ghost use Rattle.core_world.specs.declared.word_id.WordId.TheVariants.{Safepoint, Mark, Displaced, Waiting, Length};
ghost use Rattle.core_world.specs.Words.Forms.{is_still};
ghost use Rattle.core_world.specs.Trees.Plans.{CallContext, load_plan};
ghost use Rattle.core_world.specs.Steps.{world_after};
ghost use Rattle.core_world.specs.World.{World};
ghost use Rattle.core_locks.specs.Knowing.{KeepsValid};
ghost use Rattle.core_locks.specs.LoadLaws.{MayLoadSafepoint, MayLoadRequested, MayLoad};

/// A load of the safepoint word keeps the world valid, of any thread: one that runs, one that is stopped, one whose request stands.
/// That the step goes on is by the plan of its call; the thread is one of the heap's.
pub fn a_load_of_the_safepoint_word_keeps_the_world_valid()
    ensures { (e : CallContext)
        → KeepsValid (λ w t. MayLoadSafepoint (w.known t) e) (λ w t. load_plan e (w.known t).stage Safepoint) }
{}

/// A load of the safepoint word by the thread whose request stands, as it knows itself, keeps the world valid. It tells the thread
/// that its safepoint is reached, where no thread runs by the word.
pub fn a_load_by_a_requester_keeps_the_world_valid()
    ensures valid { (e : CallContext)
        → KeepsValid (λ w t. MayLoadRequested (w.known t) e) (λ w t. load_plan e (w.known t).stage Safepoint) }
    ensures learns { (w : World) (t : ℕ) (e : CallContext) → (w.known t).requesting ≡ true
        → is_still (w.words Safepoint) ≡ true
        → ((world_after (load_plan e (w.known t).stage Safepoint) t w).known t).reached ≡ true }
{}

/// A load of a mark keeps the world valid, of a thread that runs, or that knows its safepoint to be reached.
pub fn a_load_of_a_mark_keeps_the_world_valid()
    ensures { (e : CallContext) (o : ℕ)
        → KeepsValid (λ w t. MayLoad (w.known t) e) (λ w t. load_plan e (w.known t).stage (Mark o)) }
{}

/// A load of the displaced word of any lock record keeps the world valid, of a thread that runs, or that knows its safepoint to be
/// reached.
pub fn a_load_of_a_displaced_word_keeps_the_world_valid()
    ensures { (e : CallContext) (u p : ℕ)
        → KeepsValid (λ w t. MayLoad (w.known t) e) (λ w t. load_plan e (w.known t).stage (Displaced u p)) }
{}

/// A load of any thread's waiting word or published length keeps the world valid, of a thread that runs, or that knows its
/// safepoint to be reached.
pub fn a_load_of_a_waiting_word_or_length_keeps_the_world_valid()
    ensures waiting { (e : CallContext) (u : ℕ)
        → KeepsValid (λ w t. MayLoad (w.known t) e) (λ w t. load_plan e (w.known t).stage (Waiting u)) }
    ensures length { (e : CallContext) (u : ℕ)
        → KeepsValid (λ w t. MayLoad (w.known t) e) (λ w t. load_plan e (w.known t).stage (Length u)) }
{}
