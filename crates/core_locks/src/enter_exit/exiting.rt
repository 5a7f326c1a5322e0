//! Laws of the steps that log Exit: by clearing a hold word, and by exchanging a mark for the displaced header.

ghost use Rattle.std.specs.Prelude.{◌≡◌, ◌≢◌, ℕ};
ghost use Rattle.mark_word.specs.Mark.{mark_of};
ghost use Rattle.mark_word.specs.declared.mark.MarkForm.TheVariants.{Locked};
ghost use Rattle.plain_monitor.specs.declared.entry.Entry.TheVariants.{Exit};
ghost use Rattle.core_world.specs.declared.word_id.WordId.TheVariants.{Mark};
ghost use Rattle.core_world.specs.Trees.LockSteps.{leave_plan, let_go_plan};
ghost use Rattle.core_world.specs.Trees.Plans.{CallContext};
ghost use Rattle.core_locks.specs.Knowing.{KeepsValid, LogsValid};
ghost use Rattle.core_locks.specs.LockLaws.{MayLeave, MayLetGo};

/// A thread that clears the deepest of its hold words of an object, and so logs Exit, gives a valid world. The plain
/// monitor's count falls by one.
///
/// There are three cases. The record is recursive, by its displaced word 0. Or it was made through the monitor: the
/// thread has lowered the recursions already, so that they count one record less than it has until this step. Or the
/// object is biased to the thread, and the hold may be its only one. Then the object has no plain owner any more, and
/// its stamp word, which the thread has raised, bounds the entry.
pub fn exiting_by_a_hold_word_keeps_the_world_valid()
    // `t` is one of the heap's threads, and works for the exit, by the definition of the steps. `MayLeave` is of what the thread last stored and saw.
    // That the hold isn't the only one where its displaced word is 0, and that the owner word names the thread, the clauses on records, recursions
    // and owners give where these words were loaded. That a bias of an object which the thread holds is its own, the clause on biases gives.
    ensures { (e : CallContext) (o d p : ℕ)
        → LogsValid (λ w t. MayLeave w.shape (w.known t) o d p) (λ w t. leave_plan e t o p) (Exit o) }
{}

/// A thread that exchanges the mark which names its record for the header that it displaced, and so logs its last Exit, gives a
/// valid world: the object has no plain owner any more, and its stamp word, which the thread has raised, bounds the entry. Where
/// the mark is another one meanwhile, since another thread inflates the object, the step changes no word and logs nothing.
pub fn exiting_by_the_mark_keeps_the_world_valid()
    // `t` is one of the heap's threads, and works for the exit, by the definition of the steps. `MayLetGo` is of what the thread last stored and saw; that the mark
    // which the steps loaded and expect is that of this record, and its hold the last, follows from the clauses on records and owners where
    // it was loaded. Whether the mark still is, the exchange itself tells
    ensures hit { (e : CallContext) (o header stamp p : ℕ)
        → LogsValid (λ w t. MayLetGo w.shape (w.known t) o header stamp p × (w.words (Mark o) ≡ mark_of (Locked t p)))
        (λ w t. let_go_plan e o (mark_of (Locked t p)) header p) (Exit o) }
    ensures miss { (e : CallContext) (o header stamp p : ℕ)
        → KeepsValid (λ w t. MayLetGo w.shape (w.known t) o header stamp p × (w.words (Mark o) ≢ mark_of (Locked t p)))
        (λ w t. let_go_plan e o (mark_of (Locked t p)) header p) }
{}
