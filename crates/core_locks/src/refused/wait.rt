//! Laws of steps that would notify, resume or halt, and lead to no valid world. The functions do nothing.

ghost use Rattle.std.specs.Prelude.{◌≡◌, ◌≢◌, ℕ, ◌<◌, true, false, Some, None};
ghost use Rattle.plain_monitor.specs.declared.entry.Entry.TheVariants.{Notify, NotifyAll};
ghost use Rattle.plain_monitor.specs.Monitor.{is_listed};
ghost use Rattle.core_world.specs.declared.word_id.WordId.TheVariants.{Safepoint, Mark, Waiting, Recursions};
ghost use Rattle.core_world.specs.declared.stage.Stage.TheVariants.{Resumes};
ghost use Rattle.core_world.specs.Words.Forms.{monitor_in, waits_on, says_notified, stamp_in};
ghost use Rattle.core_world.specs.Locks.{monitor_of, notified_at};
ghost use Rattle.core_world.specs.Trees.Plans.{CallContext};
ghost use Rattle.core_world.specs.Clauses.Safepoints.{IsHeldUp, ends};
ghost use Rattle.core_world.specs.Trees.SafepointSteps.{halt_plan, reached_word};
ghost use Rattle.core_world.specs.Steps.{world_after};
ghost use Rattle.core_world.specs.Valid.{Valid};
ghost use Rattle.core_world.specs.Trees.WaitSteps.{is_older, log_resume_plan, publish_plan, notify_plan, notify_all_plan};
ghost use Rattle.core_world.specs.World.{World};

/// A running thread that tells a waiter though another has waited longer, and logs Notify with that.
pub fn no_notify_of_a_later_waiter()
    ensures { (w : World) (o t u z : ℕ) (e : CallContext) → Valid w → (w.known t).running ≡ true
        → waits_on (w.words (Waiting u)) o ≡ true → waits_on (w.words (Waiting z)) o ≡ true
        → is_older (z, stamp_in (w.words (Waiting z))) (u, stamp_in (w.words (Waiting u))) ≡ true
        → Valid (world_after (notify_plan e o u) t w) → ⊥ }
{}

/// A running thread that tells one waiter and logs NotifyAll with that, though another still waits, whatever number it logs.
pub fn no_notify_all_that_misses_one()
    ensures { (w : World) (o t u z n : ℕ) (e : CallContext) → Valid w → (w.known t).running ≡ true → z ≢ u
        → waits_on (w.words (Waiting z)) o ≡ true
        → Valid (world_after (notify_all_plan e o u n) t w) → ⊥ }
{}

/// A running thread that tells nobody though one waits, and logs that Notify or NotifyAll as it publishes its log.
pub fn no_notify_of_nobody()
    ensures one { (w : World) (o t z n : ℕ) (e : CallContext) → Valid w → (w.known t).running ≡ true
        → waits_on (w.words (Waiting z)) o ≡ true
        → Valid (world_after (publish_plan e t (Notify o None) n) t w) → ⊥ }
    ensures all { (w : World) (o t z n m : ℕ) (e : CallContext) → Valid w → (w.known t).running ≡ true
        → waits_on (w.words (Waiting z)) o ≡ true
        → Valid (world_after (publish_plan e t (NotifyAll o m) n) t w) → ⊥ }
{}

/// A thread that has its monitor again and logs its Resume, while the recursions aren't those that its wait saved.
pub fn no_resume_with_another_count()
    ensures { (w : World) (o m t : ℕ) (e : CallContext) → Valid w → (w.known t).running ≡ true
        → (w.known t).stage ≡ Resumes o
        → monitor_in (w.words (Mark o)) ≡ Some m → w.words (Recursions m) ≢ (w.known t).saved
        → Valid (world_after (log_resume_plan e o) t w) → ⊥ }
{}

/// A running thread that logs a Resume though nobody told it. Its waiting word says that it waits, on this object or another. Or that word
/// doesn't say that it was notified on this object, whether it ever waited there or not; Ready alone may stand there, while the thread
/// has the lock again at the end of its wait. Or the plain monitor hasn't called it, wherever in the order its stamp puts the Resume.
pub fn no_resume_untold()
    ensures waiting { (w : World) (o i t : ℕ) (e : CallContext) → (w.known t).running ≡ true
        → waits_on (w.words (Waiting t)) i ≡ true
        → Valid (world_after (log_resume_plan e o) t w) → ⊥ }
    ensures untold { (w : World) (o t : ℕ) (e : CallContext) → Valid w → (w.known t).running ≡ true
        → says_notified (w.words (Waiting t)) o ≡ false
        → (w.words (Waiting t) ≡ 0 → (w.known t).stage ≢ Resumes o)
        → Valid (world_after (log_resume_plan e o) t w) → ⊥ }
    ensures uncalled { (w : World) (o t : ℕ) (e : CallContext) (v : Valid w) → (w.known t).running ≡ true
        → is_listed (notified_at v.objects o) t ≡ false
        → Valid (world_after (log_resume_plan e o) t w) → ⊥ }
{}

/// A thread that halts the run at its safepoint though some thread can go on: one that hasn't ended, and neither waits nor was
/// called or enters where another is the owner.
pub fn no_halt_while_one_can_go_on()
    ensures { (w : World) (t u : ℕ) (e : CallContext) (v : Valid w) → w.words Safepoint ≡ reached_word t
        → e.unfinished ≡ (w.known t).unfinished
        → u < w.shape.threads → ends (w.known u).log ≡ false
        → (IsHeldUp (monitor_of v.objects) u (w.known u).unfinished → ⊥)
        → Valid (world_after (halt_plan e t) t w) → ⊥ }
{}
