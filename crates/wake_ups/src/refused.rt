//! Laws of worlds, a step and a run that are wrong: no heap comes to them. The functions do nothing.

ghost use Rattle.std.specs.Prelude.{◌≡◌, ℕ, Bool, true, List, [], Some, None};
ghost use Rattle.plain_monitor.specs.declared.entry.Entry.TheVariants.{Notify};
ghost use Rattle.plain_monitor.specs.Monitor.{is_listed};
ghost use Rattle.plain_monitor.specs.Objects.{PlainObject};
ghost use Rattle.core_world.specs.declared.word_id.WordId.TheVariants.{Safepoint, Waiting};
ghost use Rattle.core_world.specs.Steps.{is_idle, world_after};
ghost use Rattle.core_world.specs.Threads.ThreadView.{ThreadView, StepMade, local_of};
ghost use Rattle.core_world.specs.Trees.Plans.{CallContext};
ghost use Rattle.core_world.specs.Trees.WaitSteps.{publish_plan, publish_steps};
ghost use Rattle.core_world.specs.Words.Forms.{waits_on, says_notified, is_halted};
ghost use Rattle.core_world.specs.Words.Shape.{IsInLimits};
ghost use Rattle.core_world.specs.World.{World};
ghost use Rattle.core_world.specs.Locks.{monitor_of, waits_at, notified_at};
ghost use Rattle.core_world.specs.Valid.{Valid};
ghost use Rattle.core_law.specs.Logic.{Heap, SoundWorldWith, DoesSteps};
ghost use Rattle.core_law.specs.Reached.{IsReachable};
ghost use Rattle.step_history.specs.Examples.{world_of, owns_beside};
ghost use Rattle.step_history.specs.Leads.{Leads};
ghost use Rattle.step_history.specs.Race.{rivals};
ghost use Rattle.wake_ups.specs.WakeUps.{AreAfterLogs, resumes_of};

/// A wake-up that was lost: a notify was logged, so that the thread is notified, but nothing was stored, so that its waiting word still
/// says that it waits.
///
/// Refuses a conclusion of `no_wake_up_is_lost`.
pub fn no_notify_without_its_store()
    ensures { (w : World) (v : Valid w) (t o : ℕ) → is_listed (notified_at v.objects o) t ≡ true
        → waits_on (w.words (Waiting t)) o ≡ true → ⊥ }
{}

/// A notify that logs that it wakes a waiting thread, by publishing the log, and stores nothing into that thread's
/// waiting word.
///
/// Its step leads from no valid world to a valid one (`step`). So its tree keeps no world valid in which a running
/// thread makes it (`refused`). And a heap comes to such a world, in which thread 0 waits and thread 1 runs
/// (`there`).
///
/// Refuses a conclusion of `no_wake_up_is_lost`.
pub fn no_notify_that_stores_nothing()
    ensures step { (w : World) (o t u n : ℕ) (e : CallContext) → Valid w → (w.known t).running ≡ true
        → waits_on (w.words (Waiting u)) o ≡ true
        → Valid (world_after (publish_plan e t (Notify o (Some u)) n) t w) → ⊥ }
    ensures refused { (heap : Heap) (k : ThreadView) (fresh : Bool) (v : SoundWorldWith heap k) (e : CallContext) (o u : ℕ)
        → is_idle heap.shape k ≡ fresh → k.running ≡ true → waits_on (v.world.words (Waiting u)) o ≡ true
        → DoesSteps heap fresh (publish_steps (Notify o (Some u)) e (local_of k)) k → ⊥ }
    ensures there { (e : CallContext)
        → IsReachable rivals (world_of rivals owns_beside)
        × (waits_on ((world_of rivals owns_beside).words (Waiting 0)) 0 ≡ true)
        × (((world_of rivals owns_beside).known 1).running ≡ true)
        × (DoesSteps rivals true
        (publish_steps (Notify 0 (Some 0)) e (local_of ((world_of rivals owns_beside).known 1)))
        ((world_of rivals owns_beside).known 1) → ⊥) }
{}

/// A world that runs ahead of its logs, or loses one of them: a thread waits by its waiting word, and by the logs nobody waits on the
/// object (`waits`); it says that it was notified, and by the logs nobody waits or was notified there (`told`); a thread was notified by
/// the logs, and its waiting word still says that it waits (`notified`); or the run is halted, and a thread was notified from an object
/// that nobody owns (`halted`).
///
/// Refuses the conclusions of `no_wake_up_is_lost`.
pub fn no_world_that_loses_a_wake_up()
    ensures notified { (heap : Heap) (w : World) (objects : List PlainObject) (t o : ℕ) → IsInLimits heap.shape
        → IsReachable heap w → AreAfterLogs w objects → is_listed (notified_at objects o) t ≡ true
        → waits_on (w.words (Waiting t)) o ≡ true → ⊥ }
    ensures waits { (heap : Heap) (w : World) (objects : List PlainObject) (t o : ℕ) → IsInLimits heap.shape
        → IsReachable heap w → AreAfterLogs w objects → waits_at objects o ≡ []
        → waits_on (w.words (Waiting t)) o ≡ true → ⊥ }
    ensures told { (heap : Heap) (w : World) (objects : List PlainObject) (t o : ℕ) → IsInLimits heap.shape
        → IsReachable heap w → AreAfterLogs w objects → waits_at objects o ≡ [] → notified_at objects o ≡ []
        → says_notified (w.words (Waiting t)) o ≡ true → ⊥ }
    ensures halted { (heap : Heap) (w : World) (objects : List PlainObject) (t o : ℕ) → IsInLimits heap.shape
        → IsReachable heap w → AreAfterLogs w objects → is_halted (w.words Safepoint) ≡ true
        → is_listed (notified_at objects o) t ≡ true → (monitor_of objects o).owner ≡ None → ⊥ }
{}

/// A thread that was notified, and is forgotten: by later steps nobody is notified there any more, though it has logged no Resume since.
///
/// Refuses the conclusion of `who_is_notified_stays_so_until_its_resume`.
pub fn no_run_that_forgets_who_was_notified()
    ensures { (heap : Heap) (w v : World) (xs : List (ℕ × StepMade)) (objects after : List PlainObject) (t o : ℕ)
        → IsInLimits heap.shape → IsReachable heap w → Leads w xs v → AreAfterLogs w objects → AreAfterLogs v after
        → is_listed (notified_at objects o) t ≡ true
        → resumes_of o (v.known t).log ≡ resumes_of o (w.known t).log → notified_at after o ≡ [] → ⊥ }
{}
