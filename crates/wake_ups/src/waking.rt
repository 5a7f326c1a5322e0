//! The laws of those who wait and of those who were notified, in each world to which a heap in the limits comes.

ghost use Rattle.std.specs.Prelude.{◌≡◌, ◌⊎◌, ℕ, true, List, Some};
ghost use Rattle.plain_monitor.specs.Objects.{PlainObject};
ghost use Rattle.plain_monitor.specs.Monitor.{is_listed};
ghost use Rattle.core_world.specs.declared.word_id.WordId.TheVariants.{Safepoint, Waiting};
ghost use Rattle.core_world.specs.Threads.Stages.{notification_in};
ghost use Rattle.core_world.specs.Words.Forms.{waits_on, says_notified, is_halted};
ghost use Rattle.core_world.specs.Words.Shape.{IsInLimits};
ghost use Rattle.core_world.specs.World.{World};
ghost use Rattle.core_world.specs.Locks.{waits_at, notified_at};
ghost use Rattle.core_world.specs.Threads.ThreadView.{StepMade};
ghost use Rattle.core_law.specs.Logic.{Heap};
ghost use Rattle.core_law.specs.Reached.{IsReachable};
ghost use Rattle.step_history.specs.Leads.{Leads};
ghost use Rattle.wake_ups.specs.WakeUps.{AreAfterLogs, IsTold, OwnedByAnother, resumes_of};

/// Let `objects` be the plain objects after the logs of a world to which a heap in the limits comes. A thread that is notified there, and
/// hasn't resumed, is told so: its waiting word says Notified; or it has looked already, its waiting word is ready again, and it is at the
/// stage that ends with its Resume (clause `notified`). The words don't run ahead of the logs either: who waits by its waiting word stands
/// in the wait set (`waits`); and who is notified by it is notified in the logs, or still stands in the wait set, while some owner is in
/// the middle of a notifyall (`told`). Where the run is halted, nobody was left asleep before a monitor that it could take: the object of
/// each who is notified is owned by another thread (`halted`).
pub fn no_wake_up_is_lost()
    ensures notified { (heap : Heap) (w : World) (objects : List PlainObject) (t o : ℕ) → IsInLimits heap.shape
        → IsReachable heap w → AreAfterLogs w objects
        → is_listed (notified_at objects o) t ≡ true → IsTold w t o }
    ensures waits { (heap : Heap) (w : World) (objects : List PlainObject) (t o : ℕ) → IsInLimits heap.shape
        → IsReachable heap w → AreAfterLogs w objects
        → waits_on (w.words (Waiting t)) o ≡ true → is_listed (waits_at objects o) t ≡ true }
    ensures told { (heap : Heap) (w : World) (objects : List PlainObject) (t o : ℕ) → IsInLimits heap.shape
        → IsReachable heap w → AreAfterLogs w objects → says_notified (w.words (Waiting t)) o ≡ true
        → (is_listed (notified_at objects o) t ≡ true)
        ⊎ ((is_listed (waits_at objects o) t ≡ true)
        × ((u : ℕ) × (notification_in (w.known u).stage ≡ Some o))) }
    ensures halted { (heap : Heap) (w : World) (objects : List PlainObject) (t o : ℕ) → IsInLimits heap.shape
        → IsReachable heap w → AreAfterLogs w objects → is_halted (w.words Safepoint) ≡ true
        → is_listed (notified_at objects o) t ≡ true → OwnedByAnother objects o t }
{}

/// Who is notified stays so until its own Resume. Let a world to which a heap in the limits comes lead on to another one, by any steps of
/// all threads. A thread that is notified in the first, and has logged no Resume of the object since, is notified in the second: no other
/// thread's entry, and no entry of its own but that one, puts it back among those who wait or lets it be forgotten.
pub fn who_is_notified_stays_so_until_its_resume()
    ensures { (heap : Heap) (w v : World) (xs : List (ℕ × StepMade)) (objects after : List PlainObject) (t o : ℕ)
        → IsInLimits heap.shape → IsReachable heap w → Leads w xs v → AreAfterLogs w objects → AreAfterLogs v after
        → is_listed (notified_at objects o) t ≡ true
        → resumes_of o (v.known t).log ≡ resumes_of o (w.known t).log
        → is_listed (notified_at after o) t ≡ true }
{}
