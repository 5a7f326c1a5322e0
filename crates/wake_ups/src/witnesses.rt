//! Worlds to which small heaps come, in which a thread waits, is notified, and still is after another thread's steps: so what the laws ask
//! for comes about. The functions do nothing.

ghost use Rattle.std.specs.Prelude.{◌≡◌, ℕ, true, false, List};
ghost use Rattle.plain_monitor.specs.Monitor.{is_listed};
ghost use Rattle.plain_monitor.specs.Objects.{PlainObject};
ghost use Rattle.core_world.specs.declared.word_id.WordId.TheVariants.{Safepoint, Waiting};
ghost use Rattle.core_world.specs.Locks.{owner_at, waits_at, notified_at};
ghost use Rattle.core_world.specs.Threads.ThreadView.{StepMade};
ghost use Rattle.core_world.specs.Words.Forms.{waits_on, says_notified, is_halted};
ghost use Rattle.core_world.specs.Words.Shape.{IsInLimits};
ghost use Rattle.core_law.specs.Reached.{IsReachable};
ghost use Rattle.step_history.specs.Examples.{world_of, owns_beside};
ghost use Rattle.step_history.specs.Leads.{Leads};
ghost use Rattle.step_history.specs.Race.{rivals};
ghost use Rattle.wake_ups.specs.Examples.{notifies, leaves, pair, halts_owned};
ghost use Rattle.wake_ups.specs.WakeUps.{AreAfterLogs, resumes_of};

/// A heap of two threads comes to these worlds. Thread 0 waits, while thread 1 owns the object (`waits`); thread 0 was notified (`notified`),
/// which its waiting word says, too (`told`). And in a heap of two objects thread 1 owns the one from which thread 0 was notified, and waits
/// on the other one: the run is halted (`halted`).
///
/// A witness for `no_wake_up_is_lost`.
pub fn a_thread_can_wait_and_be_notified()
    ensures waits { (objects : List PlainObject) × IsInLimits rivals.shape
        × IsReachable rivals (world_of rivals owns_beside)
        × AreAfterLogs (world_of rivals owns_beside) objects
        × (waits_on ((world_of rivals owns_beside).words (Waiting 0)) 0 ≡ true)
        × (owner_at objects 0 1 ≡ true) }
    ensures notified { (objects : List PlainObject) × IsInLimits rivals.shape
        × IsReachable rivals (world_of rivals notifies)
        × AreAfterLogs (world_of rivals notifies) objects × (is_listed (notified_at objects 0) 0 ≡ true) }
    ensures told { says_notified ((world_of rivals notifies).words (Waiting 0)) 0 ≡ true }
    ensures halted { (objects : List PlainObject) × IsInLimits pair.shape × IsReachable pair (world_of pair halts_owned)
        × AreAfterLogs (world_of pair halts_owned) objects
        × (is_halted ((world_of pair halts_owned).words Safepoint) ≡ true)
        × (is_listed (notified_at objects 0) 0 ≡ true) × (owner_at objects 0 1 ≡ true)
        × (is_listed (waits_at objects 1) 1 ≡ true) }
{}

/// From a world in which thread 0 was notified and thread 1 owns the object, steps lead to one in which thread 1 has left it: thread 0 has
/// logged no Resume since.
///
/// A witness for `who_is_notified_stays_so_until_its_resume`.
pub fn who_is_notified_can_be_left_waiting()
    ensures { (xs : List (ℕ × StepMade)) × (before after : List PlainObject) × IsInLimits rivals.shape
        × IsReachable rivals (world_of rivals notifies) × Leads (world_of rivals notifies) xs (world_of rivals leaves)
        × AreAfterLogs (world_of rivals notifies) before × AreAfterLogs (world_of rivals leaves) after
        × (is_listed (notified_at before 0) 0 ≡ true)
        × (owner_at before 0 1 ≡ true) × (owner_at after 0 1 ≡ false)
        × (resumes_of 0 ((world_of rivals leaves).known 0).log
        ≡ resumes_of 0 ((world_of rivals notifies).known 0).log) }
{}
