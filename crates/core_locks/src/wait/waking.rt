//! Laws of the steps by which an owner tells those who wait.

ghost use Rattle.std.specs.Prelude.{ℕ, ◌+◌, Some};
ghost use Rattle.plain_monitor.specs.declared.entry.Entry.TheVariants.{Notify, NotifyAll};
ghost use Rattle.core_world.specs.Trees.Plans.{CallContext};
ghost use Rattle.core_world.specs.Trees.WaitSteps.{wake_next_plan, notify_plan, notify_all_plan};
ghost use Rattle.core_locks.specs.Knowing.{KeepsValid, LogsValid};
ghost use Rattle.core_locks.specs.WakeLaws.{MayWakeNext, MayNotify, MayNotifyAll};

/// An owner that tells all who wait on its object stores in the waiting word of the oldest that it was notified. The world stays valid, with
/// the same plain objects: it logs its NotifyAll with the last.
pub fn telling_one_of_several_keeps_the_world_valid()
    ensures { (e : CallContext) (o u n : ℕ)
        → KeepsValid (λ w t. MayWakeNext w.shape (w.known t) e o u n) (λ w t. wake_next_plan e o u (n + 1)) }
{}

/// An owner stores in the waiting word of the oldest who waits on its object that it was notified, and so logs its Notify. The world stays
/// valid, and its plain objects take the entry: that one was notified.
// That what it has unfinished, if anything, is this notify (`own_entry`), is by the definition of the steps; so of the next law.
pub fn logging_a_notify_keeps_the_world_valid()
    ensures { (e : CallContext) (o u : ℕ)
        → LogsValid (λ w t. MayNotify w.shape (w.known t) o u) (λ w t. notify_plan e o u) (Notify o (Some u)) }
{}

/// An owner that has told n stores in the waiting word of the last who waits on its object that it was notified, and so logs its NotifyAll of
/// n and one. The world stays valid, and its plain objects take the entry: all of them were notified.
pub fn logging_a_notify_all_keeps_the_world_valid()
    ensures { (e : CallContext) (o u n : ℕ)
        → LogsValid (λ w t. MayNotifyAll w.shape (w.known t) o u n)
        (λ w t. notify_all_plan e o u (n + 1)) (NotifyAll o (n + 1)) }
{}
