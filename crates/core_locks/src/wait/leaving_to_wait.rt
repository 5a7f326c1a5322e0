//! The law of the step by which a thread leaves to wait: it logs its Wait, and its monitor is yet to be let go.

ghost use Rattle.std.specs.Prelude.{ℕ};
ghost use Rattle.plain_monitor.specs.declared.entry.Entry.TheVariants.{Wait};
ghost use Rattle.core_world.specs.Threads.ThreadView.{local_of};
ghost use Rattle.core_world.specs.Trees.Plans.{CallContext, next_stamp};
ghost use Rattle.core_world.specs.Trees.WaitSteps.{log_wait_plan};
ghost use Rattle.core_locks.specs.JournalLaws.{MayWait};
ghost use Rattle.core_locks.specs.Knowing.{LogsValid};

/// A running thread that holds an object stores in its waiting word that it waits there, with the stamp of its next entry, and so
/// logs its Wait. The plain objects take the entry: the thread owns the object no more, and stands last among those who wait. The
/// thread goes on to have the object's lock and its hold words, and its wait unfinished.
// The step is that of `log_wait_steps`, which `monitor_wait_steps` makes after it has raised the stamp, for thread t of the heap.
// Of `MayWait`, by the definition of the steps: `waits`, since the call is a wait on o, and `object`, which is the call's.
// By what the steps before found or left, as the thread has seen it in this call: `inflated` (the mark that led to m), `owner`
// (loaded, or stored by `own_steps`), `recursions` (loaded, and kept as `saved`), `stamped` and `high` (the raise). By what the
// thread keeps of itself: `runs`, `calm`, `ready`, `holds`, `goes_on` (those steps left the wait unfinished) and `room`.
pub fn logging_a_wait_keeps_the_world_valid()
    ensures { (e : CallContext) (o m stamp : ℕ)
        → LogsValid (λ w t. MayWait w.shape (w.known t) e o m stamp)
        (λ w t. log_wait_plan e t o (next_stamp (local_of (w.known t)))) (Wait o) }
{}
