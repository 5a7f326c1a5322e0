//! Laws of the steps on stamps and on a thread's own waiting word, but for the one that logs its Wait.

ghost use Rattle.std.specs.Prelude.{ℕ};
ghost use Rattle.core_world.specs.Threads.ThreadView.{local_of};
ghost use Rattle.core_world.specs.Trees.LockSteps.{raise_stamp_plan, store_ready_plan};
ghost use Rattle.core_world.specs.Trees.MonitorSteps.{store_entering_plan};
ghost use Rattle.core_world.specs.Trees.Operations.{store_ended_plan};
ghost use Rattle.core_world.specs.Trees.Plans.{CallContext, next_stamp};
ghost use Rattle.core_locks.specs.JournalLaws.{MayRaise, MayBeReady, MayStand, MayEnd};
ghost use Rattle.core_locks.specs.Knowing.{KeepsValid};

/// A thread that holds an object, and is beginning to wait on it, or exiting it where it has one hold of it, raises the object's stamp
/// to that of its next entry. That the thread is one of the heap's, and that the call is a wait, or an exit that raises only then,
/// and goes on with what is unfinished, comes from the definition of the steps; the other premises of `MayRaise` are of the thread's own knowledge.
pub fn raising_a_stamp_keeps_the_world_valid()
    ensures { (e : CallContext) (o : ℕ)
        → KeepsValid (λ w t. MayRaise (w.known t) e o)
        (λ w t. raise_stamp_plan e o (next_stamp (local_of (w.known t)))) }
{}

/// A thread that has taken an object in an enter, or again at the end of a wait, says that it is ready, and stands where it stood.
/// That the thread is one of the heap's, and that the call goes on with what is unfinished, comes from the definition of the steps;
/// the other premises of `MayBeReady` are of the thread's own knowledge.
pub fn storing_ready_keeps_the_world_valid()
    ensures { (e : CallContext)
        → KeepsValid (λ w t. MayBeReady (w.known t) e) (λ w t. store_ready_plan e (w.known t).stage t) }
{}

/// A thread that has seen an object inflated says that it enters it. That the thread and the object are the heap's, and that the
/// call is the enter that is unfinished, comes from the definition of the steps; the other premises of `MayStand` are of the
/// thread's own knowledge.
pub fn storing_entering_keeps_the_world_valid()
    ensures { (e : CallContext) (o m : ℕ)
        → KeepsValid (λ w t. MayStand w.shape (w.known t) e o m) (λ w t. store_entering_plan e t o) }
{}

/// A thread whose log has its ending entry, and that has nothing unfinished, says that it has ended. That the thread is one of the
/// heap's, and that the call goes on with what is unfinished, comes from the definition of the steps; the other premises of
/// `MayEnd` are of the thread's own knowledge.
pub fn storing_ended_keeps_the_world_valid()
    ensures { (e : CallContext) → KeepsValid (λ w t. MayEnd (w.known t) e) (λ w t. store_ended_plan e t) }
{}
