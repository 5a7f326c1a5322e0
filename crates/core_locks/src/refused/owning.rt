//! Laws of steps on the owner and the recursions of a monitor that lead to no valid world. The functions do nothing.

ghost use Rattle.std.specs.Prelude.{◌≡◌, ◌≢◌, ℕ, ◌+◌, ◌<◌, ◌||◌, true, false, Some};
ghost use Rattle.plain_monitor.specs.declared.entry.Entry.{Entry};
ghost use Rattle.core_world.specs.declared.act.Act.{Act};
ghost use Rattle.core_world.specs.declared.word_id.WordId.{WordId};
ghost use Rattle.core_world.specs.declared.word_id.WordId.TheVariants.{Safepoint, Mark, Recursions};
ghost use Rattle.core_world.specs.declared.stage.Stage.{Stage};
ghost use Rattle.core_world.specs.declared.stage.Stage.TheVariants.{Settled, RecursionsRaised};
ghost use Rattle.core_world.specs.Words.Acts.{hits};
ghost use Rattle.core_world.specs.Words.Forms.{monitor_in};
ghost use Rattle.core_world.specs.Locks.{owner_at};
ghost use Rattle.core_world.specs.Trees.MonitorSteps.{free_plan};
ghost use Rattle.core_world.specs.Trees.Plans.{CallContext};
ghost use Rattle.core_world.specs.Threads.Stages.{bears};
ghost use Rattle.core_world.specs.Steps.{world_after};
ghost use Rattle.core_world.specs.Valid.{Valid};
ghost use Rattle.core_world.specs.Trees.WaitSteps.{quit_plan};
ghost use Rattle.core_world.specs.World.{World};
ghost use Rattle.core_locks.specs.OwnersEntries.{is_by_owner};
ghost use Rattle.core_locks.specs.RefusedPlans.{store_owner_plan, store_recursions_plan, log_entry_plan};

/// A running thread that stores itself as the owner while another thread is the plain owner, or is taking the object: so of two
/// threads that would take one free monitor by stores, the second can't.
pub fn no_second_owner()
    ensures { (w : World) (o m t u : ℕ) (e : CallContext) (s : Stage) (v : Valid w) → (w.known t).running ≡ true → u ≢ t
        → monitor_in (w.words (Mark o)) ≡ Some m → (owner_at v.objects o u || bears (w.known u).stage o) ≡ true
        → Valid (world_after (store_owner_plan e s t m) t w) → ⊥ }
{}

/// An owner that stores one recursion more, from the middle of nothing, and isn't about to store the hold word that it counts.
pub fn no_recursion_without_a_hold()
    ensures { (w : World) (o m t : ℕ) (e : CallContext) (s : Stage) (v : Valid w) → (w.known t).running ≡ true
        → (w.known t).stage ≡ Settled
        → monitor_in (w.words (Mark o)) ≡ Some m → owner_at v.objects o t ≡ true → s ≢ RecursionsRaised o
        → Valid (world_after (store_recursions_plan e s m (w.words (Recursions m) + 1)) t w) → ⊥ }
{}

/// A running thread that frees the owner word while recursions are left, and logs its Exit with that, or lets go in a wait.
pub fn no_free_monitor_with_recursions()
    ensures exit { (w : World) (o m t p : ℕ) (e : CallContext) → (w.known t).running ≡ true
        → monitor_in (w.words (Mark o)) ≡ Some m
        → 0 < w.words (Recursions m) → Valid (world_after (free_plan e o m p) t w) → ⊥ }
    ensures wait { (w : World) (o m t : ℕ) (e : CallContext) → (w.known t).running ≡ true
        → monitor_in (w.words (Mark o)) ≡ Some m
        → 0 < w.words (Recursions m) → Valid (world_after (quit_plan e m) t w) → ⊥ }
{}

/// A running thread that logs an Exit, Wait, Notify, NotifyAll, Get or Put of an object of which it isn't the plain owner, whatever
/// word the step is on but the safepoint's, and wherever in the order its stamp puts the entry.
pub fn no_entry_without_the_lock()
    ensures { (w : World) (o t : ℕ) (at : WordId) (act : Act) (entry : Entry) (e : CallContext) (s : Stage)
        (v : Valid w) → (w.known t).running ≡ true
        → at ≢ Safepoint → hits act (w.words at) ≡ true → is_by_owner o entry ≡ true → owner_at v.objects o t ≡ false
        → Valid (world_after (log_entry_plan e s entry at act) t w) → ⊥ }
{}
