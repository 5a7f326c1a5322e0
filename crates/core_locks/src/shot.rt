//! The law of the load with which a dump keeps its shot, what every valid world says of the shots that were kept, and shots that no
//! valid world has. The functions do nothing.

ghost use Rattle.std.specs.Prelude.{◌≡◌, ◌≢◌, ◌<◌, ◌≤◌, ◌++◌, ℕ, false, List, [], ◌∷◌, length, take, slice_get, slice_index, Some, None, IsTrue};
ghost use Rattle.std.specs.List.{AllByRecursion};
ghost use Rattle.plain_monitor.specs.declared.entry.Logged.{Logged};
ghost use Rattle.plain_monitor.specs.History.{objects_after};
ghost use Rattle.plain_monitor.specs.Objects.{PlainObject};
ghost use Rattle.plain_monitor.specs.Order.{is_before};
ghost use Rattle.plain_history.specs.Cuts.{cut_logs};
ghost use Rattle.plain_history.specs.Tied.{is_tied};
ghost use Rattle.core_world.specs.Threads.ThreadView.{ThreadView};
ghost use Rattle.core_world.specs.Locks.{monitor_of};
ghost use Rattle.core_world.specs.Trees.LookSteps.{keep_shot_plan, take_shot_steps};
ghost use Rattle.core_world.specs.Trees.Plans.{CallContext};
ghost use Rattle.core_world.specs.Words.Shape.{Shape};
ghost use Rattle.core_world.specs.Shots.{ShotsFit, cell_in};
ghost use Rattle.core_world.specs.Steps.{world_after, shot_of, owner_and_count_in, seen_words};
ghost use Rattle.core_world.specs.Valid.{IsValid, Valid};
ghost use Rattle.core_world.specs.World.{World, logs};
ghost use Rattle.core_locks.specs.Knowing.{KeepsValid};
ghost use Rattle.core_locks.specs.ShotLaws.{SawAll, SawSteps, MayKeepShot, shot_looks, looks_and_shot, IsShotOfWorld, enters};

/// The thread whose safepoint is reached, and which has seen since then all that a dump looks at, loads the safepoint word once more
/// and keeps its shot. The world stays valid, with the same plain objects; the thread has one shot more, which is made of what it saw;
/// and that is the shot of the world as it is. Its cut is the length of each log, published or not, and its cells are the plain owner
/// and count of each object.
// The thread knows of itself that its safepoint is reached, that it stands in the middle of nothing, that a dump is what it has
// unfinished, and that its log has as many dumps as it keeps shots. What it has seen are the words that its looks loaded. That the step
// goes on is by the plan of its call.
pub fn keeping_a_shot_keeps_the_world_valid()
    ensures valid { (e : CallContext)
        → KeepsValid (λ w t. MayKeepShot w.shape (w.known t) e) (λ w t. keep_shot_plan e) }
    ensures keeps { (w : World) (t : ℕ) (e : CallContext)
        → ((world_after (keep_shot_plan e) t w).known t).shots ≡ (w.known t).shots ++ shot_of w.shape (w.known t) ∷ [] }
    ensures shows { (w : World) (objects : List PlainObject) (t : ℕ) (e : CallContext) → t < w.shape.threads
        → MayKeepShot w.shape (w.known t) e
        → IsValid w objects → IsShotOfWorld w objects (shot_of w.shape (w.known t)) }
{}

/// A dump's looks are the steps before the load that keeps its shot, and by them the thread has seen all that it has to, where the
/// tree goes on by what the thread saw last since its safepoint was reached. (There a word that is loaded twice is found as it was.)
pub fn the_looks_of_a_dump_see_all()
    ensures first { (e : CallContext) (s : Shape) → take_shot_steps e s ≡ looks_and_shot e s }
    ensures see { (k : ThreadView) (e : CallContext) (s : Shape) → SawSteps (shot_looks e s) k (λ x. Unit {0}) → SawAll s k }
{}

/// In every valid world, also while a bias is being revoked, each shot that a thread keeps is right over the logs as they are: the logs
/// as it cuts them are legal, and its cells are the owners and counts after them. It has its place among its thread's shots as its
/// number, and stands for the dump with that number, before which its own cut ends; only a last one may have no entry yet, while its
/// dump is unfinished. And of any two shots of any threads, one cuts each log no later than the other.
pub fn each_shot_is_right()
    ensures { (w : World) (objects : List PlainObject) → IsValid w objects
        → ShotsFit w.shape.objects (logs w) (λ t. (w.known t).log) (λ t. (w.known t).shots)
        (λ t. (w.known t).unfinished) }
{}

/// A thread that keeps a shot which shows thread u as the owner of an object, though u's log has no Enter of that object as far as the
/// shot cuts it. That leads to no valid world, whatever plain objects one takes: so a shot can't be kept while u runs, which has taken
/// the lock, and hasn't published its Enter. Nothing is asked of the world before.
pub fn no_shot_of_an_owner_without_its_enter()
    ensures { (w : World) (t u o : ℕ) (e : CallContext) → u < w.shape.threads → o < length w.shape.objects
        → (owner_and_count_in w.shape (seen_words (w.known t)) o).0 ≡ Some u
        → AllByRecursion (λ l. enters o l.entry ≡ false)
        (take (slice_index (shot_of w.shape (w.known t)).cut u) (w.known u).log)
        → Valid (world_after (keep_shot_plan e) t w) → ⊥ }
{}

/// A thread that keeps a shot which shows an object with another owner or count than it has after the logs as the shot itself cuts them,
/// or whose cut of the logs is no history. So a shot can't be kept while a thread runs that exits, and publishes its Exit, between the load
/// of the mark and that of its length. Nothing is asked of the world before.
pub fn no_shot_that_differs_from_its_cut()
    ensures shown { (w : World) (objects : List PlainObject) (t o : ℕ) (e : CallContext) → o < length w.shape.objects
        → objects_after w.shape.objects (cut_logs (shot_of w.shape (w.known t)).cut (logs w)) ≡ Some objects
        → owner_and_count_in w.shape (seen_words (w.known t)) o ≢ cell_in (monitor_of objects o)
        → Valid (world_after (keep_shot_plan e) t w) → ⊥ }
    ensures cut { (w : World) (t : ℕ) (e : CallContext)
        → objects_after w.shape.objects (cut_logs (shot_of w.shape (w.known t)).cut (logs w)) ≡ None
        → Valid (world_after (keep_shot_plan e) t w) → ⊥ }
{}

/// A thread that keeps a shot which leaves out an entry of thread v, as it cuts that log, though the entry stands before one of thread u that it
/// has, and is tied to it. So a shot can't be kept that looks at its own thread's log alone, where another thread had one of its objects before.
/// Nothing is asked of the world before.
pub fn no_shot_that_leaves_out_an_earlier_entry()
    ensures { (w : World) (t u v i j : ℕ) (e : CallContext) (l m : Logged) → u < w.shape.threads → v < w.shape.threads
        → slice_get (w.known u).log i ≡ Some l → i < slice_index (shot_of w.shape (w.known t)).cut u
        → slice_get (w.known v).log j ≡ Some m → slice_index (shot_of w.shape (w.known t)).cut v ≤ j
        → IsTrue (is_tied l.entry m.entry) → IsTrue (is_before (v, m) (u, l))
        → Valid (world_after (keep_shot_plan e) t w) → ⊥ }
{}
