//! Laws of the steps that give a lock record its header and make a neutral mark name it. The functions do nothing.

ghost use Rattle.std.specs.Prelude.{ℕ};
ghost use Rattle.core_world.specs.Trees.LockSteps.{displace_plan, seize_plan};
ghost use Rattle.core_world.specs.Trees.Plans.{CallContext};
ghost use Rattle.core_locks.specs.LockLaws.{MayDisplace, MaySeize};
ghost use Rattle.core_locks.specs.Knowing.{KeepsValid};

/// A thread that stores a displaced word at a free place of its own, for which it has exchanged no mark, keeps the world valid, with
/// the same plain objects. It stands where it stood: an enter that has taken the monitor, or raised the recursions, goes on.
// `t < w.shape.threads`, where the thread stands and what is unfinished come from the definition of the steps, all else from the thread's
// own knowledge.
pub fn storing_a_displaced_word_keeps_the_world_valid()
    ensures { (e : CallContext) (p word : ℕ)
        → KeepsValid (λ w t. MayDisplace (w.known t) e p) (λ w t. displace_plan e (w.known t).stage t p word) }
{}

/// A thread that exchanges the neutral mark of an object for its place, where it has stored that mark as the displaced word, keeps
/// the world valid, with the same plain objects, whether the exchange hits or misses. Where it hits, the lock rests on that place.
// `t < w.shape.threads`, the mark that is expected and what is unfinished come from the definition of the steps. That the mark is neutral is
// tested, but for its age, which is 0 in each mark that was loaded in a valid world; all else is of the thread's own knowledge.
pub fn exchanging_a_neutral_mark_keeps_the_world_valid()
    ensures { (e : CallContext) (o mark p : ℕ)
        → KeepsValid (λ w t. MaySeize (w.known t) e o mark p) (λ w t. seize_plan e t o mark p) }
{}
