//! Laws of the steps that store and clear a hold word.

ghost use Rattle.std.specs.Prelude.{ℕ};
ghost use Rattle.plain_monitor.specs.declared.entry.Path.{Path};
ghost use Rattle.core_world.specs.Trees.LockSteps.{hold_plan, clear_plan};
ghost use Rattle.core_world.specs.Trees.Plans.{CallContext};
ghost use Rattle.core_locks.specs.LockLaws.{MayHold, MayClear};
ghost use Rattle.core_locks.specs.Knowing.{KeepsValid};

/// A running thread's store of a hold word in one of its empty places keeps every valid world valid, with the same plain objects: the
/// Enter is yet to be logged. The thread comes to it in five ways: it exchanged the neutral mark for that place; it holds the object
/// and stored the displaced word 0; it exchanged the free owner word and stored the displaced word 3; it holds the object, raised
/// the recursions of its monitor and stored the displaced word 3; or the object is validly biased to it, by a bias that it has just
/// given itself or that it found.
pub fn storing_a_hold_word_keeps_the_world_valid()
    // The heap has the thread. `MayHold`: the place, the depth and the object are by the definition of the steps, and so is what the
    // call leaves unfinished; the stage, the hold words, the waiting word and the displaced word are what the thread itself stored;
    // an enter that raised the recursions saw the mark inflated and itself the owner in this call, and one under a bias saw or stored the
    // mark and saw the prototype.
    ensures { (e : CallContext) (o d p : ℕ) (path : Path)
        → KeepsValid (λ w t. MayHold w.shape (w.known t) e o d p) (λ w t. hold_plan e t o d p path) }
{}

/// A running thread's clearing of its last hold word of an object, after the step that logged its Exit, keeps every valid world valid,
/// with the same plain objects.
pub fn clearing_a_hold_word_keeps_the_world_valid()
    // The heap has the thread. `MayClear`: the stage is from the step that logged the Exit, the hold words are what the thread itself
    // stored, and what the call leaves unfinished is by the definition of the steps.
    ensures { (e : CallContext) (o p : ℕ)
        → KeepsValid (λ w t. MayClear (w.known t) e o p) (λ w t. clear_plan e t p) }
{}
