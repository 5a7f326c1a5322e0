//! The law of biases stays by the two stores that make an object.

ghost use Rattle.std.specs.Prelude.{◌≡◌, ℕ, ◌+◌, ◌<◌, true, List, length};
ghost use Rattle.plain_monitor.specs.declared.entry.Entry.TheVariants.{New};
ghost use Rattle.plain_monitor.specs.Objects.{PlainObject};
ghost use Rattle.core_world.specs.declared.word_id.WordId.TheVariants.{Class, Prototype};
ghost use Rattle.core_world.specs.declared.stage.Stage.TheVariants.{Settled};
ghost use Rattle.core_world.specs.Clauses.Lengths.{log_limit};
ghost use Rattle.core_world.specs.Steps.{world_after};
ghost use Rattle.core_world.specs.Trees.CreateSteps.{class_plan, make_plan};
ghost use Rattle.core_world.specs.Trees.Plans.{CallContext};
ghost use Rattle.core_world.specs.Valid.{Fits};
ghost use Rattle.core_world.specs.World.{World};
ghost use Rattle.core_locks.specs.Knowing.{GoesOn, WorksFor};
ghost use Rattle.core_law.specs.BiasLaw.{BiasLawHolds};
ghost use Rattle.bias_law.specs.Making.{IsUntouched, OthersAreEven};

/// A thread in the middle of nothing stores the class word of an object of which no log tells, whose mark has no bias pattern, and
/// which nobody holds: the law of biases says nothing of such an object's class.
pub fn storing_a_class_word_keeps_the_law_of_biases()
    ensures { (e : CallContext) (o c : ℕ) (w : World) (objects : List PlainObject) (t : ℕ) → t < w.shape.threads
        → (w.known t).stage ≡ Settled → GoesOn (w.known t) e → IsUntouched w o → Fits w objects → BiasLawHolds w
        → BiasLawHolds (world_after (class_plan e o c) t w) }
{}

/// A running thread in the middle of nothing stores the first mark of such an object, which has its class word, and logs its New.
/// The mark is the class's prototype: so it is anonymous where the class wasn't revoked in bulk, as the law asks of an object that
/// is there and was never entered. No other thread that has something unfinished on the object may have counted a verdict beyond
/// its entries: the law asks such a thread for a mark without the bias pattern.
pub fn storing_a_first_mark_keeps_the_law_of_biases()
    ensures { (e : CallContext) (o c m : ℕ) (w : World) (objects : List PlainObject) (t : ℕ) → t < w.shape.threads
        → (w.known t).running ≡ true → (w.known t).stage ≡ Settled → WorksFor (w.known t) (New o c)
        → length (w.known t).log < log_limit → IsUntouched w o → OthersAreEven w t o
        → w.words (Class o) ≡ c + 1 → w.words (Prototype c) ≡ m → Fits w objects → BiasLawHolds w
        → BiasLawHolds (world_after (make_plan e o c m) t w) }
{}
