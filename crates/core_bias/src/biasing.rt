//! Laws of the steps of a running thread on the bias of an object: loading its class's prototype, and exchanging a mark that is anonymous or
//! stale. The functions do nothing.

ghost use Rattle.std.specs.Prelude.{ℕ};
ghost use Rattle.core_world.specs.declared.word_id.WordId.TheVariants.{Prototype};
ghost use Rattle.core_world.specs.Trees.BiasSteps.{rebias_plan, unbias_plan};
ghost use Rattle.core_world.specs.Trees.Plans.{CallContext, load_plan};
ghost use Rattle.core_bias.specs.Biasing.{MayUnbias, MayRebias};
ghost use Rattle.core_locks.specs.Knowing.{KeepsValid};
ghost use Rattle.core_locks.specs.LoadLaws.{MayLoad};

/// A load of a prototype keeps the world valid, of a thread that runs, or that knows its safepoint to be reached.
pub fn a_load_of_a_prototype_keeps_the_world_valid()
    ensures { (e : CallContext) (c : ℕ)
        → KeepsValid (λ w t. MayLoad (w.known t) e) (λ w t. load_plan e (w.known t).stage (Prototype c)) }
{}

/// A thread that exchanges an anonymous or stale mark for its own bias, in the epoch of the object's class, keeps the world valid, with
/// the same plain objects, whether the exchange hits or misses. Where it hits, the thread stands in the middle of taking the object.
pub fn exchanging_for_its_own_bias_keeps_the_world_valid()
    // `MayRebias`: where the thread stands and what is unfinished come from the definition of the steps, and so do the expected mark, which the
    // steps have tested, and the prototype, which they loaded in this call. Whether the object still has that mark, the exchange tells
    ensures { (e : CallContext) (o mark epoch : ℕ)
        → KeepsValid (λ w t. MayRebias w.shape (w.known t) e o mark epoch) (λ w t. rebias_plan e t o mark epoch) }
{}

/// A thread that exchanges an anonymous or stale mark for a neutral one keeps the world valid, with the same plain objects, whether
/// the exchange hits or misses.
pub fn dropping_a_bias_keeps_the_world_valid()
    // `MayUnbias`: as for the own bias
    ensures { (e : CallContext) (o mark neutral : ℕ)
        → KeepsValid (λ w t. MayUnbias w.shape (w.known t) e o mark neutral) (λ w t. unbias_plan e o mark neutral) }
{}
