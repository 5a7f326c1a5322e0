//! What follows for a run.

ghost use Rattle.std.specs.Prelude.{◌≡◌, ℕ, List, None};
ghost use Rattle.plain_monitor.specs.Objects.{PlainObject};
ghost use Rattle.core_world.specs.declared.word_id.WordId.TheVariants.{Revocations};
ghost use Rattle.core_world.specs.declared.heap_call.Operation.TheVariants as op;
ghost use Rattle.core_world.specs.Clauses.Safepoints.{IsUnfinished};
ghost use Rattle.core_world.specs.Words.Names.{class_by};
ghost use Rattle.core_world.specs.Valid.{Fits};
ghost use Rattle.core_world.specs.World.{World, logs};
ghost use Rattle.core_law.specs.BiasLaw.{BiasLawHolds, is_logged};
ghost use Rattle.core_law.specs.OfARun.{BiasesOfRun, VerdictsAtMost};

/// Where no thread has anything unfinished, the law of biases of the world gives the law of biases of the run: over its logs, the
/// verdicts that its threads counted, and the counts of its classes alone; and each thread has counted at most as many verdicts as it
/// has entries. In a run that got stuck, threads may have an Enter or a Wait unfinished. The same holds, where no Hash is, with at most
/// one verdict more for each thread.
pub fn the_law_of_biases_holds_of_runs()
    ensures ended { (w : World) (objects : List PlainObject) → Fits w objects → BiasLawHolds w
        → ((t : ℕ) → (w.known t).unfinished ≡ None)
        → BiasesOfRun w.biasing w.shape.threads (is_logged w.shape (logs w)) (class_by w.shape w.words) (logs w)
        (λ c. w.words (Revocations c)) (λ t. (w.known t).counts)
        × VerdictsAtMost 0 w.shape.threads w.shape.classes (logs w) (λ t. (w.known t).counts) }
    ensures stuck { (w : World) (objects : List PlainObject) → Fits w objects → BiasLawHolds w
        → ((t o : ℕ) → IsUnfinished (w.known t).unfinished op.Hash o → ⊥)
        → BiasesOfRun w.biasing w.shape.threads (is_logged w.shape (logs w)) (class_by w.shape w.words) (logs w)
        (λ c. w.words (Revocations c)) (λ t. (w.known t).counts)
        × VerdictsAtMost 1 w.shape.threads w.shape.classes (logs w) (λ t. (w.known t).counts) }
{}
