//! Laws of the steps: each keeps the law of biases, in a world that meets it and of which the other clauses hold.

ghost use Rattle.std.specs.Prelude.{◌≡◌, ℕ, ◌<◌, Bool, false, List, []};
ghost use Rattle.plain_monitor.specs.declared.entry.Entry.TheVariants.{Enter};
ghost use Rattle.plain_monitor.specs.declared.entry.Logged.{Logged};
ghost use Rattle.plain_monitor.specs.declared.entry.Path.{Path};
ghost use Rattle.plain_monitor.specs.Objects.{PlainObject};
ghost use Rattle.core_world.specs.declared.act.Act.TheVariants.{Load, CompareExchange};
ghost use Rattle.core_world.specs.declared.word_id.WordId.{WordId};
ghost use Rattle.core_world.specs.declared.word_id.WordId.TheVariants.{Mark, Stamp};
ghost use Rattle.core_world.specs.declared.plan.StepPlan.{StepPlan};
ghost use Rattle.core_world.specs.Words.Acts.{word_after, hits};
ghost use Rattle.core_world.specs.Trees.BiasSteps.{stage_after, rebias_plan, unbias_plan};
ghost use Rattle.core_world.specs.Trees.SafepointSteps.{release_plan};
ghost use Rattle.core_world.specs.Words.Forms.{is_biased};
ghost use Rattle.core_world.specs.Threads.ThreadView.{ThreadView};
ghost use Rattle.core_world.specs.Locks.{marks};
ghost use Rattle.core_world.specs.Trees.Plans.{CallContext, logging_plan};
ghost use Rattle.core_world.specs.Steps.{world_after};
ghost use Rattle.core_world.specs.Valid.{Fits, IsRevoking};
ghost use Rattle.core_world.specs.World.{World, with_word_and_known};
ghost use Rattle.core_locks.specs.JournalLaws.{MayLogEnter};
ghost use Rattle.core_world.specs.Trees.LockSteps.{hold_plan};
ghost use Rattle.core_world.specs.Trees.Plans.{load_plan};
ghost use Rattle.core_law.specs.BiasLaw.{BiasLawHolds};
ghost use Rattle.bias_law.specs.Steps.{LeavesBiases, IsBeside, MayComeBy, MayTakeBias, MayDropBias, LogsBeside, LeavesObject, MayEndRevocation};

/// An exchange that finds another word than it expects keeps the law of biases, of whatever word.
pub fn a_miss_keeps_the_law_of_biases()
    ensures { (w : World) (t : ℕ) (p : StepPlan) → hits p.act (w.words p.at) ≡ false → BiasLawHolds w
        → BiasLawHolds (world_after p t w) }
{}

/// A step that logs and counts nothing, leaves the biases, and after which its thread is about to log the Enter that it was about to
/// log, keeps the law of biases. An exchange of a mark leaves them where neither the mark that it expects nor the one that it puts
/// there has the bias pattern, whether it hits or misses.
pub fn a_step_beside_the_biases_keeps_the_law_of_biases()
    ensures keeps { (w : World) (t : ℕ) (p : StepPlan) → IsBeside w t p → BiasLawHolds w
        → BiasLawHolds (world_after p t w) }
    ensures exchange { (w : World) (o expected word : ℕ) → is_biased expected ≡ false → is_biased word ≡ false
        → LeavesBiases w (Mark o) (word_after (CompareExchange expected word) (marks w o)) }
{}

/// The store of a hold word, with which a thread comes to be about to log an Enter, keeps the law of biases, by whatever path.
pub fn storing_a_hold_word_keeps_the_law_of_biases()
    ensures { (w : World) (objects : List PlainObject) (t : ℕ) (e : CallContext) (o d p : ℕ) (path : Path)
        → t < w.shape.threads
        → MayComeBy w.biasing w.shape (w.known t) e o p path → Fits w objects → BiasLawHolds w
        → BiasLawHolds (world_after (hold_plan e t o d p path) t w) }
{}

/// A step that logs an entry and leaves the biases keeps the law of biases, whatever the entry is but a New: from that on its object
/// is there, and has to have a mark as the law asks.
pub fn logging_an_entry_keeps_the_law_of_biases()
    ensures { (w : World) (objects : List PlainObject) (at : WordId) (v t : ℕ) (y : Logged) (l : ThreadView)
        → LogsBeside w at v t y l
        → Fits w objects → BiasLawHolds w → BiasLawHolds (with_word_and_known at v t l w) }
{}

/// A load of a stamp that logs an Enter keeps the law of biases, of whatever path.
pub fn logging_an_enter_keeps_the_law_of_biases()
    ensures { (w : World) (objects : List PlainObject) (t : ℕ) (e : CallContext) (o p : ℕ) (path : Path)
        → t < w.shape.threads
        → MayLogEnter w.shape (w.known t) o p path → Fits w objects → BiasLawHolds w
        → BiasLawHolds (world_after (logging_plan (Enter o path) e (Stamp o) Load) t w) }
{}

/// An exchange of a mark that is validly biased to nobody, anonymous or stale, for the bias to the thread itself keeps the law of
/// biases, whether it hits or misses.
pub fn taking_a_bias_keeps_the_law_of_biases()
    ensures { (w : World) (objects : List PlainObject) (t : ℕ) (e : CallContext) (o mark prototype epoch : ℕ)
        → t < w.shape.threads
        → MayTakeBias w.shape (w.known t) e o mark prototype epoch → Fits w objects → BiasLawHolds w
        → BiasLawHolds (world_after (rebias_plan e t o mark epoch) t w) }
{}

/// An exchange of such a mark for one without the bias pattern keeps the law of biases, whether it hits or misses: in a class that was
/// revoked in bulk, for a hash of the object, or by a thread that holds it (no such mark is free then).
pub fn dropping_a_bias_keeps_the_law_of_biases()
    ensures { (w : World) (objects : List PlainObject) (t : ℕ) (e : CallContext) (o mark prototype neutral : ℕ)
        → t < w.shape.threads
        → MayDropBias w.shape (w.known t) e o mark prototype neutral → Fits w objects → BiasLawHolds w
        → BiasLawHolds (world_after (unbias_plan e o mark neutral) t w) }
{}

/// All stores of a revocation together leave of its object no bias pattern, or a valid bias of the revocation's thread, which then holds
/// nothing of the object.
pub fn a_revocation_leaves_no_bias_or_its_own()
    ensures { (w : World) (objects : List PlainObject) (s : IsRevoking w objects) → s.rest ≡ []
        → LeavesObject w s.requester s.revocation.object (is_biased (marks w s.revocation.object)) }
{}

/// The release that ends a revocation, all of whose stores are made, or a load at the same safepoint that does: where the law of biases held of the
/// world before the first store, it holds of the world after that step, with the verdict counted. No tree makes that release (`core_bias`,
/// `the_release_ends_the_revocation`).
pub fn ending_a_revocation_keeps_the_law_of_biases()
    ensures released { (w : World) (objects : List PlainObject) (s : IsRevoking w objects) (e : CallContext) (took : Bool)
        → MayEndRevocation w objects s e took
        → BiasLawHolds s.before → BiasLawHolds
        (world_after (release_plan e (stage_after took s.revocation.object) s.requester) s.requester w) }
    ensures looked { (w : World) (objects : List PlainObject) (s : IsRevoking w objects) (e : CallContext) (took : Bool) (at : WordId)
        → MayEndRevocation w objects s e took
        → BiasLawHolds s.before → BiasLawHolds
        (world_after (load_plan e (stage_after took s.revocation.object) at) s.requester w) }
{}
