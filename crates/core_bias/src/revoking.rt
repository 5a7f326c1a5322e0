//! Laws of a revocation of biases at a safepoint: as a whole, and of each of its steps that changes a word or ends it. Loads in its middle are
//! looks by `core_world`'s law. The functions do nothing.

ghost use Rattle.std.specs.Prelude.{◌≡◌, ℕ, ◌<◌, ◌++◌, Bool, true, List, [], Some};
ghost use Rattle.lock_policy.specs.declared.policy.Verdict.{Verdict};
ghost use Rattle.plain_monitor.specs.Objects.{PlainObject};
ghost use Rattle.core_world.specs.declared.word_id.WordId.{WordId};
ghost use Rattle.core_world.specs.declared.plan.LocalEffect.TheVariants as own;
ghost use Rattle.core_world.specs.declared.act.Act.TheVariants.{Store};
ghost use Rattle.core_world.specs.declared.plan.StepPlan.{StepPlan};
ghost use Rattle.core_world.specs.Words.Forms.{is_biased};
ghost use Rattle.core_world.specs.Threads.ThreadView.{ThreadView, StepMade};
ghost use Rattle.core_world.specs.Locks.{marks};
ghost use Rattle.core_world.specs.Trees.Plans.{CallContext, load, load_plan};
ghost use Rattle.core_world.specs.RevocationRules.{writes_in};
ghost use Rattle.core_world.specs.Trees.RevocationSteps.{RevocationOutcome, revoke_at_safepoint_steps, revoke_plan};
ghost use Rattle.core_world.specs.Words.Shape.{Shape};
ghost use Rattle.core_world.specs.Words.Names.{class_by};
ghost use Rattle.core_world.specs.Threads.Stages.{Revocation, revocation_in};
ghost use Rattle.core_world.specs.Steps.{world_after};
ghost use Rattle.core_world.specs.Trees.StepTree.{StepTree, done, step};
ghost use Rattle.core_world.specs.Valid.{Fits, IsRevoking, RevokesSince, IsValid};
ghost use Rattle.core_world.specs.World.{World};
ghost use Rattle.core_locks.specs.Knowing.{KeepsValid};
ghost use Rattle.core_world.specs.declared.stage.Stage.TheVariants.{BiasAcquired};
ghost use Rattle.core_bias.specs.Revoking.{AreAllStores, HasCounted, IsNextStore, Leads, TellsBias, MayBeginRevoking, MayEndRevoking, MayGoOnRevoking, MayLookAfterRevoking, revoked_world};
ghost use Rattle.core_world.specs.Trees.SafepointSteps.{release_plan};
ghost use Rattle.core_world.specs.Trees.BiasSteps.{stage_after};

/// A revocation as a whole, whatever the policy decides: a single one, a bulk rebias or a bulk revoke. At the safepoint of whatever
/// thread, of an object whose mark has the bias pattern, it turns a world in which every clause holds into one in which every
/// clause holds, with the same plain objects, where its thread counts on nothing that it saw before.
pub fn a_revocation_as_a_whole_keeps_the_world_valid()
    ensures { (w : World) (objects : List PlainObject) (r : ℕ) (b : Revocation) (l : ThreadView) → (w.known r).reached ≡ true
        → is_biased (marks w b.object) ≡ true → HasCounted w r b l → l.seen ≡ [] → l.seen_at_safepoint ≡ []
        → Fits w objects → Fits (revoked_world w r b l) objects }
{}

/// The first store of a revocation, with which its thread counts the verdict, keeps the world valid, with the same plain objects. The
/// revocation is under way then, since the world in which the store is made.
pub fn the_first_store_keeps_the_world_valid()
    // `MayBeginRevoking`: the operation is unfinished since its first step; that its safepoint is reached, what it saw there of the mark, the
    // prototype and the words of the class, and that it stored nothing there are of its steps; the verdict, and that this is the rules' first
    // store, follow from what it saw (`the_steps_make_the_stores_of_the_rules`). That the object was validly biased before the first store
    // follows from the clause that a word at a reached safepoint is as it was seen there
    ensures keeps { (w : World) (objects : List PlainObject) (r : ℕ) (e : CallContext) (b : Revocation)
        (class : ℕ) (verdict : Verdict) (reset : Bool) (at : WordId) (word : ℕ)
        → MayBeginRevoking w.shape (w.known r) e r b class verdict reset at word → IsValid w objects
        → IsValid (world_after
        (revoke_plan e b (own.CountVerdict class verdict reset) at word) r w) objects }
    ensures begins { (w : World) (objects : List PlainObject) (r : ℕ) (e : CallContext) (b : Revocation)
        (class : ℕ) (verdict : Verdict) (reset : Bool) (at : WordId) (word : ℕ)
        → MayBeginRevoking w.shape (w.known r) e r b class verdict reset at word → Fits w objects
        → RevokesSince
        (world_after
        (revoke_plan e b (own.CountVerdict class verdict reset) at word) r w) objects w }
{}

/// So does each other store. The revocation that is under way goes on.
pub fn the_next_store_keeps_the_world_valid()
    // `MayGoOnRevoking`: where the thread stands, and its steps since its safepoint was reached, by which this is the rules' next store
    ensures keeps { (e : CallContext) (b : Revocation) (at : WordId) (word : ℕ)
        → KeepsValid (λ w r. MayGoOnRevoking w.shape (w.known r) e r b at word)
        (λ w r. revoke_plan e b own.Unchanged at word) }
    ensures goes_on { (e : CallContext) (b : Revocation) (at : WordId) (word : ℕ) (w : World)
        (objects : List PlainObject) (s : IsRevoking w objects)
        → s.requester < w.shape.threads → MayGoOnRevoking w.shape (w.known s.requester) e s.requester b at word
        → RevokesSince (world_after (revoke_plan e b own.Unchanged at word) s.requester w) objects s.before }
{}

/// The steps of a revocation make exactly the stores that its rules list, in their order, whatever the thread finds: where they have led to a
/// store, by steps after some that stored nothing, that is the next one; where they have led to their end, all are made.
pub fn the_steps_make_the_stores_of_the_rules()
    ensures next { (s : Shape) (t : ℕ) (e : CallContext) (b : Revocation) (ms earlier : List StepMade)
        (p : StepPlan) (g : ℕ → StepTree RevocationOutcome) (word : ℕ)
        → writes_in earlier ≡ [] → Leads (revoke_at_safepoint_steps s t e b) ms (step p g)
        → p.act ≡ Store word → IsNextStore s t b (ms ++ earlier) p.at word }
    ensures all { (s : Shape) (t : ℕ) (e : CallContext) (b : Revocation) (ms earlier : List StepMade)
        (a : RevocationOutcome)
        → writes_in earlier ≡ [] → Leads (revoke_at_safepoint_steps s t e b) ms (done a)
        → AreAllStores s t b (ms ++ earlier) }
{}

/// What the steps of a revocation answer tells of the object's mark when all stores are made: where the thread gave itself a new bias, the mark
/// is biased to it in the epoch of its class, and else it has the bias pattern no more.
pub fn the_answer_tells_the_new_bias()
    ensures { (w : World) (objects : List PlainObject) (t : ℕ) (e : CallContext) (b : Revocation)
        (ms earlier : List StepMade) (a : RevocationOutcome)
        → (w.known t).reached ≡ true → revocation_in (w.known t).stage ≡ Some b
        → (w.known t).seen_at_safepoint ≡ ms ++ earlier → writes_in earlier ≡ []
        → Leads (revoke_at_safepoint_steps w.shape t e b) ms (done a) → IsValid w objects
        → TellsBias t b.object (class_by w.shape w.words b.object) a.took w.words }
{}

/// The release after all stores leads to a world in which every clause holds, with the same plain objects: the thread stands in the
/// middle of nothing, or, where it gave itself a new bias, in that of taking the object. No tree makes this step: between a revocation and its
/// release idle monitors are given back, and the first load of that ends the revocation. The law says that the revocation's own stores are all that
/// a valid world asks for: the safepoint could be released at once, with no monitor given back.
pub fn the_release_ends_the_revocation()
    // `MayEndRevoking`: where the thread stands, and its steps since its safepoint was reached, which are all that the tree of a revocation has;
    // so is whether it gave itself a new bias (`the_answer_tells_the_new_bias`)
    ensures { (w : World) (objects : List PlainObject) (t : ℕ) (e : CallContext) (b : Revocation) (took : Bool)
        → MayEndRevoking w.shape (w.known t) e t b
        → IsValid w objects → Fits (world_after (release_plan e (stage_after took b.object) t) t w) objects }
{}

/// So does a load at the safepoint after all stores, and its safepoint is still reached: the thread stands in the middle of nothing then, or,
/// where it gave itself a new bias, in that of taking the object. Every clause holds wherever of the two it stands. The law of biases asks for
/// more: that it stands before taking the object where it took a bias, and in the middle of nothing where it took none.
pub fn a_load_ends_the_revocation()
    // `MayLookAfterRevoking`: besides, that it loaded or stored at its safepoint each mark, each word of a class and each class word that it saw
    // before in the calls of the request. A revocation loads the object's mark, its class word where it isn't declared, and the words of its class.
    // An operation sees no others before.
    ensures calm { (w : World) (objects : List PlainObject) (t : ℕ) (e : CallContext) (b : Revocation) (at : WordId)
        → MayLookAfterRevoking w.shape (w.known t) e t b
        → IsValid w objects → Fits (world_after (load e at) t w) objects }
    ensures taking { (w : World) (objects : List PlainObject) (t : ℕ) (e : CallContext) (b : Revocation) (at : WordId) (o : ℕ)
        → t < w.shape.threads → MayLookAfterRevoking w.shape (w.known t) e t b
        → IsValid w objects → Fits (world_after (load_plan e (BiasAcquired o) at) t w) objects }
{}
