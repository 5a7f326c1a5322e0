//! Laws of the steps on the safepoint word. Their functions do nothing.
//!
//! `specs/SafepointLaws` says by what it knows itself when a thread may make each step. Each step belongs to a call whose plan says
//! what is unfinished meanwhile: it is what the thread has unfinished, and a request may begin an operation too.

ghost use Rattle.std.specs.Prelude.{◌≡◌, ℕ, true};
ghost use Rattle.core_world.specs.declared.word_id.WordId.TheVariants.{Safepoint};
ghost use Rattle.core_world.specs.declared.stage.Stage.TheVariants.{Settled, BiasAcquired};
ghost use Rattle.core_world.specs.Trees.Plans.{CallContext};
ghost use Rattle.core_world.specs.Trees.SafepointSteps.{stop_plan, resume_plan, request_plan, release_plan, halt_plan, reached_word};
ghost use Rattle.core_locks.specs.Knowing.{KeepsValid, FindsWord};
ghost use Rattle.core_locks.specs.SafepointLaws.{MayStop, MayResume, MayRequest, MayRelease, MayReleaseTaking, MayHalt};

/// A running thread stops: it clears its bit. It is in the middle of nothing and has published its log, by its own knowledge; and
/// the stop leaves what is unfinished, by its plan.
pub fn stopping_keeps_the_world_valid()
    ensures { (e : CallContext) → KeepsValid (λ w t. MayStop (w.known t) e) (λ w t. stop_plan e t) }
{}

/// A stopped thread sets its bit, in a word that it saw with no requester and no halt, whether the exchange hits or misses. The
/// resume leaves what is unfinished, by its plan.
pub fn resuming_keeps_the_world_valid()
    ensures { (e : CallContext) (word : ℕ)
        → KeepsValid (λ w t. MayResume (w.known t) e word) (λ w t. resume_plan e t word) }
{}

/// A running thread exchanges its bit for its request, in a word that it saw with no requester, whether the exchange hits or
/// misses. The operation that asks for the safepoint may begin with it, where nothing is unfinished, by its plan.
pub fn requesting_keeps_the_world_valid()
    ensures { (e : CallContext) (word : ℕ)
        → KeepsValid (λ w t. MayRequest (w.known t) e word) (λ w t. request_plan e t word) }
{}

/// The thread whose safepoint is reached takes its request away and runs again. The exchange hits: the word is the one that it
/// expects, since nobody else may change it, also where a bias is being revoked. The release leaves what is unfinished, by its plan.
// The release that ends a revocation is another kind of step: its thread stands at `Revokes`, and `core_bias` has its law. `taking` is for a release
// after further steps at that safepoint, of a thread that gave itself a bias.
pub fn releasing_keeps_the_world_valid()
    ensures finds { FindsWord (λ w t. (w.known t).reached ≡ true) Safepoint reached_word }
    ensures valid { (e : CallContext)
        → KeepsValid (λ w t. MayRelease (w.known t) e) (λ w t. release_plan e Settled t) }
    ensures taking { (e : CallContext) (o : ℕ)
        → KeepsValid (λ w t. MayReleaseTaking (w.known t) e o) (λ w t. release_plan e (BiasAcquired o) t) }
{}

/// The thread whose safepoint is reached halts the run, where it hasn't ended itself and by what it has seen since each thread has
/// ended or is held up: the threads are stuck then. The exchange hits, and the halt leaves what is unfinished, by its plan.
pub fn halting_keeps_the_world_valid()
    ensures finds { FindsWord (λ w t. (w.known t).reached ≡ true) Safepoint reached_word }
    ensures valid { (e : CallContext)
        → KeepsValid (λ w t. MayHalt w.shape.threads (w.known t) e) (λ w t. halt_plan e t) }
{}
