//! The law of all steps. The functions do nothing.

ghost use Rattle.std.specs.Prelude.{◌≡◌, ℕ, ◌<◌, true, false, length};
ghost use Rattle.core_world.specs.declared.plan.StepPlan.{StepPlan};
ghost use Rattle.core_world.specs.declared.stage.Stage.{Stage};
ghost use Rattle.core_world.specs.declared.heap_call.HeapCall.{HeapCall};
ghost use Rattle.core_world.specs.Threads.AtRest.{AtRest};
ghost use Rattle.core_world.specs.Due.{IsNext};
ghost use Rattle.core_world.specs.Threads.ThreadView.{ThreadView};
ghost use Rattle.core_world.specs.Trees.DeflateSteps.{deflate_steps};
ghost use Rattle.core_world.specs.Trees.Plans.{CallContext};
ghost use Rattle.core_world.specs.Opening.{opening};
ghost use Rattle.core_world.specs.Words.Shape.{IsInLimits, monitor_count};
ghost use Rattle.core_world.specs.Steps.{world_after, rest_of_call, is_idle};
ghost use Rattle.core_world.specs.There.{IsThere};
ghost use Rattle.core_world.specs.World.{World, logs};
ghost use Rattle.core_law.specs.WholeLaw.{WhollyValid};
ghost use Rattle.plain_history.specs.ExactStamps.{StampsAreExact};
ghost use Rattle.core_law.specs.Takings.{TakesExactly};
ghost use Rattle.plain_history.specs.FirstDraws.{DrawsComeFirst};
ghost use Rattle.core_law.specs.Begins.{BeginsWell};
ghost use Rattle.core_law.specs.Draws.{HasDraws};
ghost use Rattle.core_law.specs.HeapLaw.{HeapLaw};
ghost use Rattle.core_law.specs.Logic.{Heap, Does, DoesSteps, heap_of};
ghost use Rattle.core_law.specs.Reached.{IsReachable, is_reachable};
ghost use Rattle.core_law.specs.Sound.{Sound};
ghost use Rattle.core_steps.specs.Deflated.{MayDeflate, IsSettled, NamedAreInUse, GivenBackAreClean};

/// In a sound world the next step of any thread leads to a sound world: in whatever call, whether it begins the call or goes on with it, and
/// whatever the other threads are in the middle of. The step is a function of what its thread knows alone. The heap has the word that it is
/// on, and its thread a place for the shot that it takes. In a sound world no thread stands where its call says that no valid world comes, and a thread whose call is over is at rest.
pub fn next_steps_keep_worlds_sound()
    ensures sound { (w : World) (t : ℕ) (p : StepPlan) → t < w.shape.threads → Sound w
        → IsNext w.shape w.start w.biasing (w.known t) p → Sound (world_after p t w) }
    ensures known { (heap : Heap) (k : ThreadView) (p : StepPlan) → IsNext heap.shape heap.start heap.biasing k p
        → (w : World) → heap_of w ≡ heap → w.known k.thread ≡ k → k.thread < heap.shape.threads → Sound w
        → Sound (world_after p k.thread w) }
    ensures there { (w : World) (t : ℕ) (p : StepPlan) → t < w.shape.threads → Sound w
        → IsNext w.shape w.start w.biasing (w.known t) p → IsThere w.shape (w.known t) p }
    ensures known_there { (heap : Heap) (k : ThreadView) (p : StepPlan) → IsNext heap.shape heap.start heap.biasing k p
        → (w : World) → heap_of w ≡ heap → w.known k.thread ≡ k → k.thread < heap.shape.threads → Sound w
        → IsThere heap.shape k p }
    ensures comes { (w : World) (t : ℕ) → Sound w → t < w.shape.threads
        → is_reachable (rest_of_call w.shape (w.known t)) ≡ true }
    ensures rests { (w : World) (t : ℕ) → Sound w → t < w.shape.threads → is_idle w.shape (w.known t) ≡ true
        → AtRest w.shape (w.known t) }
{}

/// The opening world is sound, and each world to which a heap comes from there is sound, and so valid: the law of biases and the law of what is there hold
/// with its clauses. There no thread's call says that no valid world comes.
/// The next step of any thread, which is a function of what the thread knows alone, leads on to such a world.
pub fn reached_worlds_are_valid()
    ensures opening { (heap : Heap) → IsInLimits heap.shape → Sound (opening heap.shape heap.start heap.biasing) }
    ensures sound { (heap : Heap) (w : World) → IsInLimits heap.shape → IsReachable heap w → Sound w }
    ensures valid { (heap : Heap) (w : World) → IsInLimits heap.shape → IsReachable heap w → WhollyValid w }
    ensures goes_on { (heap : Heap) (w : World) (t : ℕ) → IsInLimits heap.shape → IsReachable heap w → t < heap.shape.threads
        → is_reachable (rest_of_call w.shape (w.known t)) ≡ true }
    ensures moves { (heap : Heap) (k : ThreadView) (p : StepPlan) → IsNext heap.shape heap.start heap.biasing k p
        → (w : World) → heap_of w ≡ heap → w.known k.thread ≡ k → k.thread < heap.shape.threads → IsReachable heap w
        → IsReachable heap (world_after p k.thread w) }
{}

/// In each world to which a heap comes every stamp in the logs is exact.
///
/// An Enter or a Resume has one more than the greater of two stamps: the last one before it in its own log, and the
/// last one below it with which a thread let go of the object, by a Wait or the exit of its only hold. Every other
/// entry has the next stamp of its own log. The thread that logs the entry knows its own log alone: the step finds
/// the stamp in the object's word.
pub fn stamps_of_reached_worlds_are_exact()
    ensures takes { (w : World) (t : ℕ) (p : StepPlan) → t < w.shape.threads → Sound w
        → IsNext w.shape w.start w.biasing (w.known t) p → TakesExactly w t p }
    ensures kept { (w : World) (t : ℕ) (p : StepPlan) → t < w.shape.threads → Sound w
        → IsNext w.shape w.start w.biasing (w.known t) p
        → StampsAreExact (logs w) → StampsAreExact (logs (world_after p t w)) }
    ensures known { (heap : Heap) (k : ThreadView) (p : StepPlan) → IsNext heap.shape heap.start heap.biasing k p
        → (w : World) → heap_of w ≡ heap → w.known k.thread ≡ k → k.thread < heap.shape.threads → Sound w
        → StampsAreExact (logs w) → StampsAreExact (logs (world_after p k.thread w)) }
    ensures opening { (heap : Heap) → StampsAreExact (logs (opening heap.shape heap.start heap.biasing)) }
    ensures reached { (heap : Heap) (w : World) → IsInLimits heap.shape → IsReachable heap w → StampsAreExact (logs w) }
{}

/// In each world to which a heap comes, a thread that drew the hash of an object had logged no hash of the object before. So where one thread alone
/// logs, its first hash of each object is the draw. And there each thread's draws are its generator's, in their order, and of the hashes of an object
/// that has any just one was drawn.
pub fn draws_of_reached_worlds_come_first()
    ensures kept { (w : World) (t : ℕ) (p : StepPlan) → t < w.shape.threads → Sound w
        → IsNext w.shape w.start w.biasing (w.known t) p
        → DrawsComeFirst (logs w) → DrawsComeFirst (logs (world_after p t w)) }
    ensures opening { (heap : Heap) → DrawsComeFirst (logs (opening heap.shape heap.start heap.biasing)) }
    ensures reached { (heap : Heap) (w : World) → IsInLimits heap.shape → IsReachable heap w → DrawsComeFirst (logs w) }
    ensures drawn { (heap : Heap) (w : World) → IsInLimits heap.shape → IsReachable heap w → HasDraws heap.start (logs w) }
{}

/// Every call that begins at rest in a valid world, whatever it is, keeps the world valid by each of its steps, on words that the heap has, and
/// ends at rest.
pub fn every_call_begins_well()
    ensures { (heap : Heap) (task : HeapCall) → BeginsWell heap task }
{}

/// The steps that give idle monitors back keep every valid world valid, of a thread whose safepoint is reached and that has nothing in hand of the
/// ring: each has its conditions from what the thread has seen there. They may begin where it revokes no bias, and after the last store of a
/// revocation, which their first look ends: so in each dump, check and revocation.
pub fn a_deflation_does_its_steps()
    // `MayDeflate`: where the thread stands; of a revocation, that its steps since its safepoint was reached have led to this answer
    ensures { (heap : Heap) (e : CallContext) (k : ThreadView) (stage : Stage) → MayDeflate heap.shape k e stage
        → DoesSteps heap false (deflate_steps heap.shape e stage) k }
{}

/// After such a deflation no monitor is idle, be it that of a dump, a check or a revocation. In each valid world in which the thread stands there,
/// every monitor that a mark names has an owner, or somebody who waits on its object, was notified from it or enters it. And by what the thread saw
/// at its safepoint, each monitor of a heap that has objects was given back there and is so still, or the mark of the object in its object word
/// doesn't name it, or it is so in use. One that is given back has its four words 0 in each such world and stands in the ring, and no mark names it.
/// So is each that was given back in this deflation, and not at this safepoint before.
pub fn a_deflation_leaves_no_monitor_idle()
    ensures in_use { (heap : Heap) (e : CallContext) (k : ThreadView) (stage : Stage) → MayDeflate heap.shape k e stage
        → Does heap false (deflate_steps heap.shape e stage) k (λ b a l. NamedAreInUse heap l) }
    ensures settled { (heap : Heap) (e : CallContext) (k : ThreadView) (stage : Stage) → MayDeflate heap.shape k e stage
        → 0 < length heap.shape.objects
        → Does heap false (deflate_steps heap.shape e stage) k
        (λ b a l. (m : ℕ) → m < monitor_count heap.shape → IsSettled heap l m) }
    ensures clean { (heap : Heap) (e : CallContext) (k : ThreadView) (stage : Stage) → MayDeflate heap.shape k e stage
        → Does heap false (deflate_steps heap.shape e stage) k (λ b a l. GivenBackAreClean heap k l) }
{}

/// Every heap in the limits has its law, which whoever makes a heap hands in. It has four parts, each a law by itself.
pub fn every_heap_has_its_law()
    ensures { (heap : Heap) → IsInLimits heap.shape → HeapLaw heap }
{
    reached_worlds_are_valid();
    every_call_begins_well();
    stamps_of_reached_worlds_are_exact();
    draws_of_reached_worlds_come_first();
}
