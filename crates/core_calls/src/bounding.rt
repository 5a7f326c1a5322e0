//! Laws of how many atomic steps calls make at most.
ghost use Rattle.std.specs.Prelude.{◌≡◌, ℕ, ◌+◌, ◌<◌, ◌≤◌, Bool, false, length, Some};
ghost use Rattle.mark_word.specs.declared.mark.MarkForm.TheVariants.{Neutral, Anonymous, Biased};
ghost use Rattle.mark_word.specs.Mark.{read_mark};
ghost use Rattle.core_world.specs.declared.plan.StepPlan.{StepPlan};
ghost use Rattle.core_world.specs.declared.heap_call.HeapCall.{HeapCall};
ghost use Rattle.core_world.specs.Trees.Calls.{steps_of};
ghost use Rattle.core_world.specs.Due.{Ran};
ghost use Rattle.core_world.specs.Words.Forms.{is_biased};
ghost use Rattle.core_world.specs.Threads.ThreadView.{ThreadView, Start, CallUnderway};
ghost use Rattle.core_world.specs.Trees.Operations.{enter_steps, revocation_steps};
ghost use Rattle.core_world.specs.Trees.Plans.{CallContext};
ghost use Rattle.core_world.specs.Words.Shape.{Shape};
ghost use Rattle.core_world.specs.Threads.Stages.{Revocation};
ghost use Rattle.core_world.specs.Steps.{rest_of_call};
ghost use Rattle.core_world.specs.Trees.StepTree.{after_answer, head};
ghost use Rattle.core_calls.specs.Bounds.{IsWithin, a_revocation, after_class, most_steps};

/// Whatever words its steps find, and whatever other threads do, a call makes at most `most_steps` steps: no call waits or tries again. So
/// it is of a whole run, and of a call that goes on: where a step is to come, fewer were made.
pub fn every_call_is_bounded()
    ensures tree { (s : Shape) (t : HeapCall) (k : Start) → IsWithin (most_steps s t) (steps_of s t k) }
    ensures run { (s : Shape) (start : ℕ) (t : HeapCall) (k : Start) (before after : ThreadView)
        → Ran s start (steps_of s t k) before after tt
        → length after.steps ≤ most_steps s t + length before.steps }
    ensures next { (s : Shape) (k : ThreadView) (b : CallUnderway) (p : StepPlan) → k.call ≡ Some b
        → head (rest_of_call s k) ≡ Some p
        → length b.answers < most_steps s b.task }
{}

/// The enters that are common take few steps, where the thread has no request that stands. After the load of a mark without the bias pattern there are at most 17, and 5 where it is neutral.
/// After the loads of a mark that is biased to the thread, of the object's class where it isn't declared, and of a prototype with the same epoch there are at most 3.
pub fn common_enters_are_short()
    ensures free { (s : Shape) (k : Start) (o now mark hash age : ℕ) → k.requesting ≡ false
        → read_mark mark ≡ Some (Neutral hash age)
        → IsWithin 5 (after_answer (enter_steps s k o now) mark) }
    ensures unbiased { (s : Shape) (k : Start) (o now mark : ℕ) → k.requesting ≡ false → is_biased mark ≡ false
        → IsWithin 17 (after_answer (enter_steps s k o now) mark) }
    ensures own { (s : Shape) (k : Start) (o now mark class prototype epoch age other : ℕ) → k.requesting ≡ false
        → read_mark mark ≡ Some (Biased k.local.thread epoch age) → read_mark prototype ≡ Some (Anonymous epoch other)
        → IsWithin 3 (after_answer (after_class s o class (after_answer (enter_steps s k o now) mark)) prototype) }
{}

/// A revocation at a safepoint, with its request, the idle monitors that it gives back, and its release, takes at most so many steps.
pub fn a_revocation_is_bounded()
    ensures { (s : Shape) (t : ℕ) (requesting : Bool) (e : CallContext) (b : Revocation)
        → IsWithin (a_revocation s) (revocation_steps s t requesting e b) }
{}
