//! The laws of lists of steps.

ghost use Rattle.std.specs.Prelude.{◌≡◌, ℕ, true, List, ◌++◌};
ghost use Rattle.core_world.specs.declared.heap_call.HeapCall.{HeapCall};
ghost use Rattle.core_world.specs.Opening.{opening};
ghost use Rattle.core_world.specs.Threads.ThreadView.{StepMade};
ghost use Rattle.core_world.specs.World.{World};
ghost use Rattle.core_law.specs.Logic.{Heap};
ghost use Rattle.core_law.specs.Reached.{IsReachable};
ghost use Rattle.step_history.specs.Leads.{Leads, steps_by};
ghost use Rattle.step_history.specs.Turns.{all_step, after_turns};

/// Each world to which a heap comes has a list of all steps that led there from the opening world, whatever their threads (`listed`); and
/// a list of steps leads from a world to which a heap comes to such worlds alone (`reached`). So to be reached and to have such a list is
/// the same. What a thread knows of its own steps is what it has among these (`own`).
pub fn reached_worlds_have_their_steps()
    ensures listed { (heap : Heap) (v : World) → IsReachable heap v
        → (xs : List (ℕ × StepMade)) × Leads (opening heap.shape heap.start heap.biasing) xs v }
    ensures reached { (heap : Heap) (w v : World) (xs : List (ℕ × StepMade)) → IsReachable heap w → Leads w xs v
        → IsReachable heap v }
    ensures own { (w v : World) (xs : List (ℕ × StepMade)) (t : ℕ) → Leads w xs v
        → (v.known t).steps ≡ steps_by t xs ++ (w.known t).steps }
{}

/// A list of turns leads on, where each thread has a step at its turns: the next one of its call, or the first one of the call that the turn
/// names and that it may begin. So whether a heap comes to a world by given turns is found by computing.
pub fn turns_lead_on()
    ensures leads { (w : World) (turns : List (ℕ × HeapCall)) → all_step turns w ≡ true
        → (xs : List (ℕ × StepMade)) × Leads w xs (after_turns turns w) }
    ensures reached { (heap : Heap) (w : World) (turns : List (ℕ × HeapCall)) → IsReachable heap w → all_step turns w ≡ true
        → IsReachable heap (after_turns turns w) }
{}
