//! Laws of the moments that calls are given: what their steps count goes by them.
ghost use Rattle.std.specs.Prelude.{ℕ};
ghost use Rattle.std.specs.List.{AllByRecursion};
ghost use Rattle.core_world.specs.declared.heap_call.HeapCall.{HeapCall};
ghost use Rattle.core_world.specs.Due.{Ran};
ghost use Rattle.core_world.specs.Threads.ThreadView.{ThreadView, Start};
ghost use Rattle.core_world.specs.Trees.Calls.{steps_of};
ghost use Rattle.core_world.specs.Trees.StepTree.{StepTree};
ghost use Rattle.core_world.specs.Words.Shape.{Shape};
ghost use Rattle.core_calls.specs.Moments.{IsStepOf, HasCalled};
ghost use Rattle.core_calls.specs.Paths.{Says};

/// Each step of a call names the call with its arguments. Only a call that is given a moment counts a verdict, and whether it counts a
/// reset with it is what the policy says at that moment, for some count and some last bulk operation.
pub fn each_step_names_its_call()
    ensures { (s : Shape) (t : HeapCall) (k : Start) → Says (steps_of s t k) (λ ms _. AllByRecursion (IsStepOf t) ms) }
{}

/// So a run whose steps are all of one call adds these to its thread's steps, and to its counts what they count by the moment of the call.
pub fn a_run_counts_by_the_moment_of_its_call<A>()
    ensures { (s : Shape) (start : ℕ) (t : HeapCall) (d : StepTree A) (k l : ThreadView) (a : A)
        → Says d (λ ms _. AllByRecursion (IsStepOf t) ms) → Ran s start d k l a → HasCalled t k l }
{}
