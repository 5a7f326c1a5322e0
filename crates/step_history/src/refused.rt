//! Laws that what is said of lists of steps is refused where it is wrong. The functions do nothing.

ghost use Rattle.std.specs.Prelude.{◌≡◌, ◌≢◌, ◌⊎◌, ℕ, ◌≤◌, true, false, List, [], ◌∷◌, ◌++◌, is_some};
ghost use Rattle.std.specs.List.{AllByRecursion};
ghost use Rattle.core_world.specs.declared.heap_call.HeapCall.{HeapCall};
ghost use Rattle.core_world.specs.Due.{IsNext};
ghost use Rattle.core_world.specs.Steps.{is_idle};
ghost use Rattle.core_world.specs.Threads.ThreadView.{StepMade, left_by};
ghost use Rattle.core_world.specs.Trees.Calls.{may_begin};
ghost use Rattle.core_world.specs.World.{World};
ghost use Rattle.core_law.specs.Logic.{Heap};
ghost use Rattle.core_law.specs.Reached.{IsReachable};
ghost use Rattle.step_history.specs.Leads.{Leads, steps_by};
ghost use Rattle.step_history.specs.Overtaken.{WasOvertaken};
ghost use Rattle.step_history.specs.Turns.{all_step, after_turns, next_of};

/// Not overtaken: a thread that alone made steps (`alone`); one where no step of another thread changed a word (`unchanged`), or each was at a
/// word at which the thread itself made none (`elsewhere`); one that made all its steps after those of the others, or before them (`later`,
/// `earlier`); and one whose exchange found what it expected (`hit`). Refuses the conclusion of `calls_race_only_with_another_thread`, which
/// all its clauses have.
pub fn who_was_not_passed_was_not_overtaken()
    ensures alone { (t expected found : ℕ) (xs : List (ℕ × StepMade)) → AllByRecursion (λ (x : ℕ × StepMade). x.0 ≡ t) xs
        → WasOvertaken t expected found xs → ⊥ }
    ensures unchanged { (t expected found : ℕ) (xs : List (ℕ × StepMade))
        → AllByRecursion (λ (x : ℕ × StepMade). (x.0 ≡ t) ⊎ (left_by x.1 ≡ x.1.found)) xs
        → WasOvertaken t expected found xs → ⊥ }
    ensures elsewhere { (t expected found : ℕ) (xs : List (ℕ × StepMade))
        → AllByRecursion (λ (x : ℕ × StepMade). (x.0 ≡ t)
        ⊎ AllByRecursion (λ (y : ℕ × StepMade). y.0 ≡ t → y.1.plan.at ≢ x.1.plan.at) xs) xs
        → WasOvertaken t expected found xs → ⊥ }
    ensures later { (t expected found : ℕ) (newer older : List (ℕ × StepMade))
        → AllByRecursion (λ (x : ℕ × StepMade). x.0 ≡ t) newer → AllByRecursion (λ (x : ℕ × StepMade). x.0 ≢ t) older
        → WasOvertaken t expected found (newer ++ older) → ⊥ }
    ensures earlier { (t expected found : ℕ) (newer older : List (ℕ × StepMade))
        → AllByRecursion (λ (x : ℕ × StepMade). x.0 ≢ t) newer → AllByRecursion (λ (x : ℕ × StepMade). x.0 ≡ t) older
        → WasOvertaken t expected found (newer ++ older) → ⊥ }
    ensures hit { (t word : ℕ) (xs : List (ℕ × StepMade)) → WasOvertaken t word word xs → ⊥ }
{}

/// A list of steps leads nowhere whose first step is of no thread of the world (`thread`), isn't its thread's next one
/// (`next`), or found another word than there was (`found`). Refuses what `reached_worlds_have_their_steps` says in
/// `listed`, and `turns_lead_on` in `leads`.
pub fn no_list_leads_on_by_a_wrong_first_step()
    ensures thread { (w v : World) (xs : List (ℕ × StepMade)) (t : ℕ) (m : StepMade) → w.shape.threads ≤ t
        → Leads w (xs ++ (t, m) ∷ []) v → ⊥ }
    ensures next { (w v : World) (xs : List (ℕ × StepMade)) (t : ℕ) (m : StepMade)
        → (IsNext w.shape w.start w.biasing (w.known t) m.plan → ⊥) → Leads w (xs ++ (t, m) ∷ []) v → ⊥ }
    ensures found { (w v : World) (xs : List (ℕ × StepMade)) (t : ℕ) (m : StepMade) → m.found ≢ w.words m.plan.at
        → Leads w (xs ++ (t, m) ∷ []) v → ⊥ }
{}

/// What a thread knows is of its own steps. A list without a step of it leads to no world in which it knows something else (`leads`); no
/// heap comes to a world in which it made no step and has a log (`reached`); and it knows of no step that isn't among its own there
/// (`own`). Refuses the three conclusions of `reached_worlds_have_their_steps`.
pub fn no_thread_knows_more_than_its_steps()
    ensures leads { (w v : World) (xs : List (ℕ × StepMade)) (t : ℕ) → steps_by t xs ≡ [] → v.known t ≢ w.known t
        → Leads w xs v → ⊥ }
    ensures reached { (heap : Heap) (v : World) (t : ℕ) → (v.known t).steps ≡ [] → (v.known t).log ≢ []
        → IsReachable heap v → ⊥ }
    ensures own { (w v : World) (xs : List (ℕ × StepMade)) (t : ℕ) (m : StepMade) → Leads w xs v
        → (v.known t).steps ≡ m ∷ (steps_by t xs ++ (w.known t).steps) → ⊥ }
{}

/// A step of a thread that the world doesn't have leads nowhere (`leads`), and no heap comes to the world after it (`reached`): these
/// refuse the two conclusions of `turns_lead_on`. And there is no turn for a thread in the middle of nothing that may not begin the call
/// (`begins`), so that what the law asks for isn't so.
pub fn no_turn_of_no_thread_or_of_a_call_that_may_not_begin()
    ensures leads { (w : World) (xs : List (ℕ × StepMade)) (t : ℕ) (task : HeapCall) → w.shape.threads ≤ t
        → is_some (next_of w t task) ≡ true → Leads w xs (after_turns ((t, task) ∷ []) w) → ⊥ }
    ensures reached { (heap : Heap) (w : World) (t : ℕ) (task : HeapCall) → w.shape.threads ≤ t
        → is_some (next_of w t task) ≡ true → IsReachable heap (after_turns ((t, task) ∷ []) w) → ⊥ }
    ensures begins { (w : World) (t : ℕ) (task : HeapCall) (turns : List (ℕ × HeapCall))
        → is_idle w.shape (w.known t) ≡ true → may_begin w.shape w.biasing (w.known t) task ≡ false
        → all_step ((t, task) ∷ turns) w ≡ false }
{}
