//! Laws of runs: what a run makes of its thread's knowledge, by what its steps leave.
ghost use Rattle.std.specs.Prelude.{◌≡◌, ℕ, ◌++◌, Bool, List, [], ◌∷◌, Option};
ghost use Rattle.plain_monitor.specs.declared.entry.Entry.{Entry};
ghost use Rattle.core_world.specs.declared.heap_call.Unfinished.{Unfinished};
ghost use Rattle.core_world.specs.Due.{Ran};
ghost use Rattle.core_world.specs.Steps.{known_along};
ghost use Rattle.core_world.specs.Threads.ThreadView.{StepMade, ThreadView};
ghost use Rattle.core_world.specs.Words.Shape.{Shape};
ghost use Rattle.core_world.specs.Trees.StepTree.{StepTree, done, after_answers};
ghost use Rattle.core_calls.specs.Paths.{IsPath, FollowsTree, Leaves, Tells, ThreadHasLogged};

/// What the steps of a run leave, it makes of its thread's knowledge: the entries stand after the log, with some stamps, and the operation
/// and the check are unfinished or not. Where there are no entries, the log is the old one; where there is one, it is the old one with this
/// entry.
pub fn steps_make_of_knowledge_what_they_leave()
    ensures did { (es : List Entry) (u : Option Unfinished) (check : Bool) (k l : ThreadView)
        → Tells k l (Leaves es u check) → ThreadHasLogged es u check k l }
    ensures none { (u : Option Unfinished) (check : Bool) (k l : ThreadView) → ThreadHasLogged [] u check k l
        → l.log ≡ k.log }
    ensures one { (e : Entry) (u : Option Unfinished) (check : Bool) (k l : ThreadView)
        → ThreadHasLogged (e ∷ []) u check k l
        → (stamp : ℕ) × (l.log ≡ k.log ++ record { stamp = stamp; entry = e } ∷ []) }
{}

/// The bridge from trees to what threads know: a run of a tree follows one of its paths. The steps of that path are added to its thread's steps,
/// and their entries, with some stamps, to its thread's log; and the operation and the check are unfinished as these steps leave them. All else
/// that its thread knows then, too, is what these steps, one after the other, make of what it knew: whether it runs, its hold words, its shots,
/// and the rest.
pub fn a_run_follows_a_path_of_its_tree<A>()
    ensures known { (s : Shape) (start : ℕ) (d : StepTree A) (k l : ThreadView) (a : A) → Ran s start d k l a
        → FollowsTree s start d k l a }
    ensures path { (s : Shape) (start : ℕ) (d : StepTree A) (k l : ThreadView) (a : A) → Ran s start d k l a
        → Tells k l (λ ms. IsPath d [] ms a) }
{}

/// And the other way round: every path of a tree is run, from whatever its thread knows, and leaves what its steps make of that (`path`). So is
/// the way to an answer, where these words, the newest first, lead to it (`words`). So what each law of runs asks for comes about where its
/// call's tree has a path.
pub fn every_path_of_a_tree_is_run<A>()
    ensures path { (s : Shape) (start : ℕ) (d : StepTree A) (ms : List StepMade) (k : ThreadView) (a : A)
        → IsPath d [] ms a → Ran s start d k (known_along s start ms k) a }
    ensures words { (s : Shape) (start : ℕ) (d : StepTree A) (words : List ℕ) (k : ThreadView) (a : A)
        → after_answers d words ≡ done a → (l : ThreadView) × Ran s start d k l a }
{}
