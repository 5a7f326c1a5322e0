//! Laws of the call that makes an object.
ghost use Rattle.std.specs.Prelude.{◌≡◌, ℕ, ◌+◌, [], ◌∷◌, ◌++◌, Result, Ok, Err};
ghost use Rattle.plain_monitor.specs.History.{last_stamp};
ghost use Rattle.plain_monitor.specs.declared.entry.Entry.TheVariants as entry;
ghost use Rattle.core_world.specs.declared.answer.TooMany.{TooMany};
ghost use Rattle.core_world.specs.Words.Shape.{Shape};
ghost use Rattle.core_world.specs.Threads.ThreadView.{ThreadView, Start};
ghost use Rattle.core_world.specs.Trees.Operations.{create_steps};
ghost use Rattle.core_world.specs.Due.{Ran};
ghost use Rattle.core_calls.specs.Paths.{Says, Tells};
ghost use Rattle.core_calls.specs.CallsSay.{CreateSays};

/// A create answers the thread's next object, by its own log, and logs its New with the class, and nothing else; nothing is unfinished
/// then. It makes exactly three steps: it loads the class's prototype, stores the object's class word, and stores the prototype that it
/// found as the object's first mark. The New is stamped one above the thread's last entry. A create is never pending. It is refused,
/// without a step, exactly where the thread's log has 1,024 News or more, and then its thread knows what it knew.
pub fn create_logs_its_object()
    ensures steps { (s : Shape) (k : Start) (c : ℕ) → Says (create_steps s k c) (CreateSays s k c) }
    ensures run { (s : Shape) (k : Start) (c : ℕ) (shape : Shape) (start : ℕ) (before after : ThreadView)
        (a : Result ℕ TooMany)
        → Ran shape start (create_steps s k c) before after a
        → Tells before after (λ ms. CreateSays s k c ms a) }
    ensures stamped { (s : Shape) (k : Start) (c : ℕ) (shape : Shape) (start o : ℕ) (before after : ThreadView)
        → Ran shape start (create_steps s k c) before after (Ok o)
        → after.log ≡ before.log ++ record { stamp = last_stamp before.log + 1; entry = entry.New o c } ∷ [] }
    ensures refused { (s : Shape) (k : Start) (c : ℕ) (shape : Shape) (start : ℕ) (before after : ThreadView)
        (e : TooMany)
        → Ran shape start (create_steps s k c) before after (Err e)
        → after ≡ before }
{}
