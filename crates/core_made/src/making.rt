//! How a thread makes an object: it stores the class word, and then the first mark, which logs the object's New.

ghost use Rattle.std.specs.Prelude.{◌≡◌, ◌≢◌, ◌⊎◌, ℕ, ◌+◌, ◌<◌, ◌≤◌, true, false, List, length, Some, None};
ghost use Rattle.mark_word.specs.Mark.{read_mark};
ghost use Rattle.mark_word.specs.declared.mark.MarkForm.TheVariants.{Anonymous};
ghost use Rattle.plain_monitor.specs.declared.entry.Entry.TheVariants.{New};
ghost use Rattle.plain_monitor.specs.Made.{made_number};
ghost use Rattle.plain_monitor.specs.Objects.{PlainObject};
ghost use Rattle.plain_history.specs.Known.{news};
ghost use Rattle.core_world.specs.declared.word_id.WordId.TheVariants.{Prototype, Mark, Class};
ghost use Rattle.core_world.specs.Words.Forms.{is_biased};
ghost use Rattle.core_world.specs.Threads.ThreadView.{last_seen};
ghost use Rattle.core_world.specs.Trees.CreateSteps.{class_plan, make_plan, creating};
ghost use Rattle.core_world.specs.Trees.Plans.{CallContext};
ghost use Rattle.core_world.specs.Steps.{world_after};
ghost use Rattle.core_world.specs.Valid.{Fits};
ghost use Rattle.core_world.specs.World.{World};
ghost use Rattle.core_locks.specs.Knowing.{Logs};
ghost use Rattle.core_world.specs.Threads.References.{numbering, making_in};
ghost use Rattle.core_law.specs.MadeLaw.{MadeLawHolds};
ghost use Rattle.core_made.specs.Steps.{is_there_in};
ghost use Rattle.core_made.specs.Making.{IsFresh, IsFirstMark, MayMake, StandsBeforeMark};
ghost use Rattle.core_made.specs.Making.{IsClassless, MayStoreClass, IsNext};

/// In a world in which every clause holds, a running thread in the middle of nothing stores the class word of an object that
/// isn't declared and has none yet: every clause holds afterwards, with the same plain objects. That the word is 0, the law of
/// what is there gives, for an object that isn't there and that no thread is making. The rest the thread knows itself.
pub fn storing_a_class_word_keeps_the_world_valid()
    ensures { (e : CallContext) (o c : ℕ) (w : World) (objects : List PlainObject) (t : ℕ) → t < w.shape.threads
        → MayStoreClass (w.known t) e → IsClassless w o → c < w.shape.classes → Fits w objects
        → Fits (world_after (class_plan e o c) t w) objects }
{}

/// By the law of what is there, a thread that is making no object stores the class word of its next one: every clause holds
/// afterwards, and so does the law, by which the thread is now making that object. Which object is its next the thread's own
/// log says.
pub fn storing_a_class_word_keeps_what_is_there()
    ensures { (e : CallContext) (o c : ℕ) (w : World) (objects : List PlainObject) (t : ℕ) → t < w.shape.threads
        → MayStoreClass (w.known t) e → making_in (w.known t).unfinished ≡ None → making_in e.unfinished ≡ Some o
        → IsNext (numbering w.shape) (w.known t).log t o c → Fits w objects → MadeLawHolds w
        → Fits (world_after (class_plan e o c) t w) objects × MadeLawHolds (world_after (class_plan e o c) t w) }
{}

/// In a world in which every clause holds, a running thread in the middle of nothing stores the first mark of an object that
/// isn't there yet, and logs its New: every clause holds afterwards, with the same plain objects. That the object's words are
/// fresh and its class word is stored, the law of what is there gives; that the mark is a first mark, the class's prototype,
/// which the thread has loaded. The rest it knows itself.
pub fn storing_a_first_mark_keeps_the_world_valid()
    ensures { (e : CallContext) (o c m : ℕ) (w : World) (objects : List PlainObject) (t : ℕ) → t < w.shape.threads
        → MayMake (w.known t) o c → IsFresh w objects o → w.words (Class o) ≡ c + 1 → IsFirstMark w m
        → Fits w objects → Logs w objects t (make_plan e o c m) (New o c) }
{}

/// By the law of what is there, a thread that stands before the store of its object's first mark stores it, and logs the
/// object's New: every clause holds afterwards, and so does the law, by which the thread is making no object any more. That
/// the object isn't there and its class word is stored, the law gives, and that no thread goes by what it saw at the mark: who
/// has seen a mark knows the object by its log, or its safepoint is reached, and then nobody runs.
pub fn storing_a_first_mark_keeps_what_is_there()
    ensures { (e : CallContext) (o c m : ℕ) (w : World) (objects : List PlainObject) (t : ℕ) → t < w.shape.threads
        → StandsBeforeMark (w.known t) o c → IsFirstMark w m → Fits w objects → MadeLawHolds w
        → Logs w objects t (make_plan e o c m) (New o c) × MadeLawHolds (world_after (make_plan e o c m) t w) }
{}

/// So a thread in the middle of nothing makes its next object by these two stores, one after the other, while no other thread
/// makes a step: every clause and the law hold after each, and the object is there in the end.
pub fn two_stores_make_an_object()
    ensures { (o c m : ℕ) (w : World) (objects : List PlainObject) (t : ℕ) → t < w.shape.threads
        → MayMake (w.known t) o c → (w.known t).unfinished ≡ None
        → IsNext (numbering w.shape) (w.known t).log t o c → IsFirstMark w m → Fits w objects → MadeLawHolds w
        → let x = world_after (class_plan (creating o c) o c) t w in
        let y = world_after (make_plan (creating o c) o c m) t x in
        Fits x objects × MadeLawHolds x × Logs x objects t (make_plan (creating o c) o c m) (New o c)
        × MadeLawHolds y × (is_there_in y o ≡ true) }
{}

/// Each class's prototype is a first mark; and so is the one that a running thread has seen in its call.
pub fn a_prototype_is_a_first_mark()
    ensures word { (w : World) (objects : List PlainObject) (c : ℕ) → Fits w objects
        → IsFirstMark w (w.words (Prototype c)) }
    ensures seen { (w : World) (objects : List PlainObject) (t c m : ℕ)
        → last_seen (Prototype c) (w.known t).seen ≡ Some m → (w.known t).running ≡ true → Fits w objects
        → IsFirstMark w m }
{}

/// No store of a first mark leads to a valid world where another thread, which runs or has a request, has seen the object's
/// mark without the bias pattern, and the first mark has it. By the law of what is there no such thread has seen the mark of an
/// object that isn't there.
pub fn no_first_mark_that_a_thread_has_seen()
    ensures { (e : CallContext) (o c m epoch : ℕ) (w : World) (objects : List PlainObject) (t u seen : ℕ) → u ≢ t
        → last_seen (Mark o) (w.known u).seen ≡ Some seen → is_biased seen ≡ false
        → ((w.known u).running ≡ true) ⊎ ((w.known u).requesting ≡ true)
        → read_mark m ≡ Some (Anonymous epoch 0)
        → Fits (world_after (make_plan e o c m) t w) objects → ⊥ }
{}

/// Nor does one where the first mark has the bias pattern and the object has no class word yet: who finds the mark biased
/// goes by the prototype of the object's class.
pub fn no_biased_first_mark_before_the_class_word()
    ensures { (e : CallContext) (o c m epoch : ℕ) (w : World) (objects : List PlainObject) (t : ℕ) → IsClassless w o
        → read_mark m ≡ Some (Anonymous epoch 0) → Fits (world_after (make_plan e o c m) t w) objects → ⊥ }
{}

/// No store of a class word leads to a valid world where there is no such class, or where a running thread has seen another
/// class there, by which it goes on.
pub fn no_wrong_class_word()
    ensures class { (e : CallContext) (o c : ℕ) (w : World) (objects : List PlainObject) (t : ℕ) → w.shape.classes ≤ c
        → Fits (world_after (class_plan e o c) t w) objects → ⊥ }
    ensures seen { (e : CallContext) (o c : ℕ) (w : World) (objects : List PlainObject) (t u seen : ℕ) → u ≢ t
        → last_seen (Class o) (w.known u).seen ≡ Some seen → (w.known u).running ≡ true → seen ≢ 0 → seen ≢ c + 1
        → Fits (world_after (class_plan e o c) t w) objects → ⊥ }
{}

/// The law of what is there refuses a thread that stands before the store of the first mark of an object that isn't its next
/// one: one of another thread's numbers, or one that is there already.
pub fn no_class_word_out_of_turn()
    ensures { (e : CallContext) (o c : ℕ) (w : World) (objects : List PlainObject) (t : ℕ) → t < w.shape.threads
        → making_in e.unfinished ≡ Some o
        → o ≢ made_number (numbering w.shape) t (length (news (w.known t).log))
        → Fits (world_after (class_plan e o c) t w) objects
        → MadeLawHolds (world_after (class_plan e o c) t w) → ⊥ }
{}

/// The law of what is there refuses the store of a first mark by a thread that isn't making that object: one that is making
/// another or none, or has made this one already.
pub fn no_first_mark_out_of_turn()
    ensures { (e : CallContext) (o c m : ℕ) (w : World) (objects : List PlainObject) (t : ℕ) → t < w.shape.threads
        → making_in (w.known t).unfinished ≢ Some o → Fits w objects → MadeLawHolds w
        → MadeLawHolds (world_after (make_plan e o c m) t w) → ⊥ }
{}
