//! Laws of the steps that log an Enter or a Resume: a load of the object's stamp, by which the thread becomes the object's plain
//! owner.

ghost use Rattle.std.specs.Prelude.{◌≡◌, ℕ, ◌+◌, ◌<◌, max, List};
ghost use Rattle.plain_monitor.specs.declared.entry.Entry.TheVariants.{Enter, Resume};
ghost use Rattle.plain_monitor.specs.declared.entry.Path.{Path};
ghost use Rattle.plain_monitor.specs.History.{last_stamp};
ghost use Rattle.plain_monitor.specs.Objects.{PlainObject};
ghost use Rattle.plain_history.specs.HeldByLog.{IsLastLetGo};
ghost use Rattle.core_world.specs.declared.word_id.WordId.TheVariants.{Stamp};
ghost use Rattle.core_world.specs.Trees.LockSteps.{log_enter_plan};
ghost use Rattle.core_world.specs.Trees.Plans.{CallContext};
ghost use Rattle.core_world.specs.Steps.{stamp_by};
ghost use Rattle.core_world.specs.Valid.{IsValid};
ghost use Rattle.core_world.specs.Trees.WaitSteps.{log_resume_plan};
ghost use Rattle.core_world.specs.World.{World, logs};
ghost use Rattle.core_locks.specs.Knowing.{LogsValid};
ghost use Rattle.core_locks.specs.JournalLaws.{MayLogEnter, MayLogResume};

/// A thread whose new hold word stands loads the object's stamp, and so logs its Enter. That the thread is one of the heap's comes
/// from the definition of the steps, and so does that the enter is what it has unfinished, if anything; the rest it tells by its own
/// knowledge.
pub fn logging_an_enter_keeps_the_world_valid()
    ensures { (e : CallContext) (o p : ℕ) (path : Path)
        → LogsValid (λ w t. MayLogEnter w.shape (w.known t) o p path)
        (λ w t. log_enter_plan e o path) (Enter o path) }
{}

/// A thread that was notified and has the object's monitor again loads the object's stamp, and so logs its Resume. That the thread
/// is one of the heap's comes from the definition of the steps; the rest it tells by its own knowledge.
pub fn logging_a_resume_keeps_the_world_valid()
    ensures { (e : CallContext) (o m : ℕ)
        → LogsValid (λ w t. MayLogResume w.shape (w.known t) o m) (λ w t. log_resume_plan e o) (Resume o) }
{}

/// The stamp of an Enter or a Resume follows from the logs alone, though it is made of the word that the step loads: it is one above
/// the thread's last stamp and the last stamp with which a thread let go of the object.
pub fn the_stamp_of_a_taking_follows_from_the_logs()
    ensures enter { (w : World) (objects : List PlainObject) (t o p : ℕ) (path : Path) (let_go : ℕ)
        → t < w.shape.threads
        → MayLogEnter w.shape (w.known t) o p path → IsValid w objects → IsLastLetGo (logs w) o let_go
        → stamp_by (Enter o path) (w.words (Stamp o)) (last_stamp (w.known t).log)
        ≡ max let_go (last_stamp (w.known t).log) + 1 }
    ensures resume { (w : World) (objects : List PlainObject) (t o m let_go : ℕ) → t < w.shape.threads
        → MayLogResume w.shape (w.known t) o m → IsValid w objects → IsLastLetGo (logs w) o let_go
        → stamp_by (Resume o) (w.words (Stamp o)) (last_stamp (w.known t).log)
        ≡ max let_go (last_stamp (w.known t).log) + 1 }
{}
