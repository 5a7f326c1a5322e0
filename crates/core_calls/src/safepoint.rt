//! Laws of the calls that log nothing: poll, stop, resume and check, and the parts of a safepoint.
ghost use Rattle.std.specs.Prelude.{◌≡◌, ℕ, Bool, true, List, ◌∷◌, length, bit_and};
ghost use Rattle.mark_word.specs.Safe.{read_safe};
ghost use Rattle.core_world.specs.declared.answer.Progress.{Progress};
ghost use Rattle.core_world.specs.declared.answer.Progress.TheVariants.{Done};
ghost use Rattle.core_world.specs.Words.Forms.{runs_in};
ghost use Rattle.core_world.specs.Words.Shape.{Shape};
ghost use Rattle.core_world.specs.Threads.ThreadView.{ThreadView, StepMade, Start};
ghost use Rattle.core_world.specs.Trees.SafepointSteps.{all_but, running_too, poll_steps, stop_steps, resume_steps, request_steps, reached_steps, release_safepoint, resume_plan};
ghost use Rattle.core_world.specs.Trees.Operations.{lone_context, check_steps};
ghost use Rattle.core_world.specs.Trees.Calls.{side_context};
ghost use Rattle.core_world.specs.Due.{Ran};
ghost use Rattle.core_calls.specs.Paths.{Says, Tells};
ghost use Rattle.core_calls.specs.CallsSay.{PollSays, StopSays, ResumeSays, CheckSays, RequestSays, ReachedSays, ReleaseSays};
ghost use Rattle.core_world.specs.declared.heap_call.HeapCall.TheVariants as task;
ghost use Rattle.core_calls.specs.Stuck.{CheckFinds};

/// A poll logs nothing, and leaves the unfinished operation and check as they are. It is done exactly where the safepoint word that it loads
/// has no requester.
pub fn poll_logs_nothing()
    ensures steps { (k : Start) → Says (poll_steps (side_context task.Poll k)) (PollSays k) }
    ensures run { (k : Start) (shape : Shape) (start : ℕ) (before after : ThreadView) (a : Progress (Unit {0}))
        → Ran shape start (poll_steps (side_context task.Poll k)) before after a
        → Tells before after (λ ms. PollSays k ms a) }
{}

/// A stop logs nothing, and leaves the unfinished operation and check as they are. It publishes the length of the log, and then clears the
/// thread's bit. So the length of its log is what the thread knows published, and it knows itself running where the word that it left has its
/// bit.
pub fn stop_logs_nothing()
    ensures steps { (k : Start) → Says (stop_steps (side_context task.Stop k) k.local) (StopSays k) }
    ensures run { (k : Start) (shape : Shape) (start : ℕ) (before after : ThreadView) (a : Unit {0})
        → Ran shape start (stop_steps (side_context task.Stop k) k.local) before after a
        → Tells before after (λ ms. StopSays k ms a) }
    ensures leaves { (k : Start) (shape : Shape) (start : ℕ) (before after : ThreadView)
        → Ran shape start (stop_steps (side_context task.Stop k) k.local) before after tt
        → (after.published ≡ length k.local.log)
        × ((word : ℕ) × (after.running ≡ runs_in (bit_and word (all_but k.local.thread)) before.thread)) }
{}

/// A resume logs nothing, and leaves the unfinished operation and check as they are. Where it is done, its exchange set the thread's bit in a
/// word without a requester and without the halt. That exchange is its last step, and the thread knows itself running where the word that it put has its bit.
/// It is the one call that is ever pending for the halt, and then it found it in the safepoint word.
pub fn resume_logs_nothing()
    ensures steps { (k : Start) → Says (resume_steps (side_context task.Resume k) k.local) (ResumeSays k) }
    ensures run { (k : Start) (shape : Shape) (start : ℕ) (before after : ThreadView) (a : Progress (Unit {0}))
        → Ran shape start (resume_steps (side_context task.Resume k) k.local) before after a
        → Tells before after (λ ms. ResumeSays k ms a) }
    ensures leaves { (k : Start) (shape : Shape) (start : ℕ) (before after : ThreadView)
        → Ran shape start (resume_steps (side_context task.Resume k) k.local) before after (Done tt)
        → (word : ℕ) × (after.running ≡ runs_in (running_too (read_safe word) k.local.thread) before.thread)
        × ((steps : List StepMade) × (after.steps ≡ record {
          plan = resume_plan (side_context task.Resume k) k.local.thread word;
          found = word;
        } ∷ steps)) }
{}

/// A check logs nothing, and leaves the unfinished operation. It is itself unfinished where its request stands and isn't reached, and over after
/// every other answer. One that is done put the halt into the safepoint word, in place of its request, exactly where it answers true, and else the
/// release. So its thread knows the halt where it answers true. Where the request stood before, it is pending for that alone.
pub fn check_logs_nothing()
    ensures steps { (s : Shape) (k : Start) → Says (check_steps s k) (CheckSays k) }
    ensures run { (s : Shape) (k : Start) (shape : Shape) (start : ℕ) (before after : ThreadView) (a : Progress Bool)
        → Ran shape start (check_steps s k) before after a
        → Tells before after (λ ms. CheckSays k ms a) }
    ensures halted { (s : Shape) (k : Start) (shape : Shape) (start : ℕ) (before after : ThreadView)
        → Ran shape start (check_steps s k) before after (Done true)
        → after.halted ≡ true }
{}

/// A request for a safepoint by itself logs nothing. Where it is done, its exchange put the request into a word without a requester. It is
/// pending for its exchange, which expected the word that it had loaded, or for a request that it found.
pub fn request_logs_nothing()
    ensures steps { (k : Start) → Says (request_steps (lone_context task.Request) k.local.thread) (RequestSays k) }
    ensures run { (k : Start) (shape : Shape) (start : ℕ) (before after : ThreadView) (a : Progress (Unit {0}))
        → Ran shape start (request_steps (lone_context task.Request) k.local.thread) before after a
        → Tells before after (λ ms. RequestSays k ms a) }
{}

/// A look whether the thread's own safepoint is reached logs nothing. It is done exactly where no thread runs by the word that it loads.
pub fn reached_logs_nothing()
    ensures steps { (k : Start) → Says (reached_steps (lone_context task.Reached)) (ReachedSays k) }
    ensures run { (k : Start) (shape : Shape) (start : ℕ) (before after : ThreadView) (a : Progress (Unit {0}))
        → Ran shape start (reached_steps (lone_context task.Reached)) before after a
        → Tells before after (λ ms. ReachedSays k ms a) }
{}

/// The release of the thread's own safepoint logs nothing. Its exchange put the word without the request, where this thread alone runs.
pub fn release_logs_nothing()
    ensures steps { (k : Start) → Says (release_safepoint (lone_context task.Release) k.local.thread) (ReleaseSays k) }
    ensures run { (k : Start) (shape : Shape) (start : ℕ) (before after : ThreadView) (a : Unit {0})
        → Ran shape start (release_safepoint (lone_context task.Release) k.local.thread) before after a
        → Tells before after (λ ms. ReleaseSays k ms a) }
{}

/// A check that is done answers true exactly where, by the words that it loaded, some thread is live and none can go
/// on. Of each thread it loaded the waiting word. Where that says that the thread enters an object or was notified on
/// it, it loaded the object's mark and the owner of its monitor too.
pub fn check_answers_whether_any_thread_goes_on()
    ensures { (s : Shape) (k : Start) → Says (check_steps s k) (CheckFinds s) }
{}
