//! Laws of how a thread stands after its calls: whether it runs, and whether its request for a safepoint stands. They hold along each
//! path whose steps found safepoint words that were true of their thread: words that spell a form, and have the thread's bit and its
//! request exactly where it runs and asks.
ghost use Rattle.std.specs.Prelude.{◌≡◌, ℕ, ◌<◌, true, false, List};
ghost use Rattle.plain_monitor.specs.declared.entry.Ending.{Ending};
ghost use Rattle.plain_monitor.specs.declared.entry.Value.{Value};
ghost use Rattle.core_world.specs.Steps.{known_along};
ghost use Rattle.core_world.specs.declared.heap_call.HeapCall.TheVariants as task;
ghost use Rattle.core_world.specs.Threads.ThreadView.{ThreadView, StepMade, Start};
ghost use Rattle.core_world.specs.Words.Forms.{waits_on};
ghost use Rattle.core_world.specs.Words.Shape.{Shape};
ghost use Rattle.core_world.specs.Trees.Calls.{side_context};
ghost use Rattle.core_world.specs.Trees.Operations.{enter_steps, exit_steps, wait_steps, notify_steps, notify_all_steps, hash_steps};
ghost use Rattle.core_world.specs.Trees.Operations.{get_steps, put_steps, print_steps, finish_steps, dump_steps, create_steps, check_steps};
ghost use Rattle.core_world.specs.Trees.SafepointSteps.{poll_steps, stop_steps, resume_steps};
ghost use Rattle.core_calls.specs.Stands.{IsGoing, IsOff, ThreadStandsAlong, stand_of, stand_after_steps, begun, stopped};
ghost use Rattle.core_calls.specs.Stands.{ProgressStands, ResultStands, RunsAfter, PollStands, ResumeStands, CheckStands};

/// After an operation that may ask for a safepoint its thread runs, unless it is pending for running threads: then its request stands. It
/// is pending for those, or for a request, by another thread. As it begins its thread asks, or it runs. A wait that has let go asks for
/// none.
pub fn operations_leave_their_thread_running()
    ensures enter { (s : Shape) (k : Start) (o now : ℕ) → k.local.thread < 32
        → ThreadStandsAlong k.local.thread (begun k) (enter_steps s k o now) (ResultStands k.local.thread) }
    ensures wait { (s : Shape) (k : Start) (o now : ℕ) → k.local.thread < 32
        → (waits_on k.local.wait o ≡ true → k.requesting ≡ false)
        → ThreadStandsAlong k.local.thread (begun k) (wait_steps s k o now) (ResultStands k.local.thread) }
    ensures notify { (s : Shape) (k : Start) (o now : ℕ) → k.local.thread < 32
        → ThreadStandsAlong k.local.thread (begun k) (notify_steps s k o now) (ResultStands k.local.thread) }
    ensures notify_all { (s : Shape) (k : Start) (o now : ℕ) → k.local.thread < 32
        → ThreadStandsAlong k.local.thread (begun k) (notify_all_steps s k o now) (ResultStands k.local.thread) }
    ensures hash { (s : Shape) (k : Start) (o now : ℕ) → k.local.thread < 32
        → ThreadStandsAlong k.local.thread (begun k) (hash_steps s k o now) (ProgressStands k.local.thread) }
    ensures dump { (s : Shape) (k : Start) → k.local.thread < 32
        → ThreadStandsAlong k.local.thread (begun k) (dump_steps s k) (ResultStands k.local.thread) }
{}

/// After an operation that asks for no safepoint its thread runs, if it ran before.
pub fn short_operations_leave_their_thread_running()
    ensures exit { (k : Start) (o : ℕ) → k.local.thread < 32 → k.requesting ≡ false
        → ThreadStandsAlong k.local.thread (begun k) (exit_steps k o) (ResultStands k.local.thread) }
    ensures get { (k : Start) (o slot : ℕ) → k.local.thread < 32 → k.requesting ≡ false
        → ThreadStandsAlong k.local.thread (begun k) (get_steps k o slot) RunsAfter }
    ensures put { (k : Start) (o slot : ℕ) (value : Value) → k.local.thread < 32 → k.requesting ≡ false
        → ThreadStandsAlong k.local.thread (begun k) (put_steps k o slot value) RunsAfter }
    ensures print { (k : Start) (value : Value) → k.local.thread < 32 → k.requesting ≡ false
        → ThreadStandsAlong k.local.thread (begun k) (print_steps k value) (λ b _. IsGoing b) }
    ensures finish { (k : Start) (ending : Ending) → k.local.thread < 32 → k.requesting ≡ false
        → ThreadStandsAlong k.local.thread (begun k) (finish_steps k ending) (λ b _. IsGoing b) }
    ensures create { (s : Shape) (k : Start) (c : ℕ) → k.local.thread < 32 → k.requesting ≡ false
        → ThreadStandsAlong k.local.thread (begun k) (create_steps s k c) RunsAfter }
{}

/// A poll leaves its thread running, a stop leaves it stopped, and a resume sets it running or leaves it stopped. A check that finds the run
/// stuck leaves its thread stopped; else its thread runs, unless its request stands.
pub fn calls_at_the_safepoint_word_tell_how_their_thread_stands()
    ensures poll { (k : Start) → k.local.thread < 32 → k.requesting ≡ false
        → ThreadStandsAlong k.local.thread (begun k) (poll_steps (side_context task.Poll k)) (PollStands k.local.thread) }
    ensures stop { (k : Start) → k.local.thread < 32 → k.requesting ≡ false
        → ThreadStandsAlong k.local.thread (begun k) (stop_steps (side_context task.Stop k) k.local) (λ b _. IsOff b) }
    ensures resume { (k : Start) → k.local.thread < 32
        → ThreadStandsAlong k.local.thread stopped (resume_steps (side_context task.Resume k) k.local)
        (ResumeStands k.local.thread) }
    ensures check { (s : Shape) (k : Start) → k.local.thread < 32
        → ThreadStandsAlong k.local.thread (begun k) (check_steps s k) (CheckStands k.local.thread) }
{}

/// A thread knows of itself how it stands: after any steps that is what these steps make of it.
pub fn a_thread_knows_how_it_stands()
    ensures { (s : Shape) (start : ℕ) (ms : List StepMade) (k : ThreadView)
        → stand_of (known_along s start ms k) ≡ stand_after_steps k.thread ms (stand_of k) }
{}
