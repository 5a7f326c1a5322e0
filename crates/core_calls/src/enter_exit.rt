//! Laws of the calls that enter and leave objects.
ghost use Rattle.std.specs.Prelude.{ℕ, Result};
ghost use Rattle.plain_monitor.specs.declared.entry.Path.{Path};
ghost use Rattle.core_world.specs.declared.answer.Progress.{Progress};
ghost use Rattle.core_world.specs.declared.answer.StackOut.{StackOut};
ghost use Rattle.core_world.specs.declared.answer.TooDeep.{TooDeep};
ghost use Rattle.core_world.specs.declared.answer.IllegalMonitorState.{IllegalMonitorState};
ghost use Rattle.core_world.specs.Words.Shape.{Shape};
ghost use Rattle.core_world.specs.Threads.ThreadView.{ThreadView, Start};
ghost use Rattle.core_world.specs.Trees.Plans.{call_context};
ghost use Rattle.core_world.specs.Trees.LockSteps.{stack_enter_steps, stack_exit_steps};
ghost use Rattle.core_world.specs.Trees.Operations.{lone_context, enter_steps, exit_steps};
ghost use Rattle.core_world.specs.Due.{Ran};
ghost use Rattle.core_calls.specs.Paths.{Says, Tells};
ghost use Rattle.core_calls.specs.CallsSay.{EnterSays, ExitSays, StackEnterSays, StackExitSays};
ghost use Rattle.core_world.specs.declared.heap_call.HeapCall.TheVariants as task;
ghost use Rattle.core_world.specs.declared.heap_call.Operation.TheVariants as op;

/// An enter that is done logs its Enter, with the path that it answers, and nothing else; nothing is unfinished then. A pending one logs
/// nothing and stays unfinished: for an owner, an exchange, an inflation or a safepoint, which one of its own steps found. An exchange that
/// missed expected a word that the call had loaded, or that the call itself had put into the mark in place of a bias. An enter is refused,
/// without a step, exactly where the thread has 64 holds and no unfinished enter of the object.
pub fn enter_logs_its_answer()
    ensures steps { (s : Shape) (k : Start) (o now : ℕ) → Says (enter_steps s k o now) (EnterSays k o) }
    ensures run { (s : Shape) (k : Start) (o now : ℕ) (shape : Shape) (start : ℕ) (before after : ThreadView)
        (a : Result (Progress Path) TooDeep)
        → Ran shape start (enter_steps s k o now) before after a
        → Tells before after (λ ms. EnterSays k o ms a) }
{}

/// An exit that is done logs its Exit, and nothing else. A pending one logs nothing and stays unfinished: an exchange of its own, which
/// expected a word that it had loaded, missed, or it found the object's lock being inflated. It is refused, without a step, exactly where the thread has no hold on the object.
pub fn exit_logs_its_answer()
    ensures steps { (k : Start) (o : ℕ) → Says (exit_steps k o) (ExitSays k o) }
    ensures run { (k : Start) (o : ℕ) (shape : Shape) (start : ℕ) (before after : ThreadView)
        (a : Result (Progress (Unit {0})) IllegalMonitorState)
        → Ran shape start (exit_steps k o) before after a
        → Tells before after (λ ms. ExitSays k o ms a) }
{}

/// The enter by a lock record, as a call by itself. It is pending for its own exchange alone, which expected the mark that the call was given.
pub fn stack_enter_logs_its_answer()
    ensures steps { (k : Start) (o mark : ℕ) → Says
        (stack_enter_steps (lone_context (task.StackEnter o mark)) k.local o mark) (StackEnterSays o mark) }
    ensures run { (k : Start) (o mark : ℕ) (shape : Shape) (start : ℕ) (before after : ThreadView) (a : Progress Path)
        → Ran shape start (stack_enter_steps (lone_context (task.StackEnter o mark)) k.local o mark) before after a
        → Tells before after (λ ms. StackEnterSays o mark ms a) }
{}

/// The exit by a lock record, as a call by itself: only where it leaves the record does it log anything, and that is its Exit. The number of
/// a monitor that it answers is the one in the mark that it loaded.
pub fn stack_exit_logs_its_answer()
    ensures steps { (k : Start) (o : ℕ)
        → Says (stack_exit_steps (call_context (task.StackExit o) op.Exit o) k.local o) (StackExitSays k o) }
    ensures run { (k : Start) (o : ℕ) (shape : Shape) (start : ℕ) (before after : ThreadView) (a : StackOut)
        → Ran shape start (stack_exit_steps (call_context (task.StackExit o) op.Exit o) k.local o) before after a
        → Tells before after (λ ms. StackExitSays k o ms a) }
{}
