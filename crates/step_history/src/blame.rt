//! Who is to blame for an exchange that missed. The function does nothing.

ghost use Rattle.std.specs.Prelude.{◌≡◌, ℕ, [], List, Result, Ok};
ghost use Rattle.core_world.specs.declared.answer.StackOut.TheVariants.{Not};
ghost use Rattle.core_world.specs.declared.answer.Progress.TheVariants.{Pending};
ghost use Rattle.core_world.specs.declared.answer.PendingCause.TheVariants.{Raced};
ghost use Rattle.core_world.specs.Threads.ThreadView.{Local, Start, StepMade};
ghost use Rattle.core_world.specs.Trees.LockSteps.{stack_exit_steps};
ghost use Rattle.core_world.specs.Trees.Operations.{enter_steps, exit_steps, wait_steps, notify_steps, notify_all_steps};
ghost use Rattle.core_world.specs.Trees.Operations.{hash_steps, dump_steps, check_steps};
ghost use Rattle.core_world.specs.Trees.Plans.{CallContext};
ghost use Rattle.core_world.specs.Trees.SafepointSteps.{resume_steps, request_steps};
ghost use Rattle.core_world.specs.Words.Shape.{Shape};
ghost use Rattle.core_world.specs.World.{World};
ghost use Rattle.step_history.specs.Leads.{Leads};
ghost use Rattle.step_history.specs.Overtaken.{IsCallOf, WasOvertaken};

/// An exchange that a call missed is another thread's doing. Let a world lead on to another one by these steps of all threads, of which
/// those of thread `t` are a whole call that answers that its exchange expected the one word and found the other (`IsCallOf`). Then
/// earlier in this call `t` saw or left the expected word there, another thread's step has changed it since, and before the exchange
/// (`WasOvertaken`). It is said of each call that may be pending for an exchange, but for an enter by a lock record as a call by itself,
/// which is given the mark that it expects.
pub fn calls_race_only_with_another_thread()
    ensures enter { (s : Shape) (k : Start) (o now t expected found : ℕ) (xs : List (ℕ × StepMade))
        → IsCallOf t (enter_steps s k o now) xs (Ok (Pending (Raced expected found)))
        → WasOvertaken t expected found xs }
    ensures exit { (k : Start) (o t expected found : ℕ) (xs : List (ℕ × StepMade))
        → IsCallOf t (exit_steps k o) xs (Ok (Pending (Raced expected found)))
        → WasOvertaken t expected found xs }
    ensures wait { (s : Shape) (k : Start) (o now t expected found : ℕ) (xs : List (ℕ × StepMade))
        → IsCallOf t (wait_steps s k o now) xs (Ok (Pending (Raced expected found)))
        → WasOvertaken t expected found xs }
    ensures notify { (s : Shape) (k : Start) (o now t expected found : ℕ) (xs : List (ℕ × StepMade))
        → IsCallOf t (notify_steps s k o now) xs (Ok (Pending (Raced expected found)))
        → WasOvertaken t expected found xs }
    ensures notify_all { (s : Shape) (k : Start) (o now t expected found : ℕ) (xs : List (ℕ × StepMade))
        → IsCallOf t (notify_all_steps s k o now) xs (Ok (Pending (Raced expected found)))
        → WasOvertaken t expected found xs }
    ensures hash { (s : Shape) (k : Start) (o now t expected found : ℕ) (xs : List (ℕ × StepMade))
        → IsCallOf t (hash_steps s k o now) xs (Pending (Raced expected found))
        → WasOvertaken t expected found xs }
    ensures dump { (s : Shape) (k : Start) (t expected found : ℕ) (xs : List (ℕ × StepMade))
        → IsCallOf t (dump_steps s k) xs (Ok (Pending (Raced expected found)))
        → WasOvertaken t expected found xs }
    ensures check { (s : Shape) (k : Start) (t expected found : ℕ) (xs : List (ℕ × StepMade))
        → IsCallOf t (check_steps s k) xs (Pending (Raced expected found))
        → WasOvertaken t expected found xs }
    ensures resume { (e : CallContext) (k : Local) (t expected found : ℕ) (xs : List (ℕ × StepMade))
        → IsCallOf t (resume_steps e k) xs (Pending (Raced expected found))
        → WasOvertaken t expected found xs }
    ensures request { (e : CallContext) (u t expected found : ℕ) (xs : List (ℕ × StepMade))
        → IsCallOf t (request_steps e u) xs (Pending (Raced expected found))
        → WasOvertaken t expected found xs }
    ensures stack_exit { (e : CallContext) (k : Local) (o t expected found : ℕ) (xs : List (ℕ × StepMade))
        → IsCallOf t (stack_exit_steps e k o) xs (Not (Raced expected found))
        → WasOvertaken t expected found xs }
{}
