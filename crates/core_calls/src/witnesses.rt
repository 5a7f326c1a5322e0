//! Calls that threads can make, so that the laws' premises are met: of runs, of what calls begin with, and of how their
//! threads stand. The functions do nothing.
ghost use Rattle.std.specs.Prelude.{◌≡◌, ℕ, true, false, length, [], ◌∷◌, Some, Ok, Err};
ghost use Rattle.std.specs.List.{AllByRecursion};
ghost use Rattle.lock_policy.specs.declared.policy.Verdict.TheVariants.{Single};
ghost use Rattle.mark_word.specs.declared.mark.MarkForm.TheVariants.{Neutral, Anonymous, Biased, Locked};
ghost use Rattle.mark_word.specs.declared.owner.OwnerForm.TheVariants.{ByThread};
ghost use Rattle.mark_word.specs.declared.wait.WaitForm.TheVariants.{Waiting};
ghost use Rattle.mark_word.specs.Mark.{mark_of, read_mark};
ghost use Rattle.mark_word.specs.Owner.{owner_of};
ghost use Rattle.mark_word.specs.Wait.{wait_of};
ghost use Rattle.plain_monitor.specs.declared.entry.Ending.{Ending};
ghost use Rattle.plain_monitor.specs.declared.entry.Entry.TheVariants as entry;
ghost use Rattle.plain_monitor.specs.declared.entry.Path.TheVariants.{BiasOwn, StackFirst};
ghost use Rattle.plain_monitor.specs.declared.entry.Value.{Value};
ghost use Rattle.plain_monitor.specs.declared.entry.Value.TheVariants.{Ref};
ghost use Rattle.core_world.specs.declared.answer.PendingCause.TheVariants as why;
ghost use Rattle.core_world.specs.declared.answer.Progress.TheVariants.{Done, Pending};
ghost use Rattle.core_world.specs.declared.answer.StackOut.TheVariants.{Left, Monitor};
ghost use Rattle.core_world.specs.declared.heap_call.HeapCall.TheVariants as task;
ghost use Rattle.core_world.specs.declared.heap_call.Operation.TheVariants as op;
ghost use Rattle.core_world.specs.declared.plan.StepPlan.{StepPlan};
ghost use Rattle.core_world.specs.Due.{Ran};
ghost use Rattle.core_world.specs.Steps.{rest_of_call};
ghost use Rattle.core_world.specs.Threads.ThreadView.{ThreadView, Start, CallUnderway};
ghost use Rattle.core_world.specs.Trees.Calls.{side_context, steps_of};
ghost use Rattle.core_world.specs.Trees.LockSteps.{stack_enter_steps, stack_exit_steps};
ghost use Rattle.core_world.specs.Trees.Operations.{lone_context, enter_steps, exit_steps, wait_steps, notify_steps};
ghost use Rattle.core_world.specs.Trees.Operations.{notify_all_steps, hash_steps};
ghost use Rattle.core_world.specs.Trees.Operations.{get_steps, put_steps, print_steps, finish_steps, dump_steps};
ghost use Rattle.core_world.specs.Trees.Operations.{create_steps, check_steps};
ghost use Rattle.core_world.specs.Trees.Plans.{call_context};
ghost use Rattle.core_world.specs.Trees.SafepointSteps.{poll_steps, stop_steps, resume_steps, request_steps};
ghost use Rattle.core_world.specs.Trees.SafepointSteps.{reached_steps, release_safepoint, reached_word};
ghost use Rattle.core_world.specs.Trees.StepTree.{StepTree, head};
ghost use Rattle.core_world.specs.Words.Forms.{is_biased};
ghost use Rattle.core_world.specs.Words.Shape.{Shape};
ghost use Rattle.core_calls.specs.Moments.{IsStepOf};
ghost use Rattle.core_calls.specs.Paths.{Says, Leaves, Tells, ThreadHasLogged};
ghost use Rattle.core_calls.specs.Stands.{begun, stopped};
ghost use Rattle.core_calls.specs.Witnessed.{IsRunTo, IsTrulyRunTo};

/// A thread enters, by a bias that it has or by a lock record; it is pending for another owner; and it is refused:
/// the runs of `enter_logs_its_answer`. It leaves, by its bias or by its lock record: the runs of
/// `exit_logs_its_answer`. It enters by a lock record in a call by itself, as `stack_enter_logs_its_answer` says; and
/// leaves by one, or leaves that to a monitor, as `stack_exit_logs_its_answer` says. So there are runs, as
/// `a_run_follows_a_path_of_its_tree` asks, and by that law their paths, as `every_path_of_a_tree_is_run` does.
pub fn enters_and_exits_are_run()
    ensures enter_by_bias { (now : ℕ) → IsRunTo (λ s k. enter_steps s k 0 now) (Ok (Done BiasOwn)) }
    ensures enter_by_record { (now : ℕ) → IsRunTo (λ s k. enter_steps s k 0 now) (Ok (Done StackFirst)) }
    ensures enter_pends { (now : ℕ) → IsRunTo (λ s k. enter_steps s k 0 now)
        (Ok (Pending (why.Owned (owner_of (ByThread 1))))) }
    ensures enter_refused { (now : ℕ) → IsRunTo (λ s k. enter_steps s k 0 now) (Err record {}) }
    ensures exit_by_bias { IsRunTo (λ s k. exit_steps k 0) (Ok (Done tt)) }
    ensures exit_by_record { IsRunTo (λ s k. exit_steps k 0) (Ok (Done tt)) }
    ensures stack_enter { IsRunTo (λ s k. stack_enter_steps (lone_context (task.StackEnter 0 (mark_of (Neutral 0 0))))
        k.local 0 (mark_of (Neutral 0 0))) (Done StackFirst) }
    ensures stack_exit { IsRunTo (λ s k. stack_exit_steps (call_context (task.StackExit 0) op.Exit 0) k.local 0)
        Left }
    ensures stack_exit_to_monitor { IsRunTo
        (λ s k. stack_exit_steps (call_context (task.StackExit 0) op.Exit 0) k.local 0) (Monitor 0) }
{}

/// A wait lets go, and is pending for a notify; and one that is notified at once is done: the runs of
/// `wait_logs_its_answer`. A notify wakes thread 1, as `notify_logs_its_answer` says. A notifyall wakes one thread,
/// and none where a lock record has the lock: the runs of `notify_all_logs_its_answer`.
pub fn waits_and_notifies_are_run()
    ensures wait_lets_go { (now : ℕ) → IsRunTo (λ s k. wait_steps s k 0 now)
        (Ok (Pending (why.NotNotified (wait_of (Waiting 0 1))))) }
    ensures wait_is_done { (now : ℕ) → IsRunTo (λ s k. wait_steps s k 0 now) (Ok (Done tt)) }
    ensures notify { (now : ℕ) → IsRunTo (λ s k. notify_steps s k 0 now) (Ok (Done (Some 1))) }
    ensures notify_all { (now : ℕ) → IsRunTo (λ s k. notify_all_steps s k 0 now) (Ok (Done 1)) }
    ensures notify_none { (now : ℕ) → IsRunTo (λ s k. notify_all_steps s k 0 now) (Ok (Done 0)) }
{}

/// A thread makes an object; and one that has made 1,024 is refused: the runs of `create_logs_its_object`.
pub fn creates_are_run()
    ensures made { (o : ℕ) × IsRunTo (λ s k. create_steps s k 0) (Ok o) }
    ensures refused { IsRunTo (λ s k. create_steps s k 0) (Err record {}) }
{}

/// A hash is found in a header: a run of `hash_logs_its_answer`. A reference is read from a slot, as
/// `get_logs_its_answer` says; a value is written there, as `put_logs_its_value` says; and one is printed, as
/// `print_logs_its_value` says. A thread ends, as `finish_logs_its_ending` says. It dumps, with as many shots before
/// as the call is given, and it is pending for another thread's request: the runs of `dump_logs_its_answer`.
pub fn calls_that_tell_are_run()
    ensures hash { (now : ℕ) → IsRunTo (λ s k. hash_steps s k 0 now) (Done 1) }
    ensures get { IsRunTo (λ s k. get_steps k 0 0) (Ok (Ref 0)) }
    ensures put { (value : Value) → IsRunTo (λ s k. put_steps k 0 0 value) (Ok tt) }
    ensures print { (value : Value) → IsRunTo (λ s k. print_steps k value) tt }
    ensures finish { (ending : Ending) → IsRunTo (λ s k. finish_steps k ending) tt }
    ensures dump { (s : Shape) × (start : ℕ) × (k : Start) × (before : ThreadView) × (after : ThreadView)
        × (length before.shots ≡ k.shots) × Ran s start (dump_steps s k) before after (Ok (Done 1)) }
    ensures dump_pends { IsRunTo (λ s k. dump_steps s k) (Ok (Pending (why.Requested (reached_word 1)))) }
{}

/// These calls are done: a poll, of `poll_logs_nothing`; a stop, of `stop_logs_nothing`; a resume, of
/// `resume_logs_nothing`; a check that finds the run stuck, of `check_logs_nothing`; and a request, a look whether it
/// is reached, and a release, of `request_logs_nothing`, `reached_logs_nothing` and `release_logs_nothing`.
pub fn calls_at_the_safepoint_word_are_run()
    ensures poll { IsRunTo (λ s k. poll_steps (side_context task.Poll k)) (Done tt) }
    ensures stop { IsRunTo (λ s k. stop_steps (side_context task.Stop k) k.local) tt }
    ensures resume { IsRunTo (λ s k. resume_steps (side_context task.Resume k) k.local) (Done tt) }
    ensures check { IsRunTo (λ s k. check_steps s k) (Done true) }
    ensures request { IsRunTo (λ s k. request_steps (lone_context task.Request) k.local.thread) (Done tt) }
    ensures reached { IsRunTo (λ s k. reached_steps (lone_context task.Reached)) (Done tt) }
    ensures release { IsRunTo (λ s k. release_safepoint (lone_context task.Release) k.local.thread) tt }
{}

/// A whole enter is run; and of another, which has made two steps, the third is to come: as `every_call_is_bounded`
/// asks for. A thread without a request meets a neutral mark, one without the bias pattern, and one that is biased to
/// it with the epoch of its prototype: as `common_enters_are_short` asks for.
pub fn bounded_calls_are_met()
    ensures run { (s : Shape) (start : ℕ) → (k : Start) × (before : ThreadView) × (after : ThreadView)
        × Ran s start (steps_of s (task.Enter 0 0) k) before after tt }
    ensures next { (s : Shape) → (k : ThreadView) × (b : CallUnderway) × (p : StepPlan) × (k.call ≡ Some b)
        × (head (rest_of_call s k) ≡ Some p) × (length b.answers ≡ 2) }
    ensures free { (k : Start) × (mark : ℕ) × (k.requesting ≡ false) × (read_mark mark ≡ Some (Neutral 1 0)) }
    ensures unbiased { (k : Start) × (mark : ℕ) × (k.requesting ≡ false) × (is_biased mark ≡ false)
        × (read_mark mark ≡ Some (Locked 1 0)) }
    ensures own { (k : Start) × (mark : ℕ) × (prototype : ℕ) × (k.requesting ≡ false)
        × (read_mark mark ≡ Some (Biased k.local.thread 1 0)) × (read_mark prototype ≡ Some (Anonymous 1 0)) }
{}

/// Threads below 32 without a request come to an answer, and each safepoint word that their steps find is true of
/// them. So it is of a dump and of a wait, as `operations_leave_their_thread_running` asks for; of an exit, as
/// `short_operations_leave_their_thread_running` asks for; and of a poll, a stop, a resume by a stopped thread, and a
/// check that answers true, as `calls_at_the_safepoint_word_tell_how_their_thread_stands` asks for.
pub fn calls_find_true_safepoint_words()
    ensures dump { IsTrulyRunTo (λ s k. dump_steps s k) begun (Ok (Done 1)) }
    ensures wait { (now : ℕ) → IsTrulyRunTo (λ s k. wait_steps s k 0 now) begun
        (Ok (Pending (why.NotNotified (wait_of (Waiting 0 1))))) }
    ensures exit { IsTrulyRunTo (λ s k. exit_steps k 0) begun (Ok (Done tt)) }
    ensures poll { IsTrulyRunTo (λ s k. poll_steps (side_context task.Poll k)) begun (Done tt) }
    ensures stop { IsTrulyRunTo (λ s k. stop_steps (side_context task.Stop k) k.local) begun tt }
    ensures resume { IsTrulyRunTo (λ s k. resume_steps (side_context task.Resume k) k.local) (λ k. stopped) (Done tt) }
    ensures check { IsTrulyRunTo (λ s k. check_steps s k) begun (Done true) }
{}

/// Steps that leave one entry, and steps that leave none, made of what a thread knew what it knows: as
/// `steps_make_of_knowledge_what_they_leave` asks for. A run whose steps are all of one enter counts a verdict: as
/// `a_run_counts_by_the_moment_of_its_call` asks for.
pub fn runs_leave_entries_and_counts()
    ensures one { (value : Value) → (k : ThreadView) × (l : ThreadView)
        × Tells k l (Leaves (entry.Print value ∷ []) None false)
        × ThreadHasLogged (entry.Print value ∷ []) None false k l }
    ensures none { (k : ThreadView) × (l : ThreadView) × Tells k l (Leaves [] None false)
        × ThreadHasLogged [] None false k l }
    ensures counts { (s : Shape) (start o now class : ℕ) → (d : StepTree ℕ) × (k : ThreadView) × (l : ThreadView)
        × Says d (λ ms _. AllByRecursion (IsStepOf (task.Enter o now)) ms) × Ran s start d k l 0
        × (l.counts ≡ record { class = class; verdict = Single; reset = false } ∷ []) }
{}
