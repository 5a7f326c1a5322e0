//! Laws that what is said of calls is refused where a tree of steps, an answer, or what a thread knows is wrong in
//! one way. The functions do nothing.
ghost use Rattle.std.specs.Prelude.{◌≡◌, ◌≢◌, ℕ, ◌+◌, ◌≤◌, ◌<◌, Bool, true, false, is_none, length, reverse};
ghost use Rattle.std.specs.Prelude.{List, [], ◌∷◌, ◌++◌};
ghost use Rattle.std.specs.Prelude.{Option, Some, None, Ok, Err};
ghost use Rattle.std.specs.List.{AllByRecursion};
ghost use Rattle.lock_policy.specs.declared.policy.Verdict.{Verdict};
ghost use Rattle.mark_word.specs.declared.mark.MarkForm.TheVariants.{Neutral, Anonymous, Biased, Locked};
ghost use Rattle.mark_word.specs.declared.wait.WaitForm.TheVariants.{Entering, Waiting};
ghost use Rattle.mark_word.specs.Mark.{mark_of};
ghost use Rattle.mark_word.specs.Wait.{wait_of};
ghost use Rattle.plain_monitor.specs.History.{last_stamp};
ghost use Rattle.plain_monitor.specs.ValueWords.{word_of};
ghost use Rattle.plain_monitor.specs.declared.entry.Ending.{Ending};
ghost use Rattle.plain_monitor.specs.declared.entry.Ending.TheVariants as ending;
ghost use Rattle.plain_monitor.specs.declared.entry.Entry.{Entry};
ghost use Rattle.plain_monitor.specs.declared.entry.Entry.TheVariants as entry;
ghost use Rattle.plain_monitor.specs.declared.entry.Logged.{Logged};
ghost use Rattle.plain_monitor.specs.declared.entry.Path.{Path};
ghost use Rattle.plain_monitor.specs.declared.entry.Value.{Value};
ghost use Rattle.plain_monitor.specs.declared.entry.Value.TheVariants.{Nil};
ghost use Rattle.core_world.specs.declared.act.Act.TheVariants.{Store};
ghost use Rattle.core_world.specs.declared.answer.IllegalMonitorState.{IllegalMonitorState};
ghost use Rattle.core_world.specs.declared.answer.PendingCause.{PendingCause};
ghost use Rattle.core_world.specs.declared.answer.PendingCause.TheVariants as why;
ghost use Rattle.core_world.specs.declared.answer.Progress.TheVariants.{Done, Pending};
ghost use Rattle.core_world.specs.declared.answer.StackOut.TheVariants.{Left, Monitor};
ghost use Rattle.core_world.specs.declared.answer.TooDeep.{TooDeep};
ghost use Rattle.core_world.specs.declared.answer.TooMany.{TooMany};
ghost use Rattle.core_world.specs.declared.heap_call.HeapCall.TheVariants as task;
ghost use Rattle.core_world.specs.declared.heap_call.Operation.TheVariants as op;
ghost use Rattle.core_world.specs.declared.heap_call.Unfinished.{Unfinished};
ghost use Rattle.core_world.specs.declared.plan.LocalEffect.TheVariants.{CountVerdict};
ghost use Rattle.core_world.specs.declared.plan.StepPlan.{StepPlan};
ghost use Rattle.core_world.specs.declared.stage.Stage.TheVariants.{Settled};
ghost use Rattle.core_world.specs.declared.word_id.WordId.{WordId};
ghost use Rattle.core_world.specs.declared.word_id.WordId.TheVariants as id;
ghost use Rattle.core_world.specs.Opening.{first_known};
ghost use Rattle.core_world.specs.Steps.{known_along};
ghost use Rattle.core_world.specs.Threads.Counts.{CountedVerdict};
ghost use Rattle.core_world.specs.Threads.Stages.{Revocation};
ghost use Rattle.core_world.specs.Threads.ThreadView.{ThreadView, StepMade, Start, DumpShot, start_of};
ghost use Rattle.core_world.specs.Trees.Calls.{side_context, steps_of};
ghost use Rattle.core_world.specs.Trees.CreateSteps.{creating, class_plan, make_plan, next_made};
ghost use Rattle.core_world.specs.Trees.HashSteps.{NextDraw, draw_plan};
ghost use Rattle.core_world.specs.Trees.LockSteps.{log_enter_plan, leave_plan};
ghost use Rattle.core_world.specs.Trees.Operations.{lone_context, enter_steps, print_steps, finish_steps};
ghost use Rattle.core_world.specs.Trees.Operations.{revocation_steps, get_plan, put_plan, create_steps, dump_steps};
ghost use Rattle.core_world.specs.Trees.Operations.{check_steps};
ghost use Rattle.core_world.specs.Trees.Plans.{CallContext, call_context, load, swap, with_own};
ghost use Rattle.core_world.specs.Trees.SafepointSteps.{stop_plan, release_plan, halt_steps, resume_swap_steps};
ghost use Rattle.core_world.specs.Trees.SafepointSteps.{request_swap_steps};
ghost use Rattle.core_world.specs.Trees.SafepointSteps.{reached_word, stop_steps, resume_steps};
ghost use Rattle.core_world.specs.Due.{Ran};
ghost use Rattle.core_world.specs.Trees.StepTree.{done, step, ask, all_from, after_answer};
ghost use Rattle.core_world.specs.Trees.WaitSteps.{log_resume_plan, notify_plan, notify_all_plan, publish_plan};
ghost use Rattle.core_world.specs.Trees.WaitSteps.{waiters, by_age};
ghost use Rattle.core_world.specs.Words.Shape.{Shape};
ghost use Rattle.core_calls.specs.Bounds.{IsWithin, after_class, most_steps};
ghost use Rattle.core_calls.specs.CallsSay.{is_full, has_none, lets_go, EnterSays, ExitSays, StackEnterSays};
ghost use Rattle.core_calls.specs.CallsSay.{StackExitSays};
ghost use Rattle.core_calls.specs.CallsSay.{WaitSays, NotifySays, NotifyAllSays, CreateSays, HashSays, GetSays};
ghost use Rattle.core_calls.specs.CallsSay.{PutSays, PrintSays, FinishSays, DumpSays};
ghost use Rattle.core_calls.specs.CallsSay.{PollSays, StopSays, ResumeSays, CheckSays, RequestSays, ReachedSays};
ghost use Rattle.core_calls.specs.CallsSay.{ReleaseSays};
ghost use Rattle.core_calls.specs.Moments.{IsStepOf, HasCalled};
ghost use Rattle.core_calls.specs.Paths.{IsPath, Says, Tells, FollowsTree, ThreadHasLogged};
ghost use Rattle.core_calls.specs.Stands.{ThreadStandsAlong, IsGoing, IsOff, stand_of, stopped};
ghost use Rattle.core_calls.specs.Stands.{ProgressStands, ResultStands, RunsAfter, PollStands, ResumeStands};
ghost use Rattle.core_calls.specs.Stands.{CheckStands};
ghost use Rattle.core_calls.specs.Stuck.{CheckFinds};
ghost use Rattle.core_calls.specs.Woken.{oldest, Wakes, WakesAll, IfDone};

/// What `every_call_is_bounded` says is no bound of a call that makes as many steps as a word says, whatever the
/// bound; of a create of the first object with two steps, one less than its bound; of a run of a poll that made two
/// steps; and of a poll that has made its step and is to make another. What `common_enters_are_short` says is the
/// least bound: with one step less it isn't so of an enter by a neutral mark, by the mark of another thread's lock
/// record, and by the thread's own bias, where the thread was pending for a monitor before. What
/// `a_revocation_is_bounded` says isn't so with the steps of the request and the look alone.
pub fn no_call_is_shorter_than_its_steps()
    ensures unbounded { (n : ℕ) (p : StepPlan)
        → IsWithin n (step p (λ word. all_from 0 word (λ i. step p (λ found. done tt)))) → ⊥ }
    ensures tree { (s : Shape) (k : Start) (c : ℕ) → k.local.log ≡ []
        → IsWithin 2 (steps_of s (task.Create c) k) → ⊥ }
    ensures run { (s : Shape) (k : ThreadView) (m n : StepMade)
        → length (record k { steps = m ∷ n ∷ k.steps }).steps ≤ most_steps s task.Poll + length k.steps → ⊥ }
    ensures next { (s : Shape) (word : ℕ) → length (word ∷ []) < most_steps s task.Poll → ⊥ }
    ensures free { (s : Shape) (now : ℕ) → IsWithin 4 (after_answer
        (enter_steps s (start_of 0 (record (first_known 0) { wait = wait_of (Entering 0) })) 0 now)
        (mark_of (Neutral 0 0))) → ⊥ }
    ensures unbiased { (s : Shape) (now : ℕ) → IsWithin 16 (after_answer
        (enter_steps s (start_of 0 (record (first_known 0) { wait = wait_of (Entering 0) })) 0 now)
        (mark_of (Locked 1 0))) → ⊥ }
    ensures own { (s : Shape) (now class : ℕ) → s.declared ≡ 1
        → IsWithin 2 (after_answer (after_class s 0 class (after_answer
        (enter_steps s (start_of 0 (record (first_known 0) { wait = wait_of (Entering 0) })) 0 now)
        (mark_of (Biased 0 0 0)))) (mark_of (Anonymous 0 0))) → ⊥ }
    ensures revocation { (s : Shape) (t : ℕ) (e : CallContext) (b : Revocation)
        → IsWithin 3 (revocation_steps s t false e b) → ⊥ }
{}

/// An enter that is done and logs nothing, or another path than it answers, or that leaves its operation unfinished;
/// one that is pending for an owner and loaded only the mark, or for an exchange that expected another word than the
/// call had loaded; and one that is refused though the thread has a place: `enter_logs_its_answer` doesn't say so. An
/// exit that is done and logs nothing, or the exit of another object; one that is pending for an owner, which it
/// found; and one that is refused though the thread has a hold: `exit_logs_its_answer` doesn't. An enter by a lock
/// record that is done and logs nothing, or whose exchange expected the mark that it loads and not the one that it
/// was given: `stack_enter_logs_its_answer` doesn't. An exit by a lock record that leaves the record and logs
/// nothing, or that answers a monitor that the mark doesn't name: `stack_exit_logs_its_answer` doesn't.
pub fn no_enter_or_exit_logs_another_answer()
    ensures enter_unlogged { (k : Start) (o : ℕ) (path : Path) → Says (done (Ok (Done path))) (EnterSays k o) → ⊥ }
    ensures enter_path { (e : CallContext) (k : Start) (o : ℕ) (p q : Path) → p ≢ q
        → Says (step (log_enter_plan e o p) (λ x. done (Ok (Done q)))) (EnterSays k o) → ⊥ }
    ensures enter_unfinished { (e : CallContext) (k : Start) (o : ℕ) (p : Path) (u : Unfinished)
        → Says (step (record (log_enter_plan e o p) { after = Some u }) (λ x. done (Ok (Done p)))) (EnterSays k o) → ⊥ }
    ensures enter_owned { (k : Start) (o now : ℕ)
        → Says (step (load (call_context (task.Enter o now) op.Enter o) (id.Mark o))
        (λ word. done (Ok (Pending (why.Owned word))))) (EnterSays k o) → ⊥ }
    ensures enter_raced { (k : Start) (o now expected word : ℕ)
        → Says (step (load (call_context (task.Enter o now) op.Enter o) (id.Mark o))
        (λ mark. step (swap (call_context (task.Enter o now) op.Enter o) (id.Mark o) expected word)
        (λ found. done (Ok (Pending (why.Raced expected found)))))) (EnterSays k o) → ⊥ }
    ensures enter_refused { (k : Start) (o : ℕ) (e : TooDeep) → is_full k o ≡ false
        → Says (done (Err e)) (EnterSays k o) → ⊥ }
    ensures exit_unlogged { (k : Start) (o : ℕ) → Says (done (Ok (Done tt))) (ExitSays k o) → ⊥ }
    ensures exit_other { (e : CallContext) (k : Start) (o other t place : ℕ) → other ≢ o
        → Says (step (leave_plan e t other place) (λ x. done (Ok (Done tt)))) (ExitSays k o) → ⊥ }
    ensures exit_owned { (k : Start) (o monitor : ℕ)
        → Says (step (load (call_context (task.Exit o) op.Exit o) (id.Owner monitor))
        (λ word. done (Ok (Pending (why.Owned word))))) (ExitSays k o) → ⊥ }
    ensures exit_refused { (k : Start) (o : ℕ) (e : IllegalMonitorState) → has_none k o ≡ false
        → Says (done (Err e)) (ExitSays k o) → ⊥ }
    ensures stack_enter_unlogged { (o mark : ℕ) (path : Path) → Says (done (Done path)) (StackEnterSays o mark) → ⊥ }
    ensures stack_enter_raced { (o mark word : ℕ)
        → Says (step (load (lone_context (task.StackEnter o mark)) (id.Mark o))
        (λ loaded. step (swap (lone_context (task.StackEnter o mark)) (id.Mark o) loaded word)
        (λ found. done (Pending (why.Raced loaded found))))) (StackEnterSays o mark) → ⊥ }
    ensures stack_exit_unlogged { (k : Start) (o : ℕ) → Says (done Left) (StackExitSays k o) → ⊥ }
    ensures stack_exit_monitor { (k : Start) (o number : ℕ)
        → Says (step (load (call_context (task.StackExit o) op.Exit o) (id.Mark o)) (λ mark. done (Monitor number)))
        (StackExitSays k o) → ⊥ }
{}

/// A wait that lets go, is done, and logs its Resume alone; one that goes on, is done, and logs its Wait once more;
/// and one that is pending for a notify and hasn't loaded its waiting word: `wait_logs_its_answer` doesn't say so. A
/// notify that logs that it woke a thread, and answers none: `notify_logs_its_answer` doesn't. A notifyall that logs
/// another number than it answers: `notify_all_logs_its_answer` doesn't.
pub fn no_wait_or_notify_logs_another_answer()
    ensures wait_unlogged { (e : CallContext) (k : Start) (o : ℕ) → lets_go k o ≡ true
        → Says (step (log_resume_plan e o) (λ x. done (Ok (Done tt)))) (WaitSays k o) → ⊥ }
    ensures wait_again { (e : CallContext) (k : Start) (o t : ℕ) → lets_go k o ≡ false
        → Says (step (publish_plan e t (entry.Wait o) 0) (λ x. step (log_resume_plan e o) (λ y. done (Ok (Done tt)))))
        (WaitSays k o) → ⊥ }
    ensures wait_unnotified { (k : Start) (o now : ℕ)
        → Says (step (load (call_context (task.Wait o now) op.Wait o) (id.Mark o))
        (λ word. done (Ok (Pending (why.NotNotified word))))) (WaitSays k o) → ⊥ }
    ensures notify { (e : CallContext) (k : Start) (o t : ℕ)
        → Says (step (notify_plan e o t) (λ x. done (Ok (Done None)))) (NotifySays k o) → ⊥ }
    ensures notify_all { (e : CallContext) (k : Start) (o t n m : ℕ) → n ≢ m
        → Says (step (notify_all_plan e o t n) (λ x. done (Ok (Done m)))) (NotifyAllSays k o) → ⊥ }
{}

/// A notify that wakes a thread and hasn't looked whether it waits, and one that wakes the youngest of two threads
/// that wait; a notifyall that wakes none, whatever it finds; and waiting words of which one waits, that have no
/// oldest waiter or no waiter at all: `notify_wakes_the_oldest_waiter` doesn't say so.
pub fn no_notify_wakes_another_waiter()
    ensures unseen { (e : CallContext) (s : Shape) (o t : ℕ)
        → Says (step (notify_plan e o t) (λ x. done (Ok (Done (Some t))))) (IfDone (Wakes s o)) → ⊥ }
    ensures youngest { (e : CallContext) (s : Shape) → s.threads ≡ 2
        → Says (step (load e (id.Mark 0)) (λ mark. step (load e (id.Waiting 0)) (λ a. step (load e (id.Waiting 1)) (λ b.
        done (Ok (Done (oldest (reverse (by_age (waiters 0 0 (a ∷ b ∷ []))))))))))) (IfDone (Wakes s 0)) → ⊥ }
    ensures all { (e : CallContext) (s : Shape) → s.threads ≡ 1
        → Says (step (load e (id.Mark 0)) (λ mark. step (load e (id.Waiting 0)) (λ a. done (Ok (Done 0)))))
        (IfDone (WakesAll s 0)) → ⊥ }
    ensures none { is_none (oldest (by_age (waiters 0 0 (wait_of (Waiting 0 1) ∷ [])))) ≡ true → ⊥ }
    ensures number { length (waiters 0 0 (0 ∷ wait_of (Waiting 0 1) ∷ [])) ≡ 0 → ⊥ }
{}

/// A create of an object whose number isn't the thread's next, and one that stores no class word; a run of one that
/// logs its New with another stamp than the next after the thread's last; and a run of one that is refused, after
/// which its thread knows something else: `create_logs_its_object` doesn't say so.
pub fn no_create_makes_another_object()
    ensures number { (s : Shape) (k : Start) (c o : ℕ) → o ≢ next_made s k.local
        → Says (step (load (lone_context (task.Create c)) (id.Prototype c))
        (λ mark. step (class_plan (creating o c) o c) (λ x. step (make_plan (creating o c) o c mark)
        (λ y. done (Ok o))))) (CreateSays s k c) → ⊥ }
    ensures class { (s : Shape) (k : Start) (c o mark : ℕ)
        → Says (step (make_plan (creating o c) o c mark) (λ x. done (Ok o))) (CreateSays s k c) → ⊥ }
    ensures stamped { (s : Shape) (k : Start) (c : ℕ) (shape : Shape) (start o stamp : ℕ) (before after : ThreadView)
        → stamp ≢ last_stamp before.log + 1
        → after.log ≡ before.log ++ record { stamp = stamp; entry = entry.New o c } ∷ []
        → Ran shape start (create_steps s k c) before after (Ok o) → ⊥ }
    ensures refused { (s : Shape) (k : Start) (c : ℕ) (shape : Shape) (start : ℕ) (before after : ThreadView)
        (e : TooMany) → after ≢ before → Ran shape start (create_steps s k c) before after (Err e) → ⊥ }
{}

/// A hash that is logged as not drawn, and that no header had; and one that was drawn with another number than the
/// thread's next: `hash_logs_its_answer` doesn't say so. A get that answers Nil, whatever the slot has:
/// `get_logs_its_answer` doesn't. A put that stores another word than its value's: `put_logs_its_value` doesn't. A
/// print of another value: `print_logs_its_value` doesn't. A finish with another ending: `finish_logs_its_ending`
/// doesn't. A dump with another number than that of the thread's next shot, and one that hasn't released its
/// safepoint; a run of a dump that is done and leaves its thread the shots that it had, and a run of one that is
/// pending and adds a shot to them: `dump_logs_its_answer` doesn't.
pub fn no_call_tells_another_value()
    ensures hash_undrawn { (e : CallContext) (k : Start) (o t value : ℕ)
        → Says (step (publish_plan e t (entry.Hash o value None) 0) (λ x. done (Done value))) (HashSays k o) → ⊥ }
    ensures hash_draw { (e : CallContext) (k : Start) (o : ℕ) (draw : NextDraw) → draw.number ≢ k.draws + 1
        → Says (step (draw_plan e draw (id.Mark o) o (mark_of (Neutral 0 0))) (λ x. done (Done draw.value)))
        (HashSays k o) → ⊥ }
    ensures get { (e : CallContext) (k : Start) (o slot : ℕ)
        → Says (step (get_plan e o slot) (λ word. done (Ok Nil))) (GetSays k o slot) → ⊥ }
    ensures put { (e : CallContext) (k : Start) (o slot word : ℕ) (value : Value) → word ≢ word_of value
        → Says (step (record (put_plan e o slot value) { act = Store word }) (λ x. done (Ok tt)))
        (PutSays k o slot value) → ⊥ }
    ensures print { (k : Start) (value other : Value) → other ≢ value
        → Says (print_steps k other) (PrintSays value) → ⊥ }
    ensures finish { (k : Start) → Says (finish_steps k ending.Spent) (FinishSays ending.Done) → ⊥ }
    ensures dump_number { (e : CallContext) (k : Start) (number : ℕ) → number ≢ k.shots + 1
        → Says (step (publish_plan e k.local.thread (entry.Dump number) (length k.local.log + 1))
        (λ x. done (Ok (Done number)))) (DumpSays k) → ⊥ }
    ensures dump_unreleased { (e : CallContext) (k : Start)
        → Says (step (publish_plan e k.local.thread (entry.Dump (k.shots + 1)) (length k.local.log + 1))
        (λ x. done (Ok (Done (k.shots + 1))))) (DumpSays k) → ⊥ }
    ensures dump_keeps { (s : Shape) (k : Start) (shape : Shape) (start number : ℕ) (before after : ThreadView)
        → length before.shots ≡ k.shots → after.shots ≡ before.shots
        → Ran shape start (dump_steps s k) before after (Ok (Done number)) → ⊥ }
    ensures dump_pends { (s : Shape) (k : Start) (shape : Shape) (start : ℕ) (before after : ThreadView)
        (cause : PendingCause) (shot : DumpShot) → after.shots ≡ before.shots ++ shot ∷ []
        → Ran shape start (dump_steps s k) before after (Ok (Pending cause)) → ⊥ }
{}

/// A poll that is done though its word has a requester: `poll_logs_nothing` doesn't say so. A stop that publishes
/// nothing; and a run of one after which thread 0 knows itself running: `stop_logs_nothing` doesn't. A resume that
/// doesn't look whether the run is halted; and a run of one after which thread 0 knows itself stopped, though its
/// exchange found that no thread ran: `resume_logs_nothing` doesn't. A check that answers true and puts the release
/// in place of the halt; and a run of one that answers true, after which its thread doesn't know of the halt:
/// `check_logs_nothing` doesn't. A request that doesn't look
/// whether there is another: `request_logs_nothing` doesn't. A look that is done though a thread runs:
/// `reached_logs_nothing` doesn't. A release that puts the halt: `release_logs_nothing` doesn't. A check that answers
/// true though its only thread is ready, and one that answers false though that waits:
/// `check_answers_whether_any_thread_goes_on` doesn't.
pub fn no_call_at_the_safepoint_word_answers_otherwise()
    ensures poll { (e : CallContext) (k : Start)
        → Says (step (load e id.Safepoint) (λ word. done (Done tt))) (PollSays k) → ⊥ }
    ensures stop { (e : CallContext) (k : Start)
        → Says (step (stop_plan e k.local.thread) (λ word. done tt)) (StopSays k) → ⊥ }
    ensures stop_leaves { (k : Start) (shape : Shape) (start : ℕ) (before after : ThreadView)
        → k.local.thread ≡ 0 → before.thread ≡ 0 → after.running ≡ true
        → Ran shape start (stop_steps (side_context task.Stop k) k.local) before after tt → ⊥ }
    ensures resume { (e : CallContext) (k : Start)
        → Says (step (load e id.Safepoint) (λ word. resume_swap_steps e k.local word)) (ResumeSays k) → ⊥ }
    ensures resume_leaves { (k : Start) (shape : Shape) (start : ℕ) (before after : ThreadView) (p : StepPlan)
        (ms : List StepMade) → k.local.thread ≡ 0 → before.thread ≡ 0
        → after.steps ≡ record { plan = p; found = 0 } ∷ ms → after.running ≡ false
        → Ran shape start (resume_steps (side_context task.Resume k) k.local) before after (Done tt) → ⊥ }
    ensures check { (e : CallContext) (k : Start)
        → Says (step (release_plan e Settled 0) (λ x. done (Done true))) (CheckSays k) → ⊥ }
    ensures check_halted { (s : Shape) (k : Start) (shape : Shape) (start : ℕ) (before after : ThreadView)
        → after.halted ≡ false → Ran shape start (check_steps s k) before after (Done true) → ⊥ }
    ensures request { (e : CallContext) (k : Start)
        → Says (step (load e id.Safepoint) (λ word. request_swap_steps e k.local.thread word)) (RequestSays k) → ⊥ }
    ensures reached { (e : CallContext) (k : Start)
        → Says (step (load e id.Safepoint) (λ word. done (Done tt))) (ReachedSays k) → ⊥ }
    ensures release { (e : CallContext) (k : Start) → k.local.thread ≡ 0
        → Says (halt_steps e 0) (ReleaseSays k) → ⊥ }
    ensures stuck { (e : CallContext) (s : Shape) → s.threads ≡ 1
        → Says (step (load e (id.Waiting 0)) (λ word. done (Done true))) (CheckFinds s) → ⊥ }
    ensures not_stuck { (e : CallContext) (s : Shape) → s.threads ≡ 1
        → Says (step (load e (id.Waiting 0)) (λ word. done (Done false))) (CheckFinds s) → ⊥ }
{}

/// An operation that is done and stops its thread; one that is pending for running threads while its own thread runs;
/// and one that is pending for a request of its own thread: `operations_leave_their_thread_running` doesn't say so.
/// One that asks for no safepoint and stops its thread, where it may be refused and where it may not:
/// `short_operations_leave_their_thread_running` doesn't. A poll that stops its thread, a stop that leaves it
/// running, a resume that is done and leaves it stopped, and a check that finds the run stuck and leaves its thread
/// running: `calls_at_the_safepoint_word_tell_how_their_thread_stands` doesn't. A thread that knows itself running
/// after a step that cleared its bit: `a_thread_knows_how_it_stands` doesn't.
pub fn no_thread_stands_otherwise_after_its_call()
    ensures operation { (e : CallContext) → ThreadStandsAlong 0 (record { running = true; asking = false })
        (step (stop_plan e 0) (λ word. done (Ok (Done tt))))
        (ResultStands {A = Unit {0}} {E = IllegalMonitorState} 0) → ⊥ }
    ensures hash { (e : CallContext) (value : ℕ) → ThreadStandsAlong 0 (record { running = true; asking = false })
        (step (stop_plan e 0) (λ word. done (Done value))) (ProgressStands 0) → ⊥ }
    ensures held { (t word : ℕ) → ThreadStandsAlong t (record { running = true; asking = false })
        (done (Pending (why.Stopping word))) (ProgressStands {A = ℕ} t) → ⊥ }
    ensures own { ThreadStandsAlong 0 (record { running = true; asking = false })
        (done (Pending (why.Requested (reached_word 0)))) (ProgressStands {A = ℕ} 0) → ⊥ }
    ensures get { (e : CallContext) → ThreadStandsAlong 0 (record { running = true; asking = false })
        (step (stop_plan e 0) (λ word. done (Ok tt))) (RunsAfter {A = Unit {0}} {E = IllegalMonitorState}) → ⊥ }
    ensures print { (e : CallContext) → ThreadStandsAlong 0 (record { running = true; asking = false })
        (step (stop_plan e 0) (λ word. done tt)) (λ b (x : Unit {0}). IsGoing b) → ⊥ }
    ensures poll { (e : CallContext) → ThreadStandsAlong 0 (record { running = true; asking = false })
        (step (stop_plan e 0) (λ word. done (Done tt))) (PollStands 0) → ⊥ }
    ensures stop { (t : ℕ) → ThreadStandsAlong t (record { running = true; asking = false })
        (done tt) (λ b (x : Unit {0}). IsOff b) → ⊥ }
    ensures resume { (t : ℕ) → ThreadStandsAlong t stopped (done (Done tt)) (ResumeStands t) → ⊥ }
    ensures check { (t : ℕ) → ThreadStandsAlong t (record { running = true; asking = false })
        (done (Done true)) (CheckStands t) → ⊥ }
    ensures knows { (s : Shape) (start : ℕ) (e : CallContext) (k : ThreadView) → stand_of (known_along s start
        (record { plan = stop_plan e 0; found = 1 } ∷ []) (record k { thread = 0 }))
        ≡ record { running = true; asking = false } → ⊥ }
{}

/// The steps of a poll are not those of a stop; a poll counts no verdict; and an enter at the first millisecond
/// counts no reset, which the policy says only 25 seconds after a bulk operation: `each_step_names_its_call` doesn't
/// say otherwise. No poll leaves its thread with one more count, or with a step of another call:
/// `a_run_counts_by_the_moment_of_its_call` doesn't say so.
pub fn no_step_counts_by_another_moment()
    ensures task { (s : Shape) (k : Start)
        → Says (steps_of s task.Poll k) (λ ms x. AllByRecursion (IsStepOf task.Stop) ms) → ⊥ }
    ensures lone { (s : Shape) (at : WordId) (class found : ℕ) (verdict : Verdict) (reset : Bool) → IsStepOf task.Poll
        (record {
          plan = with_own (CountVerdict class verdict reset) (load (lone_context task.Poll) at);
          found = found;
        }) → ⊥ }
    ensures reset { (s : Shape) (at : WordId) (o class found : ℕ) (verdict : Verdict) → IsStepOf (task.Enter o 1)
        (record {
          plan = with_own (CountVerdict class verdict true) (load (lone_context (task.Enter o 1)) at);
          found = found;
        }) → ⊥ }
    ensures counts { (k : ThreadView) (v : CountedVerdict)
        → HasCalled task.Poll k (record k { counts = v ∷ k.counts }) → ⊥ }
    ensures steps { (k : ThreadView) (at : WordId) (found : ℕ) → HasCalled task.Poll k
        (record k { steps = record { plan = load (lone_context task.Check) at; found = found } ∷ k.steps }) → ⊥ }
{}

/// No thread follows a tree of one step and makes none; none follows a tree to another answer; none runs after a tree
/// without steps and was stopped before; and none makes a path of one step and has the steps that it had:
/// `a_run_follows_a_path_of_its_tree` doesn't say so. Nor is there a run to an answer that isn't its tree's, which
/// `every_path_of_a_tree_is_run` doesn't say. No thread has logged an entry and has its old log; none has
/// logged nothing and has another log than its old one; and none has logged one entry and has its old log with
/// another entry: `steps_make_of_knowledge_what_they_leave` doesn't say so.
pub fn no_run_leaves_its_tree()
    ensures unstepped { (s : Shape) (start n : ℕ) (p : StepPlan) (k : ThreadView)
        → FollowsTree s start (ask p) k k n → ⊥ }
    ensures answer { (s : Shape) (start a b : ℕ) (k l : ThreadView) → b ≢ a → FollowsTree s start (done a) k l b → ⊥ }
    ensures run { (s : Shape) (start a b : ℕ) (k l : ThreadView) → b ≢ a → Ran s start (done a) k l b → ⊥ }
    ensures known { (s : Shape) (start a : ℕ) (k : ThreadView) → k.running ≡ false
        → FollowsTree s start (done a) k (record k { running = true }) a → ⊥ }
    ensures path { (n : ℕ) (p : StepPlan) (k : ThreadView) → Tells k k (λ ms. IsPath (ask p) [] ms n) → ⊥ }
    ensures did { (e : Entry) (u : Option Unfinished) (check : Bool) (k l : ThreadView) → l.log ≡ k.log
        → ThreadHasLogged (e ∷ []) u check k l → ⊥ }
    ensures none { (u : Option Unfinished) (check : Bool) (k l : ThreadView) → l.log ≢ k.log
        → ThreadHasLogged [] u check k l → ⊥ }
    ensures one { (e : Entry) (u : Option Unfinished) (check : Bool) (k l : ThreadView) (x : Logged) → x.entry ≢ e
        → l.log ≡ k.log ++ x ∷ [] → ThreadHasLogged (e ∷ []) u check k l → ⊥ }
{}

/// Where a thread's log is what it was, its steps were none of a call that is done and logs: not of an enter or an
/// exit, as `enter_logs_its_answer`, `exit_logs_its_answer`, `stack_enter_logs_its_answer` and
/// `stack_exit_logs_its_answer` tell of their runs; of a create, as `create_logs_its_object` does; of a wait or a
/// notify, as `wait_logs_its_answer`, `notify_logs_its_answer` and `notify_all_logs_its_answer` do; and not of the
/// others, as `hash_logs_its_answer`, `get_logs_its_answer`, `put_logs_its_value`, `print_logs_its_value`,
/// `finish_logs_its_ending` and `dump_logs_its_answer` do.
pub fn no_run_of_a_done_call_leaves_the_log()
    ensures enter { (b : Start) (o : ℕ) (path : Path) (k l : ThreadView) → l.log ≡ k.log
        → Tells k l (λ ms. EnterSays b o ms (Ok (Done path))) → ⊥ }
    ensures exit { (b : Start) (o : ℕ) (k l : ThreadView) → l.log ≡ k.log
        → Tells k l (λ ms. ExitSays b o ms (Ok (Done tt))) → ⊥ }
    ensures stack_enter { (o mark : ℕ) (path : Path) (k l : ThreadView) → l.log ≡ k.log
        → Tells k l (λ ms. StackEnterSays o mark ms (Done path)) → ⊥ }
    ensures stack_exit { (b : Start) (o : ℕ) (k l : ThreadView) → l.log ≡ k.log
        → Tells k l (λ ms. StackExitSays b o ms Left) → ⊥ }
    ensures create { (s : Shape) (b : Start) (c o : ℕ) (k l : ThreadView) → l.log ≡ k.log
        → Tells k l (λ ms. CreateSays s b c ms (Ok o)) → ⊥ }
    ensures wait { (b : Start) (o : ℕ) (k l : ThreadView) → l.log ≡ k.log
        → Tells k l (λ ms. WaitSays b o ms (Ok (Done tt))) → ⊥ }
    ensures notify { (b : Start) (o : ℕ) (woken : Option ℕ) (k l : ThreadView) → l.log ≡ k.log
        → Tells k l (λ ms. NotifySays b o ms (Ok (Done woken))) → ⊥ }
    ensures notify_all { (b : Start) (o woken : ℕ) (k l : ThreadView) → l.log ≡ k.log
        → Tells k l (λ ms. NotifyAllSays b o ms (Ok (Done woken))) → ⊥ }
    ensures hash { (b : Start) (o value : ℕ) (k l : ThreadView) → l.log ≡ k.log
        → Tells k l (λ ms. HashSays b o ms (Done value)) → ⊥ }
    ensures get { (b : Start) (o slot : ℕ) (value : Value) (k l : ThreadView) → l.log ≡ k.log
        → Tells k l (λ ms. GetSays b o slot ms (Ok value)) → ⊥ }
    ensures put { (b : Start) (o slot : ℕ) (value : Value) (k l : ThreadView) → l.log ≡ k.log
        → Tells k l (λ ms. PutSays b o slot value ms (Ok tt)) → ⊥ }
    ensures print { (value : Value) (k l : ThreadView) → l.log ≡ k.log → Tells k l (λ ms. PrintSays value ms tt) → ⊥ }
    ensures finish { (how : Ending) (k l : ThreadView) → l.log ≡ k.log → Tells k l (λ ms. FinishSays how ms tt) → ⊥ }
    ensures dump { (b : Start) (number : ℕ) (k l : ThreadView) → l.log ≡ k.log
        → Tells k l (λ ms. DumpSays b ms (Ok (Done number))) → ⊥ }
{}

/// Where a thread's log has one entry more, its steps were none of a call that logs nothing: not of those of which
/// `poll_logs_nothing`, `stop_logs_nothing`, `resume_logs_nothing`, `check_logs_nothing`, `request_logs_nothing`,
/// `reached_logs_nothing` and `release_logs_nothing` tell.
pub fn no_run_of_a_silent_call_logs()
    ensures poll { (b : Start) (x : Logged) (k l : ThreadView) → l.log ≡ k.log ++ x ∷ []
        → Tells k l (λ ms. PollSays b ms (Done tt)) → ⊥ }
    ensures stop { (b : Start) (x : Logged) (k l : ThreadView) → l.log ≡ k.log ++ x ∷ []
        → Tells k l (λ ms. StopSays b ms tt) → ⊥ }
    ensures resume { (b : Start) (x : Logged) (k l : ThreadView) → l.log ≡ k.log ++ x ∷ []
        → Tells k l (λ ms. ResumeSays b ms (Done tt)) → ⊥ }
    ensures check { (b : Start) (x : Logged) (stuck : Bool) (k l : ThreadView) → l.log ≡ k.log ++ x ∷ []
        → Tells k l (λ ms. CheckSays b ms (Done stuck)) → ⊥ }
    ensures request { (b : Start) (x : Logged) (k l : ThreadView) → l.log ≡ k.log ++ x ∷ []
        → Tells k l (λ ms. RequestSays b ms (Done tt)) → ⊥ }
    ensures reached { (b : Start) (x : Logged) (k l : ThreadView) → l.log ≡ k.log ++ x ∷ []
        → Tells k l (λ ms. ReachedSays b ms (Done tt)) → ⊥ }
    ensures release { (b : Start) (x : Logged) (k l : ThreadView) → l.log ≡ k.log ++ x ∷ []
        → Tells k l (λ ms. ReleaseSays b ms tt) → ⊥ }
{}

/// Where a thread's log has one entry more, its steps were none of a call that is pending: not of an enter or an
/// exit, as `enter_logs_its_answer`, `exit_logs_its_answer` and `stack_enter_logs_its_answer` tell of their runs; of
/// a notify, a hash or a dump, as `notify_logs_its_answer`, `notify_all_logs_its_answer`, `hash_logs_its_answer` and
/// `dump_logs_its_answer` do; and not of a wait that goes on after it has let go, as `wait_logs_its_answer` does.
pub fn no_run_of_a_pending_call_logs()
    ensures enter { (b : Start) (o : ℕ) (x : Logged) (cause : PendingCause) (k l : ThreadView) → l.log ≡ k.log ++ x ∷ []
        → Tells k l (λ ms. EnterSays b o ms (Ok (Pending cause))) → ⊥ }
    ensures exit { (b : Start) (o : ℕ) (x : Logged) (cause : PendingCause) (k l : ThreadView) → l.log ≡ k.log ++ x ∷ []
        → Tells k l (λ ms. ExitSays b o ms (Ok (Pending cause))) → ⊥ }
    ensures stack_enter { (o mark : ℕ) (x : Logged) (cause : PendingCause) (k l : ThreadView) → l.log ≡ k.log ++ x ∷ []
        → Tells k l (λ ms. StackEnterSays o mark ms (Pending cause)) → ⊥ }
    ensures notify { (b : Start) (o : ℕ) (x : Logged) (cause : PendingCause) (k l : ThreadView)
        → l.log ≡ k.log ++ x ∷ []
        → Tells k l (λ ms. NotifySays b o ms (Ok (Pending cause))) → ⊥ }
    ensures notify_all { (b : Start) (o : ℕ) (x : Logged) (cause : PendingCause) (k l : ThreadView)
        → l.log ≡ k.log ++ x ∷ []
        → Tells k l (λ ms. NotifyAllSays b o ms (Ok (Pending cause))) → ⊥ }
    ensures hash { (b : Start) (o : ℕ) (x : Logged) (cause : PendingCause) (k l : ThreadView) → l.log ≡ k.log ++ x ∷ []
        → Tells k l (λ ms. HashSays b o ms (Pending cause)) → ⊥ }
    ensures dump { (b : Start) (x : Logged) (cause : PendingCause) (k l : ThreadView) → l.log ≡ k.log ++ x ∷ []
        → Tells k l (λ ms. DumpSays b ms (Ok (Pending cause))) → ⊥ }
    ensures wait { (b : Start) (o : ℕ) (x : Logged) (cause : PendingCause) (k l : ThreadView) → lets_go b o ≡ false
        → l.log ≡ k.log ++ x ∷ [] → Tells k l (λ ms. WaitSays b o ms (Ok (Pending cause))) → ⊥ }
{}

/// Where a thread has an operation unfinished, its steps were none of a call that is done; and where it has none
/// unfinished, they were none of one that is pending: not of an enter, an exit, a wait, a notify, a hash or a dump,
/// as `enter_logs_its_answer`, `exit_logs_its_answer`, `wait_logs_its_answer`, `notify_logs_its_answer`,
/// `notify_all_logs_its_answer`, `hash_logs_its_answer` and `dump_logs_its_answer` tell of their runs; and not of a
/// create, which is never pending, as `create_logs_its_object` does.
pub fn no_run_of_a_done_call_leaves_it_unfinished()
    ensures enter { (b : Start) (o : ℕ) (path : Path) (u : Unfinished) (k l : ThreadView) → l.unfinished ≡ Some u
        → Tells k l (λ ms. EnterSays b o ms (Ok (Done path))) → ⊥ }
    ensures exit { (b : Start) (o : ℕ) (u : Unfinished) (k l : ThreadView) → l.unfinished ≡ Some u
        → Tells k l (λ ms. ExitSays b o ms (Ok (Done tt))) → ⊥ }
    ensures wait { (b : Start) (o : ℕ) (u : Unfinished) (k l : ThreadView) → l.unfinished ≡ Some u
        → Tells k l (λ ms. WaitSays b o ms (Ok (Done tt))) → ⊥ }
    ensures notify { (b : Start) (o : ℕ) (woken : Option ℕ) (u : Unfinished) (k l : ThreadView) → l.unfinished ≡ Some u
        → Tells k l (λ ms. NotifySays b o ms (Ok (Done woken))) → ⊥ }
    ensures notify_all { (b : Start) (o woken : ℕ) (u : Unfinished) (k l : ThreadView) → l.unfinished ≡ Some u
        → Tells k l (λ ms. NotifyAllSays b o ms (Ok (Done woken))) → ⊥ }
    ensures hash { (b : Start) (o value : ℕ) (u : Unfinished) (k l : ThreadView) → l.unfinished ≡ Some u
        → Tells k l (λ ms. HashSays b o ms (Done value)) → ⊥ }
    ensures dump { (b : Start) (number : ℕ) (u : Unfinished) (k l : ThreadView) → l.unfinished ≡ Some u
        → Tells k l (λ ms. DumpSays b ms (Ok (Done number))) → ⊥ }
    ensures create { (s : Shape) (b : Start) (c o : ℕ) (u : Unfinished) (k l : ThreadView) → l.unfinished ≡ Some u
        → Tells k l (λ ms. CreateSays s b c ms (Ok o)) → ⊥ }
    ensures enter_pends { (b : Start) (o : ℕ) (cause : PendingCause) (k l : ThreadView) → l.unfinished ≡ None
        → Tells k l (λ ms. EnterSays b o ms (Ok (Pending cause))) → ⊥ }
    ensures exit_pends { (b : Start) (o : ℕ) (cause : PendingCause) (k l : ThreadView) → l.unfinished ≡ None
        → Tells k l (λ ms. ExitSays b o ms (Ok (Pending cause))) → ⊥ }
    ensures wait_pends { (b : Start) (o : ℕ) (cause : PendingCause) (k l : ThreadView) → l.unfinished ≡ None
        → Tells k l (λ ms. WaitSays b o ms (Ok (Pending cause))) → ⊥ }
    ensures notify_pends { (b : Start) (o : ℕ) (cause : PendingCause) (k l : ThreadView) → l.unfinished ≡ None
        → Tells k l (λ ms. NotifySays b o ms (Ok (Pending cause))) → ⊥ }
    ensures notify_all_pends { (b : Start) (o : ℕ) (cause : PendingCause) (k l : ThreadView) → l.unfinished ≡ None
        → Tells k l (λ ms. NotifyAllSays b o ms (Ok (Pending cause))) → ⊥ }
    ensures hash_pends { (b : Start) (o : ℕ) (cause : PendingCause) (k l : ThreadView) → l.unfinished ≡ None
        → Tells k l (λ ms. HashSays b o ms (Pending cause)) → ⊥ }
    ensures dump_pends { (b : Start) (cause : PendingCause) (k l : ThreadView) → l.unfinished ≡ None
        → Tells k l (λ ms. DumpSays b ms (Ok (Pending cause))) → ⊥ }
{}
