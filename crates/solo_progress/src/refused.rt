//! Laws that what is said of a thread that is left alone is refused where it is wrong: that a weakened tree gets through; that a call
//! answers in a way that a clause here names, as pending where it is done, or with another value; that a run finds what nobody left; and
//! that a mark or a prototype is empty. The functions do nothing.

ghost use Rattle.std.specs.Prelude.{◌≡◌, ◌≢◌, ℕ, ◌+◌, not, Bool, true, false, List, [], ◌∷◌, Some, None, Result, Ok};
ghost use Rattle.mark_word.specs.Mark.{read_mark};
ghost use Rattle.plain_monitor.specs.Monitor.{is_listed};
ghost use Rattle.plain_monitor.specs.Objects.{PlainObject};
ghost use Rattle.plain_monitor.specs.ValueWords.{read_value};
ghost use Rattle.plain_monitor.specs.declared.entry.Path.{Path};
ghost use Rattle.plain_monitor.specs.declared.entry.Value.{Value};
ghost use Rattle.core_world.specs.declared.act.Act.TheVariants.{Load};
ghost use Rattle.core_world.specs.declared.answer.PendingCause.{PendingCause};
ghost use Rattle.core_world.specs.declared.answer.PendingCause.TheVariants.{Raced};
ghost use Rattle.core_world.specs.declared.answer.Progress.TheVariants.{Done, Pending};
ghost use Rattle.core_world.specs.declared.answer.StackOut.{StackOut};
ghost use Rattle.core_world.specs.declared.answer.TooMany.{TooMany};
ghost use Rattle.core_world.specs.declared.answer.Unguarded.{Unguarded};
ghost use Rattle.core_world.specs.declared.heap_call.HeapCall.TheVariants as task;
ghost use Rattle.core_world.specs.declared.heap_call.Operation.TheVariants as op;
ghost use Rattle.core_world.specs.declared.word_id.WordId.{WordId};
ghost use Rattle.core_world.specs.declared.word_id.WordId.TheVariants.{Safepoint, Mark, Prototype, Slot, Waiting};
ghost use Rattle.core_world.specs.Locks.{monitor_of, notified_at};
ghost use Rattle.core_world.specs.Threads.ThreadView.{Local, StepMade, local_of};
ghost use Rattle.core_world.specs.Trees.Calls.{side_context};
ghost use Rattle.core_world.specs.Trees.LockSteps.{stack_enter_steps, stack_exit_steps};
ghost use Rattle.core_world.specs.Trees.Operations.{exit_steps, get_steps, put_steps, enter_steps, hash_steps, value_found};
ghost use Rattle.core_world.specs.Trees.Operations.{notify_steps, notify_all_steps, wait_steps, dump_steps, create_steps};
ghost use Rattle.core_world.specs.Trees.Operations.{check_steps, lone_context};
ghost use Rattle.core_world.specs.Trees.Plans.{CallContext, call_context};
ghost use Rattle.core_world.specs.Trees.SafepointSteps.{poll_steps, resume_steps, has_requester, request_steps, reached_steps};
ghost use Rattle.core_world.specs.Valid.{Fits};
ghost use Rattle.core_world.specs.Words.Forms.{waits_on, is_halted};
ghost use Rattle.core_world.specs.World.{World};
ghost use Rattle.core_law.specs.Logic.{Heap};
ghost use Rattle.solo_progress.specs.Alone.{AnswersAlone};
ghost use Rattle.solo_progress.specs.Answers.{is_other, is_told, who_in, guarded, created, hash_due, out_due, path_by};
ghost use Rattle.solo_progress.specs.Answers.{IsDone, WaitsWhere};
ghost use Rattle.solo_progress.specs.LeftAlone.{IsLeftAlone, MayCallAlone, MayCall, start_in};
ghost use Rattle.solo_progress.specs.Moves.{Moves, GetsThrough};
ghost use Rattle.solo_progress.specs.StandsStill.{stands_still};
ghost use Rattle.solo_progress.specs.Weakened.{expecting_steps, forgetful_steps};

/// An enter by a neutral mark that expects another word there than the mark is: its exchange misses, so that it is pending.
///
/// Refuses a conclusion of `calls_without_a_safepoint_get_through`.
pub fn no_enter_that_expects_another_word()
    ensures { (e : CallContext) (k : Local) (o mark expected : ℕ) (f : WordId → ℕ) → f (Mark o) ≢ expected
        → AnswersAlone f (expecting_steps e k o mark expected) IsDone → ⊥ }
{}

/// A wait that answers that it wasn't notified, whatever its waiting word says: of one that was told the law of waits says something
/// else.
///
/// Refuses a conclusion of `waits_end_where_told`.
pub fn no_wait_that_forgets_its_notify()
    ensures { (e : CallContext) (t : ℕ) (owned : Bool) (f : WordId → ℕ) → is_told (f (Waiting t)) ≡ true
        → AnswersAlone f (forgetful_steps e t) (WaitsWhere (is_told (f (Waiting t))) owned) → ⊥ }
{}

/// A call of a thread that is left alone answers otherwise than is due: an exit, a hash, a notify, a notifyall, a dump or a check is
/// pending; a get, a hash or a dump answers another value, hash or number, and a check the opposite; or a get or a put is refused with a
/// hold, or goes through without one.
///
/// Refuses the conclusions of `a_thread_left_alone_gets_through`.
pub fn no_call_left_alone_answers_otherwise()
    ensures exit { (heap : Heap) (w : World) (objects : List PlainObject) (t o : ℕ) (why : PendingCause)
        → MayCallAlone heap w objects t (task.Exit o)
        → GetsThrough heap w t (task.Exit o) (exit_steps (start_in w t) o) (λ a. a ≡ Ok (Pending why)) → ⊥ }
    ensures get { (heap : Heap) (w : World) (objects : List PlainObject) (t o slot : ℕ)
        (answer : Result Value Unguarded)
        → MayCallAlone heap w objects t (task.Get o slot)
        → answer ≢ guarded (start_in w t) o (value_found (read_value (w.words (Slot o slot))))
        → GetsThrough heap w t (task.Get o slot) (get_steps (start_in w t) o slot) (λ a. a ≡ answer) → ⊥ }
    ensures put { (heap : Heap) (w : World) (objects : List PlainObject) (t o slot : ℕ) (value : Value)
        (answer : Result (Unit {0}) Unguarded)
        → MayCallAlone heap w objects t (task.Put o slot value) → answer ≢ guarded (start_in w t) o tt
        → GetsThrough heap w t (task.Put o slot value) (put_steps (start_in w t) o slot value) (λ a. a ≡ answer) → ⊥ }
    ensures hash { (heap : Heap) (w : World) (objects : List PlainObject) (t o now hash : ℕ)
        → MayCallAlone heap w objects t (task.Hash o now) → hash ≢ hash_due objects o (start_in w t)
        → GetsThrough heap w t (task.Hash o now) (hash_steps w.shape (start_in w t) o now) (λ a. a ≡ Done hash) → ⊥ }
    ensures hash_pends { (heap : Heap) (w : World) (objects : List PlainObject) (t o now : ℕ) (why : PendingCause)
        → MayCallAlone heap w objects t (task.Hash o now)
        → GetsThrough heap w t (task.Hash o now) (hash_steps w.shape (start_in w t) o now) (λ a. a ≡ Pending why) → ⊥ }
    ensures notify { (heap : Heap) (w : World) (objects : List PlainObject) (t o now : ℕ) (why : PendingCause)
        → MayCallAlone heap w objects t (task.Notify o now)
        → GetsThrough heap w t (task.Notify o now) (notify_steps w.shape (start_in w t) o now)
        (λ a. a ≡ Ok (Pending why)) → ⊥ }
    ensures notify_all { (heap : Heap) (w : World) (objects : List PlainObject) (t o now : ℕ) (why : PendingCause)
        → MayCallAlone heap w objects t (task.NotifyAll o now)
        → GetsThrough heap w t (task.NotifyAll o now) (notify_all_steps w.shape (start_in w t) o now)
        (λ a. a ≡ Ok (Pending why)) → ⊥ }
    ensures dump { (heap : Heap) (w : World) (objects : List PlainObject) (t number : ℕ)
        → MayCallAlone heap w objects t task.Dump → number ≢ (start_in w t).shots + 1
        → GetsThrough heap w t task.Dump (dump_steps w.shape (start_in w t)) (λ a. a ≡ Ok (Done number)) → ⊥ }
    ensures dump_pends { (heap : Heap) (w : World) (objects : List PlainObject) (t : ℕ) (why : PendingCause)
        → MayCallAlone heap w objects t task.Dump
        → GetsThrough heap w t task.Dump (dump_steps w.shape (start_in w t)) (λ a. a ≡ Ok (Pending why)) → ⊥ }
    ensures check { (heap : Heap) (w : World) (objects : List PlainObject) (t : ℕ)
        → MayCallAlone heap w objects t task.Check
        → GetsThrough heap w t task.Check (check_steps w.shape (start_in w t))
        (λ a. a ≡ Done (not (stands_still w.shape w.words))) → ⊥ }
    ensures check_pends { (heap : Heap) (w : World) (objects : List PlainObject) (t : ℕ) (why : PendingCause)
        → MayCallAlone heap w objects t task.Check
        → GetsThrough heap w t task.Check (check_steps w.shape (start_in w t)) (λ a. a ≡ Pending why) → ⊥ }
{}

/// An enter of a thread that is left alone goes through though another thread owns the object by the logs, or is pending though none does.
///
/// Refuses the conclusion of `a_thread_left_alone_enters_unless_another_owns`.
pub fn no_enter_left_alone_beside_the_owner()
    ensures owned { (heap : Heap) (w : World) (objects : List PlainObject) (t o now : ℕ) (path : Path)
        → MayCallAlone heap w objects t (task.Enter o now) → is_other (monitor_of objects o).owner t ≡ true
        → GetsThrough heap w t (task.Enter o now) (enter_steps w.shape (start_in w t) o now)
        (λ a. a ≡ Ok (Done path)) → ⊥ }
    ensures free { (heap : Heap) (w : World) (objects : List PlainObject) (t o now : ℕ) (why : PendingCause)
        → MayCallAlone heap w objects t (task.Enter o now) → is_other (monitor_of objects o).owner t ≡ false
        → GetsThrough heap w t (task.Enter o now) (enter_steps w.shape (start_in w t) o now)
        (λ a. a ≡ Ok (Pending why)) → ⊥ }
{}

/// A wait of a thread that is left alone ends as it begins, or before its waiting word says Notified; or it is pending though its thread
/// was notified and nobody owns the object.
///
/// Refuses the conclusions of `a_thread_left_alone_waits_until_it_is_told`.
pub fn no_wait_left_alone_ends_untold()
    ensures begins { (heap : Heap) (w : World) (objects : List PlainObject) (t o now : ℕ)
        → MayCallAlone heap w objects t (task.Wait o now) → waits_on (w.known t).wait o ≡ false
        → GetsThrough heap w t (task.Wait o now) (wait_steps w.shape (start_in w t) o now)
        (λ a. a ≡ Ok (Done tt)) → ⊥ }
    ensures goes_on { (heap : Heap) (w : World) (objects : List PlainObject) (t o now : ℕ)
        → MayCallAlone heap w objects t (task.Wait o now) → waits_on (w.known t).wait o ≡ true
        → is_told (w.words (Waiting t)) ≡ false
        → GetsThrough heap w t (task.Wait o now) (wait_steps w.shape (start_in w t) o now)
        (λ a. a ≡ Ok (Done tt)) → ⊥ }
    ensures told { (heap : Heap) (w : World) (objects : List PlainObject) (t o now : ℕ) (why : PendingCause)
        → MayCallAlone heap w objects t (task.Wait o now) → is_listed (notified_at objects o) t ≡ true
        → (monitor_of objects o).owner ≡ None
        → GetsThrough heap w t (task.Wait o now) (wait_steps w.shape (start_in w t) o now)
        (λ a. a ≡ Ok (Pending why)) → ⊥ }
{}

/// A create answers another object than the thread's next one; a poll goes on though the safepoint word has a requester; and a resume
/// though the run is halted.
///
/// Refuses the conclusions of `calls_that_need_no_other_thread_get_through`.
pub fn no_create_poll_or_resume_answers_otherwise()
    ensures create { (heap : Heap) (w : World) (t c : ℕ) (answer : Result ℕ TooMany)
        → MayCall heap w t (task.Create c) → answer ≢ created w.shape (start_in w t)
        → GetsThrough heap w t (task.Create c) (create_steps w.shape (start_in w t) c) (λ a. a ≡ answer) → ⊥ }
    ensures poll { (heap : Heap) (w : World) (t : ℕ) → MayCall heap w t task.Poll
        → has_requester (w.words Safepoint) ≡ true
        → GetsThrough heap w t task.Poll (poll_steps (side_context task.Poll (start_in w t))) (λ a. a ≡ Done tt) → ⊥ }
    ensures resume { (heap : Heap) (w : World) (t : ℕ) → MayCall heap w t task.Resume
        → is_halted (w.words Safepoint) ≡ true
        → GetsThrough heap w t task.Resume
        (resume_steps (side_context task.Resume (start_in w t)) (local_of (w.known t)))
        (λ a. a ≡ Done tt) → ⊥ }
{}

/// A part of an operation answers otherwise than is due: an enter by a lock record by another path, an exit from one with another outcome;
/// and a request, or the look whether its safepoint is reached, is pending.
///
/// Refuses the conclusions of `a_thread_left_alone_gets_through_parts`.
pub fn no_part_left_alone_answers_otherwise()
    ensures stack_enter { (heap : Heap) (w : World) (objects : List PlainObject) (t o mark : ℕ) (path : Path)
        → MayCallAlone heap w objects t (task.StackEnter o mark) → w.words (Mark o) ≡ mark
        → path ≢ path_by (read_mark mark)
        → GetsThrough heap w t (task.StackEnter o mark)
        (stack_enter_steps (lone_context (task.StackEnter o mark)) (local_of (w.known t)) o mark)
        (λ a. a ≡ Done path) → ⊥ }
    ensures stack_exit { (heap : Heap) (w : World) (objects : List PlainObject) (t o : ℕ) (out : StackOut)
        → MayCallAlone heap w objects t (task.StackExit o) → out ≢ out_due (local_of (w.known t)) o w.words
        → GetsThrough heap w t (task.StackExit o)
        (stack_exit_steps (call_context (task.StackExit o) op.Exit o) (local_of (w.known t)) o)
        (λ a. a ≡ out) → ⊥ }
    ensures request { (heap : Heap) (w : World) (objects : List PlainObject) (t : ℕ) (why : PendingCause)
        → MayCallAlone heap w objects t task.Request
        → GetsThrough heap w t task.Request (request_steps (lone_context task.Request) (w.known t).thread)
        (λ a. a ≡ Pending why) → ⊥ }
    ensures reached { (heap : Heap) (w : World) (objects : List PlainObject) (t : ℕ) (why : PendingCause)
        → MayCallAlone heap w objects t task.Reached
        → GetsThrough heap w t task.Reached (reached_steps (lone_context task.Reached)) (λ a. a ≡ Pending why) → ⊥ }
{}

/// In a world in which the call may begin, not all paths whose steps find what those before them left answer otherwise than is due: an
/// exit isn't pending, a get, a put or a create answers nothing else, and no enter goes through where another thread owns the object.
///
/// Refuses the conclusions of `calls_without_a_safepoint_get_through`.
pub fn no_path_without_a_safepoint_answers_otherwise()
    ensures exit { (heap : Heap) (w : World) (objects : List PlainObject) (t o : ℕ) (why : PendingCause)
        → MayCallAlone heap w objects t (task.Exit o)
        → AnswersAlone w.words (exit_steps (start_in w t) o) (λ a. a ≡ Ok (Pending why)) → ⊥ }
    ensures get { (heap : Heap) (w : World) (objects : List PlainObject) (t o slot : ℕ)
        (answer : Result Value Unguarded)
        → MayCallAlone heap w objects t (task.Get o slot)
        → answer ≢ guarded (start_in w t) o (value_found (read_value (w.words (Slot o slot))))
        → AnswersAlone w.words (get_steps (start_in w t) o slot) (λ a. a ≡ answer) → ⊥ }
    ensures put { (heap : Heap) (w : World) (objects : List PlainObject) (t o slot : ℕ) (value : Value)
        (answer : Result (Unit {0}) Unguarded)
        → MayCallAlone heap w objects t (task.Put o slot value) → answer ≢ guarded (start_in w t) o tt
        → AnswersAlone w.words (put_steps (start_in w t) o slot value) (λ a. a ≡ answer) → ⊥ }
    ensures create { (heap : Heap) (w : World) (t c : ℕ) (answer : Result ℕ TooMany)
        → MayCall heap w t (task.Create c) → answer ≢ created w.shape (start_in w t)
        → AnswersAlone w.words (create_steps w.shape (start_in w t) c) (λ a. a ≡ answer) → ⊥ }
    ensures owned { (heap : Heap) (w : World) (objects : List PlainObject) (t o now : ℕ) (path : Path)
        → MayCallAlone heap w objects t (task.Enter o now) → is_other (monitor_of objects o).owner t ≡ true
        → AnswersAlone w.words (enter_steps w.shape (start_in w t) o now) (λ a. a ≡ Ok (Done path)) → ⊥ }
{}

/// So it is with a hash, a notify or a notifyall that is pending, and with an enter that is pending because its exchange missed.
///
/// Refuses the conclusions of `calls_that_revoke_get_through`.
pub fn no_path_that_revokes_answers_otherwise()
    ensures undone { (heap : Heap) (w : World) (objects : List PlainObject) (t o now : ℕ) (why : PendingCause)
        → MayCallAlone heap w objects t (task.Hash o now)
        → AnswersAlone w.words (hash_steps w.shape (start_in w t) o now) (λ a. a ≡ Pending why) → ⊥ }
    ensures notify { (heap : Heap) (w : World) (objects : List PlainObject) (t o now : ℕ) (why : PendingCause)
        → MayCallAlone heap w objects t (task.Notify o now)
        → AnswersAlone w.words (notify_steps w.shape (start_in w t) o now) (λ a. a ≡ Ok (Pending why)) → ⊥ }
    ensures notify_all { (heap : Heap) (w : World) (objects : List PlainObject) (t o now : ℕ) (why : PendingCause)
        → MayCallAlone heap w objects t (task.NotifyAll o now)
        → AnswersAlone w.words (notify_all_steps w.shape (start_in w t) o now) (λ a. a ≡ Ok (Pending why)) → ⊥ }
    ensures raced { (heap : Heap) (w : World) (objects : List PlainObject) (t o now expected found : ℕ)
        → MayCallAlone heap w objects t (task.Enter o now)
        → AnswersAlone w.words (enter_steps w.shape (start_in w t) o now)
        (λ a. a ≡ Ok (Pending (Raced expected found))) → ⊥ }
{}

/// So it is with a wait that ends as it begins, or before its waiting word says Notified.
///
/// Refuses the conclusions of `waits_end_where_told`.
pub fn no_path_of_a_wait_ends_untold()
    ensures begins { (heap : Heap) (w : World) (objects : List PlainObject) (t o now : ℕ)
        → MayCallAlone heap w objects t (task.Wait o now) → waits_on (w.known t).wait o ≡ false
        → AnswersAlone w.words (wait_steps w.shape (start_in w t) o now) (λ a. a ≡ Ok (Done tt)) → ⊥ }
    ensures goes_on { (heap : Heap) (w : World) (objects : List PlainObject) (t o now : ℕ)
        → MayCallAlone heap w objects t (task.Wait o now) → waits_on (w.known t).wait o ≡ true
        → is_told (w.words (Waiting t)) ≡ false
        → AnswersAlone w.words (wait_steps w.shape (start_in w t) o now) (λ a. a ≡ Ok (Done tt)) → ⊥ }
{}

/// So it is with a dump that answers another number, a check that answers the opposite, a poll that goes on though the safepoint word has a
/// requester, and a resume that goes on though the run is halted.
///
/// Refuses the conclusions of `calls_at_the_safepoint_word_get_through`.
pub fn no_path_at_the_safepoint_word_answers_otherwise()
    ensures dump { (heap : Heap) (w : World) (objects : List PlainObject) (t number : ℕ)
        → MayCallAlone heap w objects t task.Dump → number ≢ (start_in w t).shots + 1
        → AnswersAlone w.words (dump_steps w.shape (start_in w t)) (λ a. a ≡ Ok (Done number)) → ⊥ }
    ensures check { (heap : Heap) (w : World) (objects : List PlainObject) (t : ℕ)
        → MayCallAlone heap w objects t task.Check
        → AnswersAlone w.words (check_steps w.shape (start_in w t))
        (λ a. a ≡ Done (not (stands_still w.shape w.words))) → ⊥ }
    ensures poll { (heap : Heap) (w : World) (t : ℕ) → MayCall heap w t task.Poll
        → has_requester (w.words Safepoint) ≡ true
        → AnswersAlone w.words (poll_steps (side_context task.Poll (start_in w t))) (λ a. a ≡ Done tt) → ⊥ }
    ensures resume { (heap : Heap) (w : World) (t : ℕ) → MayCall heap w t task.Resume
        → is_halted (w.words Safepoint) ≡ true
        → AnswersAlone w.words (resume_steps (side_context task.Resume (start_in w t)) (local_of (w.known t)))
        (λ a. a ≡ Done tt) → ⊥ }
{}

/// A run of one thread whose first step finds another word than the world has, or in which a load leaves another word.
///
/// Refuses the conclusions of `a_run_of_one_thread_finds_what_it_left`.
pub fn no_run_that_finds_what_nobody_left()
    ensures found { (w : World) (t : ℕ) (m : StepMade) (v : World) → m.found ≢ w.words m.plan.at → Moves w t (m ∷ []) v
        → ⊥ }
    ensures left { (w : World) (t : ℕ) (m : StepMade) (v : World) (n : WordId) → m.plan.act ≡ Load
        → v.words n ≢ w.words n → Moves w t (m ∷ []) v → ⊥ }
{}

/// A world in which a thread is left alone, and a mark is 0, as if another thread were inflating the lock; or a prototype is 0; or by the
/// words a thread has the lock of an object that nobody owns by the logs.
///
/// Refuses the conclusions of `worlds_with_one_thread_are_quiet`.
pub fn no_world_of_one_thread_with_an_empty_mark()
    ensures marks { (w : World) (objects : List PlainObject) (t o : ℕ) → w.words (Mark o) ≡ 0 → IsLeftAlone w t
        → Fits w objects → ⊥ }
    ensures prototypes { (w : World) (objects : List PlainObject) (t c : ℕ) → w.words (Prototype c) ≡ 0
        → IsLeftAlone w t → Fits w objects → ⊥ }
    ensures owners { (w : World) (objects : List PlainObject) (t o u : ℕ) → who_in w.shape w.words o ≡ Some u
        → (monitor_of objects o).owner ≡ None → IsLeftAlone w t → Fits w objects → ⊥ }
{}
