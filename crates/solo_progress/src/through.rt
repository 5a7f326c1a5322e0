//! Laws of a thread that is left alone in a world to which a heap in the limits comes. The functions do nothing.

ghost use Rattle.std.specs.Prelude.{◌≡◌, ◌≢◌, ℕ, ◌+◌, ◌==◌, ◌||◌, true, false, List, None, Ok};
ghost use Rattle.mark_word.specs.Mark.{read_mark};
ghost use Rattle.plain_monitor.specs.Objects.{PlainObject};
ghost use Rattle.plain_monitor.specs.ValueWords.{read_value};
ghost use Rattle.plain_monitor.specs.declared.entry.Value.{Value};
ghost use Rattle.plain_monitor.specs.declared.entry.Ending.{Ending};
ghost use Rattle.plain_monitor.specs.Monitor.{is_listed};
ghost use Rattle.core_world.specs.declared.answer.Progress.TheVariants.{Done};
ghost use Rattle.core_world.specs.declared.word_id.WordId.{WordId};
ghost use Rattle.core_world.specs.declared.word_id.WordId.TheVariants.{Safepoint, Mark, Prototype, Slot, Waiting};
ghost use Rattle.core_world.specs.declared.heap_call.Operation.TheVariants as op;
ghost use Rattle.core_world.specs.declared.heap_call.HeapCall.TheVariants as task;
ghost use Rattle.core_world.specs.Locks.{monitor_of, notified_at};
ghost use Rattle.core_world.specs.Threads.ThreadView.{StepMade, local_of};
ghost use Rattle.core_world.specs.Trees.Calls.{side_context};
ghost use Rattle.core_world.specs.Trees.Operations.{exit_steps, get_steps, put_steps, enter_steps, hash_steps, value_found};
ghost use Rattle.core_world.specs.Trees.Operations.{notify_steps, notify_all_steps, wait_steps, dump_steps, check_steps};
ghost use Rattle.core_world.specs.Trees.LockSteps.{stack_enter_steps, stack_exit_steps};
ghost use Rattle.core_world.specs.Trees.Operations.{print_steps, create_steps, finish_steps, lone_context};
ghost use Rattle.core_world.specs.Trees.Plans.{call_context};
ghost use Rattle.core_world.specs.Trees.SafepointSteps.{request_steps, reached_steps, release_safepoint};
ghost use Rattle.core_world.specs.Trees.SafepointSteps.{poll_steps, stop_steps, resume_steps, has_requester};
ghost use Rattle.core_world.specs.Valid.{Fits};
ghost use Rattle.core_world.specs.Words.Forms.{waits_on, is_halted};
ghost use Rattle.core_world.specs.World.{World};
ghost use Rattle.core_law.specs.Logic.{Heap};
ghost use Rattle.core_calls.specs.CallsSay.{has_none, is_full};
ghost use Rattle.solo_progress.specs.Alone.{FoundAlone, Quiet, word_of_one, words_left};
ghost use Rattle.solo_progress.specs.Answers.{is_other, is_told, is_pending, who_in, guarded, created, hash_due, out_due, path_by};
ghost use Rattle.solo_progress.specs.Answers.{IsDone, PendsWhere, WaitsWhere, LetsGo, RefusedWhere};
ghost use Rattle.solo_progress.specs.LeftAlone.{IsLeftAlone, MayCallAlone, MayCall, start_in};
ghost use Rattle.solo_progress.specs.Moves.{Moves, GetsThrough};
ghost use Rattle.solo_progress.specs.StandsStill.{stands_still};

/// In each world to which a heap in the limits comes, a thread that is left alone gets through each of these calls that it may begin:
/// there is a run in which it alone makes the call's steps up to their end, and no more than such a call has. Without a hold on the object
/// an exit, a get, a put, a notify and a notifyall are refused, and with four shots a dump is; these are all that is refused. Nothing is
/// pending: a get answers what the slot has, a dump the number of the next shot, a hash the hash that the object has by the logs, or where
/// it has none the thread's next draw; a check answers true exactly where the run stands still by the words; and the others are done.
pub fn a_thread_left_alone_gets_through()
    ensures exit { (heap : Heap) (w : World) (objects : List PlainObject) (t o : ℕ)
        → MayCallAlone heap w objects t (task.Exit o)
        → GetsThrough heap w t (task.Exit o) (exit_steps (start_in w t) o)
        (RefusedWhere (has_none (start_in w t) o) IsDone) }
    ensures get { (heap : Heap) (w : World) (objects : List PlainObject) (t o slot : ℕ)
        → MayCallAlone heap w objects t (task.Get o slot)
        → GetsThrough heap w t (task.Get o slot) (get_steps (start_in w t) o slot)
        (λ a. a ≡ guarded (start_in w t) o (value_found (read_value (w.words (Slot o slot))))) }
    ensures put { (heap : Heap) (w : World) (objects : List PlainObject) (t o slot : ℕ) (value : Value)
        → MayCallAlone heap w objects t (task.Put o slot value)
        → GetsThrough heap w t (task.Put o slot value) (put_steps (start_in w t) o slot value)
        (λ a. a ≡ guarded (start_in w t) o tt) }
    ensures hash { (heap : Heap) (w : World) (objects : List PlainObject) (t o now : ℕ)
        → MayCallAlone heap w objects t (task.Hash o now)
        → GetsThrough heap w t (task.Hash o now) (hash_steps w.shape (start_in w t) o now)
        (λ progress. progress ≡ Done (hash_due objects o (start_in w t))) }
    ensures notify { (heap : Heap) (w : World) (objects : List PlainObject) (t o now : ℕ)
        → MayCallAlone heap w objects t (task.Notify o now)
        → GetsThrough heap w t (task.Notify o now) (notify_steps w.shape (start_in w t) o now)
        (RefusedWhere (has_none (start_in w t) o) IsDone) }
    ensures notify_all { (heap : Heap) (w : World) (objects : List PlainObject) (t o now : ℕ)
        → MayCallAlone heap w objects t (task.NotifyAll o now)
        → GetsThrough heap w t (task.NotifyAll o now) (notify_all_steps w.shape (start_in w t) o now)
        (RefusedWhere (has_none (start_in w t) o) IsDone) }
    ensures dump { (heap : Heap) (w : World) (objects : List PlainObject) (t : ℕ)
        → MayCallAlone heap w objects t task.Dump
        → GetsThrough heap w t task.Dump (dump_steps w.shape (start_in w t))
        (RefusedWhere ((start_in w t).shots == 4) (λ progress. progress ≡ Done ((start_in w t).shots + 1))) }
    ensures check { (heap : Heap) (w : World) (objects : List PlainObject) (t : ℕ)
        → MayCallAlone heap w objects t task.Check
        → GetsThrough heap w t task.Check (check_steps w.shape (start_in w t))
        (λ progress. progress ≡ Done (stands_still w.shape w.words)) }
{}

/// So it is with an enter. It is refused exactly with 64 holds, where it doesn't go on with an enter; else it is pending exactly where by
/// the logs another thread owns the object, and for that: of every object, whatever its mark is, and also where a bias of another thread
/// is revoked, by itself or with its class.
pub fn a_thread_left_alone_enters_unless_another_owns()
    ensures { (heap : Heap) (w : World) (objects : List PlainObject) (t o now : ℕ)
        → MayCallAlone heap w objects t (task.Enter o now)
        → GetsThrough heap w t (task.Enter o now) (enter_steps w.shape (start_in w t) o now)
        (RefusedWhere (is_full (start_in w t) o) (PendsWhere (is_other (monitor_of objects o).owner t))) }
{}

/// And with a wait, which is refused exactly without a hold. One that begins is pending for a notify. One that goes on is done exactly
/// where its waiting word says Notified and by the logs no other thread owns the object, and pending for the one of the two that it
/// lacks. So a thread that is notified by the logs gets an object back that nobody owns.
pub fn a_thread_left_alone_waits_until_it_is_told()
    ensures begins { (heap : Heap) (w : World) (objects : List PlainObject) (t o now : ℕ)
        → MayCallAlone heap w objects t (task.Wait o now) → waits_on (w.known t).wait o ≡ false
        → GetsThrough heap w t (task.Wait o now) (wait_steps w.shape (start_in w t) o now)
        (RefusedWhere (has_none (start_in w t) o) LetsGo) }
    ensures goes_on { (heap : Heap) (w : World) (objects : List PlainObject) (t o now : ℕ)
        → MayCallAlone heap w objects t (task.Wait o now) → waits_on (w.known t).wait o ≡ true
        → GetsThrough heap w t (task.Wait o now) (wait_steps w.shape (start_in w t) o now)
        (RefusedWhere (has_none (start_in w t) o)
        (WaitsWhere (is_told (w.words (Waiting t))) (is_other (monitor_of objects o).owner t))) }
    ensures told { (heap : Heap) (w : World) (objects : List PlainObject) (t o now : ℕ)
        → MayCallAlone heap w objects t (task.Wait o now) → is_listed (notified_at objects o) t ≡ true
        → (monitor_of objects o).owner ≡ None
        → GetsThrough heap w t (task.Wait o now) (wait_steps w.shape (start_in w t) o now) (λ a. a ≡ Ok (Done tt)) }
{}

/// A thread gets through these calls in the same sense wherever the others stand, if these only make no step
/// meanwhile.
///
/// - A print, a finish, a stop and a release are done.
/// - A create answers the thread's next object, in at most three steps. It is refused exactly where the thread has
/// made 1,024.
/// - A poll is pending exactly where the safepoint word has a requester.
/// - A resume is pending exactly where it has one or the halt.
pub fn calls_that_need_no_other_thread_get_through()
    ensures print { (heap : Heap) (w : World) (t : ℕ) (value : Value) → MayCall heap w t (task.Print value)
        → GetsThrough heap w t (task.Print value) (print_steps (start_in w t) value) (λ a. Unit {0}) }
    ensures create { (heap : Heap) (w : World) (t c : ℕ) → MayCall heap w t (task.Create c)
        → GetsThrough heap w t (task.Create c) (create_steps w.shape (start_in w t) c)
        (λ a. a ≡ created w.shape (start_in w t)) }
    ensures finish { (heap : Heap) (w : World) (t : ℕ) (ending : Ending) → MayCall heap w t (task.Finish ending)
        → GetsThrough heap w t (task.Finish ending) (finish_steps (start_in w t) ending) (λ a. Unit {0}) }
    ensures stop { (heap : Heap) (w : World) (t : ℕ) → MayCall heap w t task.Stop
        → GetsThrough heap w t task.Stop (stop_steps (side_context task.Stop (start_in w t)) (local_of (w.known t)))
        (λ a. Unit {0}) }
    ensures poll { (heap : Heap) (w : World) (t : ℕ) → MayCall heap w t task.Poll
        → GetsThrough heap w t task.Poll (poll_steps (side_context task.Poll (start_in w t)))
        (λ progress. is_pending progress ≡ has_requester (w.words Safepoint)) }
    ensures resume { (heap : Heap) (w : World) (t : ℕ) → MayCall heap w t task.Resume
        → GetsThrough heap w t task.Resume
        (resume_steps (side_context task.Resume (start_in w t)) (local_of (w.known t)))
        (λ progress. is_pending progress ≡ (is_halted (w.words Safepoint) || has_requester (w.words Safepoint))) }
    ensures release { (heap : Heap) (w : World) (t : ℕ) → MayCall heap w t task.Release
        → GetsThrough heap w t task.Release (release_safepoint (lone_context task.Release) (w.known t).thread)
        (λ a. Unit {0}) }
{}

/// So it is with the parts of operations that may be called by themselves.
///
/// - An enter by a lock record that is given the object's mark is done: by its first path where the mark is neutral,
/// and else by the recursive one.
/// - An exit from a lock record leaves it where it is recursive or the mark names no monitor. Else it answers the
/// monitor by which the lock is to be left.
/// - A request is done, and so is the look whether its safepoint is reached.
///
/// A release needs no other thread (`calls_that_need_no_other_thread_get_through`).
pub fn a_thread_left_alone_gets_through_parts()
    ensures stack_enter { (heap : Heap) (w : World) (objects : List PlainObject) (t o mark : ℕ)
        → MayCallAlone heap w objects t (task.StackEnter o mark) → w.words (Mark o) ≡ mark
        → GetsThrough heap w t (task.StackEnter o mark)
        (stack_enter_steps (lone_context (task.StackEnter o mark)) (local_of (w.known t)) o mark)
        (λ progress. progress ≡ Done (path_by (read_mark mark))) }
    ensures stack_exit { (heap : Heap) (w : World) (objects : List PlainObject) (t o : ℕ)
        → MayCallAlone heap w objects t (task.StackExit o)
        → GetsThrough heap w t (task.StackExit o)
        (stack_exit_steps (call_context (task.StackExit o) op.Exit o) (local_of (w.known t)) o)
        (λ out. out ≡ out_due (local_of (w.known t)) o w.words) }
    ensures request { (heap : Heap) (w : World) (objects : List PlainObject) (t : ℕ)
        → MayCallAlone heap w objects t task.Request
        → GetsThrough heap w t task.Request (request_steps (lone_context task.Request) (w.known t).thread) IsDone }
    ensures reached { (heap : Heap) (w : World) (objects : List PlainObject) (t : ℕ)
        → MayCallAlone heap w objects t task.Reached
        → GetsThrough heap w t task.Reached (reached_steps (lone_context task.Reached)) IsDone }
{}

/// In a run of one thread alone each step finds what the steps before it left, and the words after the run are those that its steps left.
/// So the laws of `alone` say what such a run answers.
pub fn a_run_of_one_thread_finds_what_it_left()
    ensures found { (w : World) (t : ℕ) (ms : List StepMade) (v : World) → Moves w t ms v → FoundAlone w.words ms }
    ensures words { (w : World) (t : ℕ) (ms : List StepMade) (v : World) (n : WordId) → Moves w t ms v
        → v.words n ≡ words_left w.words ms n }
{}

/// The words are such as these laws ask for, where all clauses hold and a thread is left alone. No mark and no
/// prototype is 0, the safepoint word is that of the thread alone, and who has the lock of an object by the words is
/// its owner by the logs.
pub fn worlds_with_one_thread_are_quiet()
    ensures words { (w : World) (objects : List PlainObject) (t : ℕ) → IsLeftAlone w t → Fits w objects
        → Quiet (word_of_one (w.known t).requesting t) w.words }
    ensures prototypes { (w : World) (objects : List PlainObject) (t c : ℕ) → IsLeftAlone w t → Fits w objects
        → w.words (Prototype c) ≢ 0 }
    ensures owners { (w : World) (objects : List PlainObject) (t o : ℕ) → IsLeftAlone w t → Fits w objects
        → who_in w.shape w.words o ≡ (monitor_of objects o).owner }
{}
