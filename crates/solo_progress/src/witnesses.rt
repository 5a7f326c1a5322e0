//! Worlds to which small heaps come, in which a thread is left alone and may begin calls: so what these laws of `through` ask for comes
//! about, for each call. The functions do nothing.

ghost use Rattle.std.specs.Prelude.{◌≡◌, ◌≢◌, ℕ, ◌<◌, true, false, [], ◌∷◌, None};
ghost use Rattle.plain_monitor.specs.Monitor.{is_listed};
ghost use Rattle.plain_monitor.specs.declared.entry.Ending.{Ending};
ghost use Rattle.plain_monitor.specs.declared.entry.Value.TheVariants.{Nil};
ghost use Rattle.core_world.specs.declared.heap_call.HeapCall.TheVariants as task;
ghost use Rattle.core_world.specs.declared.word_id.WordId.TheVariants.{Mark, Prototype};
ghost use Rattle.core_world.specs.Locks.{monitor_of, notified_at};
ghost use Rattle.core_world.specs.Opening.{opening};
ghost use Rattle.core_world.specs.Threads.ThreadView.{StepMade};
ghost use Rattle.core_world.specs.Trees.SafepointSteps.{released_word};
ghost use Rattle.core_world.specs.Valid.{Fits};
ghost use Rattle.core_world.specs.Words.Forms.{waits_on};
ghost use Rattle.core_law.specs.Reached.{IsReachable};
ghost use Rattle.core_steps.specs.SmallWorlds.{small, looked, running, neutral, entered};
ghost use Rattle.step_history.specs.Examples.{lone, world_of, enters, waits};
ghost use Rattle.step_history.specs.Race.{rivals};
ghost use Rattle.solo_progress.specs.Alone.{Quiet};
ghost use Rattle.solo_progress.specs.Answers.{is_others_bias};
ghost use Rattle.solo_progress.specs.LeftAlone.{IsLeftAlone, MayCallAlone, MayCall, start_in};
ghost use Rattle.solo_progress.specs.Moves.{Moves};
ghost use Rattle.solo_progress.specs.PairWorlds.{pair, alone};
ghost use Rattle.solo_progress.specs.RoomyWorlds.{roomy, roomy_running};
ghost use Rattle.solo_progress.specs.Witnesses.{unowned, owned, slotted, held, waiting, reaches, told, notified};

/// In a heap without biases, of one thread and one object: where the thread runs, it may enter the object, by the whole call or by a lock
/// record alone, ask for its hash, dump, print, finish, poll, stop, and ask for a safepoint. Where it has entered, it may leave, by the
/// whole call or by its record, wait, notify one or all, and check. In the opening world it may resume. In a heap without biases, of one
/// thread, with the numbers of 1,024 objects that it may make, the thread may make one where it runs.
///
/// A witness for `a_thread_left_alone_gets_through`, `a_thread_left_alone_enters_unless_another_owns`,
/// `a_thread_left_alone_waits_until_it_is_told`, `calls_that_need_no_other_thread_get_through` and
/// `a_thread_left_alone_gets_through_parts`.
pub fn calls_can_begin()
    ensures enter { (now : ℕ) → MayCallAlone small running (unowned ∷ []) 0 (task.Enter 0 now) }
    ensures stack_enter { MayCallAlone small running (unowned ∷ []) 0 (task.StackEnter 0 neutral)
        × (running.words (Mark 0) ≡ neutral) }
    ensures hash { (now : ℕ) → MayCallAlone small running (unowned ∷ []) 0 (task.Hash 0 now) }
    ensures dump { MayCallAlone small running (unowned ∷ []) 0 task.Dump }
    ensures request { MayCallAlone small running (unowned ∷ []) 0 task.Request }
    ensures print { MayCall small running 0 (task.Print Nil) }
    ensures finish { (ending : Ending) → MayCall small running 0 (task.Finish ending) }
    ensures poll { MayCallAlone small running (unowned ∷ []) 0 task.Poll }
    ensures stop { MayCall small running 0 task.Stop }
    ensures exit { MayCallAlone small entered (owned ∷ []) 0 (task.Exit 0) }
    ensures stack_exit { MayCallAlone small entered (owned ∷ []) 0 (task.StackExit 0) }
    ensures wait { (now : ℕ) → MayCallAlone small entered (owned ∷ []) 0 (task.Wait 0 now)
        × (waits_on (entered.known 0).wait 0 ≡ false) }
    ensures notify { (now : ℕ) → MayCallAlone small entered (owned ∷ []) 0 (task.Notify 0 now) }
    ensures notify_all { (now : ℕ) → MayCallAlone small entered (owned ∷ []) 0 (task.NotifyAll 0 now) }
    ensures check { MayCallAlone small entered (owned ∷ []) 0 task.Check }
    ensures create { MayCall roomy roomy_running 0 (task.Create 0) }
    ensures resume { MayCall small (opening small.shape small.start small.biasing) 0 task.Resume }
{}

/// In a heap without biases, of one thread and one object with a slot: where the thread has entered the object, it may read and write the
/// slot; where it has seen that its safepoint is reached, it may look again, and release it; and where it has let go to wait, it may go on
/// with its wait.
///
/// A witness for `a_thread_left_alone_gets_through`, `a_thread_left_alone_waits_until_it_is_told`,
/// `a_thread_left_alone_gets_through_parts` and `calls_that_need_no_other_thread_get_through`.
pub fn owners_requesters_and_waiters_can_go_on()
    ensures get { MayCallAlone lone (world_of lone (enters 0)) (held ∷ []) 0 (task.Get 0 0) }
    ensures put { MayCallAlone lone (world_of lone (enters 0)) (held ∷ []) 0 (task.Put 0 0 Nil) }
    ensures reached { MayCallAlone lone (world_of lone (reaches 0)) (slotted ∷ []) 0 task.Reached }
    ensures release { MayCall lone (world_of lone (reaches 0)) 0 task.Release }
    ensures wait { (now : ℕ) → MayCallAlone lone (world_of lone (waits 0)) (waiting ∷ []) 0 (task.Wait 0 now)
        × (waits_on ((world_of lone (waits 0)).known 0).wait 0 ≡ true) }
{}

/// In a heap with biases, of two threads and one object: thread 1 is left alone, and may enter the object, which is validly biased to
/// thread 0 and owned by it. So the law of enters speaks of revocations too.
///
/// A witness for `a_thread_left_alone_enters_unless_another_owns`.
pub fn a_thread_can_be_left_alone_before_a_revocation()
    ensures comes { IsReachable pair alone }
    ensures ready { (now : ℕ) → MayCallAlone pair alone (owned ∷ []) 1 (task.Enter 0 now) }
    ensures biased { is_others_bias alone.shape alone.words 0 1 ≡ true }
{}

/// In the heap of `calls_can_begin`, where its thread runs, the words are such as the laws of trees ask for: they are quiet, the prototype
/// isn't 0, the object is biased to nobody else, and the thread waits on nothing (`quiet`); all clauses hold, and the thread is left alone
/// (`alone`). A thread that waits has such a number, too (`waits`).
///
/// A witness for `calls_without_a_safepoint_get_through`, `calls_that_revoke_get_through`, `waits_end_where_told`,
/// `calls_at_the_safepoint_word_get_through` and `worlds_with_one_thread_are_quiet`.
pub fn words_can_be_quiet()
    ensures quiet { ((start_in running 0).local.thread < 32) × ((start_in running 0).requesting ≡ false)
        × Quiet (released_word 0) running.words × (running.words (Prototype 0) ≢ 0)
        × (is_others_bias small.shape running.words 0 0 ≡ false)
        × (waits_on (start_in running 0).local.wait 0 ≡ false) }
    ensures alone { IsLeftAlone running 0 × Fits running (unowned ∷ []) }
    ensures waits { ((start_in (world_of lone (waits 0)) 0).local.thread < 32)
        × (waits_on (start_in (world_of lone (waits 0)) 0).local.wait 0 ≡ true) }
{}

/// In the opening world of that heap its thread makes a step, by itself.
///
/// A witness for `a_run_of_one_thread_finds_what_it_left`.
pub fn a_thread_can_move_alone()
    ensures { (m : StepMade) × Moves (opening small.shape small.start small.biasing) 0 (m ∷ []) looked }
{}

/// In a heap of two threads, thread 0 waited, and thread 1 has notified it, left the object, and stopped. So thread 0 is left alone, nobody
/// owns the object, and it may go on with its wait.
///
/// A witness for `a_thread_left_alone_waits_until_it_is_told`.
pub fn who_was_notified_can_be_left_alone()
    ensures { (now : ℕ) → MayCallAlone rivals (world_of rivals told) (notified ∷ []) 0 (task.Wait 0 now)
        × (is_listed (notified_at (notified ∷ []) 0) 0 ≡ true) × ((monitor_of (notified ∷ []) 0).owner ≡ None) }
{}
