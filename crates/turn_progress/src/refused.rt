//! Laws that what is said of turns is refused where it is wrong. The functions do nothing.

ghost use Rattle.std.specs.Prelude.{◌≡◌, ◌≢◌, ◌⊎◌, ℕ, ◌+◌, ◌*◌, ◌<◌, ◌≤◌, true, false};
ghost use Rattle.mark_word.specs.Owner.{read_owner};
ghost use Rattle.core_world.specs.declared.answer.PendingCause.{PendingCause};
ghost use Rattle.core_world.specs.declared.answer.PendingCause.TheVariants.{Owned, Raced, Inflating};
ghost use Rattle.core_world.specs.declared.answer.PendingCause.TheVariants.{Stopping, Requested, Halted};
ghost use Rattle.core_world.specs.declared.heap_call.HeapCall.TheVariants as task;
ghost use Rattle.core_world.specs.declared.word_id.WordId.TheVariants.{Safepoint, Waiting};
ghost use Rattle.core_world.specs.Locks.{monitor_of};
ghost use Rattle.core_world.specs.Words.Forms.{waits_on, is_halted};
ghost use Rattle.core_world.specs.Words.Shape.{IsInLimits};
ghost use Rattle.core_world.specs.World.{World};
ghost use Rattle.core_law.specs.Reached.{IsReachable};
ghost use Rattle.heap_table.specs.Seen.{HeapSeen};
ghost use Rattle.solo_progress.specs.Answers.{is_other, is_told};
ghost use Rattle.thread_calls.specs.Advances.{DoneIn};
ghost use Rattle.thread_frame.specs.Frames.{unspent, has_ended};
ghost use Rattle.thread_interp.specs.declared.moved.Moved.{Moved};
ghost use Rattle.thread_interp.specs.declared.moved.RunState.TheVariants.{Live, Blocked};
ghost use Rattle.thread_interp.specs.Moves.{HasMoved, LastCall};
ghost use Rattle.thread_interp.specs.Runners.{RunnerSeen};
ghost use Rattle.turn_progress.specs.Barred.{named_by, IsBarred};
ghost use Rattle.turn_progress.specs.Turns.{LiveTurns, OthersStand};

/// Bars aren't everywhere. No turn is barred in which its thread made no step (`still`), or whose world is another one than that in which
/// its runner knew its steps (`elsewhere`). So it isn't so that each turn is barred (`each`), nor each from a world to which a heap in the
/// limits comes (`reached`). Refuses the conclusion of `a_turn_left_alone_is_blocked_by_monitors_or_the_halt`.
pub fn bars_are_not_everywhere()
    ensures still { (h : HeapSeen) (w : World) (t : ℕ) (why : PendingCause) (r q : RunnerSeen)
        → q.pass.known.steps ≡ r.pass.known.steps → IsBarred h w t why r q → ⊥ }
    ensures elsewhere { (h : HeapSeen) (w : World) (t : ℕ) (why : PendingCause) (r q : RunnerSeen)
        → (w.known t).steps ≢ r.pass.known.steps → IsBarred h w t why r q → ⊥ }
    ensures each { ((h : HeapSeen) (w : World) (t : ℕ) (r q : RunnerSeen) → (why : PendingCause) × IsBarred h w t why r q)
        → ⊥ }
    ensures reached { ((h : HeapSeen) (w : World) (t : ℕ) (r q : RunnerSeen) → IsInLimits h.heap.shape
        → IsReachable h.heap w → (why : PendingCause) × IsBarred h w t why r q) → ⊥ }
{}

/// Not barred: a turn whose last call could go on, since it was an enter of an object that no other thread owns (`enter`), a wait that was
/// told and whose object no other thread owns (`wait`), or a resume in a run that isn't halted (`resume`); and a turn whose last call was
/// of any other kind (`another`). Refuses the conclusion of `a_turn_left_alone_is_blocked_by_monitors_or_the_halt`.
pub fn a_call_that_can_go_on_is_not_barred()
    ensures enter { (h : HeapSeen) (w : World) (t o now : ℕ) (why : PendingCause) (r q : RunnerSeen)
        (b : IsBarred h w t why r q) → b.last.called.call.task ≡ task.Enter o now
        → is_other (monitor_of b.objects o).owner t ≡ false → ⊥ }
    ensures wait { (h : HeapSeen) (w : World) (t o now : ℕ) (why : PendingCause) (r q : RunnerSeen)
        (b : IsBarred h w t why r q) → b.last.called.call.task ≡ task.Wait o now
        → waits_on (b.world.known t).wait o ≡ true → is_told (b.world.words (Waiting t)) ≡ true
        → is_other (monitor_of b.objects o).owner t ≡ false → ⊥ }
    ensures resume { (h : HeapSeen) (w : World) (t : ℕ) (why : PendingCause) (r q : RunnerSeen)
        (b : IsBarred h w t why r q) → b.last.called.call.task ≡ task.Resume
        → is_halted (b.world.words Safepoint) ≡ false → ⊥ }
    ensures another { (h : HeapSeen) (w : World) (t : ℕ) (why : PendingCause) (r q : RunnerSeen)
        (b : IsBarred h w t why r q)
        → ((o now : ℕ) → b.last.called.call.task ≢ task.Enter o now)
        → ((o now : ℕ) → b.last.called.call.task ≢ task.Wait o now)
        → b.last.called.call.task ≢ task.Resume → ⊥ }
{}

/// Nothing bars a turn for an exchange that missed, an inflation or a safepoint, whatever its last call was; nor a wait that begins for
/// an owner; nor an enter or a wait for a word that names another than the plain owner of its object. Refuses the conclusion of
/// `a_turn_left_alone_is_blocked_by_monitors_or_the_halt`.
pub fn no_bar_for_another_cause()
    ensures raced { (h : HeapSeen) (w : World) (t expected found : ℕ) (r q : RunnerSeen)
        → IsBarred h w t (Raced expected found) r q → ⊥ }
    ensures inflating { (h : HeapSeen) (w : World) (t : ℕ) (r q : RunnerSeen) → IsBarred h w t Inflating r q → ⊥ }
    ensures stopping { (h : HeapSeen) (w : World) (t word : ℕ) (r q : RunnerSeen)
        → IsBarred h w t (Stopping word) r q → ⊥ }
    ensures requested { (h : HeapSeen) (w : World) (t word : ℕ) (r q : RunnerSeen)
        → IsBarred h w t (Requested word) r q → ⊥ }
    ensures begins { (h : HeapSeen) (w : World) (t o now word : ℕ) (r q : RunnerSeen)
        (b : IsBarred h w t (Owned word) r q) → b.last.called.call.task ≡ task.Wait o now
        → waits_on (b.world.known t).wait o ≡ false → ⊥ }
    ensures enters { (h : HeapSeen) (w : World) (t o now word : ℕ) (r q : RunnerSeen)
        (b : IsBarred h w t (Owned word) r q) → b.last.called.call.task ≡ task.Enter o now
        → named_by (read_owner word) ≢ (monitor_of b.objects o).owner → ⊥ }
    ensures waits { (h : HeapSeen) (w : World) (t o now word : ℕ) (r q : RunnerSeen)
        (b : IsBarred h w t (Owned word) r q) → b.last.called.call.task ≡ task.Wait o now
        → named_by (read_owner word) ≢ (monitor_of b.objects o).owner → ⊥ }
{}

/// Not barred: a turn whose last call was done, if that isn't the stop after it. Refuses the conclusion of
/// `a_turn_left_alone_is_blocked_by_monitors_or_the_halt`.
pub fn a_turn_that_did_its_last_call_is_not_barred()
    ensures { (h : HeapSeen) (w : World) (t : ℕ) (why : PendingCause) (r q : RunnerSeen)
        (last : LastCall (DoneIn h) h r.pass q.pass) → last.called.call.task ≢ task.Stop → IsBarred h w t why r q → ⊥ }
{}

/// A turn that is live has neither ended nor is it blocked. Refuses the conclusion of `a_thread_left_alone_ends_or_is_barred`.
pub fn a_live_turn_has_neither_ended_nor_is_barred()
    ensures { (h : HeapSeen) (quantum t : ℕ) (w : World) (r q : RunnerSeen) (m : Moved) → HasMoved h quantum r q m
        → m.state ≡ Live
        → (has_ended q.frame ≡ true)
        ⊎ ((why : PendingCause) × (m.state ≡ Blocked why) × IsBarred h w t why r q) → ⊥ }
{}

/// A turn that did fewer instructions than it might hasn't spent so much fuel (`fewer`), and no runner has so many live turns that they
/// would need more fuel than it has (`more`). Refuses the equation of `live_turns_do_their_instructions`.
pub fn no_turns_beyond_their_fuel()
    ensures fewer { (h : HeapSeen) (quantum : ℕ) (r q : RunnerSeen) (m : Moved) → HasMoved h quantum r q m
        → m.instructions < quantum → unspent r.frame ≡ unspent q.frame + 1 * quantum → ⊥ }
    ensures more { (h : HeapSeen) (quantum n : ℕ) (r q : RunnerSeen) → unspent r.frame < n * quantum
        → LiveTurns h quantum r n q → ⊥ }
{}

/// The others don't stand where one of them runs or asks for a safepoint; and of a thread that the world doesn't have
/// there are no others. Refuses the conclusion of `a_heap_of_one_thread_has_no_others`.
pub fn others_that_run_or_ask_do_not_stand()
    ensures runs { (w : World) (t u : ℕ) → u ≢ t → (w.known u).running ≡ true → OthersStand w t → ⊥ }
    ensures asks { (w : World) (t u : ℕ) → u ≢ t → (w.known u).requesting ≡ true → OthersStand w t → ⊥ }
    ensures absent { (w : World) (t : ℕ) → w.shape.threads ≤ t → OthersStand w t → ⊥ }
{}

/// No owner bars a turn of the thread of a heap of one thread, from whatever world to which the heap comes (`owner`), nor does the halt where
/// the run isn't halted in the world in which the turn's last call began (`halt`). Refuses the conclusion of
/// `a_thread_by_itself_is_blocked_by_its_wait_or_the_halt`.
pub fn no_owner_blocks_a_thread_by_itself()
    ensures owner { (h : HeapSeen) (w : World) (word : ℕ) (r q : RunnerSeen) → IsInLimits h.heap.shape
        → h.heap.shape.threads ≡ 1 → IsReachable h.heap w → IsBarred h w 0 (Owned word) r q → ⊥ }
    ensures halt { (h : HeapSeen) (w : World) (r q : RunnerSeen) (b : IsBarred h w 0 Halted r q)
        → is_halted (b.world.words Safepoint) ≡ false → ⊥ }
{}
