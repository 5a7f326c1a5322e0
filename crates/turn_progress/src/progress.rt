//! The laws of turns.

ghost use Rattle.std.specs.Prelude.{◌≡◌, ◌⊎◌, ℕ, ◌+◌, ◌*◌, ◌<◌, true};
ghost use Rattle.core_world.specs.declared.answer.Progress.TheVariants.{Pending};
ghost use Rattle.core_world.specs.declared.answer.PendingCause.{PendingCause};
ghost use Rattle.core_world.specs.declared.answer.PendingCause.TheVariants.{Halted};
ghost use Rattle.core_world.specs.declared.word_id.WordId.TheVariants.{Safepoint};
ghost use Rattle.core_world.specs.Words.Forms.{is_halted};
ghost use Rattle.core_world.specs.Words.Shape.{IsInLimits};
ghost use Rattle.core_world.specs.World.{World};
ghost use Rattle.core_law.specs.Logic.{Heap};
ghost use Rattle.core_law.specs.Reached.{IsReachable};
ghost use Rattle.heap_table.specs.Seen.{HeapSeen};
ghost use Rattle.solo_progress.specs.Answers.{LetsGo};
ghost use Rattle.thread_frame.specs.Frames.{unspent, has_ended};
ghost use Rattle.thread_interp.specs.declared.moved.Moved.{Moved};
ghost use Rattle.thread_interp.specs.declared.moved.RunState.TheVariants.{Blocked};
ghost use Rattle.thread_interp.specs.Runners.{RunnerSeen};
ghost use Rattle.turn_progress.specs.Barred.{IsBarred};
ghost use Rattle.turn_progress.specs.Turns.{LiveTurns, LiveAlone, OthersStand, TurnAlone};

/// Of turns that end live each does as many instructions as it may: so what a thread has left of its fuel bounds how many such turns there
/// are, whatever the other threads do.
pub fn live_turns_do_their_instructions()
    ensures { (h : HeapSeen) (quantum n : ℕ) (r q : RunnerSeen) → LiveTurns h quantum r n q
        → unspent r.frame ≡ unspent q.frame + n * quantum }
{}

/// A runner has a turn from a world on to which a heap in the limits comes. Every other thread has stopped, none of
/// them asks for a safepoint, and none makes a step meanwhile.
///
/// Such a turn is never blocked for an exchange, a poll, a safepoint or an object in the middle of an inflation. It
/// is blocked at a resume where the run is halted, and else only where the plain monitors bar the call that was its
/// last: an enter of an object that another thread owns, or a wait that wasn't notified, or whose object another
/// thread owns. The owner word for which an enter or a wait is pending names that other thread.
pub fn a_turn_left_alone_is_blocked_by_monitors_or_the_halt()
    ensures { (h : HeapSeen) (quantum t : ℕ) (w v : World) (r q : RunnerSeen) (m : Moved) (why : PendingCause)
        → IsInLimits h.heap.shape → IsReachable h.heap w → OthersStand w t
        → TurnAlone h quantum t w r v q m → m.state ≡ Blocked why → IsBarred h w t why r q }
{}

/// A thread of which all others are left standing ends, or is barred by the plain monitors or the halt, within a
/// number of turns that follows from its fuel and the quantum. After so many live turns that one more would need more
/// instructions than it has fuel left for, the next turn is its last, or is blocked, and for that its last call is
/// barred.
pub fn a_thread_left_alone_ends_or_is_barred()
    ensures { (h : HeapSeen) (quantum t n : ℕ) (w x v : World) (r q z : RunnerSeen) (m : Moved)
        → IsInLimits h.heap.shape → IsReachable h.heap w → OthersStand w t
        → LiveAlone h quantum t w r n x q → TurnAlone h quantum t x q v z m → unspent r.frame < n * quantum + quantum
        → (has_ended z.frame ≡ true)
        ⊎ ((why : PendingCause) × (m.state ≡ Blocked why) × IsBarred h x t why q z) }
{}

/// In a heap of one thread all others stand still so in each world to which it comes: so these laws are of each run of such a heap.
pub fn a_heap_of_one_thread_has_no_others()
    ensures { (heap : Heap) (w : World) → heap.shape.threads ≡ 1 → IsReachable heap w → OthersStand w 0 }
{}

/// And there a turn is blocked by the halt, or for a notify of the thread's own wait, which no other thread is there to give, and by nothing
/// else. So the thread of a program of one thread that doesn't wait, in a run that isn't halted, comes to its end within the turns that its
/// fuel bounds, if it is given them.
pub fn a_thread_by_itself_is_blocked_by_its_wait_or_the_halt()
    ensures { (h : HeapSeen) (w : World) (why : PendingCause) (r q : RunnerSeen) (b : IsBarred h w 0 why r q)
        → IsInLimits h.heap.shape → h.heap.shape.threads ≡ 1 → IsReachable h.heap w
        → LetsGo {A = Unit {0}} (Pending why)
        ⊎ ((why ≡ Halted) × (is_halted (b.world.words Safepoint) ≡ true)) }
{}
