//! Ends of small heaps, threads of theirs at rest, and turns of such threads: so that the laws' premises are met. The functions do nothing.

ghost use Rattle.std.specs.Prelude.{◌≡◌, ◌<◌, ◌+◌, ◌*◌, ℕ, true, List, [], ◌∷◌, length, map, sum, slice_get, slice_index, Some};
ghost use Rattle.atomic_table.specs.Seated.{TableId};
ghost use Rattle.plain_monitor.specs.declared.entry.Entry.TheVariants as entry;
ghost use Rattle.plain_monitor.specs.declared.entry.Logged.{Logged};
ghost use Rattle.plain_monitor.specs.declared.entry.Path.TheVariants.{StackFirst};
ghost use Rattle.plain_monitor.specs.Limits.{most_holds};
ghost use Rattle.core_world.specs.declared.answer.PendingCause.TheVariants.{Halted};
ghost use Rattle.core_world.specs.Threads.ThreadView.{DumpShot};
ghost use Rattle.core_world.specs.Words.Forms.{is_halted, waits_on};
ghost use Rattle.core_world.specs.Words.Shape.{IsInLimits};
ghost use Rattle.core_law.specs.Reached.{IsReachable};
ghost use Rattle.step_history.specs.Examples.{lone, world_of, enters, waits, halts};
ghost use Rattle.step_history.specs.Race.{rivals};
ghost use Rattle.heap_table.specs.Resting.{Rests};
ghost use Rattle.closed_heap_laws.specs.OfARun.{IsEnd, shots_at, shots_in};
ghost use Rattle.own_logs.specs.HoldsByLog.{AreHolds};
ghost use Rattle.thread_frame.specs.Frames.{unspent};
ghost use Rattle.thread_interp.specs.declared.moved.RunState.TheVariants.{Blocked};
ghost use Rattle.turn_progress.specs.Barred.{IsBarred};
ghost use Rattle.turn_progress.specs.Turns.{LiveTurns, LiveAlone, OthersStand, TurnAlone};
ghost use Rattle.small_runs.specs.Turns.{turned, ended, waited, halted, barred, begun, not_notified};
ghost use Rattle.small_runs.specs.Turns.{ends, lets_go, finds_the_halt};
ghost use Rattle.small_runs.specs.Turns.{runner_at_first, runner_halfway, runner_at_end, runner_waiting, runner_halted, runner_barred};
ghost use Rattle.small_runs.specs.Rivals.{rivals_in, taken, kept_out, runner_of_rival, runner_kept_out};
ghost use Rattle.small_runs.specs.Rivals.{other_owns, finds_the_owner};
ghost use Rattle.small_runs.specs.Runs.{lone_biased, all_known, has_finished, has_finished_biased, lone_in, pass_in};

/// Small heaps come to their ends. One without biases, where its thread has a shot (`finished`): it has dumped, entered an object, left it, and
/// finished (`logged`). One that was halted, where its thread waits (`halted`). And one with biases, whose thread had the object's bias (`biased`).
/// So the premises are met of `closed_heap_laws::the_end_of_a_heap_tells_its_run`, `closed_heap_laws::the_end_of_a_heap_tells_its_prototypes`
/// and `closed_heap_laws::monitors_at_the_end_are_apart`.
pub fn small_heaps_come_to_their_ends()
    ensures finished { (words : List ℕ) × IsEnd lone words (all_known has_finished)
        × ((s : DumpShot) × (slice_get (shots_at (shots_in (all_known has_finished)) 0) 0 ≡ Some s)) }
    ensures logged { map (λ (l : Logged). l.entry) (has_finished.known 0).log
        ≡ entry.Dump 1 ∷ entry.Enter 0 StackFirst ∷ entry.Exit 0 ∷ entry.Done ∷ [] }
    ensures halted { (words : List ℕ) × IsEnd lone words (all_known (world_of lone (halts 0)))
        × (is_halted (slice_index words 0) ≡ true) }
    ensures biased { (words : List ℕ) × IsEnd lone_biased words (all_known has_finished_biased)
        × (0 < lone_biased.shape.classes) }
{}

/// A thread rests where it holds the object of its heap once (`holds`), where it waits on it (`waits`), and where it has finished, holds
/// nothing and has a shot (`free`). So the premises are met of `own_logs::holds_at_rest_follow_from_the_own_log`,
/// `own_logs::waits_at_rest_follow_from_the_own_log` and `own_logs::shots_at_rest_are_those_of_logged_dumps`.
pub fn small_heaps_have_threads_at_rest()
    ensures holds { (table : TableId) → Rests (lone_in table) (pass_in (lone_in table) (world_of lone (enters 0)))
        × AreHolds (lone_in table) (pass_in (lone_in table) (world_of lone (enters 0))) (1 ∷ [])
        × (sum (1 ∷ []) < most_holds) }
    ensures waits { (table : TableId) → Rests (lone_in table) (pass_in (lone_in table) (world_of lone (waits 0)))
        × (0 < length lone.shape.objects) × (waits_on ((world_of lone (waits 0)).known 0).wait 0 ≡ true) }
    ensures free { (table : TableId) → Rests (lone_in table) (pass_in (lone_in table) has_finished)
        × AreHolds (lone_in table) (pass_in (lone_in table) has_finished) (0 ∷ [])
        × (sum (0 ∷ []) ≡ 0)
        × (length (has_finished.known 0).shots ≡ 1) }
{}

/// Turns of at most two instructions of the thread of a small program, alone in its heap. The first one ends live (`live`); after it the next
/// one ends the thread, whose fuel is spent (`ends`). Where the run is halted a turn is blocked (`blocked`), and so the thread is barred
/// (`barred`). So the premises are met of `turn_progress::live_turns_do_their_instructions`,
/// `turn_progress::a_thread_left_alone_ends_or_is_barred`, `turn_progress::a_turn_left_alone_is_blocked_by_monitors_or_the_halt` and
/// `turn_progress::a_thread_by_itself_is_blocked_by_its_wait_or_the_halt`.
pub fn threads_of_small_programs_have_turns()
    ensures live { (table : TableId) → LiveTurns (lone_in table) 2 (runner_at_first table) 1 (runner_halfway table) }
    ensures ends { (table : TableId) → IsInLimits lone.shape × IsReachable lone (world_of lone [])
        × OthersStand (world_of lone []) 0
        × LiveAlone (lone_in table) 2 0 (world_of lone []) (runner_at_first table) 1 turned (runner_halfway table)
        × TurnAlone (lone_in table) 2 0 turned (runner_halfway table) ended (runner_at_end table) ends
        × (unspent begun < 1 * 2 + 2) }
    ensures blocked { (table : TableId) → IsInLimits lone.shape × IsReachable lone halted × OthersStand halted 0
        × TurnAlone (lone_in table) 2 0 halted (runner_halted table) barred (runner_barred table) finds_the_halt
        × (finds_the_halt.state ≡ Blocked Halted) }
    ensures barred { (table : TableId) → IsInLimits lone.shape × (lone.shape.threads ≡ 1) × IsReachable lone halted
        × IsBarred (lone_in table) halted 0 Halted (runner_halted table) (runner_barred table) }
{}

/// A turn of at most four instructions of a thread of a small program, beside another thread, which has entered the object and stands still. The
/// turn does one instruction, and is blocked at an enter of that object, for the owner word that names the other thread's lock record (`blocked`);
/// and so the thread is barred (`barred`). So the premises are met of `turn_progress::a_turn_left_alone_is_blocked_by_monitors_or_the_halt` and
/// `turn_progress::a_thread_left_alone_ends_or_is_barred` where another thread owns the object.
pub fn a_turn_can_be_blocked_by_another_thread_that_owns_its_object()
    ensures blocked { (table : TableId) → IsInLimits rivals.shape × IsReachable rivals taken × OthersStand taken 1
        × LiveAlone (rivals_in table) 4 1 taken (runner_of_rival table) 0 taken (runner_of_rival table)
        × TurnAlone (rivals_in table) 4 1 taken (runner_of_rival table) kept_out (runner_kept_out table) finds_the_owner
        × (finds_the_owner.state ≡ Blocked other_owns)
        × (unspent begun < 0 * 4 + 4) }
    ensures barred { (table : TableId) → IsBarred (rivals_in table) taken 1 other_owns (runner_of_rival table)
        (runner_kept_out table) }
{}

/// Turns of at most two instructions of the thread of a small program, alone in its heap. After a live one the next one is blocked, since its wait
/// has let go of the object and isn't notified (`blocked`); and so the thread is barred (`barred`). So the premises are met of
/// `turn_progress::a_turn_left_alone_is_blocked_by_monitors_or_the_halt`, `turn_progress::a_thread_left_alone_ends_or_is_barred` and
/// `turn_progress::a_thread_by_itself_is_blocked_by_its_wait_or_the_halt` where the thread waits.
pub fn a_turn_can_be_blocked_by_its_own_wait()
    ensures blocked { (table : TableId) → IsInLimits lone.shape × IsReachable lone (world_of lone [])
        × OthersStand (world_of lone []) 0
        × LiveAlone (lone_in table) 2 0 (world_of lone []) (runner_at_first table) 1 turned (runner_halfway table)
        × TurnAlone (lone_in table) 2 0 turned (runner_halfway table) waited (runner_waiting table) lets_go
        × (lets_go.state ≡ Blocked not_notified)
        × (unspent begun < 1 * 2 + 2) }
    ensures barred { (table : TableId) → IsInLimits lone.shape × (lone.shape.threads ≡ 1) × IsReachable lone turned
        × OthersStand turned 0
        × IsBarred (lone_in table) turned 0 not_notified (runner_halfway table) (runner_waiting table) }
{}
