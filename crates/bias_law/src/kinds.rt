//! The law of biases stays by each kind of step of which `core_locks` has a law, with the conditions that it has there. (The store of a hold word and the
//! load that logs an Enter stand in `steps`: the former has its own condition.) Only a notify that
//! wakes nobody, by publishing, has one more: a mark without the bias pattern, seen in the call.

ghost use Rattle.std.specs.Prelude.{ℕ, ◌+◌, length};
ghost use Rattle.mark_word.specs.Mark.{mark_of};
ghost use Rattle.mark_word.specs.declared.mark.MarkForm.TheVariants.{Locked};
ghost use Rattle.plain_monitor.specs.declared.entry.Entry.{Entry};
ghost use Rattle.plain_monitor.specs.declared.entry.Value.{Value};
ghost use Rattle.core_world.specs.declared.word_id.WordId.TheVariants.{Mark, Displaced, Owner, Recursions, Header, Object};
ghost use Rattle.core_world.specs.declared.plan.StepPlan.{StepPlan};
ghost use Rattle.core_world.specs.declared.stage.Stage.TheVariants.{Settled};
ghost use Rattle.core_world.specs.Threads.ThreadView.{local_of};
ghost use Rattle.core_world.specs.Looking.{IsLook};
ghost use Rattle.core_world.specs.Trees.Plans.{CallContext, next_stamp};
ghost use Rattle.core_world.specs.Trees.HashSteps.{NextDraw, find_hash_plan, draw_plan};
ghost use Rattle.core_world.specs.Trees.LockSteps.{displace_plan, seize_plan, clear_plan, raise_stamp_plan, store_ready_plan, leave_plan, let_go_plan};
ghost use Rattle.core_world.specs.Trees.LookSteps.{keep_shot_plan};
ghost use Rattle.core_world.specs.Trees.MonitorSteps.{claim_plan, fetch_plan, prepare_plan, inflate_plan, name_plan, name_neutral_plan, grab_plan, take_over_plan, raise_count_plan, lower_count_plan, reset_count_plan, store_entering_plan, free_plan};
ghost use Rattle.core_world.specs.Trees.Operations.{store_ended_plan, get_plan, put_plan};
ghost use Rattle.core_world.specs.Trees.WaitSteps.{save_count_plan, drop_plan, quit_plan, regain_plan, restore_plan, wake_next_plan, log_wait_plan, log_resume_plan, publish_plan, notify_plan, notify_all_plan};
ghost use Rattle.core_world.specs.Trees.SafepointSteps.{publish_log_plan, stop_plan, resume_plan, request_plan, release_plan, halt_plan};
ghost use Rattle.core_world.specs.Steps.{world_after};
ghost use Rattle.core_world.specs.World.{World};
ghost use Rattle.core_locks.specs.HashLaws.{MayFind, MayFindInRecord, MayFindInMonitor, MayDrawInMark, MayDrawInMonitor};
ghost use Rattle.core_locks.specs.JournalLaws.{MayGet, MayPublishLog, MayLogResume, MayRaise, MayPut, MayBeReady, MayStand, MayEnd, MayWait, MayPublish};
ghost use Rattle.core_locks.specs.LockLaws.{MayDisplace, MaySeize, MayLeave, MayClear, MayLetGo};
ghost use Rattle.core_locks.specs.MonitorLaws.{MayFetch, MaySaveCount, MayClaim, MayPrepare, MayPrepareOwner, MayPrepareObject, MayRaiseCount, MayLowerCount, MayResetCount, MayTakeOver, MayGrab, MayInflate, MayName, MayNameNeutral, MayFree, MayDrop, MayQuit, MayRegain, MayRestore};
ghost use Rattle.core_locks.specs.SafepointLaws.{MayStop, MayResume, MayRequest, MayRelease, MayReleaseTaking, MayHalt};
ghost use Rattle.core_locks.specs.ShotLaws.{MayKeepShot};
ghost use Rattle.core_locks.specs.WakeLaws.{MayWakeNext, MayNotify, MayNotifyAll};
ghost use Rattle.core_world.specs.Trees.DeflateSteps.{detach_plan, clean_plan, enqueue_plan, advance_plan};
ghost use Rattle.core_locks.specs.DeflationLaws.{MayDetach, MayClean, MayEnqueue, MayAdvance};
ghost use Rattle.core_world.specs.declared.stage.Stage.TheVariants.{BiasAcquired};
ghost use Rattle.core_law.specs.BiasLaw.{BiasLawHolds};
ghost use Rattle.bias_law.specs.Steps.{SawNone, KeepsBiases};

/// A look keeps the law of biases, of whatever word and thread.
pub fn a_look_keeps_the_law_of_biases()
    ensures { (w : World) (t : ℕ) (p : StepPlan) → IsLook (w.known t) p → BiasLawHolds w
        → BiasLawHolds (world_after p t w) }
{}

/// The steps that take a lock record and leave one.
pub fn steps_of_lock_records_keep_the_law_of_biases()
    ensures displaced { (e : CallContext) (p d : ℕ) → KeepsBiases (λ w t. MayDisplace (w.known t) e p)
        (λ w t. displace_plan e (w.known t).stage t p d) }
    ensures seized { (e : CallContext) (o mark p : ℕ)
        → KeepsBiases (λ w t. MaySeize (w.known t) e o mark p) (λ w t. seize_plan e t o mark p) }
    ensures cleared { (e : CallContext) (o p : ℕ) → KeepsBiases (λ w t. MayClear (w.known t) e o p)
        (λ w t. clear_plan e t p) }
{}

/// The steps on words of monitors: claiming a position of the ring and loading the monitor there, preparing its words, and naming it in a mark.
pub fn making_a_monitor_keeps_the_law_of_biases()
    ensures claimed { (e : CallContext) → KeepsBiases (λ w t. MayClaim (w.known t) e) (λ w t. claim_plan e) }
    ensures fetched { (e : CallContext) (p : ℕ) → KeepsBiases (λ w t. MayFetch (w.known t) e p)
        (λ w t. fetch_plan e w.shape p) }
    ensures owner { (e : CallContext) (m word : ℕ) → KeepsBiases
        (λ w t. MayPrepareOwner w.shape (w.known t) e m word)
        (λ w t. prepare_plan e (w.known t).stage (Owner m) word) }
    ensures recursions { (e : CallContext) (m word : ℕ)
        → KeepsBiases (λ w t. MayPrepare (w.known t) e m)
        (λ w t. prepare_plan e (w.known t).stage (Recursions m) word) }
    ensures header { (e : CallContext) (m word : ℕ) → KeepsBiases (λ w t. MayPrepare (w.known t) e m)
        (λ w t. prepare_plan e (w.known t).stage (Header m) word) }
    ensures object { (e : CallContext) (m word : ℕ) → KeepsBiases
        (λ w t. MayPrepareObject w.shape (w.known t) e m word)
        (λ w t. prepare_plan e (w.known t).stage (Object m) word) }
    ensures inflates { (e : CallContext) (o mark u p : ℕ)
        → KeepsBiases (λ w t. MayInflate (w.known t) e o mark u p) (λ w t. inflate_plan e o mark u p) }
    ensures named { (e : CallContext) (o m u p h : ℕ)
        → KeepsBiases (λ w t. MayName w.shape (w.known t) e o m u p h) (λ w t. name_plan e o m) }
    ensures named_neutral { (e : CallContext) (o mark m : ℕ)
        → KeepsBiases (λ w t. MayNameNeutral w.shape (w.known t) e o mark m)
        (λ w t. name_neutral_plan e o mark m) }
{}

/// The steps that give an idle monitor back at a reached safepoint, and the release after them of a thread that gave itself a bias there.
pub fn giving_a_monitor_back_keeps_the_law_of_biases()
    ensures detached { (e : CallContext) (o m header : ℕ) → KeepsBiases
        (λ w t. MayDetach w.shape (w.known t) e o m header)
        (λ w t. detach_plan e (w.known t).stage o m header) }
    ensures owner { (e : CallContext) (m : ℕ)
        → KeepsBiases (λ w t. MayClean (w.known t) e m) (λ w t. clean_plan e (w.known t).stage (Owner m)) }
    ensures recursions { (e : CallContext) (m : ℕ)
        → KeepsBiases (λ w t. MayClean (w.known t) e m) (λ w t. clean_plan e (w.known t).stage (Recursions m)) }
    ensures header { (e : CallContext) (m : ℕ)
        → KeepsBiases (λ w t. MayClean (w.known t) e m) (λ w t. clean_plan e (w.known t).stage (Header m)) }
    ensures object { (e : CallContext) (m : ℕ)
        → KeepsBiases (λ w t. MayClean (w.known t) e m) (λ w t. clean_plan e (w.known t).stage (Object m)) }
    ensures enqueued { (e : CallContext) (m end : ℕ) → KeepsBiases (λ w t. MayEnqueue (w.known t) e m end)
        (λ w t. enqueue_plan e (w.known t).stage w.shape end m) }
    ensures advanced { (e : CallContext) (m end : ℕ) → KeepsBiases
        (λ w t. MayAdvance w.shape (w.known t) e m end)
        (λ w t. advance_plan e (w.known t).stage end) }
    ensures released { (e : CallContext) (o : ℕ) → KeepsBiases (λ w t. MayReleaseTaking (w.known t) e o)
        (λ w t. release_plan e (BiasAcquired o) t) }
{}

/// The steps that own a monitor and count its recursions.
pub fn owning_a_monitor_keeps_the_law_of_biases()
    ensures grabbed { (e : CallContext) (o m : ℕ) → KeepsBiases (λ w t. MayGrab (w.known t) e o m)
        (λ w t. grab_plan e t o m) }
    ensures takes_over { (e : CallContext) (o m p : ℕ) → KeepsBiases (λ w t. MayTakeOver (w.known t) e o m p)
        (λ w t. take_over_plan e t o m) }
    ensures up { (e : CallContext) (o m r : ℕ) → KeepsBiases (λ w t. MayRaiseCount (w.known t) e o m r)
        (λ w t. raise_count_plan e o m r) }
    ensures down { (e : CallContext) (o m r : ℕ) → KeepsBiases (λ w t. MayLowerCount (w.known t) e o m r)
        (λ w t. lower_count_plan e o m r) }
    ensures none { (e : CallContext) (o m : ℕ) → KeepsBiases (λ w t. MayResetCount (w.known t) e o m)
        (λ w t. reset_count_plan e m) }
    ensures dropped { (e : CallContext) (o m : ℕ) → KeepsBiases (λ w t. MayDrop (w.known t) e o m)
        (λ w t. drop_plan e o m) }
    ensures quits { (e : CallContext) (o m : ℕ) → KeepsBiases (λ w t. MayQuit (w.known t) e o m) (λ w t. quit_plan e m) }
    ensures regained { (e : CallContext) (o m : ℕ) → KeepsBiases (λ w t. MayRegain (w.known t) e o m)
        (λ w t. regain_plan e t o m) }
    ensures restored { (e : CallContext) (o m word : ℕ)
        → KeepsBiases (λ w t. MayRestore (w.known t) e o m) (λ w t. restore_plan e o m word) }
    ensures saved { (e : CallContext) (o m : ℕ) → KeepsBiases (λ w t. MaySaveCount (w.known t) e o m)
        (λ w t. save_count_plan e m) }
{}

/// The steps on stamps, on waiting words and on the own length that log nothing.
pub fn steps_of_the_journal_keep_the_law_of_biases()
    ensures raised { (e : CallContext) (o : ℕ) → KeepsBiases (λ w t. MayRaise (w.known t) e o)
        (λ w t. raise_stamp_plan e o (next_stamp (local_of (w.known t)))) }
    ensures ready { (e : CallContext) → KeepsBiases (λ w t. MayBeReady (w.known t) e)
        (λ w t. store_ready_plan e (w.known t).stage t) }
    ensures entering { (e : CallContext) (o m : ℕ) → KeepsBiases (λ w t. MayStand w.shape (w.known t) e o m)
        (λ w t. store_entering_plan e t o) }
    ensures ended { (e : CallContext) → KeepsBiases (λ w t. MayEnd (w.known t) e) (λ w t. store_ended_plan e t) }
    ensures published { (e : CallContext) → KeepsBiases (λ w t. MayPublishLog (w.known t) e)
        (λ w t. publish_log_plan e t (length (w.known t).log)) }
    ensures told { (e : CallContext) (o u n : ℕ) → KeepsBiases (λ w t. MayWakeNext w.shape (w.known t) e o u n)
        (λ w t. wake_next_plan e o u (n + 1)) }
{}

/// The steps on the safepoint word, but for the release that ends a revocation, and that of a thread which gave itself a bias: this one stands with
/// the steps that give monitors back, after which it comes.
pub fn steps_of_the_safepoint_keep_the_law_of_biases()
    ensures stops { (e : CallContext) → KeepsBiases (λ w t. MayStop (w.known t) e) (λ w t. stop_plan e t) }
    ensures resumes { (e : CallContext) (word : ℕ) → KeepsBiases (λ w t. MayResume (w.known t) e word)
        (λ w t. resume_plan e t word) }
    ensures requests { (e : CallContext) (word : ℕ) → KeepsBiases (λ w t. MayRequest (w.known t) e word)
        (λ w t. request_plan e t word) }
    ensures releases { (e : CallContext) → KeepsBiases (λ w t. MayRelease (w.known t) e) (λ w t. release_plan e Settled t) }
    ensures halts { (e : CallContext) → KeepsBiases (λ w t. MayHalt w.shape.threads (w.known t) e) (λ w t. halt_plan e t) }
    ensures shot { (e : CallContext) → KeepsBiases (λ w t. MayKeepShot w.shape (w.known t) e) (λ w t. keep_shot_plan e) }
{}

/// The steps that log an entry, but for an Enter.
pub fn logging_keeps_the_law_of_biases()
    ensures get { (e : CallContext) (o slot : ℕ) → KeepsBiases (λ w t. MayGet w.shape (w.known t) e o slot)
        (λ w t. get_plan e o slot) }
    ensures put { (e : CallContext) (o slot : ℕ) (value : Value)
        → KeepsBiases (λ w t. MayPut w.shape (w.known t) o slot value) (λ w t. put_plan e o slot value) }
    ensures exit_by_hold { (e : CallContext) (o d p : ℕ)
        → KeepsBiases (λ w t. MayLeave w.shape (w.known t) o d p) (λ w t. leave_plan e t o p) }
    ensures exit_by_mark { (e : CallContext) (o header stamp p : ℕ)
        → KeepsBiases (λ w t. MayLetGo w.shape (w.known t) o header stamp p)
        (λ w t. let_go_plan e o (mark_of (Locked t p)) header p) }
    ensures exit_by_monitor { (e : CallContext) (o m p stamp : ℕ)
        → KeepsBiases (λ w t. MayFree w.shape (w.known t) o m stamp) (λ w t. free_plan e o m p) }
    ensures wait { (e : CallContext) (o m stamp : ℕ) → KeepsBiases (λ w t. MayWait w.shape (w.known t) e o m stamp)
        (λ w t. log_wait_plan e t o (next_stamp (local_of (w.known t)))) }
    ensures resume { (e : CallContext) (o m : ℕ) → KeepsBiases (λ w t. MayLogResume w.shape (w.known t) o m)
        (λ w t. log_resume_plan e o) }
    ensures notify { (e : CallContext) (o u : ℕ) → KeepsBiases (λ w t. MayNotify w.shape (w.known t) o u)
        (λ w t. notify_plan e o u) }
    ensures notify_all { (e : CallContext) (o u n : ℕ) → KeepsBiases
        (λ w t. MayNotifyAll w.shape (w.known t) o u n) (λ w t. notify_all_plan e o u (n + 1)) }
    ensures publish { (e : CallContext) (entry : Entry)
        → KeepsBiases (λ w t. MayPublish w.shape (w.known t) entry × SawNone (w.known t) entry)
        (λ w t. publish_plan e t entry (length (w.known t).log + 1)) }
{}

/// The steps of a hash: a load that logs the hash that it finds, if any, and an exchange that logs a draw, if it hits.
pub fn hashing_keeps_the_law_of_biases()
    ensures in_mark { (e : CallContext) (o : ℕ) → KeepsBiases (λ w t. MayFind w.shape (w.known t) e o)
        (λ w t. find_hash_plan e (Mark o) o) }
    ensures in_record { (e : CallContext) (o p : ℕ) → KeepsBiases
        (λ w t. MayFindInRecord w.shape (w.known t) e o p) (λ w t. find_hash_plan e (Displaced t p) o) }
    ensures in_monitor { (e : CallContext) (o m : ℕ) → KeepsBiases
        (λ w t. MayFindInMonitor w.shape (w.known t) e o m) (λ w t. find_hash_plan e (Header m) o) }
    ensures drawn_into_mark { (e : CallContext) (draw : NextDraw) (o mark : ℕ)
        → KeepsBiases (λ w t. MayDrawInMark w.start w.shape (w.known t) draw o mark)
        (λ w t. draw_plan e draw (Mark o) o mark) }
    ensures drawn_into_monitor { (e : CallContext) (draw : NextDraw) (o m header : ℕ)
        → KeepsBiases (λ w t. MayDrawInMonitor w.start w.shape (w.known t) draw o m header)
        (λ w t. draw_plan e draw (Header m) o header) }
{}
