//! Laws of the trees of calls that are left alone: along each path whose steps find what the steps before them left of the words `f`.
//! They say what words a call needs, and hold wherever these come from; those of `through` are of worlds to which a heap in the limits
//! comes. Most ask too that the thread's number is below 32. The functions do nothing.

ghost use Rattle.std.specs.Prelude.{◌≡◌, ◌≢◌, ℕ, ◌+◌, ◌<◌, ◌==◌, ◌||◌, true, false};
ghost use Rattle.plain_monitor.specs.ValueWords.{read_value};
ghost use Rattle.plain_monitor.specs.declared.entry.Value.{Value};
ghost use Rattle.core_world.specs.declared.answer.Progress.TheVariants.{Done};
ghost use Rattle.core_world.specs.declared.word_id.WordId.{WordId};
ghost use Rattle.core_world.specs.declared.word_id.WordId.TheVariants.{Safepoint, Prototype, Mark, Slot, Waiting};
ghost use Rattle.core_world.specs.Threads.ThreadView.{Local, Start};
ghost use Rattle.core_world.specs.Trees.Operations.{exit_steps, get_steps, put_steps, enter_steps, hash_steps, value_found};
ghost use Rattle.core_world.specs.Trees.Operations.{notify_steps, notify_all_steps, wait_steps, dump_steps, create_steps, check_steps};
ghost use Rattle.core_world.specs.Trees.Plans.{CallContext};
ghost use Rattle.core_world.specs.Trees.SafepointSteps.{poll_steps, resume_steps, has_requester, released_word};
ghost use Rattle.core_world.specs.Words.Forms.{waits_on, is_halted};
ghost use Rattle.core_world.specs.Words.Shape.{Shape};
ghost use Rattle.core_world.specs.Words.Names.{class_by};
ghost use Rattle.core_calls.specs.CallsSay.{has_none, is_full};
ghost use Rattle.solo_progress.specs.Alone.{AnswersAlone, Quiet, word_of_one};
ghost use Rattle.solo_progress.specs.Answers.{is_anothers, is_others_bias, is_told, is_pending, guarded, created};
ghost use Rattle.solo_progress.specs.Answers.{IsDone, PendsWhere, PendsForOwner, WaitsWhere, LetsGo, RefusedWhere};
ghost use Rattle.solo_progress.specs.StandsStill.{stands_still};

/// Without a hold on the object an exit, a get and a put are refused; with 64 holds an enter that doesn't go on is, and with 1,024
/// objects made a create; these are all that is refused. Else an exit is done, where the mark isn't 0; a get answers what the slot has, a
/// put is done, and a create answers the thread's next object. Let the words be quiet (no mark is 0, and the safepoint word is that of the
/// thread alone), and let the thread ask for nothing. Then an enter is pending exactly where by the words another thread has the lock,
/// and for that, unless the mark is validly biased to another thread: such a bias ends at a safepoint alone.
pub fn calls_without_a_safepoint_get_through()
    ensures exit { (k : Start) (o : ℕ) (f : WordId → ℕ) → f (Mark o) ≢ 0
        → AnswersAlone f (exit_steps k o) (RefusedWhere (has_none k o) IsDone) }
    ensures get { (k : Start) (o slot : ℕ) (f : WordId → ℕ)
        → AnswersAlone f (get_steps k o slot) (λ a. a ≡ guarded k o (value_found (read_value (f (Slot o slot))))) }
    ensures put { (k : Start) (o slot : ℕ) (value : Value) (f : WordId → ℕ)
        → AnswersAlone f (put_steps k o slot value) (λ a. a ≡ guarded k o tt) }
    ensures create { (s : Shape) (k : Start) (c : ℕ) (f : WordId → ℕ)
        → AnswersAlone f (create_steps s k c) (λ a. a ≡ created s k) }
    ensures enter { (s : Shape) (k : Start) (o now : ℕ) (f : WordId → ℕ) → k.local.thread < 32
        → k.requesting ≡ false → Quiet (released_word k.local.thread) f
        → is_others_bias s f o k.local.thread ≡ false
        → AnswersAlone f (enter_steps s k o now)
        (RefusedWhere (is_full k o) (PendsWhere (is_anothers s f o k.local.thread))) }
{}

/// Let the words be quiet (no mark is 0, and the safepoint word is that of the thread alone), and for all calls but an enter let the
/// prototype of the object's class not be 0. Then, whether a bias has to be revoked or not: a hash is done; without a hold a notify and a
/// notifyall are refused, and else they are done; and an enter that isn't refused is done, or pending for an owner.
pub fn calls_that_revoke_get_through()
    ensures enter { (s : Shape) (k : Start) (o now : ℕ) (f : WordId → ℕ) → k.local.thread < 32
        → Quiet (word_of_one k.requesting k.local.thread) f
        → AnswersAlone f (enter_steps s k o now) (RefusedWhere (is_full k o) PendsForOwner) }
    ensures hash { (s : Shape) (k : Start) (o now : ℕ) (f : WordId → ℕ) → k.local.thread < 32
        → f (Prototype (class_by s f o)) ≢ 0 → Quiet (word_of_one k.requesting k.local.thread) f
        → AnswersAlone f (hash_steps s k o now) IsDone }
    ensures notify { (s : Shape) (k : Start) (o now : ℕ) (f : WordId → ℕ) → k.local.thread < 32
        → f (Prototype (class_by s f o)) ≢ 0 → Quiet (word_of_one k.requesting k.local.thread) f
        → AnswersAlone f (notify_steps s k o now) (RefusedWhere (has_none k o) IsDone) }
    ensures notify_all { (s : Shape) (k : Start) (o now : ℕ) (f : WordId → ℕ) → k.local.thread < 32
        → f (Prototype (class_by s f o)) ≢ 0 → Quiet (word_of_one k.requesting k.local.thread) f
        → AnswersAlone f (notify_all_steps s k o now) (RefusedWhere (has_none k o) IsDone) }
{}

/// A wait is refused without a hold. One that begins is pending for a notify, where the words are quiet and the
/// prototype of the object's class isn't 0. One that goes on is done exactly where its waiting word says Notified and
/// no other thread has the lock by the words; else it is pending for the one of the two that it lacks.
pub fn waits_end_where_told()
    ensures begins { (s : Shape) (k : Start) (o now : ℕ) (f : WordId → ℕ) → k.local.thread < 32
        → f (Prototype (class_by s f o)) ≢ 0 → Quiet (word_of_one k.requesting k.local.thread) f
        → waits_on k.local.wait o ≡ false
        → AnswersAlone f (wait_steps s k o now) (RefusedWhere (has_none k o) LetsGo) }
    ensures goes_on { (s : Shape) (k : Start) (o now : ℕ) (f : WordId → ℕ) → k.local.thread < 32
        → waits_on k.local.wait o ≡ true
        → AnswersAlone f (wait_steps s k o now)
        (RefusedWhere (has_none k o)
        (WaitsWhere (is_told (f (Waiting k.local.thread))) (is_anothers s f o k.local.thread))) }
{}

/// Where the words are quiet, a dump is refused exactly with four shots, and else done with the number of the next; and a check answers true
/// exactly where the run stands still by the words: some thread is live, and none can go on.
/// A poll is pending exactly where the safepoint word has a requester, and a resume where it has one or the halt.
pub fn calls_at_the_safepoint_word_get_through()
    ensures dump { (s : Shape) (k : Start) (f : WordId → ℕ) → k.local.thread < 32
        → Quiet (word_of_one k.requesting k.local.thread) f
        → AnswersAlone f (dump_steps s k) (RefusedWhere (k.shots == 4) (λ progress. progress ≡ Done (k.shots + 1))) }
    ensures check { (s : Shape) (k : Start) (f : WordId → ℕ) → k.local.thread < 32
        → Quiet (word_of_one k.requesting k.local.thread) f
        → AnswersAlone f (check_steps s k) (λ progress. progress ≡ Done (stands_still s f)) }
    ensures poll { (e : CallContext) (f : WordId → ℕ)
        → AnswersAlone f (poll_steps e) (λ progress. is_pending progress ≡ has_requester (f Safepoint)) }
    ensures resume { (e : CallContext) (k : Local) (f : WordId → ℕ)
        → AnswersAlone f (resume_steps e k)
        (λ progress. is_pending progress ≡ (is_halted (f Safepoint) || has_requester (f Safepoint))) }
{}
