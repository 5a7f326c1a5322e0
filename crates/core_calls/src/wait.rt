//! Laws of the calls that wait and notify.
ghost use Rattle.std.specs.Prelude.{◌≡◌, ℕ, not, is_none, count_by, length, List, Option, Result};
ghost use Rattle.std.specs.List.{list_all};
ghost use Rattle.core_world.specs.declared.answer.Progress.{Progress};
ghost use Rattle.core_world.specs.declared.answer.IllegalMonitorState.{IllegalMonitorState};
ghost use Rattle.core_world.specs.Words.Forms.{waits_on};
ghost use Rattle.core_world.specs.Trees.WaitSteps.{waiters, by_age};
ghost use Rattle.core_world.specs.Words.Shape.{Shape};
ghost use Rattle.core_world.specs.Threads.ThreadView.{ThreadView, Start};
ghost use Rattle.core_world.specs.Trees.Operations.{wait_steps, notify_steps, notify_all_steps};
ghost use Rattle.core_world.specs.Due.{Ran};
ghost use Rattle.core_calls.specs.Paths.{Says, Tells};
ghost use Rattle.core_calls.specs.CallsSay.{WaitSays, NotifySays, NotifyAllSays};
ghost use Rattle.core_calls.specs.Woken.{oldest, Wakes, WakesAll, IfDone};

/// A wait that is done logs its Resume, and before it the Wait, where it is the call that lets go. A call that lets go and is then pending,
/// for a notify or for the monitor's owner, logs the Wait alone; every other pending call logs nothing. All of them stay unfinished. A
/// call that goes on after an earlier one let go is pending for a notify or an owner alone. A wait is refused, without a step, exactly
/// where the thread has no hold on the object.
pub fn wait_logs_its_answer()
    ensures steps { (s : Shape) (k : Start) (o now : ℕ) → Says (wait_steps s k o now) (WaitSays k o) }
    ensures run { (s : Shape) (k : Start) (o now : ℕ) (shape : Shape) (start : ℕ) (before after : ThreadView)
        (a : Result (Progress (Unit {0})) IllegalMonitorState)
        → Ran shape start (wait_steps s k o now) before after a
        → Tells before after (λ ms. WaitSays k o ms a) }
{}

/// A notify that is done logs its Notify, with the thread that it answers, or with none.
pub fn notify_logs_its_answer()
    ensures steps { (s : Shape) (k : Start) (o now : ℕ) → Says (notify_steps s k o now) (NotifySays k o) }
    ensures run { (s : Shape) (k : Start) (o now : ℕ) (shape : Shape) (start : ℕ) (before after : ThreadView)
        (a : Result (Progress (Option ℕ)) IllegalMonitorState)
        → Ran shape start (notify_steps s k o now) before after a
        → Tells before after (λ ms. NotifySays k o ms a) }
{}

/// A notifyall that is done logs its NotifyAll, with the number of threads that it answers.
pub fn notify_all_logs_its_answer()
    ensures steps { (s : Shape) (k : Start) (o now : ℕ) → Says (notify_all_steps s k o now) (NotifyAllSays k o) }
    ensures run { (s : Shape) (k : Start) (o now : ℕ) (shape : Shape) (start : ℕ) (before after : ThreadView)
        (a : Result (Progress ℕ) IllegalMonitorState)
        → Ran shape start (notify_all_steps s k o now) before after a
        → Tells before after (λ ms. NotifyAllSays k o ms a) }
{}

/// Whom a notify wakes: of the threads whose waiting words, as the call loaded them, say that they wait on the object, the oldest, by its
/// stamp and at equal stamps by its number; and a notifyall as many as there are. So a notify answers None, and a notifyall 0, exactly where no
/// waiting word loaded says Waiting with the object, or where the loaded mark says that a lock record has the lock.
pub fn notify_wakes_the_oldest_waiter()
    ensures notify { (s : Shape) (k : Start) (o now : ℕ) → Says (notify_steps s k o now) (IfDone (Wakes s o)) }
    ensures notify_all { (s : Shape) (k : Start) (o now : ℕ)
        → Says (notify_all_steps s k o now) (IfDone (WakesAll s o)) }
    ensures none { (o : ℕ) (words : List ℕ) → is_none (oldest (by_age (waiters o 0 words)))
        ≡ list_all (λ word. not (waits_on word o)) words }
    ensures number { (o t : ℕ) (words : List ℕ) → length (waiters o t words)
        ≡ count_by (λ word. waits_on word o) words }
{}
