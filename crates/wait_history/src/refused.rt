//! Laws that what is said of waits is refused where it is wrong. The functions do nothing.

ghost use Rattle.std.specs.Prelude.{◌≡◌, ℕ, ◌||◌, true, false, List, Some, slice_get};
ghost use Rattle.plain_monitor.specs.declared.entry.Logged.{Logged};
ghost use Rattle.plain_monitor.specs.Monitor.{is_listed};
ghost use Rattle.plain_monitor.specs.Objects.{PlainObject};
ghost use Rattle.plain_monitor.specs.History.{LegalObjects, objects_after, log_of};
ghost use Rattle.wait_history.specs.WaitsByLog.{waits_by};

/// No legal history leaves a thread that waits by its log and stands on none of the object's lists (`log`), nor one that stands on one of
/// them and doesn't wait by its log (`lists`). Refuses the conclusion of `waits_follow_from_the_own_log`.
pub fn nobody_waits_by_the_own_log_alone_or_by_the_lists_alone()
    ensures log { (shape : List (ℕ × ℕ)) (logs : List (List Logged)) (objects : List PlainObject) (t o : ℕ)
        (x : PlainObject)
        → LegalObjects shape logs → objects_after shape logs ≡ Some objects → slice_get objects o ≡ Some x
        → waits_by false (log_of logs t) o ≡ true
        → (is_listed x.monitor.waits t || is_listed x.monitor.called t) ≡ false → ⊥ }
    ensures lists { (shape : List (ℕ × ℕ)) (logs : List (List Logged)) (objects : List PlainObject) (t o : ℕ)
        (x : PlainObject)
        → LegalObjects shape logs → objects_after shape logs ≡ Some objects → slice_get objects o ≡ Some x
        → waits_by false (log_of logs t) o ≡ false
        → (is_listed x.monitor.waits t || is_listed x.monitor.called t) ≡ true → ⊥ }
{}
