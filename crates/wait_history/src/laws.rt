//! Laws of waits in legal histories. The functions do nothing.

ghost use Rattle.std.specs.Prelude.{◌≡◌, ℕ, ◌||◌, false, List, Some, slice_get};
ghost use Rattle.plain_monitor.specs.declared.entry.Logged.{Logged};
ghost use Rattle.plain_monitor.specs.Monitor.{is_listed};
ghost use Rattle.plain_monitor.specs.Objects.{PlainObject};
ghost use Rattle.plain_monitor.specs.History.{LegalObjects, objects_after, log_of};
ghost use Rattle.wait_history.specs.WaitsByLog.{waits_by};

/// After every legal history a thread stands among those who wait on an object, or were called from it, exactly where by its own log it
/// waits there.
pub fn waits_follow_from_the_own_log()
    ensures { (shape : List (ℕ × ℕ)) (logs : List (List Logged)) (objects : List PlainObject) (t o : ℕ)
        (x : PlainObject)
        → LegalObjects shape logs → objects_after shape logs ≡ Some objects → slice_get objects o ≡ Some x
        → waits_by false (log_of logs t) o ≡ (is_listed x.monitor.waits t || is_listed x.monitor.called t) }
{}
