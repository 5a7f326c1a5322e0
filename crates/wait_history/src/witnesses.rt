//! Legal histories in which a thread waits, that the law's premises are met. The functions do nothing.

ghost use Rattle.std.specs.Prelude.{◌≡◌, true, List, [], ◌∷◌, Some, slice_get};
ghost use Rattle.plain_monitor.specs.Monitor.{is_listed};
ghost use Rattle.plain_monitor.specs.Objects.{PlainObject};
ghost use Rattle.plain_monitor.specs.History.{LegalObjects, objects_after};
ghost use Rattle.wait_history.specs.Examples.{one_object, waiting, notifying};

/// A thread enters an object and waits on it (`waits`); another one notifies it, and it hasn't resumed yet (`called`). A witness for
/// `waits_follow_from_the_own_log`.
pub fn a_thread_can_wait_in_a_legal_history()
    ensures waits { (objects : List PlainObject) × (x : PlainObject) × LegalObjects one_object (waiting ∷ [])
        × (objects_after one_object (waiting ∷ []) ≡ Some objects) × (slice_get objects 0 ≡ Some x)
        × (is_listed x.monitor.waits 0 ≡ true) }
    ensures called { (objects : List PlainObject) × (x : PlainObject)
        × LegalObjects one_object (waiting ∷ notifying ∷ [])
        × (objects_after one_object (waiting ∷ notifying ∷ []) ≡ Some objects) × (slice_get objects 0 ≡ Some x)
        × (is_listed x.monitor.called 0 ≡ true) }
{}
