//! Laws of histories, which hold of all logs.

ghost use Rattle.std.specs.Prelude.{◌≡◌, ℕ, ◌<◌, ◌≤◌, false, List, [], ◌∷◌, ◌++◌, length, Option, Some, None, slice_get, slice_set};
ghost use Rattle.std.specs.List.{AllByRecursion};
ghost use Rattle.plain_monitor.specs.declared.entry.Entry.{Entry};
ghost use Rattle.plain_monitor.specs.declared.entry.Logged.{Logged};
ghost use Rattle.plain_monitor.specs.Objects.{PlainObject, new_objects, take_entry};
ghost use Rattle.plain_monitor.specs.Order.{order, insert_ordered};
ghost use Rattle.plain_monitor.specs.History.{RisesAbove, LegalObjects, take_all, objects_after, last_stamp, log_of, appended};
ghost use Rattle.plain_history.specs.Tied.{bound_to, is_same_object};
ghost use Rattle.plain_history.specs.Appending.{MayAppend};
ghost use Rattle.plain_history.specs.Stamps.{IsBounded, StampsBound, IsAboveBounds};
ghost use Rattle.plain_history.specs.Sound.{IsSound};
ghost use Rattle.plain_history.specs.HeldByLog.{holds_by_monitor, held_by, nothing_held};
ghost use Rattle.plain_history.specs.EnterPaths.{entries_on};
ghost use Rattle.plain_history.specs.Joined.{EachTakesItsOwn, EachTakesItsLog, take_all_joined};

/// Where the logs are legal, and the objects after them take an entry that a thread may append: the logs with the entry are
/// legal, the objects after them are those after the entry, as if it stood last, and it goes into the order at its stamp.
pub fn an_appended_entry_is_taken_last()
    ensures legal { (shape : List (ℕ × ℕ)) (logs : List (List Logged)) (t : ℕ) (l : Logged)
        (before after : List PlainObject)
        → LegalObjects shape logs → objects_after shape logs ≡ Some before
        → take_entry before t l.entry ≡ Some after → MayAppend logs t l
        → LegalObjects shape (appended logs t l) }
    ensures taken_last { (shape : List (ℕ × ℕ)) (logs : List (List Logged)) (t : ℕ) (l : Logged)
        (before after : List PlainObject)
        → LegalObjects shape logs → objects_after shape logs ≡ Some before
        → take_entry before t l.entry ≡ Some after → MayAppend logs t l
        → objects_after shape (appended logs t l) ≡ Some after }
    ensures inserted { (logs : List (List Logged)) (t : ℕ) (l : Logged) → AllByRecursion (RisesAbove 0) logs
        → MayAppend logs t l
        → order (appended logs t l) ≡ insert_ordered (t, l) (order logs) }
{}

/// Of the entries on its object, in the order of all logs, an appended entry stands last; on each other object there are the
/// entries that were there. A hash is on none.
pub fn an_appended_entry_is_last_on_its_object()
    ensures on { (logs : List (List Logged)) (t o : ℕ) (l : Logged) → AllByRecursion (RisesAbove 0) logs
        → MayAppend logs t l
        → bound_to l.entry ≡ Some o → entries_on o (order (appended logs t l)) ≡ entries_on o (order logs)
        ++ l.entry ∷ [] }
    ensures elsewhere { (logs : List (List Logged)) (t o : ℕ) (l : Logged)
        → AllByRecursion (RisesAbove 0) logs → MayAppend logs t l
        → is_same_object (bound_to l.entry) (Some o) ≡ false
        → entries_on o (order (appended logs t l)) ≡ entries_on o (order logs) }
{}

/// A thread may append an entry whose stamp is above its last and above a bound on the entries that are bound to the same
/// object. It may append one that is bound to no object wherever the stamp is above its last. Where the bounds of all objects
/// hold, it may append each entry that the objects take and that is above its object's bound.
pub fn a_stamp_above_the_bound_may_be_appended()
    ensures bound { (logs : List (List Logged)) (t : ℕ) (l : Logged) (o s : ℕ) → t < length logs
        → last_stamp (log_of logs t) < l.stamp
        → bound_to l.entry ≡ Some o → IsBounded logs o s → s < l.stamp → MayAppend logs t l }
    ensures unbound { (logs : List (List Logged)) (t : ℕ) (l : Logged) → t < length logs
        → last_stamp (log_of logs t) < l.stamp
        → bound_to l.entry ≡ None → MayAppend logs t l }
    ensures above_bounds { (before after : List PlainObject) (logs : List (List Logged)) (kept : List ℕ)
        (t : ℕ) (l : Logged)
        → StampsBound before logs kept → IsAboveBounds before logs kept t l
        → take_entry before t l.entry ≡ Some after → MayAppend logs t l }
{}

/// The bounds of all objects hold of empty logs. An entry above the bounds that the objects take keeps them: with the same
/// stamps kept, where it is bound to no object or its thread is the owner afterwards; and with its own stamp kept for its
/// object, where that has no owner afterwards.
pub fn stamps_stay_bounded()
    ensures at_first { (objects : List PlainObject) (logs : List (List Logged)) (kept : List ℕ)
        → ((t : ℕ) → log_of logs t ≡ [])
        → StampsBound objects logs kept }
    ensures unbound { (before after : List PlainObject) (logs : List (List Logged)) (kept : List ℕ) (t : ℕ) (l : Logged)
        → AllByRecursion (RisesAbove 0) logs → StampsBound before logs kept → IsAboveBounds before logs kept t l
        → take_entry before t l.entry ≡ Some after → bound_to l.entry ≡ None
        → StampsBound after (appended logs t l) kept }
    ensures owned { (before after : List PlainObject) (logs : List (List Logged)) (kept : List ℕ) (t : ℕ)
        (l : Logged) (o : ℕ) (x : PlainObject)
        → AllByRecursion (RisesAbove 0) logs → StampsBound before logs kept → IsAboveBounds before logs kept t l
        → take_entry before t l.entry ≡ Some after → bound_to l.entry ≡ Some o → slice_get after o ≡ Some x
        → x.monitor.owner ≡ Some t
        → StampsBound after (appended logs t l) kept }
    ensures let_go { (before after : List PlainObject) (logs : List (List Logged)) (kept : List ℕ) (t : ℕ)
        (l : Logged) (o : ℕ) (x : PlainObject)
        → AllByRecursion (RisesAbove 0) logs → StampsBound before logs kept → IsAboveBounds before logs kept t l
        → take_entry before t l.entry ≡ Some after → bound_to l.entry ≡ Some o → slice_get after o ≡ Some x
        → x.monitor.owner ≡ None
        → o < length kept → StampsBound after (appended logs t l) (slice_set kept o l.stamp) }
{}

/// After every history that the objects take, each monitor has an owner exactly where it has a count, each thread stands at
/// most once among its owner, those who wait and those who were called, and every count that these keep is above 0.
pub fn monitors_stay_sound()
    ensures { (shape : List (ℕ × ℕ)) (logs : List (List Logged)) (objects : List PlainObject)
        → objects_after shape logs ≡ Some objects
        → AllByRecursion (λ x. IsSound x.monitor) objects }
{}

/// After every legal history, how often a thread holds an object by its own log is how often it stands at the object's plain
/// monitor: the count that it has there as the owner, or keeps as one who waits or was called.
pub fn holds_follow_from_the_own_log()
    ensures { (shape : List (ℕ × ℕ)) (logs : List (List Logged)) (objects : List PlainObject) (t o : ℕ)
        (x : PlainObject)
        → LegalObjects shape logs → objects_after shape logs ≡ Some objects → slice_get objects o ≡ Some x
        → held_by nothing_held (log_of logs t) o ≡ holds_by_monitor x.monitor t }
{}

/// The states that threads have, and what an entry of its own makes of a thread's state, where that takes it. A crate above
/// says both in an `impl` for an empty struct of its own, which it passes to `objects_and_threads_join`.
pub trait ThreadStates {
    ghost State: { Type 0 };

    ghost step: { State → Entry → Option State };
}

/// Where the objects take all entries of a list, and each thread's state takes that thread's own in their order, objects and
/// threads together take all, and end as the objects and the states do; and they take all only there. So it is for the order
/// of logs whose stamps rise, where each thread's state takes its log.
pub fn objects_and_threads_join<T: ThreadStates>()
    ensures entries { (xs : List (ℕ × Logged)) (objects after : List PlainObject) (states finals : List T.State)
        → AllByRecursion (λ x. x.0 < length states) xs → take_all objects xs ≡ Some after
        → EachTakesItsOwn T.step states finals xs
        → take_all_joined T.step objects states xs ≡ Some (after, finals) }
    ensures parts { (xs : List (ℕ × Logged)) (objects after : List PlainObject) (states finals : List T.State)
        → take_all_joined T.step objects states xs ≡ Some (after, finals)
        → (take_all objects xs ≡ Some after) × EachTakesItsOwn T.step states finals xs }
    ensures logs { (shape : List (ℕ × ℕ)) (logs : List (List Logged)) (after : List PlainObject)
        (states finals : List T.State)
        → AllByRecursion (RisesAbove 0) logs → length logs ≤ length states → objects_after shape logs ≡ Some after
        → EachTakesItsLog T.step states finals logs
        → take_all_joined T.step (new_objects shape) states (order logs) ≡ Some (after, finals) }
{}
