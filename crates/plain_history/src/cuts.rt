//! Laws of logs that are cut. The functions do nothing.

ghost use Rattle.std.specs.Prelude.{◌≡◌, ℕ, ◌<◌, ◌≤◌, List, length, map, slice_get, slice_index, Some, IsTrue};
ghost use Rattle.std.specs.List.{AllByRecursion};
ghost use Rattle.plain_monitor.specs.declared.entry.Logged.{Logged};
ghost use Rattle.plain_monitor.specs.Objects.{PlainObject};
ghost use Rattle.plain_monitor.specs.Order.{is_before, order};
ghost use Rattle.plain_monitor.specs.History.{RisesAbove, take_all, objects_after, log_of, appended};
ghost use Rattle.plain_history.specs.Appending.{MayAppend};
ghost use Rattle.plain_history.specs.Cuts.{IsCutInOrder, cut_logs, logs_since};
ghost use Rattle.plain_history.specs.Tied.{is_tied};

/// A cut at the end of each log is in order, and stays so with each entry that a thread may append after it.
pub fn a_cut_at_the_end_stays_in_order()
    ensures end { (logs : List (List Logged)) → IsCutInOrder (map (λ log. length log) logs) logs }
    ensures stays { (cut : List ℕ) (logs : List (List Logged)) (t : ℕ) (l : Logged) → MayAppend logs t l
        → cut_logs cut (appended logs t l) ≡ cut_logs cut logs
        → IsCutInOrder cut logs → IsCutInOrder cut (appended logs t l) }
{}

/// A cut in order leaves no entry of another thread out that stands before a tied one that it has: of two tied entries, one before the
/// cut and one after it, that before the cut stands before the other in the order.
pub fn a_cut_in_order_leaves_out_no_earlier_entry()
    ensures { (cut : List ℕ) (logs : List (List Logged)) (u v i j : ℕ) (l m : Logged) → IsCutInOrder cut logs
        → slice_get (log_of logs u) i ≡ Some l → i < slice_index cut u
        → slice_get (log_of logs v) j ≡ Some m → slice_index cut v ≤ j → v < length cut
        → IsTrue (is_tied l.entry m.entry) → IsTrue (is_before (u, l) (v, m)) }
{}

/// Where a cut of logs is in order, the objects that take all entries pass through what the cut shows: they take the entries before it, in
/// their order, and then those after it, in theirs, and come to what they came to.
pub fn objects_pass_through_a_cut_in_order()
    ensures { (shape : List (ℕ × ℕ)) (cut : List ℕ) (logs : List (List Logged)) (after : List PlainObject)
        → AllByRecursion (RisesAbove 0) logs → IsCutInOrder cut logs → objects_after shape logs ≡ Some after
        → (middle : List PlainObject) × (objects_after shape (cut_logs cut logs) ≡ Some middle)
        × (take_all middle (order (logs_since cut logs)) ≡ Some after) }
{}
