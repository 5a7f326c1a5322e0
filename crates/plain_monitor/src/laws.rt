//! Laws of the order of entries, which hold of all logs.

ghost use Rattle.std.specs.Prelude.{◌≡◌, ◌≢◌, ℕ, ◌<◌, Bool, List, [], ◌∷◌, ◌++◌, length, IsTrue, slice_set};
ghost use Rattle.std.specs.List.{AllByRecursion};
ghost use Rattle.plain_monitor.specs.declared.entry.Entry.{Entry};
ghost use Rattle.plain_monitor.specs.declared.entry.Logged.{Logged};
ghost use Rattle.plain_monitor.specs.Order.{is_before, order, of_thread};
ghost use Rattle.plain_monitor.specs.Kept.{kept_logs, kept_entries};
ghost use Rattle.plain_monitor.specs.History.{RisesAbove, log_of, last_stamp, appended};

/// Where each log's stamps rise, the head of a log that stands before the head of each other log is the first of the order,
/// and the order of the logs without it follows. The order of empty logs is empty.
pub fn least_head_comes_first()
    ensures first { (logs : List (List Logged)) (t : ℕ) (l : Logged) (rest : List Logged)
        → log_of logs t ≡ l ∷ rest → AllByRecursion (RisesAbove 0) logs
        → ((u : ℕ) (m : Logged) (log : List Logged) → log_of logs u ≡ m ∷ log → u ≢ t
        → IsTrue (is_before (t, l) (u, m)))
        → order logs ≡ (t, l) ∷ order (slice_set logs t rest) }
    ensures empty { (logs : List (List Logged)) → ((u : ℕ) → log_of logs u ≡ []) → order logs ≡ [] }
{}

/// Where each log's stamps rise, the order has each thread's entries as its log has them.
pub fn order_keeps_each_log()
    ensures { (logs : List (List Logged)) (t : ℕ) → AllByRecursion (RisesAbove 0) logs
        → of_thread t (order logs) ≡ log_of logs t }
{}

/// Where each log's stamps rise, an entry that a thread logs with a stamp above all others comes last in the order, and the
/// stamps of the logs with it rise too.
pub fn an_entry_above_all_comes_last()
    ensures last { (logs : List (List Logged)) (t : ℕ) (l : Logged) → AllByRecursion (RisesAbove 0) logs
        → t < length logs
        → AllByRecursion (λ log. last_stamp log < l.stamp) logs
        → order (appended logs t l) ≡ order logs ++ (t, l) ∷ [] }
    ensures rises { (logs : List (List Logged)) (t : ℕ) (l : Logged) → AllByRecursion (RisesAbove 0) logs
        → t < length logs
        → AllByRecursion (λ log. last_stamp log < l.stamp) logs → AllByRecursion (RisesAbove 0) (appended logs t l) }
{}

/// The entries that pass a test stand in the order of all as they stand in the order of their own.
pub fn kept_entries_are_ordered_alone()
    ensures { (keeps : Entry → Bool) (logs : List (List Logged))
        → kept_entries keeps (order logs) ≡ order (kept_logs keeps logs) }
{}
