//! Laws that logs which a merge wouldn't give whole are refused. The functions do nothing.

ghost use Rattle.std.specs.Prelude.{◌≡◌, ◌≤◌, ◌∷◌, ℕ, List, slice_get, Some};
ghost use Rattle.lock_journal.specs.Merging.{AreOfSixteen};
ghost use Rattle.plain_monitor.specs.Limits.{most_threads};
ghost use Rattle.plain_monitor.specs.declared.entry.Logged.{Logged};

/// Logs of which one after the sixteenth has an entry. Refuses the conclusion of `legal_logs_can_be_merged`.
pub fn no_entry_stands_after_the_sixteenth_log()
    ensures { (logs : List (List Logged)) (t : ℕ) (l : Logged) (log : List Logged) → most_threads ≤ t
        → slice_get logs t ≡ Some (l ∷ log) → AreOfSixteen logs → ⊥ }
{}
