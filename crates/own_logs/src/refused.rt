//! Laws that a thread whose words or shots say something else than its own log is refused: it doesn't rest. The functions do nothing.

ghost use Rattle.std.specs.Prelude.{◌≡◌, ◌==◌, ◌<◌, ◌≤◌, ◌∷◌, [], ℕ, true, false, List, length, sum};
ghost use Rattle.std.specs.List.{list_all};
ghost use Rattle.plain_monitor.specs.Limits.{most_holds};
ghost use Rattle.plain_monitor.specs.declared.entry.Entry.TheVariants.{Dump, Enter, Exit, Wait};
ghost use Rattle.plain_monitor.specs.declared.entry.Path.{Path};
ghost use Rattle.core_world.specs.Locks.{hold_count};
ghost use Rattle.core_world.specs.Trees.Plans.{free_place};
ghost use Rattle.core_world.specs.Words.Forms.{waits_on};
ghost use Rattle.heap_table.specs.Kept.{all_holds};
ghost use Rattle.heap_table.specs.Resting.{Rests};
ghost use Rattle.heap_table.specs.Seen.{HeapSeen, PassSeen};
ghost use Rattle.own_logs.specs.HoldsByLog.{AreHolds};

/// A thread that has a hold word for an object that it left by its log, or has none for one that it entered (`more`, `fewer`). And by
/// its log a thread holds nothing, but one of its hold words isn't empty (`all`, `none`); or it holds fewer than 64 times, but no place
/// is free (`full`).
///
/// Refuses the conclusions of `holds_at_rest_follow_from_the_own_log`.
pub fn no_hold_words_beside_the_own_log()
    ensures more { (h : HeapSeen) (p : PassSeen) (o m n : ℕ) (path : Path) → o < length h.heap.shape.objects
        → p.known.log ≡ record { stamp = m; entry = Enter o path } ∷ record { stamp = n; entry = Exit o } ∷ []
        → 1 ≤ hold_count o p.known.holds → Rests h p → ⊥ }
    ensures fewer { (h : HeapSeen) (p : PassSeen) (o n : ℕ) (path : Path) → o < length h.heap.shape.objects
        → p.known.log ≡ record { stamp = n; entry = Enter o path } ∷ []
        → hold_count o p.known.holds ≡ 0 → Rests h p → ⊥ }
    ensures all { (h : HeapSeen) (p : PassSeen) → p.known.log ≡ [] → 1 ≤ all_holds p.known.holds → Rests h p → ⊥ }
    ensures none { (h : HeapSeen) (p : PassSeen) → p.known.log ≡ []
        → list_all (λ w. w == 0) p.known.holds ≡ false → Rests h p → ⊥ }
    ensures full { (h : HeapSeen) (p : PassSeen) (holds : List ℕ) → AreHolds h p holds → sum holds < most_holds
        → free_place p.known.holds ≡ most_holds → Rests h p → ⊥ }
{}

/// A thread whose waiting word, as it last stored it, says nothing of the Wait that it has logged, or says that it waits though it has
/// logged nothing.
///
/// Refuses the conclusion of `waits_at_rest_follow_from_the_own_log`.
pub fn no_waiting_word_beside_the_own_log()
    ensures silent { (h : HeapSeen) (p : PassSeen) (o m n : ℕ) (path : Path) → o < length h.heap.shape.objects
        → p.known.log ≡ record { stamp = m; entry = Enter o path } ∷ record { stamp = n; entry = Wait o } ∷ []
        → waits_on p.known.wait o ≡ false → Rests h p → ⊥ }
    ensures early { (h : HeapSeen) (p : PassSeen) (o : ℕ) → o < length h.heap.shape.objects → p.known.log ≡ []
        → waits_on p.known.wait o ≡ true → Rests h p → ⊥ }
{}

/// A thread that has logged a dump and kept no shot, or kept one and logged no dump.
///
/// Refuses the conclusion of `shots_at_rest_are_those_of_logged_dumps`.
pub fn no_shots_beside_the_own_log()
    ensures fewer { (h : HeapSeen) (p : PassSeen) (n : ℕ) → p.known.log ≡ record { stamp = n; entry = Dump 1 } ∷ []
        → p.known.shots ≡ [] → Rests h p → ⊥ }
    ensures more { (h : HeapSeen) (p : PassSeen) → p.known.log ≡ [] → 1 ≤ length p.known.shots → Rests h p → ⊥ }
{}
