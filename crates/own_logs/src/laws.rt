//! Laws of threads on a heap and their logs. The functions do nothing.

ghost use Rattle.std.specs.Prelude.{◌≡◌, ◌==◌, ◌<◌, ℕ, true, false, List, length, sum};
ghost use Rattle.std.specs.List.{list_all};
ghost use Rattle.plain_monitor.specs.Limits.{most_holds};
ghost use Rattle.core_world.specs.Locks.{hold_count};
ghost use Rattle.core_world.specs.Shots.{dumps_from};
ghost use Rattle.core_world.specs.Trees.Plans.{free_place};
ghost use Rattle.core_world.specs.Words.Forms.{waits_on};
ghost use Rattle.heap_table.specs.Kept.{all_holds};
ghost use Rattle.heap_table.specs.Resting.{Rests};
ghost use Rattle.heap_table.specs.Seen.{HeapSeen, PassSeen};
ghost use Rattle.plain_history.specs.HeldByLog.{held_by, nothing_held};
ghost use Rattle.wait_history.specs.WaitsByLog.{waits_by};
ghost use Rattle.own_logs.specs.HoldsByLog.{AreHolds};

/// A thread that rests has as many hold words for an object as it holds it by its own log. So the number of its hold words that aren't
/// empty is the sum of these holds over all objects; a place is free where these are fewer than 64, and all words are empty where
/// there are none.
pub fn holds_at_rest_follow_from_the_own_log()
    ensures number { (h : HeapSeen) (p : PassSeen) (o : ℕ) → Rests h p → o < length h.heap.shape.objects
        → hold_count o p.known.holds ≡ held_by nothing_held p.known.log o }
    ensures all { (h : HeapSeen) (p : PassSeen) (holds : List ℕ) → Rests h p → AreHolds h p holds
        → all_holds p.known.holds ≡ sum holds }
    ensures full { (h : HeapSeen) (p : PassSeen) (holds : List ℕ) → Rests h p → AreHolds h p holds
        → sum holds < most_holds
        → (free_place p.known.holds == most_holds) ≡ false }
    ensures none { (h : HeapSeen) (p : PassSeen) (holds : List ℕ) → Rests h p → AreHolds h p holds → sum holds ≡ 0
        → list_all (λ w. w == 0) p.known.holds ≡ true }
{}

/// By its waiting word, as it last stored it, a thread that rests waits on an object exactly where it does by its own log: it has logged a
/// Wait and not yet the Resume, whether it was notified meanwhile or not.
pub fn waits_at_rest_follow_from_the_own_log()
    ensures { (h : HeapSeen) (p : PassSeen) (o : ℕ) → Rests h p → o < length h.heap.shape.objects
        → waits_on p.known.wait o ≡ waits_by false p.known.log o }
{}

/// A thread that rests keeps as many shots as it has logged dumps.
pub fn shots_at_rest_are_those_of_logged_dumps()
    ensures { (h : HeapSeen) (p : PassSeen) → Rests h p → length p.known.shots ≡ length (dumps_from 0 p.known.log) }
{}
