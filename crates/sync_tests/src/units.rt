//! What the counting program logs with just enough fuel and with one less, by the meaning of its blocks alone.

ghost use Rattle.plain_monitor.specs.declared.entry.Entry.TheVariants.{Done, Spent};
ghost use Rattle.sync_source.specs.SyncMachine.{IsSyncLegal};
ghost use Rattle.sync_tests.specs.Counting.{counting_text, passes};

/// Four statements, two passes of six units (a test, an enter, a print, an exit, an addition, and the way back), the test that is missed, the
/// way out, and the `end`: 19 in all.
pub fn nineteen_units_are_just_enough()
    ensures done { IsSyncLegal counting_text 19 (passes Done) }
    ensures spent { IsSyncLegal counting_text 18 (passes Spent) }
    ensures not_done { IsSyncLegal counting_text 18 (passes Done) → ⊥ }
    ensures not_spent { IsSyncLegal counting_text 19 (passes Spent) → ⊥ }
{}
