//! What holds of the log of one thread doesn't hold of those of two, nor of a log that leaves out a stamp. The functions do nothing.

ghost use Rattle.std.specs.Prelude.{◌≡◌, ℕ, ◌+◌, pos, Bool, false, List, [], ◌∷◌, slice_get, Some};
ghost use Rattle.lock_journal.specs.RunText.{text_of_run};
ghost use Rattle.lock_journal.specs.declared.record.ClassLine.{ClassLine};
ghost use Rattle.lock_journal.specs.declared.record.Shot.{Shot};
ghost use Rattle.plain_history.specs.ExactStamps.{StampsAreExact};
ghost use Rattle.plain_machine.specs.Legal.{machine_after};
ghost use Rattle.plain_monitor.specs.declared.entry.Entry.TheVariants.{Done};
ghost use Rattle.plain_monitor.specs.declared.entry.Logged.{Logged};
ghost use Rattle.plain_monitor.specs.History.{log_of};
ghost use Rattle.single_thread_law.specs.LoneRun.{AreSameButForPaths};
ghost use Rattle.single_thread_law.specs.PairExample.{first_then_second, pair_end, pair_fuel, pair_program, second_then_first};

/// A stamp is left out, or another thread let go of the object that the log's first entry enters: then a stamp is no place in the log. Refuses the
/// conclusion of `stamps_of_one_thread_count_its_entries`, and the exact stamps of the log with the gap (`exact`).
pub fn no_stamp_is_the_place_in_a_log_with_a_gap()
    ensures gap { ((i : ℕ) (l : Logged) → slice_get (log_of ((record { stamp = 2; entry = Done } ∷ []) ∷ []) 0) i ≡ Some l
        → l.stamp ≡ i + 1) → ⊥ }
    ensures exact { StampsAreExact ((record { stamp = 2; entry = Done } ∷ []) ∷ []) → ⊥ }
    ensures two { ((i : ℕ) (l : Logged) → slice_get (log_of second_then_first 0) i ≡ Some l → l.stamp ≡ i + 1) → ⊥ }
{}

/// Two threads enter one object, in either order. Both are legal logs of one program, and aren't the same but for paths; nor are the machines after
/// them one. Refuses the conclusions of `one_thread_logs_one_way` for two threads.
pub fn two_threads_log_two_ways()
    ensures logs { AreSameButForPaths first_then_second second_then_first → ⊥ }
    ensures machines { pair_end (pos 2) ≡ pair_end (pos 1) → ⊥ }
    ensures first { machine_after pair_program pair_fuel first_then_second ≡ Some (pair_end (pos 2)) }
    ensures second { machine_after pair_program pair_fuel second_then_first ≡ Some (pair_end (pos 1)) }
{}

/// And they write two texts. Refuses the conclusion of `one_thread_writes_one_text` for two threads.
pub fn two_threads_write_two_texts()
    ensures { (start : ℕ) (bias halted : Bool) (classes : List ClassLine) (shots : List (List Shot)) → text_of_run false false (record {
      program = pair_program;
      fuel = pair_fuel;
      start = start;
      bias = bias;
      logs = first_then_second;
      shots = shots;
      classes = classes;
      halted = halted;
    }) (pair_end (pos 2)) ≡ text_of_run false false (record {
      program = pair_program;
      fuel = pair_fuel;
      start = start;
      bias = bias;
      logs = second_then_first;
      shots = shots;
      classes = classes;
      halted = halted;
    }) (pair_end (pos 1)) → ⊥ }
{}
