//! Threads, logs and a cut of a small program, that the laws' premises are met. The functions do nothing.

ghost use Rattle.std.specs.Prelude.{◌≡◌, ◌<◌, ◌∷◌, [], true, slice_get, Some};
ghost use Rattle.std.specs.List.{AllByRecursion};
ghost use Rattle.object_program.specs.Program.{objects_total};
ghost use Rattle.object_program.specs.Valid.{IsProgram};
ghost use Rattle.plain_history.specs.Cuts.{IsCutInOrder};
ghost use Rattle.plain_machine.specs.Asking.{ask, fits, thread_after};
ghost use Rattle.plain_machine.specs.Legal.{machine_after};
ghost use Rattle.plain_machine.specs.Machine.{PlainMachine, code_of, new_machine};
ghost use Rattle.plain_machine.specs.Thread.{ThreadState, local};
ghost use Rattle.plain_machine.specs.declared.monitor_call.NextEntry.{NextEntry};
ghost use Rattle.plain_monitor.specs.declared.entry.Value.TheVariants.{Ref};
ghost use Rattle.plain_monitor.specs.History.{RisesAbove};
ghost use Rattle.thread_logs.specs.Examples.{printers, entered, printed, prints_from, in_turn};
ghost use Rattle.thread_logs.specs.Followed.{FollowsCode, HasFollowed, HaveFollowed, HaveValues};

/// Of a program of two threads, each enters an object, prints it, leaves it and ends. Its first thread has a first state (`begins`). Its
/// log, up to its end, follows its code, and has values of the program (`log`). After the first entry it takes the next (`next`), which
/// is what it asks, and its local refers to the object (`asks`).
///
/// A witness for `threads_stay_theirs`, `a_log_tells_where_its_thread_stands`, `what_a_thread_asks_its_log_tells` and
/// `fronts_of_logs_follow_the_code`.
pub fn a_thread_can_follow_its_code()
    ensures program { IsProgram printers × (0 < objects_total printers) }
    ensures begins { (s : ThreadState) × (slice_get (new_machine printers 8).threads 0 ≡ Some s) }
    ensures log { HaveValues printers (prints_from 1) × HasFollowed printers 8 0 (prints_from 1) }
    ensures next { (s after : ThreadState) × FollowsCode printers 8 0 (entered 1 ∷ []) s
        × (thread_after printers (code_of printers 0) s (printed 2).entry ≡ Some after) }
    ensures asks { (s : ThreadState) × (a : NextEntry) × FollowsCode printers 8 0 (entered 1 ∷ []) s
        × (ask s ≡ Some a) × (fits a (printed 2).entry ≡ true) × (local s 0 ≡ Ref 0) }
{}

/// The threads of that program go one after the other: their logs rise, the machine takes them, and a cut after the first entry is in
/// order. And the objects take these logs, which follow their threads' code.
///
/// A witness for `machines_pass_through_a_cut_in_order`, `logs_that_follow_the_code_are_legal` and
/// `the_machine_is_what_the_logs_make_it`.
pub fn logs_of_threads_in_turn_can_be_cut_in_order()
    ensures cut { AllByRecursion (RisesAbove 0) in_turn × IsCutInOrder (1 ∷ 0 ∷ []) in_turn
        × ((last : PlainMachine) × (machine_after printers 8 in_turn ≡ Some last)) }
    ensures logs { HaveFollowed printers 8 in_turn }
{}
