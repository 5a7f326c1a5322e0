//! Entries that no line can tell, and answers that are wrong of a run's journal, are refused. The functions do nothing.

ghost use Rattle.std.specs.Prelude.{◌≡◌, ◌≢◌, ℕ, not, ◌<◌, ◌≤◌, ◌^◌, true, List, [], ◌∷◌, length, Some, None, Ok};
ghost use Rattle.std.specs.List.{AllByRecursion, list_all};
ghost use Rattle.bias_check.specs.declared.answer.Checked.TheVariants.{Legal};
ghost use Rattle.bias_check.specs.declared.answer.Reached.{Reached};
ghost use Rattle.bias_check.specs.declared.answer.Reached.TheVariants.{Ended, Stuck};
ghost use Rattle.bias_check.specs.Answer.{IsTrueOf, state_of};
ghost use Rattle.bias_check.specs.Lines.{numbers_total};
ghost use Rattle.bias_check.specs.Printed.{IsTellable, journal_of};
ghost use Rattle.hash_laws.specs.HashExample.{hash_fuel, hash_logs, hash_program};
ghost use Rattle.lock_journal.specs.RunText.{text_of_lines};
ghost use Rattle.object_program.specs.Program.{ProgramText};
ghost use Rattle.plain_machine.specs.Machine.{PlainMachine, is_live, is_stuck};
ghost use Rattle.plain_monitor.specs.declared.entry.Entry.{Entry};
ghost use Rattle.plain_monitor.specs.declared.entry.Entry.TheVariants.{Exit, Hash};
ghost use Rattle.plain_monitor.specs.declared.entry.Logged.{Logged};
ghost use Rattle.plain_monitor.specs.Order.{order};

/// A log of one entry whose stamp is above 1 leaves out a stamp. Refuses the conclusion of `exact_stamps_leave_no_gap`.
pub fn no_stamp_above_the_number_of_entries()
    ensures { (n : ℕ) (e : Entry) → 2 ≤ n → AllByRecursion
        (λ x. x.1.stamp ≤ length (order ((record { stamp = n; entry = e } ∷ []) ∷ [])))
        (order ((record { stamp = n; entry = e } ∷ []) ∷ [])) → ⊥ }
{}

/// An entry of an object whose number the program doesn't have, one with a hash of more than 32 bits, one of a thread that the program doesn't have,
/// and one whose stamp has more than 46 bits. Refuses the conclusion of `entries_of_a_run_can_be_told`.
pub fn no_line_tells_what_is_not_of_the_program()
    ensures object { (p : ProgramText) (o : ℕ) → numbers_total p ≤ o
        → AllByRecursion (IsTellable p) (order ((record { stamp = 1; entry = Exit o } ∷ []) ∷ [])) → ⊥ }
    ensures hash { (p : ProgramText) (v : ℕ) → 2 ^ 32 ≤ v
        → AllByRecursion (IsTellable p) (order ((record { stamp = 1; entry = Hash 0 v None } ∷ []) ∷ [])) → ⊥ }
    ensures thread { (e : Entry)
        → AllByRecursion (IsTellable hash_program) (order ([] ∷ [] ∷ (record { stamp = 1; entry = e } ∷ []) ∷ [])) → ⊥ }
    ensures stamp { (p : ProgramText) (n : ℕ) (e : Entry) → 2 ^ 46 ≤ n
        → AllByRecursion (IsTellable p) (order ((record { stamp = n; entry = e } ∷ []) ∷ [])) → ⊥ }
{}

/// Of the journal of two threads that ask for one hash, print it and end: an answer with another number of entries, one that says that the threads
/// haven't ended, and that it is legal though the generators begin elsewhere. Refuses the conclusion `legal` of `journals_of_runs_are_legal`.
pub fn no_other_answer_of_a_journal()
    ensures count { (n : ℕ) (state : Reached) → n ≢ 6
        → IsTrueOf hash_program hash_fuel 0 (journal_of hash_program hash_logs) (Ok (Legal n state)) → ⊥ }
    ensures state { (n : ℕ) (state : Reached) → state ≢ Ended
        → IsTrueOf hash_program hash_fuel 0 (journal_of hash_program hash_logs) (Ok (Legal n state)) → ⊥ }
    ensures start { (n : ℕ) (state : Reached)
        → IsTrueOf hash_program hash_fuel 1 (journal_of hash_program hash_logs) (Ok (Legal n state)) → ⊥ }
{}

/// Logs of 2^32 entries have a journal of as many bytes at least. Refuses the conclusion `short` of `journals_of_runs_are_legal`.
pub fn no_short_journal_of_too_many_entries()
    ensures { (p : ProgramText) (logs : List (List Logged)) → 2 ^ 32 ≤ length (order logs)
        → length (text_of_lines (journal_of p logs)) < 2 ^ 32 → ⊥ }
{}

/// A machine that is stuck hasn't ended, and one whose threads have ended isn't stuck. Refuses the conclusions `ended` and `stuck` of
/// `journals_of_runs_are_legal`.
pub fn no_other_state_of_a_machine_that_is_over()
    ensures ended { (m : PlainMachine) → is_stuck m ≡ true → state_of m ≡ Ended → ⊥ }
    ensures stuck { (m : PlainMachine) → list_all (λ s. not (is_live s)) m.threads ≡ true → state_of m ≡ Stuck → ⊥ }
{}
