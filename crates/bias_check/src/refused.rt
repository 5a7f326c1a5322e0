//! Laws that what is said of lines, logs and texts is refused where it is wrong in one way. The functions do nothing.

ghost use Rattle.std.specs.Prelude.{◌≡◌, ◌≢◌, ℕ, ◌≤◌, ◌^◌, false, List, [], ◌∷◌, ◌++◌, codes, Option, None};
ghost use Rattle.plain_monitor.specs.declared.entry.Entry.TheVariants.{Print, Done};
ghost use Rattle.plain_monitor.specs.declared.entry.Logged.{Logged};
ghost use Rattle.plain_monitor.specs.declared.entry.Value.TheVariants.{Nil};
ghost use Rattle.plain_monitor.specs.Order.{order};
ghost use Rattle.object_program.specs.Program.{ProgramText};
ghost use Rattle.plain_machine.specs.Machine.{PlainMachine, new_machine};
ghost use Rattle.lock_journal.specs.RunText.{journal_line, newline, text_of_lines};
ghost use Rattle.bias_check.specs.Example.{done_logs, example_lines, example_program, later_logs, nil_program, split_program};
ghost use Rattle.bias_check.specs.Lines.{lines_of, Tells};
ghost use Rattle.bias_check.specs.Logs.{SplitsIntoLegalLogs};
ghost use Rattle.bias_check.specs.Parts.{ArePartsOf, has_journal, marker};
ghost use Rattle.bias_check.specs.Printed.{journal_of};
ghost use Rattle.bias_check.specs.Steps.{IsRun};

/// Entries that no legal logs split into: two of one thread whose stamps don't rise, and one that its thread doesn't ask for. Nor is another
/// machine under no logs than the first. Refuses the conclusion of `runs_split_into_legal_logs`.
pub fn no_split_of_entries_that_are_no_run()
    ensures order { (p : ProgramText) (fuel t : ℕ) (x y : Logged) (m : PlainMachine) → y.stamp ≤ x.stamp
        → SplitsIntoLegalLogs p fuel ((t, x) ∷ (t, y) ∷ []) m → ⊥ }
    ensures asked { (m : PlainMachine)
        → SplitsIntoLegalLogs example_program 8 ((0, record { stamp = 1; entry = Print Nil }) ∷ []) m → ⊥ }
    ensures machine { (p : ProgramText) (fuel : ℕ) (m : PlainMachine) → m ≢ new_machine p fuel
        → SplitsIntoLegalLogs p fuel [] m → ⊥ }
{}

/// A line that tells two entries, `@1 t print nil` of a program that has an object with the name `nil`. So that the two are one is true of steps
/// alone: refuses the conclusion of `a_line_is_at_most_one_step`.
pub fn a_line_may_tell_two_entries()
    ensures { (x y : ℕ × Logged) × Tells nil_program (journal_line nil_program x) x
        × Tells nil_program (journal_line nil_program x) y × (x ≢ y) }
{}

/// Journals that are no run: one in which an entry has a stamp of more than 46 bits, and one that lacks the enter; and lines that aren't read again,
/// as a thread's name has a line feed. Refuses the conclusions of `journals_of_legal_logs_are_runs`.
pub fn no_run_by_a_journal_that_is_wrong()
    ensures stamp { (p : ProgramText) (before : Option (ℕ × Logged)) (m n : PlainMachine) (x : ℕ × Logged)
        (xs : List (ℕ × Logged)) (line : List ℕ) (lines : List (List ℕ)) → 2 ^ 46 ≤ x.1.stamp
        → IsRun p before m (line ∷ lines) (x ∷ xs) n → ⊥ }
    ensures enter { (m : PlainMachine) → IsRun example_program None (new_machine example_program 8)
        (journal_of example_program later_logs) (order later_logs) m → ⊥ }
    ensures lines { lines_of (text_of_lines (journal_of split_program done_logs))
        ≡ journal_of split_program done_logs → ⊥ }
{}

/// Parts that a text hasn't: where no line feed stands before the marker, which then is no line; or where the journal lacks its line. And a text with a
/// line that is the marker. Refuses the conclusions of `a_program_joined_with_a_journal_splits_into_both`.
pub fn no_parts_of_a_text_without_its_line_feed()
    ensures unterminated { (journal : List ℕ)
        → ArePartsOf (example_lines ++ (marker ++ journal)) example_lines journal → ⊥ }
    ensures shorter { ArePartsOf (example_lines ++ (newline ++ (marker ++ codes "@1 t done\n")))
        (example_lines ++ newline) [] → ⊥ }
    ensures marked { (journal : List ℕ)
        → has_journal (example_lines ++ (newline ++ (marker ++ journal))) ≡ false → ⊥ }
{}
