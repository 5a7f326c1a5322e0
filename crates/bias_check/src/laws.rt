//! Laws of journals.

ghost use Rattle.std.specs.Prelude.{◌≡◌, ℕ, ◌++◌, List, Option, Some, None, Ok, true, false};
ghost use Rattle.std.specs.List.{AllByRecursion};
ghost use Rattle.plain_monitor.specs.declared.entry.Logged.{Logged};
ghost use Rattle.object_program.specs.Program.{ProgramText};
ghost use Rattle.object_program.specs.Valid.{IsProgram};
ghost use Rattle.plain_machine.specs.Machine.{PlainMachine, new_machine};
ghost use Rattle.plain_monitor.specs.Order.{order};
ghost use Rattle.plain_machine.specs.Legal.{IsLegal, machine_after};
ghost use Rattle.lock_journal.specs.RunText.{text_of_lines};
ghost use Rattle.bias_check.specs.Lines.{lines_of};
ghost use Rattle.program_syntax.specs.Refusal.{program_of};
ghost use Rattle.bias_check.specs.Parts.{ArePartsOf, has_journal, lines_are_terminated, marker};
ghost use Rattle.bias_check.specs.Printed.{IsTellable, journal_of};
ghost use Rattle.bias_check.specs.Steps.{IsStep, IsRun};
ghost use Rattle.bias_check.specs.Logs.{SplitsIntoLegalLogs};

/// Where lines are a run, as those of a legal journal are, their entries are the order of the logs that they split into, and
/// these logs are legal, so that the journal can be replayed. The machine after the lines is the one under the logs.
pub fn runs_split_into_legal_logs()
    ensures { (p : ProgramText) (fuel : ℕ) (lines : List (List ℕ)) (entries : List (ℕ × Logged))
        (machine : PlainMachine) → IsRun p None (new_machine p fuel) lines entries machine
        → SplitsIntoLegalLogs p fuel entries machine }
{}

/// Of the entries that a line tells, the machine takes at most one.
pub fn a_line_is_at_most_one_step()
    ensures { (p : ProgramText) (before : Option (ℕ × Logged)) (m : PlainMachine) (line : List ℕ)
        (x y : ℕ × Logged) (n k : PlainMachine) → IsProgram p
        → IsStep p before m line x n → IsStep p before m line y k → (x ≡ y) × (n ≡ k) }
{}

/// The journal that is written of legal logs is a run, where each entry is the program's and no stamp passes 46 bits: its lines are
/// those of its text, and the machine after them is the one under the logs.
pub fn journals_of_legal_logs_are_runs()
    ensures run { (p : ProgramText) (fuel : ℕ) (logs : List (List Logged)) (machine : PlainMachine)
        → IsLegal p fuel logs → machine_after p fuel logs ≡ Some machine
        → AllByRecursion (IsTellable p) (order logs)
        → IsRun p None (new_machine p fuel) (journal_of p logs) (order logs) machine }
    ensures lines { (p : ProgramText) (logs : List (List Logged)) → IsProgram p
        → AllByRecursion (IsTellable p) (order logs)
        → lines_of (text_of_lines (journal_of p logs)) ≡ journal_of p logs }
{}

/// A text that has a program has no line that is the marker. So where its lines are all terminated, the text, the marker and any journal, written
/// one after the other, are a text whose program and journal are just these two.
pub fn a_program_joined_with_a_journal_splits_into_both()
    ensures unmarked { (text : List ℕ) (p : ProgramText) → program_of text ≡ Ok p → has_journal text ≡ false }
    ensures parts { (text journal : List ℕ) (p : ProgramText) → program_of text ≡ Ok p
        → lines_are_terminated text ≡ true → ArePartsOf (text ++ (marker ++ journal)) text journal }
{}
