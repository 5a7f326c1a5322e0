//! Laws that the laws' premises are met: by a program of one thread, its text and a run of it (`specs/Example.antt`). The functions do nothing.

ghost use Rattle.std.specs.Prelude.{◌≡◌, [], ◌∷◌, ◌++◌, Ok, Some, None, true};
ghost use Rattle.std.specs.List.{AllByRecursion};
ghost use Rattle.object_program.specs.Valid.{IsProgram};
ghost use Rattle.program_syntax.specs.Refusal.{program_of};
ghost use Rattle.plain_monitor.specs.Order.{order};
ghost use Rattle.plain_machine.specs.Legal.{IsLegal, machine_after};
ghost use Rattle.plain_machine.specs.Machine.{PlainMachine, new_machine};
ghost use Rattle.lock_journal.specs.RunText.{newline};
ghost use Rattle.bias_check.specs.Example.{example_lines, example_logs, example_program};
ghost use Rattle.bias_check.specs.Parts.{lines_are_terminated};
ghost use Rattle.bias_check.specs.Printed.{IsTellable, journal_of};
ghost use Rattle.bias_check.specs.Steps.{IsRun};

/// The text has the program, and its lines are terminated: what `a_program_joined_with_a_journal_splits_into_both` asks for.
pub fn a_text_has_a_program()
    ensures program { program_of (example_lines ++ newline) ≡ Ok example_program }
    ensures terminated { lines_are_terminated (example_lines ++ newline) ≡ true }
{}

/// The logs of a run are legal, a machine is under them, and all of their entries can be told: what `journals_of_legal_logs_are_runs` asks for.
/// Their journal is a run, as `runs_split_into_legal_logs` asks; and so each line of it is a step, as
/// `a_line_is_at_most_one_step` asks.
pub fn a_program_of_one_thread_has_a_legal_journal()
    ensures program { IsProgram example_program }
    ensures legal { IsLegal example_program 8 example_logs }
    ensures machine { (m : PlainMachine) × (machine_after example_program 8 example_logs ≡ Some m) }
    ensures tellable { AllByRecursion (IsTellable example_program) (order example_logs) }
    ensures run { (m : PlainMachine) × IsRun example_program None (new_machine example_program 8)
        (journal_of example_program example_logs) (order example_logs) m }
{}
