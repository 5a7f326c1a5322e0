//! Laws that what is said of texts and limits is refused where it is wrong. The functions do nothing.

ghost use Rattle.std.specs.Prelude.{◌≡◌, ◌+◌, ◌<◌, length, Ok, Err};
ghost use Rattle.object_program.specs.Limits.{most_classes, most_threads, most_locals, most_code};
ghost use Rattle.object_program.specs.Program.{ProgramText};
ghost use Rattle.object_program.specs.Valid.{IsProgram};
ghost use Rattle.program_syntax.specs.Canonical.{canonical};
ghost use Rattle.program_syntax.specs.Examples.{of_two_words, numbered_late};
ghost use Rattle.program_syntax.specs.Refusal.{program_of};
ghost use Rattle.program_syntax.specs.Text.{most_bytes};
ghost use Rattle.program_syntax.specs.declared.error.RefusalCause.TheVariants.{Operands};

use crate::limits::{CLASSES, CODE, LOCALS, THREADS};

/// What is no program is not read back from its text (`barred`), nor what has a text that is too long (`long`). So a thread with a name of
/// two words, at whose line its text is refused (`words`), and an object that has the number 1 though none stands before it, which is read
/// as number 0 (`numbered`). Refuses the conclusion of `canonical_texts_are_read_back`.
pub fn no_text_is_read_back_as_what_is_no_program()
    ensures barred { (p : ProgramText) → (IsProgram p → ⊥) → program_of (canonical p) ≡ Ok p → ⊥ }
    ensures long { (p : ProgramText) → most_bytes < length (canonical p) → program_of (canonical p) ≡ Ok p → ⊥ }
    ensures words { program_of (canonical of_two_words) ≡ Err (record { line = 3; why = Operands }) }
    ensures numbered { program_of (canonical numbered_late) ≡ Ok numbered_late → ⊥ }
{}

/// No limit of the definitions is one more than that of the code. Refuses the conclusions of `code_has_the_limits`.
pub fn no_limit_is_one_more()
    ensures classes { CLASSES + 1 ≡ most_classes → ⊥ }
    ensures threads { THREADS + 1 ≡ most_threads → ⊥ }
    ensures locals { LOCALS + 1 ≡ most_locals → ⊥ }
    ensures code { CODE + 1 ≡ most_code → ⊥ }
{}
