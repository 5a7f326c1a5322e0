//! Laws of the canonical text, which hold of all programs.

ghost use Rattle.std.specs.Prelude.{◌≡◌, ◌≤◌, length, Ok};
ghost use Rattle.program_syntax.specs.Text.{most_bytes};
ghost use Rattle.object_program.specs.Program.{ProgramText};
ghost use Rattle.object_program.specs.Valid.{IsProgram};
ghost use Rattle.program_syntax.specs.Refusal.{program_of};
ghost use Rattle.program_syntax.specs.Canonical.{canonical};

/// The canonical text of a program is a text of this very program, unless it is too long to be one.
pub fn canonical_texts_are_read_back()
    ensures { (p : ProgramText) → IsProgram p → length (canonical p) ≤ most_bytes → program_of (canonical p) ≡ Ok p }
{}
