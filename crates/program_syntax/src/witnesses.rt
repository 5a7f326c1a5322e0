//! A program and its text, that the law's premises are met. The functions do nothing.

ghost use Rattle.std.specs.Prelude.{◌≤◌, length};
ghost use Rattle.object_program.specs.Valid.{IsProgram};
ghost use Rattle.program_syntax.specs.Canonical.{canonical};
ghost use Rattle.program_syntax.specs.Examples.{counting};
ghost use Rattle.program_syntax.specs.Text.{most_bytes};

/// A program with a class, an array, and a thread that counts in a loop, from a negative number on. A witness for
/// `canonical_texts_are_read_back`.
pub fn a_program_with_a_loop_has_a_text()
    ensures { IsProgram counting × (length (canonical counting) ≤ most_bytes) }
{}
