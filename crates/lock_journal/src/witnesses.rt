//! A program and seventeen logs of it, that the law's premises are met. The functions do nothing.

ghost use Rattle.std.specs.Prelude.{◌≡◌, length};
ghost use Rattle.lock_journal.specs.Examples.{printer, seventeen_logs};
ghost use Rattle.object_program.specs.Valid.{IsProgram};
ghost use Rattle.plain_machine.specs.Legal.{IsLegal};

/// A thread prints nil and ends; its log, with sixteen empty ones after it, is legal. A witness for `legal_logs_can_be_merged`.
pub fn seventeen_logs_can_be_legal()
    ensures { IsProgram printer × IsLegal printer 8 seventeen_logs × (length seventeen_logs ≡ 17) }
{}
