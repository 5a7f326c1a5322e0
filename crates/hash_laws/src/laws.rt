//! Laws of the hashes of logs. The functions do nothing.

ghost use Rattle.std.specs.Prelude.{◌≡◌, ℕ, true, List};
ghost use Rattle.core_law.specs.Draws.{HasDraws};
ghost use Rattle.lock_journal.specs.Hashes.{hash_fits};
ghost use Rattle.object_program.specs.Program.{ProgramText};
ghost use Rattle.plain_history.specs.FirstDraws.{DrawsComeFirst};
ghost use Rattle.plain_machine.specs.Legal.{IsLegal};
ghost use Rattle.plain_monitor.specs.declared.entry.Logged.{Logged};
ghost use Rattle.plain_monitor.specs.Order.{order};

/// Of legal logs the hashes are the threads' draws just where those of each object fit, in the order of all entries, and a thread that draws the
/// hash of an object has logged none of it before. So what fits has all that draws have: the draws of each thread are those of its
/// generator, in their order, and of the hashes of an object just one was drawn.
pub fn hashes_fit_just_where_they_are_draws()
    ensures fit { (p : ProgramText) (fuel start : ℕ) (logs : List (List Logged)) → IsLegal p fuel logs
        → HasDraws start logs → (o : ℕ) → hash_fits start (order logs) o ≡ true }
    ensures first { (start : ℕ) (logs : List (List Logged)) → HasDraws start logs → DrawsComeFirst logs }
    ensures drawn { (p : ProgramText) (fuel start : ℕ) (logs : List (List Logged)) → IsLegal p fuel logs
        → ((o : ℕ) → hash_fits start (order logs) o ≡ true) → DrawsComeFirst logs → HasDraws start logs }
{}
