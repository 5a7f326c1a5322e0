//! Logs in which two threads ask for the hash of one object, so that what the law of hashes asks for comes about. The functions do nothing.

ghost use Rattle.std.specs.Prelude.{◌≡◌, ℕ, true, Some};
ghost use Rattle.core_law.specs.Draws.{HasDraws};
ghost use Rattle.hash_laws.specs.HashExample.{hash_end, hash_fuel, hash_logs, hash_program};
ghost use Rattle.lock_journal.specs.Hashes.{hash_fits};
ghost use Rattle.object_program.specs.Valid.{IsProgram};
ghost use Rattle.plain_history.specs.ExactStamps.{StampsAreExact};
ghost use Rattle.plain_history.specs.FirstDraws.{DrawsComeFirst};
ghost use Rattle.plain_machine.specs.Legal.{IsLegal, machine_after};
ghost use Rattle.plain_monitor.specs.Order.{order};

/// Two threads ask for the hash of one object; the first draws it from its generator, and the second finds it. These logs of a program are legal,
/// and have all that `hashes_fit_just_where_they_are_draws` asks for: the hash is a draw, it fits, and it is drawn before it is found.
pub fn a_hash_is_drawn_once_and_found()
    ensures program { IsProgram hash_program }
    ensures legal { IsLegal hash_program hash_fuel hash_logs }
    ensures under { machine_after hash_program hash_fuel hash_logs ≡ Some hash_end }
    ensures draws { HasDraws 0 hash_logs }
    ensures fit { (o : ℕ) → hash_fits 0 (order hash_logs) o ≡ true }
    ensures first { DrawsComeFirst hash_logs }
    ensures stamps { StampsAreExact hash_logs }
{}
