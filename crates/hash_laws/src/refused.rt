//! Hashes that no generator drew, that two threads drew, or that were found before they were drawn, are refused. The functions do nothing.

ghost use Rattle.std.specs.Prelude.{◌≡◌, ℕ, true, [], ◌∷◌, Some, None};
ghost use Rattle.core_law.specs.Draws.{HasDraws};
ghost use Rattle.hash_laws.specs.HashExample.{first_hash, hash_fuel};
ghost use Rattle.lock_journal.specs.Hashes.{hash_fits};
ghost use Rattle.object_program.specs.Program.{ProgramText};
ghost use Rattle.object_program.specs.Valid.{IsProgram};
ghost use Rattle.plain_history.specs.FirstDraws.{DrawsComeFirst};
ghost use Rattle.plain_machine.specs.Legal.{IsLegal};
ghost use Rattle.plain_monitor.specs.declared.entry.Entry.TheVariants.{Hash};
ghost use Rattle.plain_monitor.specs.Order.{order};

/// A thread whose generator begins with the word 0 logs as its first draw a value that is one too high. Refuses the conclusions `fit` and `drawn` of
/// `hashes_fit_just_where_they_are_draws`.
pub fn no_hash_beside_the_generator()
    ensures fit { hash_fits 0 (order ((record { stamp = 1; entry = Hash 0 273327013 (Some 1) } ∷ []) ∷ [])) 0 ≡ true → ⊥ }
    ensures drawn { HasDraws 0 ((record { stamp = 1; entry = Hash 0 273327013 (Some 1) } ∷ []) ∷ []) → ⊥ }
{}

/// Each of two threads draws a hash for one object, whatever the hashes and the generators are. Refuses the conclusions `fit` and `drawn` of
/// `hashes_fit_just_where_they_are_draws`.
pub fn no_hash_that_two_threads_draw()
    ensures fit { (start v w m n : ℕ) → hash_fits start (order ((record { stamp = 1; entry = Hash 0 v (Some m) } ∷ [])
        ∷ (record { stamp = 1; entry = Hash 0 w (Some n) } ∷ []) ∷ [])) 0 ≡ true → ⊥ }
    ensures drawn { (start v w m n : ℕ) → HasDraws start ((record { stamp = 1; entry = Hash 0 v (Some m) } ∷ [])
        ∷ (record { stamp = 1; entry = Hash 0 w (Some n) } ∷ []) ∷ []) → ⊥ }
{}

/// A thread finds the hash of an object, and draws it after that, though the logs are legal for a program (`legal`), and the hash itself fits
/// (`fit`). Refuses the conclusions `first` and `drawn` of `hashes_fit_just_where_they_are_draws`, and so `drawn` doesn't hold without its last
/// premise.
pub fn no_hash_that_is_found_before_it_is_drawn()
    ensures legal { (p : ProgramText) × IsProgram p × IsLegal p hash_fuel
        ((record { stamp = 1; entry = Hash 0 first_hash None }
        ∷ record { stamp = 2; entry = Hash 0 first_hash (Some 1) } ∷ []) ∷ []) }
    ensures fit { (o : ℕ) → hash_fits 0 (order ((record { stamp = 1; entry = Hash 0 first_hash None }
        ∷ record { stamp = 2; entry = Hash 0 first_hash (Some 1) } ∷ []) ∷ [])) o ≡ true }
    ensures first { (v n : ℕ) → DrawsComeFirst ((record { stamp = 1; entry = Hash 0 v None }
        ∷ record { stamp = 2; entry = Hash 0 v (Some n) } ∷ []) ∷ []) → ⊥ }
    ensures drawn { (start v n : ℕ) → HasDraws start ((record { stamp = 1; entry = Hash 0 v None }
        ∷ record { stamp = 2; entry = Hash 0 v (Some n) } ∷ []) ∷ []) → ⊥ }
{}
