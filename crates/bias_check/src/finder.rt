//! Items with names, most of which are found by one comparison.

ghost use Rattle.std.specs.Prelude.{◌≡◌, ◌<◌, map, replicate, slice_set, slice_index_or, IfOk, IfSome, Some, None};
ghost use Rattle.program_syntax.specs.Directory.{IsPlace};
ghost use Rattle.bias_check.specs.inner.Guesses.{AreGuesses, place_by};

use object_program::Name;
use plain_monitor::NoMemory;
use program_syntax::{Directory, Named};
use std::alloc::Global;
use std::marker::Model;

/// How many guesses are kept.
const GUESSES: usize = 512;

/// A name, and where a directory has it.
#[derive(Clone, Copy)]
pub(crate) struct Guess {
    name: Name,
    place: usize,
}

/// A directory, which contracts see, with a guess for each sum that the bytes of a word may have. Where the guess has the name
/// that is looked for, as nearly always, one comparison has found it; else the directory is asked.
#[derive(Drop)]
pub(crate) struct Finder<T: Named + Drop> {
    directory: Directory<T>,
    guesses: Vec<Option<Guess>>,
}

impl<T: Named + Drop> Model for Finder<T> {
    ghost use Rattle.std.specs.Prelude.{List, map};

    ghost Value = { List T };

    ghost use Rattle.bias_check.specs.inner.Guesses.{AreGuesses};

    ghost view = { λ f. f.directory };

    ghost invariant = { λ f. AreGuesses (map T.name_of f.directory) f.guesses.items };
}

impl<T: Named + Drop> Finder<T> {
    /// The items of this directory.
    pub(crate) fn new(alloc: Global, directory: Directory<T>) -> Result<Finder<T>, NoMemory>
        ensures { IfOk result (λ f. f ≡ directory) }
    {
        let guesses = guesses_of(alloc, &directory)?;
        Ok(Finder { directory, guesses })
    }

    /// The items, in their order.
    pub(crate) fn items(&self) -> &[T]
        ensures { result.now ≡ self.now }
    {
        self.directory.items()
    }

    /// The number of the first item with this name, from 0.
    pub(crate) fn place_of(&self, word: &[u8]) -> Option<usize>
        ensures { IsPlace (map T.name_of self.now) word.now result }
    {
        match self.guessed(word) {
            Some(place) => Some(place),
            None => self.directory.place_of(word),
        }
    }

    /// The place by the guess, where that is right.
    #[tactic(auto, using(crate::proofs::Guesses::guessed))]
    fn guessed(&self, word: &[u8]) -> Option<usize>
        ensures { IfSome result (λ n. IsPlace (map T.name_of self.now) word.now (Some n)) }
    {
        place_by(guess_at(&self.guesses, slot_of(word)), word)
    }
}

/// The guesses for the items of a directory.
#[tactic(auto, using(crate::proofs::Guesses::none_guessed, crate::proofs::Guesses::one_guessed))]
fn guesses_of<T: Named + Drop>(
    alloc: Global,
    directory: &Directory<T>,
) -> Result<Vec<Option<Guess>>, NoMemory>
    ensures { IfOk result (λ v. AreGuesses (map T.name_of directory.now) v.items) }
{
    let mut guesses = no_guesses(alloc)?;
    for item in directory.items() {
        let name = *item.name();
        if let Some(place) = directory.place_of(name.bytes()) {
            keep(&mut guesses, slot_of(name.bytes()), Guess { name, place });
        }
    }
    Ok(guesses)
}

/// No guesses.
fn no_guesses(alloc: Global) -> Result<Vec<Option<Guess>>, NoMemory>
    ensures { IfOk result (λ v. v.items ≡ replicate 512 None) }
{
    let mut guesses = Vec::new(alloc);
    for _ in 0..GUESSES {
        guesses.push(None).map_err(|_| NoMemory)?;
    }
    Ok(guesses)
}

/// Keeps the guess at this slot.
fn keep(guesses: &mut Vec<Option<Guess>>, slot: usize, guess: Guess)
    ensures { guesses.new.items ≡ slice_set guesses.old.items slot (Some guess) }
{
    if slot < guesses.len() {
        guesses[slot] = Some(guess);
    }
}

/// The guess at this slot.
fn guess_at(guesses: &[Option<Guess>], slot: usize) -> Option<Guess>
    ensures { result ≡ slice_index_or guesses.now slot None }
{
    if slot < guesses.len() {
        guesses[slot]
    } else {
        None
    }
}

/// The place that the guess has, where its name is the word.
fn place_by(guess: Option<Guess>, word: &[u8]) -> Option<usize>
    ensures { result ≡ place_by guess word.now }
{
    match guess {
        None => None,
        Some(guess) => {
            if guess.name.bytes() == word {
                Some(guess.place)
            } else {
                None
            }
        }
    }
}

/// The slot of a word, by its bytes.
fn slot_of(word: &[u8]) -> usize
    ensures { result < 512 }
{
    let mut sum: u32 = 0;
    for b in word {
        sum = sum.wrapping_mul(31).wrapping_add(u32::from(*b));
    }
    sum as usize % GUESSES
}
