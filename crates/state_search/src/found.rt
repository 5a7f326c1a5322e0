//! The keys that a search has found.

ghost use Rattle.std.specs.Prelude.{◌≡◌, ◌<◌, ◌≤◌, ◌+◌, ◌||◌, nat_lt, ℕ, List, [], ◌∷◌, length, true, false, Option, Some, IfOk, OnOk, IfSome, MatchOption, IsSome, ◌↔◌, slice_get, option_map, if◌then◌else◌, slice_index_or};
ghost use Rattle.state_search.specs.Search.{IsUnderWay, IsWayTo};
ghost use Rattle.state_search.specs.inner.Added.{with_key};
ghost use Rattle.state_search.specs.inner.Among.{is_among};

use indexmap::IndexSet;
use plain_monitor::NoMemory;
use std::alloc::Global;
use std::marker::Model;

/// The key from which a key was found, by its number, and the choice that led from it. Of the first key both are 0.
#[derive(Clone, Copy, Debug, PartialEq, Eq)]
pub struct Origin {
    pub(crate) key: usize,
    pub(crate) choice: u32,
}

/// The keys that a search has found, in the order in which it found them, where each came from, and how many of them it
/// went into.
#[derive(Drop)]
pub struct Found {
    keys: IndexSet<Vec<u64>>,
    origins: Vec<Origin>,
    gone: usize,
}

impl Model for Found {
    ghost use Rattle.state_search.specs.Found.{Keys};

    ghost Value = { Keys };

    ghost use Rattle.state_search.specs.FoundView.{found_keys};

    ghost view = { found_keys };
}

impl Found {
    /// The first key alone.
    pub(crate) fn new(alloc: Global, first: Vec<u64>) -> Result<Found, NoMemory>
        ensures { IfOk result (λ f. f ≡ record {
          keys = first.items ∷ [];
          origins = (record { key = 0; choice = 0 }) ∷ [];
          gone = 0;
        }) }
    {
        let mut keys = IndexSet::new(alloc);
        keys.insert(first).map_err(|_| NoMemory)?;
        let mut origins = Vec::new(alloc);
        origins
            .push(Origin { key: 0, choice: 0 })
            .map_err(|_| NoMemory)?;
        Ok(Found {
            keys,
            origins,
            gone: 0,
        })
    }

    /// How many keys were found.
    pub fn len(&self) -> usize
        ensures { result ≡ length self.now.keys }
    {
        self.keys.len()
    }

    /// How many of the keys, the first ones, the search went into.
    pub fn gone(&self) -> usize
        ensures { result ≡ self.now.gone }
    {
        self.gone
    }

    /// The key with this number, from 0.
    pub fn key(&self, number: usize) -> Option<&[u64]>
        ensures { option_map (λ k. k.now) result ≡ slice_get self.now.keys number }
    {
        match self.keys.get_index(number) {
            Some(key) => Some(key.as_slice()),
            None => None,
        }
    }

    /// The choices that lead from the first key to the key with this number, the last one first; none where there is
    /// no such key.
    ///
    /// # Errors
    ///
    /// `NoMemory` where an allocation fails.
    pub fn way_to(&self, alloc: Global, number: usize) -> Result<Vec<u32>, NoMemory>
        ensures { IfOk result (λ choices. (next : List ℕ → ℕ → Option (List ℕ)) (many : ℕ) (first : List ℕ) (most : ℕ)
            → IsUnderWay next many first most self.now → IsWayTo next many first self.now.keys number choices.items) }
    {
        let mut choices = Vec::new(alloc);
        let mut at = number;
        // Each origin stands before its key, so these are steps enough.
        for _ in 0..number {
            if at == 0 {
                break;
            }
            let Some(origin) = self.origins.get(at) else {
                break;
            };
            choices.push(origin.choice).map_err(|_| NoMemory)?;
            at = origin.key;
        }
        Ok(choices)
    }

    /// Whether the key can be among the keys, of which there are to be at most `most`: there is room for it, or it is there.
    fn has_room(&self, key: &Vec<u64>, most: usize) -> bool
        ensures { result ≡ nat_lt (length self.now.keys) most || is_among self.now.keys key.now.items }
    {
        self.keys.len() < most || self.keys.contains(key)
    }

    /// Adds the key, with its origin, where it isn't there, unless there are `most` already: whether it is there then.
    pub(crate) fn add(
        &mut self,
        key: Vec<u64>,
        origin: Origin,
        most: usize,
    ) -> Result<bool, NoMemory>
        ensures room { IfOk result (λ there. there ≡ nat_lt (length self.old.keys) most
            || is_among self.old.keys key.items) }
        ensures added { IfOk result (λ there. self.new ≡ (if there
            then with_key self.old key.items origin else self.old)) }
    {
        if !self.has_room(&key, most) {
            return Ok(false);
        }
        let is_new = self.keys.insert(key).map_err(|_| NoMemory)?;
        if is_new {
            self.origins.push(origin).map_err(|_| NoMemory)?;
        }
        Ok(true)
    }

    /// Counts one more key as gone into.
    pub(crate) fn go_on(&mut self)
        requires { self.old.gone < length self.old.keys }
        ensures { self.new ≡ record self.old { gone = self.old.gone + 1 } }
    {
        prove!(self.gone < self.keys.len());
        self.gone += 1;
    }
}
