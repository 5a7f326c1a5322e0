//! The search, by breadth.

ghost use Rattle.std.specs.Prelude.{◌≡◌, ◌<◌, ◌≤◌, ◌+◌, if◌then◌else◌, ℕ, List, length, true, false, Some, IfOk, OnOk, slice_get, IsTrue, IsFalse};
ghost use Rattle.state_search.specs.Search.{Has, AreKeys, IsUnderWay, IsSearch};
ghost use Rattle.state_search.specs.inner.Steps.{Keeps, GoesOn};

use crate::found::{Found, Origin};
use crate::moves::Moves;
use plain_monitor::NoMemory;
use std::alloc::Global;

/// Finds all keys that choices lead to from the first one, and goes into each, unless there are more than `most`.
///
/// It stops where it would find one more than `most`. Of the keys that it didn't go into then it may have found some of what they lead to.
///
/// # Errors
///
/// `NoMemory` where an allocation fails, here or in a move.
pub fn search<M: Moves>(
    alloc: Global,
    moves: &mut M,
    first: Vec<u64>,
    most: usize,
) -> Result<Found, NoMemory>
    requires is_key { M.is_key moves.old first.items }
    requires some { 1 ≤ most }
    ensures found { IfOk result (λ f. IsSearch (M.next moves.old) (M.choices moves.old) first.items most f) }
    ensures all { IfOk result (λ f. AreKeys (M.is_key moves.new) f.keys) }
    ensures keys_stay { (words : List ℕ) → M.is_key moves.old words → M.is_key moves.new words }
    ensures next_stays { M.next moves.new ≡ M.next moves.old }
    ensures choices_stay { M.choices moves.new ≡ M.choices moves.old }
{
    let mut found = Found::new(alloc, first)?;
    while found.gone() < found.len() {
        if !go_into(alloc, &mut found, moves, most)? {
            return Ok(found);
        }
    }
    Ok(found)
}

/// Goes into the next key: finds all keys that it leads to, unless there would be more than `most`; whether it did.
fn go_into<M: Moves>(
    alloc: Global,
    found: &mut Found,
    moves: &mut M,
    most: usize,
) -> Result<bool, NoMemory>
    requires open { found.old.gone < length found.old.keys }
    requires keys { AreKeys (M.is_key moves.old) found.old.keys }
    ensures goes_on { OnOk result (GoesOn (M.next moves.old) (M.choices moves.old) most found.old found.new) }
    ensures keys { OnOk result (AreKeys (M.is_key moves.new) found.new.keys) }
    ensures gone { IfOk result (λ all. found.new.gone ≡ (if all then found.old.gone + 1 else found.old.gone)) }
    ensures full { IfOk result (λ all. IsFalse all → most ≤ length found.new.keys) }
    ensures keys_stay { (words : List ℕ) → M.is_key moves.old words → M.is_key moves.new words }
    ensures next_stays { M.next moves.new ≡ M.next moves.old }
    ensures choices_stay { M.choices moves.new ≡ M.choices moves.old }
{
    let Some(key) = found.key(found.gone()) else {
        return Ok(false);
    };
    let key = Vec::from_slice(alloc, key).map_err(|_| NoMemory)?;
    for choice in 0..moves.choices() {
        if !try_choice(found, moves, &key, choice, most)? {
            return Ok(false);
        }
    }
    found.go_on();
    Ok(true)
}

/// Adds the key that this one, which is the next to be gone into, leads to by the choice, if there is one, unless there would be more
/// than `most`; whether there is no such key that isn't there.
fn try_choice<M: Moves>(
    found: &mut Found,
    moves: &mut M,
    key: &[u64],
    choice: u32,
    most: usize,
) -> Result<bool, NoMemory>
    requires here { slice_get found.old.keys found.old.gone ≡ Some key.now }
    requires keys { AreKeys (M.is_key moves.old) found.old.keys }
    requires choice { choice < M.choices moves.old }
    ensures goes_on { OnOk result (GoesOn (M.next moves.old) (M.choices moves.old) most found.old found.new) }
    ensures keys { OnOk result (AreKeys (M.is_key moves.new) found.new.keys) }
    ensures kept { OnOk result (Keeps found.old.keys found.new.keys) }
    ensures gone { OnOk result (found.new.gone ≡ found.old.gone) }
    ensures adds { IfOk result (λ there. IsTrue there → (to : List ℕ) → M.next moves.old key.now choice ≡ Some to
        → Has found.new.keys to) }
    ensures full { IfOk result (λ there. IsFalse there → most ≤ length found.new.keys) }
    ensures keys_stay { (words : List ℕ) → M.is_key moves.old words → M.is_key moves.new words }
    ensures next_stays { M.next moves.new ≡ M.next moves.old }
    ensures choices_stay { M.choices moves.new ≡ M.choices moves.old }
{
    match moves.next(key, choice)? {
        Some(to) => {
            let origin = Origin {
                key: found.gone(),
                choice,
            };
            let there = found.add(to, origin, most)?;
            Ok(there)
        }
        None => Ok(true),
    }
}
