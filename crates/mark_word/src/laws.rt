//! Laws of the tables, which hold of all words, and that each form is read back from its word.

ghost use Rattle.std.specs.Prelude.{◌≡◌, ℕ, ◌↔◌, Some};
ghost use Rattle.mark_word.specs.Hold.{IsHoldInRange, SpellsHold, read_hold};
ghost use Rattle.mark_word.specs.Mark.{IsMarkInRange, SpellsMark, read_mark};
ghost use Rattle.mark_word.specs.Owner.{IsOwnerInRange, SpellsOwner, read_owner};
ghost use Rattle.mark_word.specs.Safe.{IsSafeInRange, SpellsSafe, read_safe};
ghost use Rattle.mark_word.specs.Wait.{IsWaitInRange, SpellsWait, read_wait};

use crate::bad_mark::BadMark;
use crate::hold::{self, HoldForm};
use crate::mark::{self, MarkForm};
use crate::owner::{self, OwnerForm};
use crate::safe::{self, SafeForm};
use crate::wait::{self, WaitForm};

/// A word spells at most one mark.
pub fn marks_are_spelled_once()
    ensures { (f g : MarkForm) (word : ℕ) → SpellsMark f word → SpellsMark g word → f ≡ g }
{}

/// A word spells at most one owner.
pub fn owners_are_spelled_once()
    ensures { (f g : OwnerForm) (word : ℕ) → SpellsOwner f word → SpellsOwner g word → f ≡ g }
{}

/// A word spells at most one wait.
pub fn waits_are_spelled_once()
    ensures { (f g : WaitForm) (word : ℕ) → SpellsWait f word → SpellsWait g word → f ≡ g }
{}

/// A word spells at most one state of holds.
pub fn holds_are_spelled_once()
    ensures { (f g : HoldForm) (word : ℕ) → SpellsHold f word → SpellsHold g word → f ≡ g }
{}

/// A word spells at most one state of safepoints.
pub fn safepoints_are_spelled_once()
    ensures { (f g : SafeForm) (word : ℕ) → SpellsSafe f word → SpellsSafe g word → f ≡ g }
{}

/// A mark is read from a word exactly where the word spells it.
pub fn marks_are_read()
    ensures { (word : ℕ) (form : MarkForm) → (read_mark word ≡ Some form) ↔ SpellsMark form word }
{}

/// An owner is read from a word exactly where the word spells it.
pub fn owners_are_read()
    ensures { (word : ℕ) (form : OwnerForm) → (read_owner word ≡ Some form) ↔ SpellsOwner form word }
{}

/// A wait is read from a word exactly where the word spells it.
pub fn waits_are_read()
    ensures { (word : ℕ) (form : WaitForm) → (read_wait word ≡ Some form) ↔ SpellsWait form word }
{}

/// A state of holds is read from a word exactly where the word spells it.
pub fn holds_are_read()
    ensures { (word : ℕ) (form : HoldForm) → (read_hold word ≡ Some form) ↔ SpellsHold form word }
{}

/// A state of safepoints is read from a word exactly where the word spells it.
pub fn safepoints_are_read()
    ensures { (word : ℕ) (form : SafeForm) → (read_safe word ≡ Some form) ↔ SpellsSafe form word }
{}

/// A mark in range is read back from its word.
pub fn marks_are_read_back(form: &MarkForm) -> Result<MarkForm, BadMark>
    requires { IsMarkInRange form.now }
    ensures { result ≡ Ok form.now }
{
    mark::decode(mark::encode(form))
}

/// An owner in range is read back from its word.
pub fn owners_are_read_back(form: &OwnerForm) -> Result<OwnerForm, BadMark>
    requires { IsOwnerInRange form.now }
    ensures { result ≡ Ok form.now }
{
    owner::decode_owner(owner::encode_owner(form))
}

/// A wait in range is read back from its word.
pub fn waits_are_read_back(form: &WaitForm) -> Result<WaitForm, BadMark>
    requires { IsWaitInRange form.now }
    ensures { result ≡ Ok form.now }
{
    wait::decode_wait(wait::encode_wait(form))
}

/// A state of holds in range is read back from its word.
pub fn holds_are_read_back(form: &HoldForm) -> Result<HoldForm, BadMark>
    requires { IsHoldInRange form.now }
    ensures { result ≡ Ok form.now }
{
    hold::decode_hold(hold::encode_hold(form))
}

/// A state of safepoints in range is read back from its word.
pub fn safepoints_are_read_back(form: &SafeForm) -> Result<SafeForm, BadMark>
    requires { IsSafeInRange form.now }
    ensures { result ≡ Ok form.now }
{
    safe::decode_safe(safe::encode_safe(form))
}
