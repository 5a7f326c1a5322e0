//! The words of a monitor's owner.

ghost use Rattle.std.specs.Prelude.{◌≡◌, ◌%◌, IfOk, OnErr};
ghost use Rattle.mark_word.specs.Owner.{IsOwnerInRange, owner_of, SpellsOwner};

use crate::bad_mark::BadMark;
use crate::record::{read_record, record_word};

/// Step from one owning thread to the next: from bit 3.
const THREAD: u64 = 1 << 3;

/// Who owns a monitor.
#[derive(Clone, Copy, Debug, PartialEq, Eq)]
pub enum OwnerForm {
    /// Nobody.
    Free,
    /// The thread with this number, below 32.
    ByThread { thread: u32 },
    /// The thread of this lock record, which locked the object before it was inflated. `thread` is below 32 and `place`
    /// below 64.
    ByRecord { thread: u32, place: u32 },
}

/// The form that an owner's word spells. `BadMark` means that the word spells none.
pub fn decode_owner(word: u64) -> Result<OwnerForm, BadMark>
    ensures found { IfOk result (λ form. SpellsOwner form word) }
    ensures none { OnErr result ((form : OwnerForm) → SpellsOwner form word → ⊥) }
    ensures exact { (form : OwnerForm) → SpellsOwner form word → result ≡ Ok form }
{
    match word % 8 {
        0b000 => decode_record(word),
        0b001 => decode_thread(word),
        _ => Err(BadMark),
    }
}

/// The form of a word whose low bits are 000.
fn decode_record(word: u64) -> Result<OwnerForm, BadMark>
    requires { word % 8 ≡ 0 }
    ensures found { IfOk result (λ form. SpellsOwner form word) }
    ensures none { OnErr result ((form : OwnerForm) → SpellsOwner form word → ⊥) }
{
    match read_record(word) {
        Some((thread, place)) => Ok(OwnerForm::ByRecord { thread, place }),
        None if word == 0 => Ok(OwnerForm::Free),
        None => Err(BadMark),
    }
}

/// The form of a word whose low bits are 001.
fn decode_thread(word: u64) -> Result<OwnerForm, BadMark>
    requires { word % 8 ≡ 1 }
    ensures found { IfOk result (λ form. SpellsOwner form word) }
    ensures none { OnErr result ((form : OwnerForm) → SpellsOwner form word → ⊥) }
{
    let raised = word / THREAD;
    if 0 < raised && raised <= 32 {
        Ok(OwnerForm::ByThread {
            thread: (raised - 1) as u32,
        })
    } else {
        Err(BadMark)
    }
}

/// The word that spells a form whose fields are in their ranges.
pub fn encode_owner(form: &OwnerForm) -> u64
    requires { IsOwnerInRange form.now }
    ensures { result ≡ owner_of form.now }
{
    match *form {
        OwnerForm::Free => 0,
        OwnerForm::ByThread { thread } => (thread as u64 + 1) * THREAD + 0b001,
        OwnerForm::ByRecord { thread, place } => record_word(thread, place),
    }
}
