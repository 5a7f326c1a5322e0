//! The words of a thread's holds on an object.

ghost use Rattle.std.specs.Prelude.{◌≡◌, IfOk, OnErr};
ghost use Rattle.mark_word.specs.Hold.{IsHoldInRange, hold_of, SpellsHold};

use crate::bad_mark::BadMark;

/// Step from one object to the next: from bit 7.
const OBJECT: u64 = 1 << 7;
/// The number of objects.
const OBJECTS: u64 = 1 << 15;

/// A thread's holds on an object.
#[derive(Clone, Copy, Debug, PartialEq, Eq)]
pub enum HoldForm {
    /// None.
    Empty,
    /// `depth` holds, 1 to 64, on the object, below 2^15.
    Holds { object: u32, depth: u32 },
}

/// The form that a word of holds spells. `BadMark` means that the word spells none.
pub fn decode_hold(word: u64) -> Result<HoldForm, BadMark>
    ensures found { IfOk result (λ form. SpellsHold form word) }
    ensures none { OnErr result ((form : HoldForm) → SpellsHold form word → ⊥) }
    ensures exact { (form : HoldForm) → SpellsHold form word → result ≡ Ok form }
{
    let depth = word % OBJECT;
    let raised = word / OBJECT;
    if word == 0 {
        Ok(HoldForm::Empty)
    } else if 0 < depth && depth <= 64 && 0 < raised && raised <= OBJECTS {
        Ok(HoldForm::Holds {
            object: (raised - 1) as u32,
            depth: depth as u32,
        })
    } else {
        Err(BadMark)
    }
}

/// The word that spells a form whose fields are in their ranges.
pub fn encode_hold(form: &HoldForm) -> u64
    requires { IsHoldInRange form.now }
    ensures { result ≡ hold_of form.now }
{
    match *form {
        HoldForm::Empty => 0,
        HoldForm::Holds { object, depth } => (object as u64 + 1) * OBJECT + depth as u64,
    }
}
