//! The words of what a thread waits for.

ghost use Rattle.std.specs.Prelude.{◌≡◌, ◌%◌, IfOk, OnErr};
ghost use Rattle.mark_word.specs.Wait.{IsWaitInRange, wait_of, SpellsWait};

use crate::bad_mark::BadMark;

/// Step from one object to the next: bits 3 to 17.
const OBJECT: u64 = 1 << 3;
/// Step from one stamp to the next: from bit 18.
const STAMP: u64 = 1 << 18;
/// One past the last object.
const OBJECTS: u64 = 1 << 15;

/// What a thread waits for.
#[derive(Clone, Copy, Debug, PartialEq, Eq)]
pub enum WaitForm {
    /// Nothing.
    Ready,
    /// To enter the object's monitor. `object` is below 2^15.
    Entering { object: u32 },
    /// To be notified, since the wait with this stamp. `object` is below 2^15 and `stamp` below 2^46.
    Waiting { object: u32, stamp: u64 },
    /// It was notified, and is to have the monitor again. `object` is below 2^15.
    Notified { object: u32 },
    /// Nothing any more: the thread ended.
    Ended,
}

/// The form that a thread's wait word spells. `BadMark` means that the word spells none.
pub fn decode_wait(word: u64) -> Result<WaitForm, BadMark>
    ensures found { IfOk result (λ form. SpellsWait form word) }
    ensures none { OnErr result ((form : WaitForm) → SpellsWait form word → ⊥) }
    ensures exact { (form : WaitForm) → SpellsWait form word → result ≡ Ok form }
{
    match word % 8 {
        0b000 => decode_ready(word),
        0b001 => decode_entering(word),
        0b010 => Ok(decode_waiting(word)),
        0b011 => decode_notified(word),
        0b100 => decode_ended(word),
        _ => Err(BadMark),
    }
}

/// The form of a word whose low bits are 000.
fn decode_ready(word: u64) -> Result<WaitForm, BadMark>
    requires { word % 8 ≡ 0 }
    ensures found { IfOk result (λ form. SpellsWait form word) }
    ensures none { OnErr result ((form : WaitForm) → SpellsWait form word → ⊥) }
{
    if word == 0 {
        Ok(WaitForm::Ready)
    } else {
        Err(BadMark)
    }
}

/// The form of a word whose low bits are 001.
fn decode_entering(word: u64) -> Result<WaitForm, BadMark>
    requires { word % 8 ≡ 1 }
    ensures found { IfOk result (λ form. SpellsWait form word) }
    ensures none { OnErr result ((form : WaitForm) → SpellsWait form word → ⊥) }
{
    let object = word / OBJECT;
    if object < OBJECTS {
        Ok(WaitForm::Entering {
            object: object as u32,
        })
    } else {
        Err(BadMark)
    }
}

/// The form of a word whose low bits are 010, each of which spells one.
fn decode_waiting(word: u64) -> WaitForm
    requires { word % 8 ≡ 2 }
    ensures { SpellsWait result word }
{
    let object = word % STAMP / OBJECT;
    WaitForm::Waiting {
        object: object as u32,
        stamp: word / STAMP,
    }
}

/// The form of a word whose low bits are 011.
fn decode_notified(word: u64) -> Result<WaitForm, BadMark>
    requires { word % 8 ≡ 3 }
    ensures found { IfOk result (λ form. SpellsWait form word) }
    ensures none { OnErr result ((form : WaitForm) → SpellsWait form word → ⊥) }
{
    let object = word / OBJECT;
    if object < OBJECTS {
        Ok(WaitForm::Notified {
            object: object as u32,
        })
    } else {
        Err(BadMark)
    }
}

/// The form of a word whose low bits are 100.
fn decode_ended(word: u64) -> Result<WaitForm, BadMark>
    requires { word % 8 ≡ 4 }
    ensures found { IfOk result (λ form. SpellsWait form word) }
    ensures none { OnErr result ((form : WaitForm) → SpellsWait form word → ⊥) }
{
    if word == 4 {
        Ok(WaitForm::Ended)
    } else {
        Err(BadMark)
    }
}

/// The word that spells a form whose fields are in their ranges.
pub fn encode_wait(form: &WaitForm) -> u64
    requires { IsWaitInRange form.now }
    ensures { result ≡ wait_of form.now }
{
    match *form {
        WaitForm::Ready => 0,
        WaitForm::Entering { object } => object as u64 * OBJECT + 0b001,
        WaitForm::Waiting { object, stamp } => stamp * STAMP + object as u64 * OBJECT + 0b010,
        WaitForm::Notified { object } => object as u64 * OBJECT + 0b011,
        WaitForm::Ended => 4,
    }
}
