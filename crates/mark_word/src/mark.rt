//! Mark words: an object's header, as `markOop.hpp` of OpenJDK 8 lays it out in 64 bits.

ghost use Rattle.std.specs.Prelude.{◌≡◌, ℕ, ◌/◌, ◌%◌, ◌^◌, ◌<◌, ◌↔◌, IfOk, OnErr, IsTrue};
ghost use Rattle.mark_word.specs.Mark.{IsMarkInRange, mark_of, SpellsMark, IsBiasForm};
ghost use Rattle.mark_word.specs.inner.Mark.{IsNeutralForm};

use crate::bad_mark::BadMark;
use crate::record::{read_record, record_word};

/// Step from one age to the next: bits 3 to 6.
const AGE: u64 = 1 << 3;
/// Step from one epoch or hash to the next: from bit 8.
const EPOCH: u64 = 1 << 8;
/// Step from one biased thread to the next: from bit 10.
const BIASED_THREAD: u64 = 1 << 10;
/// Step from one monitor to the next: from bit 3.
const MONITOR: u64 = 1 << 3;

/// What an object's mark word says.
#[derive(Clone, Copy, Debug, PartialEq, Eq)]
pub enum MarkForm {
    /// A thread is inflating the object's monitor.
    Inflating,
    /// Unlocked. `hash` is below 2^31, where 0 means that there is none yet, and `age` is below 16.
    Neutral { hash: u32, age: u8 },
    /// Biasable, and biased to no thread. `epoch` is below 4 and `age` below 16.
    Anonymous { epoch: u8, age: u8 },
    /// Biased to the thread. `thread` is below 32, `epoch` below 4 and `age` below 16.
    Biased { thread: u32, epoch: u8, age: u8 },
    /// Locked by the thread's lock record at this place. `thread` is below 32 and `place` below 64.
    Locked { thread: u32, place: u32 },
    /// The monitor with this number, below 2^20, has the object's state.
    Inflated { monitor: u32 },
    /// Marked by the garbage collector.
    Marked,
}

/// The form that a mark word spells. `BadMark` means that the word spells none.
pub fn decode(word: u64) -> Result<MarkForm, BadMark>
    ensures found { IfOk result (λ form. SpellsMark form word) }
    ensures none { OnErr result ((form : MarkForm) → SpellsMark form word → ⊥) }
    ensures exact { (form : MarkForm) → SpellsMark form word → result ≡ Ok form }
{
    match word % 8 {
        0b000 => decode_locked(word),
        0b001 => decode_neutral(word),
        0b010 => decode_inflated(word),
        0b011 => decode_marked(word),
        0b101 => decode_biased(word),
        _ => Err(BadMark),
    }
}

/// The form of a word whose low bits are 000.
fn decode_locked(word: u64) -> Result<MarkForm, BadMark>
    requires { word % 8 ≡ 0 }
    ensures found { IfOk result (λ form. SpellsMark form word) }
    ensures none { OnErr result ((form : MarkForm) → SpellsMark form word → ⊥) }
{
    match read_record(word) {
        Some((thread, place)) => Ok(MarkForm::Locked { thread, place }),
        None if word == 0 => Ok(MarkForm::Inflating),
        None => Err(BadMark),
    }
}

/// The form of a word whose low bits are 001.
fn decode_neutral(word: u64) -> Result<MarkForm, BadMark>
    requires { word % 8 ≡ 1 }
    ensures found { IfOk result (λ form. SpellsMark form word) }
    ensures none { OnErr result ((form : MarkForm) → SpellsMark form word → ⊥) }
{
    let age = word % EPOCH / AGE;
    let hash = word / EPOCH;
    if age < 16 && hash <= 0x7FFF_FFFF {
        Ok(MarkForm::Neutral {
            hash: hash as u32,
            age: age as u8,
        })
    } else {
        Err(BadMark)
    }
}

/// The form of a word whose low bits are 010.
fn decode_inflated(word: u64) -> Result<MarkForm, BadMark>
    requires { word % 8 ≡ 2 }
    ensures found { IfOk result (λ form. SpellsMark form word) }
    ensures none { OnErr result ((form : MarkForm) → SpellsMark form word → ⊥) }
{
    let raised = word / MONITOR;
    if 0 < raised && raised <= 1 << 20 {
        Ok(MarkForm::Inflated {
            monitor: (raised - 1) as u32,
        })
    } else {
        Err(BadMark)
    }
}

/// The form of a word whose low bits are 011.
fn decode_marked(word: u64) -> Result<MarkForm, BadMark>
    requires { word % 8 ≡ 3 }
    ensures found { IfOk result (λ form. SpellsMark form word) }
    ensures none { OnErr result ((form : MarkForm) → SpellsMark form word → ⊥) }
{
    if word == 3 {
        Ok(MarkForm::Marked)
    } else {
        Err(BadMark)
    }
}

/// The form of a word whose low bits are 101, the bias pattern.
fn decode_biased(word: u64) -> Result<MarkForm, BadMark>
    requires { word % 8 ≡ 5 }
    ensures found { IfOk result (λ form. SpellsMark form word) }
    ensures none { OnErr result ((form : MarkForm) → SpellsMark form word → ⊥) }
{
    let age = word % EPOCH / AGE;
    let epoch = epoch_of(word);
    let raised = word / BIASED_THREAD;
    if age >= 16 || raised > 32 {
        Err(BadMark)
    } else if raised == 0 {
        Ok(MarkForm::Anonymous {
            epoch,
            age: age as u8,
        })
    } else {
        Ok(MarkForm::Biased {
            thread: (raised - 1) as u32,
            epoch,
            age: age as u8,
        })
    }
}

/// The word that spells a form whose fields are in their ranges.
#[inline(always)]
pub fn encode(form: &MarkForm) -> u64
    requires { IsMarkInRange form.now }
    ensures { result ≡ mark_of form.now }
{
    match *form {
        MarkForm::Inflating => 0,
        MarkForm::Neutral { hash, age } => hash as u64 * EPOCH + age as u64 * AGE + 0b001,
        MarkForm::Anonymous { epoch, age } => epoch as u64 * EPOCH + age as u64 * AGE + 0b101,
        MarkForm::Biased { thread, epoch, age } => {
            (thread as u64 + 1) * BIASED_THREAD + epoch as u64 * EPOCH + age as u64 * AGE + 0b101
        }
        MarkForm::Locked { thread, place } => record_word(thread, place),
        MarkForm::Inflated { monitor } => (monitor as u64 + 1) * MONITOR + 0b010,
        MarkForm::Marked => 3,
    }
}

/// Whether the word has the bias pattern: its low three bits are 101. Of the words that spell a form, these are the biased
/// ones, to a thread or to none.
pub fn has_bias_pattern(word: u64) -> bool
    ensures pattern { IsTrue result ↔ (word % 8 ≡ 5) }
    ensures forms { (form : MarkForm) → SpellsMark form word → IsTrue result ↔ IsBiasForm form }
{
    word % 8 == 0b101
}

/// The epoch of a word that spells a biased form, to a thread or to none. Of any other word, the number in the same bits.
pub fn epoch_of(word: u64) -> u8
    ensures bits { result ≡ word / 256 % 4 }
    ensures anonymous { (epoch age : ℕ) → SpellsMark (MarkForm.Anonymous epoch age) word → result ≡ epoch }
    ensures biased { (thread epoch age : ℕ) → SpellsMark (MarkForm.Biased thread epoch age) word → result ≡ epoch }
{
    (word / EPOCH % 4) as u8
}

/// Whether the word spells a neutral form.
pub fn is_neutral(word: u64) -> bool
    ensures { IsTrue result ↔ ((hash : ℕ) × ((age : ℕ) × SpellsMark (MarkForm.Neutral hash age) word)) }
{
    match decode(word) {
        Ok(form) => is_neutral_form(form),
        Err(BadMark) => false,
    }
}

/// Whether the form is neutral.
fn is_neutral_form(form: MarkForm) -> bool
    ensures { IsTrue result ↔ IsNeutralForm form }
{
    matches!(form, MarkForm::Neutral { .. })
}

/// The neutral word of age 0 with this hash, below 2^31. The neutral prototype is that of hash 0.
pub fn neutral(hash: u32) -> u64
    requires { hash < 2 ^ 31 }
    ensures { SpellsMark (MarkForm.Neutral hash 0) result }
{
    hash as u64 * EPOCH + 0b001
}

/// The biased prototype of an epoch, below 4: the word of age 0 that is biased to no thread.
pub fn biased_prototype(epoch: u8) -> u64
    requires { epoch < 4 }
    ensures { SpellsMark (MarkForm.Anonymous epoch 0) result }
{
    epoch as u64 * EPOCH + 0b101
}
