//! The words that a heap's slots hold for values.

ghost use Rattle.std.specs.Prelude.{◌≡◌, ℕ, ◌↔◌, Some, IfOk, OnErr};
ghost use Rattle.plain_monitor.specs.ValueWords.{IsSpellable, SpellsValue, read_value, word_of};

use crate::entry::Value;
use crate::refusal::BadWord;

/// Step from one number or object to the next. The two bits below say what the value is.
const STEP: u64 = 1 << 2;
/// One past the last object.
const OBJECTS: u64 = 1 << 15;

/// The word of a value in its range: a number from -2^61 to 2^61 - 1, or an object below 2^15.
pub fn value_word(value: &Value) -> u64
    requires { IsSpellable value.now }
    ensures { SpellsValue value.now result }
{
    match *value {
        Value::Nil => 0,
        Value::Int(number) => (number - Value::LEAST) as u64 * STEP + 0b01,
        Value::Ref(object) => object as u64 * STEP + 0b10,
    }
}

/// The value whose word this is.
///
/// # Errors
///
/// `BadWord` exactly where it is the word of no value in its range.
pub fn word_value(word: u64) -> Result<Value, BadWord>
    ensures found { IfOk result (λ value. SpellsValue value word) }
    ensures none { OnErr result ((value : Value) → SpellsValue value word → ⊥) }
    ensures exact { (value : Value) → SpellsValue value word → result ≡ Ok value }
{
    match word % STEP {
        0b00 if word == 0 => Ok(Value::Nil),
        0b01 => Ok(Value::Int((word / STEP) as i64 + Value::LEAST)),
        0b10 if word / STEP < OBJECTS => Ok(Value::Ref((word / STEP) as u32)),
        _ => Err(BadWord),
    }
}

/// A value in its range is read back from its word.
pub fn values_are_read_back(value: &Value) -> Result<Value, BadWord>
    requires { IsSpellable value.now }
    ensures { result ≡ Ok value.now }
{
    word_value(value_word(value))
}

/// A word is that of at most one value, and a value has at most one word.
pub fn values_are_spelled_once()
    ensures value { (u v : Value) (word : ℕ) → SpellsValue u word → SpellsValue v word → u ≡ v }
    ensures word { (value : Value) (v w : ℕ) → SpellsValue value v → SpellsValue value w → v ≡ w }
{}

/// A value is read from a word exactly where the word spells it, and a value in its range has a word.
pub fn values_are_read()
    ensures reads { (word : ℕ) (v : Value) → (read_value word ≡ Some v) ↔ SpellsValue v word }
    ensures words { (v : Value) → IsSpellable v → SpellsValue v (word_of v) }
{}
