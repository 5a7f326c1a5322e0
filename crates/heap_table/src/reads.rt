//! What words say, as the definitions read them.
ghost use Rattle.std.specs.Prelude.{◌≡◌, ◌≢◌, ℕ, ◌+◌, ◌*◌, ◌<◌, ◌≤◌, ◌^◌, nat_lt, true, None, Some};
ghost use Rattle.heap_table.specs.Own.{IsOwn};
ghost use Rattle.heap_table.specs.inner.Prototypes.{IsPrototypeForm};
ghost use Rattle.mark_word.specs.Hold.{read_hold};
ghost use Rattle.mark_word.specs.Mark.{read_mark};
ghost use Rattle.mark_word.specs.Safe.{read_safe};
ghost use Rattle.plain_monitor.specs.ValueWords.{read_value};
ghost use Rattle.mark_word.specs.Owner.{read_owner};
ghost use Rattle.mark_word.specs.Wait.{read_wait};
ghost use Rattle.core_world.specs.Words.Forms.{epoch_in, hash_in, is_biased, is_halted};
ghost use Rattle.core_world.specs.Trees.Operations.{value_found};

use mark_word::{
    HoldForm, MarkForm, OwnerForm, SafeForm, WaitForm, decode, decode_hold, decode_owner,
    decode_safe, decode_wait,
};
use plain_monitor::{Value, word_value};

/// Words below this have no other bits than those of running threads.
const RUNNING_BITS_END: u64 = 1 << 32;

/// What a mark says.
#[inline(always)]
pub fn mark_of_word(word: u64) -> Option<MarkForm>
    ensures { result ≡ read_mark word }
{
    decode(word).ok()
}

/// Whether a mark has the bias pattern: it is biased, to a thread or to none.
#[inline(always)]
#[tactic(auto, using(crate::proofs::BiasPattern::bias_by_bits))]
pub fn is_biased(mark: u64) -> bool
    ensures { result ≡ is_biased mark }
{
    // The low bits are 101, the age is below 16, and the thread, where there is one, is below 32 and raised by one.
    let low = mark % 8;
    let age = mark / 8 % 32;
    (low == 0b101) & (age < 16) & (mark / 1024 < 33)
}

/// Whether a mark that says something has the bias pattern: then its low bits alone tell.
#[inline(always)]
#[tactic(auto, using(crate::proofs::LowBits::biased_by_low))]
pub(crate) fn has_bias_bits(mark: u64) -> bool
    requires { read_mark mark ≢ None }
    ensures { result ≡ is_biased mark }
{
    mark % 8 == 0b101
}

/// What a mark says that says something: then few of its bits tell.
#[inline(always)]
pub(crate) fn form_of(word: u64) -> MarkForm
    requires { read_mark word ≢ None }
    ensures { Some result ≡ read_mark word }
{
    if word % 4 == 2 {
        return MarkForm::Inflated {
            monitor: (word / 8 - 1) as u32,
        };
    }
    if word % 4 == 0 {
        if word == 0 {
            return MarkForm::Inflating;
        }
        return MarkForm::Locked {
            thread: (word / 4096 - 1) as u32,
            place: (word / 8 % 512) as u32,
        };
    }
    let age = (word / 8 % 32) as u8;
    if word % 8 == 1 {
        return MarkForm::Neutral {
            hash: (word / 256) as u32,
            age,
        };
    }
    if word % 8 == 3 {
        return MarkForm::Marked;
    }
    let epoch = (word / 256 % 4) as u8;
    if word / 1024 == 0 {
        return MarkForm::Anonymous { epoch, age };
    }
    MarkForm::Biased {
        thread: (word / 1024 - 1) as u32,
        epoch,
        age,
    }
}

/// Whether this mark, which has the bias pattern, is a bias to the thread that is valid by the prototype. Where it isn't said, it may be one
/// still: then it is found by what the words say.
#[inline(always)]
pub fn is_own(mark: u64, prototype: u64, thread: u32) -> bool
    requires biased { is_biased mark ≡ true }
    requires few { thread < 16 }
    ensures { result ≡ true → IsOwn mark prototype thread }
{
    let low = prototype % 8;
    let age = prototype / 8 % 32;
    let raised = prototype / 1024;
    let own = prototype / 256 + (thread as u64 + 1) * 4;
    if low == 5 {
        if age < 16 {
            if raised == 0 {
                return mark / 256 == own;
            }
        }
    }
    false
}

/// `is_own` by one sum, for a prototype: a thread's own bits stand above those of the prototype, in a mark that is biased to it.
#[inline(always)]
pub(crate) fn is_own_by_sum(mark: u64, prototype: u64, own_bits: u64) -> bool
    requires biased { is_biased mark ≡ true }
    requires prototype { IsPrototypeForm (read_mark prototype) }
    requires few { own_bits ≤ 2 ^ 14 }
    ensures { result ≡ true → (thread : ℕ) → own_bits ≡ (thread + 1) * 1024 → IsOwn mark prototype thread }
{
    mark == prototype + own_bits
}

/// The epoch of a prototype, where it is biased, which it is to no thread.
#[inline(always)]
pub fn class_epoch(prototype: u64) -> Option<u8>
    ensures { result ≡ epoch_in prototype }
{
    match mark_of_word(prototype) {
        Some(form) => match form {
            MarkForm::Anonymous { epoch, .. } => Some(epoch),
            _ => None,
        },
        None => None,
    }
}

/// Who owns a monitor, by its owner word.
#[inline(always)]
pub fn owner_of_word(word: u64) -> Option<OwnerForm>
    ensures { result ≡ read_owner word }
{
    decode_owner(word).ok()
}

/// What a waiting word says.
pub fn wait_of_word(word: u64) -> Option<WaitForm>
    ensures { result ≡ read_wait word }
{
    decode_wait(word).ok()
}

fn value_read(word: u64) -> Option<Value>
    ensures { result ≡ read_value word }
{
    word_value(word).ok()
}

/// What a hold word says.
#[inline(always)]
pub fn hold_of_word(word: u64) -> Option<HoldForm>
    ensures { result ≡ read_hold word }
{
    decode_hold(word).ok()
}

/// Whether a safepoint word has running bits alone: nobody asks by it, and it has no halt.
#[inline(always)]
pub(crate) fn has_running_bits_alone(word: u64) -> bool
    ensures { result ≡ nat_lt word (2 ^ 32) }
{
    word < RUNNING_BITS_END
}

/// What the safepoint word says. Mostly it has running bits alone, and these are tested first.
#[inline(always)]
pub fn safe_of_word(word: u64) -> Option<SafeForm>
    ensures { result ≡ read_safe word }
{
    if has_running_bits_alone(word) {
        return Some(SafeForm {
            running: word as u32,
            requester: None,
            halted: false,
        });
    }
    decode_safe(word).ok()
}

/// The value of a slot's word.
pub fn value_of_word(word: u64) -> Value
    ensures { result ≡ value_found (read_value word) }
{
    match value_read(word) {
        Some(value) => value,
        None => Value::Nil,
    }
}

/// The hash of a neutral header, or 0.
pub fn hash_of_word(word: u64) -> u32
    ensures { result ≡ hash_in word }
{
    match mark_of_word(word) {
        Some(MarkForm::Neutral { hash, .. }) => hash,
        _ => 0,
    }
}

/// Whether the safepoint word has the halt.
pub fn is_halted(word: u64) -> bool
    ensures { result ≡ is_halted word }
{
    match safe_of_word(word) {
        None => false,
        Some(form) => form.halted,
    }
}
