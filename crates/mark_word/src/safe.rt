//! The safepoint word: which threads run, who asked for a safepoint, and whether all are to halt.

ghost use Rattle.std.specs.Prelude.{◌≡◌, ◌+◌, ◌<◌, ◌≤◌, IfOk, OnErr, IfSome};
ghost use Rattle.mark_word.specs.Safe.{IsSafeInRange, requester_of, halt_of, safe_of, SpellsSafe};

use crate::bad_mark::BadMark;

/// Step from one requester to the next: bits 32 to 39.
const REQUESTER: u64 = 1 << 32;
/// The halt: bit 40.
const HALT: u64 = 1 << 40;

/// What the safepoint word says.
#[derive(Clone, Copy, Debug, PartialEq, Eq)]
pub struct SafeForm {
    /// The running threads, thread `t` at bit `t`.
    pub running: u32,
    /// The thread, below 32, that asked for a safepoint.
    pub requester: Option<u32>,
    /// Whether all threads are to halt.
    pub halted: bool,
}

/// The form that a safepoint word spells. `BadMark` means that the word spells none.
pub fn decode_safe(word: u64) -> Result<SafeForm, BadMark>
    ensures found { IfOk result (λ form. SpellsSafe form word) }
    ensures none { OnErr result ((form : SafeForm) → SpellsSafe form word → ⊥) }
    ensures exact { (form : SafeForm) → SpellsSafe form word → result ≡ Ok form }
{
    let raised = word % HALT / REQUESTER;
    let halt = word / HALT;
    if raised > 32 || halt > 1 {
        return Err(BadMark);
    }
    Ok(SafeForm {
        running: (word % REQUESTER) as u32,
        requester: decode_requester(raised as u32),
        halted: halt == 1,
    })
}

/// The requester of its field, where 0 is none.
fn decode_requester(raised: u32) -> Option<u32>
    requires { raised ≤ 32 }
    ensures range { IfSome result (λ thread. thread < 32) }
    ensures value { requester_of result ≡ raised }
{
    if raised == 0 { None } else { Some(raised - 1) }
}

/// The word that spells a form whose requester is below 32.
pub fn encode_safe(form: &SafeForm) -> u64
    requires { IsSafeInRange form.now }
    ensures { result ≡ safe_of form.now }
{
    let requester = encode_requester(form.requester);
    let halt = if form.halted { HALT } else { 0 };
    form.running as u64 + requester * REQUESTER + halt
}

/// The field of a requester below 32, where none is 0.
fn encode_requester(requester: Option<u32>) -> u64
    requires { IfSome requester (λ thread. thread < 32) }
    ensures range { result ≤ 32 }
    ensures value { result ≡ requester_of requester }
{
    match requester {
        None => 0,
        Some(thread) => thread as u64 + 1,
    }
}
