//! Safepoint words: what they say, and those that the steps leave.
ghost use Rattle.std.specs.Prelude.{◌≡◌, ◌^◌, ◌<◌, is_some, IfSome};
ghost use Rattle.plain_monitor.specs.Limits.{most_threads};
ghost use Rattle.mark_word.specs.Safe.{IsSafeInRange, read_safe};
ghost use Rattle.core_world.specs.Words.Forms.{requester_form, still_form};
ghost use Rattle.core_world.specs.Trees.SafepointSteps.{all_but, bar, running_too, requested_by};
ghost use Rattle.core_world.specs.Trees.SafepointSteps.{reached_word, released_word, halted_word};

use core_world::PendingCause;
use mark_word::{SafeForm, encode_safe};

/// Whether a thread asks for a safepoint.
pub fn has_requester(form: Option<SafeForm>) -> bool
    ensures { result ≡ is_some (requester_form form) }
{
    match form {
        None => false,
        Some(form) => form.requester.is_some(),
    }
}

/// Whether no thread runs.
pub fn is_still(form: Option<SafeForm>) -> bool
    ensures { result ≡ still_form form }
{
    match form {
        None => false,
        Some(form) => form.running == 0,
    }
}

/// What stands in the way of a resume, by the word of this form.
pub fn bar(word: u64, form: Option<SafeForm>) -> Option<PendingCause>
    requires { form ≡ read_safe word }
    ensures { result ≡ bar word }
{
    match form {
        None => None,
        Some(form) => {
            if form.halted {
                Some(PendingCause::Halted)
            } else if form.requester.is_some() {
                Some(PendingCause::Requested { word })
            } else {
                None
            }
        }
    }
}

/// The bit of a thread in the safepoint word.
pub fn bit(thread: u32) -> u64
    requires { thread < most_threads }
    ensures { result ≡ 2 ^ thread }
{
    1 << thread
}

/// All bits of the safepoint word but that of a thread.
pub fn all_but(thread: u32) -> u64
    requires { thread < most_threads }
    ensures { result ≡ all_but thread }
{
    u64::MAX - bit(thread)
}

/// The word of this form with the thread running too, which doesn't run in it: its bit is added.
pub fn running_too(word: u64, form: Option<SafeForm>, thread: u32) -> u64
    requires form { form ≡ read_safe word }
    requires thread { thread < most_threads }
    ensures { result ≡ running_too form thread }
{
    match form {
        None => 0,
        Some(_) => word + bit(thread),
    }
}

/// The word of this form with the request of a thread, which doesn't run in it.
pub fn requested_by(form: Option<SafeForm>, thread: u32) -> u64
    requires range { IfSome form IsSafeInRange }
    requires thread { thread < most_threads }
    ensures { result ≡ requested_by form thread }
{
    match form {
        None => 0,
        Some(form) => encode_safe(&SafeForm {
            running: form.running.saturating_sub(1 << thread),
            requester: Some(thread),
            halted: form.halted,
        }),
    }
}

/// The word at a thread's safepoint.
pub fn reached_word(thread: u32) -> u64
    requires { thread < most_threads }
    ensures { result ≡ reached_word thread }
{
    encode_safe(&SafeForm {
        running: 0,
        requester: Some(thread),
        halted: false,
    })
}

/// The word after it is released: the thread alone runs.
pub fn released_word(thread: u32) -> u64
    requires { thread < most_threads }
    ensures { result ≡ released_word thread }
{
    bit(thread)
}

/// The word after a halt.
pub fn halted_word() -> u64
    ensures { result ≡ halted_word }
{
    encode_safe(&SafeForm {
        running: 0,
        requester: None,
        halted: true,
    })
}
