//! The word of a lock record: the same in the mark of a locked object and in a monitor's owner.

ghost use Rattle.std.specs.Prelude.{◌≡◌, ◌≢◌, ℕ, IfSome};
ghost use Rattle.mark_word.specs.Record.{IsRecord, record_of};

/// Step from one place of a lock record to the next: bits 3 to 8.
const PLACE: u64 = 1 << 3;
/// Step from one thread to the next: from bit 12.
const THREAD: u64 = 1 << 12;

/// The thread and the place of the lock record whose word this is, or none.
pub(crate) fn read_record(word: u64) -> Option<(u32, u32)>
    ensures found { IfSome result (λ r. IsRecord r.0 r.1 × (word ≡ record_of r.0 r.1)) }
    ensures none { result ≡ None → (thread place : ℕ) → IsRecord thread place → word ≢ record_of thread place }
{
    let raised = word / THREAD;
    let rest = word % THREAD;
    if rest % PLACE == 0 && rest / PLACE < 64 && 0 < raised && raised <= 32 {
        Some(((raised - 1) as u32, (rest / PLACE) as u32))
    } else {
        None
    }
}

/// The word of a lock record, whose thread is below 32 and whose place is below 64.
pub(crate) fn record_word(thread: u32, place: u32) -> u64
    requires { IsRecord thread place }
    ensures { result ≡ record_of thread place }
{
    (thread as u64 + 1) * THREAD + place as u64 * PLACE
}
