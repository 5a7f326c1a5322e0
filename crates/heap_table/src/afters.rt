//! What a step makes of the parts of its thread's knowledge that a pass keeps.
ghost use Rattle.std.specs.Prelude.{◌≡◌, ◌+◌, ◌^◌, ◌<◌, ◌≤◌, ℕ, true, List, [], ◌∷◌, ◌++◌, vec_capacity, vec_len};
ghost use Rattle.plain_monitor.specs.declared.entry.Logged.{Logged as LoggedSeen};
ghost use Rattle.mark_word.specs.Safe.{read_safe};
ghost use Rattle.core_world.specs.Threads.ThreadView.{ThreadView};
ghost use Rattle.core_world.specs.Steps.{kept_after, saved_after, unfinished_after, runs_after, asks_after, reached_after, halted_after, is_taking, stamp_by, holds_after, wait_after, published_after, log_after};
ghost use Rattle.plain_monitor.specs.Limits.{most_threads};
ghost use Rattle.plain_monitor.specs.Monitor.{is_thread};
ghost use Rattle.plain_monitor.specs.History.{last_stamp};
ghost use Rattle.heap_table.specs.Kept.{LogHasRoom, IsPageFrom, limit_by};
ghost use Rattle.heap_table.specs.LogEnds.{end_by};
ghost use Rattle.heap_table.specs.inner.Kept.{StampFits, entry_after, looked, left, stand_after};
ghost use Rattle.heap_table.specs.inner.Layout.{IsPlaced};

use crate::holds::Holds;
use crate::reads::{has_running_bits_alone, hash_of_word, safe_of_word, value_of_word};
use core_world::{Act, LocalEffect, LogEffect, Unfinished, WordId};
use mark_word::SafeForm;
use plain_monitor::{Entry, Logged};

/// What a thread knows of the safepoint word.
#[derive(Clone, Copy)]
pub struct Stand {
    pub running: bool,
    pub requesting: bool,
    pub reached: bool,
    pub halted: bool,
}

/// Keeps the monitor found, or none any more, as the step says.
#[inline(always)]
pub fn keep_next(kept: &mut Option<u64>, own: &LocalEffect, found: u64)
    ensures { kept.new ≡ kept_after own.now found kept.old }
{
    match *own {
        LocalEffect::Claim => *kept = Some(found),
        LocalEffect::DropClaim => *kept = None,
        _ => {}
    }
}

/// The recursions that the thread has saved after a step that hit and found this word.
#[inline(always)]
pub fn saved_next(own: &LocalEffect, found: u64, saved: u64) -> u64
    ensures { result ≡ saved_after own.now found saved }
{
    match *own {
        LocalEffect::SaveRecursions => found,
        _ => saved,
    }
}

/// The entry that such a step logs, if it logs one, where it found this word.
#[inline(always)]
pub fn entry_next(note: &LogEffect, found: u64) -> Option<Entry>
    ensures { result ≡ entry_after note.now found }
{
    match *note {
        LogEffect::Quiet => None,
        LogEffect::Log { entry } => Some(entry),
        LogEffect::LogGet { object, slot } => Some(Entry::Get {
            object,
            slot,
            value: value_of_word(found),
        }),
        LogEffect::LogHash { object } => {
            let value = hash_of_word(found);
            if value == 0 {
                None
            } else {
                Some(Entry::Hash {
                    object,
                    value,
                    drawn: None,
                })
            }
        }
    }
}

/// The operation that is unfinished after the step: a hash that is found ends its own.
#[inline(always)]
pub fn unfinished_next(
    note: &LogEffect,
    found: u64,
    after: Option<Unfinished>,
) -> Option<Unfinished>
    ensures { result ≡ unfinished_after note.now found after }
{
    match *note {
        LogEffect::LogHash { object: _ } => if hash_of_word(found) == 0 {
            after
        } else {
            None
        },
        _ => after,
    }
}

/// The stamp of an entry, by the word found and the log's last stamp.
#[inline(always)]
pub fn stamp_next(entry: &Entry, found: u64, last: u64) -> u64
    requires { stamp_by entry.now found last < 18446744073709551616 }
    ensures { result ≡ stamp_by entry.now found last }
{
    match *entry {
        Entry::Enter { object: _, path: _ } => found.max(last) + 1,
        Entry::Resume { object: _ } => found.max(last) + 1,
        _ => last + 1,
    }
}

/// What the thread knows of the safepoint word after it loaded this.
#[inline(always)]
fn looked_next(form: Option<SafeForm>, stand: Stand) -> Stand
    ensures { result ≡ looked form stand }
{
    match form {
        None => stand,
        Some(form) => Stand {
            running: stand.running,
            requesting: stand.requesting,
            reached: stand.reached || (stand.requesting && form.running == 0),
            halted: stand.halted || form.halted,
        },
    }
}

// Follows what the thread knows after a load that found this word: a function of its own, so that the hot way stays small.
#[cold]
#[inline(never)]
fn look_closely(word: u64, stand: &mut Stand)
    ensures { stand.new ≡ looked (read_safe word) stand.old }
{
    *stand = looked_next(safe_of_word(word), *stand);
}

/// Follows what the thread knows after a load that found this word. One with running bits alone tells nothing new to a thread that asks for no safepoint: then nothing is written.
#[inline(always)]
#[tactic(auto, using(crate::proofs::Idling::looked_idle))]
pub fn looked_at(word: u64, stand: &mut Stand)
    ensures { stand.new ≡ looked (read_safe word) stand.old }
{
    if has_running_bits_alone(word) && !stand.requesting {
        return;
    }
    look_closely(word, stand);
}

#[inline(always)]
fn asks(form: &SafeForm, thread: u32) -> bool
    ensures { result ≡ is_thread form.now.requester thread }
{
    match form.requester {
        None => false,
        Some(requester) => requester == thread,
    }
}

/// What the thread knows of the safepoint word after it left this there.
#[inline(always)]
fn left_next(form: Option<SafeForm>, thread: u32, stand: Stand) -> Stand
    requires { thread < most_threads }
    ensures { result ≡ left form thread stand }
{
    match form {
        None => Stand {
            running: false,
            requesting: false,
            reached: false,
            halted: stand.halted,
        },
        Some(form) => {
            let asks = asks(&form, thread);
            Stand {
                running: (form.running >> thread) & 1 == 1,
                requesting: asks,
                reached: stand.reached && asks,
                halted: stand.halted || form.halted,
            }
        }
    }
}

/// Follows what the thread knows of the safepoint word, after an act that hit and left this word.
#[inline(always)]
pub fn stand_next(at: WordId, act: &Act, word: u64, thread: u32, stand: &mut Stand)
    requires { thread < most_threads }
    ensures { stand.new ≡ stand_after at act.now word thread stand.old }
{
    match at {
        WordId::Safepoint => match *act {
            Act::Load => looked_at(word, stand),
            _ => *stand = left_next(safe_of_word(word), thread, *stand),
        },
        _ => {}
    }
}

/// Whether the thread knows of the halt, after an exchange that found this word and missed.
#[inline(always)]
pub fn halted_next(at: WordId, word: u64, halted: bool) -> bool
    ensures { (k : ThreadView) → k.halted ≡ halted → result ≡ halted_after at word k }
{
    match at {
        WordId::Safepoint => match safe_of_word(word) {
            None => halted,
            Some(form) => halted || form.halted,
        },
        _ => halted,
    }
}

/// What the thread last stored in its waiting word, after this act.
#[inline(always)]
pub fn wait_next(at: WordId, act: &Act, thread: u32, wait: u64) -> u64
    ensures { (k : ThreadView) → k.thread ≡ thread → k.wait ≡ wait → result ≡ wait_after at act.now k }
{
    match at {
        WordId::Waiting { thread: of } => match *act {
            Act::Store { word } if of == thread => word,
            _ => wait,
        },
        _ => wait,
    }
}

/// What the thread last stored in its length word, after this act.
#[inline(always)]
pub fn published_next(at: WordId, act: &Act, published: u64) -> u64
    ensures { (k : ThreadView) → k.published ≡ published → result ≡ published_after at act.now k }
{
    match at {
        WordId::Length { thread: _ } => match *act {
            Act::Store { word } => word,
            _ => published,
        },
        _ => published,
    }
}

/// Follows what the thread last stored in its hold words.
#[inline(always)]
pub fn store_hold(holds: &mut Holds, at: WordId, act: &Act)
    requires { IsPlaced at }
    ensures { (k : ThreadView) → k.holds ≡ holds.old.words → holds.new.words ≡ holds_after at act.now k }
{
    if let WordId::Hold { thread: _, place } = at {
        if let Act::Store { word } = *act {
            holds.store(place, word);
        }
    }
}

// Adds the entry to the page of the log, or passes it over where none are kept. The log has one more of them.
#[inline(always)]
fn keep_entry(keeps: bool, given: &mut u64, length: &mut u64, log: &mut Vec<Logged>, logged: Logged)
    requires room { keeps ≡ true → vec_len log.old < vec_capacity log.old }
    requires few { given.old + 1 < 2 ^ 42 }
    requires short { length.old + 1 < 2 ^ 64 }
    ensures log { (all : List LoggedSeen) → IsPageFrom keeps given.old all log.old.items
        → IsPageFrom keeps given.new (all ++ logged ∷ []) log.new.items }
    ensures room { vec_capacity log.new ≡ vec_capacity log.old }
    ensures within { (limit : ℕ) → (keeps ≡ true → vec_len log.old < limit) → vec_len log.old ≤ limit → vec_len log.new ≤ limit }
    ensures few { given.new < 2 ^ 42 }
    ensures limit { (room : ℕ) → limit_by keeps given.new room ≡ limit_by keeps given.old room }
    ensures end { (room : ℕ) → end_by keeps given.new room ≡ end_by keeps given.old room }
    ensures length { length.new ≡ length.old + 1 }
    ensures whole { given.new + vec_len log.new ≡ given.old + vec_len log.old + 1 }
{
    if keeps {
        log.push_reserved(logged);
    } else {
        *given += 1;
    }
    *length += 1;
}

/// Adds the entry that the step logs, if it logs one, to the page of the log, where entries are kept, and keeps its stamp as the log's last
/// one.
#[inline(always)]
pub fn note_entry(
    keeps: bool,
    given: &mut u64,
    length: &mut u64,
    log: &mut Vec<Logged>,
    last: &mut u64,
    note: &LogEffect,
    found: u64,
)
    requires room { keeps ≡ true → LogHasRoom note.now log.old.items (vec_capacity log.old) }
    requires few { given.old + 1 < 2 ^ 42 }
    requires short { length.old + 1 < 2 ^ 64 }
    requires stamp { StampFits note.now found last.old }
    ensures log { (all : List LoggedSeen) → IsPageFrom keeps given.old all log.old.items → last_stamp all ≡ last.old
        → IsPageFrom keeps given.new (log_after note.now found all) log.new.items
        × (last_stamp (log_after note.now found all) ≡ last.new) }
    ensures room { vec_capacity log.new ≡ vec_capacity log.old }
    ensures within { (limit : ℕ) → (keeps ≡ true → LogHasRoom note.now log.old.items limit) → vec_len log.old ≤ limit
        → vec_len log.new ≤ limit }
    ensures few { given.new < 2 ^ 42 }
    ensures limit { (room : ℕ) → limit_by keeps given.new room ≡ limit_by keeps given.old room }
    ensures end { (room : ℕ) → end_by keeps given.new room ≡ end_by keeps given.old room }
    ensures whole { length.old ≡ given.old + vec_len log.old → length.new ≡ given.new + vec_len log.new }
{
    if let Some(entry) = entry_next(note, found) {
        let stamp = stamp_next(&entry, found, *last);
        keep_entry(keeps, given, length, log, Logged { stamp, entry });
        *last = stamp;
    }
}
