//! How a thread that owns a monitor notifies those that wait on it: the one that has waited longest comes first.
ghost use Rattle.std.specs.Prelude.{◌≡◌, ◌<◌, ◌≤◌, length, take, Some};
ghost use Rattle.plain_monitor.specs.Limits.{most_threads};
ghost use Rattle.core_world.specs.Threads.ThreadView.{local_of};
ghost use Rattle.core_world.specs.Trees.WaitSteps.{look_steps, waiters, by_age};
ghost use Rattle.core_world.specs.Trees.WaitSteps.{monitor_notify_steps, monitor_notify_all_steps};
ghost use Rattle.heap_table.specs.Parts.{IsDueOn, HasMadeSteps};
ghost use Rattle.heap_table.specs.Seen.{IsOf};
ghost use Rattle.object_monitor.specs.inner.NotifyParts.{first_of, older_of, oldest_with, notify_one, notify_those};

use crate::waits::publish;
use core_world::{Stage, WordId};
use heap_table::{CallContext, Heap, Pass, wait_of_word};
use mark_word::{WaitForm, encode_wait};
use plain_monitor::Entry;
use plain_monitor::limits::THREADS;

// A place for each thread.
const ALL: usize = THREADS as usize;

// The waiting words of all threads, by rising number.
fn look(heap: &Heap, pass: &mut Pass, call: &CallContext) -> [u64; ALL]
    requires heap { IsOf heap.now pass.old }
    requires due { IsDueOn heap.now pass.old call.now.task (look_steps call.now heap.now.heap.shape.threads) }
    ensures { HasMadeSteps heap.now (look_steps call.now heap.now.heap.shape.threads)
        pass.old pass.new (take heap.now.heap.shape.threads result) }
{
    let mut words = [0; ALL];
    for thread in 0..heap.shape().threads() {
        let at = WordId::Waiting { thread };
        words[thread as usize] = heap.load(pass, call, Stage::Settled, at);
    }
    words
}

// The older of a thread that waits since this stamp and of the oldest of others.
fn older(thread: u32, stamp: u64, others: Option<(u32, u64)>) -> Option<(u32, u64)>
    ensures { result ≡ older_of (thread, stamp) others }
{
    match others {
        Some((other, since)) => {
            if stamp < since || stamp == since && thread < other {
                Some((thread, stamp))
            } else {
                Some((other, since))
            }
        }
        None => Some((thread, stamp)),
    }
}

// The older of them, where the thread counts only if this waiting word of it says that it waits on the object.
fn with_word(object: u32, thread: u32, word: u64, others: Option<(u32, u64)>) -> Option<(u32, u64)>
    ensures { result ≡ oldest_with object thread word others }
{
    match wait_of_word(word) {
        Some(WaitForm::Waiting { object: on, stamp }) => {
            if on == object {
                older(thread, stamp, others)
            } else {
                others
            }
        }
        _ => others,
    }
}

// Of the first `count` threads with these waiting words, the one that has waited on the object longest, and since when.
fn oldest(words: &[u64; ALL], count: u32, object: u32) -> Option<(u32, u64)>
    requires { count ≤ most_threads }
    ensures { result ≡ first_of (by_age (waiters object 0 (take count words.now))) }
{
    let mut oldest = None;
    let mut left = count;
    while left > 0 {
        left -= 1;
        oldest = with_word(object, left, words[left as usize], oldest);
    }
    oldest
}

// Notifies this waiter, where there is one.
fn notify_one(
    heap: &Heap,
    pass: &mut Pass,
    call: &CallContext,
    object: u32,
    waiter: Option<(u32, u64)>,
) -> Option<u32>
    requires heap { IsOf heap.now pass.old }
    requires object { object < length heap.now.heap.shape.objects }
    requires due { IsDueOn heap.now pass.old call.now.task
        (notify_one waiter call.now (local_of pass.old.known) object) }
    requires room { length pass.old.known.log < pass.old.limit }
    ensures { HasMadeSteps heap.now (notify_one waiter call.now (local_of pass.old.known) object)
        pass.old pass.new result }
{
    match waiter {
        Some((thread, _)) => {
            let word = encode_wait(&WaitForm::Notified { object });
            let woken = Some(thread);
            let at = WordId::Waiting { thread };
            let entry = Entry::Notify { object, woken };
            heap.log_store(pass, call, Stage::Settled, at, word, entry);
            woken
        }
        None => {
            let woken = None;
            publish(heap, pass, call, Entry::Notify { object, woken });
            woken
        }
    }
}

/// Notifies the thread that has waited on the object longest: the one with the smallest stamp, and at equal stamps with
/// the smallest number. The thread of the pass owns the object's monitor.
///
/// `Some(thread)` says which thread's waiting word says now that it was notified, and that the Notify of it is logged.
/// `None` says that no thread waited on the object, and that a Notify of none is logged.
///
/// In OpenJDK 8: `ObjectMonitor::notify` (`objectMonitor.cpp`).
pub fn monitor_notify(heap: &Heap, pass: &mut Pass, call: &CallContext, object: u32) -> Option<u32>
    requires heap { IsOf heap.now pass.old }
    requires object { object < length heap.now.heap.shape.objects }
    requires due { IsDueOn heap.now pass.old call.now.task
        (monitor_notify_steps call.now (local_of pass.old.known) heap.now.heap.shape.threads object) }
    requires room { length pass.old.known.log < pass.old.limit }
    ensures { HasMadeSteps heap.now
        (monitor_notify_steps call.now (local_of pass.old.known) heap.now.heap.shape.threads object)
        pass.old pass.new result }
{
    let words = look(heap, pass, call);
    let waiter = oldest(&words, heap.shape().threads(), object);
    notify_one(heap, pass, call, object, waiter)
}

// Notifies each waiter by these waiting words, of whom `first` is the oldest. The word of one who is next to be
// notified becomes 0 in `words`, which says Ready, so that the oldest of the others is found.
fn notify_those(
    heap: &Heap,
    pass: &mut Pass,
    call: &CallContext,
    object: u32,
    words: [u64; ALL],
    first: (u32, u64),
) -> u32
    requires heap { IsOf heap.now pass.old }
    requires object { object < length heap.now.heap.shape.objects }
    requires first { first_of (by_age (waiters object 0 (take heap.now.heap.shape.threads words))) ≡ Some first }
    requires due { IsDueOn heap.now pass.old call.now.task
        (notify_those (by_age (waiters object 0 (take heap.now.heap.shape.threads words))) call.now object) }
    requires room { length pass.old.known.log < pass.old.limit }
    ensures { HasMadeSteps heap.now
        (notify_those (by_age (waiters object 0 (take heap.now.heap.shape.threads words))) call.now object)
        pass.old pass.new result }
{
    let count = heap.shape().threads();
    let word = encode_wait(&WaitForm::Notified { object });
    let mut words = words;
    let mut thread = first.0;
    let mut woken = 1;
    words[thread as usize] = 0;
    while let Some((next, _)) = oldest(&words, count, object) {
        let stage = Stage::Notifies {
            object,
            notified: woken,
        };
        heap.store(pass, call, stage, WordId::Waiting { thread }, word);
        words[next as usize] = 0;
        thread = next;
        woken += 1;
    }
    let at = WordId::Waiting { thread };
    let entry = Entry::NotifyAll { object, woken };
    heap.log_store(pass, call, Stage::Settled, at, word, entry);
    woken
}

/// Notifies each thread that waits on the object, the one that has waited longest first. The thread of the pass owns
/// the object's monitor.
///
/// The answer says how many there were: the waiting word of each says now that it was notified, and the NotifyAll of so
/// many is logged.
///
/// In OpenJDK 8: `ObjectMonitor::notifyAll` (`objectMonitor.cpp`).
pub fn monitor_notify_all(heap: &Heap, pass: &mut Pass, call: &CallContext, object: u32) -> u32
    requires heap { IsOf heap.now pass.old }
    requires object { object < length heap.now.heap.shape.objects }
    requires due { IsDueOn heap.now pass.old call.now.task
        (monitor_notify_all_steps call.now (local_of pass.old.known) heap.now.heap.shape.threads object) }
    requires room { length pass.old.known.log < pass.old.limit }
    ensures { HasMadeSteps heap.now
        (monitor_notify_all_steps call.now (local_of pass.old.known) heap.now.heap.shape.threads object)
        pass.old pass.new result }
{
    let words = look(heap, pass, call);
    match oldest(&words, heap.shape().threads(), object) {
        Some(first) => notify_those(heap, pass, call, object, words, first),
        None => {
            publish(heap, pass, call, Entry::NotifyAll { object, woken: 0 });
            0
        }
    }
}
