//! How an object's hash is found, or given to it.
ghost use Rattle.std.specs.Prelude.{◌≡◌, ◌<◌, length};
ghost use Rattle.core_world.specs.Threads.ThreadView.{local_of};
ghost use Rattle.core_world.specs.Trees.HashSteps.{draw_steps, hash_monitor_steps, hash_displaced_steps};
ghost use Rattle.core_world.specs.Trees.HashSteps.{hash_inflate_steps, hash_header_steps};
ghost use Rattle.identity_hash.specs.inner.Parts.{hash_owned_steps};
ghost use Rattle.heap_table.specs.Parts.{IsDueOn, HasMadeSteps};
ghost use Rattle.heap_table.specs.Seen.{IsOf};

use crate::places::first_place;
use crate::words::marked_with;
use core_world::{PendingCause, Progress, Stage, WordId};
use heap_table::{CallContext, Heap, Pass, hash_of_word, mark_of_word};
use mark_word::MarkForm;
use object_monitor::inflate;
use plain_monitor::Entry;

// The header without a hash is exchanged for the same one with the hash drawn, which logs the Hash.
fn draw(
    heap: &Heap,
    pass: &mut Pass,
    call: &CallContext,
    number: u32,
    value: u32,
    at: WordId,
    object: u32,
    header: u64,
) -> Progress<u32>
    requires heap { IsOf heap.now pass.old }
    requires due { IsDueOn heap.now pass.old call.now.task
        (draw_steps call.now (record { number = number; value = value }) at object header) }
    requires room { length pass.old.known.log < pass.old.limit }
    ensures { HasMadeSteps heap.now (draw_steps call.now (record { number = number; value = value }) at object header)
        pass.old pass.new result }
{
    let entry = Entry::Hash {
        object,
        value,
        drawn: Some(number),
    };
    let word = marked_with(value);
    let found = heap.log_exchange(pass, call, Stage::Settled, at, header, word, entry);
    if found != header {
        return Progress::Pending(PendingCause::Raced {
            expected: header,
            found,
        });
    }
    Progress::Done(value)
}

// The lock is inflated with this monitor: the hash stands in the header that the monitor has.
fn hash_monitor(
    heap: &Heap,
    pass: &mut Pass,
    call: &CallContext,
    number: u32,
    value: u32,
    object: u32,
    monitor: u32,
) -> Progress<u32>
    requires heap { IsOf heap.now pass.old }
    requires due { IsDueOn heap.now pass.old call.now.task
        (hash_monitor_steps call.now (record { number = number; value = value }) object monitor) }
    requires room { length pass.old.known.log < pass.old.limit }
    ensures { HasMadeSteps heap.now (hash_monitor_steps call.now (record { number = number; value = value }) object monitor)
        pass.old pass.new result }
{
    let at = WordId::Header { monitor };
    let header = heap.find_hash(pass, call, at, object);
    let hash = hash_of_word(header);
    if hash != 0 {
        return Progress::Done(hash);
    }
    draw(heap, pass, call, number, value, at, object, header)
}

// The thread has the lock: the hash stands, if anywhere, in the header that its first lock record of the object displaced.
fn hash_displaced(heap: &Heap, pass: &mut Pass, call: &CallContext, object: u32) -> Option<u32>
    requires heap { IsOf heap.now pass.old }
    requires object { object < length heap.now.heap.shape.objects }
    requires due { IsDueOn heap.now pass.old call.now.task
        (hash_displaced_steps call.now (local_of pass.old.known) object) }
    requires room { length pass.old.known.log < pass.old.limit }
    ensures { HasMadeSteps heap.now (hash_displaced_steps call.now (local_of pass.old.known) object)
        pass.old pass.new result }
{
    let thread = pass.thread();
    let place = first_place(pass, object);
    let header = heap.find_hash(pass, call, WordId::Displaced { thread, place }, object);
    let hash = hash_of_word(header);
    if hash != 0 {
        return Some(hash);
    }
    None
}

// The lock is inflated first, or was: then the hash stands in its monitor's header.
fn hash_inflate(
    heap: &Heap,
    pass: &mut Pass,
    call: &CallContext,
    number: u32,
    value: u32,
    object: u32,
) -> Progress<u32>
    requires heap { IsOf heap.now pass.old }
    requires due { IsDueOn heap.now pass.old call.now.task
        (hash_inflate_steps heap.now.heap.shape call.now pass.old.known.kept
        (record { number = number; value = value }) object) }
    requires room { length pass.old.known.log < pass.old.limit }
    ensures { HasMadeSteps heap.now
        (hash_inflate_steps heap.now.heap.shape call.now pass.old.known.kept
        (record { number = number; value = value }) object)
        pass.old pass.new result }
{
    match inflate(heap, pass, call, object) {
        Progress::Done(monitor) => hash_monitor(heap, pass, call, number, value, object, monitor),
        Progress::Pending(reason) => Progress::Pending(reason),
    }
}

// The thread has the lock by a record of its own: a displaced header in the record is never changed to hold a hash.
fn hash_owned(
    heap: &Heap,
    pass: &mut Pass,
    call: &CallContext,
    number: u32,
    value: u32,
    object: u32,
) -> Progress<u32>
    requires heap { IsOf heap.now pass.old }
    requires object { object < length heap.now.heap.shape.objects }
    requires due { IsDueOn heap.now pass.old call.now.task
        (hash_owned_steps heap.now.heap.shape call.now (local_of pass.old.known) pass.old.known.kept
        (record { number = number; value = value }) object) }
    requires room { length pass.old.known.log < pass.old.limit }
    ensures { HasMadeSteps heap.now
        (hash_owned_steps heap.now.heap.shape call.now (local_of pass.old.known) pass.old.known.kept
        (record { number = number; value = value }) object)
        pass.old pass.new result }
{
    match hash_displaced(heap, pass, call, object) {
        Some(hash) => Progress::Done(hash),
        None => hash_inflate(heap, pass, call, number, value, object),
    }
}

/// Answers the object's identity hash: the one that it has, or else this value, which is the thread's draw of this
/// number. The object's mark has no bias pattern.
///
/// `Done(hash)` says that the object has this hash, and that its Hash was logged. Where a header had it already, which is
/// the neutral mark, the one that the thread's own lock record displaced or that of the object's monitor, nothing was
/// stored there, and the entry says that the hash was found. Where the header had none, the neutral mark or the
/// monitor's header was exchanged for the same one with the value, the hash is the value, and the entry has the draw's
/// number. A header in a lock record is never changed: where the object is locked by a record of another thread, or by
/// one of its own that displaced a header without a hash, the lock is inflated first, and stays so. The thread keeps no
/// monitor any more where it was the one that inflated it.
/// `Pending(Inflating)` says that another thread is inflating the lock: nothing was stored and nothing logged.
/// `Pending(Raced { expected, found })` says that an exchange expected the word that the thread had seen and found
/// another, which is left as it was: nothing was logged, and no hash given. It was either that of the header without a
/// hash, where a lock that was inflated first stays so, or that of the mark at an inflation, which leaves what `inflate`
/// leaves: the thread keeps its monitor, the one that it claimed as well, for the next time.
///
/// In OpenJDK 8: `ObjectSynchronizer::FastHashCode` (`synchronizer.cpp`), after its revocation.
pub fn header_hash(
    heap: &Heap,
    pass: &mut Pass,
    call: &CallContext,
    number: u32,
    value: u32,
    object: u32,
) -> Progress<u32>
    requires heap { IsOf heap.now pass.old }
    requires object { object < length heap.now.heap.shape.objects }
    requires due { IsDueOn heap.now pass.old call.now.task
        (hash_header_steps heap.now.heap.shape call.now (local_of pass.old.known) pass.old.known.kept
        (record { number = number; value = value }) object) }
    requires room { length pass.old.known.log < pass.old.limit }
    ensures { HasMadeSteps heap.now
        (hash_header_steps heap.now.heap.shape call.now (local_of pass.old.known) pass.old.known.kept
        (record { number = number; value = value }) object)
        pass.old pass.new result }
{
    let at = WordId::Mark { object };
    let mark = heap.find_hash(pass, call, at, object);
    match mark_of_word(mark) {
        Some(form) => match form {
            MarkForm::Inflating => Progress::Pending(PendingCause::Inflating),
            MarkForm::Neutral { hash, .. } => {
                if hash != 0 {
                    return Progress::Done(hash);
                }
                draw(heap, pass, call, number, value, at, object, mark)
            }
            MarkForm::Locked { thread, .. } => {
                if thread != pass.thread() {
                    return hash_inflate(heap, pass, call, number, value, object);
                }
                hash_owned(heap, pass, call, number, value, object)
            }
            MarkForm::Inflated { monitor } => {
                hash_monitor(heap, pass, call, number, value, object, monitor)
            }
            _ => unreachable!(),
        },
        None => unreachable!(),
    }
}
