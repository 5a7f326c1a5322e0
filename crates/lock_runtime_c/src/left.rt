//! What is left of a closed heap, for C.
ghost use Rattle.std.specs.Prelude.{◌≡◌, Err, IfErr, IfOk, Ok, option_map, slice_get, unwrap_or};
ghost use Rattle.heap_table.specs.declared.shots.Cell.{Cell};
ghost use Rattle.lock_runtime_c.specs.ByHandle.{Reads, ReadsInto};
ghost use Rattle.lock_runtime_c.specs.Left as left;
ghost use Rattle.lock_runtime_c.specs.Numbers.{misused};

use crate::answers::{Answer, answered, done_with};
use crate::handle::Slot;
use crate::inner::Inner;
use crate::logs::read_entry;
use crate::nth::nth;
use crate::numbers::{Row, bool_number};
use crate::outcome::{Misuse, Outcome, Said};
use heap_table::{Cell, ClassCounts, Shot};
use plain_monitor::List;
use std::alloc::Global;

/// The verdicts on a class that a thread carried out, as `heap_table::ClassCounts` has them.
#[repr(C)]
#[derive(Clone, Copy)]
pub struct Counts {
    /// Revocations of one bias.
    pub single: u64,
    /// Bulk rebiases.
    pub rebias: u64,
    /// Bulk revocations.
    pub revoke: u64,
    /// How often the class's count of revocations was set to 0 before the verdict.
    pub reset: u64,
}

fn misuse(why: Misuse) -> Answer
    ensures { result ≡ misused why }
{
    answered(Outcome::Misused(why))
}

fn length_in(held: &Inner, thread: u32) -> Answer
    ensures { result ≡ left.rest_answer held.now thread }
{
    let Inner::Closed(closed) = held else {
        return misuse(Misuse::OtherKind);
    };
    match nth(closed.logs().items(), thread as u64) {
        Some(log) => done_with(log.items().len() as u64),
        None => misuse(Misuse::NoThread),
    }
}

/// How many entries of the thread's log no page had.
#[unsafe(no_mangle)]
pub extern "C" fn biasrun_rest_length(alloc: Global, at: &mut Slot, thread: u32) -> Answer
    ensures { Reads (λ x. left.rest_answer x thread) at.old at.new result }
{
    let Some(held) = at.take(alloc) else {
        return answered(Outcome::Misused(Misuse::Empty));
    };
    let answer = length_in(&*held, thread);
    at.put(alloc, held);
    answer
}

fn entry_in(held: &Inner, thread: u32, number: u64, out: &mut Row) -> Answer
    ensures answer { result ≡ left.rest_entry_answer held.now thread number }
    ensures found { out.new ≡ unwrap_or (left.rest_row held.now thread number) out.old }
{
    let Inner::Closed(closed) = held else {
        return misuse(Misuse::OtherKind);
    };
    match nth(closed.logs().items(), thread as u64) {
        Some(log) => read_entry(log.items(), number, out),
        None => misuse(Misuse::NoThread),
    }
}

/// The entry with this number, from 0, among those of the thread's log that no page had. `out` is as it was where there is none.
#[unsafe(no_mangle)]
pub extern "C" fn biasrun_rest_entry(
    alloc: Global,
    at: &mut Slot,
    thread: u32,
    number: u64,
    out: &mut Row,
) -> Answer
    ensures { ReadsInto (λ x. left.rest_entry_answer x thread number) (λ x. left.rest_row x thread number)
        at.old at.new out.old out.new result }
{
    let Some(held) = at.take(alloc) else {
        return answered(Outcome::Misused(Misuse::Empty));
    };
    let answer = entry_in(&*held, thread, number, out);
    at.put(alloc, held);
    answer
}

fn counts_at(all: &[ClassCounts], class: u32, out: &mut Counts) -> Answer
    ensures answer { result ≡ left.class_answer all.now class }
    ensures found { out.new ≡ unwrap_or (left.class_counts all.now class) out.old }
{
    match nth(all, class as u64) {
        Some(counts) => {
            *out = Counts {
                single: counts.single,
                rebias: counts.rebias,
                revoke: counts.revoke,
                reset: counts.reset,
            };
            answered(Outcome::Done(Said::Nothing))
        }
        None => misuse(Misuse::NoClass),
    }
}

fn counts_in(held: &Inner, thread: u32, class: u32, out: &mut Counts) -> Answer
    ensures answer { result ≡ left.counts_answer held.now thread class }
    ensures found { out.new ≡ unwrap_or (left.counts_found held.now thread class) out.old }
{
    let Inner::Closed(closed) = held else {
        return misuse(Misuse::OtherKind);
    };
    match nth(closed.counts().items(), thread as u64) {
        Some(all) => counts_at(all.items(), class, out),
        None => misuse(Misuse::NoThread),
    }
}

/// The verdicts on the class that the thread carried out. `out` is as it was where there is no such thread or class.
#[unsafe(no_mangle)]
pub extern "C" fn biasrun_class_counts(
    alloc: Global,
    at: &mut Slot,
    thread: u32,
    class: u32,
    out: &mut Counts,
) -> Answer
    ensures { ReadsInto (λ x. left.counts_answer x thread class) (λ x. left.counts_found x thread class)
        at.old at.new out.old out.new result }
{
    let Some(held) = at.take(alloc) else {
        return answered(Outcome::Misused(Misuse::Empty));
    };
    let answer = counts_in(&*held, thread, class, out);
    at.put(alloc, held);
    answer
}

fn cut_of(shot: &Shot, other: u32) -> Answer
    ensures { result ≡ left.shot_cut other shot.now }
{
    match nth(shot.cut.items(), other as u64) {
        Some(entries) => done_with(*entries),
        None => misuse(Misuse::NoThread),
    }
}

// The dump of the thread with this number, from 0, or why there is none.
fn shot_in(shots: &List<List<Shot>>, thread: u32, dump: u32) -> Result<&Shot, Misuse>
    ensures found { IfOk result (λ s. left.shot_at shots.now thread dump ≡ Ok s.now) }
    ensures none { IfErr result (λ why. left.shot_at shots.now thread dump ≡ Err why) }
{
    match nth(shots.items(), thread as u64) {
        None => Err(Misuse::NoThread),
        Some(shots) => match nth(shots.items(), dump as u64) {
            None => Err(Misuse::NoDump),
            Some(shot) => Ok(shot),
        },
    }
}

fn cut_in(held: &Inner, thread: u32, dump: u32, other: u32) -> Answer
    ensures { result ≡ left.cut_answer held.now thread dump other }
{
    let Inner::Closed(closed) = held else {
        return misuse(Misuse::OtherKind);
    };
    match shot_in(closed.shots(), thread, dump) {
        Ok(shot) => cut_of(shot, other),
        Err(why) => misuse(why),
    }
}

/// How many entries the log of the other thread had when this dump of the thread, from 0, was made.
#[unsafe(no_mangle)]
pub extern "C" fn biasrun_dump_cut(
    alloc: Global,
    at: &mut Slot,
    thread: u32,
    dump: u32,
    other: u32,
) -> Answer
    ensures { Reads (λ x. left.cut_answer x thread dump other) at.old at.new result }
{
    let Some(held) = at.take(alloc) else {
        return answered(Outcome::Misused(Misuse::Empty));
    };
    let answer = cut_in(&*held, thread, dump, other);
    at.put(alloc, held);
    answer
}

// What the dump shows of the object.
fn cell_at(shot: &Shot, object: u32) -> Option<Cell>
    ensures { option_map (λ (c : Cell). (c.owner, c.count)) result ≡ slice_get shot.now.cells object }
{
    match nth(shot.cells.items(), object as u64) {
        Some(cell) => Some(*cell),
        None => None,
    }
}

fn owner_word(owner: Option<u32>) -> u64
    ensures { result ≡ left.owner_word owner }
{
    match owner {
        Some(thread) => thread as u64,
        None => 0,
    }
}

fn cell_of(shot: &Shot, object: u32) -> Answer
    ensures { result ≡ left.shot_cell object shot.now }
{
    match cell_at(shot, object) {
        Some(cell) => Answer {
            kind: 0,
            detail: cell.count,
            word: owner_word(cell.owner),
        },
        None => misuse(Misuse::NoObject),
    }
}

fn cell_in(held: &Inner, thread: u32, dump: u32, object: u32) -> Answer
    ensures { result ≡ left.cell_answer held.now thread dump object }
{
    let Inner::Closed(closed) = held else {
        return misuse(Misuse::OtherKind);
    };
    match shot_in(closed.shots(), thread, dump) {
        Ok(shot) => cell_of(shot, object),
        Err(why) => misuse(why),
    }
}

/// How often the object was held by this dump of the thread, from 0, and by which thread.
#[unsafe(no_mangle)]
pub extern "C" fn biasrun_dump_cell(
    alloc: Global,
    at: &mut Slot,
    thread: u32,
    dump: u32,
    object: u32,
) -> Answer
    ensures { Reads (λ x. left.cell_answer x thread dump object) at.old at.new result }
{
    let Some(held) = at.take(alloc) else {
        return answered(Outcome::Misused(Misuse::Empty));
    };
    let answer = cell_in(&*held, thread, dump, object);
    at.put(alloc, held);
    answer
}

fn halted_in(held: &Inner) -> Answer
    ensures { result ≡ left.halted_answer held.now }
{
    match held {
        Inner::Closed(closed) => Answer {
            kind: 0,
            detail: bool_number(closed.halted()),
            word: 0,
        },
        _ => misuse(Misuse::OtherKind),
    }
}

/// Whether the run was halted.
#[unsafe(no_mangle)]
pub extern "C" fn biasrun_was_halted(alloc: Global, at: &mut Slot) -> Answer
    ensures { Reads left.halted_answer at.old at.new result }
{
    let Some(held) = at.take(alloc) else {
        return answered(Outcome::Misused(Misuse::Empty));
    };
    let answer = halted_in(&*held);
    at.put(alloc, held);
    answer
}
