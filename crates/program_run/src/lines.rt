//! What happened to the biases of each class.

ghost use Rattle.std.specs.Prelude.{◌≡◌, ◌<◌, slice_index, IfOk};
ghost use Rattle.program_run.specs.Lines.{counts_on, sums_on, line_of, lines_below};
ghost use Rattle.program_run.specs.inner.Lines.{raised, HasSmallCounts};

use heap_table::{ClassCounts, Closed};
use lock_journal::ClassLine;
use plain_monitor::List;
use std::alloc::{AllocError, Global};

/// Makes the line of each class.
///
/// # Errors
///
/// `AllocError` where an allocation fails.
pub fn class_lines(alloc: Global, closed: &Closed) -> Result<List<ClassLine>, AllocError>
    requires { HasSmallCounts closed.now }
    ensures { IfOk result (λ lines. lines ≡ lines_below closed.now closed.now.heap.shape.classes) }
{
    let classes = closed.shape().classes();
    let mut lines = Vec::with_capacity(alloc, classes as usize)?;
    for class in 0..classes {
        lines.push(class_line(closed, class))?;
    }
    Ok(List::of(lines))
}

// The line of this class.
fn class_line(closed: &Closed, class: u32) -> ClassLine
    requires class { class < closed.now.heap.shape.classes }
    requires small { HasSmallCounts closed.now }
    ensures { result ≡ line_of closed.now class }
{
    let words = closed.words().items();
    let sums = sums_on(closed.counts().items(), class);
    ClassLine {
        single: sums.single,
        rebias: sums.rebias,
        revoke: sums.revoke,
        count: word_at(words, closed.shape().count_at(class)) as u32,
        prototype: word_at(words, closed.shape().prototype_at(class)),
    }
}

// The word at this place.
fn word_at(words: &[u64], at: usize) -> u64
    ensures { result ≡ slice_index words.now at }
{
    match words.get(at) {
        Some(word) => *word,
        None => 0,
    }
}

// No verdict.
const NO_COUNTS: ClassCounts = ClassCounts {
    single: 0,
    rebias: 0,
    revoke: 0,
    reset: 0,
};

// What the threads counted on the class, in all.
fn sums_on(counts: &[List<ClassCounts>], class: u32) -> ClassCounts
    ensures { result ≡ sums_on counts.now class }
{
    let mut sums = NO_COUNTS;
    for own in counts {
        sums = raised(sums, counts_on(own.items(), class));
    }
    sums
}

// What one thread counted on the class.
fn counts_on(own: &[ClassCounts], class: u32) -> ClassCounts
    ensures { result ≡ counts_on own.now class }
{
    match own.get(class as usize) {
        Some(counts) => *counts,
        None => NO_COUNTS,
    }
}

// The counts, raised by others. At its greatest number a count stays.
fn raised(counts: ClassCounts, by: ClassCounts) -> ClassCounts
    ensures { result ≡ raised counts by }
{
    ClassCounts {
        single: counts.single.saturating_add(by.single),
        rebias: counts.rebias.saturating_add(by.rebias),
        revoke: counts.revoke.saturating_add(by.revoke),
        reset: counts.reset.saturating_add(by.reset),
    }
}
