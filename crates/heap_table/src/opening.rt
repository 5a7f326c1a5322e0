//! The words before the first step.
ghost use Rattle.std.specs.Prelude.{◌≡◌, ◌≤◌, ◌++◌, IfOk, length};
ghost use Rattle.core_world.specs.Opening.{first_mark};
ghost use Rattle.heap_table.specs.Layout.{word_count};
ghost use Rattle.heap_table.specs.inner.Openings.{copies, numbers, object_words, opening_words};

use crate::setting::Setting;
use std::alloc::{AllocError, Global};

/// Each slot's word at first, that of the number 0.
const ZERO: u64 = (1 << 63) + 1;

// Puts so many copies of the group after the words.
fn push_copies(words: &mut Vec<u64>, count: usize, group: &[u64]) -> Result<(), AllocError>
    ensures { IfOk result (λ _. words.new.items ≡ words.old.items ++ copies count group.now) }
{
    for _i in 0..count {
        words.extend_from_slice(group)?;
    }
    Ok(())
}

// Puts the numbers below this after the words.
fn push_numbers(words: &mut Vec<u64>, count: u32) -> Result<(), AllocError>
    ensures { IfOk result (λ _. words.new.items ≡ words.old.items ++ numbers count) }
{
    for number in 0..count {
        words.push(number as u64)?;
    }
    Ok(())
}

// Each class's prototype at first, and each declared object's mark; without biases, the mark of every object.
fn mark_word(biasing: bool) -> u64
    ensures { result ≡ first_mark biasing }
{
    if biasing { 5 } else { 1 }
}

// Puts the words of so many objects with this mark after the words, in groups of this size.
fn push_objects(
    words: &mut Vec<u64>,
    count: usize,
    size: usize,
    mark: u64,
) -> Result<(), AllocError>
    requires { 3 ≤ size }
    ensures { IfOk result (λ _. words.new.items ≡ words.old.items ++ copies count (object_words size mark)) }
{
    for _i in 0..count {
        words.extend_from_slice(&[mark, 0, 0])?;
        push_copies(words, size - 3, &[ZERO])?;
    }
    Ok(())
}

/// Makes the words of the opening world, by their places.
///
/// # Errors
///
/// `AllocError` where an allocation fails.
pub fn opening_words(alloc: Global, setting: &Setting) -> Result<Vec<u64>, AllocError>
    ensures words { IfOk result (λ v. v.items ≡ opening_words setting.now.shape setting.now.biasing) }
    ensures count { IfOk result (λ v. length v.items ≡ word_count setting.now.shape) }
{
    let threads = setting.shape.threads() as usize;
    let classes = setting.shape.classes() as usize;
    let objects = setting.shape.objects();
    let declared = setting.shape.declared() as usize;
    let size = setting.shape.object_size();
    let mark = mark_word(setting.biasing);
    let monitors = objects + threads;
    let places = setting.shape.ring_places();
    let rest = 144 * threads + 11 * monitors;
    let own = [0, 0, 0, 0, 0, 0, 0, monitors as u64, 0, 0, 0, 0, 0, 0, 0, 0];
    let class = [mark, 0, 0, 0, 0, 0, 0, 0, 0, 0, 0, 0, 0, 0, 0, 0];
    let mut words = Vec::with_capacity(alloc, setting.shape.word_count())?;
    push_copies(&mut words, 1, &own)?;
    push_copies(&mut words, classes, &class)?;
    push_objects(&mut words, declared, size, mark)?;
    push_objects(&mut words, objects - declared, size, mark_word(false))?;
    push_copies(&mut words, rest, &[0])?;
    push_numbers(&mut words, places)?;
    Ok(words)
}
