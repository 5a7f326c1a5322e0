//! The labels of code.

ghost use Rattle.std.specs.Prelude.{◌≡◌, ◌+◌, ◌<◌, ◌≤◌, ◌||◌, ◌==◌, ◌∷◌, [], ◌++◌, ℕ, false, length, map, if◌then◌else◌, slice_index_or, decimal, IfOk, OnOk};
ghost use Rattle.object_program.specs.Limits.{most_code};
ghost use Rattle.sync_source.specs.Compiled.{goes_to, targets, label};
ghost use Rattle.sync_source.specs.inner.Marks.{HasMarks};

use itoa::Buffer;
use object_program::{Code, LabelDef, Name};
use std::alloc::{AllocError, Global};

/// A label for each number that an instruction goes to, by rising number. It goes over the code once, and marks the
/// numbers.
///
/// # Errors
///
/// `AllocError` where an allocation fails.
pub fn labels(alloc: Global, code: &[Code]) -> Result<Vec<LabelDef>, AllocError>
    requires { length code.now ≤ most_code }
    ensures { IfOk result (λ all. all.items ≡ map (label decimal) (targets code.now)) }
{
    let marks = marks(alloc, code)?;
    let mut all = Vec::new(alloc);
    let length = code.len() as u32;
    let mut number = 1;
    while number <= length {
        put_label(&mut all, number, marks[number as usize])?;
        number += 1;
    }
    Ok(all)
}

/// With the label for this number, where the number is marked.
fn put_label(all: &mut Vec<LabelDef>, number: u32, marked: bool) -> Result<(), AllocError>
    requires { number ≤ most_code }
    ensures { OnOk result (all.new.items
        ≡ all.old.items ++ map (label decimal) (if marked then number ∷ [] else [])) }
{
    if marked {
        all.push(label(number))?;
    }
    Ok(())
}

/// A mark for each number up to that of the last instruction: whether an instruction goes to it.
fn marks(alloc: Global, code: &[Code]) -> Result<Vec<bool>, AllocError>
    requires { length code.now ≤ most_code }
    ensures { IfOk result (λ marks. HasMarks code.now marks.items) }
{
    let mut marks = vec![in alloc; false; code.len() + 1]?;
    for instruction in code {
        mark(marks.as_mut_slice(), instruction);
    }
    Ok(marks)
}

/// Marks the number that the instruction goes to, if it goes to one of these.
fn mark(marks: &mut [bool], instruction: &Code)
    ensures { (n : ℕ) → n < length marks.old → slice_index_or marks.new n false
        ≡ (slice_index_or marks.old n false || goes_to n instruction.now) }
{
    match instruction {
        Code::Jump { l } => mark_number(marks, *l),
        Code::Jlt { l, .. } => mark_number(marks, *l),
        Code::Jeq { l, .. } => mark_number(marks, *l),
        _ => {}
    }
}

/// Marks the number, if it is one of these.
fn mark_number(marks: &mut [bool], number: u32)
    ensures { (n : ℕ) → n < length marks.old → slice_index_or marks.new n false
        ≡ (slice_index_or marks.old n false || (number == n)) }
{
    let place = number as usize;
    if place < marks.len() {
        marks[place] = true;
    }
}

/// `L` and the number.
fn label(number: u32) -> LabelDef
    requires { number ≤ most_code }
    ensures { result ≡ label decimal number }
{
    let mut digits = Buffer::new();
    let text = digits.format(number).as_bytes();
    let length = text.len() + 1;
    let mut bytes = [b'L'; 32];
    bytes[1..length].copy_from_slice(text);
    LabelDef {
        name: Name::of(&bytes[..length]),
        index: number,
    }
}
