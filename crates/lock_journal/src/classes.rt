//! The lines on classes.

ghost use Rattle.std.specs.Prelude.{◌≡◌, ◌+◌, ◌<◌, ◌≤◌, ◌++◌, ◌∷◌, [], length, decimal, slice_get, IfSome, MatchBool};
ghost use Rattle.lock_journal.specs.Merging.{AreOfSixteen};
ghost use Rattle.lock_journal.specs.RunText.{newline, class_name};
ghost use Rattle.lock_journal.specs.LinesLeft.{classes_left};
ghost use Rattle.lock_journal.specs.inner.Enters.{class_start, counts_text};

use crate::enters::{PATHS, enters_of};
use crate::line::Line;
use crate::record::{ClassLine, RunRecord};
use object_program::{ClassDef, Program};
use plain_machine::Machine;

/// Writes the line on the next class. False exactly where there is none, and then nothing changes.
pub(crate) fn next_class(
    class: &mut usize,
    run: &RunRecord,
    machine: &Machine,
    out: &mut Line,
) -> bool
    requires clear { out.old ≡ [] }
    requires few { AreOfSixteen run.now.logs }
    ensures { MatchBool result
        (classes_left run.now machine.now class.old ≡ out.new ∷ classes_left run.now machine.now class.new)
        ((classes_left run.now machine.now class.old ≡ []) × (class.new ≡ class.old) × (out.new ≡ [])) }
{
    let c = *class;
    match line_at(run.classes.items(), c) {
        None => false,
        Some(line) => {
            push_class_line(out, &run.program, c, &line, &enters_of(run, machine, c));
            *class = c + 1;
            true
        }
    }
}

/// What happened to the biases of class `c`.
fn line_at(lines: &[ClassLine], c: usize) -> Option<ClassLine>
    ensures at { result ≡ slice_get lines.now c }
    ensures within { IfSome result (λ line. c < length lines.now) }
{
    lines.get(c).copied()
}

/// Writes the line on class `c`, whose objects were entered so often.
fn push_class_line(
    out: &mut Line,
    program: &Program,
    c: usize,
    line: &ClassLine,
    enters: &[u128; PATHS],
)
    requires { out.old ≡ [] }
    ensures { out.new ≡ class_start program.now c line.now ++ counts_text enters.now ++ newline }
{
    out.push(b"class ");
    push_class_name(out, program, c);
    push_labelled(out, b" single ", line.single);
    push_labelled(out, b" rebias ", line.rebias);
    push_labelled(out, b" revoke ", line.revoke);
    push_labelled(out, b" count ", u64::from(line.count));
    push_labelled(out, b" prototype ", line.prototype);
    out.push(b" enters");
    push_counts(out, enters);
    out.end();
}

/// Writes the name of class `c`, in at most 32 bytes. Nothing where the program has no such class.
pub(crate) fn push_class_name(out: &mut Line, program: &Program, c: usize)
    requires { length out.old + 32 ≤ 512 }
    ensures text { out.new ≡ out.old ++ class_name (slice_get program.now.classes c) }
    ensures short { length out.new ≤ length out.old + 32 }
{
    match class_at(program.classes.items(), c) {
        None => {}
        Some(class) => out.push(class.name.bytes()),
    }
}

/// The class with this number, whose name has at most 32 bytes.
fn class_at(classes: &[ClassDef], c: usize) -> Option<ClassDef>
    ensures at { result ≡ slice_get classes.now c }
    ensures short { IfSome result (λ class. length class.name ≤ 32) }
{
    classes.get(c).copied()
}

/// Writes these words, at most 12 bytes, and the number in decimal digits, at most 20.
fn push_labelled(out: &mut Line, words: &[u8], number: u64)
    requires words { length words.now ≤ 12 }
    requires room { length out.old + 32 ≤ 512 }
    ensures text { out.new ≡ out.old ++ words.now ++ decimal number }
    ensures short { length out.new ≤ length out.old + 32 }
{
    out.push(words);
    out.push_number(number);
}

/// Writes each count after a space, in at most 246 bytes.
fn push_counts(out: &mut Line, counts: &[u128; PATHS])
    requires { length out.old + 246 ≤ 512 }
    ensures text { out.new ≡ out.old ++ counts_text counts.now }
    ensures short { length out.new ≤ length out.old + 246 }
{
    for count in counts {
        out.push(b" ");
        out.push_wide(*count);
    }
}
