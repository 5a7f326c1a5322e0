//! What a line outside sections declares, where it has no cause of refusal.

ghost use Rattle.std.specs.Prelude.{◌≡◌, ◌<◌, ◌≤◌, ◌+◌, length, true, IfOk};
ghost use Rattle.object_program.specs.Limits.{most_classes, most_objects};
ghost use Rattle.object_program.specs.Name.{is_name};
ghost use Rattle.object_program.specs.Program.{total_of};
ghost use Rattle.program_syntax.specs.Reading.{operand, new_thread, labels_ahead};
ghost use Rattle.program_syntax.specs.Added.{thread_added};
ghost use Rattle.program_syntax.specs.inner.Added.{class_added, objects_added};
ghost use Rattle.program_syntax.specs.inner.Signs.{is_count};
ghost use Rattle.program_syntax.specs.State.{text_of, thread_of};

use crate::directory::Directory;
use crate::labels::labels_ahead;
use crate::lines::Lines;
use crate::number::count_of;
use crate::state::{Declared, Section};
use crate::words::Words;
use object_program::{ClassDef, Name, ObjectDef, ThreadDef};
use plain_monitor::NoMemory;
use std::alloc::Global;

/// With the class of a `class` line with these operands.
///
/// # Errors
///
/// `NoMemory` where an allocation fails.
pub fn with_class(declared: Declared, operands: &Words<'_>) -> Result<Declared, NoMemory>
    requires name { is_name (operand operands.now 0) ≡ true }
    requires slots { is_count (operand operands.now 1) ≡ true }
    requires room { length declared.classes < most_classes }
    ensures { IfOk result (λ d. text_of d ≡ class_added (text_of declared) operands.now) }
{
    let name = Name::of(operands.word(0));
    let slots = count_of(operands.word(1));
    let Declared {
        classes,
        objects,
        total,
        threads,
    } = declared;
    let classes = classes.with(ClassDef { name, slots })?;
    Ok(Declared {
        classes,
        objects,
        total,
        threads,
    })
}

/// With the objects of an `object` or an `array` line with these operands, as many as `size`.
///
/// # Errors
///
/// `NoMemory` where an allocation fails.
pub fn with_objects(
    declared: Declared,
    operands: &Words<'_>,
    size: u32,
    array: bool,
) -> Result<Declared, NoMemory>
    requires name { is_name (operand operands.now 0) ≡ true }
    requires some { 1 ≤ size }
    requires room { total_of declared.objects + size ≤ most_objects }
    ensures { IfOk result (λ d. text_of d ≡ objects_added (text_of declared) operands.now size array) }
{
    let name = Name::of(operands.word(0));
    let class = declared.classes.number_of(operands.word(1));
    let Declared {
        classes,
        objects,
        total,
        threads,
    } = declared;
    let objects = objects.with(ObjectDef {
        name,
        class,
        first: total,
        size,
        array,
    })?;
    Ok(Declared {
        classes,
        objects,
        total: total + size,
        threads,
    })
}

/// With one more thread.
///
/// # Errors
///
/// `NoMemory` where an allocation fails.
pub fn with_thread(declared: Declared, thread: ThreadDef) -> Result<Declared, NoMemory>
    ensures { IfOk result (λ d. text_of d ≡ thread_added (text_of declared) thread) }
{
    let Declared {
        classes,
        objects,
        total,
        threads,
    } = declared;
    let threads = threads.with(thread)?;
    Ok(Declared {
        classes,
        objects,
        total,
        threads,
    })
}

/// The section that a `thread` line with these operands opens, with these lines after it.
///
/// # Errors
///
/// `NoMemory` where an allocation fails.
pub fn new_section(
    alloc: Global,
    operands: &Words<'_>,
    later: &Lines<'_>,
) -> Result<Section, NoMemory>
    requires { is_name (operand operands.now 0) ≡ true }
    ensures thread { IfOk result (λ s. thread_of s ≡ new_thread (operand operands.now 0)) }
    ensures labels { IfOk result (λ s. s.labels ≡ labels_ahead 1 later.now) }
{
    let labels = labels_ahead(alloc, later)?;
    Ok(Section {
        name: Name::of(operands.word(0)),
        locals: Directory::new(alloc),
        labels,
        declared: 0,
        code: Vec::new(alloc),
    })
}
