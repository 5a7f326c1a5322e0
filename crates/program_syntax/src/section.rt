//! What a line of a section stands for, where it has no cause of refusal.

ghost use Rattle.std.specs.Prelude.{◌≡◌, ◌<◌, ◌==◌, ◌+◌, length, true, false, IfOk};
ghost use Rattle.object_program.specs.Limits.{most_locals, most_code};
ghost use Rattle.object_program.specs.Name.{is_name};
ghost use Rattle.program_syntax.specs.Line.{is_instruction, operands_of};
ghost use Rattle.program_syntax.specs.Reading.{operand, local_at, object_at, class_at, target_among};
ghost use Rattle.program_syntax.specs.Refusal.{is_bad_number, some_operand};
ghost use Rattle.program_syntax.specs.Added.{local_added, code_added};
ghost use Rattle.program_syntax.specs.State.{text_of, thread_of, thread_to, IsInstructionOn};

use crate::keyword::Keyword;
use crate::number::{count_of, number_of};
use crate::state::{Declared, Section};
use crate::words::Words;
use object_program::{Code, Name, ThreadDef};
use plain_monitor::{List, NoMemory};

/// The number of the local that operand `i` names.
fn local_at(section: &Section, operands: &Words<'_>, i: usize) -> u32
    ensures { result ≡ local_at (thread_of section.now) operands.now i }
{
    section.locals.number_of(operands.word(i))
}

/// The number of the declaration of objects that operand `i` names.
fn object_at(declared: &Declared, operands: &Words<'_>, i: usize) -> u32
    ensures { result ≡ object_at (text_of declared.now) operands.now i }
{
    declared.objects.number_of(operands.word(i))
}

/// The number of the class that operand `i` names.
fn class_at(declared: &Declared, operands: &Words<'_>, i: usize) -> u32
    ensures { result ≡ class_at (text_of declared.now) operands.now i }
{
    declared.classes.number_of(operands.word(i))
}

/// The number of the instruction that operand `i` names by its label; 0 where the section has no such label.
fn target_at(section: &Section, operands: &Words<'_>, i: usize) -> u32
    ensures { result ≡ target_among section.now.labels (operand operands.now i) }
{
    match section.labels.place_of(operands.word(i)) {
        Some(place) => section.labels.items()[place].index,
        None => 0,
    }
}

/// The instruction that a line with this keyword and these operands stands for.
pub fn instruction_on(
    declared: &Declared,
    section: &Section,
    keyword: Keyword,
    operands: &Words<'_>,
) -> Code
    requires instruction { is_instruction keyword ≡ true }
    requires count { (length operands.now == length (operands_of keyword)) ≡ true }
    requires numbers { some_operand is_bad_number (operands_of keyword) operands.now ≡ false }
    ensures { IsInstructionOn declared.now section.now operands.now keyword result }
{
    let x = local_at(section, operands, 0);
    let y = local_at(section, operands, 1);
    let z = local_at(section, operands, 2);
    match keyword {
        Keyword::Set => Code::Set {
            x,
            v: number_of(operands.word(1)),
        },
        Keyword::Add => Code::Add { x, y, z },
        Keyword::Sub => Code::Sub { x, y, z },
        Keyword::Mul => Code::Mul { x, y, z },
        Keyword::Ref => Code::Ref {
            x,
            n: object_at(declared, operands, 1),
        },
        Keyword::Elem => Code::Elem {
            x,
            n: object_at(declared, operands, 1),
            i: z,
        },
        Keyword::Enter => Code::Enter { x },
        Keyword::Exit => Code::Exit { x },
        Keyword::Wait => Code::Wait { x },
        Keyword::Notify => Code::Notify { x },
        Keyword::NotifyAll => Code::NotifyAll { x },
        Keyword::Get => Code::Get {
            x,
            o: y,
            k: count_of(operands.word(2)),
        },
        Keyword::Put => Code::Put {
            o: x,
            k: count_of(operands.word(1)),
            x: z,
        },
        Keyword::Hash => Code::Hash { x, o: y },
        Keyword::New => Code::New {
            x,
            c: class_at(declared, operands, 1),
        },
        Keyword::Print => Code::Print { x },
        Keyword::Jump => Code::Jump {
            l: target_at(section, operands, 0),
        },
        Keyword::Jlt => Code::Jlt {
            x,
            y,
            l: target_at(section, operands, 2),
        },
        Keyword::Jeq => Code::Jeq {
            x,
            y,
            l: target_at(section, operands, 2),
        },
        Keyword::Dump => Code::Dump,
        _ => Code::End,
    }
}

/// With the local of a `local` line with these operands.
///
/// # Errors
///
/// `NoMemory` where an allocation fails.
pub fn with_local(section: Section, operands: &Words<'_>) -> Result<Section, NoMemory>
    requires name { is_name (operand operands.now 0) ≡ true }
    requires room { length section.locals < most_locals }
    ensures thread { IfOk result (λ s. thread_of s ≡ local_added (thread_of section) operands.now) }
    ensures labels { IfOk result (λ s. s.labels ≡ section.labels) }
{
    let Section {
        name,
        locals,
        labels,
        declared,
        code,
    } = section;
    let locals = locals.with(Name::of(operands.word(0)))?;
    Ok(Section {
        name,
        locals,
        labels,
        declared,
        code,
    })
}

/// Adds a label to the section: one more of its labels stands on the lines so far.
pub fn with_label(mut section: Section) -> Section
    requires { section.declared < length section.labels }
    ensures thread { thread_of result ≡ thread_to section (section.declared + 1) }
    ensures labels { result.labels ≡ section.labels }
{
    section.declared += 1;
    section
}

/// With one more instruction.
///
/// # Errors
///
/// `NoMemory` where an allocation fails.
pub fn with_code(mut section: Section, code: Code) -> Result<Section, NoMemory>
    requires { length section.code.items < most_code }
    ensures thread { IfOk result (λ s. thread_of s ≡ code_added (thread_of section) code) }
    ensures labels { IfOk result (λ s. s.labels ≡ section.labels) }
{
    match section.code.push(code) {
        Ok(()) => Ok(section),
        Err(_) => Err(NoMemory),
    }
}

/// The thread of a section that is closed, all of whose labels stand on its lines so far.
pub fn closed(section: Section) -> ThreadDef
    requires { section.labels ≡ (thread_of section).labels }
    ensures { result ≡ thread_of section }
{
    let Section {
        name,
        locals,
        labels,
        declared: _,
        code,
    } = section;
    ThreadDef {
        name,
        locals: List::of(locals.into_items()),
        labels: List::of(labels.into_items()),
        code: List::of(code),
    }
}
