//! Names, values and faults, written after what a line holds.

ghost use Rattle.std.specs.Prelude.{◌≡◌, ◌+◌, ◌/◌, ◌%◌, ◌≤◌, ◌++◌, length, codes, decimal, Some, IfSome, slice_get, option_map};
ghost use Rattle.plain_monitor.specs.Limits.{most_made};
ghost use Rattle.lock_journal.specs.Words.{element_text, object_text, thread_text, value_text, path_text, fault_text};
ghost use Rattle.lock_journal.specs.RunText.{ending_text};

use crate::line::Line;
use object_program::{Name, ObjectDef, Program};
use plain_monitor::limits::MADE;
use plain_monitor::{Ending, Fault, Path, Value};

/// Writes the name of object `o`, in at most 64 bytes: of a declared one its own, for an array's with the element in brackets, and of one
/// that a thread makes the thread's, with the object's number among the thread's after a dot.
pub fn push_object(out: &mut Line, program: &Program, o: u32)
    requires { length out.old + 64 ≤ 512 }
    ensures text { out.new ≡ out.old ++ object_text program.now o }
    ensures short { length out.new ≤ length out.old + 64 }
{
    push_object_at(out, program, o as usize);
}

/// Writes the name of the object with this place among all.
pub(crate) fn push_object_at(out: &mut Line, program: &Program, place: usize)
    requires { length out.old + 64 ≤ 512 }
    ensures text { out.new ≡ out.old ++ object_text program.now place }
    ensures short { length out.new ≤ length out.old + 64 }
{
    let objects = program.objects.items();
    let declared = program.declared_total() as usize;
    if place >= declared {
        push_made(out, program, place - declared);
        return;
    }
    let (number, element) = program.place_of(place as u32);
    match object_at(objects, number) {
        None => {}
        Some(object) => push_element(out, &object, element),
    }
}

/// Writes the name of an object that a thread makes, by its place among all of these, in at most 64 bytes.
fn push_made(out: &mut Line, program: &Program, place: usize)
    requires { length out.old + 64 ≤ 512 }
    ensures text { out.new ≡ out.old ++ (thread_text program.now (place / most_made) ++ codes "." ++ decimal (place % most_made)) }
    ensures short { length out.new ≤ length out.old + 64 }
{
    match name_at(program, place / MADE as usize) {
        None => {}
        Some(name) => out.push(name.bytes()),
    }
    out.push(b".");
    out.push_number((place % MADE as usize) as u64);
}

/// The declaration with this number, whose name has at most 32 bytes.
fn object_at(objects: &[ObjectDef], number: u32) -> Option<ObjectDef>
    ensures at { result ≡ slice_get objects.now number }
    ensures short { IfSome result (λ object. length object.name ≤ 32) }
{
    objects.get(number as usize).copied()
}

/// Writes the name of an element of a declaration, in at most 64 bytes.
fn push_element(out: &mut Line, object: &ObjectDef, element: u32)
    requires room { length out.old + 64 ≤ 512 }
    requires name { length object.now.name ≤ 32 }
    ensures text { out.new ≡ out.old ++ element_text element (Some object.now) }
    ensures short { length out.new ≤ length out.old + 64 }
{
    if object.array {
        out.push(object.name.bytes());
        out.push(b"[");
        out.push_number(u64::from(element));
        out.push(b"]");
    } else {
        out.push(object.name.bytes());
    }
}

/// Writes the name of thread `t`, in at most 32 bytes. Nothing where the program has no such thread.
pub fn push_thread(out: &mut Line, program: &Program, t: u32)
    requires { length out.old + 32 ≤ 512 }
    ensures text { out.new ≡ out.old ++ thread_text program.now t }
    ensures short { length out.new ≤ length out.old + 32 }
{
    match name_at(program, t as usize) {
        None => {}
        Some(name) => out.push(name.bytes()),
    }
}

/// The name of thread `t`, which has at most 32 bytes.
fn name_at(program: &Program, t: usize) -> Option<Name>
    ensures at { result ≡ option_map (λ thread. thread.name) (slice_get program.now.threads t) }
    ensures short { IfSome result (λ name. length name ≤ 32) }
{
    let thread = program.threads.items().get(t)?;
    Some(thread.name)
}

/// Writes a value, in at most 64 bytes: `nil`, a number in decimal digits, or the name of an object.
pub(crate) fn push_value(out: &mut Line, program: &Program, value: Value)
    requires { length out.old + 64 ≤ 512 }
    ensures text { out.new ≡ out.old ++ value_text program.now value }
    ensures short { length out.new ≤ length out.old + 64 }
{
    match value {
        Value::Nil => out.push(b"nil"),
        Value::Int(number) => out.push_signed(number),
        Value::Ref(o) => push_object(out, program, o),
    }
}

/// The name of a fault, at most 19 bytes.
fn fault_word(fault: Fault) -> &'static [u8]
    ensures text { result.now ≡ fault_text fault }
    ensures short { length result.now ≤ 19 }
{
    match fault {
        Fault::IllegalMonitorState => b"IllegalMonitorState",
        Fault::Unguarded => b"Unguarded",
        Fault::NotRef => b"NotRef",
        Fault::NotInt => b"NotInt",
        Fault::Range => b"Range",
        Fault::Overflow => b"Overflow",
        Fault::TooDeep => b"TooDeep",
        Fault::TooManyDumps => b"TooManyDumps",
        Fault::TooMany => b"TooMany",
    }
}

/// Writes how an enter took its monitor, in at most 16 bytes.
pub(crate) fn push_path(out: &mut Line, path: Path)
    requires { length out.old + 16 ≤ 512 }
    ensures text { out.new ≡ out.old ++ path_text path }
    ensures short { length out.new ≤ length out.old + 16 }
{
    match path {
        Path::BiasOwn => out.push(b"bias-own"),
        Path::BiasTaken => out.push(b"bias-taken"),
        Path::StackFirst => out.push(b"stack-first"),
        Path::StackAgain => out.push(b"stack-again"),
        Path::MonitorFirst => out.push(b"monitor-first"),
        Path::MonitorAgain => out.push(b"monitor-again"),
    }
}

/// Writes how a thread ended, in at most 64 bytes: `done`, `spent`, or its fault and the number of the instruction.
pub(crate) fn push_ending(out: &mut Line, ending: Ending)
    requires { length out.old + 64 ≤ 512 }
    ensures text { out.new ≡ out.old ++ ending_text ending }
    ensures short { length out.new ≤ length out.old + 64 }
{
    match ending {
        Ending::Done => out.push(b"done"),
        Ending::Spent => out.push(b"spent"),
        Ending::Trap { fault, index } => {
            out.push(b"fault ");
            out.push(fault_word(fault));
            out.push(b" at ");
            out.push_number(u64::from(index));
        }
    }
}
