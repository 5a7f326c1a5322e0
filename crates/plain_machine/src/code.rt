//! What the machine reads of a program.

ghost use Rattle.std.specs.Prelude.{◌≡◌, ◌<◌, ◌≤◌, if◌then◌else◌, length};
ghost use Rattle.std.specs.List.Sorted.{IsNonDecreasingBy, IsPartitionPoint};
ghost use Rattle.object_program.specs.Limits.{most_code};
ghost use Rattle.object_program.specs.Program.{has_object, slots_of_class, slots_of, class_from};
ghost use Rattle.plain_machine.specs.Machine.{code_of};

use object_program::{Code, ObjectDef, Program};

/// The instructions of thread t, where threads have numbers from 0; at most 4096.
#[tactic(auto, using(crate::proofs::Codes::codes))]
pub fn code_of(program: &Program, t: u32) -> &[Code]
    requires { t < length program.now.threads }
    ensures code { result.now ≡ code_of program.now t }
    ensures few { length result.now ≤ most_code }
{
    program.threads.items()[t as usize].code.items()
}

/// How many slots an object of this class has; where there is no such class, 0.
pub fn slots_of_class(program: &Program, class: u32) -> u32
    ensures { result ≡ slots_of_class program.now.classes class }
{
    match program.classes.items().get(class as usize) {
        Some(definition) => definition.slots,
        None => 0,
    }
}

/// The slots of object o: those of its class where it is declared, and else those of an object that a thread makes.
pub fn slots_of(program: &Program, o: u32) -> u32
    ensures { result ≡ slots_of program.now o }
{
    if o < program.declared_total() {
        slots_of_class(program, class_of(program, o))
    } else {
        program.made_slots()
    }
}

/// The class of object o; where there is no such object, 0. Where no array stands before its declaration, this has the object's own
/// number, and is looked at first.
fn class_of(program: &Program, o: u32) -> u32
    ensures { result ≡ class_from program.now.objects o }
{
    if let Some(definition) = program.objects.items().get(o as usize) {
        if stands_for(definition, o) {
            return definition.class;
        }
    }
    class_found(program, o)
}

/// The class of object o by a search; where there is no such object, 0. Declarations stand by rising numbers of their objects, so
/// that it is found in few steps among many of them.
fn class_found(program: &Program, o: u32) -> u32
    ensures { result ≡ class_from program.now.objects o }
{
    let definitions = program.objects.items();
    let begun = begun_by(definitions, o);
    if begun == 0 {
        return 0;
    }
    class_by(&definitions[begun - 1], o)
}

/// How many of the declarations don't stand after object o.
fn begun_by(definitions: &[ObjectDef], o: u32) -> usize
    requires { IsNonDecreasingBy (λ d. d.first) definitions.now }
    ensures bound { result ≤ length definitions.now }
    ensures point { IsPartitionPoint (λ d. d.first ≤ o) (λ d. o < d.first) definitions.now result }
{
    definitions.partition_point(|definition| definition.first <= o)
}

/// The class of object o by this declaration; where it doesn't stand for the object, 0.
fn class_by(definition: &ObjectDef, o: u32) -> u32
    ensures { result ≡ (if has_object definition.now o then definition.now.class else 0) }
{
    if stands_for(definition, o) {
        return definition.class;
    }
    0
}

/// The declaration stands for object o.
fn stands_for(definition: &ObjectDef, o: u32) -> bool
    ensures { result ≡ has_object definition.now o }
{
    definition.first <= o && o - definition.first < definition.size
}
