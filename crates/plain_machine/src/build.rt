//! The objects and the threads of a new machine.

ghost use Rattle.std.specs.Prelude.{◌≡◌, ◌≤◌, ◌++◌, IfOk, OnOk, length, map, replicate, vec_len};
ghost use Rattle.object_program.specs.Limits.{most_code};
ghost use Rattle.object_program.specs.Program.{shape_from, shape_of, declared_total, objects_total};
ghost use Rattle.plain_monitor.specs.Limits.{most_threads};
ghost use Rattle.plain_monitor.specs.Objects.{new_object, new_objects};
ghost use Rattle.plain_machine.specs.Running.{first_state};
ghost use Rattle.plain_machine.specs.Sound.{IsKept, AreKept};

use crate::code::slots_of_class;
use crate::object::Object;
use crate::run::run;
use crate::thread::Thread;
use object_program::{Program, ThreadDef};
use plain_monitor::NoMemory;
use std::alloc::Global;

/// The objects of a program by their numbers: those that it declares, each with the slots of its class, and those
/// that its threads may make.
///
/// # Errors
///
/// `NoMemory` where an allocation fails.
pub fn new_objects(alloc: Global, program: &Program) -> Result<Vec<Object>, NoMemory>
    ensures objects { IfOk result (λ v. v.items ≡ new_objects (shape_of program.now)) }
    ensures total { IfOk result (λ v. vec_len v ≡ objects_total program.now) }
{
    let mut objects = declared_objects(alloc, program)?;
    let made = program.objects_total() - program.declared_total();
    push_objects(alloc, &mut objects, made, program.made_slots())?;
    Ok(objects)
}

/// The objects that a program declares, each with the slots of its class.
fn declared_objects(alloc: Global, program: &Program) -> Result<Vec<Object>, NoMemory>
    ensures objects { IfOk result (λ v. v.items ≡ new_objects (shape_from program.now.classes program.now.objects)) }
    ensures total { IfOk result (λ v. vec_len v ≡ declared_total program.now) }
{
    let mut objects = Vec::new(alloc);
    for definition in program.objects.items() {
        let slots = slots_of_class(program, definition.class);
        push_objects(alloc, &mut objects, definition.size, slots)?;
    }
    Ok(objects)
}

/// Adds this many objects with so many slots.
fn push_objects(
    alloc: Global,
    objects: &mut Vec<Object>,
    size: u32,
    slots: u32,
) -> Result<(), NoMemory>
    ensures { OnOk result (objects.new.items ≡ objects.old.items ++ replicate size (new_object slots)) }
{
    for _ in 0..size {
        let object = Object::new(alloc, slots)?;
        objects.push(object).map_err(|_| NoMemory)?;
    }
    Ok(())
}

/// The threads of a program of this many objects, each before its first call.
///
/// # Errors
///
/// `NoMemory` where an allocation fails.
pub fn new_threads(
    alloc: Global,
    program: &Program,
    objects: u32,
    fuel: u32,
) -> Result<Vec<Thread>, NoMemory>
    requires { objects ≡ objects_total program.now }
    ensures threads { IfOk result (λ v. v.items ≡ map (λ t. first_state program.now t fuel) program.now.threads) }
    ensures kept { IfOk result (λ v. AreKept objects v.items) }
    ensures few { IfOk result (λ v. length v.items ≤ most_threads) }
{
    let mut threads = Vec::new(alloc);
    for definition in program.threads.items() {
        let thread = new_thread(alloc, program, definition, objects, fuel)?;
        threads.push(thread).map_err(|_| NoMemory)?;
    }
    Ok(threads)
}

/// A thread before its first call.
#[tactic(auto, using(crate::proofs::Starts::kept_start))]
fn new_thread(
    alloc: Global,
    program: &Program,
    definition: &ThreadDef,
    objects: u32,
    fuel: u32,
) -> Result<Thread, NoMemory>
    requires locals { length definition.now.locals ≤ 32 }
    requires few { length definition.now.code ≤ most_code }
    requires objects { objects ≡ objects_total program.now }
    ensures first { IfOk result (λ s. s ≡ first_state program.now definition.now fuel) }
    ensures kept { IfOk result (λ s. IsKept objects s) }
{
    let locals = definition.locals.items().len() as u32;
    let mut thread = Thread::new(alloc, locals, objects, fuel)?;
    run(program, definition.code.items(), &mut thread, fuel);
    Ok(thread)
}
