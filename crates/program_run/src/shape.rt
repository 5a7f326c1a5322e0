//! The shape of a program's heap.

ghost use Rattle.std.specs.Prelude.{◌≡◌, ◌++◌, map, replicate, IfOk, OnOk};
ghost use Rattle.object_program.specs.Program.{classes_from};
ghost use Rattle.object_program.specs.Valid.{IsProgram};
ghost use Rattle.program_run.specs.HeapFor.{shape_for};
ghost use Rattle.program_run.specs.inner.HeapFor.{declared_for};

use heap_table::HeapShape;
use object_program::Program;
use plain_monitor::NoMemory;
use std::alloc::Global;

/// Makes the shape of a heap for the program: it has its threads, classes and objects, and numbers for those that
/// threads may make.
///
/// # Errors
///
/// `NoMemory` where an allocation fails.
pub fn heap_shape(alloc: Global, program: &Program) -> Result<HeapShape, NoMemory>
    ensures shape { IfOk result (λ s. s ≡ shape_for program.now) }
    ensures program { IfOk result (λ _. IsProgram program.now) }
{
    let shape = declared_shape(alloc, program)?;
    let total = program.objects_total();
    let declared = program.declared_total();
    if total == declared {
        return Ok(shape);
    }
    shape.with_made(program.made_slots())
}

// The shape with the declared objects alone.
fn declared_shape(alloc: Global, program: &Program) -> Result<HeapShape, NoMemory>
    ensures shape { IfOk result (λ s. s ≡ declared_for program.now) }
    ensures program { IfOk result (λ _. IsProgram program.now) }
{
    let slots = slots_by_class(alloc, program)?;
    let classes = classes_by_object(alloc, program)?;
    let threads = program.threads.items().len() as u32;
    let declared = program.declared_total();
    HeapShape::of(
        alloc,
        threads,
        slots.as_slice(),
        classes.as_slice(),
        declared,
    )
}

// The number of slots of each class.
fn slots_by_class(alloc: Global, program: &Program) -> Result<Vec<u32>, NoMemory>
    ensures { IfOk result (λ v. v.items ≡ map (λ c. c.slots) program.now.classes) }
{
    let mut slots = Vec::new(alloc);
    for class in program.classes.items() {
        slots.push(class.slots).map_err(|_| NoMemory)?;
    }
    Ok(slots)
}

// The class of each declared object.
fn classes_by_object(alloc: Global, program: &Program) -> Result<Vec<u32>, NoMemory>
    ensures { IfOk result (λ v. v.items ≡ classes_from program.now.objects) }
{
    let mut classes = Vec::new(alloc);
    for definition in program.objects.items() {
        push_class(&mut classes, definition.size, definition.class)?;
    }
    Ok(classes)
}

// Adds the class of so many objects.
fn push_class(classes: &mut Vec<u32>, size: u32, class: u32) -> Result<(), NoMemory>
    ensures { OnOk result (classes.new.items ≡ classes.old.items ++ replicate size class) }
{
    for _ in 0..size {
        classes.push(class).map_err(|_| NoMemory)?;
    }
    Ok(())
}
