//! The objects of a program, and a copy of it.

ghost use Rattle.std.specs.Prelude.{◌≡◌, ◌<◌, ◌≤◌, length, IfOk};
ghost use Rattle.std.specs.List.{list_any};
ghost use Rattle.object_program.specs.Limits.{most_objects};
ghost use Rattle.object_program.specs.Program.{declared_total, objects_total, made_slots, is_new, has_new, slots_made, most_in_code, most_in, class_in_program, slots_of, place_of, has_object};
ghost use Rattle.object_program.specs.Program.{class_from, place_from};

use crate::program::{ClassDef, Code, ObjectDef, Program, ThreadDef};
use plain_monitor::limits::MADE;
use plain_monitor::{List, NoMemory};
use std::alloc::{AllocError, Global};

impl Program {
    /// How many objects the program declares, at most 4,096: declarations stand for neighbouring numbers, from 0 on.
    #[tactic(auto, using(crate::proofs::Shapes::last_total))]
    pub fn declared_total(&self) -> u32
        ensures { result ≡ declared_total self.now }
    {
        match self.objects.items().last() {
            Some(object) => object.first + object.size,
            None => 0,
        }
    }

    /// How many numbers objects have: those of the declared ones, and where some thread has a `new`, 1,024 for each thread.
    pub fn objects_total(&self) -> u32
        ensures { result ≡ objects_total self.now }
    {
        let declared = self.declared_total();
        let threads = self.threads.items();
        if has_new(threads) {
            declared + MADE * threads.len() as u32
        } else {
            declared
        }
    }

    /// The slots of an object that a thread makes, at most 16.
    pub fn made_slots(&self) -> u32
        ensures { result ≡ made_slots self.now }
    {
        most_in(self.classes.items(), self.threads.items())
    }

    /// The number of the class of declared object `o`.
    pub fn class_of(&self, o: u32) -> u32
        requires { o < declared_total self.now }
        ensures { result ≡ class_in_program self.now o }
    {
        class_among(self.objects.items(), o)
    }

    /// The number of slots of declared object `o`, at most 16.
    pub fn slots_of(&self, o: u32) -> u32
        requires { o < declared_total self.now }
        ensures { result ≡ slots_of self.now o }
    {
        let class = class_among(self.objects.items(), o);
        match self.classes.items().get(class as usize) {
            None => 0,
            Some(class) => class.slots,
        }
    }

    /// The number of the declaration that stands for declared object `o`, and which element of it the object is, from 0.
    pub fn place_of(&self, o: u32) -> (u32, u32)
        requires { o < declared_total self.now }
        ensures { result ≡ place_of self.now o }
    {
        place_among(self.objects.items(), o)
    }

    /// A copy of the program.
    ///
    /// # Errors
    ///
    /// `NoMemory` where an allocation fails.
    pub fn try_clone(&self, alloc: Global) -> Result<Program, NoMemory>
        ensures { IfOk result (λ p. p ≡ self.now) }
    {
        let classes = copy(alloc, self.classes.items()).map_err(|_| NoMemory)?;
        let objects = copy(alloc, self.objects.items()).map_err(|_| NoMemory)?;
        let threads = copy_threads(alloc, self.threads.items()).map_err(|_| NoMemory)?;
        Ok(Program {
            classes,
            objects,
            threads,
        })
    }
}

/// Whether the declaration stands for object `o`.
fn has_object(object: &ObjectDef, o: u32) -> bool
    ensures { result ≡ has_object object.now o }
{
    object.first <= o && o - object.first < object.size
}

/// Whether some thread has a `new`.
#[tactic(auto, using(crate::proofs::Made::has_new_step))]
fn has_new(threads: &[ThreadDef]) -> bool
    ensures { result ≡ has_new threads.now }
{
    for thread in threads {
        if any_new(thread.code.items()) {
            return true;
        }
    }
    false
}

/// Whether an instruction is a `new`.
#[tactic(auto, using(crate::proofs::Made::any_new_step))]
fn any_new(code: &[Code]) -> bool
    ensures { result ≡ list_any is_new code.now }
{
    for instruction in code {
        if is_new(*instruction) {
            return true;
        }
    }
    false
}

fn is_new(instruction: Code) -> bool
    ensures { result ≡ is_new instruction }
{
    match instruction {
        Code::New { .. } => true,
        _ => false,
    }
}

/// The slots of the largest class that a `new` of these threads names.
#[tactic(auto, using(crate::proofs::Made::most_in_step))]
fn most_in(classes: &[ClassDef], threads: &[ThreadDef]) -> u32
    ensures { result ≡ most_in classes.now threads.now }
{
    let mut most = 0;
    for thread in threads {
        most = most.max(most_in_code(classes, thread.code.items()));
    }
    most
}

/// The slots of the largest class that a `new` of this code names.
#[tactic(auto, using(crate::proofs::Made::most_in_code_step))]
fn most_in_code(classes: &[ClassDef], code: &[Code]) -> u32
    ensures { result ≡ most_in_code classes.now code.now }
{
    let mut most = 0;
    for instruction in code {
        most = most.max(slots_made(classes, *instruction));
    }
    most
}

/// The slots of the class that the instruction makes an object of.
fn slots_made(classes: &[ClassDef], instruction: Code) -> u32
    ensures { result ≡ slots_made classes.now instruction }
{
    match instruction {
        Code::New { c, .. } => match classes.get(c as usize) {
            None => 0,
            Some(class) => class.slots,
        },
        _ => 0,
    }
}

/// The number of the declaration that stands for object `o`, and which element the object is.
#[tactic(auto, using(crate::proofs::Shapes::place_step))]
fn place_among(objects: &[ObjectDef], o: u32) -> (u32, u32)
    requires { length objects.now ≤ most_objects }
    ensures { result ≡ place_from 0 objects.now o }
{
    let mut number = 0;
    for object in objects {
        if has_object(object, o) {
            return (number, o - object.first);
        }
        number += 1;
    }
    (number, 0)
}

/// The class of the declaration that stands for object `o`.
#[tactic(auto, using(crate::proofs::Shapes::class_step))]
fn class_among(objects: &[ObjectDef], o: u32) -> u32
    ensures { result ≡ class_from objects.now o }
{
    for object in objects {
        if has_object(object, o) {
            return object.class;
        }
    }
    0
}

/// A copy of the items.
fn copy<T: Copy>(alloc: Global, items: &[T]) -> Result<List<T>, AllocError>
    ensures { IfOk result (λ copied. copied ≡ items.now) }
{
    Ok(List::of(Vec::from_slice(alloc, items)?))
}

/// A copy of the thread.
fn copy_thread(alloc: Global, thread: &ThreadDef) -> Result<ThreadDef, AllocError>
    ensures { IfOk result (λ copied. copied ≡ thread.now) }
{
    Ok(ThreadDef {
        name: thread.name,
        locals: copy(alloc, thread.locals.items())?,
        labels: copy(alloc, thread.labels.items())?,
        code: copy(alloc, thread.code.items())?,
    })
}

/// A copy of the threads.
fn copy_threads(alloc: Global, threads: &[ThreadDef]) -> Result<List<ThreadDef>, AllocError>
    ensures { IfOk result (λ copied. copied ≡ threads.now) }
{
    let mut copied = Vec::new(alloc);
    for thread in threads {
        copied.push(copy_thread(alloc, thread)?)?;
    }
    Ok(List::of(copied))
}
