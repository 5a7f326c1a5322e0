//! Programs as data.

use crate::name::Name;
use plain_monitor::List;
use std::marker::Model;

/// A class of objects with this many slots, 0 to 16.
#[derive(Clone, Copy)]
pub struct ClassDef {
    pub name: Name,
    pub slots: u32,
}

/// A declaration of one object, or of an array of `size` objects. It stands for the objects `first` to `first + size - 1`.
#[derive(Clone, Copy)]
pub struct ObjectDef {
    pub name: Name,
    /// The number of its class.
    pub class: u32,
    pub first: u32,
    pub size: u32,
    /// Whether it was declared as an array.
    pub array: bool,
}

/// A label and the number of the instruction that it names, from 1.
#[derive(Clone, Copy)]
pub struct LabelDef {
    pub name: Name,
    pub index: u32,
}

/// A thread: its locals, its labels by rising target, and its instructions, the last of which is its only `end`.
#[derive(Drop)]
pub struct ThreadDef {
    pub name: Name,
    pub locals: List<Name>,
    pub labels: List<LabelDef>,
    pub code: List<Code>,
}

/// An instruction. `x`, `y`, `z`, `i` and `o` are numbers of locals, `n` of a declaration of objects, `c` of a class and `k` of a slot, all from 0;
/// `v` is a number from -2^61 to 2^61 - 1; and `l` is the number of the target instruction, from 1, which a label of the thread
/// names.
#[derive(Clone, Copy, PartialEq, Eq)]
pub enum Code {
    /// x becomes the number v.
    Set { x: u32, v: i64 },
    /// x becomes y + z.
    Add { x: u32, y: u32, z: u32 },
    /// x becomes y - z.
    Sub { x: u32, y: u32, z: u32 },
    /// x becomes y * z.
    Mul { x: u32, y: u32, z: u32 },
    /// x refers to the first object of declaration n.
    Ref { x: u32, n: u32 },
    /// x refers to element i of declaration n.
    Elem { x: u32, n: u32, i: u32 },
    /// Enters the monitor of the object that x refers to.
    Enter { x: u32 },
    /// Leaves that monitor once.
    Exit { x: u32 },
    /// Waits on it.
    Wait { x: u32 },
    /// Notifies the oldest of those who wait on it.
    Notify { x: u32 },
    /// Notifies all who wait on it.
    NotifyAll { x: u32 },
    /// x becomes slot k of the object that o refers to.
    Get { x: u32, o: u32, k: u32 },
    /// Slot k of the object that o refers to becomes x.
    Put { o: u32, k: u32, x: u32 },
    /// x becomes the identity hash of the object that o refers to.
    Hash { x: u32, o: u32 },
    /// x refers to a new object of class c.
    New { x: u32, c: u32 },
    /// Prints x.
    Print { x: u32 },
    /// Goes on at l.
    Jump { l: u32 },
    /// Goes on at l where x is less than y.
    Jlt { x: u32, y: u32, l: u32 },
    /// Goes on at l where x equals y.
    Jeq { x: u32, y: u32, l: u32 },
    /// Dumps all owners and counts.
    Dump,
    /// Ends the thread.
    End,
}

/// A program that a text may have: its names, numbers, targets and counts are allowed ones (`specs/Valid.antt`).
#[derive(Drop)]
pub struct Program {
    pub classes: List<ClassDef>,
    pub objects: List<ObjectDef>,
    pub threads: List<ThreadDef>,
}

impl Model for Program {
    ghost use Rattle.object_program.specs.Program.{ProgramText};

    ghost Value = { ProgramText };

    ghost use Rattle.object_program.specs.ProgramView.{program_text, IsAllowed};

    ghost view = { program_text };

    ghost invariant = { IsAllowed };
}
