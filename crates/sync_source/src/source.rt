//! Programs with blocks, as data.

use object_program::{ClassDef, Code, Name, ObjectDef};
use plain_monitor::List;
use std::marker::Model;

/// A test of two locals, which it names by their numbers, from 0.
#[derive(Clone, Copy, Debug, PartialEq, Eq)]
pub struct Test {
    /// Whether it asks if x and y are the same value, of any kind. Else it asks if x is a smaller number than y, where both have to be
    /// numbers: else the thread ends by the fault `NotInt`.
    pub equal: bool,
    pub x: u32,
    pub y: u32,
}

/// Statements, one after the other, or none.
#[cycle(blocks)]
#[derive(Drop)]
pub struct Block {
    pub statements: Vec<Statement>,
}

/// A statement. Where no fuel is left for what it pays next, its thread ends as `Spent`.
#[cycle(blocks)]
#[derive(Drop)]
pub enum Statement {
    /// An instruction other than `Enter`, `Exit`, `Jump`, `Jlt` and `Jeq`. It costs one fuel.
    Plain(Code),
    /// Enters the monitor of the object that the local refers to, runs the block, and exits that monitor. The enter costs one fuel, and the
    /// exit one. No instruction of the block gives a value to the local.
    Sync {
        local: u32,
        body: Block,
    },
    /// Runs `body` where the test holds, and else `other`, the block of its `else`, which has no statements where there is none. The test
    /// costs one fuel, and where it doesn't hold, one more is paid after `other`.
    If {
        test: Test,
        body: Block,
        other: Block,
    },
    /// Runs the block for as long as the test holds. Each test costs one fuel, and one more is paid after each pass, and where the test
    /// doesn't hold.
    While {
        test: Test,
        body: Block,
    },
}

/// A thread: its locals, and its body, the last statement of which is its only `End`.
#[derive(Drop)]
pub struct SyncThread {
    pub name: Name,
    pub locals: List<Name>,
    pub body: Block,
}

/// A program with blocks that a text may have (`specs/Valid.antt`). Of classes, objects, threads, names, locals and operands holds what holds
/// of those of a `Program`. In a thread at most 32 blocks stand one in another, and its code has at most 4,096 instructions: two for each
/// `Sync` and `If`, three for each `While`, and one for each other statement.
#[derive(Drop)]
pub struct SyncProgram {
    pub classes: List<ClassDef>,
    pub objects: List<ObjectDef>,
    pub threads: List<SyncThread>,
}

impl Model for SyncProgram {
    ghost use Rattle.sync_source.specs.SourceView.{SyncParts};
    ghost use Rattle.sync_source.specs.contracts.source.Statement as statement;
    ghost use Rattle.std.specs.Coded.{codes};

    ghost Value = { SyncParts };

    ghost coded = { Prim.hlevel (codes, statement.the_row.coded) };

    ghost use Rattle.sync_source.specs.SourceView.{parts, IsAllowed};

    ghost view = { parts };

    ghost invariant = { IsAllowed };
}
