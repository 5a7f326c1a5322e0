//! What a run leaves: the record that its text is made of.

use object_program::Program;
use plain_monitor::{List, Logged};

/// A run of a program. `logs`, `shots` and the numbers of threads go by the program's threads, `classes` by its classes.
#[derive(Drop)]
pub struct RunRecord {
    pub program: Program,
    /// The fuel of each thread, in instructions.
    pub fuel: u32,
    /// What the generators of the identity hashes start from.
    pub start: u32,
    /// Whether biased locking was on.
    pub bias: bool,
    /// Each thread's entries, in its own order.
    pub logs: List<List<Logged>>,
    /// Each thread's dumps, in its own order.
    pub shots: List<List<Shot>>,
    pub classes: List<ClassLine>,
    /// Whether the run ended because no thread could go on.
    pub halted: bool,
}

/// A dump: how long each thread's log was, and what each object's monitor was.
#[derive(Drop)]
pub struct Shot {
    /// The number of the dump among those of its thread, from 1.
    pub number: u32,
    pub cut: List<u64>,
    pub cells: List<Cell>,
}

/// The owner of a monitor, and how often it holds it.
#[derive(Clone, Copy, Debug, PartialEq, Eq)]
pub struct Cell {
    pub owner: Option<u32>,
    pub count: u32,
}

/// What happened to the biases of a class: how many were revoked singly, how often they were rebiased and revoked in bulk, the
/// count that the policy goes by, and the class's prototype header.
#[derive(Clone, Copy, Debug, PartialEq, Eq)]
pub struct ClassLine {
    pub single: u64,
    pub rebias: u64,
    pub revoke: u64,
    pub count: u32,
    pub prototype: u64,
}
