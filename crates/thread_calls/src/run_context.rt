//! What all turns of a run go by.

use heap_table::Heap;
use object_program::Program;

/// What each turn, instruction and entry of a run goes by: it stays the same for all of the run.
#[derive(Clone, Copy)]
pub struct RunContext<'a, C> {
    /// The program that the threads run.
    pub program: &'a Program,
    /// Their heap, which is one for this program.
    pub heap: &'a Heap,
    pub clock: &'a C,
    /// The units of time that one count of the clock has. Where it is 0, the clock is not looked at.
    pub tick: u32,
    /// How many instructions each thread may execute. Only contracts read it: a frame has what is left of its own.
    pub fuel: u32,
    /// How many instructions a thread executes in one turn at most.
    pub quantum: u32,
}
