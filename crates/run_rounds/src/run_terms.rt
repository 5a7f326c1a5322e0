//! How a program's threads are run.

use object_program::Program;

/// The program of a run, and how its threads are run.
#[derive(Clone, Copy)]
pub struct RunTerms<'a, K, G> {
    pub program: &'a Program,
    pub clock: &'a K,
    /// What each turn visits first.
    pub gate: &'a G,
    /// The units of time that one count of the clock has.
    pub tick: u32,
    /// How many instructions each thread may execute.
    pub fuel: u32,
    /// How many instructions a thread executes in one turn at most.
    pub quantum: u32,
    pub workers: u32,
}
