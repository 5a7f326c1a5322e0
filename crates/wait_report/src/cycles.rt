//! The threads that wait for one another in a circle.

ghost use Rattle.std.specs.Prelude.{◌≡◌, ◌++◌, IfOk, OnOk, option_to_list, length};
ghost use Rattle.wait_report.specs.Cycles.{AreCycles};

use crate::walk::walk;
use object_program::Program;
use plain_machine::Machine;
use plain_monitor::{List, NoMemory};
use std::alloc::Global;

/// A thread, and the object by which it waits for the thread of the next link.
#[derive(Clone, Copy, Debug, PartialEq, Eq)]
pub struct Link {
    pub thread: u32,
    pub object: u32,
}

/// Threads that wait for one another in a circle, the least first. The last waits for the first.
#[derive(Drop)]
pub struct Cycle {
    pub links: List<Link>,
}

/// All cycles of a machine of the program, each once, by rising first thread. The list is empty exactly where there
/// is none.
///
/// # Errors
///
/// `NoMemory` where an allocation fails.
pub fn find_cycles(
    alloc: Global,
    program: &Program,
    machine: &Machine,
) -> Result<List<Cycle>, NoMemory>
    requires { length machine.now.threads ≡ length program.now.threads }
    ensures { IfOk result (AreCycles machine.now) }
{
    let threads = program.threads.items().len() as u32;
    let mut cycles = Vec::new(alloc);
    for first in 0..threads {
        let cycle = walk(alloc, machine, threads, first)?;
        add(&mut cycles, cycle)?;
    }
    Ok(List::of(cycles))
}

/// Adds the cycle, where there is one.
fn add(cycles: &mut Vec<Cycle>, cycle: Option<Cycle>) -> Result<(), NoMemory>
    ensures { OnOk result (cycles.new.items ≡ cycles.old.items ++ option_to_list cycle) }
{
    if let Some(cycle) = cycle {
        cycles.push(cycle).map_err(|_| NoMemory)?;
    }
    Ok(())
}
