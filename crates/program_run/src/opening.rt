//! The heap and the threads of a program before the first turn.

ghost use Rattle.std.specs.Prelude.{◌≡◌, ◌≤◌, IfOk};
ghost use Rattle.plain_monitor.specs.Limits.{most_fuel};
ghost use Rattle.run_rounds.specs.Rounds.{AreReady};
ghost use Rattle.run_rounds.specs.Between.{IsHeapOf};
ghost use Rattle.program_run.specs.HeapFor.{heap_for};

use crate::settings::Settings;
use crate::shape::heap_shape;
use heap_table::Heap;
use object_program::Program;
use plain_monitor::{List, NoMemory};
use run_rounds::{Runner, first_runners};
use std::alloc::Global;

/// Makes the heap of the program, and a runner for each of its threads in their order, before the first turn.
///
/// # Errors
///
/// `NoMemory` where an allocation fails.
pub fn open(
    alloc: Global,
    program: &Program,
    settings: &Settings,
) -> Result<(Heap, List<Runner>), NoMemory>
    requires fuel { settings.now.fuel ≤ most_fuel }
    ensures heap { IfOk result (λ r. r.0.heap ≡ heap_for settings.now program.now) }
    ensures program { IfOk result (λ r. IsHeapOf r.0 program.now) }
    ensures runners { IfOk result (λ r. AreReady r.0 program.now settings.now.fuel settings.now.tick r.1) }
{
    let shape = heap_shape(alloc, program)?;
    let (heap, passes) = lawful_heap::new_heap(
        alloc,
        shape,
        settings.fuel,
        settings.start,
        settings.bias,
    )?;
    let runners = first_runners(alloc, passes, settings.fuel)?;
    Ok((heap, runners))
}
