//! The runners of a heap before its first turn.

ghost use Rattle.std.specs.Prelude.{◌≡◌, ◌≤◌, ℕ, map, IfOk};
ghost use Rattle.plain_monitor.specs.Limits.{most_fuel};
ghost use Rattle.heap_table.specs.Seen.{HeapSeen};
ghost use Rattle.object_program.specs.Program.{ProgramText};
ghost use Rattle.run_rounds.specs.Rounds.{AreFirst, AreReady};
ghost use Rattle.run_rounds.specs.inner.First.{runner_on};
ghost use Rattle.thread_calls.specs.Between.{IsHeapOf};

use heap_table::Pass;
use plain_monitor::{List, NoMemory};
use std::alloc::Global;
use thread_calls::unused_passes_are_on;
use thread_interp::Runner;

/// Makes the runners of a heap's threads before the first turn. Where the passes are those of a new heap of a
/// program, made for this fuel, they are ready for `run`, with ticks of any length. `fuel` is how many instructions
/// each thread may execute, at most 200,000.
///
/// # Errors
///
/// `NoMemory` where an allocation fails.
pub fn first_runners(alloc: Global, passes: List<Pass>, fuel: u32) -> Result<List<Runner>, NoMemory>
    requires { fuel ≤ most_fuel }
    ensures { IfOk result (λ rs. (h : HeapSeen) (p : ProgramText) (tick : ℕ) → IsHeapOf h p → AreFirst h fuel passes
        → AreReady h p fuel tick rs) }
{
    let runners = runners_on(alloc, passes, fuel)?;
    unused_passes_are_on();
    Ok(List::of(runners))
}

fn runners_on(alloc: Global, passes: List<Pass>, fuel: u32) -> Result<Vec<Runner>, NoMemory>
    ensures { IfOk result (λ v. v.items ≡ map (runner_on fuel) passes) }
{
    let mut runners = Vec::with_capacity(alloc, passes.items().len()).map_err(|_| NoMemory)?;
    for pass in passes.into_vec() {
        runners.push_reserved(Runner::new(pass, fuel));
    }
    Ok(runners)
}
