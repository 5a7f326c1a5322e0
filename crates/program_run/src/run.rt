//! The run of a program.

ghost use Rattle.std.specs.Prelude.{◌≤◌, IfOk};
ghost use Rattle.plain_monitor.specs.Limits.{most_fuel};
ghost use Rattle.run_rounds.specs.Outcome.{IsRunOutcome};
ghost use Rattle.program_run.specs.HeapFor.{heap_for};
ghost use Rattle.program_run.specs.Ran.{IsRan};

use crate::laws::the_record_tells_the_run;
use crate::opening::open;
use crate::record::record_of;
use crate::settings::{Ran, Settings};
use heap_table::Closed;
use object_program::Program;
use plain_monitor::NoMemory;
use run_io::{Clock, Gate};
use run_rounds::RunTerms;
use std::alloc::Global;
use std::sync::Wait;
use std::thread::Threads;

/// Runs the program, until all its threads have ended or no thread can go on.
///
/// The fuel is at most 200,000 instructions a thread. The threads run on as many workers as the settings say, each in
/// turns of at most `quantum` instructions. The clock tells the policy of biases the time: `tick` milliseconds for
/// each count. Which of the legal runs it is the workers decide, and the call may wait for them.
///
/// The record's logs are legal for the program, and the machine under them is over; its stamps are exact, its hashes
/// are the draws of the threads' generators, its shots are right, and the law of biases holds of it. Where a tick is
/// 0, the verdicts on a class alone tell its count and its bulk operations.
///
/// # Errors
///
/// `NoMemory` where an allocation fails.
pub fn run_program<R: Threads + Wait + Sync, C: Clock + Sync, G: Gate + Sync>(
    rt: &R,
    alloc: Global,
    program: Program,
    settings: &Settings,
    clock: &C,
    gate: &G,
) -> Result<Ran, NoMemory>
    requires fuel { settings.now.fuel ≤ most_fuel }
    requires workers { 1 ≤ settings.now.workers }
    requires quantum { 1 ≤ settings.now.quantum }
    ensures { IfOk result (λ ran. IsRan settings.now program ran.record ran.closed) }
{
    the_record_tells_the_run();
    let closed = run_closed(rt, alloc, &program, settings, clock, gate)?;
    let record = record_of(rt, alloc, program, settings, &closed)?;
    Ok(Ran { record, closed })
}

// Runs the program and closes its heap, and makes no record.
fn run_closed<R: Threads + Wait + Sync, C: Clock + Sync, G: Gate + Sync>(
    rt: &R,
    alloc: Global,
    program: &Program,
    settings: &Settings,
    clock: &C,
    gate: &G,
) -> Result<Closed, NoMemory>
    requires fuel { settings.now.fuel ≤ most_fuel }
    requires workers { 1 ≤ settings.now.workers }
    requires quantum { 1 ≤ settings.now.quantum }
    ensures { IfOk result (IsRunOutcome (heap_for settings.now program.now) program.now
        settings.now.fuel settings.now.tick) }
{
    let (heap, runners) = open(alloc, program, settings)?;
    let terms = RunTerms {
        program,
        clock,
        gate,
        tick: settings.tick,
        fuel: settings.fuel,
        quantum: settings.quantum,
        workers: settings.workers,
    };
    run_rounds::run(rt, alloc, heap, runners, &terms)
}
