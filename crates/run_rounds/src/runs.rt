//! The run of a program's threads on workers.

ghost use Rattle.std.specs.Prelude.{◌≡◌, ◌≤◌, [], map, IfOk, vec_len, vec_capacity};
ghost use Rattle.thread_calls.specs.Between.{IsHeapOf};
ghost use Rattle.run_rounds.specs.Outcome.{IsRunOutcome};
ghost use Rattle.run_rounds.specs.Rounds.{AreReady};

use crate::run_terms::RunTerms;
use crate::workers::serve_until_over;
use heap_table::{Closed, Heap, Pass, close};
use plain_monitor::{List, NoMemory};
use run_io::{Clock, Gate};
use std::alloc::Global;
use std::sync::Wait;
use std::thread::Threads;
use thread_interp::Runner;
use thread_logs::{a_log_tells_where_its_thread_stands, the_machine_is_what_the_logs_make_it};
use wait_history::waits_follow_from_the_own_log;

fn into_passes(runners: Vec<Runner>, mut passes: Vec<Pass>) -> Vec<Pass>
    requires empty { passes.items ≡ [] }
    requires room { vec_len runners ≤ vec_capacity passes }
    ensures { result.items ≡ map (λ r. r.pass) runners.items }
{
    for runner in runners {
        passes.push_reserved(runner.into_pass());
    }
    passes
}

/// Runs the threads of a program on workers, and closes its heap.
///
/// The runners are those of this heap, one for each thread in the order of the threads, all with one fuel, in
/// instructions, and no check of theirs is unfinished: as `Runner::new` gives them, or after turns of their own.
/// Each of the terms' workers, or of as many as there are threads where these are fewer, takes runners that are ready,
/// one after the other, and gives each a turn of at most `quantum` instructions. It returns when all threads have
/// ended, or when the run was halted because it is stuck, and it may wait for workers.
///
/// The time that a call gets is `1 + tick * count`, in milliseconds, for some count of the clock. Earlier calls on
/// these runners were given theirs by the same `tick`.
///
/// # Errors
///
/// `NoMemory` where an allocation fails, before the first turn.
pub fn run<R: Threads + Wait + Sync, C: Clock + Sync, G: Gate + Sync>(
    rt: &R,
    alloc: Global,
    heap: Heap,
    runners: List<Runner>,
    terms: &RunTerms<C, G>,
) -> Result<Closed, NoMemory>
    requires workers { 1 ≤ terms.now.workers }
    requires quantum { 1 ≤ terms.now.quantum }
    requires program { IsHeapOf heap terms.now.program.now }
    requires runners { AreReady heap terms.now.program.now terms.now.fuel terms.now.tick runners }
    ensures { IfOk result (IsRunOutcome heap.heap terms.now.program.now terms.now.fuel terms.now.tick) }
{
    let passes = Vec::with_capacity(alloc, runners.items().len()).map_err(|_| NoMemory)?;
    let room = Vec::with_capacity(alloc, runners.items().len()).map_err(|_| NoMemory)?;
    let runners = runners.into_vec();
    let few = RunTerms {
        workers: terms.workers.min(runners.len() as u32),
        ..*terms
    };
    let runners = serve_until_over(rt, alloc, &heap, &few, runners, room)?;
    let passes = into_passes(runners, passes);
    the_machine_is_what_the_logs_make_it();
    a_log_tells_where_its_thread_stands();
    waits_follow_from_the_own_log();
    Ok(close(heap, List::of(passes)))
}
