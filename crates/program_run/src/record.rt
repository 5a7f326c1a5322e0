//! The record of a run, by what its heap has at the end.

ghost use Rattle.std.specs.Prelude.{◌≤◌, IfOk};
ghost use Rattle.program_run.specs.Left.{IsOfClosed};
ghost use Rattle.program_run.specs.inner.Lines.{HasSmallCounts};
ghost use Rattle.program_run.specs.Ran.{IsRecordOf};

use crate::copies::{copy_logs, copy_shots};
use crate::lines::class_lines;
use crate::settings::Settings;
use heap_table::Closed;
use lock_journal::RunRecord;
use object_program::Program;
use plain_monitor::NoMemory;
use std::alloc::Global;
use std::thread::Threads;

/// Makes the record of a run of the program that left this heap. Its logs are copied by as many threads as the
/// settings have workers.
///
/// # Errors
///
/// `NoMemory` where an allocation fails.
pub fn record_of<R: Threads + Sync>(
    rt: &R,
    alloc: Global,
    program: Program,
    settings: &Settings,
    closed: &Closed,
) -> Result<RunRecord, NoMemory>
    requires counts { HasSmallCounts closed.now }
    requires workers { 1 ≤ settings.now.workers }
    ensures of { IfOk result (IsRecordOf settings.now program) }
    ensures closed { IfOk result (λ r. IsOfClosed r closed.now) }
{
    let logs = copy_logs(rt, alloc, closed.logs().items(), settings.workers).map_err(|_| NoMemory)?;
    let shots = copy_shots(alloc, closed.shots().items()).map_err(|_| NoMemory)?;
    let classes = class_lines(alloc, closed).map_err(|_| NoMemory)?;
    Ok(RunRecord {
        program,
        fuel: settings.fuel,
        start: settings.start,
        bias: settings.bias,
        logs,
        shots,
        classes,
        halted: closed.halted(),
    })
}
