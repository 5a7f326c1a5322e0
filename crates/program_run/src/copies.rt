//! Copies of the logs and the shots of a closed heap.

ghost use Rattle.std.specs.Prelude.{◌≡◌, ◌≤◌, ◌<◌, length, slice_get, map, Some, IfOk, IfSome};
ghost use Rattle.heap_table.specs.Cells.{cells_shown};
ghost use Rattle.program_run.specs.Left.{cells_left, shot_left, shots_left};

use lock_journal::{Cell, Shot};
use plain_monitor::{List, Logged};
use std::alloc::{AllocError, Global};
use std::thread;
use std::thread::Threads;

/// Copies the logs, by at most `workers` threads: the pages of long logs are new ones, and to touch them takes longer
/// than to copy.
///
/// # Errors
///
/// `AllocError` where an allocation fails.
pub fn copy_logs<R: Threads + Sync>(
    rt: &R,
    alloc: Global,
    logs: &[List<Logged>],
    workers: u32,
) -> Result<List<List<Logged>>, AllocError>
    requires { 1 ≤ workers }
    ensures { IfOk result (λ copied. copied ≡ logs.now) }
{
    let mut copies = places_for(alloc, logs)?;
    thread::for_each_mut(
        rt,
        copies.as_mut_slice(),
        workers as usize,
        &|i: usize, copy: &mut Option<List<Logged>>|
            requires { i < length logs.now }
            ensures { IfSome copy.exit.now (λ copied. slice_get logs.entry.now i ≡ Some copied) }
        { *copy = copy_log(alloc, &logs[i]) },
    );
    all_of(alloc, copies)
}

// A place for a copy of each log.
fn places_for(alloc: Global, logs: &[List<Logged>]) -> Result<Vec<Option<List<Logged>>>, AllocError>
    ensures { IfOk result (λ places. length places.items ≡ length logs.now) }
{
    let mut places = Vec::with_capacity(alloc, logs.len())?;
    for _ in logs {
        places.push(None)?;
    }
    Ok(places)
}

// One log, where there is memory for it.
fn copy_log(alloc: Global, log: &List<Logged>) -> Option<List<Logged>>
    ensures { IfSome result (λ copied. copied ≡ log.now) }
{
    Some(List::of(Vec::from_slice(alloc, log.items()).ok()?))
}

// The copies, where each was made.
fn all_of(
    alloc: Global,
    copies: Vec<Option<List<Logged>>>,
) -> Result<List<List<Logged>>, AllocError>
    ensures { IfOk result (λ copied. copies.items ≡ map Some copied) }
{
    let mut copied = Vec::with_capacity(alloc, copies.len())?;
    for copy in copies {
        copied.push(copy.ok_or(AllocError)?)?;
    }
    Ok(List::of(copied))
}

/// Copies the shots of each thread, as a record has them.
///
/// # Errors
///
/// `AllocError` where an allocation fails.
pub fn copy_shots(
    alloc: Global,
    shots: &[List<heap_table::Shot>],
) -> Result<List<List<Shot>>, AllocError>
    ensures { IfOk result (λ copied. copied ≡ map shots_left shots.now) }
{
    let mut copied = Vec::with_capacity(alloc, shots.len())?;
    for own in shots {
        copied.push(copy_own(alloc, own.items())?)?;
    }
    Ok(List::of(copied))
}

// The shots of one thread.
fn copy_own(alloc: Global, shots: &[heap_table::Shot]) -> Result<List<Shot>, AllocError>
    ensures { IfOk result (λ copied. copied ≡ shots_left shots.now) }
{
    let mut copied = Vec::with_capacity(alloc, shots.len())?;
    for shot in shots {
        copied.push(copy_shot(alloc, shot)?)?;
    }
    Ok(List::of(copied))
}

fn copy_shot(alloc: Global, shot: &heap_table::Shot) -> Result<Shot, AllocError>
    ensures { IfOk result (λ copied. copied ≡ shot_left shot.now) }
{
    Ok(Shot {
        number: shot.number,
        cut: List::of(Vec::from_slice(alloc, shot.cut.items())?),
        cells: List::of(copy_cells(alloc, shot.cells.items())?),
    })
}

fn copy_cells(alloc: Global, cells: &[heap_table::Cell]) -> Result<Vec<Cell>, AllocError>
    ensures { IfOk result (λ copied. copied.items ≡ cells_left (cells_shown cells.now)) }
{
    let mut copied = Vec::with_capacity(alloc, cells.len())?;
    for cell in cells {
        copied.push(Cell {
            owner: cell.owner,
            count: cell.count,
        })?;
    }
    Ok(copied)
}
