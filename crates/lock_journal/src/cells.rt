//! The lines of the objects in a dump.

ghost use Rattle.std.specs.Prelude.{◌≡◌, ◌+◌, ◌<◌, ◌∷◌, [], length, drop, IfSome, MatchBool, MatchOption};
ghost use Rattle.object_program.specs.Program.{ProgramText};
ghost use Rattle.lock_journal.specs.RunText.{cells_lines};
ghost use Rattle.lock_journal.specs.LinesLeft.{cells_of, cells_left};
ghost use Rattle.lock_journal.specs.inner.LineTexts.{held_line};

use crate::line::Line;
use crate::record::{Cell, RunRecord};
use crate::words::{push_object_at, push_thread};
use object_program::Program;

/// Where the lines of a dump go on.
#[derive(Clone, Copy)]
pub(crate) struct Place {
    /// The thread that made the dump.
    pub(crate) thread: u32,
    /// The number of the dump among those of its thread, from 1.
    pub(crate) number: u32,
    /// The next object.
    pub(crate) object: usize,
}

/// An object, the owner of its monitor, and how often that holds it.
#[derive(Clone, Copy)]
pub(crate) struct Held {
    pub(crate) object: usize,
    pub(crate) owner: u32,
    pub(crate) count: u32,
}

/// Writes the line of the next object with an owner. False exactly where there is none, or no dump is being given, and then `out`
/// stays empty.
pub(crate) fn next_cell(cells: &mut Option<Place>, run: &RunRecord, out: &mut Line) -> bool
    requires { out.old ≡ [] }
    ensures { MatchBool result
        (cells_left run.now cells.old ≡ out.new ∷ cells_left run.now cells.new)
        ((cells_left run.now cells.old ≡ []) × (cells_left run.now cells.new ≡ []) × (out.new ≡ [])) }
{
    let Some(place) = *cells else {
        return false;
    };
    match next_held(cells_of(run, place.thread, place.number), place.object) {
        Some(held) => {
            push_held(out, &run.program, held);
            *cells = Some(Place {
                thread: place.thread,
                number: place.number,
                object: held.object + 1,
            });
            true
        }
        None => false,
    }
}

/// The cells of a dump of thread `t`, by its number. None where there is no such dump.
fn cells_of(run: &RunRecord, t: u32, number: u32) -> &[Cell]
    ensures { result.now ≡ cells_of run.now t number }
{
    let Some(shots) = run.shots.items().get(t as usize) else {
        return &[];
    };
    let place = number.saturating_sub(1);
    match shots.items().get(place as usize) {
        Some(shot) => shot.cells.items(),
        None => &[],
    }
}

/// The first of these cells that has an owner, from object `first` on.
fn next_held(cells: &[Cell], first: usize) -> Option<Held>
    ensures lines { MatchOption result
        ((p : ProgramText) → cells_lines p first (drop first cells.now) ≡ [])
        (λ x. (p : ProgramText)
        → cells_lines p first (drop first cells.now) ≡ held_line p x
        ∷ cells_lines p (x.object + 1) (drop (x.object + 1) cells.now)) }
    ensures within { IfSome result (λ x. x.object < length cells.now) }
{
    let mut object = first;
    while object < cells.len() {
        let cell = cells[object];
        if let Some(owner) = cell.owner {
            return Some(Held {
                object,
                owner,
                count: cell.count,
            });
        }
        object += 1;
    }
    None
}

/// Writes the line of an object that has an owner.
fn push_held(out: &mut Line, program: &Program, held: Held)
    requires { out.old ≡ [] }
    ensures { out.new ≡ held_line program.now held }
{
    push_object_at(out, program, held.object);
    out.push(b" held by ");
    push_thread(out, program, held.owner);
    out.push(b" ");
    out.push_number(u64::from(held.count));
    out.end();
}
