//! How a quick exit ends, once the mark was found: with the hold word cleared, where the lock was let go. The seat is ahead of the mirror up to then.
ghost use Rattle.std.specs.Prelude.{◌≡◌, ◌≢◌, ◌+◌, ◌^◌, ◌<◌, None, [], ◌∷◌};
ghost use Rattle.mark_word.specs.Mark.{read_mark};
ghost use Rattle.core_world.specs.declared.word_id.WordId.TheVariants.{Mark};
ghost use Rattle.core_world.specs.Locks.{hold_count};
ghost use Rattle.core_world.specs.Threads.ThreadView.{local_of};
ghost use Rattle.core_world.specs.Words.Forms.{is_biased};
ghost use Rattle.heap_table.specs.Layout.{place_of, word_count};
ghost use Rattle.heap_table.specs.Ruled.{heap_in, only};
ghost use Rattle.heap_table.specs.inner.Seats.{IsSeatOn, IsTableOf};
ghost use Rattle.heap_table.specs.inner.Amid.{Awaits, IsIdle, IsSameFrame, KeepsExit, Leads, LeavesIdle, MayLeave, exit_found, exit_left, lagging};
ghost use Rattle.heap_table.specs.declared.quick.QuickExit.TheVariants.{Left};
ghost use Rattle.heap_table.specs.inner.Leaving.{IsAmidPart, KeepsPart, PartLeads, clear_by, clears, ending_part, left_by};

use crate::call_context::CallContext;
use crate::mirror::Mirror;
use crate::plans::{logging, quiet};
use crate::quick::QuickExit;
use crate::quick_exits::{ExitPart, part};
use crate::rule::{Place, Words};
use crate::setting::Setting;
use crate::steps::step_at;
use core_world::{Act, Stage, StepPlan, WordId};
use plain_monitor::Entry;

// The step that clears the hold word at this place, which logs Exit, or of which Exit was logged.
#[inline(always)]
fn clearing(call: &CallContext, object: u32, at: WordId, logged: bool) -> StepPlan
    ensures { result ≡ clear_by logged call.now object at }
{
    let act = Act::Store { word: 0 };
    if logged {
        let over = CallContext {
            task: call.task,
            unfinished: None,
            check: call.check,
        };
        return quiet(&over, Stage::Settled, at, act);
    }
    logging(call, Stage::Settled, at, act, Entry::Exit { object })
}

// Clears the hold word at this place, and keeps the entry, which one of the steps has logged.
#[inline(always)]
fn clear_hold(
    words: &Words,
    setting: &Setting,
    seat: &mut Place,
    mirror: &mut Mirror,
    call: &CallContext,
    object: u32,
    place: u32,
    last: bool,
    logged: bool,
)
    requires setting { IsTableOf setting.now words.now.shared.key words.now.shared.table_id }
    requires seat { IsSeatOn words.now.shared.table_id seat.old }
    requires may { MayLeave call.now mirror.old object place last }
    requires amid { IsAmidPart setting.now call.now object mirror.old (only seat.old.me.0) (ending_part logged) }
    ensures seat { IsSeatOn seat.old.table_id seat.new }
    ensures frame { IsSameFrame mirror.old mirror.new }
    ensures idle { IsIdle call.now mirror.new }
    ensures leads { PartLeads setting.now call.now object mirror.old (only seat.old.me.0) (ending_part logged)
        (only seat.new.me.0) Left mirror.new }
{
    let at = WordId::Hold {
        thread: mirror.thread,
        place,
    };
    let clear = clearing(call, object, at, logged);
    let hold_at = mirror.hold_at(place);
    let found = step_at(words, setting, seat, hold_at, &clear);
    mirror.note(Entry::Exit { object }, found);
    mirror.holds.clear(place, last);
}

// Whether the hold word is left to clear, and then whether Exit was logged.
#[inline(always)]
fn clears(how: &ExitPart) -> Option<bool>
    ensures { result ≡ clears how.now }
{
    match *how {
        ExitPart::Held => Some(false),
        ExitPart::Logged => Some(true),
        _ => None,
    }
}

// How far an exit came whose ways came so far.
#[inline(always)]
fn left_by(how: &ExitPart, place: u32) -> QuickExit
    ensures { result ≡ left_by place how.now }
{
    match *how {
        ExitPart::Held => QuickExit::Left,
        ExitPart::Logged => QuickExit::Left,
        ExitPart::Inflating => QuickExit::Inflating,
        ExitPart::Raced { expected, found } => QuickExit::Raced { expected, found },
        ExitPart::Owned { monitor, owner } => {
            QuickExit::Owned {
                monitor,
                owner,
                place,
            }
        }
    }
}

// Ends what led so far: clears the hold word, where the lock was let go, and else has the mirror say what is unfinished. Each of the two answers by itself:
// an answer by the part, after both, would tell all parts apart once more.
#[inline(always)]
fn end_exit(
    words: &Words,
    setting: &Setting,
    seat: &mut Place,
    mirror: &mut Mirror,
    call: &CallContext,
    object: u32,
    place: u32,
    last: bool,
    how: &ExitPart,
) -> QuickExit
    requires setting { IsTableOf setting.now words.now.shared.key words.now.shared.table_id }
    requires seat { IsSeatOn words.now.shared.table_id seat.old }
    requires may { MayLeave call.now mirror.old object place last }
    requires amid { IsAmidPart setting.now call.now object mirror.old (only seat.old.me.0) how.now }
    ensures answer { result ≡ left_by place how.now }
    ensures seat { IsSeatOn seat.old.table_id seat.new }
    ensures frame { IsSameFrame mirror.old mirror.new }
    ensures idle { LeavesIdle (left_by place how.now) call.now mirror.new }
    ensures start { KeepsPart how.now (only seat.old.me.0) (only seat.new.me.0) }
    ensures leads { PartLeads setting.now call.now object mirror.old (only seat.old.me.0) how.now
        (only seat.new.me.0) (left_by place how.now) mirror.new }
{
    match clears(how) {
        Some(logged) => {
            clear_hold(
                words, setting, seat, mirror, call, object, place, last, logged,
            );
            QuickExit::Left
        }
        None => {
            mirror.stays_amid(call);
            left_by(how, place)
        }
    }
}

/// Leaves the newest hold of the object, which has this place, by the mark that was found. The object's words begin at the other place.
#[inline(always)]
pub fn leave_marked(
    words: &Words,
    setting: &Setting,
    seat: &mut Place,
    mirror: &mut Mirror,
    call: &CallContext,
    object: u32,
    depth: u32,
    mark: u64,
    at: usize,
    place: u32,
    last: bool,
) -> QuickExit
    requires setting { IsTableOf setting.now words.now.shared.key words.now.shared.table_id }
    requires seat { IsSeatOn words.now.shared.table_id seat.old }
    requires may { MayLeave call.now mirror.old object place last }
    requires depth { depth ≡ hold_count object mirror.old.holds.words }
    requires at { at ≡ place_of setting.now.shape (Mark object) }
    requires low { at + 1 < 2 ^ 64 }
    requires next { mirror.old.last + 1 < 2 ^ 64 }
    requires found { read_mark mark ≢ None }
    requires amid { Awaits setting.now call.now mirror.old (only seat.old.me.0)
        (exit_found (is_biased mark) call.now (local_of (only seat.old.me.0)) object) }
    ensures seat { IsSeatOn seat.old.table_id seat.new }
    ensures frame { IsSameFrame mirror.old mirror.new }
    ensures idle { LeavesIdle result call.now mirror.new }
    ensures start { KeepsExit object result (only seat.old.me.0) (only seat.new.me.0) }
    ensures leads { Leads (heap_in setting.now) call.now.task (only seat.old.me.0)
        (exit_found (is_biased mark) call.now (local_of (only seat.old.me.0)) object) (lagging call.now mirror.old)
        (only seat.new.me.0) (exit_left call.now (local_of (only seat.old.me.0)) object result) mirror.new }
{
    let how = part(
        words, setting, seat, mirror, call, object, depth, mark, at, place,
    );
    end_exit(
        words, setting, seat, mirror, call, object, place, last, &how,
    )
}
