//! How a quick enter ends, once the mark was found: with the steps that take a hold, where the lock is the thread's own. The seat is ahead of the mirror
//! up to the last of them.
ghost use Rattle.std.specs.Prelude.{◌≡◌, ◌≢◌, ◌<◌, None, [], ◌∷◌};
ghost use Rattle.mark_word.specs.Mark.{read_mark};
ghost use Rattle.core_world.specs.Threads.ThreadView.{local_of};
ghost use Rattle.core_world.specs.Words.Forms.{is_biased};
ghost use Rattle.heap_table.specs.Layout.{word_count};
ghost use Rattle.heap_table.specs.Quick.{entered};
ghost use Rattle.heap_table.specs.Ruled.{heap_in, only};
ghost use Rattle.heap_table.specs.inner.Seats.{IsSeatOn, IsTableOf};
ghost use Rattle.heap_table.specs.inner.Amid.{Awaits, AwaitsSince, EntersIdle, IsIdle, IsSameFrame, KeepsStart, Leads, LeadsSince, MayHold};
ghost use Rattle.heap_table.specs.inner.Amid.{enter_left, hold_end, lagging, mark_left, seized_left, taken};

use crate::call_context::CallContext;
use crate::mirror::Mirror;
use crate::plans::{logging, quiet};
use crate::quick::QuickEnter;
use crate::quick_enters::seize;
use crate::rule::{Place, Words};
use crate::setting::Setting;
use crate::steps::step_at;
use core_world::{Act, Stage, WordId};
use plain_monitor::{Entry, Path};

// Stores the hold word at the lowest free place, and loads the object's stamp, which logs Enter by this path. The object's words begin at this place.
#[inline(always)]
fn take_hold(
    words: &Words,
    setting: &Setting,
    seat: &mut Place,
    mirror: &mut Mirror,
    call: &CallContext,
    object: u32,
    word: u64,
    at: usize,
    path: Path,
)
    requires setting { IsTableOf setting.now words.now.shared.key words.now.shared.table_id }
    requires seat { IsSeatOn words.now.shared.table_id seat.old }
    requires may { MayHold setting.now.shape call.now mirror.old object word at }
    requires amid { Awaits setting.now call.now mirror.old (only seat.old.me.0)
        (hold_end call.now (local_of (only seat.old.me.0)) object path) }
    ensures seat { IsSeatOn seat.old.table_id seat.new }
    ensures frame { IsSameFrame mirror.old mirror.new }
    ensures idle { IsIdle call.now mirror.new }
    ensures leads { Leads (heap_in setting.now) call.now.task
        (only seat.old.me.0) (hold_end call.now (local_of (only seat.old.me.0)) object path) (lagging call.now mirror.old)
        (only seat.new.me.0) (taken path) mirror.new }
{
    let thread = mirror.thread;
    let place = mirror.holds.used;
    let stage = Stage::Enters {
        object,
        place,
        path,
    };
    let first = quiet(
        call,
        stage,
        WordId::Hold { thread, place },
        Act::Store { word },
    );
    let hold_at = mirror.hold_at(place);
    step_at(words, setting, seat, hold_at, &first);
    mirror.holds.push(object, word);
    let entry = Entry::Enter { object, path };
    let second = logging(
        call,
        Stage::Settled,
        WordId::Stamp { object },
        Act::Load,
        entry,
    );
    let stamp = step_at(words, setting, seat, at + 1, &second);
    mirror.note(entry, stamp);
}

// Ends what led so far: takes the hold, where the lock is the thread's own, and else has the mirror say what is unfinished.
#[inline(always)]
fn end_enter(
    words: &Words,
    setting: &Setting,
    seat: &mut Place,
    mirror: &mut Mirror,
    call: &CallContext,
    object: u32,
    now: u64,
    word: u64,
    at: usize,
    how: QuickEnter,
)
    requires setting { IsTableOf setting.now words.now.shared.key words.now.shared.table_id }
    requires seat { IsSeatOn words.now.shared.table_id seat.old }
    requires may { MayHold setting.now.shape call.now mirror.old object word at }
    requires amid { AwaitsSince setting.now call.now mirror.old (only seat.old.me.0)
        (λ start. seized_left setting.now.shape call.now start (entered object now) how) }
    ensures seat { IsSeatOn seat.old.table_id seat.new }
    ensures frame { IsSameFrame mirror.old mirror.new }
    ensures idle { EntersIdle how call.now mirror.new }
    ensures start { KeepsStart how (only seat.old.me.0) (only seat.new.me.0) }
    ensures leads { LeadsSince (heap_in setting.now) call.now.task (only seat.old.me.0)
        (λ start. seized_left setting.now.shape call.now start (entered object now) how) (lagging call.now mirror.old)
        (only seat.new.me.0) (λ start. enter_left setting.now.shape call.now start (entered object now) how) mirror.new }
{
    match how {
        QuickEnter::Done { path } => {
            take_hold(words, setting, seat, mirror, call, object, word, at, path);
        }
        _ => mirror.stays_amid(call),
    }
}

/// Enters by the mark that was found.
#[inline(always)]
pub fn enter_marked(
    words: &Words,
    setting: &Setting,
    seat: &mut Place,
    mirror: &mut Mirror,
    call: &CallContext,
    object: u32,
    now: u64,
    mark: u64,
    word: u64,
    at: usize,
) -> QuickEnter
    requires setting { IsTableOf setting.now words.now.shared.key words.now.shared.table_id }
    requires seat { IsSeatOn words.now.shared.table_id seat.old }
    requires may { MayHold setting.now.shape call.now mirror.old object word at }
    requires declared { object < setting.now.shape.declared }
    requires found { read_mark mark ≢ None }
    requires amid { AwaitsSince setting.now call.now mirror.old (only seat.old.me.0)
        (λ start. mark_left (is_biased mark) setting.now.shape call.now start (entered object now) mark) }
    ensures seat { IsSeatOn seat.old.table_id seat.new }
    ensures frame { IsSameFrame mirror.old mirror.new }
    ensures idle { EntersIdle result call.now mirror.new }
    ensures start { KeepsStart result (only seat.old.me.0) (only seat.new.me.0) }
    ensures leads { LeadsSince (heap_in setting.now) call.now.task (only seat.old.me.0)
        (λ start. mark_left (is_biased mark) setting.now.shape call.now start (entered object now) mark) (lagging call.now mirror.old)
        (only seat.new.me.0) (λ start. enter_left setting.now.shape call.now start (entered object now) result) mirror.new }
{
    let how = seize(words, setting, seat, mirror, call, object, now, mark, at);
    end_enter(
        words, setting, seat, mirror, call, object, now, word, at, how,
    );
    how
}
