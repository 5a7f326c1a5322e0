//! The ways of a quick exit, once its mark was found: they lead to where the hold word is left to clear. The seat is ahead of the mirror, which is
//! only read.
ghost use Rattle.std.specs.Prelude.{◌≡◌, ◌≢◌, ◌+◌, ◌^◌, ◌<◌, ◌==◌, None, [], ◌∷◌};
ghost use Rattle.mark_word.specs.Mark.{read_mark};
ghost use Rattle.core_world.specs.declared.word_id.WordId.TheVariants.{Mark};
ghost use Rattle.core_world.specs.Locks.{hold_count};
ghost use Rattle.core_world.specs.Threads.ThreadView.{local_of};
ghost use Rattle.core_world.specs.Trees.LockSteps.{raise_stamp_plan};
ghost use Rattle.core_world.specs.Trees.Plans.{top_place};
ghost use Rattle.core_world.specs.Words.Forms.{is_biased};
ghost use Rattle.heap_table.specs.Layout.{place_of, word_count};
ghost use Rattle.heap_table.specs.Ruled.{heap_in, only};
ghost use Rattle.heap_table.specs.declared.quick_exits.ExitPart.TheVariants as parts;
ghost use Rattle.heap_table.specs.inner.Seats.{IsSeatOn, IsTableOf};
ghost use Rattle.heap_table.specs.inner.Amid.{Awaits, exit_found, marked_exit, monitor_exit, record_exit, recursions_exit, release_exit};
ghost use Rattle.heap_table.specs.inner.Amid.{unbiased_exit};
ghost use Rattle.heap_table.specs.inner.Leaving.{GoesToPart, KeepsPart};
ghost use Rattle.heap_table.specs.inner.Ruled.{IsStepIf, MayStep};

use crate::call_context::CallContext;
use crate::mirror::Mirror;
use crate::plans::{logging, quiet};
use crate::reads::{form_of, has_bias_bits};
use crate::rule::{Place, Words};
use crate::setting::Setting;
use crate::steps::{step_at, step_in_monitor};
use core_world::{Act, Stage, WordId};
use mark_word::{MarkForm, OwnerForm, encode_owner};
use plain_monitor::Entry;

/// How far the ways of an exit came.
#[derive(Clone, Copy)]
pub enum ExitPart {
    /// The hold word is left to clear, which logs Exit.
    Held,
    /// The same, where Exit was logged by the act that let the lock go.
    Logged,
    /// The mark is being inflated, for which the exit is pending.
    Inflating,
    /// The exchange of this mark found this other one, for which the exit is pending.
    Raced { expected: u64, found: u64 },
    /// This monitor has this owner word, which isn't the thread's own.
    Owned { monitor: u32, owner: u64 },
}

/// Raises the object's stamp, which has this place, to this one, where the thread has so many holds on it as one.
#[inline(always)]
pub fn raise_at(
    words: &Words,
    setting: &Setting,
    seat: &mut Place,
    call: &CallContext,
    object: u32,
    depth: u32,
    at: usize,
    stamp: u64,
)
    requires setting { IsTableOf setting.now words.now.shared.key words.now.shared.table_id }
    requires seat { IsSeatOn words.now.shared.table_id seat.old }
    requires place { at ≡ place_of setting.now.shape (WordId.Stamp object) }
    requires may { depth ≡ 1 → MayStep (heap_in setting.now) (only seat.old.me.0) (raise_stamp_plan call.now object stamp) }
    ensures seat { IsSeatOn seat.old.table_id seat.new }
    ensures raised { IsStepIf (depth == 1) (heap_in setting.now) (raise_stamp_plan call.now object stamp)
        (only seat.old.me.0) (only seat.new.me.0) }
{
    if depth == 1 {
        let plan = quiet(
            call,
            Stage::Settled,
            WordId::Stamp { object },
            Act::FetchMax { word: stamp },
        );
        step_at(words, setting, seat, at, &plan);
    }
}

// By the lock record that the mark names: the mark is exchanged for the header, which logs Exit.
#[inline(always)]
fn part_from_record(
    words: &Words,
    setting: &Setting,
    seat: &mut Place,
    mirror: &Mirror,
    call: &CallContext,
    object: u32,
    header: u64,
    mark: u64,
    at: usize,
    place: u32,
) -> ExitPart
    requires setting { IsTableOf setting.now words.now.shared.key words.now.shared.table_id }
    requires seat { IsSeatOn words.now.shared.table_id seat.old }
    requires at { at ≡ place_of setting.now.shape (Mark object) }
    requires place { place ≡ top_place object mirror.now.holds.words }
    requires amid { Awaits setting.now call.now mirror.now (only seat.old.me.0)
        (record_exit call.now (local_of (only seat.old.me.0)) object header mark) }
    ensures seat { IsSeatOn seat.old.table_id seat.new }
    ensures start { KeepsPart result (only seat.old.me.0) (only seat.new.me.0) }
    ensures leads { GoesToPart setting.now call.now object mirror.now
        (only seat.old.me.0) (record_exit call.now (local_of (only seat.old.me.0)) object header mark)
        (only seat.new.me.0) result }
{
    let entry = Entry::Exit { object };
    let act = Act::CompareExchange {
        expected: mark,
        word: header,
    };
    let stage = Stage::Exits { object, place };
    let first = logging(call, stage, WordId::Mark { object }, act, entry);
    let found = step_at(words, setting, seat, at, &first);
    if found != mark {
        return ExitPart::Raced {
            expected: mark,
            found,
        };
    }
    ExitPart::Logged
}

// The monitor, which the thread owns, has this number of recursions above 0: they are lowered.
#[inline(always)]
fn lower(
    words: &Words,
    setting: &Setting,
    seat: &mut Place,
    mirror: &Mirror,
    call: &CallContext,
    object: u32,
    monitor: u32,
    recursions: u64,
)
    requires setting { IsTableOf setting.now words.now.shared.key words.now.shared.table_id }
    requires seat { IsSeatOn words.now.shared.table_id seat.old }
    requires some { 0 < recursions }
    requires amid { Awaits setting.now call.now mirror.now (only seat.old.me.0)
        (recursions_exit call.now (local_of (only seat.old.me.0)) object monitor recursions) }
    ensures seat { IsSeatOn seat.old.table_id seat.new }
    ensures start { KeepsPart parts.Held (only seat.old.me.0) (only seat.new.me.0) }
    ensures leads { GoesToPart setting.now call.now object mirror.now
        (only seat.old.me.0) (recursions_exit call.now (local_of (only seat.old.me.0)) object monitor recursions)
        (only seat.new.me.0) parts.Held }
{
    let stage = Stage::RecursionsLowered { object };
    let word = recursions - 1;
    let first = quiet(
        call,
        stage,
        WordId::Recursions { monitor },
        Act::Store { word },
    );
    step_in_monitor(words, setting, seat, &first);
}

// The monitor, which the thread owns, has no recursions: its owner word is cleared, which logs Exit.
#[inline(always)]
fn release(
    words: &Words,
    setting: &Setting,
    seat: &mut Place,
    mirror: &Mirror,
    call: &CallContext,
    object: u32,
    monitor: u32,
    place: u32,
)
    requires setting { IsTableOf setting.now words.now.shared.key words.now.shared.table_id }
    requires seat { IsSeatOn words.now.shared.table_id seat.old }
    requires place { place ≡ top_place object mirror.now.holds.words }
    requires amid { Awaits setting.now call.now mirror.now (only seat.old.me.0)
        (release_exit call.now (local_of (only seat.old.me.0)) object monitor) }
    ensures seat { IsSeatOn seat.old.table_id seat.new }
    ensures start { KeepsPart parts.Logged (only seat.old.me.0) (only seat.new.me.0) }
    ensures leads { GoesToPart setting.now call.now object mirror.now
        (only seat.old.me.0) (release_exit call.now (local_of (only seat.old.me.0)) object monitor)
        (only seat.new.me.0) parts.Logged }
{
    let entry = Entry::Exit { object };
    let stage = Stage::Exits { object, place };
    let free = Act::Store { word: 0 };
    let first = logging(call, stage, WordId::Owner { monitor }, free, entry);
    step_in_monitor(words, setting, seat, &first);
}

// By this monitor, which the mark names.
#[inline(always)]
fn part_from_monitor(
    words: &Words,
    setting: &Setting,
    seat: &mut Place,
    mirror: &Mirror,
    call: &CallContext,
    object: u32,
    monitor: u32,
    place: u32,
) -> ExitPart
    requires setting { IsTableOf setting.now words.now.shared.key words.now.shared.table_id }
    requires seat { IsSeatOn words.now.shared.table_id seat.old }
    requires place { place ≡ top_place object mirror.now.holds.words }
    requires amid { Awaits setting.now call.now mirror.now (only seat.old.me.0)
        (monitor_exit call.now (local_of (only seat.old.me.0)) object monitor) }
    ensures seat { IsSeatOn seat.old.table_id seat.new }
    ensures start { KeepsPart result (only seat.old.me.0) (only seat.new.me.0) }
    ensures leads { GoesToPart setting.now call.now object mirror.now
        (only seat.old.me.0) (monitor_exit call.now (local_of (only seat.old.me.0)) object monitor)
        (only seat.new.me.0) result }
{
    let thread = mirror.thread;
    let first = quiet(call, Stage::Settled, WordId::Owner { monitor }, Act::Load);
    let owner = step_in_monitor(words, setting, seat, &first);
    if owner != encode_owner(&OwnerForm::ByThread { thread }) {
        return ExitPart::Owned { monitor, owner };
    }
    let second = quiet(
        call,
        Stage::Settled,
        WordId::Recursions { monitor },
        Act::Load,
    );
    let recursions = step_in_monitor(words, setting, seat, &second);
    if recursions == 0 {
        release(words, setting, seat, mirror, call, object, monitor, place);
        return ExitPart::Logged;
    }
    lower(
        words, setting, seat, mirror, call, object, monitor, recursions,
    );
    ExitPart::Held
}

// The record's displaced word is this header, and the mark was found: it says whether it is the lock that is left.
#[inline(always)]
fn part_marked(
    words: &Words,
    setting: &Setting,
    seat: &mut Place,
    mirror: &Mirror,
    call: &CallContext,
    object: u32,
    header: u64,
    mark: u64,
    at: usize,
    place: u32,
) -> ExitPart
    requires setting { IsTableOf setting.now words.now.shared.key words.now.shared.table_id }
    requires seat { IsSeatOn words.now.shared.table_id seat.old }
    requires at { at ≡ place_of setting.now.shape (Mark object) }
    requires place { place ≡ top_place object mirror.now.holds.words }
    requires found { read_mark mark ≢ None }
    requires amid { Awaits setting.now call.now mirror.now (only seat.old.me.0)
        (marked_exit call.now (local_of (only seat.old.me.0)) object header mark) }
    ensures seat { IsSeatOn seat.old.table_id seat.new }
    ensures start { KeepsPart result (only seat.old.me.0) (only seat.new.me.0) }
    ensures leads { GoesToPart setting.now call.now object mirror.now
        (only seat.old.me.0) (marked_exit call.now (local_of (only seat.old.me.0)) object header mark)
        (only seat.new.me.0) result }
{
    match form_of(mark) {
        MarkForm::Locked { .. } => {
            part_from_record(
                words, setting, seat, mirror, call, object, header, mark, at, place,
            )
        }
        MarkForm::Inflated { monitor } => {
            part_from_monitor(words, setting, seat, mirror, call, object, monitor, place)
        }
        MarkForm::Inflating => ExitPart::Inflating,
        _ => unreachable!(),
    }
}

// By a mark without the bias pattern. The object's words begin at this place.
#[inline(always)]
fn part_unbiased(
    words: &Words,
    setting: &Setting,
    seat: &mut Place,
    mirror: &Mirror,
    call: &CallContext,
    object: u32,
    depth: u32,
    at: usize,
    place: u32,
) -> ExitPart
    requires setting { IsTableOf setting.now words.now.shared.key words.now.shared.table_id }
    requires seat { IsSeatOn words.now.shared.table_id seat.old }
    requires place { place ≡ top_place object mirror.now.holds.words }
    requires depth { depth ≡ hold_count object mirror.now.holds.words }
    requires at { at ≡ place_of setting.now.shape (Mark object) }
    requires low { at + 1 < 2 ^ 64 }
    requires next { mirror.now.last + 1 < 2 ^ 64 }
    requires amid { Awaits setting.now call.now mirror.now (only seat.old.me.0)
        (unbiased_exit call.now (local_of (only seat.old.me.0)) object) }
    ensures seat { IsSeatOn seat.old.table_id seat.new }
    ensures start { KeepsPart result (only seat.old.me.0) (only seat.new.me.0) }
    ensures leads { GoesToPart setting.now call.now object mirror.now
        (only seat.old.me.0) (unbiased_exit call.now (local_of (only seat.old.me.0)) object)
        (only seat.new.me.0) result }
{
    let next = mirror.last + 1;
    raise_at(words, setting, seat, call, object, depth, at + 1, next);
    let record = WordId::Displaced {
        thread: mirror.thread,
        place,
    };
    let first = quiet(call, Stage::Settled, record, Act::Load);
    let record_at = mirror.displaced_at(place);
    let header = step_at(words, setting, seat, record_at, &first);
    if header == 0 {
        return ExitPart::Held;
    }
    let second = quiet(call, Stage::Settled, WordId::Mark { object }, Act::Load);
    let mark = step_at(words, setting, seat, at, &second);
    part_marked(
        words, setting, seat, mirror, call, object, header, mark, at, place,
    )
}

/// By the mark that was found. The object's words begin at this place.
#[inline(always)]
pub fn part(
    words: &Words,
    setting: &Setting,
    seat: &mut Place,
    mirror: &Mirror,
    call: &CallContext,
    object: u32,
    depth: u32,
    mark: u64,
    at: usize,
    place: u32,
) -> ExitPart
    requires setting { IsTableOf setting.now words.now.shared.key words.now.shared.table_id }
    requires seat { IsSeatOn words.now.shared.table_id seat.old }
    requires place { place ≡ top_place object mirror.now.holds.words }
    requires depth { depth ≡ hold_count object mirror.now.holds.words }
    requires at { at ≡ place_of setting.now.shape (Mark object) }
    requires low { at + 1 < 2 ^ 64 }
    requires next { mirror.now.last + 1 < 2 ^ 64 }
    requires found { read_mark mark ≢ None }
    requires amid { Awaits setting.now call.now mirror.now (only seat.old.me.0)
        (exit_found (is_biased mark) call.now (local_of (only seat.old.me.0)) object) }
    ensures seat { IsSeatOn seat.old.table_id seat.new }
    ensures start { KeepsPart result (only seat.old.me.0) (only seat.new.me.0) }
    ensures leads { GoesToPart setting.now call.now object mirror.now
        (only seat.old.me.0) (exit_found (is_biased mark) call.now (local_of (only seat.old.me.0)) object)
        (only seat.new.me.0) result }
{
    if has_bias_bits(mark) {
        return ExitPart::Held;
    }
    part_unbiased(words, setting, seat, mirror, call, object, depth, at, place)
}
