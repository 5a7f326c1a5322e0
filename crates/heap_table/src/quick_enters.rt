//! The ways of a quick enter, once its mark was found: they lead to where the lock is the thread's own, and the hold is left to take. The seat is
//! ahead of the mirror, which is only read.
ghost use Rattle.std.specs.Prelude.{◌≡◌, ◌≢◌, ◌<◌, true, None, [], ◌∷◌};
ghost use Rattle.mark_word.specs.Mark.{read_mark};
ghost use Rattle.core_world.specs.declared.word_id.WordId.TheVariants.{Mark};
ghost use Rattle.core_world.specs.Threads.ThreadView.{local_of};
ghost use Rattle.core_world.specs.Words.Forms.{is_biased};
ghost use Rattle.heap_table.specs.Layout.{place_of, word_count};
ghost use Rattle.heap_table.specs.Quick.{entered};
ghost use Rattle.heap_table.specs.Ruled.{only};
ghost use Rattle.heap_table.specs.inner.Seats.{IsSeatOn, IsTableOf};
ghost use Rattle.heap_table.specs.inner.Amid.{Awaits, AwaitsSince, Goes, GoesSince, IsStartOf, MaySeize};
ghost use Rattle.heap_table.specs.inner.Amid.{again_enter, biased_left, first_enter, hold_end, mark_left, monitor_enter, monitor_left};
ghost use Rattle.heap_table.specs.inner.Amid.{record_left, recorded_end, seized_left, unbiased_enter};
ghost use Rattle.plain_monitor.specs.declared.entry.Path.TheVariants.{MonitorAgain};
ghost use Rattle.core_world.specs.Trees.Plans.{free_place};

use crate::call_context::CallContext;
use crate::mirror::Mirror;
use crate::plans::quiet;
use crate::quick::QuickEnter;
use crate::reads::{form_of, has_bias_bits, is_own_by_sum};
use crate::rule::{Place, Words};
use crate::setting::Setting;
use crate::steps::{step_at, step_in_monitor};
use core_world::{Act, Stage, WordId};
use mark_word::{MarkForm, OwnerForm, encode, encode_owner};
use plain_monitor::Path;

// Stores this displaced word at the place that the hold will have.
#[inline(always)]
fn displace(
    words: &Words,
    setting: &Setting,
    seat: &mut Place,
    mirror: &Mirror,
    call: &CallContext,
    stage: Stage,
    object: u32,
    displaced: u64,
    path: Path,
)
    requires setting { IsTableOf setting.now words.now.shared.key words.now.shared.table_id }
    requires seat { IsSeatOn words.now.shared.table_id seat.old }
    requires place { free_place mirror.now.holds.words ≡ mirror.now.holds.used }
    requires amid { Awaits setting.now call.now mirror.now (only seat.old.me.0)
        (recorded_end call.now stage (local_of (only seat.old.me.0)) object displaced path) }
    ensures seat { IsSeatOn seat.old.table_id seat.new }
    ensures start { IsStartOf (only seat.old.me.0) (only seat.new.me.0) }
    ensures leads { Goes setting.now call.now mirror.now
        (only seat.old.me.0) (recorded_end call.now stage (local_of (only seat.old.me.0)) object displaced path)
        (only seat.new.me.0) (hold_end call.now (local_of (only seat.old.me.0)) object path) }
{
    let thread = mirror.thread;
    let place = mirror.holds.used;
    let first = quiet(
        call,
        stage,
        WordId::Displaced { thread, place },
        Act::Store { word: displaced },
    );
    let record_at = mirror.displaced_at(place);
    step_at(words, setting, seat, record_at, &first);
}

// By a lock record, where the mark is neutral: it becomes the record's displaced word, and is exchanged for the record's place. The answer is the
// other mark that the exchange found, or none where the thread has the lock.
#[inline(always)]
fn seize_by_record(
    words: &Words,
    setting: &Setting,
    seat: &mut Place,
    mirror: &Mirror,
    call: &CallContext,
    object: u32,
    mark: u64,
    at: usize,
) -> Option<u64>
    requires setting { IsTableOf setting.now words.now.shared.key words.now.shared.table_id }
    requires seat { IsSeatOn words.now.shared.table_id seat.old }
    requires may { MaySeize mirror.now }
    requires at { at ≡ place_of setting.now.shape (Mark object) }
    requires amid { Awaits setting.now call.now mirror.now (only seat.old.me.0)
        (first_enter call.now (local_of (only seat.old.me.0)) object mark) }
    ensures seat { IsSeatOn seat.old.table_id seat.new }
    ensures start { IsStartOf (only seat.old.me.0) (only seat.new.me.0) }
    ensures leads { Goes setting.now call.now mirror.now
        (only seat.old.me.0) (first_enter call.now (local_of (only seat.old.me.0)) object mark)
        (only seat.new.me.0) (record_left call.now (local_of (only seat.old.me.0)) object mark result) }
{
    let thread = mirror.thread;
    let place = mirror.holds.used;
    let record = WordId::Displaced { thread, place };
    let first = quiet(call, Stage::Settled, record, Act::Store { word: mark });
    let record_at = mirror.displaced_at(place);
    step_at(words, setting, seat, record_at, &first);
    let act = Act::CompareExchange {
        expected: mark,
        word: encode(&MarkForm::Locked { thread, place }),
    };
    let stage = Stage::RecordLocked { object, place };
    let second = quiet(call, stage, WordId::Mark { object }, act);
    let found = step_at(words, setting, seat, at, &second);
    if found != mark {
        return Some(found);
    }
    None
}

// By this monitor, which the mark names: its owner word is exchanged from free. The answer is the other owner word that the exchange found, or none
// where the thread owns the monitor.
#[inline(always)]
fn seize_by_monitor(
    words: &Words,
    setting: &Setting,
    seat: &mut Place,
    mirror: &Mirror,
    call: &CallContext,
    object: u32,
    monitor: u32,
) -> Option<u64>
    requires setting { IsTableOf setting.now words.now.shared.key words.now.shared.table_id }
    requires seat { IsSeatOn words.now.shared.table_id seat.old }
    requires may { MaySeize mirror.now }
    requires amid { Awaits setting.now call.now mirror.now (only seat.old.me.0)
        (monitor_enter call.now (local_of (only seat.old.me.0)) object monitor) }
    ensures seat { IsSeatOn seat.old.table_id seat.new }
    ensures start { IsStartOf (only seat.old.me.0) (only seat.new.me.0) }
    ensures leads { Goes setting.now call.now mirror.now
        (only seat.old.me.0) (monitor_enter call.now (local_of (only seat.old.me.0)) object monitor)
        (only seat.new.me.0) (monitor_left call.now (local_of (only seat.old.me.0)) object monitor result) }
{
    let thread = mirror.thread;
    let act = Act::CompareExchange {
        expected: 0,
        word: encode_owner(&OwnerForm::ByThread { thread }),
    };
    let stage = Stage::MonitorAcquired { object };
    let first = quiet(call, stage, WordId::Owner { monitor }, act);
    let found = step_in_monitor(words, setting, seat, &first);
    if found != 0 {
        return Some(found);
    }
    displace(
        words,
        setting,
        seat,
        mirror,
        call,
        stage,
        object,
        3,
        Path::MonitorFirst,
    );
    None
}

// By this monitor, which the thread owns: the recursions rise. It is a function of its own, so that all other ways are built into one: a function that would
// grow larger yet isn't.
#[inline(never)]
fn seize_again(
    words: &Words,
    setting: &Setting,
    seat: &mut Place,
    mirror: &Mirror,
    call: &CallContext,
    object: u32,
    monitor: u32,
)
    requires setting { IsTableOf setting.now words.now.shared.key words.now.shared.table_id }
    requires seat { IsSeatOn words.now.shared.table_id seat.old }
    requires may { MaySeize mirror.now }
    requires amid { Awaits setting.now call.now mirror.now (only seat.old.me.0)
        (again_enter call.now (local_of (only seat.old.me.0)) object monitor) }
    ensures seat { IsSeatOn seat.old.table_id seat.new }
    ensures start { IsStartOf (only seat.old.me.0) (only seat.new.me.0) }
    ensures leads { Goes setting.now call.now mirror.now
        (only seat.old.me.0) (again_enter call.now (local_of (only seat.old.me.0)) object monitor)
        (only seat.new.me.0) (hold_end call.now (local_of (only seat.old.me.0)) object MonitorAgain) }
{
    let count = WordId::Recursions { monitor };
    let first = quiet(call, Stage::Settled, count, Act::Load);
    let recursions = step_in_monitor(words, setting, seat, &first);
    let stage = Stage::RecursionsRaised { object };
    let raised = recursions + 1;
    let second = quiet(call, stage, count, Act::Store { word: raised });
    step_in_monitor(words, setting, seat, &second);
    displace(
        words,
        setting,
        seat,
        mirror,
        call,
        stage,
        object,
        3,
        Path::MonitorAgain,
    );
}

// By this monitor, which the mark names.
#[inline(always)]
fn seize_inflated(
    words: &Words,
    setting: &Setting,
    seat: &mut Place,
    mirror: &Mirror,
    call: &CallContext,
    object: u32,
    now: u64,
    monitor: u32,
) -> QuickEnter
    requires setting { IsTableOf setting.now words.now.shared.key words.now.shared.table_id }
    requires seat { IsSeatOn words.now.shared.table_id seat.old }
    requires may { MaySeize mirror.now }
    requires amid { AwaitsSince setting.now call.now mirror.now (only seat.old.me.0)
        (λ start. monitor_enter call.now start.local object monitor) }
    ensures seat { IsSeatOn seat.old.table_id seat.new }
    ensures start { IsStartOf (only seat.old.me.0) (only seat.new.me.0) }
    ensures leads { GoesSince setting.now call.now mirror.now
        (only seat.old.me.0) (λ start. monitor_enter call.now start.local object monitor)
        (only seat.new.me.0) (λ start. seized_left setting.now.shape call.now start (entered object now) result) }
{
    match seize_by_monitor(words, setting, seat, mirror, call, object, monitor) {
        None => QuickEnter::Done {
            path: Path::MonitorFirst,
        },
        Some(found) => {
            let thread = mirror.thread;
            if found == encode_owner(&OwnerForm::ByThread { thread }) {
                seize_again(words, setting, seat, mirror, call, object, monitor);
                return QuickEnter::Done {
                    path: Path::MonitorAgain,
                };
            }
            QuickEnter::Taken { monitor, found }
        }
    }
}

// By a mark without the bias pattern.
#[inline(always)]
fn seize_unbiased(
    words: &Words,
    setting: &Setting,
    seat: &mut Place,
    mirror: &Mirror,
    call: &CallContext,
    object: u32,
    now: u64,
    mark: u64,
    at: usize,
) -> QuickEnter
    requires setting { IsTableOf setting.now words.now.shared.key words.now.shared.table_id }
    requires seat { IsSeatOn words.now.shared.table_id seat.old }
    requires may { MaySeize mirror.now }
    requires at { at ≡ place_of setting.now.shape (Mark object) }
    requires found { read_mark mark ≢ None }
    requires amid { AwaitsSince setting.now call.now mirror.now (only seat.old.me.0)
        (λ start. unbiased_enter setting.now.shape call.now start object mark) }
    ensures seat { IsSeatOn seat.old.table_id seat.new }
    ensures start { IsStartOf (only seat.old.me.0) (only seat.new.me.0) }
    ensures leads { GoesSince setting.now call.now mirror.now
        (only seat.old.me.0) (λ start. unbiased_enter setting.now.shape call.now start object mark)
        (only seat.new.me.0) (λ start. seized_left setting.now.shape call.now start (entered object now) result) }
{
    match form_of(mark) {
        MarkForm::Neutral { .. } => {
            match seize_by_record(words, setting, seat, mirror, call, object, mark, at) {
                Some(found) => QuickEnter::Raced {
                    expected: mark,
                    found,
                },
                None => QuickEnter::Done {
                    path: Path::StackFirst,
                },
            }
        }
        MarkForm::Locked { thread, .. } => {
            if thread == mirror.thread {
                let path = Path::StackAgain;
                let stage = Stage::Settled;
                displace(words, setting, seat, mirror, call, stage, object, 0, path);
                return QuickEnter::Done { path };
            }
            QuickEnter::Unbiased { mark }
        }
        MarkForm::Inflated { monitor } => {
            seize_inflated(words, setting, seat, mirror, call, object, now, monitor)
        }
        _ => QuickEnter::Unbiased { mark },
    }
}

// By a mark with the bias pattern.
#[inline(always)]
fn seize_biased(
    words: &Words,
    setting: &Setting,
    seat: &mut Place,
    mirror: &Mirror,
    call: &CallContext,
    object: u32,
    now: u64,
    mark: u64,
) -> QuickEnter
    requires setting { IsTableOf setting.now words.now.shared.key words.now.shared.table_id }
    requires seat { IsSeatOn words.now.shared.table_id seat.old }
    requires may { MaySeize mirror.now }
    requires declared { object < setting.now.shape.declared }
    requires biased { is_biased mark ≡ true }
    requires amid { AwaitsSince setting.now call.now mirror.now (only seat.old.me.0)
        (λ start. biased_left setting.now.shape call.now start (entered object now) mark) }
    ensures seat { IsSeatOn seat.old.table_id seat.new }
    ensures start { IsStartOf (only seat.old.me.0) (only seat.new.me.0) }
    ensures leads { GoesSince setting.now call.now mirror.now
        (only seat.old.me.0) (λ start. biased_left setting.now.shape call.now start (entered object now) mark)
        (only seat.new.me.0) (λ start. seized_left setting.now.shape call.now start (entered object now) result) }
{
    let class = setting.shape.class_of(object);
    let at = setting.shape.prototype_at(class);
    let first = quiet(call, Stage::Settled, WordId::Prototype { class }, Act::Load);
    let prototype = step_at(words, setting, seat, at, &first);
    if !is_own_by_sum(mark, prototype, mirror.own_bits) {
        return QuickEnter::Biased { mark, prototype };
    }
    QuickEnter::Done {
        path: Path::BiasOwn,
    }
}

/// By the mark that was found. Where it is done, the lock is the thread's own, and the hold is left to take.
#[inline(always)]
pub fn seize(
    words: &Words,
    setting: &Setting,
    seat: &mut Place,
    mirror: &Mirror,
    call: &CallContext,
    object: u32,
    now: u64,
    mark: u64,
    at: usize,
) -> QuickEnter
    requires setting { IsTableOf setting.now words.now.shared.key words.now.shared.table_id }
    requires seat { IsSeatOn words.now.shared.table_id seat.old }
    requires may { MaySeize mirror.now }
    requires at { at ≡ place_of setting.now.shape (Mark object) }
    requires declared { object < setting.now.shape.declared }
    requires found { read_mark mark ≢ None }
    requires amid { AwaitsSince setting.now call.now mirror.now (only seat.old.me.0)
        (λ start. mark_left (is_biased mark) setting.now.shape call.now start (entered object now) mark) }
    ensures seat { IsSeatOn seat.old.table_id seat.new }
    ensures start { IsStartOf (only seat.old.me.0) (only seat.new.me.0) }
    ensures leads { GoesSince setting.now call.now mirror.now
        (only seat.old.me.0) (λ start. mark_left (is_biased mark) setting.now.shape call.now start (entered object now) mark)
        (only seat.new.me.0) (λ start. seized_left setting.now.shape call.now start (entered object now) result) }
{
    if has_bias_bits(mark) {
        seize_biased(words, setting, seat, mirror, call, object, now, mark)
    } else {
        seize_unbiased(words, setting, seat, mirror, call, object, now, mark, at)
    }
}
