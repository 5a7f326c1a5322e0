//! How a thread takes a hold under a bias.
ghost use Rattle.std.specs.Prelude.{◌≡◌, ◌<◌, length, Some, true};
ghost use Rattle.mark_word.specs.Mark.{read_mark};
ghost use Rattle.core_world.specs.Threads.ThreadView.{local_of};
ghost use Rattle.core_world.specs.Trees.BiasSteps.{took_steps, rebias_steps, bias_valid_steps};
ghost use Rattle.core_world.specs.Trees.BiasSteps.{bias_enter_at, bias_enter_by, bias_enter_steps};
ghost use Rattle.heap_table.specs.Parts.{IsDueOn, HasMadeSteps};
ghost use Rattle.heap_table.specs.Seen.{IsOf};
ghost use Rattle.bias_lock.specs.Kept.{IsKeptUnlessTook};
ghost use Rattle.bias_lock.specs.inner.Parts.{prototype_enter};
ghost use Rattle.core_world.specs.Words.Forms.{is_biased};

use crate::drops::unbias;
use core_world::{BiasTry, Stage, WordId};
use heap_table::{CallContext, Heap, Pass, is_biased, is_own, mark_of_word};
use mark_word::{MarkForm, encode};
use plain_monitor::Path;
use stack_lock::hold;

/// Stores the hold under a bias to the thread, and logs the Enter with this path. It answers `Took` with the path.
///
/// In OpenJDK 8: the end of `MacroAssembler::biased_locking_enter` (`macroAssembler_x86.cpp`).
pub fn log_biased_enter(
    heap: &Heap,
    pass: &mut Pass,
    call: &CallContext,
    object: u32,
    path: Path,
) -> BiasTry
    requires heap { IsOf heap.now pass.old }
    requires object { object < length heap.now.heap.shape.objects }
    requires due { IsDueOn heap.now pass.old call.now.task (took_steps call.now (local_of pass.old.known) object path) }
    requires room { length pass.old.known.log < pass.old.limit }
    ensures { HasMadeSteps heap.now (took_steps call.now (local_of pass.old.known) object path)
        pass.old pass.new result }
{
    BiasTry::Took(hold(heap, pass, call, object, path))
}

// The bias is stale, or valid and anonymous: the mark is exchanged for the bias to this thread in this epoch.
fn rebias(
    heap: &Heap,
    pass: &mut Pass,
    call: &CallContext,
    object: u32,
    mark: u64,
    epoch: u8,
) -> BiasTry
    requires heap { IsOf heap.now pass.old }
    requires object { object < length heap.now.heap.shape.objects }
    requires epoch { epoch < 4 }
    requires due { IsDueOn heap.now pass.old call.now.task
        (rebias_steps call.now (local_of pass.old.known) object mark epoch) }
    requires room { length pass.old.known.log < pass.old.limit }
    ensures { HasMadeSteps heap.now (rebias_steps call.now (local_of pass.old.known) object mark epoch)
        pass.old pass.new result }
{
    let thread = pass.thread();
    let own = encode(&MarkForm::Biased {
        thread,
        epoch,
        age: 0,
    });
    let stage = Stage::BiasAcquired { object };
    let found = heap.exchange(pass, call, stage, WordId::Mark { object }, mark, own);
    if found != mark {
        return BiasTry::Raced {
            expected: mark,
            found,
        };
    }
    log_biased_enter(heap, pass, call, object, Path::BiasTaken)
}

// The bias is valid, and to the thread of this number: only where that is this thread, it enters under it.
fn enter_valid(
    heap: &Heap,
    pass: &mut Pass,
    call: &CallContext,
    object: u32,
    mark: u64,
    thread: u32,
) -> BiasTry
    requires heap { IsOf heap.now pass.old }
    requires object { object < length heap.now.heap.shape.objects }
    requires due { IsDueOn heap.now pass.old call.now.task
        (bias_valid_steps call.now (local_of pass.old.known) object mark thread) }
    requires room { length pass.old.known.log < pass.old.limit }
    ensures { HasMadeSteps heap.now (bias_valid_steps call.now (local_of pass.old.known) object mark thread)
        pass.old pass.new result }
{
    let own = pass.thread();
    if thread == own {
        return log_biased_enter(heap, pass, call, object, Path::BiasOwn);
    }
    BiasTry::Valid { mark }
}

// An enter by a biased mark of this form, where the class's epoch is this one.
fn enter_at(
    heap: &Heap,
    pass: &mut Pass,
    call: &CallContext,
    object: u32,
    mark: u64,
    form: MarkForm,
    epoch: u8,
) -> BiasTry
    requires heap { IsOf heap.now pass.old }
    requires object { object < length heap.now.heap.shape.objects }
    requires epoch { epoch < 4 }
    requires due { IsDueOn heap.now pass.old call.now.task
        (bias_enter_at (Some form) epoch call.now (local_of pass.old.known) object mark) }
    requires room { length pass.old.known.log < pass.old.limit }
    ensures { HasMadeSteps heap.now (bias_enter_at (Some form) epoch call.now (local_of pass.old.known) object mark)
        pass.old pass.new result }
{
    match form {
        MarkForm::Biased {
            thread,
            epoch: old,
            ..
        } => {
            if old == epoch {
                return enter_valid(heap, pass, call, object, mark, thread);
            }
            rebias(heap, pass, call, object, mark, epoch)
        }
        MarkForm::Anonymous { .. } => rebias(heap, pass, call, object, mark, epoch),
        _ => unreachable!(),
    }
}

// An enter by a biased mark, where the class's prototype is of this form.
fn enter_by_prototype(
    heap: &Heap,
    pass: &mut Pass,
    call: &CallContext,
    object: u32,
    mark: u64,
    prototype: u64,
    form: MarkForm,
) -> BiasTry
    requires heap { IsOf heap.now pass.old }
    requires object { object < length heap.now.heap.shape.objects }
    requires form { read_mark prototype ≡ Some form }
    requires due { IsDueOn heap.now pass.old call.now.task
        (bias_enter_by (Some form) call.now (local_of pass.old.known) object mark prototype) }
    requires room { length pass.old.known.log < pass.old.limit }
    ensures { HasMadeSteps heap.now (bias_enter_by (Some form) call.now (local_of pass.old.known) object mark prototype)
        pass.old pass.new result }
{
    match form {
        MarkForm::Neutral { .. } => unbias(heap, pass, call, object, mark, prototype),
        MarkForm::Anonymous { epoch, .. } => match mark_of_word(mark) {
            Some(bias) => enter_at(heap, pass, call, object, mark, bias, epoch),
            None => unreachable!(),
        },
        _ => unreachable!(),
    }
}

// An enter by a biased mark: the class's prototype says whether the class may be biased, and which epoch is valid.
fn enter_biased(
    heap: &Heap,
    pass: &mut Pass,
    call: &CallContext,
    class: u32,
    object: u32,
    mark: u64,
) -> BiasTry
    requires heap { IsOf heap.now pass.old }
    requires object { object < length heap.now.heap.shape.objects }
    requires biased { is_biased mark ≡ true }
    requires due { IsDueOn heap.now pass.old call.now.task
        (prototype_enter call.now (local_of pass.old.known) class object mark) }
    requires room { length pass.old.known.log < pass.old.limit }
    ensures { HasMadeSteps heap.now (prototype_enter call.now (local_of pass.old.known) class object mark)
        pass.old pass.new result }
{
    let prototype = heap.load(pass, call, Stage::Settled, WordId::Prototype { class });
    let own = pass.thread();
    if is_own(mark, prototype, own) {
        return log_biased_enter(heap, pass, call, object, Path::BiasOwn);
    }
    match mark_of_word(prototype) {
        Some(form) => enter_by_prototype(heap, pass, call, object, mark, prototype, form),
        None => unreachable!(),
    }
}

/// Enters the object under a bias to the thread, as far as that needs no safepoint.
///
/// `Took(BiasOwn)` says that the mark was validly biased to the thread and is left as it is. `Took(BiasTaken)` says that
/// the mark was biased to nobody, or in an epoch that is over, and was exchanged for a valid bias to the thread. Either
/// way the hold word is stored and the Enter logged. `Unbiased { mark }` says that the mark has no bias pattern: it was
/// found so, or it was biased though its class's prototype is neutral, and was exchanged for the prototype.
/// `Valid { mark }` says that the mark is validly biased to another thread. `Raced { expected, found }` says that an
/// exchange expected the biased mark and found another, which it left. In these three no hold was taken and nothing
/// logged, and the thread's own words are as they were.
///
/// In OpenJDK 8: `MacroAssembler::biased_locking_enter` (`macroAssembler_x86.cpp`), and
/// `BiasedLocking::revoke_and_rebias` with `attempt_rebias` true (`biasedLocking.cpp`), up to where it needs a
/// safepoint.
pub fn bias_enter(heap: &Heap, pass: &mut Pass, call: &CallContext, object: u32) -> BiasTry
    requires heap { IsOf heap.now pass.old }
    requires object { object < length heap.now.heap.shape.objects }
    requires due { IsDueOn heap.now pass.old call.now.task
        (bias_enter_steps heap.now.heap.shape call.now (local_of pass.old.known) object) }
    requires room { length pass.old.known.log < pass.old.limit }
    ensures run { HasMadeSteps heap.now
        (bias_enter_steps heap.now.heap.shape call.now (local_of pass.old.known) object)
        pass.old pass.new result }
    ensures kept { IsKeptUnlessTook result (local_of pass.old.known) (local_of pass.new.known) }
{
    let mark = heap.load(pass, call, Stage::Settled, WordId::Mark { object });
    if is_biased(mark) {
        let class = heap.class_of(pass, call, Stage::Settled, object);
        return enter_biased(heap, pass, call, class, object, mark);
    }
    BiasTry::Unbiased { mark }
}

/// Goes on with an enter under a bias that has found this mark, which has the bias pattern, and this prototype of the class. Its answer
/// says what that of `bias_enter` does.
pub fn bias_enter_loaded(
    heap: &Heap,
    pass: &mut Pass,
    call: &CallContext,
    object: u32,
    mark: u64,
    prototype: u64,
) -> BiasTry
    requires heap { IsOf heap.now pass.old }
    requires object { object < length heap.now.heap.shape.objects }
    requires due { IsDueOn heap.now pass.old call.now.task
        (bias_enter_by (read_mark prototype) call.now (local_of pass.old.known) object mark prototype) }
    requires room { length pass.old.known.log < pass.old.limit }
    ensures run { HasMadeSteps heap.now
        (bias_enter_by (read_mark prototype) call.now (local_of pass.old.known) object mark prototype)
        pass.old pass.new result }
    ensures kept { IsKeptUnlessTook result (local_of pass.old.known) (local_of pass.new.known) }
{
    match mark_of_word(prototype) {
        Some(form) => enter_by_prototype(heap, pass, call, object, mark, prototype, form),
        None => unreachable!(),
    }
}
