//! How a thread ends a bias without a safepoint.
ghost use Rattle.std.specs.Prelude.{◌≡◌, Some};
ghost use Rattle.mark_word.specs.declared.mark.MarkForm.TheVariants.{Neutral};
ghost use Rattle.mark_word.specs.Mark.{mark_of};
ghost use Rattle.core_world.specs.Threads.ThreadView.{local_of};
ghost use Rattle.core_world.specs.Trees.BiasSteps.{unbias_swap_steps, bias_drop_at, bias_drop_by, bias_drop_steps};
ghost use Rattle.heap_table.specs.Parts.{IsDueOn, HasMadeSteps};
ghost use Rattle.heap_table.specs.Seen.{IsOf};
ghost use Rattle.bias_lock.specs.inner.Parts.{prototype_drop};

use core_world::{BiasTry, Stage, WordId};
use heap_table::{CallContext, Heap, Pass, class_epoch, is_biased, mark_of_word};
use mark_word::{MarkForm, encode};

/// Exchanges the biased mark for this neutral one. `Unbiased` has the neutral mark, which stands now. `Raced` has the
/// biased mark and the other one that the exchange found and left.
///
/// In OpenJDK 8: the exchanges of `BiasedLocking::revoke_and_rebias` (`biasedLocking.cpp`) for a mark without the
/// bias.
pub fn unbias(
    heap: &Heap,
    pass: &mut Pass,
    call: &CallContext,
    object: u32,
    mark: u64,
    neutral: u64,
) -> BiasTry
    requires heap { IsOf heap.now pass.old }
    requires due { IsDueOn heap.now pass.old call.now.task (unbias_swap_steps call.now object mark neutral) }
    ensures { HasMadeSteps heap.now (unbias_swap_steps call.now object mark neutral) pass.old pass.new result }
{
    let at = WordId::Mark { object };
    let found = heap.exchange(pass, call, Stage::Settled, at, mark, neutral);
    if found != mark {
        return BiasTry::Raced {
            expected: mark,
            found,
        };
    }
    BiasTry::Unbiased { mark: neutral }
}

// The mark is exchanged for the neutral one without a hash.
fn make_neutral(heap: &Heap, pass: &mut Pass, call: &CallContext, object: u32, mark: u64) -> BiasTry
    requires heap { IsOf heap.now pass.old }
    requires due { IsDueOn heap.now pass.old call.now.task
        (unbias_swap_steps call.now object mark (mark_of (Neutral 0 0))) }
    ensures { HasMadeSteps heap.now (unbias_swap_steps call.now object mark (mark_of (Neutral 0 0)))
        pass.old pass.new result }
{
    let neutral = encode(&MarkForm::Neutral { hash: 0, age: 0 });
    unbias(heap, pass, call, object, mark, neutral)
}

// The end of a bias of this form, where the class's epoch is this one: a valid bias to a thread stays.
fn drop_at(
    heap: &Heap,
    pass: &mut Pass,
    call: &CallContext,
    object: u32,
    mark: u64,
    form: MarkForm,
    epoch: u8,
) -> BiasTry
    requires heap { IsOf heap.now pass.old }
    requires due { IsDueOn heap.now pass.old call.now.task (bias_drop_at (Some form) epoch call.now object mark) }
    ensures { HasMadeSteps heap.now (bias_drop_at (Some form) epoch call.now object mark) pass.old pass.new result }
{
    match form {
        MarkForm::Biased { epoch: old, .. } => {
            if old == epoch {
                return BiasTry::Valid { mark };
            }
            make_neutral(heap, pass, call, object, mark)
        }
        MarkForm::Anonymous { .. } => make_neutral(heap, pass, call, object, mark),
        _ => unreachable!(),
    }
}

// The end of the mark's bias, where the class has this epoch, or its biases are over.
fn drop_by(
    heap: &Heap,
    pass: &mut Pass,
    call: &CallContext,
    object: u32,
    mark: u64,
    prototype: u64,
    epoch: Option<u8>,
) -> BiasTry
    requires heap { IsOf heap.now pass.old }
    requires due { IsDueOn heap.now pass.old call.now.task (bias_drop_by epoch call.now object mark prototype) }
    ensures { HasMadeSteps heap.now (bias_drop_by epoch call.now object mark prototype) pass.old pass.new result }
{
    match epoch {
        None => unbias(heap, pass, call, object, mark, prototype),
        Some(epoch) => match mark_of_word(mark) {
            Some(form) => drop_at(heap, pass, call, object, mark, form, epoch),
            None => unreachable!(),
        },
    }
}

// The end of the mark's bias: the class's prototype says whether it is over already, and which epoch is valid.
fn drop_biased(
    heap: &Heap,
    pass: &mut Pass,
    call: &CallContext,
    class: u32,
    object: u32,
    mark: u64,
) -> BiasTry
    requires heap { IsOf heap.now pass.old }
    requires due { IsDueOn heap.now pass.old call.now.task (prototype_drop call.now class object mark) }
    ensures { HasMadeSteps heap.now (prototype_drop call.now class object mark) pass.old pass.new result }
{
    let prototype = heap.load(pass, call, Stage::Settled, WordId::Prototype { class });
    let epoch = class_epoch(prototype);
    drop_by(heap, pass, call, object, mark, prototype, epoch)
}

/// Ends the object's bias, as far as that needs no safepoint.
///
/// `Unbiased { mark }` says that the mark has no bias pattern: it was found so, or it was biased, and was exchanged for
/// this one. That is its class's prototype, where the prototype is not biased, and else the neutral mark without a hash,
/// where the bias was to nobody or in an epoch that is over. `Valid { mark }` says that the mark is validly biased to a
/// thread, and is left as it is. `Raced { expected, found }` says that an exchange expected the biased mark and found
/// another, which it left. Nothing is logged, and no hold changes.
///
/// In OpenJDK 8: `BiasedLocking::revoke_and_rebias` with `attempt_rebias` false (`biasedLocking.cpp`), up to where it
/// needs a safepoint.
pub fn bias_drop(heap: &Heap, pass: &mut Pass, call: &CallContext, object: u32) -> BiasTry
    requires heap { IsOf heap.now pass.old }
    requires due { IsDueOn heap.now pass.old call.now.task (bias_drop_steps heap.now.heap.shape call.now object) }
    ensures run { HasMadeSteps heap.now (bias_drop_steps heap.now.heap.shape call.now object) pass.old pass.new result }
    ensures kept { local_of pass.new.known ≡ local_of pass.old.known }
{
    let mark = heap.load(pass, call, Stage::Settled, WordId::Mark { object });
    if is_biased(mark) {
        let class = heap.class_of(pass, call, Stage::Settled, object);
        return drop_biased(heap, pass, call, class, object, mark);
    }
    BiasTry::Unbiased { mark }
}
