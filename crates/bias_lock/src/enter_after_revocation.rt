//! How a thread enters once it has revoked a bias.
ghost use Rattle.std.specs.Prelude.{◌≡◌, ◌<◌, length};
ghost use Rattle.core_world.specs.Threads.ThreadView.{local_of};
ghost use Rattle.core_world.specs.Trees.BiasSteps.{stage_after, bias_after_at, bias_after_steps};
ghost use Rattle.heap_table.specs.Parts.{IsDueOn, HasMadeSteps};
ghost use Rattle.heap_table.specs.Seen.{IsOf};
ghost use Rattle.bias_lock.specs.Kept.{IsKeptUnlessTook};

use crate::enters::log_biased_enter;
use core_world::{BiasTry, Stage, WordId};
use heap_table::{CallContext, Heap, Pass, is_biased, mark_of_word};
use mark_word::MarkForm;
use plain_monitor::Path;

/// Where the thread stands once it has revoked the object's bias, by whether it gave itself a new one.
pub fn stage_after(took: bool, object: u32) -> Stage
    ensures { result ≡ stage_after took object }
{
    if took {
        return Stage::BiasAcquired { object };
    }
    Stage::Settled
}

// An enter by a biased mark of this form: the bias is the thread's own.
fn enter_own(
    heap: &Heap,
    pass: &mut Pass,
    call: &CallContext,
    object: u32,
    form: Option<MarkForm>,
) -> BiasTry
    requires heap { IsOf heap.now pass.old }
    requires object { object < length heap.now.heap.shape.objects }
    requires due { IsDueOn heap.now pass.old call.now.task
        (bias_after_at form call.now (local_of pass.old.known) object) }
    requires room { length pass.old.known.log < pass.old.limit }
    ensures { HasMadeSteps heap.now (bias_after_at form call.now (local_of pass.old.known) object)
        pass.old pass.new result }
{
    match form {
        Some(bias) => match bias {
            MarkForm::Biased { .. } => log_biased_enter(heap, pass, call, object, Path::BiasTaken),
            _ => unreachable!(),
        },
        None => unreachable!(),
    }
}

/// Enters the object whose bias the thread has revoked at a safepoint of its own, where it may have given itself a new
/// bias. `log_biased_enter` says whether it has.
///
/// `Took(BiasTaken)` says that the mark is biased, which it is to the thread: the hold word is stored and the Enter
/// logged. `Unbiased { mark }` says that the mark has no bias pattern: no hold was taken and nothing logged. Either way
/// the mark is left as it is, and there is no other answer.
///
/// In OpenJDK 8: `ObjectSynchronizer::fast_enter` (`synchronizer.cpp`), behind `BiasedLocking::revoke_and_rebias`.
pub fn bias_after(
    heap: &Heap,
    pass: &mut Pass,
    call: &CallContext,
    object: u32,
    took: bool,
) -> BiasTry
    requires heap { IsOf heap.now pass.old }
    requires object { object < length heap.now.heap.shape.objects }
    requires due { IsDueOn heap.now pass.old call.now.task
        (bias_after_steps call.now (local_of pass.old.known) object took) }
    requires room { length pass.old.known.log < pass.old.limit }
    ensures run { HasMadeSteps heap.now (bias_after_steps call.now (local_of pass.old.known) object took)
        pass.old pass.new result }
    ensures kept { IsKeptUnlessTook result (local_of pass.old.known) (local_of pass.new.known) }
{
    let stage = stage_after(took, object);
    let mark = heap.load(pass, call, stage, WordId::Mark { object });
    if is_biased(mark) {
        let form = mark_of_word(mark);
        return enter_own(heap, pass, call, object, form);
    }
    BiasTry::Unbiased { mark }
}
