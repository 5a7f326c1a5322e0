//! Two threads that take one object by lock records.
ghost use Rattle.std.specs.Prelude.{◌≡◌, false};
ghost use Rattle.core_world.specs.declared.heap_call.HeapCall.TheVariants as task;
ghost use Rattle.core_world.specs.Threads.ThreadView.{local_of};
ghost use Rattle.core_world.specs.Trees.LockSteps.{stack_enter_steps};
ghost use Rattle.core_world.specs.Trees.Operations.{lone_context};
ghost use Rattle.heap_table.specs.Parts.{HasMadeSteps};
ghost use Rattle.heap_tests.specs.Known.{resumed, Knows};
ghost use Rattle.heap_tests.specs.Recorded.{MayEnter};

use crate::compare::same;
use crate::start::{begin_two, resume_both};
use core_world::{HeapCall, PendingCause, Progress};
use heap_table::{CallContext, Heap, Pass};
use plain_monitor::Path;
use stack_lock::stack_enter;
use std::process::Abort;
use std::test::Fail;

// It enters the first object by this mark.
fn enter(heap: &Heap, pass: &mut Pass, mark: u64) -> Progress<Path>
    requires { MayEnter heap.now pass.old mark }
    ensures { HasMadeSteps heap.now
        (stack_enter_steps (lone_context (task.StackEnter 0 mark)) (local_of pass.old.known) 0 mark)
        pass.old pass.new result }
{
    let call = CallContext {
        task: HeapCall::StackEnter { object: 0, mark },
        unfinished: None,
        check: false,
    };
    stack_enter(heap, pass, &call, 0, mark)
}

// The first thread enters it by the neutral mark, and may then enter it again.
fn enter_first(rt: &impl Abort, heap: &Heap, pass: &mut Pass)
    requires biasing { heap.now.heap.biasing ≡ false }
    requires knows { Knows heap.now (resumed 0 0 1) pass.old }
    ensures { MayEnter heap.now pass.new 4096 }
{
    let progress = enter(heap, pass, 1);
    let Progress::Done(path) = progress else {
        panic!(rt; "the mark is neutral")
    };
    same(rt, path, Path::StackFirst);
}

// The second thread tries to enter it by the neutral mark that it had.
fn enter_second(rt: &impl Abort, heap: &Heap, pass: &mut Pass)
    requires biasing { heap.now.heap.biasing ≡ false }
    requires knows { Knows heap.now (resumed 1 1 3) pass.old }
{
    let raced = PendingCause::Raced {
        expected: 1,
        found: 4096,
    };
    let progress = enter(heap, pass, 1);
    same(rt, progress, Progress::Pending(raced));
}

// The first thread enters it again.
fn enter_again(rt: &impl Abort, heap: &Heap, pass: &mut Pass)
    requires { MayEnter heap.now pass.old 4096 }
{
    let progress = enter(heap, pass, 4096);
    same(rt, progress, Progress::Done(Path::StackAgain));
}

#[test]
fn one_thread_has_the_lock(rt: HostRuntime) -> Result<(), Fail> {
    let (heap, mut first, mut second) = begin_two(rt.alloc(), false)?;
    resume_both(&rt, &heap, &mut first, &mut second);
    enter_first(&rt, &heap, &mut first);
    enter_second(&rt, &heap, &mut second);
    enter_again(&rt, &heap, &mut first);
    same(&rt, first.held(0), 2);
    same(&rt, second.held(0), 0);
    Ok(())
}
