//! Two threads that enter one object under a bias.
ghost use Rattle.std.specs.Prelude.{◌≡◌, true};
ghost use Rattle.heap_tests.specs.Known.{resumed, Knows};
ghost use Rattle.heap_tests.specs.Biased.{MayEnter};

use crate::compare::same;
use crate::start::{begin_two, resume_both};
use bias_lock::bias_enter;
use core_world::{BiasTry, HeapCall, Operation, Unfinished};
use heap_table::{CallContext, Heap, Pass};
use plain_monitor::Path;
use std::process::Abort;
use std::test::Fail;

// It enters the first object.
fn enter(heap: &Heap, pass: &mut Pass) -> BiasTry
    requires { MayEnter heap.now pass.old }
{
    let call = CallContext {
        task: HeapCall::Enter { object: 0, now: 0 },
        unfinished: Some(Unfinished {
            op: Operation::Enter,
            object: 0,
        }),
        check: false,
    };
    bias_enter(heap, pass, &call, 0)
}

// The first thread enters it.
fn enter_first(rt: &impl Abort, heap: &Heap, pass: &mut Pass)
    requires biasing { heap.now.heap.biasing ≡ true }
    requires knows { Knows heap.now (resumed 0 0 1) pass.old }
{
    let tried = enter(heap, pass);
    same(rt, tried, BiasTry::Took(Path::BiasTaken));
}

// The second thread tries to enter it.
fn enter_second(rt: &impl Abort, heap: &Heap, pass: &mut Pass)
    requires biasing { heap.now.heap.biasing ≡ true }
    requires knows { Knows heap.now (resumed 1 1 3) pass.old }
{
    let tried = enter(heap, pass);
    same(rt, tried, BiasTry::Valid { mark: 1029 });
}

#[test]
fn one_thread_has_the_bias(rt: HostRuntime) -> Result<(), Fail> {
    let (heap, mut first, mut second) = begin_two(rt.alloc(), true)?;
    resume_both(&rt, &heap, &mut first, &mut second);
    enter_first(&rt, &heap, &mut first);
    enter_second(&rt, &heap, &mut second);
    same(&rt, first.held(0), 1);
    same(&rt, second.held(0), 0);
    Ok(())
}
