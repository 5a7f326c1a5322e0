//! The calls on a pass, for C. `include/biasrun.h` says what each asks, and what its answer means.
ghost use Rattle.core_world.specs.declared.heap_call.HeapCall.TheVariants.{Enter, Exit, Wait, Notify, NotifyAll, Hash, Dump, Finish, Poll, Stop, Resume, Check};
ghost use Rattle.lock_runtime_c.specs.ByHandle.{Answers, IsNeverFull};
ghost use Rattle.plain_monitor.specs.declared.entry.Ending.TheVariants as ending;

use crate::access::make_by;
use crate::answers::{Answer, answered};
use crate::enters::enter_by;
use crate::exits::exit_by;
use crate::handle::Slot;
use crate::polls::poll_by;
use core_world::HeapCall;
use plain_monitor::Ending;
use std::alloc::Global;

#[unsafe(no_mangle)]
pub extern "C" fn biasrun_poll(alloc: Global, at: &mut Slot) -> Answer
    ensures { Answers at.old at.new Poll result }
{
    poll_by(alloc, at)
}

#[unsafe(no_mangle)]
pub extern "C" fn biasrun_stop(alloc: Global, at: &mut Slot) -> Answer
    ensures { Answers at.old at.new Stop result }
{
    answered(make_by(alloc, at, HeapCall::Stop))
}

#[unsafe(no_mangle)]
pub extern "C" fn biasrun_resume(alloc: Global, at: &mut Slot) -> Answer
    ensures { Answers at.old at.new Resume result }
{
    answered(make_by(alloc, at, HeapCall::Resume))
}

#[unsafe(no_mangle)]
pub extern "C" fn biasrun_check_stuck(alloc: Global, at: &mut Slot) -> Answer
    ensures { Answers at.old at.new Check result }
{
    answered(make_by(alloc, at, HeapCall::Check))
}

#[unsafe(no_mangle)]
pub extern "C" fn biasrun_enter(alloc: Global, at: &mut Slot, object: u32, now: u64) -> Answer
    ensures { Answers at.old at.new (Enter object now) result }
{
    enter_by(alloc, at, object, now)
}

#[unsafe(no_mangle)]
pub extern "C" fn biasrun_exit(alloc: Global, at: &mut Slot, object: u32) -> Answer
    ensures told { Answers at.old at.new (Exit object) result }
    ensures full { IsNeverFull at.old result }
{
    exit_by(alloc, at, object)
}

#[unsafe(no_mangle)]
pub extern "C" fn biasrun_wait(alloc: Global, at: &mut Slot, object: u32, now: u64) -> Answer
    ensures { Answers at.old at.new (Wait object now) result }
{
    answered(make_by(alloc, at, HeapCall::Wait { object, now }))
}

#[unsafe(no_mangle)]
pub extern "C" fn biasrun_notify(alloc: Global, at: &mut Slot, object: u32, now: u64) -> Answer
    ensures { Answers at.old at.new (Notify object now) result }
{
    answered(make_by(alloc, at, HeapCall::Notify { object, now }))
}

#[unsafe(no_mangle)]
pub extern "C" fn biasrun_notify_all(alloc: Global, at: &mut Slot, object: u32, now: u64) -> Answer
    ensures { Answers at.old at.new (NotifyAll object now) result }
{
    answered(make_by(alloc, at, HeapCall::NotifyAll { object, now }))
}

#[unsafe(no_mangle)]
pub extern "C" fn biasrun_hash(alloc: Global, at: &mut Slot, object: u32, now: u64) -> Answer
    ensures { Answers at.old at.new (Hash object now) result }
{
    answered(make_by(alloc, at, HeapCall::Hash { object, now }))
}

#[unsafe(no_mangle)]
pub extern "C" fn biasrun_dump(alloc: Global, at: &mut Slot) -> Answer
    ensures { Answers at.old at.new Dump result }
{
    answered(make_by(alloc, at, HeapCall::Dump))
}

#[unsafe(no_mangle)]
pub extern "C" fn biasrun_finish(alloc: Global, at: &mut Slot) -> Answer
    ensures { Answers at.old at.new (Finish ending.Done) result }
{
    answered(make_by(
        alloc,
        at,
        HeapCall::Finish {
            ending: Ending::Done,
        },
    ))
}
