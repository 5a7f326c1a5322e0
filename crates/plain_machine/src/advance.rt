//! The thread after an entry that it asked for.

ghost use Rattle.std.specs.Prelude.{◌≡◌, ◌≤◌, ℕ, length};
ghost use Rattle.object_program.specs.Limits.{most_code};
ghost use Rattle.plain_machine.specs.declared.monitor_call.NextEntry.TheVariants.{Calls};
ghost use Rattle.plain_machine.specs.Asking.{answered, after_call, after_entry};
ghost use Rattle.plain_machine.specs.Ready.{IsReadyToAsk, IsReadyToCall, waits_on};
ghost use Rattle.plain_machine.specs.Sound.{ThreadIsReady};
ghost use Rattle.plain_machine.specs.inner.Kept.{holds_after, waits_after};

use crate::monitor_call::{Mode, MonitorCall, NextEntry};
use crate::run::run;
use crate::thread::Thread;
use object_program::{Code, Program};
use plain_monitor::{Entry, Value};

/// Moves the thread on after an entry that is what it asks.
#[tactic(auto, using(crate::proofs::Unwinding::unwinding))]
pub fn advance(
    program: &Program,
    code: &[Code],
    thread: &mut Thread,
    asked: NextEntry,
    entry: &Entry,
)
    requires few { length code.now ≤ most_code }
    requires ready { IsReadyToAsk thread.old asked }
    ensures after { thread.new ≡ after_entry program.now code.now thread.old asked entry.now }
    ensures holds { thread.new.holds ≡ holds_after thread.old asked }
    ensures ready { ThreadIsReady thread.new }
    ensures waits { (o : ℕ) → waits_on thread.new.mode o ≡ waits_after asked o }
{
    match asked {
        NextEntry::Calls { call } => advance_call(program, code, thread, call, entry),
        NextEntry::Resumes { .. } => {
            let fuel = thread.fuel();
            run(program, code, thread, fuel);
        }
        NextEntry::Leaves { object } => thread.hold_less(object),
        NextEntry::Ends { ending } => {
            let fuel = thread.fuel();
            thread.stand(fuel, Mode::Ended { ending });
        }
    }
}

/// Moves the thread on after this call, which is paid for.
fn advance_call(
    program: &Program,
    code: &[Code],
    thread: &mut Thread,
    call: MonitorCall,
    entry: &Entry,
)
    requires few { length code.now ≤ most_code }
    requires ready { IsReadyToCall thread.old call }
    ensures after { thread.new ≡ after_call program.now code.now thread.old call entry.now }
    ensures holds { thread.new.holds ≡ holds_after thread.old (Calls call) }
    ensures ready { ThreadIsReady thread.new }
    ensures waits { (o : ℕ) → waits_on thread.new.mode o ≡ waits_after (Calls call) o }
{
    let fuel = thread.fuel().saturating_sub(1);
    if let MonitorCall::Wait { object } = call {
        thread.step();
        return thread.stand(fuel, Mode::Waiting { object });
    }
    answer(thread, call, entry);
    thread.step();
    run(program, code, thread, fuel);
}

/// What the call's answer makes of the thread.
fn answer(thread: &mut Thread, call: MonitorCall, entry: &Entry)
    requires { IsReadyToCall thread.old call }
    ensures answered { thread.new ≡ answered thread.old call entry.now }
    ensures place { thread.new.place ≡ thread.old.place }
    ensures holds { thread.new.holds ≡ holds_after thread.old (Calls call) }
{
    match call {
        MonitorCall::Enter { object } => thread.hold_more(object),
        MonitorCall::Exit { object } => thread.hold_less(object),
        MonitorCall::Get { local, .. } => {
            if let Entry::Get { value, .. } = entry {
                thread.set_local(local, *value);
            }
        }
        MonitorCall::Hash { local, .. } => {
            if let Entry::Hash { value, .. } = entry {
                thread.set_local(local, Value::Int(i64::from(*value)));
            }
        }
        MonitorCall::New { local, .. } => {
            if let Entry::New { object, .. } = entry {
                thread.count_made();
                thread.set_local(local, Value::Ref(*object));
            }
        }
        MonitorCall::Dump { number } => thread.count_dumps(number),
        MonitorCall::Wait { .. }
        | MonitorCall::Notify { .. }
        | MonitorCall::NotifyAll { .. }
        | MonitorCall::Put { .. }
        | MonitorCall::Print { .. } => {}
    }
}
