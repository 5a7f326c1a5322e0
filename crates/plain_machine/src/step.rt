//! What an instruction leads to.

ghost use Rattle.std.specs.Prelude.{◌≡◌, ◌<◌, ◌≤◌, length};
ghost use Rattle.object_program.specs.Limits.{most_code};
ghost use Rattle.plain_machine.specs.Thread.{step_of, faults};
ghost use Rattle.plain_machine.specs.Running.{instruction_at};
ghost use Rattle.plain_machine.specs.Next.{meant, IsReadyNext};

use crate::actor::Actor;
use crate::compute::{add, element, first_object, mul, sub};
use crate::jump::{jump, jump_below, jump_equal};
use crate::monitor_call::MonitorCall;
use crate::perform::{OwnerCall, create, dump, enter, get, hash, of_owner, print, put};
use object_program::{Code, Program};
use plain_monitor::{Ending, Fault, Value};

/// What an instruction leads to. Locals have numbers from 0. A place is how many instructions stand before it, and
/// may be past the last one, where the thread is done.
#[derive(Clone, Copy)]
pub enum Next {
    /// The local becomes the value, and the thread goes on past the instruction.
    Sets { local: u32, value: Value },
    /// The thread goes on at this place.
    Jumps { place: u32 },
    /// The thread stands before the call.
    Calls { call: MonitorCall },
    /// The thread leaves all its holds, and then ends so.
    Stops { ending: Ending },
}

/// What the instruction that the thread is at leads to, where `code` has the thread's instructions. After the last
/// one a thread is done. The thread is only read: whoever keeps it makes of it what the answer says.
///
/// The answer stands for the step that the language gives. Where it sets a local or calls, the thread is at an
/// instruction, a thread that enters has fewer than 64 holds, and one that makes an object has made fewer than 1,024.
pub fn look<T: Actor>(program: &Program, code: &[Code], thread: &T) -> Next
    requires { length code.now ≤ most_code }
    ensures next { step_of program.now (T.state thread.now) (instruction_at code.now (T.state thread.now).place)
        ≡ meant (T.state thread.now) result }
    ensures ready { IsReadyNext (T.state thread.now) result }
{
    match code.get(thread.place() as usize) {
        Some(instruction) => next_at(program, thread, *instruction),
        None => Next::Stops {
            ending: Ending::Done,
        },
    }
}

/// What this instruction leads to.
fn next_at<T: Actor>(program: &Program, thread: &T, instruction: Code) -> Next
    requires { (T.state thread.now).place < most_code }
    ensures next { step_of program.now (T.state thread.now) instruction ≡ meant (T.state thread.now) result }
    ensures ready { IsReadyNext (T.state thread.now) result }
{
    match instruction {
        Code::Set { x, v } => Next::Sets {
            local: x,
            value: Value::Int(v),
        },
        Code::Add { x, y, z } => add(thread, x, thread.local(y), thread.local(z)),
        Code::Sub { x, y, z } => sub(thread, x, thread.local(y), thread.local(z)),
        Code::Mul { x, y, z } => mul(thread, x, thread.local(y), thread.local(z)),
        Code::Ref { x, n } => Next::Sets {
            local: x,
            value: Value::Ref(first_object(program, n)),
        },
        Code::Elem { x, n, i } => element(program, thread, x, n, thread.local(i)),
        Code::Enter { x } => enter(thread, thread.local(x)),
        Code::Exit { x } => of_owner(thread, thread.local(x), OwnerCall::Exit),
        Code::Wait { x } => of_owner(thread, thread.local(x), OwnerCall::Wait),
        Code::Notify { x } => of_owner(thread, thread.local(x), OwnerCall::Notify),
        Code::NotifyAll { x } => of_owner(thread, thread.local(x), OwnerCall::NotifyAll),
        Code::Get { x, o, k } => get(program, thread, x, thread.local(o), k),
        Code::Put { o, k, x } => put(program, thread, thread.local(o), k, thread.local(x)),
        Code::Hash { x, o } => hash(thread, x, thread.local(o)),
        Code::New { x, c } => create(thread, x, c),
        Code::Print { x } => print(thread, thread.local(x)),
        Code::Jump { l } => jump(thread, l),
        Code::Jlt { x, y, l } => jump_below(thread, thread.local(x), thread.local(y), l),
        Code::Jeq { x, y, l } => jump_equal(thread, thread.local(x), thread.local(y), l),
        Code::Dump => dump(thread),
        Code::End => Next::Stops {
            ending: Ending::Done,
        },
    }
}

/// A fault at the instruction that the thread is at.
pub fn fault<T: Actor>(thread: &T, fault: Fault) -> Next
    requires { (T.state thread.now).place < most_code }
    ensures next { faults (T.state thread.now) fault ≡ meant (T.state thread.now) result }
    ensures ready { IsReadyNext (T.state thread.now) result }
{
    Next::Stops {
        ending: Ending::Trap {
            fault,
            index: thread.place() + 1,
        },
    }
}
