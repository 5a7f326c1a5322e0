//! The instructions that go on at another place.

ghost use Rattle.std.specs.Prelude.{◌≡◌, ◌<◌};
ghost use Rattle.object_program.specs.Limits.{most_code};
ghost use Rattle.plain_monitor.specs.Objects.{same_value};
ghost use Rattle.plain_machine.specs.Thread.{Goes, at, jumps_where, jumps_below};
ghost use Rattle.plain_machine.specs.Next.{meant, IsReadyNext};

use crate::actor::Actor;
use crate::fit::same_value;
use crate::step::{Next, fault};
use plain_monitor::{Fault, Value};

/// Goes on at the instruction with this number, from 1.
pub fn jump<T: Actor>(thread: &T, l: u32) -> Next
    ensures next { Goes (at (T.state thread.now) l) ≡ meant (T.state thread.now) result }
    ensures ready { IsReadyNext (T.state thread.now) result }
{
    Next::Jumps {
        place: l.saturating_sub(1),
    }
}

/// Goes on there where the test holds, and else past the instruction.
fn jump_where<T: Actor>(thread: &T, holds: bool, l: u32) -> Next
    requires { (T.state thread.now).place < most_code }
    ensures next { jumps_where holds (T.state thread.now) l ≡ meant (T.state thread.now) result }
    ensures ready { IsReadyNext (T.state thread.now) result }
{
    if holds {
        return jump(thread, l);
    }
    Next::Jumps {
        place: thread.place() + 1,
    }
}

/// Goes on there where the first of two numbers is less.
pub fn jump_below<T: Actor>(thread: &T, x: Value, y: Value, l: u32) -> Next
    requires { (T.state thread.now).place < most_code }
    ensures next { jumps_below (T.state thread.now) x y l ≡ meant (T.state thread.now) result }
    ensures ready { IsReadyNext (T.state thread.now) result }
{
    match (x, y) {
        (Value::Int(x), Value::Int(y)) => jump_where(thread, x < y, l),
        _ => fault(thread, Fault::NotInt),
    }
}

/// Goes on there where the values are the same.
pub fn jump_equal<T: Actor>(thread: &T, x: Value, y: Value, l: u32) -> Next
    requires { (T.state thread.now).place < most_code }
    ensures next { jumps_where (same_value x y) (T.state thread.now) l ≡ meant (T.state thread.now) result }
    ensures ready { IsReadyNext (T.state thread.now) result }
{
    jump_where(thread, same_value(x, y), l)
}
