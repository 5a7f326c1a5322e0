//! How a thread runs.

ghost use Rattle.std.specs.Prelude.{◌≡◌, ◌≤◌, ℕ, false, length};
ghost use Rattle.object_program.specs.Limits.{most_code};
ghost use Rattle.plain_machine.specs.Running.{run_on};
ghost use Rattle.plain_machine.specs.Ready.{waits_on};
ghost use Rattle.plain_machine.specs.Sound.{ThreadIsReady};

use crate::monitor_call::Mode;
use crate::step::{Next, look};
use crate::thread::Thread;
use object_program::{Code, Program};
use plain_monitor::Ending;

/// Runs a thread that has this much fuel, up to its next call or its end.
#[tactic(auto, using(crate::proofs::Runs::run_steps))]
pub fn run(program: &Program, code: &[Code], thread: &mut Thread, fuel: u32)
    requires { length code.now ≤ most_code }
    ensures runs { thread.new ≡ run_on program.now code.now fuel thread.old }
    ensures holds { thread.new.holds ≡ thread.old.holds }
    ensures ready { ThreadIsReady thread.new }
    ensures waits { (o : ℕ) → waits_on thread.new.mode o ≡ false }
{
    let mut left = fuel;
    while left > 0 {
        match look(program, code, thread) {
            Next::Sets { local, value } => {
                thread.set_local(local, value);
                thread.step();
            }
            Next::Jumps { place } => thread.go_to(place),
            Next::Calls { call } => return thread.stand(left, Mode::Calling { call }),
            Next::Stops { ending } => return thread.stand(left - 1, Mode::Unwinding { ending }),
        }
        left -= 1;
    }
    thread.stand(
        0,
        Mode::Unwinding {
            ending: Ending::Spent,
        },
    );
}
