//! Threads beside their objects: which call they stand before.

ghost use Rattle.std.specs.Prelude.{◌≡◌, ◌<◌, ◌^◌, [], length};
ghost use Rattle.plain_machine.specs.Machine.{code_of};
ghost use Rattle.plain_machine.specs.Next.{meant};
ghost use Rattle.plain_machine.specs.Running.{instruction_at};
ghost use Rattle.plain_machine.specs.Thread.{ThreadState, step_of};
ghost use Rattle.machine_words.specs.ThreadWords.{calling_in};
ghost use Rattle.machine_words.specs.inner.Reading.{walk, placed_mode, placed, place_step};

use object_program::Program;
use plain_machine::{Mode, Next, Thread, code_of, look};
use plain_monitor::Ending;

/// The mode of a thread before what follows.
fn calling_in(next: Next) -> Mode
    ensures { (s : ThreadState) → result ≡ calling_in (meant s next) }
{
    match next {
        Next::Calls { call } => Mode::Calling { call },
        _ => Mode::Unwinding {
            ending: Ending::Done,
        },
    }
}

/// The mode of thread t, which was told that it is in this mode, but not before which call it stands.
fn placed_mode(program: &Program, t: u32, thread: &Thread, mode: Mode) -> Mode
    requires { t < length program.now.threads }
    ensures { result ≡ placed_mode
        (calling_in (step_of program.now thread.now (instruction_at (code_of program.now t) thread.now.place))) mode }
{
    match mode {
        Mode::Calling { .. } => {
            let code = code_of(program, t);
            let next = look(program, code, thread);
            calling_in(next)
        }
        _ => mode,
    }
}

/// Thread t with this much fuel, before the call that it stands before, if it does.
fn place_thread(program: &Program, t: u32, fuel: u32, thread: &mut Thread)
    requires { t < length program.now.threads }
    ensures { thread.new ≡ placed program.now (code_of program.now t) fuel thread.old }
{
    let mode = thread.mode();
    let ending = Ending::Done;
    thread.stand(fuel, Mode::Unwinding { ending });
    let placed = placed_mode(program, t, thread, mode);
    thread.stand(fuel, placed);
}

/// All threads, with this much fuel.
pub(crate) fn place_threads(program: &Program, fuel: u32, threads: &mut [Thread])
    requires count { length threads.old ≡ length program.now.threads }
    requires threads { length threads.old < 2 ^ 32 }
    ensures { threads.new ≡ (walk (place_step program.now fuel) 0 threads.old []).0 }
{
    for (t, thread) in threads.iter_mut().enumerate() {
        place_thread(program, t as u32, fuel, thread);
    }
}
