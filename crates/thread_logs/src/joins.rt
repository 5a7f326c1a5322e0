//! Laws of all threads of a program and of its objects. The functions do nothing.

ghost use Rattle.std.specs.Prelude.{◌≡◌, ℕ, List, length, slice_get, Some};
ghost use Rattle.object_program.specs.Program.{ProgramText, shape_of};
ghost use Rattle.object_program.specs.Valid.{IsProgram};
ghost use Rattle.plain_machine.specs.Legal.{IsLegal, machine_after};
ghost use Rattle.plain_machine.specs.Machine.{PlainMachine};
ghost use Rattle.plain_machine.specs.Thread.{ThreadState};
ghost use Rattle.plain_monitor.specs.declared.entry.Logged.{Logged};
ghost use Rattle.plain_monitor.specs.History.{objects_after, log_of};
ghost use Rattle.thread_logs.specs.inner.Coded.{Coded, coded_step};
ghost use Rattle.thread_logs.specs.Followed.{FollowsCode, HaveFollowed};

use plain_history::{ThreadStates, objects_and_threads_join};

// The threads of a program.
struct OfProgram {}

impl ThreadStates for OfProgram {
    ghost State = { Coded };

    ghost step = { coded_step };
}

/// Logs that the plain objects take, one for each thread and each following its thread's code, are legal for the program: whatever
/// its threads name or hand on is there.
pub fn logs_that_follow_the_code_are_legal()
    ensures { (p : ProgramText) (fuel : ℕ) (logs : List (List Logged)) → IsProgram p
        → HaveFollowed p fuel logs → IsLegal p fuel logs }
{
    objects_and_threads_join::<OfProgram>();
}

/// The machine under such logs has the plain objects after them, and each thread in the state that its own log leads to.
pub fn the_machine_is_what_the_logs_make_it()
    ensures objects { (p : ProgramText) (fuel : ℕ) (logs : List (List Logged)) (m : PlainMachine)
        → HaveFollowed p fuel logs
        → machine_after p fuel logs ≡ Some m → objects_after (shape_of p) logs ≡ Some m.objects }
    ensures threads { (p : ProgramText) (fuel : ℕ) (logs : List (List Logged)) (m : PlainMachine)
        → HaveFollowed p fuel logs
        → machine_after p fuel logs ≡ Some m → length m.threads ≡ length p.threads }
    ensures each { (p : ProgramText) (fuel t : ℕ) (logs : List (List Logged)) (m : PlainMachine)
        (s : ThreadState) → HaveFollowed p fuel logs
        → machine_after p fuel logs ≡ Some m → slice_get m.threads t ≡ Some s → FollowsCode p fuel t (log_of logs t) s }
{
    objects_and_threads_join::<OfProgram>();
}
