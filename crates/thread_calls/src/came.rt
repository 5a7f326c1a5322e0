//! What one instruction or one entry came to.

ghost use Rattle.std.specs.Prelude.{◌≡◌};
ghost use Rattle.thread_calls.specs.Advances.{progress_of};

use core_world::{PendingCause, Progress};

/// What one instruction or one entry came to. The cause of a pending call is written apart, and only there: so this fits a register.
#[derive(Clone, Copy, Debug, PartialEq, Eq)]
pub enum Went {
    /// An instruction was done.
    Done,
    /// The thread went on without one.
    On,
    /// The call that was made is pending, for the cause that was written.
    Pending,
}

/// Tells what the answer came to, and writes its cause where it is pending.
pub(crate) fn tell(progress: Progress<bool>, cause: &mut PendingCause) -> Went
    ensures { progress_of result cause.new ≡ progress }
{
    match progress {
        Progress::Done(true) => Went::Done,
        Progress::Done(false) => Went::On,
        Progress::Pending(why) => {
            *cause = why;
            Went::Pending
        }
    }
}
