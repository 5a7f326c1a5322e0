//! The line on a journal that was checked, and the status.

ghost use Rattle.std.specs.Prelude.{◌≡◌, ◌≤◌, ◌++◌, [], codes, decimal, length};
ghost use Rattle.bias_cli.specs.Verdict.{reached_text, verdict_text, verdict_status};

use bias_check::{CheckFault, Checked, Reached};
use lock_journal::{Line, push_object};
use object_program::Program;

/// The line of an answer, with its line feed. Nothing where memory was wanting.
pub(crate) fn verdict_line(program: &Program, answer: Result<Checked, CheckFault>) -> Line
    ensures { result ≡ verdict_text program.now answer }
{
    let mut line = Line::new();
    match answer {
        Ok(Checked::Legal { entries, state }) => {
            line.push(b"legal ");
            line.push_number(entries);
            line.push(b" ");
            line.push(reached_text(state));
            line.push(b"\n");
        }
        Ok(Checked::NoStep { line: number }) => {
            push_place(&mut line, number);
            line.push(b": no step\n");
        }
        Ok(Checked::BadHash { object }) => {
            line.push(b"hash ");
            push_object(&mut line, program, object);
            line.push(b"\n");
        }
        Err(CheckFault::Unreadable { line: number }) => {
            push_place(&mut line, number);
            line.push(b": unreadable\n");
        }
        Err(CheckFault::NoMemory) => {}
    }
    line
}

/// Writes which line of the journal it is, in at most 28 bytes.
fn push_place(line: &mut Line, number: u32)
    requires { line.old ≡ [] }
    ensures text { line.new ≡ codes "journal " ++ decimal number }
    ensures short { length line.new ≤ 28 }
{
    line.push(b"journal ");
    line.push_number(u64::from(number));
}

/// How the threads stand, in at most 5 bytes.
fn reached_text(state: Reached) -> &'static [u8]
    ensures text { result.now ≡ reached_text state }
    ensures short { length result.now ≤ 5 }
{
    match state {
        Reached::Ended => b"ended",
        Reached::Stuck => b"stuck",
        Reached::Open => b"open",
    }
}

/// The status of an answer.
pub(crate) fn verdict_status(answer: Result<Checked, CheckFault>) -> u8
    ensures { result ≡ verdict_status answer }
{
    match answer {
        Ok(Checked::Legal { .. }) => 0,
        Ok(Checked::NoStep { .. } | Checked::BadHash { .. }) => 1,
        Err(CheckFault::Unreadable { .. }) => 3,
        Err(CheckFault::NoMemory) => 7,
    }
}
