//! The line on a text that has no program.

ghost use Rattle.std.specs.Prelude.{◌≡◌, ◌≤◌, ◌++◌, [], length};
ghost use Rattle.bias_cli.specs.Refused.{cause_line, cause_text, place_text, refusal_text, sync_cause_text, sync_refusal_text};

use lock_journal::Line;
use program_syntax::{ProgramError, RefusalCause};
use sync_syntax::{SyncError, SyncRefusalCause};

/// The line on a text that has no program.
pub(crate) fn refusal_line(error: ProgramError) -> Line
    ensures { result ≡ refusal_text error }
{
    cause_line(error.line, cause_text(error.why))
}

/// The line on a text that has no program with blocks.
pub(crate) fn sync_refusal_line(error: SyncError) -> Line
    ensures { result ≡ sync_refusal_text error }
{
    cause_line(error.line, sync_cause_text(error.why))
}

/// `program: CAUSE` for line 0, else `line N: CAUSE`, with its line feed.
fn cause_line(number: u32, cause: &'static [u8]) -> Line
    requires { length cause.now ≤ 11 }
    ensures { result ≡ cause_line number cause.now }
{
    let mut line = Line::new();
    push_place(&mut line, number);
    line.push(b": ");
    line.push(cause);
    line.push(b"\n");
    line
}

/// Writes where the refusal is, in at most 25 bytes.
fn push_place(line: &mut Line, number: u32)
    requires { line.old ≡ [] }
    ensures text { line.new ≡ place_text number }
    ensures short { length line.new ≤ 25 }
{
    if number == 0 {
        line.push(b"program");
    } else {
        line.push(b"line ");
        line.push_number(u64::from(number));
    }
}

/// The cause by its name, in at most 11 bytes.
fn cause_text(why: RefusalCause) -> &'static [u8]
    ensures text { result.now ≡ cause_text why }
    ensures short { length result.now ≤ 11 }
{
    match why {
        RefusalCause::NotAscii => b"NotAscii",
        RefusalCause::UnknownWord => b"UnknownWord",
        RefusalCause::Operands => b"Operands",
        RefusalCause::BadName => b"BadName",
        RefusalCause::Twice => b"Twice",
        RefusalCause::Undeclared => b"Undeclared",
        RefusalCause::BadNumber => b"BadNumber",
        RefusalCause::Limit => b"Limit",
        RefusalCause::NoThread => b"NoThread",
        RefusalCause::NoEnd => b"NoEnd",
        RefusalCause::Later => b"Later",
        RefusalCause::NoMemory => b"NoMemory",
    }
}

/// The name of a cause of refusal of a text with blocks.
fn sync_cause_text(why: SyncRefusalCause) -> &'static [u8]
    ensures text { result.now ≡ sync_cause_text why }
    ensures short { length result.now ≤ 11 }
{
    match why {
        SyncRefusalCause::Plain(why) => cause_text(why),
        SyncRefusalCause::Open => b"Open",
        SyncRefusalCause::Stray => b"Stray",
        SyncRefusalCause::Assigned => b"Assigned",
        SyncRefusalCause::Deep => b"Deep",
    }
}
