//! The lines of the journal.

ghost use Rattle.std.specs.Prelude.{◌≡◌, ◌+◌, ◌≤◌, ◌++◌, ◌∷◌, [], length, codes, decimal, MatchBool};
ghost use Rattle.std.specs.List.{AllByRecursion};
ghost use Rattle.plain_monitor.specs.History.{RisesAbove};
ghost use Rattle.lock_journal.specs.Merging.{AreOfSixteen};
ghost use Rattle.lock_journal.specs.Words.{object_text, value_text};
ghost use Rattle.lock_journal.specs.RunText.{woken_text, draw_text, entry_text, journal_line};
ghost use Rattle.lock_journal.specs.LinesLeft.{journal_left};

use crate::classes::push_class_name;
use crate::line::Line;
use crate::order::Merge;
use crate::record::RunRecord;
use crate::words::{push_ending, push_object, push_path, push_thread, push_value};
use object_program::Program;
use plain_monitor::{Ending, Entry, Logged, Value};

/// Writes the line of the next entry. False exactly where no entry is left, and then nothing changes.
pub(crate) fn next_entry(entries: &mut Merge, run: &RunRecord, out: &mut Line) -> bool
    requires rising { AllByRecursion (RisesAbove 0) run.now.logs }
    requires few { AreOfSixteen run.now.logs }
    requires clear { out.old ≡ [] }
    ensures { MatchBool result
        (journal_left run.now entries.old ≡ out.new ∷ journal_left run.now entries.new)
        ((journal_left run.now entries.old ≡ []) × (entries.new ≡ entries.old) × (out.new ≡ [])) }
{
    match entries.next(run) {
        Some((t, logged)) => {
            push_logged(out, &run.program, t, &logged);
            true
        }
        None => false,
    }
}

/// The line of an entry of thread `t` in a journal, with its line feed.
pub fn entry_line(program: &Program, t: u32, logged: &Logged) -> Line
    ensures { result ≡ journal_line program.now (t, logged.now) }
{
    let mut line = Line::new();
    push_logged(&mut line, program, t, logged);
    line
}

/// Writes the line of an entry of thread `t`.
fn push_logged(out: &mut Line, program: &Program, t: u32, logged: &Logged)
    requires { out.old ≡ [] }
    ensures { out.new ≡ journal_line program.now (t, logged.now) }
{
    out.push(b"@");
    out.push_number(logged.stamp);
    out.push(b" ");
    push_thread(out, program, t);
    out.push(b" ");
    push_entry(out, program, &logged.entry);
    out.end();
}

/// Writes what an entry says, in at most 200 bytes.
fn push_entry(out: &mut Line, program: &Program, entry: &Entry)
    requires { length out.old + 200 ≤ 512 }
    ensures text { out.new ≡ out.old ++ entry_text program.now entry.now }
    ensures short { length out.new ≤ length out.old + 200 }
{
    match *entry {
        Entry::Enter { object, path } => {
            push_on(out, program, b"enter ", object);
            out.push(b" ");
            push_path(out, path);
        }
        Entry::Exit { object } => push_on(out, program, b"exit ", object),
        Entry::Wait { object } => push_on(out, program, b"wait ", object),
        Entry::Resume { object } => push_on(out, program, b"resume ", object),
        Entry::Get {
            object,
            slot,
            value,
        } => {
            push_on(out, program, b"get ", object);
            push_slot(out, program, slot, value);
        }
        Entry::Put {
            object,
            slot,
            value,
        } => {
            push_on(out, program, b"put ", object);
            push_slot(out, program, slot, value);
        }
        Entry::Notify { object, woken } => {
            push_on(out, program, b"notify ", object);
            out.push(b" ");
            push_woken(out, program, woken);
        }
        Entry::NotifyAll { object, woken } => {
            push_on(out, program, b"notifyall ", object);
            push_count(out, woken);
        }
        Entry::Hash {
            object,
            value,
            drawn,
        } => {
            push_on(out, program, b"hash ", object);
            push_count(out, value);
            push_draw(out, drawn);
        }
        Entry::New { object, class } => {
            push_on(out, program, b"new ", object);
            out.push(b" ");
            push_class_name(out, program, class as usize);
        }
        Entry::Print { value } => {
            out.push(b"print ");
            push_value(out, program, value);
        }
        Entry::Dump { number } => {
            out.push(b"dump ");
            out.push_number(u64::from(number));
        }
        Entry::Trap { fault, index } => push_ending(out, Ending::Trap { fault, index }),
        Entry::Spent => out.push(b"spent"),
        Entry::Done => out.push(b"done"),
    }
}

/// Writes what was done, in at most 12 bytes, and the name of the object that it was done to.
fn push_on(out: &mut Line, program: &Program, done: &[u8], object: u32)
    requires done { length done.now ≤ 12 }
    requires room { length out.old + 76 ≤ 512 }
    ensures text { out.new ≡ out.old ++ (done.now ++ object_text program.now object) }
    ensures short { length out.new ≤ length out.old + 76 }
{
    out.push(done);
    push_object(out, program, object);
}

/// Writes a number after a space, in at most 21 bytes.
fn push_count(out: &mut Line, number: u32)
    requires { length out.old + 21 ≤ 512 }
    ensures text { out.new ≡ out.old ++ codes " " ++ decimal number }
    ensures short { length out.new ≤ length out.old + 21 }
{
    out.push(b" ");
    out.push_number(u64::from(number));
}

/// Writes the number of a slot and its value, each after a space, in at most 86 bytes.
fn push_slot(out: &mut Line, program: &Program, slot: u32, value: Value)
    requires { length out.old + 86 ≤ 512 }
    ensures text { out.new ≡ out.old ++ codes " " ++ decimal slot ++ codes " " ++ value_text program.now value }
    ensures short { length out.new ≤ length out.old + 86 }
{
    push_count(out, slot);
    out.push(b" ");
    push_value(out, program, value);
}

/// Writes the thread that a notify woke, in at most 32 bytes.
fn push_woken(out: &mut Line, program: &Program, woken: Option<u32>)
    requires { length out.old + 32 ≤ 512 }
    ensures text { out.new ≡ out.old ++ woken_text program.now woken }
    ensures short { length out.new ≤ length out.old + 32 }
{
    match woken {
        None => out.push(b"none"),
        Some(t) => push_thread(out, program, t),
    }
}

/// Writes the number of the draw that gave a hash, in at most 26 bytes. Nothing where none did.
fn push_draw(out: &mut Line, drawn: Option<u32>)
    requires { length out.old + 26 ≤ 512 }
    ensures text { out.new ≡ out.old ++ draw_text drawn }
    ensures short { length out.new ≤ length out.old + 26 }
{
    match drawn {
        None => {}
        Some(number) => {
            out.push(b" draw ");
            out.push_number(u64::from(number));
        }
    }
}
