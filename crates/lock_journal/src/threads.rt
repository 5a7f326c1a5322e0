//! The lines on threads.

ghost use Rattle.std.specs.Prelude.{◌≡◌, ◌+◌, ◌<◌, ◌≤◌, ◌++◌, ◌∷◌, [], length, true, MatchBool};
ghost use Rattle.plain_monitor.specs.Limits.{most_threads};
ghost use Rattle.plain_machine.specs.Machine.{ending_of};
ghost use Rattle.lock_journal.specs.RunText.{standing_text, state_text};
ghost use Rattle.lock_journal.specs.LinesLeft.{threads_left, ended_left};
ghost use Rattle.machine_laws.specs.LogEnds.{ending_said, last_said, HaveEnded};
ghost use Rattle.lock_journal.specs.inner.LineTexts.{thread_line, ended_line};

use crate::line::Line;
use crate::record::RunRecord;
use crate::words::{push_ending, push_object, push_thread};
use object_program::Program;
use plain_machine::{Machine, Offer};
use plain_monitor::{Ending, Entry, Logged};

/// Writes the line on the next thread. False exactly where there is none, and then nothing changes.
pub(crate) fn next_thread(
    thread: &mut u32,
    program: &Program,
    machine: &Machine,
    out: &mut Line,
) -> bool
    requires clear { out.old ≡ [] }
    requires program { machine.now.program ≡ program.now }
    requires threads { length machine.now.threads ≡ length program.now.threads }
    ensures { MatchBool result
        (threads_left machine.now thread.old ≡ out.new ∷ threads_left machine.now thread.new)
        ((threads_left machine.now thread.old ≡ []) × (thread.new ≡ thread.old) × (out.new ≡ [])) }
{
    let t = *thread;
    if t as usize >= program.threads.items().len() {
        return false;
    }
    push_thread_line(out, program, machine, t);
    *thread = t + 1;
    true
}

/// Writes the line on the next thread by the last entry of its log. False exactly where there is none, and then nothing changes.
pub(crate) fn next_ended(thread: &mut u32, run: &RunRecord, out: &mut Line) -> bool
    requires clear { out.old ≡ [] }
    requires few { length run.now.logs ≤ most_threads }
    ensures { MatchBool result
        (ended_left run.now thread.old ≡ out.new ∷ ended_left run.now thread.new)
        ((ended_left run.now thread.old ≡ []) × (thread.new ≡ thread.old) × (out.new ≡ [])) }
{
    let t = *thread;
    match run.logs.items().get(t as usize) {
        None => false,
        Some(log) => {
            push_ended_line(out, &run.program, t, log.items());
            *thread = t + 1;
            true
        }
    }
}

/// Writes the line on thread `t`, by the last entry of its log.
fn push_ended_line(out: &mut Line, program: &Program, t: u32, log: &[Logged])
    requires { out.old ≡ [] }
    ensures { out.new ≡ ended_line program.now t log.now }
{
    out.push(b"thread ");
    push_thread(out, program, t);
    out.push(b" ");
    if let Some(ending) = last_said(log) {
        push_ending(out, ending);
    }
    out.end();
}

/// The ending that the last entry of the log says.
pub fn last_said(log: &[Logged]) -> Option<Ending>
    ensures { result ≡ last_said log.now }
{
    if log.is_empty() {
        return None;
    }
    ending_said(&log[log.len() - 1].entry)
}

/// The ending that an entry says.
fn ending_said(entry: &Entry) -> Option<Ending>
    ensures { result ≡ ending_said entry.now }
{
    match entry {
        Entry::Trap { fault, index } => Some(Ending::Trap {
            fault: *fault,
            index: *index,
        }),
        Entry::Spent => Some(Ending::Spent),
        Entry::Done => Some(Ending::Done),
        _ => None,
    }
}

/// Whether each thread's log ends with its ending entry.
pub fn have_ended(run: &RunRecord) -> bool
    ensures all { result ≡ true → HaveEnded run.now.logs }
    ensures only { HaveEnded run.now.logs → result ≡ true }
{
    for log in run.logs.items() {
        if last_said(log.items()).is_none() {
            return false;
        }
    }
    true
}

/// Writes the line on thread `t`.
fn push_thread_line(out: &mut Line, program: &Program, machine: &Machine, t: u32)
    requires clear { out.old ≡ [] }
    requires program { machine.now.program ≡ program.now }
    requires thread { t < length machine.now.threads }
    ensures { out.new ≡ thread_line machine.now t }
{
    out.push(b"thread ");
    push_thread(out, program, t);
    out.push(b" ");
    push_state(out, program, machine, t);
    out.end();
}

/// Writes how thread `t` ended, or where it stands, in at most 80 bytes.
fn push_state(out: &mut Line, program: &Program, machine: &Machine, t: u32)
    requires room { length out.old + 80 ≤ 512 }
    requires program { machine.now.program ≡ program.now }
    requires thread { t < length machine.now.threads }
    ensures text { out.new ≡ out.old ++ state_text machine.now t (ending_of machine.now t) }
    ensures short { length out.new ≤ length out.old + 80 }
{
    match machine.ending(t) {
        Some(ending) => push_ending(out, ending),
        None => push_standing(out, program, machine.offer(t)),
    }
}

/// Writes where a thread stands that was made this offer, in at most 80 bytes. Nothing where it can go on.
fn push_standing(out: &mut Line, program: &Program, offer: Offer)
    requires { length out.old + 80 ≤ 512 }
    ensures text { out.new ≡ out.old ++ standing_text program.now offer }
    ensures short { length out.new ≤ length out.old + 80 }
{
    match offer {
        Offer::Waiting { object } => {
            out.push(b"waiting on ");
            push_object(out, program, object);
        }
        Offer::Blocked { object, .. } => {
            out.push(b"blocked on ");
            push_object(out, program, object);
        }
        _ => {}
    }
}
