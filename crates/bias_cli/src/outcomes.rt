//! Every way in which a program may end: the search, its counts, and the way to an end.

ghost use Rattle.std.specs.Prelude.{◌≡◌, ◌⊎◌, ◌≤◌, ◌++◌, ◌∷◌, length, map, IfOk, IfSome, OnOk, Ok, Some, None};
ghost use Rattle.lock_journal.specs.RunText.{journal_line, text_of_lines};
ghost use Rattle.object_program.specs.Valid.{IsProgram};
ghost use Rattle.program_syntax.specs.Refusal.{program_of};
ghost use Rattle.cli_args.specs.declared.options.Command.TheVariants as asked;
ghost use Rattle.program_syntax.specs.Text.{most_bytes};
ghost use Rattle.bias_check.specs.Parts.{marker};
ghost use Rattle.outcome_search.specs.Witness.{IsWitness, IsCutShort};
ghost use Rattle.bias_cli.specs.inner.Ends.{Adds, TellsEnds, IsSearchOf, first_of};
ghost use Rattle.bias_cli.specs.Outcomes.{IsShown, end_to_show, outcome_line, rare_line, outcome_lines, outcome_status};
ghost use Rattle.bias_cli.specs.Seen.{source_seen, sink_seen};
ghost use Rattle.bias_cli.specs.Finish.{Finds, IsFinish, IsGivenUp, Meets, TakesAtMost, finds_due};

use crate::finish::{Finish, finish_with, out_of_memory};
use crate::input::{ReadError, read_text};
use crate::refusal::refusal_line;
use lock_journal::{Line, entry_line};
use object_program::Program;
use outcome_search::{End, OutcomeError, Outcomes, find_outcomes, find_witness};
use plain_monitor::{Logged, NoMemory};
use program_syntax::{BYTES, RefusalCause, read_program};
use run_io::{Sink, Source};
use state_search::Found;
use std::alloc::Global;

/// Reads the source and writes in which ways its program may end, keeping at most so many states.
pub(crate) fn find_source<S: Source, K: Sink>(
    alloc: Global,
    states: u32,
    witness: bool,
    source: &mut S,
    sink: &mut K,
) -> Finish
    requires { 1 ≤ states }
    ensures over { IsGivenUp sink.old sink.new result ⊎ IsFinish (Some (asked.Outcomes states witness))
        (source_seen S.Source source.old) (source_seen S.Source source.new)
        (sink_seen K.Sink sink.old) (sink_seen K.Sink sink.new) result }
    ensures taken { TakesAtMost S.Source (Some most_bytes) source.old source.new }
{
    match read_text(alloc, source, BYTES) {
        Ok(bytes) => find_text(alloc, states, witness, bytes.as_slice(), sink),
        Err(ReadError::Fault) => finish_with(sink, 5, b"read fault\n"),
        Err(ReadError::NoMemory) => out_of_memory(),
    }
}

/// Reads the program that the bytes have, and looks for its ends.
fn find_text<K: Sink>(
    alloc: Global,
    states: u32,
    witness: bool,
    bytes: &[u8],
    sink: &mut K,
) -> Finish
    requires { 1 ≤ states }
    ensures { IsGivenUp sink.old sink.new result
        ⊎ Meets (sink_seen K.Sink sink.old) (sink_seen K.Sink sink.new) result
        (finds_due states witness (program_of bytes.now)) }
{
    match read_program(alloc, bytes) {
        Ok(program) => find_ends(alloc, states, witness, &program, sink),
        Err(error) => match error.why {
            RefusalCause::NoMemory => out_of_memory(),
            _ => finish_with(sink, 3, refusal_line(error).bytes()),
        },
    }
}

/// Looks for the ends of the program, and writes what it found.
fn find_ends<K: Sink>(
    alloc: Global,
    states: u32,
    witness: bool,
    program: &Program,
    sink: &mut K,
) -> Finish
    requires { 1 ≤ states }
    ensures { IsProgram program.now → IsGivenUp sink.old sink.new result
        ⊎ Meets (sink_seen K.Sink sink.old) (sink_seen K.Sink sink.new) result
        (finds_due states witness (Ok program.now)) }
{
    match find_outcomes(alloc, program, states as usize) {
        Ok((counts, found)) => write_ends(alloc, witness, program, &counts, &found, sink),
        Err(OutcomeError::Hash) => finish_with(sink, 3, b"program: Hash\n"),
        Err(OutcomeError::NoMemory) => out_of_memory(),
    }
}

/// Writes the counts of a search, and the way to an end where it is asked for.
fn write_ends<K: Sink>(
    alloc: Global,
    witness: bool,
    program: &Program,
    counts: &Outcomes,
    found: &Found,
    sink: &mut K,
) -> Finish
    ensures { (search : IsSearchOf program.now found.now counts.now) → IsGivenUp sink.old sink.new result
        ⊎ Meets (sink_seen K.Sink sink.old) (sink_seen K.Sink sink.new) result (Finds program.now search.states witness) }
{
    match ends_text(alloc, witness, program, counts, found) {
        Ok(text) => finish_with(sink, outcome_status(counts), text.as_slice()),
        Err(NoMemory) => out_of_memory(),
    }
}

/// The text of a search: its counts, and the way to an end where it is asked for.
fn ends_text(
    alloc: Global,
    witness: bool,
    program: &Program,
    counts: &Outcomes,
    found: &Found,
) -> Result<Vec<u8>, NoMemory>
    ensures { IsSearchOf program.now found.now counts.now
        → IfOk result (λ text. TellsEnds program.now witness counts.now text.items) }
{
    let mut text = Vec::new(alloc);
    push_counts(counts, &mut text)?;
    if witness {
        push_witness(alloc, program, counts, found, &mut text)?;
    }
    Ok(text)
}

/// Writes the counts after the text.
fn push_counts(counts: &Outcomes, text: &mut Vec<u8>) -> Result<(), NoMemory>
    ensures { OnOk result (text.new.items ≡ text.old.items ++ text_of_lines (outcome_lines counts.now)) }
{
    push_count(b"states", counts.states, text)?;
    push_count(b"ended", counts.ended, text)?;
    push_count(b"faulted", counts.faulted, text)?;
    push_count(b"stuck", counts.stuck, text)?;
    push_rare(b"spent", counts.spent, text)?;
    push_rare(b"open", counts.open, text)
}

/// Writes a count after the text, where it isn't 0.
fn push_rare(name: &'static [u8], count: usize, text: &mut Vec<u8>) -> Result<(), NoMemory>
    requires { length name.now ≤ 10 }
    ensures { OnOk result (text.new.items ≡ text.old.items ++ text_of_lines (rare_line name.now count)) }
{
    if count == 0 {
        return Ok(());
    }
    push_count(name, count, text)
}

/// Writes a count after the text.
fn push_count(name: &'static [u8], count: usize, text: &mut Vec<u8>) -> Result<(), NoMemory>
    requires { length name.now ≤ 10 }
    ensures { OnOk result (text.new.items ≡ text.old.items ++ outcome_line name.now count) }
{
    let mut line = Line::new();
    line.push(name);
    line.push(b" ");
    line.push_number(count as u64);
    line.push(b"\n");
    push_bytes(line.bytes(), text)
}

/// Writes these bytes after the text.
fn push_bytes(bytes: &[u8], text: &mut Vec<u8>) -> Result<(), NoMemory>
    ensures { OnOk result (text.new.items ≡ text.old.items ++ bytes.now) }
{
    text.extend_from_slice(bytes).map_err(|_| NoMemory)
}

/// Writes the way to an end after the text, where there is one to show.
fn push_witness(
    alloc: Global,
    program: &Program,
    counts: &Outcomes,
    found: &Found,
    text: &mut Vec<u8>,
) -> Result<(), NoMemory>
    ensures { IsSearchOf program.now found.now counts.now
        → OnOk result (Adds (IsShown program.now (end_to_show counts.now)) text.old.items text.new.items) }
{
    match end_to_show(counts) {
        Some(end) => push_way(alloc, program, counts, found, end, text),
        None => Ok(()),
    }
}

/// Writes the way to such an end after the text.
fn push_way(
    alloc: Global,
    program: &Program,
    counts: &Outcomes,
    found: &Found,
    end: End,
    text: &mut Vec<u8>,
) -> Result<(), NoMemory>
    ensures { IsSearchOf program.now found.now counts.now → end_to_show counts.now ≡ Some end
        → OnOk result (Adds (IsShown program.now (Some end)) text.old.items text.new.items) }
{
    match way_to(alloc, program, counts, found, end)? {
        Some(entries) => push_journal(program, entries.as_slice(), text),
        None => push_bytes(b"witness none\n", text),
    }
}

/// Entries that lead to such an end.
fn way_to(
    alloc: Global,
    program: &Program,
    counts: &Outcomes,
    found: &Found,
    end: End,
) -> Result<Option<Vec<(u32, Logged)>>, NoMemory>
    ensures entries { IfOk result (λ way. IfSome way (λ entries. IsWitness program.now end entries.items)) }
    ensures none { IsSearchOf program.now found.now counts.now → end_to_show counts.now ≡ Some end
        → IfOk result (λ way. way ≡ None → IsCutShort program.now end) }
{
    match first_end(counts, end) {
        Some(number) => {
            let choices = found.way_to(alloc, number)?;
            find_witness(alloc, program, choices.as_slice(), end)
        }
        None => Ok(None),
    }
}

/// The number of the first state that ends so.
fn first_end(counts: &Outcomes, end: End) -> Option<usize>
    ensures { result ≡ first_of end counts.now }
{
    match end {
        End::Stuck => counts.first_stuck,
        End::Faulted => counts.first_faulted,
        End::Ended | End::Spent => None,
    }
}

/// Writes a journal with its marker after the text.
fn push_journal(
    program: &Program,
    entries: &[(u32, Logged)],
    text: &mut Vec<u8>,
) -> Result<(), NoMemory>
    ensures { OnOk result (text.new.items ≡ text.old.items ++ text_of_lines (marker ∷ map (journal_line program.now) entries.now)) }
{
    push_bytes(b"%journal\n", text)?;
    push_entries(program, entries, text)
}

/// Writes the lines of these entries after the text.
fn push_entries(
    program: &Program,
    entries: &[(u32, Logged)],
    text: &mut Vec<u8>,
) -> Result<(), NoMemory>
    ensures { OnOk result (text.new.items ≡ text.old.items ++ text_of_lines (map (journal_line program.now) entries.now)) }
{
    for entry in entries {
        push_entry(program, entry, text)?;
    }
    Ok(())
}

/// Writes the line of an entry of a thread after the text.
fn push_entry(program: &Program, entry: &(u32, Logged), text: &mut Vec<u8>) -> Result<(), NoMemory>
    ensures { OnOk result (text.new.items ≡ text.old.items ++ journal_line program.now entry.now) }
{
    push_bytes(entry_line(program, entry.0, &entry.1).bytes(), text)
}

/// The end to which the way is shown.
fn end_to_show(counts: &Outcomes) -> Option<End>
    ensures { result ≡ end_to_show counts.now }
{
    if counts.stuck > 0 {
        Some(End::Stuck)
    } else if counts.faulted > 0 {
        Some(End::Faulted)
    } else {
        None
    }
}

/// The status of a search.
fn outcome_status(counts: &Outcomes) -> u8
    ensures { result ≡ outcome_status counts.now }
{
    if counts.stuck > 0 {
        4
    } else if counts.faulted > 0 || counts.spent > 0 {
        1
    } else if counts.open > 0 {
        8
    } else {
        0
    }
}
