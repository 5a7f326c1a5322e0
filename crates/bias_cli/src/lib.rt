//! `biasrun`: runs a program of the object language, or of the language with blocks, and writes what it prints and how each of its
//! threads ended; or writes the code of a program with blocks; or checks a journal of a program; or makes one.
//!
//! `biasrun` is the top call. Its contract is over the arguments, the bytes read, the bytes written, the counts of faults and what
//! it answers: `specs/Finish.antt` says what is due and what counts as done, and `lock_journal` what the text of a run is.
#![tactic(auto)]

ghost use Rattle.std.specs.Prelude.{◌≡◌, ◌≢◌, map, string_bytes};
ghost use Rattle.cli_args.specs.Command.{accepted};
ghost use Rattle.bias_cli.specs.Seen.{source_seen, sink_seen};
ghost use Rattle.bias_cli.specs.Finish.{most_asked, IsGivenUp, IsFinish, TakesAtMost};

mod block_laws;
mod blocks;
mod check;
mod compile;
mod finish;
mod input;
mod laws;
mod make;
mod outcome_laws;
mod outcomes;
mod output;
mod refusal;
mod refused;
mod report;
mod run;
mod settings_laws;
mod text;
mod verdict;
mod witnesses;

pub use block_laws::compiling_first_changes_nothing;
pub use cli_args::{Command, Options, WordsFault, read_words};
pub use finish::Finish;
pub use heap_table::{ClassCounts, Closed};
pub use laws::{
    one_thread_decides_what_is_written, records_can_be_replayed, status_7_is_want_of_memory,
    the_journal_of_each_run_is_legal_for_check,
};
pub use lock_journal::{Cell, ClassLine, Line, Lines, Merge, RunRecord, Shot, replay};
pub use outcome_laws::runs_end_as_a_search_found;
pub use refused::{
    no_end_that_a_search_may_miss, no_other_answer_to_a_journal, no_other_status_by_other_settings,
    no_replay_of_a_wrong_record, no_run_without_a_record_of_its_program,
    no_same_run_by_another_stamp_fuel_print_or_end, no_status_7_of_a_call_that_wrote,
};
use run_io::{Clock, Gate, Sink, Source};
pub use settings_laws::settings_change_nothing_that_may_be_written;
use std::alloc::Global;
use std::sync::Wait;
use std::thread::Threads;
pub use witnesses::{
    a_small_program_can_be_run, a_small_program_with_a_block_can_be_run,
    all_ends_of_a_small_program_can_be_found, calls_can_do_what_is_due,
};

/// Does what the arguments, `words`, ask for, and writes what is due to the sink. `words[0]` is the program's name.
///
/// - `run` reads a program, runs it, and writes the text of the run: what its threads print and dump, in stamped
/// order, and how each of them ended; then, where asked for, the lock statistics, the journal of all monitor calls,
/// and a report of who waits for whom and how each object was locked and passed on.
/// - `sync` reads a program with blocks, and runs its code with the same options.
/// - `compile` reads one, and writes its code, as a text that `run` takes where it isn't too long.
/// - `check` reads a program with a journal of it, and writes whether the journal is a legal history of the program,
/// and if not, why: the first line that tells no entry, else the first that is no step, else the least object whose
/// hashes don't fit.
/// - `outcomes` reads a program, looks for every end of it, and writes how many states it kept and how they end, with
/// a journal that leads to an end where one is asked for.
/// - `make` reads nothing, and writes the handover program for a number of items (`handover_program::handover`).
///
/// Where the arguments are not accepted, a read fails, or the text has no program, that is what is written. Only
/// `run` and `sync` leave a record (`Finish` has the statuses). At the first write that fails the writing stops, with
/// a prefix of the text written and status 6. Memory runs out only before the first write, and leaves the sink as it
/// was. A text is read to the end of the source, or one byte past its limit; of a source that tells what is left no
/// more is taken.
///
/// A program is run on a heap by workers of `rt`, each of which runs one thread of the program at a time for as many
/// instructions as a turn has (`program_run::run_program`). The clock tells the policy of biases the time. The gate
/// is visited at the start of each turn and may let other workers go first. Which of the legal runs it is they
/// decide.
pub fn biasrun<R: Threads + Wait + Sync, S: Source, K: Sink, C: Clock + Sync, G: Gate + Sync>(
    rt: &R,
    alloc: Global,
    words: &[String],
    source: &mut S,
    sink: &mut K,
    clock: &C,
    gate: &G,
) -> Finish
    // Out of memory: nothing is left, and the sink is as it was.
    ensures given_up { result.status ≡ 7 → IsGivenUp sink.old sink.new result }
    // What is due was written and answered, up to the first write that failed. The arguments and the text that was read say it,
    // with the run that was made of it, the check, the search, or the number of items of a program that is made.
    ensures finished { result.status ≢ 7 →
        IsFinish (accepted (map (λ w. string_bytes w) words.now))
        (source_seen S.Source source.old) (source_seen S.Source source.new)
        (sink_seen K.Sink sink.old) (sink_seen K.Sink sink.new) result }
    // Arguments that ask for no text leave the source as it was, and others take of what it had left,
    // where it tells that, none but the first bytes, up to one past the limit.
    ensures taken { TakesAtMost S.Source
        (most_asked (accepted (map (λ w. string_bytes w) words.now))) source.old source.new }
{
    run::run_command(rt, alloc, words, source, sink, clock, gate)
}
