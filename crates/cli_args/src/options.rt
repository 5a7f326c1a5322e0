//! What the words ask for.

ghost use Rattle.std.specs.Prelude.{◌≡◌, option_map};
ghost use Rattle.cli_args.specs.inner.Clap as told;
ghost use Rattle.cli_args.specs.Command as spec;
ghost use Rattle.cli_args.specs.Number as numbers;
ghost use Rattle.cli_args.specs.declared.options.Command.TheVariants.{Make};

use crate::numbers::number;
use plain_monitor::limits::{FUEL, THREADS};

/// What the words ask for.
#[derive(Clone, Copy, Debug, PartialEq, Eq)]
pub enum Command {
    /// To run a program.
    Run(Options),
    /// To run a program with blocks.
    Sync(Options),
    /// To write the code of a program with blocks.
    Compile,
    /// To check a journal, where each thread has this much fuel, 1 to 200,000, and the generators of the identity hashes start
    /// from `start`.
    Check { fuel: u32, start: u32 },
    /// To make the program that hands over this many items, 1 to 1,500.
    Make { items: u32 },
    /// To find every way in which a program may end, keeping at most this many states, 1 to 10,000,000; whether a journal that
    /// leads to a stuck or faulted end is written.
    Outcomes { states: u32, witness: bool },
}

/// How a program is run.
#[derive(Clone, Copy, Debug, PartialEq, Eq)]
pub struct Options {
    /// How many workers run the threads, 1 to 16.
    pub workers: u32,
    /// How many instructions each thread may execute, 1 to 200,000.
    pub fuel: u32,
    /// How many instructions a thread executes at most before another gets its worker, 1 to 100,000.
    pub quantum: u32,
    /// Whether biased locking is on.
    pub bias: bool,
    /// What the generators of the identity hashes start from.
    pub start: u32,
    /// How many milliseconds one count of the clock stands for. With 0, time stands still.
    pub tick: u32,
    /// Whether statistics are written.
    pub stats: bool,
    /// Whether the journal is written.
    pub journal: bool,
    /// Whether it is reported who waits for whom, and how each object was locked and passed on.
    pub report: bool,
}

/// The options as texts, `None` where they weren't given.
#[derive(Clone, Copy)]
pub(crate) struct Values<'a> {
    pub(crate) workers: Option<&'a str>,
    pub(crate) fuel: Option<&'a str>,
    pub(crate) quantum: Option<&'a str>,
    pub(crate) bias: Option<&'a str>,
    pub(crate) start: Option<&'a str>,
    pub(crate) tick: Option<&'a str>,
    pub(crate) states: Option<&'a str>,
    pub(crate) stats: bool,
    pub(crate) journal: bool,
    pub(crate) report: bool,
    pub(crate) witness: bool,
}

/// The options that the texts say, or `None` where one of them says no value of its option or belongs to a search for all ends.
pub(crate) fn options_of(values: Values) -> Option<Options>
    ensures { result ≡ spec.options_of (told.values_held values.entry) }
{
    if has_outcome_options(&values) {
        return None;
    }
    run_values(&values)
}

/// How a program is run by the texts, or `None` where one of them says no value of its option.
fn run_values(values: &Values) -> Option<Options>
    ensures { result ≡ spec.run_values (told.values_held values.now) }
{
    Some(Options {
        workers: number_or(values.workers, 4, 1, THREADS)?,
        fuel: fuel_of(values)?,
        quantum: number_or(values.quantum, 1_000, 1, 100_000)?,
        bias: switch_or(values.bias, true)?,
        start: start_of(values)?,
        tick: number_or(values.tick, 0, 0, 4_294_967_295)?,
        stats: values.stats,
        journal: values.journal,
        report: values.report,
    })
}

/// The check that the texts ask for, or `None` where one of them says no value of its option or belongs to a run or a search.
pub(crate) fn check_by(values: Values) -> Option<Command>
    ensures { result ≡ spec.check_by (told.values_held values.entry) }
{
    if has_run_options(&values) || has_outcome_options(&values) {
        return None;
    }
    Some(Command::Check {
        fuel: fuel_of(&values)?,
        start: start_of(&values)?,
    })
}

/// The search for all ends that the texts ask for, or `None` where one of them says no value of its option or belongs to a run or a
/// check.
pub(crate) fn outcomes_by(values: Values) -> Option<Command>
    ensures { result ≡ spec.outcomes_by (told.values_held values.entry) }
{
    if has_run_options(&values) || values.fuel.is_some() || values.start.is_some() {
        return None;
    }
    Some(Command::Outcomes {
        states: number_or(values.states, 1_000_000, 1, 10_000_000)?,
        witness: values.witness,
    })
}

/// The program that is asked for by this number of items, or `None` where the text says no number from 1 to 1,500.
pub(crate) fn make_by(items: &str) -> Option<Command>
    ensures { result ≡ option_map Make (numbers.number 1 1500 items.now) }
{
    let items = number(items, 1, 1_500)?;
    Some(Command::Make { items })
}

/// The fuel of each thread.
fn fuel_of(values: &Values) -> Option<u32>
    ensures { result ≡ spec.fuel_of (told.values_held values.now) }
{
    number_or(values.fuel, 20_000, 1, FUEL)
}

/// What the generators of the identity hashes start from.
fn start_of(values: &Values) -> Option<u32>
    ensures { result ≡ spec.start_of (told.values_held values.now) }
{
    number_or(values.start, 1, 0, 4_294_967_295)
}

/// Whether an option is given that only a run has.
fn has_run_options(values: &Values) -> bool
    ensures { result ≡ spec.has_run_options (told.values_held values.now) }
{
    values.workers.is_some()
        || values.quantum.is_some()
        || values.bias.is_some()
        || values.tick.is_some()
        || values.stats
        || values.journal
        || values.report
}

/// Whether an option is given that only a search for all ends has.
fn has_outcome_options(values: &Values) -> bool
    ensures { result ≡ spec.has_outcome_options (told.values_held values.now) }
{
    values.states.is_some() || values.witness
}

/// The number that the text says, or the default where there is no text.
fn number_or(text: Option<&str>, default: u32, least: u32, most: u32) -> Option<u32>
    ensures { result ≡ spec.read_or default (numbers.number least most) (option_map (λ s. s.now) text.entry) }
{
    match text {
        None => Some(default),
        Some(text) => number(text, least, most),
    }
}

/// Whether the text says `on`, or the default where there is no text. `None` where it says neither `on` nor `off`.
fn switch_or(text: Option<&str>, default: bool) -> Option<bool>
    ensures { result ≡ spec.read_or default spec.switch (option_map (λ s. s.now) text.entry) }
{
    match text {
        None => Some(default),
        Some(text) if text == "on" => Some(true),
        Some(text) if text == "off" => Some(false),
        Some(_) => None,
    }
}
