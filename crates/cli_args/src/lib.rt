//! The words of the command line, read as what they ask for.
//!
//! `read_words` answers exactly what `specs/Command.antt` accepts. A check of the words' shape goes first, so that no
//! word gets a meaning that only `clap` gives it, as `--` does. Then `clap` parses, and its values are read. The one word
//! after `make` is no option and is read as it stands.
#![tactic(auto)]

ghost use Rattle.std.specs.Prelude.{◌≡◌, IfOk, Some, None, Err, map, string_bytes};
ghost use Rattle.cli_args.specs.inner.Clap as told;
ghost use Rattle.cli_args.specs.Command as spec;
ghost use Rattle.cli_args.specs.declared.WordsFault.TheVariants.{Refused};

mod numbers;
mod options;
mod parser;
mod words;

use options::Values;
pub use options::{Command, Options};
use std::alloc::Global;
use thiserror::Error;

/// Why words ask for nothing.
#[derive(Debug, Drop, Error)]
pub enum WordsFault {
    /// They aren't accepted.
    #[error("words refused")]
    Refused,
    /// There was not enough memory to read them.
    #[error("no memory")]
    NoMemory,
}

/// What the words of the command line ask for. The first is the program's name and is not looked at.
///
/// # Errors
///
/// `Refused` only where `specs/Command.antt` doesn't accept the words, which then ask for nothing. `NoMemory` where
/// an allocation fails, whatever the words are.
pub fn read_words(alloc: Global, words: &[String]) -> Result<Command, WordsFault>
    ensures ok { IfOk result (λ c. spec.accepted (map (λ w. string_bytes w) words.now) ≡ Some c) }
    ensures refused { result ≡ Err Refused → spec.accepted (map (λ w. string_bytes w) words.now) ≡ None }
{
    match words {
        [_, command, rest @ ..] => read_command(alloc, command.as_str(), rest),
        _ => Err(WordsFault::Refused),
    }
}

/// What the words after this command's name ask for.
fn read_command(alloc: Global, command: &str, words: &[String]) -> Result<Command, WordsFault>
    ensures ok { IfOk result (λ c. spec.command_in command.now (map (λ w. string_bytes w) words.now) ≡ Some c) }
    ensures refused { result ≡ Err Refused → spec.command_in command.now (map (λ w. string_bytes w) words.now) ≡ None }
{
    if command == "run" {
        read_run(alloc, words)
    } else if command == "sync" {
        read_sync(alloc, words)
    } else if command == "compile" {
        read_compile(words)
    } else if command == "check" {
        read_check(alloc, words)
    } else if command == "make" {
        read_make(words)
    } else if command == "outcomes" {
        read_outcomes(alloc, words)
    } else {
        Err(WordsFault::Refused)
    }
}

/// What the words after `run` ask for.
fn read_run(alloc: Global, words: &[String]) -> Result<Command, WordsFault>
    ensures ok { IfOk result (λ c. spec.run_of (map (λ w. string_bytes w) words.now) ≡ Some c) }
    ensures refused { result ≡ Err Refused → spec.run_of (map (λ w. string_bytes w) words.now) ≡ None }
{
    let options = read_options(alloc, words)?;
    Ok(Command::Run(options))
}

/// What the words after `sync` ask for.
fn read_sync(alloc: Global, words: &[String]) -> Result<Command, WordsFault>
    ensures ok { IfOk result (λ c. spec.sync_of (map (λ w. string_bytes w) words.now) ≡ Some c) }
    ensures refused { result ≡ Err Refused → spec.sync_of (map (λ w. string_bytes w) words.now) ≡ None }
{
    let options = read_options(alloc, words)?;
    Ok(Command::Sync(options))
}

/// What the words after `compile` ask for.
fn read_compile(words: &[String]) -> Result<Command, WordsFault>
    ensures ok { IfOk result (λ c. spec.compile_of (map (λ w. string_bytes w) words.now) ≡ Some c) }
    ensures refused { result ≡ Err Refused → spec.compile_of (map (λ w. string_bytes w) words.now) ≡ None }
{
    match words {
        [] => Ok(Command::Compile),
        _ => Err(WordsFault::Refused),
    }
}

/// The options of a run that the words give.
fn read_options(alloc: Global, words: &[String]) -> Result<Options, WordsFault>
    ensures ok { IfOk result (λ o. spec.options_in (map (λ w. string_bytes w) words.now) ≡ Some o) }
    ensures refused { result ≡ Err Refused → spec.options_in (map (λ w. string_bytes w) words.now) ≡ None }
{
    let values = read_values(alloc, words)?;
    options::options_of(values).ok_or(WordsFault::Refused)
}

/// What the words after `check` ask for.
fn read_check(alloc: Global, words: &[String]) -> Result<Command, WordsFault>
    ensures ok { IfOk result (λ c. spec.check_of (map (λ w. string_bytes w) words.now) ≡ Some c) }
    ensures refused { result ≡ Err Refused → spec.check_of (map (λ w. string_bytes w) words.now) ≡ None }
{
    let values = read_values(alloc, words)?;
    options::check_by(values).ok_or(WordsFault::Refused)
}

/// What the words after `outcomes` ask for.
fn read_outcomes(alloc: Global, words: &[String]) -> Result<Command, WordsFault>
    ensures ok { IfOk result (λ c. spec.outcomes_of (map (λ w. string_bytes w) words.now) ≡ Some c) }
    ensures refused { result ≡ Err Refused → spec.outcomes_of (map (λ w. string_bytes w) words.now) ≡ None }
{
    let values = read_values(alloc, words)?;
    options::outcomes_by(values).ok_or(WordsFault::Refused)
}

/// What the words after `make` ask for.
fn read_make(words: &[String]) -> Result<Command, WordsFault>
    ensures ok { IfOk result (λ c. spec.make_of (map (λ w. string_bytes w) words.now) ≡ Some c) }
    ensures refused { result ≡ Err Refused → spec.make_of (map (λ w. string_bytes w) words.now) ≡ None }
{
    match words {
        [items] => options::make_by(items.as_str()).ok_or(WordsFault::Refused),
        _ => Err(WordsFault::Refused),
    }
}

/// The values of the options that the words give, each as a text.
fn read_values<'a>(alloc: Global, words: &'a [String]) -> Result<Values<'a>, WordsFault>
    ensures ok { IfOk result (λ v. spec.values_in (map (λ w. string_bytes w) words.now) ≡ Some (told.values_held v)) }
    ensures refused { result ≡ Err Refused → spec.values_in (map (λ w. string_bytes w) words.now) ≡ None }
{
    let has_shape = words::has_shape(alloc, words).map_err(|_| WordsFault::NoMemory)?;
    if !has_shape {
        return Err(WordsFault::Refused);
    }
    let values = parser::parse(alloc, words).map_err(|_| WordsFault::NoMemory)?;
    Ok(values)
}
