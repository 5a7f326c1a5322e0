//! The parse of the words by `clap`.

ghost use Rattle.std.specs.Prelude.{◌≡◌, IfOk, IfErr, Some, List, map, false, string_bytes};
ghost use Rattle.clap.specs.Words.{app_of, found_of, first_value, kind_of, rule_of};
ghost use Rattle.clap.specs.declared.error.kind.ErrorKind.TheVariants.{OutOfMemory};
ghost use Rattle.cli_args.specs.inner.Clap as told;
ghost use Rattle.cli_args.specs.Command as spec;

use crate::options::Values;
use crate::words::{FLAGS, VALUED};
use clap::{Arg, ArgAction, ArgMatches, Error};
use std::alloc::{AllocError, Global};

/// The option `--name`.
fn option_named<'a>(alloc: Global, name: &'a str, action: ArgAction) -> Arg<'a>
    ensures rule { rule_of result ≡ told.rule_named action name.now }
    ensures local { result.global ≡ false }
{
    Arg::new(alloc, name).long(name).action(action)
}

/// The command with these options after its own.
fn with_options<'a>(
    alloc: Global,
    mut command: clap::Command<'a>,
    names: &[&'a str],
    action: ArgAction,
) -> Result<clap::Command<'a>, AllocError>
    ensures { IfOk result (λ c. app_of c
        ≡ told.with_options action (map (λ s. s.now) names.now) (app_of command.entry)) }
{
    for name in names {
        command = command.arg(option_named(alloc, name, action))?;
    }
    Ok(command)
}

/// A command without options, whose first word is no program's name, and which has no `--help`.
fn bare_command<'a>(alloc: Global) -> clap::Command<'a>
    ensures { app_of result ≡ told.bare_app }
{
    clap::Command::new(alloc, "run")
        .no_binary_name(true)
        .disable_help_flag(true)
}

/// The command `run` with the options of all commands.
fn run_command<'a>(alloc: Global) -> Result<clap::Command<'a>, AllocError>
    ensures { IfOk result (λ c. app_of c ≡ told.run_app) }
{
    let command = with_options(
        alloc,
        bare_command(alloc),
        VALUED.as_slice(),
        ArgAction::Set,
    )?;
    with_options(alloc, command, FLAGS.as_slice(), ArgAction::SetTrue)
}

/// Whether a flag is given: `clap` reads it as `true` where it is, and as `false` where it isn't.
fn is_set(matches: &ArgMatches, name: &str) -> bool
    ensures { result ≡ spec.is_true (first_value (found_of matches.now) name.now) }
{
    match matches.get_str(name) {
        Some(text) => text == "true",
        None => false,
    }
}

/// The values of the options.
fn values_in<'a>(matches: &ArgMatches<'a>) -> Values<'a>
    ensures { told.values_held result ≡ told.values_found (first_value (found_of matches.now)) }
{
    Values {
        workers: matches.get_str("workers"),
        fuel: matches.get_str("fuel"),
        quantum: matches.get_str("quantum"),
        bias: matches.get_str("bias"),
        start: matches.get_str("hash-start"),
        tick: matches.get_str("tick"),
        states: matches.get_str("states"),
        stats: is_set(matches, "stats"),
        journal: is_set(matches, "journal"),
        report: is_set(matches, "report"),
        witness: is_set(matches, "witness"),
    }
}

/// The values of the options that the words give, each as a text. Fails only for want of memory where the words have the shape of
/// options.
pub(crate) fn parse<'a>(alloc: Global, words: &'a [String]) -> Result<Values<'a>, Error>
    ensures values { IfOk result (λ v. (given : spec.Given)
        → spec.gathered spec.nothing_read (map (λ w. string_bytes w) words.now) ≡ Some given
        → told.values_held v ≡ spec.values_of given) }
    ensures fails { IfErr result (λ e. (given : spec.Given)
        → spec.gathered spec.nothing_read (map (λ w. string_bytes w) words.now) ≡ Some given
        → kind_of e ≡ OutOfMemory) }
{
    let matches = run_command(alloc)?.try_get_matches_from(words)?;
    Ok(values_in(&matches))
}
