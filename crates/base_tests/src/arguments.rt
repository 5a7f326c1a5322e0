//! Words that are accepted, and words that aren't.

use crate::compare::holds;
use cli_args::{Command, Options, WordsFault, read_words};
use std::alloc::{AllocError, Global};
use std::process::Abort;
use std::test::Fail;

const DEFAULT: Options = Options {
    workers: 4,
    fuel: 20_000,
    quantum: 1_000,
    bias: true,
    start: 1,
    tick: 0,
    stats: false,
    journal: false,
    report: false,
};

/// What the line asks for, whose words stand between single spaces.
fn read_line(alloc: Global, line: &str) -> Result<Option<Command>, AllocError> {
    let mut words: Vec<String> = Vec::new(alloc);
    for word in line.split(' ') {
        words.push(String::from_str(alloc, word)?)?;
    }
    read(alloc, words.as_slice())
}

/// What the words ask for, or `None` where they are refused.
fn read(alloc: Global, words: &[String]) -> Result<Option<Command>, AllocError> {
    match read_words(alloc, words) {
        Ok(command) => Ok(Some(command)),
        Err(WordsFault::Refused) => Ok(None),
        Err(WordsFault::NoMemory) => Err(AllocError),
    }
}

/// Expects that each line asks for the command beside it.
fn expect_asked<R: Abort + AllocGlobal>(rt: &R, rows: &[(&str, Command)]) -> Result<(), Fail> {
    for (line, asked) in rows {
        expect(rt, line, asked)?;
    }
    Ok(())
}

/// Expects that the line asks for this.
fn expect<R: Abort + AllocGlobal>(rt: &R, line: &str, asked: &Command) -> Result<(), Fail> {
    let command = read_line(rt.alloc(), line)?;
    assert_eq!(rt; command, Some(*asked), "at {line}");
    Ok(())
}

/// Lines that run a program.
const RUNS: &[(&str, Command)] = &[
    (
        "biasrun run --workers=04 --stats",
        Command::Run(Options {
            workers: 4,
            stats: true,
            ..DEFAULT
        }),
    ),
    ("biasrun run", Command::Run(DEFAULT)),
    ("--help run", Command::Run(DEFAULT)),
    (
        "biasrun run --journal --tick 30 --bias=off --hash-start=0 --quantum 0000000007 --stats --report --fuel 200000 --workers=16",
        Command::Run(Options {
            workers: 16,
            fuel: 200_000,
            quantum: 7,
            bias: false,
            start: 0,
            tick: 30,
            stats: true,
            journal: true,
            report: true,
        }),
    ),
    (
        "biasrun run --hash-start 4294967295",
        Command::Run(Options {
            start: 4_294_967_295,
            ..DEFAULT
        }),
    ),
    ("biasrun run --tick=0", Command::Run(DEFAULT)),
    ("biasrun run --bias on", Command::Run(DEFAULT)),
    (
        "biasrun run --report",
        Command::Run(Options {
            report: true,
            ..DEFAULT
        }),
    ),
];

#[test]
fn options_are_read(rt: HostRuntime) -> Result<(), Fail> {
    expect_asked(&rt, RUNS)
}

/// A program with blocks is run with the options of a run, and compiled without any.
const OF_BLOCKS: &[(&str, Command)] = &[
    ("biasrun sync", Command::Sync(DEFAULT)),
    (
        "biasrun sync --journal --quantum=7",
        Command::Sync(Options {
            quantum: 7,
            journal: true,
            ..DEFAULT
        }),
    ),
    ("biasrun compile", Command::Compile),
];

#[test]
fn programs_with_blocks_are_asked_for(rt: HostRuntime) -> Result<(), Fail> {
    expect_asked(&rt, OF_BLOCKS)
}

/// Lines that check a journal.
const CHECKS: &[(&str, Command)] = &[
    (
        "biasrun check",
        Command::Check {
            fuel: 20_000,
            start: 1,
        },
    ),
    (
        "biasrun check --fuel 7",
        Command::Check { fuel: 7, start: 1 },
    ),
    (
        "biasrun check --hash-start=0 --fuel=200000",
        Command::Check {
            fuel: 200_000,
            start: 0,
        },
    ),
];

#[test]
fn checks_are_read(rt: HostRuntime) -> Result<(), Fail> {
    expect_asked(&rt, CHECKS)
}

/// Lines that search the outcomes.
const SEARCHES: &[(&str, Command)] = &[
    (
        "biasrun outcomes",
        Command::Outcomes {
            states: 1_000_000,
            witness: false,
        },
    ),
    (
        "biasrun outcomes --witness",
        Command::Outcomes {
            states: 1_000_000,
            witness: true,
        },
    ),
    (
        "biasrun outcomes --states 1",
        Command::Outcomes {
            states: 1,
            witness: false,
        },
    ),
    (
        "biasrun outcomes --states=10000000 --witness",
        Command::Outcomes {
            states: 10_000_000,
            witness: true,
        },
    ),
    (
        "biasrun outcomes --witness --states 0000000250",
        Command::Outcomes {
            states: 250,
            witness: true,
        },
    ),
];

#[test]
fn searches_are_read(rt: HostRuntime) -> Result<(), Fail> {
    expect_asked(&rt, SEARCHES)
}

/// Lines that make a program for this many items.
const MAKES: &[(&str, Command)] = &[
    ("biasrun make 1", Command::Make { items: 1 }),
    ("biasrun make 40", Command::Make { items: 40 }),
    ("biasrun make 0000000040", Command::Make { items: 40 }),
    ("biasrun make 1500", Command::Make { items: 1_500 }),
];

#[test]
fn numbers_of_items_are_read(rt: HostRuntime) -> Result<(), Fail> {
    expect_asked(&rt, MAKES)
}

/// Words that are refused, a command line each.
const REFUSED: &str = "\
biasrun
biasrun make
biasrun make\x20
biasrun make 0
biasrun make 1501
biasrun make 5 5
biasrun make 00000000005
biasrun make --5
biasrun make --items=5
biasrun make -5
biasrun make +5
biasrun make 5x
biasrun 5 make
biasrun run run
biasrun --stats run
biasrun RUN
biasrun run\x20
biasrun run --
biasrun run -s
biasrun run -
biasrun run --=4
biasrun run --help
biasrun run help
biasrun run -h
biasrun run --version
biasrun run --work 2
biasrun run --Fuel 5
biasrun run --stats=1
biasrun run --stats --stats
biasrun run --fuel 5 --fuel 5
biasrun run --fuel
biasrun run --fuel --stats
biasrun run --fuel=
biasrun run --fuel\x20
biasrun run --fuel 0
biasrun run --fuel 200001
biasrun run --fuel 00000000001
biasrun run --fuel +5
biasrun run --fuel -5
biasrun run --fuel=-5
biasrun run --fuel 5x
biasrun run --fuel==5
biasrun run --workers 17
biasrun run --quantum 100001
biasrun run --hash-start 4294967296
biasrun run --tick 9999999999
biasrun run --bias ON
biasrun run --bias
biasrun run --report=1
biasrun run --report --report
biasrun sync sync
biasrun sync --items
biasrun sync 40
biasrun sync --fuel 0
biasrun sync --journal --journal
biasrun --journal sync
biasrun SYNC
biasrun syncs
biasrun compile x
biasrun compile\x20
biasrun compile --stats
biasrun compile --fuel 5
biasrun compile compile
biasrun compiles
biasrun check check
biasrun check --workers 4
biasrun check --quantum 1
biasrun check --bias on
biasrun check --tick 0
biasrun check --stats
biasrun check --journal
biasrun check --report
biasrun check --fuel 0
biasrun check --fuel
biasrun check --fuel 5 --fuel 5
biasrun check --hash-start 4294967296
biasrun checks
biasrun outcomes outcomes
biasrun outcomes 5
biasrun outcomes\x20
biasrun outcomes --states
biasrun outcomes --states=
biasrun outcomes --states 0
biasrun outcomes --states 10000001
biasrun outcomes --states 00000000001
biasrun outcomes --states -5
biasrun outcomes --states 5x
biasrun outcomes --states --witness
biasrun outcomes --states 5 --states 5
biasrun outcomes --states=5 --witness --states=6
biasrun outcomes --witness --witness
biasrun outcomes --witness=1
biasrun outcomes --witness true
biasrun outcomes --workers 4
biasrun outcomes --fuel 20000
biasrun outcomes --quantum 1000
biasrun outcomes --bias on
biasrun outcomes --hash-start 1
biasrun outcomes --tick 0
biasrun outcomes --stats
biasrun outcomes --journal
biasrun outcomes --report
biasrun outcomes --states 5 --witness --report
biasrun --witness outcomes
biasrun OUTCOMES
biasrun outcome
biasrun run --states 1000000
biasrun run --witness
biasrun run --journal --witness --report
biasrun sync --states=5
biasrun sync --witness
biasrun check --states 5
biasrun check --witness
biasrun check --fuel 5 --witness
biasrun compile --witness
biasrun make --witness
biasrun make 5 --states 5";

/// Expects that the line is refused.
fn expect_refused<R: Abort + AllocGlobal>(rt: &R, line: &str) -> Result<(), Fail> {
    let command = read_line(rt.alloc(), line)?;
    assert!(rt; command.is_none(), "at {line}");
    Ok(())
}

#[test]
fn other_words_are_refused(rt: HostRuntime) -> Result<(), Fail> {
    for line in REFUSED.split('\n') {
        expect_refused(&rt, line)?;
    }
    let command = read(rt.alloc(), &[])?;
    holds(&rt, command.is_none());
    Ok(())
}
