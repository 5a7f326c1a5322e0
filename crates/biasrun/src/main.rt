//! The program `biasrun`: the trusted edge between the top call and the process.
//!
//! The arguments, `words`, are the process's, with an empty one for its name. The source is standard input, and the sink standard output,
//! which gets many lines in one write; nothing is written to standard error. The process ends with the status that the top call answers, or
//! with that of a failed write, where the last one fails.
#![tactic(auto)]

mod flushed;

use flushed::biasrun_flushed;
use run_io::{BufferedSink, FreeGate, ReadSource, StepClock, WriteSink};
use std::env::{Env, FillError};
use std::process::ExitCode;
use std::{env, io};

/// The status where memory runs out.
const NO_MEMORY: u8 = 7;

/// How many bytes are gathered for one write: those of some 2,000 lines.
const GATHERED: usize = 65_536;

fn main(rt: HostRuntime) -> ExitCode {
    let Ok(words) = words_of(&rt) else {
        return ExitCode::from(NO_MEMORY);
    };
    let mut source = ReadSource::new(rt.stdin());
    let Ok(mut sink) = BufferedSink::new(rt.alloc(), WriteSink::new(rt.stdout()), GATHERED) else {
        return ExitCode::from(NO_MEMORY);
    };
    let finish = biasrun_flushed(
        &rt,
        rt.alloc(),
        words.as_slice(),
        &mut source,
        &mut sink,
        &StepClock::new(1, 1),
        &FreeGate,
    );
    ExitCode::from(finish.status)
}

/// The arguments, with an empty word for the program's name, which is not looked at and may be no text. Where another one isn't UTF-8
/// there are no words, and no words are not accepted. The error is that memory ran out.
fn words_of<R: Env + AllocGlobal>(rt: &R) -> io::Result<Vec<String>> {
    match all_words(rt) {
        Err(error) if error.kind() == io::ErrorKind::InvalidData => Ok(Vec::new(rt.alloc())),
        words => words,
    }
}

fn all_words<R: Env + AllocGlobal>(rt: &R) -> io::Result<Vec<String>> {
    let mut words = Vec::new(rt.alloc());
    for word in env::args(&(Nameless(rt), rt.alloc()))? {
        words.push(word)?;
    }
    Ok(words)
}

/// An environment in which the program's name is empty.
#[derive(Drop)]
struct Nameless<'a, R>(&'a R);

impl<R: Env> Env for Nameless<'_, R> {
    fn arg(&self, i: usize, buf: &mut [u8]) -> Result<usize, FillError> {
        if i == 0 { Ok(0) } else { self.0.arg(i, buf) }
    }

    fn var(&self, name: &str, buf: &mut [u8]) -> Result<usize, FillError> {
        self.0.var(name, buf)
    }

    fn var_at(&self, i: usize, buf: &mut [u8]) -> Result<usize, FillError> {
        self.0.var_at(i, buf)
    }
}
