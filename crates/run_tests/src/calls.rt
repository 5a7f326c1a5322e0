//! Calls from words and a text in memory to what a sink in memory holds.

ghost use Rattle.std.specs.Prelude.{◌≡◌, IfOk};

use bias_cli::{Finish, biasrun, records_can_be_replayed, replay};
use run_io::{FreeGate, Gate, MemorySink, MemorySource, StepClock};
use std::alloc::{AllocError, Global};
use std::process::Abort;
use std::sync::Wait;
use std::test::Fail;
use std::thread::Threads;

/// What a call is made with: the words after the program's name, the text and what stands after it, then how many empty lines, the
/// read and the write that fail, by number from 1 or 0 for none, the most bytes that a read gives and a write takes, for how many the sink has
/// room, and from what number the clock counts, and by which steps.
#[derive(Clone, Copy)]
pub struct Call<'a> {
    pub words: &'a [&'a str],
    pub text: &'a str,
    pub after: &'a [u8],
    pub empty_lines: u32,
    pub read_fails: u32,
    pub write_fails: u32,
    pub cut: u32,
    pub room: u32,
    pub clock: (u64, u64),
}

/// What is the same in most calls: no read and no write fails, and the sink has room for all that is written.
const CALL: Call = Call {
    words: &[],
    text: "",
    after: b"",
    empty_lines: 0,
    read_fails: 0,
    write_fails: 0,
    cut: 1000,
    room: 1_000_000,
    clock: (1, 1),
};

/// A run of the text with these words, in which no read and no write fails.
pub fn calling<'a>(words: &'a [&'a str], text: &'a str) -> Call<'a> {
    Call {
        words,
        text,
        ..CALL
    }
}

/// The call with this after its text.
pub fn followed_by<'a>(call: &Call<'a>, after: &'a [u8]) -> Call<'a> {
    Call { after, ..*call }
}

/// The call in which this read and this write fail.
pub fn failing<'a>(call: &Call<'a>, read_fails: u32, write_fails: u32) -> Call<'a> {
    Call {
        read_fails,
        write_fails,
        ..*call
    }
}

/// What became of a call: what it answered, whether the machine under its record is stuck, and what the sink holds then.
#[derive(Drop)]
pub struct Made {
    pub finish: Box<Finish>,
    pub is_stuck: bool,
    pub held: Vec<u8>,
}

/// Makes the call, by a gate that is always open.
pub fn make<R: Threads + Wait + Abort + AllocGlobal + Sync>(
    rt: &R,
    call: &Call,
) -> Result<Made, Fail> {
    make_by(rt, call, &FreeGate)
}

/// The arguments of the program, whose name comes first.
fn words_of(alloc: Global, words: &[&str]) -> Result<Vec<String>, AllocError> {
    let mut all = Vec::new(alloc);
    add_word(alloc, &mut all, "biasrun")?;
    for word in words {
        add_word(alloc, &mut all, word)?;
    }
    Ok(all)
}

fn add_word(alloc: Global, all: &mut Vec<String>, word: &str) -> Result<(), AllocError> {
    all.push(String::from_str(alloc, word)?)?;
    Ok(())
}

/// The call's text, with all that stands after it.
fn text_of(alloc: Global, call: &Call) -> Result<Vec<u8>, AllocError> {
    let mut text = Vec::from_slice(alloc, call.text.as_bytes())?;
    text.extend_from_slice(call.after)?;
    for _ in 0..call.empty_lines {
        text.push(b'\n')?;
    }
    Ok(text)
}

/// The source that the call reads.
fn source_of(alloc: Global, call: &Call) -> Result<Box<MemorySource>, AllocError> {
    let fails = vec![in alloc; call.read_fails]?;
    let text = text_of(alloc, call)?;
    boxed(alloc, MemorySource::new(text, fails, call.cut.max(1)))
}

/// The sink that the call writes to.
fn sink_of(alloc: Global, call: &Call) -> Result<Box<MemorySink>, AllocError> {
    let fails = vec![in alloc; call.write_fails]?;
    match MemorySink::new(alloc, call.room as usize, fails, call.cut.max(1)) {
        Ok(sink) => boxed(alloc, sink),
        Err(_) => Err(AllocError),
    }
}

/// The value in a box. One with many words that stands by itself is dear: the proof of a function goes over all of them at each step.
fn boxed<T: Drop>(alloc: Global, value: T) -> Result<Box<T>, AllocError>
    ensures { IfOk result (λ b. b.value ≡ value) }
{
    match Box::new(alloc, value) {
        Ok(value) => Ok(value),
        Err(_) => Err(AllocError),
    }
}

/// Makes the call by this gate.
pub fn make_by<R: Threads + Wait + Abort + AllocGlobal + Sync, G: Gate + Sync>(
    rt: &R,
    call: &Call,
    gate: &G,
) -> Result<Made, Fail> {
    let words = words_of(rt.alloc(), call.words)?;
    let mut source = source_of(rt.alloc(), call)?;
    let mut sink = sink_of(rt.alloc(), call)?;
    let clock = StepClock::new(call.clock.0, call.clock.1);
    run(rt, words.as_slice(), &mut source, &mut sink, &clock, gate)
}

/// Calls `biasrun`, replays the record, and takes what the sink holds.
fn run<R: Threads + Wait + AllocGlobal + Sync, G: Gate + Sync>(
    rt: &R,
    words: &[String],
    source: &mut MemorySource,
    sink: &mut MemorySink,
    clock: &StepClock,
    gate: &G,
) -> Result<Made, Fail> {
    let (finish, is_stuck) = answered(rt, words, source, sink, clock, gate)?;
    let held = Vec::from_slice(rt.alloc(), sink.held())?;
    Ok(Made {
        finish,
        is_stuck,
        held,
    })
}

/// What `biasrun` answers, and whether the machine under the record is stuck.
fn answered<R: Threads + Wait + AllocGlobal + Sync, G: Gate + Sync>(
    rt: &R,
    words: &[String],
    source: &mut MemorySource,
    sink: &mut MemorySink,
    clock: &StepClock,
    gate: &G,
) -> Result<(Box<Finish>, bool), AllocError> {
    let finish = biasrun(rt, rt.alloc(), words, source, sink, clock, gate);
    let finish = boxed(rt.alloc(), finish)?;
    records_can_be_replayed();
    let is_stuck = match &finish.run {
        Some(run) => match replay(rt.alloc(), run) {
            Ok(machine) => machine.is_stuck(),
            Err(_) => return Err(AllocError),
        },
        None => false,
    };
    Ok((finish, is_stuck))
}
