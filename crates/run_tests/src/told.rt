//! What a test says of a call that came to something else.
//!
//! The text is made by small functions, each of which adds its part to it: one that had all parts at once would be dear to prove.

use crate::calls::{Call, Made};
use crate::due::{Due, Held, is_to_be_stuck};
use example_programs::{BLOCKS, EXAMPLES};
use std::alloc::{AllocError, Global};

/// The name of a file of `examples/`, and its text.
pub type Named = (&'static str, &'static str);

const WITHOUT_BLOCKS: &[Named] = &EXAMPLES;

const WITH_BLOCKS: &[Named] = &BLOCKS;

/// The programs of `examples/` that have no blocks. A function that does no more than name them holds their texts, which is dear, in one
/// step alone.
pub fn programs() -> &'static [Named] {
    WITHOUT_BLOCKS
}

/// Those that have.
fn programs_with_blocks() -> &'static [Named] {
    WITH_BLOCKS
}

/// The call: its words, its program and what stands after it, and what of its reads and writes is special.
pub fn told(alloc: Global, call: &Call) -> Result<String, AllocError> {
    let mut line = String::from_str(alloc, "biasrun")?;
    add_call(alloc, &mut line, call)?;
    Ok(line)
}

/// The call, what it had to come to, and what it came to.
pub fn differing(alloc: Global, call: &Call, made: &Made, due: &Due) -> Result<String, AllocError> {
    let mut text = told(alloc, call)?;
    add_due(alloc, &mut text, due)?;
    add_made(alloc, &mut text, made)?;
    Ok(text)
}

fn add_call(alloc: Global, line: &mut String, call: &Call) -> Result<(), AllocError> {
    add_words(line, call.words)?;
    add_program(line, call.text)?;
    add_bytes(alloc, line, call.after)?;
    add_faults(alloc, line, call)
}

fn add_words(line: &mut String, words: &[&str]) -> Result<(), AllocError> {
    for word in words {
        line.push_str(" ")?;
        line.push_str(word)?;
    }
    Ok(())
}

/// The program of the call: its file, or the text, where it is none of `examples/`.
fn add_program(line: &mut String, text: &str) -> Result<(), AllocError> {
    match named_in(programs(), text).or(named_in(programs_with_blocks(), text)) {
        Some(name) => add_line(line, " < examples/", name),
        None => add_line(line, " < this program:\n", text),
    }
}

/// The name of the text in a list of programs.
fn named_in(programs: &[Named], text: &str) -> Option<&'static str> {
    let mut found = None;
    for (name, program) in programs {
        if *program == text {
            found = Some(*name);
        }
    }
    found
}

/// These two, and the end of the line.
fn add_line(line: &mut String, front: &str, back: &str) -> Result<(), AllocError> {
    line.push_str(front)?;
    line.push_str(back)?;
    line.push_str("\n")
}

/// A text that may be none.
fn add_bytes(alloc: Global, line: &mut String, bytes: &[u8]) -> Result<(), AllocError> {
    let text = String::from_utf8_lossy(alloc, bytes)?;
    line.push_str(text.as_str())
}

fn add_faults(alloc: Global, line: &mut String, call: &Call) -> Result<(), AllocError> {
    let faults = format!(in alloc;
        "(empty_lines {}, read_fails {}, write_fails {}, cut {}, room {}",
        call.empty_lines, call.read_fails, call.write_fails, call.cut, call.room
    )?;
    line.push_str(faults.as_str())?;
    add_clock(alloc, line, call.clock)
}

fn add_clock(alloc: Global, line: &mut String, clock: (u64, u64)) -> Result<(), AllocError> {
    let (from, by) = clock;
    let clock = format!(in alloc; ", clock {from} by {by})")?;
    line.push_str(clock.as_str())
}

fn add_due(alloc: Global, text: &mut String, due: &Due) -> Result<(), AllocError> {
    let is_stuck = is_to_be_stuck(due);
    let line = format!(in alloc;
        "\nexpected: status {}, record and heap {}, stuck {is_stuck}\n",
        due.status, due.has_record
    )?;
    text.push_str(line.as_str())?;
    add_held(alloc, text, &due.held)
}

/// What has to be written.
fn add_held(alloc: Global, text: &mut String, held: &Held) -> Result<(), AllocError> {
    match held {
        Held::Text(wanted) => text.push_str(wanted),
        Held::OneOf(texts) => add_one_of(alloc, text, "", texts),
        Held::Around(front, backs) => {
            text.push_str(front)?;
            add_one_of(alloc, text, "..\nand at the end ", backs)
        }
    }
}

fn add_one_of(
    alloc: Global,
    text: &mut String,
    front: &str,
    texts: &[&str],
) -> Result<(), AllocError> {
    let line = format!(in alloc; "{front}one of {texts:?}\n")?;
    text.push_str(line.as_str())
}

fn add_made(alloc: Global, text: &mut String, made: &Made) -> Result<(), AllocError> {
    let has_record = made.finish.run.is_some();
    let has_heap = made.finish.closed.is_some();
    let line = format!(in alloc;
        "\ngot: status {}, record {has_record}, heap {has_heap}, stuck {}\n",
        made.finish.status, made.is_stuck
    )?;
    text.push_str(line.as_str())?;
    add_bytes(alloc, text, made.held.as_slice())
}
