//! What no clause says, and each trait used once through its bound.

use crate::compare::same;
use run_io::{
    BufferedSink, Clock, Failed, FreeGate, Gate, MemorySink, MemorySource, ReadSource, Sink,
    Source, StepClock, WriteSink, moment,
};
use std::alloc::Global;
use std::process::Abort;
use std::test::Fail;

fn read_once<S: Source>(source: &mut S, into: &mut [u8]) -> Result<usize, Failed> {
    source.read(into)
}

fn write_once<S: Sink>(sink: &mut S, piece: &[u8]) -> Result<usize, Failed> {
    sink.write(piece)
}

fn tell<C: Clock>(clock: &C) -> u64 {
    clock.now()
}

fn pass<G: Gate>(gate: &G) {
    gate.visit(0);
}

/// What each read answers, and the first two bytes of the buffer after it.
const READS: &[(Result<usize, Failed>, [u8; 2])] = &[
    (Ok(2), [1, 2]),
    (Err(Failed), [1, 2]),
    (Ok(2), [3, 4]),
    (Ok(1), [5, 4]),
    (Ok(0), [5, 4]),
];

/// Expects these answers, one read after the other, and these bytes.
fn expect_reads(rt: &impl Abort, source: &mut MemorySource) {
    let mut into = [0u8; 3];
    for (answer, front) in READS {
        same(rt, read_once(source, &mut into), *answer);
        same(rt, [into[0], into[1]], *front);
    }
}

#[test]
fn a_source_in_memory_gives_its_bytes_or_fails(rt: HostRuntime) -> Result<(), Fail> {
    let bytes = [1, 2, 3, 4, 5].to_vec(rt.alloc())?;
    let fails = [2].to_vec(rt.alloc())?;
    let mut source = MemorySource::new(bytes, fails, 2);
    expect_reads(&rt, &mut source);
    Ok(())
}

/// Expects that a sink with room for three bytes, whose first write fails, takes these three.
fn expect_three(rt: &impl Abort, sink: &mut MemorySink) {
    let piece = [7, 8, 9, 10];
    same(rt, write_once(sink, &piece), Err(Failed));
    same(rt, write_once(sink, &piece), Ok(2));
    same(rt, write_once(sink, &piece[2..]), Ok(1));
    same(rt, write_once(sink, &piece[3..]), Err(Failed));
    same(rt, sink.held(), [7, 8, 9].as_slice());
}

#[test]
fn a_sink_in_memory_takes_what_it_has_room_for(rt: HostRuntime) -> Result<(), Fail> {
    let fails = [1].to_vec(rt.alloc())?;
    let made = MemorySink::new(rt.alloc(), 3, fails, 2);
    let mut sink = made.ok().ok_or("memory")?;
    expect_three(&rt, &mut sink);
    Ok(())
}

/// Counts of a clock, how long one stands for, and the moment of each.
const MOMENTS: &[(u64, u32, u64)] = &[(3, 0, 1), (3, 5, 16), (u64::MAX, 2, u64::MAX)];

/// Expects those moments.
fn expect_moments(rt: &impl Abort) {
    for (count, tick, want) in MOMENTS {
        same(rt, moment(*count, *tick), *want);
    }
}

#[test]
fn a_step_clock_goes_on_by_its_step(rt: HostRuntime) {
    let clock = StepClock::new(1, 1);
    same(&rt, tell(&clock), 1);
    same(&rt, tell(&clock), 2);
    same(&rt, tell(&clock), 3);
    let clock = StepClock::new(u64::MAX, 2);
    same(&rt, tell(&clock), u64::MAX);
    same(&rt, tell(&clock), 1);
    expect_moments(&rt);
    pass(&FreeGate);
}

/// Expects that bytes of a reader come through a source.
fn expect_read(rt: &impl Abort) {
    let bytes = [1u8, 2, 3];
    let mut source = ReadSource::new(bytes.as_slice());
    let mut into = [0u8; 2];
    same(rt, read_once(&mut source, &mut into), Ok(2));
    same(rt, into, [1, 2]);
}

/// Expects that bytes go through a sink to its writer.
fn expect_written<R: Abort + AllocGlobal>(rt: &R) {
    let mut out: Vec<u8> = Vec::new(rt.alloc());
    let mut sink = WriteSink::new(&mut out);
    same(rt, write_once(&mut sink, &[4, 5]), Ok(2));
    drop(sink);
    same(rt, out.as_slice(), [4, 5].as_slice());
}

#[test]
fn bytes_pass_through_streams(rt: HostRuntime) {
    expect_read(&rt);
    expect_written(&rt);
}

/// Writes three pieces, of the last of which there is room for four bytes, and flushes twice.
fn gather<S: Sink>(rt: &impl Abort, sink: &mut BufferedSink<S>) {
    same(rt, write_once(sink, &[1, 2, 3]), Ok(3));
    same(rt, write_once(sink, &[4, 5]), Ok(2));
    same(rt, write_once(sink, &[6, 7, 8, 9, 10]), Ok(4));
    same(rt, sink.flush(), Ok(()));
    same(rt, sink.flush(), Ok(()));
}

/// Pieces that fit reach the writer by the flush alone, and one that doesn't fit goes after a flush of its own.
#[test]
fn writes_are_gathered(rt: HostRuntime) -> Result<(), Fail> {
    let mut out: Vec<u8> = Vec::new(rt.alloc());
    let made = BufferedSink::new(rt.alloc(), WriteSink::new(&mut out), 4);
    let mut sink = made.ok().ok_or("memory")?;
    gather(&rt, &mut sink);
    drop(sink);
    let wants: [u8; 9] = [1, 2, 3, 4, 5, 6, 7, 8, 9];
    same(&rt, out.as_slice(), wants.as_slice());
    Ok(())
}

/// A sink that gathers three bytes, before one with room for nine whose second write fails.
fn gathering(alloc: Global) -> Result<BufferedSink<MemorySink>, Fail> {
    let fails = [2].to_vec(alloc)?;
    let made = MemorySink::new(alloc, 9, fails, 2);
    let inner = made.ok().ok_or("memory")?;
    let made = BufferedSink::new(alloc, inner, 3);
    Ok(made.ok().ok_or("memory")?)
}

/// Writes to it until a write fails, and goes on.
fn fail_once(rt: &impl Abort, sink: &mut BufferedSink<MemorySink>) {
    same(rt, write_once(sink, &[1, 2, 3]), Ok(3));
    same(rt, write_once(sink, &[4, 5]), Err(Failed));
    same(rt, write_once(sink, &[4, 5]), Ok(2));
    same(rt, sink.flush(), Ok(()));
}

/// Where a write of the sink behind fails, so does the call that came to it, and nothing is lost or written twice.
#[test]
fn a_gathered_write_that_fails_loses_nothing(rt: HostRuntime) -> Result<(), Fail> {
    let mut sink = gathering(rt.alloc())?;
    fail_once(&rt, &mut sink);
    same(&rt, sink.into_inner().held(), [1, 2, 3, 4, 5].as_slice());
    Ok(())
}
