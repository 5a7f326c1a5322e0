//! A heap of two threads in one value with their passes, and the calls of either thread on it.
ghost use Rattle.std.specs.Prelude.{◌≡◌, IfOk};
ghost use Rattle.heap_table.specs.Resting.{Rests};

use crate::calls::{self, DONE, LEFT, entered, not_entered};
use crate::compare::{holds, same};
use core_world::{
    IllegalMonitorState, PendingCause, Progress, TooDeep, TooMany, TooManyDumps, Unguarded,
};
use heap_table::{Heap, Pass};
use plain_monitor::{Ending, Logged, NoMemory, Path, Value};
use std::alloc::Global;
use std::marker::Model;
use std::mem;
use std::process::Abort;

// Whether the thread logged entries with these stamps, in order. Of a log that isn't kept their number is told, and the last stamp.
fn logged(pass: &Pass, stamps: &[u64]) -> bool {
    if pass.keeps() {
        return has_stamps(pass.log(), stamps);
    }
    let last = match stamps.last() {
        Some(stamp) => *stamp,
        None => 0,
    };
    pass.log().is_empty() && pass.length() == stamps.len() as u64 && pass.last_stamp() == last
}

// Whether the entries have these stamps, in order.
fn has_stamps(log: &[Logged], stamps: &[u64]) -> bool {
    log.len() == stamps.len()
        && log
            .iter()
            .zip(stamps)
            .all(|(logged, stamp)| logged.stamp == *stamp)
}

fn boxed<T: Drop>(alloc: Global, value: T) -> Result<Box<T>, NoMemory>
    ensures { IfOk result (λ b. b.value ≡ value) }
{
    match Box::new(alloc, value) {
        Ok(boxed) => Ok(boxed),
        Err(_) => Err(NoMemory),
    }
}

/// Which of the two threads of a heap.
#[derive(Clone, Copy, PartialEq)]
pub enum Thread {
    First,
    Second,
}

impl Thread {
    fn number(self) -> u32 {
        match self {
            Thread::First => 0,
            Thread::Second => 1,
        }
    }
}

/// The heap and the passes, of which a test knows nothing: that both threads rest between two calls is the type's invariant, so a
/// call asks nothing and leaves nothing to prove.
///
/// They lie in boxes, as the proof of a function lists at each of its steps all words that it holds itself: of a pass those are 64 for
/// its holds alone.
#[derive(Drop)]
pub struct Lab {
    heap: Box<Heap>,
    // The pass of the thread that made the last call.
    own: Box<Pass>,
    other: Box<Pass>,
}

impl Model for Lab {
    ghost use Rattle.heap_table.specs.Resting.{Rests};

    ghost Value = { Unit {0} };

    ghost view = { λ l. tt };

    ghost invariant = { λ l. Rests l.heap.value l.own.value × Rests l.heap.value l.other.value };
}

impl Lab {
    fn of(alloc: Global, heap: Heap, own: Pass, other: Pass) -> Result<Lab, NoMemory>
        requires { Rests heap own × Rests heap other }
    {
        Ok(Lab {
            heap: boxed(alloc, heap)?,
            own: boxed(alloc, own)?,
            other: boxed(alloc, other)?,
        })
    }

    /// A heap of two threads and 101 objects of one class with one slot, with or without biases.
    pub fn begin(alloc: Global, biasing: bool) -> Result<Lab, NoMemory> {
        Lab::begin_with(alloc, biasing, true)
    }

    /// The same, whose passes keep their logs or not.
    pub fn begin_with(alloc: Global, biasing: bool, kept: bool) -> Result<Lab, NoMemory> {
        let (heap, own, other) = calls::begin(alloc, biasing, kept)?;
        Lab::of(alloc, heap, own, other)
    }

    /// The same with one declared object, where the first thread makes the objects from 1 on, and the second those from 1025 on.
    pub fn begin_to_make(alloc: Global, biasing: bool) -> Result<Lab, NoMemory> {
        let (heap, own, other) = calls::begin_to_make(alloc, biasing)?;
        Lab::of(alloc, heap, own, other)
    }

    /// The pass of the thread, which says what the thread knows.
    pub fn pass(&self, thread: Thread) -> &Pass {
        if self.own.thread() == thread.number() {
            &self.own
        } else {
            &self.other
        }
    }

    /// The heap, and the passes of the first thread and of the second.
    pub fn apart(self) -> (Box<Heap>, Box<Pass>, Box<Pass>)
        ensures { Rests result.0.value result.1.value × Rests result.0.value result.2.value }
    {
        let Lab { heap, own, other } = self;
        if own.thread() == 0 {
            (heap, own, other)
        } else {
            (heap, other, own)
        }
    }

    // The next call is this thread's.
    fn turn(&mut self, thread: Thread) {
        if self.own.thread() != thread.number() {
            mem::swap(&mut self.own, &mut self.other);
        }
    }

    pub fn poll(&mut self, thread: Thread) -> Option<Progress<()>> {
        self.turn(thread);
        calls::poll(&self.heap, &mut self.own)
    }

    pub fn stop(&mut self, thread: Thread) -> bool {
        self.turn(thread);
        calls::stop(&self.heap, &mut self.own)
    }

    pub fn resume(&mut self, thread: Thread) -> Option<Progress<()>> {
        self.turn(thread);
        calls::resume(&self.heap, &mut self.own)
    }

    pub fn enter(
        &mut self,
        thread: Thread,
        object: u32,
        now: u64,
    ) -> Option<Result<Progress<Path>, TooDeep>> {
        self.turn(thread);
        calls::enter(&self.heap, &mut self.own, object, now)
    }

    pub fn exit(
        &mut self,
        thread: Thread,
        object: u32,
    ) -> Option<Result<Progress<()>, IllegalMonitorState>> {
        self.turn(thread);
        calls::exit(&self.heap, &mut self.own, object)
    }

    pub fn get(
        &mut self,
        thread: Thread,
        object: u32,
        slot: u32,
    ) -> Option<Result<Value, Unguarded>> {
        self.turn(thread);
        calls::get(&self.heap, &mut self.own, object, slot)
    }

    pub fn put(
        &mut self,
        thread: Thread,
        object: u32,
        slot: u32,
        value: Value,
    ) -> Option<Result<(), Unguarded>> {
        self.turn(thread);
        calls::put(&self.heap, &mut self.own, object, slot, value)
    }

    pub fn print(&mut self, thread: Thread, value: Value) -> bool {
        self.turn(thread);
        calls::print(&self.heap, &mut self.own, value)
    }

    pub fn finish(&mut self, thread: Thread, ending: Ending) -> bool {
        self.turn(thread);
        calls::finish(&self.heap, &mut self.own, ending)
    }

    pub fn wait(
        &mut self,
        thread: Thread,
        object: u32,
        now: u64,
    ) -> Option<Result<Progress<()>, IllegalMonitorState>> {
        self.turn(thread);
        calls::wait(&self.heap, &mut self.own, object, now)
    }

    pub fn notify(
        &mut self,
        thread: Thread,
        object: u32,
        now: u64,
    ) -> Option<Result<Progress<Option<u32>>, IllegalMonitorState>> {
        self.turn(thread);
        calls::notify(&self.heap, &mut self.own, object, now)
    }

    pub fn notify_all(
        &mut self,
        thread: Thread,
        object: u32,
        now: u64,
    ) -> Option<Result<Progress<u32>, IllegalMonitorState>> {
        self.turn(thread);
        calls::notify_all(&self.heap, &mut self.own, object, now)
    }

    pub fn check_stuck(&mut self, thread: Thread) -> Option<Progress<bool>> {
        self.turn(thread);
        calls::check_stuck(&self.heap, &mut self.own)
    }

    pub fn hash(&mut self, thread: Thread, object: u32, now: u64) -> Option<Progress<u32>> {
        self.turn(thread);
        calls::hash(&self.heap, &mut self.own, object, now)
    }

    pub fn dump(&mut self, thread: Thread) -> Option<Result<Progress<u32>, TooManyDumps>> {
        self.turn(thread);
        calls::dump(&self.heap, &mut self.own)
    }

    pub fn create(&mut self, thread: Thread, class: u32) -> Option<Result<u32, TooMany>> {
        self.turn(thread);
        calls::create(&self.heap, &mut self.own, class)
    }

    // What most calls of the tests answer, and what they log: each of these ends the test where it is something else.

    /// The thread runs.
    pub fn resumes(&mut self, rt: &impl Abort, thread: Thread) {
        same(rt, self.resume(thread), DONE);
    }

    /// The thread stops.
    pub fn stops(&mut self, rt: &impl Abort, thread: Thread) {
        holds(rt, self.stop(thread));
    }

    /// The thread enters the object, by this path.
    pub fn enters(&mut self, rt: &impl Abort, thread: Thread, object: u32, now: u64, path: Path) {
        same(rt, self.enter(thread, object, now), entered(path));
    }

    /// The thread doesn't enter the object, for this cause.
    pub fn is_kept_out(
        &mut self,
        rt: &impl Abort,
        thread: Thread,
        object: u32,
        now: u64,
        why: PendingCause,
    ) {
        same(rt, self.enter(thread, object, now), not_entered(why));
    }

    /// Whether the thread entered the object so often.
    pub fn enter_times(&mut self, thread: Thread, object: u32, times: u32) -> bool {
        for _ in 0..times {
            let Some(Ok(Progress::Done(_))) = self.enter(thread, object, 1) else {
                return false;
            };
        }
        true
    }

    /// The thread leaves the object.
    pub fn leaves(&mut self, rt: &impl Abort, thread: Thread, object: u32) {
        same(rt, self.exit(thread, object), LEFT);
    }

    /// The thread logged entries with these stamps, in order. Of a log that isn't kept their number is compared, and the last stamp.
    pub fn has_logged(&self, rt: &impl Abort, thread: Thread, stamps: &[u64]) {
        holds(rt, logged(self.pass(thread), stamps));
    }
}
