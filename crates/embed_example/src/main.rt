//! How to use the locks from other code than `biasrun`'s: two threads meet at one object. `docs/EMBEDDING.md` walks through this file.
//!
//! The first thread enters the object and waits on it. The second one enters it, asks for its identity hash, notifies the first one and
//! leaves. Then the heap is closed, and each thread's log is written. What a call of `lock_runtime` asks of its caller is its `requires`;
//! the comments say how it is met here.
#![tactic(auto)]

ghost use Rattle.std.specs.Prelude.{◌≡◌, ◌⊎◌, ℕ, ◌<◌, [], ◌∷◌, true, IfOk, IfErr, OnOk, OnErr};
ghost use Rattle.core_world.specs.declared.heap_call.Operation.{Operation};
ghost use Rattle.core_world.specs.declared.heap_call.Operation.TheVariants as op;
ghost use Rattle.core_world.specs.Threads.References.{has_reference};
ghost use Rattle.core_world.specs.Words.Forms.{waits_on};
ghost use Rattle.embed_example.specs.declared.Act.TheVariants as act;
ghost use Rattle.embed_example.specs.declared.Stop.TheVariants as stop;
ghost use Rattle.heap_table.specs.Resting.{Rests};
ghost use Rattle.lock_runtime.specs.Standing.{IsRunning, IsStopped};
ghost use Rattle.plain_history.specs.ExactStamps.{StampsAreExact};
ghost use Rattle.plain_monitor.specs.History.{LegalObjects};
ghost use Rattle.plain_monitor.specs.declared.entry.Entry.TheVariants as entry;
ghost use Rattle.embed_example.specs.Acts.{op_of, Tried, HasAdded, HasMade, IsGivenUp, IsNoEnd};
ghost use Rattle.embed_example.specs.Between.{AreInOrder, IsNew, IsFree, IsOver, MayTry, IsBeside};

use core_world::{PendingCause, Progress};
use heap_table::{Closed, Heap, HeapShape, Pass, close, wait_of_word};
use lawful_heap::new_heap;
use lock_runtime as runtime;
use mark_word::WaitForm;
use plain_monitor::{Ending, List, Logged};
use std::alloc::Global;
use std::io;
use std::sync::Wait;
use std::thread::{Threads, join};

/// The one object, of the one class, without slots.
const DOOR: u32 = 0;
/// The heap is made for threads that execute so many instructions: a log has room for two entries for each, and some more.
const FUEL: u32 = 10;
/// The moment of each call, by which the policy of biases goes. Here time stands still.
const NOW: u64 = 1;

/// What a thread does to an object.
#[derive(Clone, Copy, Debug, PartialEq, Eq)]
pub enum Act {
    Enter,
    Wait,
    Notify,
    Hash,
    Exit,
}

/// Why the example comes to no end.
#[derive(Clone, Copy, Debug, PartialEq, Eq)]
pub enum Stop {
    /// There is no memory for the heap.
    NoMemory,
    /// The thread's log has no room for what the call may log.
    LogIsFull,
    /// The thread has 64 holds.
    TooDeep,
    /// The thread isn't the object's owner.
    IllegalMonitorState,
    /// Some thread found that the run is stuck.
    Halted,
    /// The thread still holds an object at its end.
    Held,
    /// The passes don't stand in the order of their threads.
    Order,
}

/// A heap of two threads and one object, with biases, and its passes. Nothing takes memory after this.
pub fn new_door(alloc: Global) -> Result<(Heap, Pass, Pass), Stop>
    ensures door { IfOk result (λ r. DOOR < r.0.heap.shape.declared) }
    ensures new { IfOk result (λ r. IsNew r.0 FUEL 0 r.1 × IsNew r.0 FUEL 1 r.2) }
    ensures memory { IfErr result (λ e. e ≡ stop.NoMemory) }
{
    let Ok(shape) = HeapShape::of(alloc, 2, &[0], &[0], 1) else {
        return Err(Stop::NoMemory);
    };
    let Ok((heap, passes)) = new_heap(alloc, shape, FUEL, 1, true) else {
        return Err(Stop::NoMemory);
    };
    let mut passes = passes.into_vec();
    let (Some(second), Some(first)) = (passes.pop(), passes.pop()) else {
        return Err(Stop::NoMemory);
    };
    Ok((heap, first, second))
}

/// Sets the thread running. A resume asks for a thread that is stopped and whose last call is over, and is made again where another
/// thread has a safepoint, or changed the word meanwhile.
pub fn set_running<R: Wait>(rt: &R, heap: &Heap, pass: &mut Pass) -> Result<(), Stop>
    requires rests { Rests heap.now pass.old }
    requires stopped { IsStopped pass.old.known }
    ensures beside { IsBeside heap.now pass.old pass.new }
    ensures running { OnOk result (IsRunning pass.new.known) }
    ensures stopped { OnErr result (IsStopped pass.new.known) }
    ensures halted { IfErr result (λ e. e ≡ stop.Halted) }
{
    for _ in rt.forever() {
        match runtime::resume(heap, pass) {
            Progress::Done(()) => return Ok(()),
            Progress::Pending(PendingCause::Halted) => return Err(Stop::Halted),
            Progress::Pending(_) => {}
        }
    }
    unreachable!()
}

/// Between two tries of a call: where another thread asks for a safepoint, this one stops until that is over. A poll asks for a thread that
/// runs. One that doesn't run has asked for a safepoint itself, and goes on with its call.
pub fn give_way<R: Wait>(rt: &R, heap: &Heap, pass: &mut Pass) -> Result<(), Stop>
    requires { Rests heap.now pass.old }
    ensures may { OnOk result ((w : Operation) (o : ℕ) → MayTry w o heap.now pass.old → MayTry w o heap.now pass.new) }
    ensures beside { IsBeside heap.now pass.old pass.new }
    ensures halted { IfErr result (λ e. e ≡ stop.Halted) }
{
    if !pass.running() {
        return Ok(());
    }
    if let Progress::Done(()) = runtime::poll(heap, pass) {
        return Ok(());
    }
    runtime::stop(heap, pass);
    set_running(rt, heap, pass)?;
    Ok(())
}

/// An enter logs one entry.
pub fn enter(heap: &Heap, pass: &mut Pass, object: u32) -> Result<Progress<()>, Stop>
    requires object { has_reference heap.now.heap.shape pass.old.known object ≡ true }
    requires may { MayTry op.Enter object heap.now pass.old }
    ensures { Tried act.Enter object heap.now pass.old pass.new result }
{
    if pass.room() < 1 {
        return Err(Stop::LogIsFull);
    }
    match runtime::enter(heap, pass, object, NOW) {
        Ok(Progress::Done(_)) => Ok(Progress::Done(())),
        Ok(Progress::Pending(why)) => Ok(Progress::Pending(why)),
        Err(_) => Err(Stop::TooDeep),
    }
}

/// So does an exit.
pub fn exit(heap: &Heap, pass: &mut Pass, object: u32) -> Result<Progress<()>, Stop>
    requires object { has_reference heap.now.heap.shape pass.old.known object ≡ true }
    requires may { MayTry op.Exit object heap.now pass.old }
    ensures { Tried act.Exit object heap.now pass.old pass.new result }
{
    if pass.room() < 1 {
        return Err(Stop::LogIsFull);
    }
    match runtime::exit(heap, pass, object) {
        Ok(Progress::Done(())) => Ok(Progress::Done(())),
        Ok(Progress::Pending(why)) => Ok(Progress::Pending(why)),
        Err(_) => Err(Stop::IllegalMonitorState),
    }
}

// Whether this waiting word says that its thread waits on the object.
fn waits_on(word: u64, object: u32) -> bool
    ensures { result ≡ waits_on word object }
{
    match wait_of_word(word) {
        Some(form) => match form {
            WaitForm::Waiting { object: on, .. } => on == object,
            _ => false,
        },
        None => false,
    }
}

/// A wait that begins asks for room for two entries, since it may end without having to be made again; one that has let go, for one.
pub fn wait(heap: &Heap, pass: &mut Pass, object: u32) -> Result<Progress<()>, Stop>
    requires object { has_reference heap.now.heap.shape pass.old.known object ≡ true }
    requires may { MayTry op.Wait object heap.now pass.old }
    ensures { Tried act.Wait object heap.now pass.old pass.new result }
{
    let most = if waits_on(pass.wait_word(), object) {
        1
    } else {
        2
    };
    if pass.room() < most {
        return Err(Stop::LogIsFull);
    }
    match runtime::wait(heap, pass, object, NOW) {
        Ok(Progress::Done(())) => Ok(Progress::Done(())),
        Ok(Progress::Pending(why)) => Ok(Progress::Pending(why)),
        Err(_) => Err(Stop::IllegalMonitorState),
    }
}

/// A notify answers whom it woke, which its entry says, too.
pub fn notify(heap: &Heap, pass: &mut Pass, object: u32) -> Result<Progress<()>, Stop>
    requires object { has_reference heap.now.heap.shape pass.old.known object ≡ true }
    requires may { MayTry op.Notify object heap.now pass.old }
    ensures { Tried act.Notify object heap.now pass.old pass.new result }
{
    if pass.room() < 1 {
        return Err(Stop::LogIsFull);
    }
    match runtime::notify(heap, pass, object, NOW) {
        Ok(Progress::Done(_)) => Ok(Progress::Done(())),
        Ok(Progress::Pending(why)) => Ok(Progress::Pending(why)),
        Err(_) => Err(Stop::IllegalMonitorState),
    }
}

/// A hash is refused nobody.
pub fn hash(heap: &Heap, pass: &mut Pass, object: u32) -> Result<Progress<()>, Stop>
    requires object { has_reference heap.now.heap.shape pass.old.known object ≡ true }
    requires may { MayTry op.Hash object heap.now pass.old }
    ensures { Tried act.Hash object heap.now pass.old pass.new result }
{
    if pass.room() < 1 {
        return Err(Stop::LogIsFull);
    }
    match runtime::hash(heap, pass, object, NOW) {
        Progress::Done(_) => Ok(Progress::Done(())),
        Progress::Pending(why) => Ok(Progress::Pending(why)),
    }
}

/// One try.
pub fn try_once(heap: &Heap, pass: &mut Pass, act: Act, object: u32) -> Result<Progress<()>, Stop>
    requires object { has_reference heap.now.heap.shape pass.old.known object ≡ true }
    requires may { MayTry (op_of act) object heap.now pass.old }
    ensures { Tried act object heap.now pass.old pass.new result }
{
    match act {
        Act::Enter => enter(heap, pass, object),
        Act::Wait => wait(heap, pass, object),
        Act::Notify => notify(heap, pass, object),
        Act::Hash => hash(heap, pass, object),
        Act::Exit => exit(heap, pass, object),
    }
}

/// Tries until it is done. A call that is pending has done nothing yet, but for a wait that let go, and is made again by its own thread with
/// the same object: nobody does that for it. Meanwhile the thread begins nothing else.
pub fn make<R: Wait>(
    rt: &R,
    heap: &Heap,
    pass: &mut Pass,
    act: Act,
    object: u32,
) -> Result<(), Stop>
    requires object { object < heap.now.heap.shape.declared }
    requires may { MayTry (op_of act) object heap.now pass.old }
    ensures made { OnOk result (HasMade act object heap.now pass.old pass.new) }
    ensures refused { IfErr result (IsGivenUp act object heap.now pass.old pass.new) }
{
    for _ in rt.forever() {
        match try_once(heap, pass, act, object)? {
            Progress::Done(()) => return Ok(()),
            Progress::Pending(_) => give_way(rt, heap, pass)?,
        }
    }
    unreachable!()
}

/// Ends the thread. A finish asks that nothing is held; then the thread stops, since only passes of stopped threads close a heap.
pub fn end(heap: &Heap, pass: &mut Pass) -> Result<(), Stop>
    requires { IsFree heap.now pass.old }
    ensures ended { OnOk result (IsOver heap.now pass.new) }
    ensures logged { OnOk result (HasAdded (λ es. es ≡ entry.Done ∷ []) pass.old pass.new) }
    ensures refused { IfErr result (λ e. (pass.new ≡ pass.old) × IsNoEnd pass.old e) }
{
    if pass.holds() != 0 {
        return Err(Stop::Held);
    }
    if pass.room() < 1 {
        return Err(Stop::LogIsFull);
    }
    runtime::finish(heap, pass, Ending::Done);
    runtime::stop(heap, pass);
    Ok(())
}

/// The first thread up to where it waits. It is the only one that runs so far, so the one try lets go of the object, and is pending for a
/// notify. The thread runs on, and its wait is unfinished.
pub fn begin_to_wait<R: Wait>(rt: &R, heap: &Heap, pass: &mut Pass) -> Result<(), Stop>
    requires door { DOOR < heap.now.heap.shape.declared }
    requires new { IsNew heap.now FUEL 0 pass.old }
    ensures { OnOk result (MayTry op.Wait DOOR heap.now pass.new) }
{
    set_running(rt, heap, pass)?;
    make(rt, heap, pass, Act::Enter, DOOR)?;
    try_once(heap, pass, Act::Wait, DOOR)?;
    Ok(())
}

/// The rest of it.
pub fn go_on<R: Wait>(rt: &R, heap: &Heap, pass: &mut Pass) -> Result<(), Stop>
    requires door { DOOR < heap.now.heap.shape.declared }
    requires waits { MayTry op.Wait DOOR heap.now pass.old }
    ensures { OnOk result (IsOver heap.now pass.new) }
{
    make(rt, heap, pass, Act::Wait, DOOR)?;
    make(rt, heap, pass, Act::Exit, DOOR)?;
    end(heap, pass)
}

/// The first thread's part beside the second one, for which its pass is moved into a thread of the system.
pub fn wait_on<R: Wait>(rt: &R, heap: &Heap, mut pass: Pass) -> Result<Pass, Stop>
    requires door { DOOR < heap.now.heap.shape.declared }
    requires waits { MayTry op.Wait DOOR heap.now pass }
    ensures { IfOk result (IsOver heap.now) }
{
    go_on(rt, heap, &mut pass)?;
    Ok(pass)
}

/// The whole of the second thread.
pub fn visit<R: Wait>(rt: &R, heap: &Heap, pass: &mut Pass) -> Result<(), Stop>
    requires door { DOOR < heap.now.heap.shape.declared }
    requires new { IsNew heap.now FUEL 1 pass.old }
    ensures { OnOk result (IsOver heap.now pass.new) }
{
    set_running(rt, heap, pass)?;
    make(rt, heap, pass, Act::Enter, DOOR)?;
    make(rt, heap, pass, Act::Hash, DOOR)?;
    make(rt, heap, pass, Act::Notify, DOOR)?;
    make(rt, heap, pass, Act::Exit, DOOR)?;
    end(heap, pass)
}

/// The same, with a pass that is moved into a thread of the system.
pub fn knock<R: Wait>(rt: &R, heap: &Heap, mut pass: Pass) -> Result<Pass, Stop>
    requires door { DOOR < heap.now.heap.shape.declared }
    requires new { IsNew heap.now FUEL 1 pass }
    ensures { IfOk result (IsOver heap.now) }
{
    visit(rt, heap, &mut pass)?;
    Ok(pass)
}

// Whether these are the passes of a heap of two threads, in the order of their threads.
fn in_order(heap: &Heap, first: &Pass, second: &Pass) -> bool
    ensures all { result ≡ true → AreInOrder heap.now first.now second.now }
    ensures only { AreInOrder heap.now first.now second.now → result ≡ true }
{
    heap.shape().threads() == 2 && first.thread() == 0 && second.thread() == 1
}

// The passes, in the order of their threads.
fn listed(alloc: Global, first: Pass, second: Pass) -> Result<List<Pass>, Stop>
    ensures passes { IfOk result (λ passes. passes ≡ first ∷ second ∷ []) }
    ensures memory { IfErr result (λ e. e ≡ stop.NoMemory) }
{
    let Ok(mut passes) = Vec::with_capacity(alloc, 2) else {
        return Err(Stop::NoMemory);
    };
    passes.push_reserved(first);
    passes.push_reserved(second);
    Ok(List::of(passes))
}

/// Closes the heap. That asks for all of its passes, in the order of their threads, each stopped and without a request. No page of a log was
/// handed out, so what is left are the whole logs.
pub fn close_door(alloc: Global, heap: Heap, first: Pass, second: Pass) -> Result<Closed, Stop>
    requires first { IsOver heap first }
    requires second { IsOver heap second }
    ensures legal { IfOk result (λ c. LegalObjects c.heap.shape.objects c.logs) }
    ensures stamps { IfOk result (λ c. StampsAreExact c.logs) }
    ensures refused { IfErr result (λ e. (e ≡ stop.NoMemory) ⊎ ((e ≡ stop.Order) × (AreInOrder heap first second → ⊥))) }
{
    if !in_order(&heap, &first, &second) {
        return Err(Stop::Order);
    }
    let passes = listed(alloc, first, second)?;
    Ok(close(heap, passes))
}

/// Both threads, and what is left of their heap. The logs are legal, and their stamps exact.
pub fn meet<R: Threads + Wait + Sync + AllocGlobal>(rt: &R) -> Result<Closed, Stop>
    ensures legal { IfOk result (λ c. LegalObjects c.heap.shape.objects c.logs) }
    ensures stamps { IfOk result (λ c. StampsAreExact c.logs) }
{
    let (heap, mut first, second) = new_door(rt.alloc())?;
    begin_to_wait(rt, &heap, &mut first)?;
    let (first, second) = join(
        rt,
        || -> Result<Pass, Stop> { wait_on(rt, &heap, first) },
        || -> Result<Pass, Stop> { knock(rt, &heap, second) },
    );
    close_door(rt.alloc(), heap, first?, second?)
}

fn show(rt: &impl Print, thread: usize, log: &[Logged]) -> io::Result<()> {
    println!(rt; "thread {thread}")?;
    for logged in log {
        println!(rt; "@{} {:?}", logged.stamp, logged.entry)?;
    }
    Ok(())
}

// The threads' logs, in the order of the threads.
fn show_all(rt: &impl Print, logs: &[List<Logged>]) -> io::Result<()> {
    for (thread, log) in logs.iter().enumerate() {
        show(rt, thread, log.items())?;
    }
    Ok(())
}

fn main(rt: HostRuntime) -> io::Result<()> {
    match meet(&rt) {
        Err(stop) => println!(rt; "{stop:?}"),
        Ok(closed) => show_all(&rt, closed.logs().items()),
    }
}
