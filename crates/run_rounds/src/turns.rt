//! What a worker does with the runner that it has taken from the pool.

ghost use Rattle.std.specs.Prelude.{◌≡◌, ◌≤◌, ◌<◌, ◌∷◌, [], ℕ, None, Some, true, false};
ghost use Rattle.thread_calls.specs.Between.{IsHeapOf};
ghost use Rattle.thread_calls.specs.Timed.{StaysTimed};
ghost use Rattle.thread_frame.specs.Frames.{has_ended};
ghost use Rattle.thread_interp.specs.Runners.{RunnerSeen, IsRunner, IsSame};
ghost use Rattle.turn_pool.specs.declared.word.Word.TheVariants.{Ready};
ghost use Rattle.turn_pool.specs.Pool.{seat_view};
ghost use Rattle.run_rounds.specs.inner.Slots.{IsCourse, MayLie, StandsUnder};
ghost use Rattle.run_rounds.specs.inner.Turns.{HasGoneOn};

use crate::course::{Course, RunnerSeat};
use crate::work_context::WorkContext;
use core_world::{PendingCause, Progress};
use run_io::{Clock, Gate};
use std::sync::Wait;
use thread_calls::RunContext;
use thread_interp::{RunState, Runner};
use turn_pool::Word;

/// What came of a turn, for those that wait for one another.
#[derive(Clone, Copy, Debug, PartialEq, Eq)]
pub enum Outcome {
    /// It did something for which others may have waited: an instruction, or the exits and the end of a thread that unwinds, which are none.
    Moved,
    /// It did nothing, since another thread was faster. A further one needn't wait for anything.
    Raced,
    /// It did nothing, and a further one does nothing until another thread does something.
    Stalled,
}

// A turn of the runner, unless its thread has ended.
fn turn_unless_ended<K: Clock, G: Gate>(
    run: &RunContext<K>,
    gate: &G,
    runner: &mut Runner,
) -> Outcome
    requires heap { IsHeapOf run.now.heap.now run.now.program.now }
    requires runner { IsRunner run.now.heap.now run.now.program.now runner.old }
    requires unchecked { runner.old.pass.known.checking ≡ false }
    requires quantum { 1 ≤ run.now.quantum }
    ensures gone { HasGoneOn run.now.heap.now run.now.program.now run.now.tick runner.old runner.new }
{
    if runner.has_ended() {
        return Outcome::Stalled;
    }
    let turn = runner.turn(run, gate);
    if turn.instructions > 0 || runner.has_ended() {
        return Outcome::Moved;
    }
    match turn.state {
        RunState::Blocked(PendingCause::Raced { .. }) => Outcome::Raced,
        _ => Outcome::Stalled,
    }
}

// Under which word a runner goes back after a turn.
fn word_after_turn(runner: &Runner) -> Word
    ensures { StandsUnder result runner.now }
{
    if runner.has_ended() {
        return Word::Ended;
    }
    Word::Ready
}

/// Gives the runner of this place a turn of at most `quantum` instructions, and puts it back into the pool. `tick` is
/// in milliseconds.
pub fn give_turn<C: Course, K: Clock, G: Gate>(
    work: &WorkContext<C, K, G>,
    mine: &mut RunnerSeat,
    place: u32,
) -> Outcome
    requires course { let run = work.now.run in
        IsCourse C.heap C.program C.fuel C.tick run.heap.now run.program.now run.fuel run.tick }
    requires heap { IsHeapOf work.now.run.heap.now work.now.run.program.now }
    requires quantum { 1 ≤ work.now.run.quantum }
    requires table { mine.old.table_id ≡ work.now.pool.now.slots.shared.table_id }
    requires place { place < work.now.pool.now.slots.shared.table_id.slots }
    requires held { (r : RunnerSeen) × MayLie C.heap C.program C.fuel C.tick Ready place r
        × (mine.old.me ≡ (seat_view 1 (Some place) false, (place, r) ∷ [])) }
    ensures table { mine.new.table_id ≡ mine.old.table_id }
    ensures free { mine.new.me ≡ (seat_view 1 None false, []) }
{
    let runner = mine.slot_mut(&work.pool.slots.shared, place as usize);
    let outcome = turn_unless_ended(&work.run, work.gate, runner);
    let word = word_after_turn(runner);
    work.pool.give(mine, place, word);
    outcome
}

// Whether the run is stuck, by a check of this runner. One that other threads have to stop for is made again.
fn check<R: Wait, K>(rt: &R, run: &RunContext<K>, runner: &mut Runner) -> bool
    requires program { IsHeapOf run.now.heap.now run.now.program.now }
    requires runner { IsRunner run.now.heap.now run.now.program.now runner.old }
    requires free { (runner.old.pass.known.requesting ≡ false) × (runner.old.pass.known.checking ≡ false) }
    requires live { has_ended runner.old.frame ≡ false }
    ensures runner { IsRunner run.now.heap.now run.now.program.now runner.new }
    ensures unchecked { runner.new.pass.known.checking ≡ false }
    ensures same { IsSame runner.old runner.new }
    ensures halted { result ≡ true → runner.new.pass.known.halted ≡ true }
    ensures timed { (tick : ℕ) → StaysTimed tick runner.old.pass runner.new.pass }
{
    for _ in rt.forever() {
        if let Progress::Done(stuck) = runner.check(run) {
            return stuck;
        }
        if !runner.checking() {
            return false;
        }
    }
    unreachable!()
}

// Makes a check with this runner where it can: its thread hasn't ended, and asks for no safepoint. Whether the run is stuck.
fn check_where_free<R: Wait, K>(rt: &R, run: &RunContext<K>, runner: &mut Runner) -> bool
    requires heap { IsHeapOf run.now.heap.now run.now.program.now }
    requires runner { IsRunner run.now.heap.now run.now.program.now runner.old }
    requires unchecked { runner.old.pass.known.checking ≡ false }
    ensures gone { (tick : ℕ) → HasGoneOn run.now.heap.now run.now.program.now tick runner.old runner.new }
    ensures halted { result ≡ true → runner.new.pass.known.halted ≡ true }
{
    if runner.has_ended() || runner.requesting() {
        return false;
    }
    check(rt, run, runner)
}

// Under which word a runner goes back after a check.
fn word_after_check(runner: &Runner, stuck: bool) -> Word
    requires { stuck ≡ true → runner.now.pass.known.halted ≡ true }
    ensures { StandsUnder result runner.now }
{
    if stuck {
        return Word::Stopped;
    }
    Word::Ready
}

/// Makes a check with the runner of this place, and puts it back into the pool. It answers whether the run was
/// halted.
pub fn give_check<C: Course, R: Wait, K, G>(
    rt: &R,
    work: &WorkContext<C, K, G>,
    mine: &mut RunnerSeat,
    place: u32,
) -> bool
    requires course { let run = work.now.run in
        IsCourse C.heap C.program C.fuel C.tick run.heap.now run.program.now run.fuel run.tick }
    requires heap { IsHeapOf work.now.run.heap.now work.now.run.program.now }
    requires table { mine.old.table_id ≡ work.now.pool.now.slots.shared.table_id }
    requires place { place < work.now.pool.now.slots.shared.table_id.slots }
    requires held { (r : RunnerSeen) × MayLie C.heap C.program C.fuel C.tick Ready place r
        × (mine.old.me ≡ (seat_view 1 (Some place) false, (place, r) ∷ [])) }
    ensures table { mine.new.table_id ≡ mine.old.table_id }
    ensures free { mine.new.me ≡ (seat_view 1 None false, []) }
{
    let runner = mine.slot_mut(&work.pool.slots.shared, place as usize);
    let stuck = check_where_free(rt, &work.run, runner);
    let word = word_after_check(runner, stuck);
    work.pool.give(mine, place, word);
    stuck
}
