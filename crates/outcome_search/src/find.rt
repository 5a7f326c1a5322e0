//! Every way in which a program can end.

ghost use Rattle.std.specs.Prelude.{◌≡◌, ◌≤◌, ◌↔◌, true, Err, IfOk};
ghost use Rattle.std.specs.List.{list_any};
ghost use Rattle.every_outcome.specs.NoHash.{is_hash_code};
ghost use Rattle.outcome_search.specs.Keys.{IsKey};
ghost use Rattle.outcome_search.specs.NextWords.{first_key};
ghost use Rattle.outcome_search.specs.Outcomes.{has_hash, IsCountedBy, IsCounted};
ghost use Rattle.outcome_search.specs.declared.find.OutcomeError.TheVariants.{Hash};

use crate::course::{Course, MovesOf};
use crate::moves::MachineMoves;
use crate::outcome::{Outcomes, count_ends};
use object_program::{Code, Program, ThreadDef};
use plain_monitor::NoMemory;
use plain_monitor::limits::FUEL;
use state_search::{Found, search};
use std::alloc::Global;
use std::marker::{Brand, PhantomData};

/// How many entries that go alone are made at once.
pub(crate) const STEPS: u32 = 64;

/// Why the ends of a program aren't found.
#[derive(Clone, Copy, Debug, PartialEq, Eq)]
pub enum OutcomeError {
    /// Some thread has a `hash` instruction.
    Hash,
    /// Memory is wanting.
    NoMemory,
}

/// Looks for every machine that the program's entries lead to, at most `limit` of them, and counts how they end.
///
/// # Errors
///
/// `Hash` exactly where some thread has a `hash` instruction. `NoMemory` where an allocation fails: no other error
/// comes, as each machine that was kept is read back from its words.
pub fn find_outcomes(
    alloc: Global,
    program: &Program,
    limit: usize,
) -> Result<(Outcomes, Found), OutcomeError>
    requires { 1 ≤ limit }
    ensures counted { IfOk result (λ r. IsCounted program.now limit r.1 r.0) }
    ensures hash { (result ≡ Err Hash) ↔ (has_hash program.now ≡ true) }
{
    if has_hash(program.threads.items()) {
        return Err(OutcomeError::Hash);
    }
    match find_with::<Brand>(alloc, program, FUEL, STEPS, limit) {
        Ok(found) => Ok(found),
        Err(NoMemory) => Err(OutcomeError::NoMemory),
    }
}

/// Finds the ends with this fuel, and so many entries that go alone at once.
fn find_with<C: Course>(
    alloc: Global,
    program: &Program,
    fuel: u32,
    steps: u32,
    limit: usize,
) -> Result<(Outcomes, Found), NoMemory>
    requires ways { record { program = program.now; fuel = fuel; steps = steps } ≡ C.ways }
    requires fuel { 1 ≤ fuel }
    requires limit { 1 ≤ limit }
    ensures { IfOk result (λ r. IsCountedBy C.ways.program C.ways.fuel C.ways.steps limit r.1 r.0) }
{
    let (moves, first) = MachineMoves::new(alloc, program, fuel, steps)?;
    let mut moves = MovesOf::<C> {
        moves,
        of: PhantomData,
    };
    find_by(alloc, &mut moves, first, limit)
}

/// Finds the ends by these moves, from their first key on.
fn find_by<C: Course>(
    alloc: Global,
    moves: &mut MovesOf<C>,
    first: Vec<u64>,
    limit: usize,
) -> Result<(Outcomes, Found), NoMemory>
    requires first { first.items ≡ first_key C.ways.program C.ways.fuel C.ways.steps }
    requires key { IsKey C.ways.program C.ways.fuel first.items }
    requires limit { 1 ≤ limit }
    ensures { IfOk result (λ r. IsCountedBy C.ways.program C.ways.fuel C.ways.steps limit r.1 r.0) }
{
    let found = search(alloc, moves, first, limit)?;
    let outcomes = count_ends(&mut moves.moves, &found)?;
    Ok((outcomes, found))
}

/// Whether some thread has a `hash` instruction.
#[tactic(auto, using(crate::proofs::Hashes::any_thread_step))]
fn has_hash(threads: &[ThreadDef]) -> bool
    ensures { result ≡ list_any (λ d. list_any is_hash_code d.code) threads.now }
{
    for thread in threads {
        if any_hash(thread.code.items()) {
            return true;
        }
    }
    false
}

/// Whether an instruction is a `hash`.
#[tactic(auto, using(crate::proofs::Hashes::any_hash_step))]
fn any_hash(code: &[Code]) -> bool
    ensures { result ≡ list_any is_hash_code code.now }
{
    for instruction in code {
        if is_hash_code(*instruction) {
            return true;
        }
    }
    false
}

fn is_hash_code(instruction: Code) -> bool
    ensures { result ≡ is_hash_code instruction }
{
    match instruction {
        Code::Hash { .. } => true,
        _ => false,
    }
}
