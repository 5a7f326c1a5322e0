//! How the machines end that a search found, counted.

ghost use Rattle.std.specs.Prelude.{◌≡◌, ◌≤◌, ◌<◌, ◌+◌, ◌^◌, length, IfOk};
ghost use Rattle.state_search.specs.Search.{AreKeys};
ghost use Rattle.outcome_search.specs.Keys.{IsKey};
ghost use Rattle.outcome_search.specs.Outcomes.{ends_of};
ghost use Rattle.outcome_search.specs.inner.Counting.{uncounted, or_number, with_end, counted, IsBelow};

use crate::ends::End;
use crate::moves::MachineMoves;
use plain_monitor::NoMemory;
use state_search::Found;

/// How many machines a search found, and how many of them end in which way. Machines differ by the places, locals, dumps and modes of their
/// threads, by what is made, and by their objects; the fuel that is left has no part in it.
#[derive(Clone, Copy, Debug, PartialEq, Eq)]
pub struct Outcomes {
    pub states: usize,
    pub ended: usize,
    pub faulted: usize,
    pub stuck: usize,
    pub spent: usize,
    /// How many machines weren't gone into, as the limit was reached.
    pub open: usize,
    /// The number of the first machine that is stuck, from 0.
    pub first_stuck: Option<usize>,
    /// The number of the first machine whose threads have all ended, one by a fault.
    pub first_faulted: Option<usize>,
}

/// The first of both numbers.
fn or_number(first: Option<usize>, number: usize) -> Option<usize>
    ensures { result ≡ or_number first number }
{
    match first {
        Some(first) => Some(first),
        None => Some(number),
    }
}

/// Counts how the machine with this number ends.
fn add(outcomes: &mut Outcomes, number: usize, end: Option<End>)
    requires room { number + 1 < 2 ^ 64 }
    requires few { IsBelow number outcomes.old }
    ensures { outcomes.new ≡ with_end outcomes.old number end }
{
    match end {
        Some(End::Spent) => outcomes.spent += 1,
        Some(End::Stuck) => {
            outcomes.stuck += 1;
            outcomes.first_stuck = or_number(outcomes.first_stuck, number);
        }
        Some(End::Faulted) => {
            outcomes.faulted += 1;
            outcomes.first_faulted = or_number(outcomes.first_faulted, number);
        }
        Some(End::Ended) => outcomes.ended += 1,
        None => {}
    }
}

/// No end is counted yet.
fn uncounted(found: &Found) -> Outcomes
    requires { found.now.gone ≤ length found.now.keys }
    ensures { result ≡ uncounted found.now }
{
    let states = found.len();
    Outcomes {
        states,
        ended: 0,
        faulted: 0,
        stuck: 0,
        spent: 0,
        open: states - found.gone(),
        first_stuck: None,
        first_faulted: None,
    }
}

/// Counts how the machines of the keys end.
pub(crate) fn count_ends(moves: &mut MachineMoves, found: &Found) -> Result<Outcomes, NoMemory>
    requires gone { found.now.gone ≤ length found.now.keys }
    requires keys { AreKeys (IsKey moves.old.program moves.old.fuel) found.now.keys }
    ensures same { moves.new ≡ moves.old }
    ensures counted { IfOk result (λ o. o
        ≡ counted (uncounted found.now) 0 (ends_of moves.old.program moves.old.fuel found.now.keys)) }
{
    let mut outcomes = uncounted(found);
    for number in 0..found.len() {
        let Some(key) = found.key(number) else {
            unreachable!()
        };
        let end = moves.end(key)?;
        add(&mut outcomes, number, end);
    }
    Ok(outcomes)
}
