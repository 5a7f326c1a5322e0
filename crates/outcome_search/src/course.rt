//! Moves that stay those of one program.
//!
//! What a search promises of its moves, once it is over, doesn't tell which program's they are, so a type stands for the search, and has it as a ghost member.

ghost use Rattle.std.specs.Prelude.{◌≡◌};

use crate::moves::MachineMoves;
use plain_monitor::NoMemory;
use state_search::Moves;
use std::marker::{Brand, PhantomData};

/// The ways of a search.
pub(crate) trait Course {
    ghost use Rattle.outcome_search.specs.MovesView.{Ways};

    ghost ways: { Ways };
}

impl Course for Brand {
    ghost use Rattle.outcome_search.specs.inner.Courses.{no_ways};

    ghost ways = { no_ways };
}

/// Moves whose ways are these.
#[derive(Drop)]
pub(crate) struct MovesOf<C: Course> {
    pub(crate) moves: MachineMoves,
    pub(crate) of: PhantomData<C>,
    ghost same: { moves ≡ C.ways },
}

impl<C: Course> Moves for MovesOf<C> {
    ghost use Rattle.std.specs.Prelude.{length};
    ghost use Rattle.outcome_search.specs.Keys.{IsKey};
    ghost use Rattle.outcome_search.specs.NextWords.{next_key};

    ghost is_key = { λ m words. IsKey C.ways.program C.ways.fuel words };

    ghost next = { λ m key t. next_key C.ways.program C.ways.fuel C.ways.steps key t };

    ghost choices = { λ m. length C.ways.program.threads };

    fn choices(&self) -> u32 {
        self.moves.choices()
    }

    fn next(&mut self, key: &[u64], choice: u32) -> Result<Option<Vec<u64>>, NoMemory> {
        self.moves.go(key, choice)
    }
}
