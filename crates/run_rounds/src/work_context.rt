//! What all workers of a run share.

use crate::course::{Course, RunnerPool};
use thread_calls::RunContext;

/// What all workers of a run share: what the turns go by, the pool of the runners, and the gate that a turn visits first.
#[derive(Clone, Copy)]
pub struct WorkContext<'a, C: Course, K, G> {
    pub run: RunContext<'a, K>,
    pub pool: &'a RunnerPool<C>,
    pub gate: &'a G,
}
