//! The call whose steps are made.
use core_world::{HeapCall, Unfinished};
use std::marker::Model;

/// The call whose steps an operation makes, and what each of these steps leaves unfinished.
#[derive(Clone, Copy)]
pub struct CallContext {
    pub task: HeapCall,
    /// The unfinished operation other than a check.
    pub unfinished: Option<Unfinished>,
    /// Whether a check is unfinished.
    pub check: bool,
}

impl Model for CallContext {
    ghost use Rattle.core_world.specs.Trees.Plans as plans;

    ghost Value = { plans.CallContext };

    ghost view = { λ p. record { task = p.task; unfinished = p.unfinished; check = p.check } };

    ghost inverse = { λ p. record { task = p.task; unfinished = p.unfinished; check = p.check } };
}
