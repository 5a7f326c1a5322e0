//! What a revocation answers.
use lock_policy::Verdict;
use std::marker::Model;

/// What the revocation of a bias came to.
#[derive(Clone, Copy)]
pub struct Outcome {
    /// What was done about the object's class.
    pub verdict: Verdict,
    /// Whether the thread gave itself a new bias to the object.
    pub took: bool,
}

impl Model for Outcome {
    ghost use Rattle.core_world.specs.Trees.RevocationSteps as revocations;

    ghost Value = { revocations.RevocationOutcome };

    ghost view = { λ o. record { verdict = o.verdict; took = o.took } };

    ghost inverse = { λ o. record { verdict = o.verdict; took = o.took } };
}
