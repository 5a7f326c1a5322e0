//! The bias that is being revoked.
ghost use Rattle.std.specs.Prelude.{◌≡◌};
ghost use Rattle.core_world.specs.Trees.RevocationSteps.{revocation_stage};

use core_world::Stage;
use std::marker::Model;

/// A bias that is being revoked at a safepoint.
#[derive(Clone, Copy)]
pub struct Revocation {
    /// The object that is biased.
    pub object: u32,
    /// Whether a new bias is allowed.
    pub rebias: bool,
    /// The moment that the policy of bulk operations is given, in milliseconds from 1.
    pub moment: u64,
}

impl Model for Revocation {
    ghost use Rattle.core_world.specs.Threads.Stages as stages;

    ghost Value = { stages.Revocation };

    ghost view = { λ r. record { object = r.object; rebias = r.rebias; now = r.moment } };

    ghost inverse = { λ r. record { object = r.object; rebias = r.rebias; moment = r.now } };
}

impl Revocation {
    /// Where the thread stands in the middle of it.
    #[inline(always)]
    pub fn stage(&self) -> Stage
        ensures { result ≡ revocation_stage self.now }
    {
        Stage::Revokes {
            object: self.object,
            rebias: self.rebias,
            now: self.moment,
        }
    }
}
