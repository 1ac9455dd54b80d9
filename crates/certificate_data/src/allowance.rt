//! A line of a bound leaf.

ghost use Rattle.std.specs.Prelude.{◌≡◌, IfOk};

use crate::weights::Weights;
use std::alloc::AllocError;

/// A line of a bound leaf: how many groups of one size there may still be.
#[derive(Debug, Drop)]
pub enum Allowance {
    /// As many as the room allows.
    Room,
    /// As many as the room and the weights allow.
    Weigh {
        /// The least weight of each group, 1 to 256,000,000.
        quota: u32,
        /// The weights, with strictly ascending codes.
        weights: Weights,
    },
}

impl Allowance {
    /// Returns an equal line, or an error if memory was refused.
    pub fn copy(&self) -> Result<Allowance, AllocError>
        ensures { IfOk result (λ line. line ≡ self.now) }
    {
        match self {
            Allowance::Room => Ok(Allowance::Room),
            Allowance::Weigh { quota, weights } => Ok(Allowance::Weigh {
                quota: *quota,
                weights: weights.copy()?,
            }),
        }
    }
}
