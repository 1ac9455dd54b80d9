//! Rounds: an order, a limit, a target, a format and a tolerance.

ghost use Rattle.std.specs.Prelude.{◌≡◌, IfOk};
ghost use Rattle.certificate_data.specs.RoundValue.{round_of, target_of};

use crate::format::Format;
use county_codes::{Codes, Grouping, Tolerance};
use std::alloc::AllocError;

/// The terms of a search for groupings greater than a target, and of the tree of a certificate.
///
/// The type stands here, below the certificate text, the checker and the solver, since each of them is given a round.
/// Their contracts speak of its value, `round_of`.
#[derive(Debug, Drop)]
pub struct Round {
    /// The counties of the problem, each once; the first has place 0.
    pub order: Codes,
    /// The greatest size of a group that a branch may close, in counties.
    pub limit: u16,
    /// The grouping that is to be shown best. If there is none, it is to be shown that no grouping is lawful.
    pub target: Option<Grouping>,
    /// The format of the certificate.
    pub format: Format,
    /// The tolerance that the certificate names. A certificate that names none is for a twentieth.
    pub tolerance: Option<Tolerance>,
}

impl Round {
    /// Returns an equal round, or an error if memory was refused.
    pub fn copy(&self) -> Result<Round, AllocError>
        ensures { IfOk result (λ round. round_of round ≡ round_of self.now) }
    {
        Ok(Round {
            order: self.order.copy()?,
            limit: self.limit,
            target: copy_target(&self.target)?,
            format: self.format,
            tolerance: self.tolerance,
        })
    }
}

/// Returns a copy of `target`, or `AllocError` if memory was refused.
fn copy_target(target: &Option<Grouping>) -> Result<Option<Grouping>, AllocError>
    ensures { IfOk result (λ copy. target_of copy ≡ target_of target.now) }
{
    match target {
        Some(grouping) => Ok(Some(grouping.copy()?)),
        None => Ok(None),
    }
}
