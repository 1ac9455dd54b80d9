//! What a report says was found: a lawful grouping, a best one, that none is lawful, or an open search.

ghost use Rattle.std.specs.Prelude.{IfOk};
ghost use Rattle.grouping_report.specs.Outcomes.{SameOutcome};

use county_codes::Grouping;
use std::alloc::AllocError;

/// What is reported of a problem.
#[derive(Debug, Drop)]
pub enum Outcome {
    /// The grouping is lawful.
    Lawful(Grouping),
    /// The grouping is lawful, and none is greater.
    Best(Grouping),
    /// No grouping is lawful.
    Impossible,
    /// The steps ran out. It has the best lawful grouping that was found, if there is one, and the number of steps
    /// taken.
    Open(Option<Grouping>, u64),
}

impl Outcome {
    /// Returns an equal outcome.
    ///
    /// # Errors
    ///
    /// Returns `AllocError` if memory was refused.
    pub fn copy(&self) -> Result<Outcome, AllocError>
        ensures { IfOk result (λ outcome. SameOutcome outcome self.now) }
    {
        match self {
            Outcome::Lawful(grouping) => Ok(Outcome::Lawful(grouping.copy()?)),
            Outcome::Best(grouping) => Ok(Outcome::Best(grouping.copy()?)),
            Outcome::Impossible => Ok(Outcome::Impossible),
            Outcome::Open(None, steps) => Ok(Outcome::Open(None, *steps)),
            Outcome::Open(Some(grouping), steps) => {
                Ok(Outcome::Open(Some(grouping.copy()?), *steps))
            }
        }
    }
}
