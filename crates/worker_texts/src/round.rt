//! Rounds, as they are told to a worker.

use county_codes::Grouping;

/// What is told of a round.
#[derive(Debug, Drop)]
pub struct RoundTold {
    /// The number of the round.
    pub number: u32,
    /// The greatest number of counties of a group.
    pub limit: u16,
    /// The grouping that is to be shown best.
    pub target: Grouping,
}
