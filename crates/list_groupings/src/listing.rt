//! What a text says of all best groupings of a problem: the list, or why there is none.

use crate::gap::Gap;
use county_codes::Grouping;
use state_judge::CheckFault;

/// What a text says of all best groupings of a problem.
#[derive(Debug, Drop)]
pub enum Listing {
    /// The text is a certificate, and these are all best groupings, in order.
    All(Vec<Grouping>),
    /// The text is a certificate whose target is best, but it doesn't show which other groupings are. The gap is that
    /// of the first leaf where it doesn't, and the line is the leaf's, from 1.
    Open(Gap, u64),
    /// The text is a certificate without a target: no grouping is lawful.
    Impossible,
    /// The text is no certificate: its first fault, and the fault's line, from 1.
    No(CheckFault, u64),
    /// The budget is below the cost of the text.
    Budget,
}
