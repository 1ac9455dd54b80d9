//! The verdicts on the text of a certificate and on a tree.

use county_codes::Grouping;
use state_judge::CheckFault;

/// What is said of a text that should be a certificate.
#[derive(Debug, Drop)]
pub enum Verdict {
    /// The text is a certificate, and its target is best.
    Best(Grouping),
    /// The text is a certificate without a target: no grouping is lawful.
    Impossible,
    /// The text isn't a certificate: its first fault, and the fault's line, from 1.
    No(CheckFault, u64),
    /// The budget is below the cost of the text.
    Budget,
}

/// What is said of a tree that should be a proof.
#[derive(Clone, Copy, Debug, PartialEq, Eq)]
pub enum TreeVerdict {
    /// The tree is a proof.
    Proof,
    /// The tree isn't a proof, or no text spells it: its first fault.
    Fault(CheckFault),
    /// The budget is below the cost of the tree.
    Budget,
}
