//! The solver's answer to a piece of a shared proof.

use certificate_data::Tree;
use county_codes::Grouping;
use partial_trees::PartialTree;

/// The solver's answer to a piece, which is a state of a round.
#[derive(Debug, Drop)]
pub enum PieceAnswer {
    /// A proof tree of the state: no lawful grouping that agrees with the state is greater than the target.
    Proved(Tree),
    /// A lawful grouping that agrees with the state and is greater than the target, with no group above the limit.
    Better(Grouping),
    /// A lawful grouping that agrees with the state and is greater than the target, with a group above the limit.
    Wider(Grouping),
    /// The steps ran out. If the search began a branch at the state, this has what was proved by then: a partial tree
    /// of the state, each of whose branches has an open leaf.
    Open(Option<PartialTree>),
}
