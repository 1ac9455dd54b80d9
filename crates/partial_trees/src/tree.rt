//! Partial trees: branches, the groups that they take, and an open leaf or a whole tree.

use certificate_data::Tree;
use county_codes::{Codes, CountyCode};

/// Branches, and what stands behind them. Each branch stands in the case that the takes of the branches before it
/// leave.
#[derive(Debug, Drop)]
#[cycle(partial_tree)]
pub struct PartialTree {
    /// The branches, in order.
    pub branches: Vec<PartialBranch>,
    /// The tree behind them, or `None` if an open leaf stands there.
    pub rest: Option<Tree>,
}

/// The groups that a county may stand in, each with a partial tree.
#[derive(Debug, Drop)]
#[cycle(partial_tree)]
pub struct PartialBranch {
    /// The county.
    pub county: CountyCode,
    /// The greatest size of its groups in counties, in a wide round.
    pub limit: Option<u16>,
    /// Its groups.
    pub takes: Vec<PartialTake>,
}

/// A group that is taken, and the partial tree of what is left.
#[derive(Debug, Drop)]
#[cycle(partial_tree)]
pub struct PartialTake {
    /// The codes of the group.
    pub codes: Codes,
    /// The tree for the state where the group is closed.
    pub tree: PartialTree,
}
