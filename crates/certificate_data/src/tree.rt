//! Trees of certificates: branches, the groups that they take, and leaves.

use crate::allowance::Allowance;
use county_codes::{Codes, CountyCode};

/// The reason why no lawful grouping that agrees with a state is greater than the target.
#[derive(Debug, Drop)]
pub enum Leaf {
    /// The connected part around the county is stuck.
    Stuck(CountyCode),
    /// The seats don't add up.
    Seats,
    /// The counts can't be greater.
    Bound(Vec<Allowance>),
}

/// Branches, and the leaf that ends them. Each branch stands in the case that the takes of the branches before it
/// leave.
#[derive(Debug, Drop)]
#[cycle(tree)]
pub struct Tree {
    /// The branches, in order.
    pub branches: Vec<Branch>,
    /// The leaf after them.
    pub leaf: Leaf,
}

/// The groups that a county may stand in, each with a tree.
#[derive(Debug, Drop)]
#[cycle(tree)]
pub struct Branch {
    /// The county.
    pub county: CountyCode,
    /// The greatest size of its groups, in a wide certificate.
    pub limit: Option<u16>,
    /// Its groups.
    pub takes: Vec<Take>,
}

/// A group that is taken, and the tree of what is left.
#[derive(Debug, Drop)]
#[cycle(tree)]
pub struct Take {
    /// The codes of the group.
    pub codes: Codes,
    /// The tree for the state where the group is closed.
    pub tree: Tree,
}
