//! What a growth of connected sets looks at, and where it stands.

use crate::county_graph::CountyGraph;

/// What a growth looks at: the county graph, and the greatest number of places that a set may have.
#[derive(Drop)]
pub struct GrowthInput<'g, 'a, 'b, C> {
    /// The county graph.
    pub graph: &'g CountyGraph<'a, 'b, C>,
    /// The greatest number of places that a set may have.
    pub limit: u16,
}

/// The last move of a growth. The test of a growth may look at what the move changed alone, and rests on nothing that
/// the move says.
#[derive(Clone, Copy, Debug, PartialEq, Eq)]
pub enum Move {
    /// The place joined the set.
    Joined(u16),
    /// The place is no longer free.
    LeftOut(u16),
}

/// Where a growth stands.
#[derive(Drop)]
pub struct Growth<C> {
    /// The set.
    pub set: C,
    /// The people of the set.
    pub people: u64,
    /// The free places that are adjacent to the set.
    pub front: C,
    /// The places that may still join the set.
    pub free: C,
    /// The move by which the growth came here. At first that is the one by which the first place joined.
    pub last: Move,
}
