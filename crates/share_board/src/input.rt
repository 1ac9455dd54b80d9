//! What the opening of a round works from: the county graph, the round, and the budget of a branch.

use certificate_data::Round;
use connected_sets::CountyGraph;

/// What the opening of a round works from: the county graph, the round, and what each of its branches may cost.
#[derive(Drop)]
pub(crate) struct OpeningInput<'g, 'a, 'b, C> {
    /// The county graph, in the round's order.
    pub(crate) graph: &'g CountyGraph<'a, 'b, C>,
    /// The round.
    pub(crate) round: &'g Round,
    /// The steps that each branch of the opening may cost.
    pub(crate) share: u64,
}
