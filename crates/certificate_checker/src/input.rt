//! What the lines of a tree are judged by: the county graph, the round, and the counts of its target.

use certificate_data::Round;
use connected_sets::CountyGraph;
use county_problem::Counts;

/// What the lines of a tree are judged by: the county graph, the round, and the counts of its target.
#[derive(Drop)]
pub struct CheckInput<'g, 'a, 'b, C> {
    /// The county graph, in the round's order.
    pub graph: &'g CountyGraph<'a, 'b, C>,
    /// The round.
    pub round: &'g Round,
    /// How many groups of each size the round's target has, if there is a target.
    pub wanted: Option<&'g Counts>,
}
