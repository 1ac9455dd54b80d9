//! What a search of one round works from.

use certificate_data::Round;
use connected_sets::CountyGraph;

/// What a search works from: the county graph in the round's order, and the round.
#[derive(Drop)]
pub struct SearchInput<'g, 'a, 'b, C> {
    pub graph: &'g CountyGraph<'a, 'b, C>,
    pub round: &'g Round,
}
