//! The county graph: the counties of a problem by the places of an order, each with the places adjacent to it.

ghost use Rattle.std.specs.Prelude.{◌≡◌, ◌≤◌, length, IfOk};
ghost use Rattle.connected_sets.specs.Graphs.{IsGraph};

use crate::rows::neighbour_rows;
use county_problem::Ordered;
use place_sets::CountySet;
use std::alloc::{AllocError, Global};

/// The county graph of a problem: the problem by the places of an order, and for each place the set of the places
/// adjacent to it. It is made once for an order. Whatever grows or fills a set of places looks at it.
#[derive(Drop)]
pub struct CountyGraph<'a, 'b, C> {
    /// Where memory comes from.
    pub alloc: Global,
    /// The problem by places.
    pub ordered: &'a Ordered<'b>,
    /// The row of each place: the set of the places adjacent to it.
    pub near: Vec<C>,
}

impl<'a, 'b, C: CountySet> CountyGraph<'a, 'b, C> {
    /// Builds the county graph of the problem of `ordered`, by the places of its order. Returns `AllocError` if memory
    /// was refused.
    pub fn build(
        alloc: Global,
        ordered: &'a Ordered<'b>,
    ) -> Result<CountyGraph<'a, 'b, C>, AllocError>
        requires fits { length ordered.now.order ≤ C.PLACES }
        ensures graph { IfOk result (IsGraph C.test C.PLACES) }
        ensures ordered { IfOk result (λ graph. graph.ordered.now ≡ ordered.now) }
    {
        let _places = ordered.places();
        let _at_most = ordered.problem().total_people();
        Ok(CountyGraph {
            alloc,
            ordered,
            near: neighbour_rows(alloc, ordered)?,
        })
    }
}
