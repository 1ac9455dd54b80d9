//! The search for a valid leaf: a stuck leaf, the seats leaf, or a bound leaf of count lines.

ghost use Rattle.std.specs.{Prelude.{◌≡◌, ◌≤◌, map, length, IfOk, MatchOption}, Vec.vec_items};
ghost use Rattle.connected_sets.specs.Graphs.{graph_problem, graph_order, graph_places, IsGraph};
ghost use Rattle.certificate_data.specs.{RoundValue.round_of, TreeValue.leaf_of};
ghost use Rattle.certificate_laws.specs.{Leaves.IsValidLeaf, Search.HasNoLeaf};
ghost use Rattle.state_groups.specs.PlacedValues.{state_at, IsPlaced};
ghost use Rattle.bound_proofs.specs.CountLeaves.{AreListsFrom};

use crate::bound::bounding_lines;
use certificate_data::{Leaf, Round};
use connected_sets::CountyGraph;
use place_sets::CountySet;
use search_groups::{SearchInput, stuck_county};
use state_groups::State;
use state_judge::judge_seats;
use std::alloc::AllocError;

/// Returns a leaf that is valid at the `state`: a stuck leaf if there is one, else the seats leaf if it is valid, else
/// a bound leaf of count lines. Returns `None` if no stuck leaf is valid, nor the seats leaf, nor a bound leaf of at
/// most as many count lines as there are `lists`.
///
/// The `lists` are those of the groups of 1 county, of 2 and so on that fit the state. A count line is for one size.
/// Its quota is the size, and its weights are 1 for each county of a group of that size that fits.
///
/// Returns an error if memory was refused.
pub fn find_leaf<C: CountySet>(
    graph: &CountyGraph<C>,
    round: &Round,
    state: &State<C>,
    lists: &[Vec<C>],
) -> Result<Option<Leaf>, AllocError>
    requires graph { IsGraph C.test C.PLACES graph.now }
    requires placed { IsPlaced (graph_places graph.now) C.test state.now }
    requires order { graph_order graph.now ≡ round.now.order }
    requires few { length lists.now ≤ round.now.limit }
    requires lists { AreListsFrom
        C.test
        (graph_order graph.now)
        (graph_problem graph.now)
        (round_of round.now)
        (state_at (graph_order graph.now) C.test state.now)
        1
        (map vec_items lists.now) }
    ensures { IfOk
        result
        (λ found. MatchOption
        found
        (HasNoLeaf (graph_problem graph.now) (round_of round.now) (length lists.now) (state_at (graph_order graph.now) C.test state.now))
        (λ leaf. IsValidLeaf (graph_problem graph.now) (round_of round.now) (state_at (graph_order graph.now) C.test state.now) (leaf_of leaf))) }
{
    if let Some(county) = stuck_county(graph, state)? {
        return Ok(Some(Leaf::Stuck(county)));
    }
    if judge_seats(graph, state)?.is_none() {
        return Ok(Some(Leaf::Seats));
    }
    match bounding_lines(&SearchInput { graph, round }, state, lists)? {
        Some(lines) => Ok(Some(Leaf::Bound(lines))),
        None => Ok(None),
    }
}
