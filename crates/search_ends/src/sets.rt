//! The closed groups of a state and the connected parts of its rest, sorted.

ghost use Rattle.std.specs.Prelude.{◌≢◌, AllPairs, IfOk};
ghost use Rattle.grouping_laws.specs.GroupsFrom.{IsBefore};
ghost use Rattle.connected_sets.specs.Graphs.{graph_problem, graph_order, graph_places, IsGraph};
ghost use Rattle.connected_laws.specs.Listing.{AreBelow};
ghost use Rattle.state_groups.specs.PlacedValues.{state_at, codes_of_sets, IsPlaced};
ghost use Rattle.search_ends.specs.FinishedStates.{AreFinished};

use connected_sets::{CountyGraph, parts_of};
use place_sets::{CountySet, copy_sets, sorted};
use state_groups::State;
use std::alloc::AllocError;

/// Returns the closed groups of `state` and the connected parts of its rest, ordered by size and then by places. Sets
/// that differ stand in that order.
pub(crate) fn finished_sets<C: CountySet>(
    graph: &CountyGraph<C>,
    state: &State<C>,
) -> Result<Vec<C>, AllocError>
    requires graph { IsGraph C.test C.PLACES graph.now }
    requires placed { IsPlaced (graph_places graph.now) C.test state.now }
    ensures finished { IfOk
        result
        (λ v. AreFinished (graph_problem graph.now) (state_at (graph_order graph.now) C.test state.now) (codes_of_sets (graph_order graph.now) C.test v.items)) }
    ensures in_turn { IfOk
        result
        (λ v. AllPairs (λ g h. g ≢ h) (codes_of_sets (graph_order graph.now) C.test v.items)
        → AllPairs (IsBefore (graph_order graph.now)) (codes_of_sets (graph_order graph.now) C.test v.items)) }
    ensures below { IfOk result (λ v. AreBelow (graph_places graph.now) C.test v.items) }
{
    let mut parts = parts_of(graph, &state.rest)?;
    let mut sets = copy_sets(graph.alloc, &state.closed)?;
    sets.append(&mut parts)?;
    Ok(sorted(sets)?)
}
