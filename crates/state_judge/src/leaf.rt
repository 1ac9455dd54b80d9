//! The verdict on the line of a stuck leaf and on that of a seats leaf.

ghost use Rattle.std.specs.Prelude.{◌<◌, IfOk, MatchOption};
ghost use Rattle.connected_sets.specs.Graphs.{graph_problem, graph_order, graph_places, IsGraph};
ghost use Rattle.certificate_laws.specs.Leaves.{IsStuck, IsOffSeats};
ghost use Rattle.checker_laws.specs.Leaves.{IsStuckFault, IsSeatsFault};
ghost use Rattle.state_groups.specs.PlacedValues.{state_at, IsPlaced};
ghost use Rattle.state_judge.specs.CheckFaults.{NamesFault};

use crate::fault::CheckFault;
use connected_sets::CountyGraph;
use county_codes::CountyCode;
use place_sets::CountySet;
use state_groups::{State, is_off_seats, is_stuck_at};
use std::alloc::AllocError;

/// Returns the fault of a stuck leaf around the `county`, or `None` if the leaf is valid. The fault is `WrongCounty` if
/// the county isn't one of the rest. Otherwise it is `NotStuck` if the part of the rest around the county can be
/// filled.
///
/// Returns an error if memory was refused.
pub fn judge_stuck<C: CountySet>(
    graph: &CountyGraph<C>,
    state: &State<C>,
    county: CountyCode,
) -> Result<Option<CheckFault>, AllocError>
    requires graph { IsGraph C.test C.PLACES graph.now }
    requires placed { IsPlaced (graph_places graph.now) C.test state.now }
    ensures { IfOk
        result
        (λ found. MatchOption
        found
        (IsStuck (graph_problem graph.now) (state_at (graph_order graph.now) C.test state.now) county)
        (λ fault. NamesFault fault (IsStuckFault (graph_problem graph.now) (state_at (graph_order graph.now) C.test state.now) county))) }
{
    let Some(place) = graph.ordered.place_of(county) else {
        return Ok(Some(CheckFault::WrongCounty));
    };
    if !state.rest.has(place) {
        return Ok(Some(CheckFault::WrongCounty));
    }
    if is_stuck_at(graph, state, place)? {
        return Ok(None);
    }
    Ok(Some(CheckFault::NotStuck))
}

/// Returns the fault of a seats leaf at `state`, or `None` if the leaf is valid. The fault is `SeatsOpen` if a part of
/// the rest suits no number of seats, or if the seats may add up to those left.
///
/// Returns an error if memory was refused.
pub fn judge_seats<C: CountySet>(
    graph: &CountyGraph<C>,
    state: &State<C>,
) -> Result<Option<CheckFault>, AllocError>
    requires graph { IsGraph C.test C.PLACES graph.now }
    requires placed { IsPlaced (graph_places graph.now) C.test state.now }
    ensures { IfOk
        result
        (λ found. MatchOption
        found
        (IsOffSeats (graph_problem graph.now) (state_at (graph_order graph.now) C.test state.now))
        (λ fault. NamesFault fault (IsSeatsFault (graph_problem graph.now) (state_at (graph_order graph.now) C.test state.now)))) }
{
    if is_off_seats(graph, state)? {
        return Ok(None);
    }
    Ok(Some(CheckFault::SeatsOpen))
}
