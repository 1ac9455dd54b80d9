//! The groups of one size that fit a state of a round, described by their codes.

ghost use Rattle.std.specs.Prelude.{◌≡◌, ◌≤◌, IfOk, IsErrOf};
ghost use Rattle.grouping_laws.specs.Places.{places_below};
ghost use Rattle.connected_sets.specs.Graphs.{graph_problem, graph_order, graph_places, place_problem, IsGraph};
ghost use Rattle.connected_sets.specs.declared.stop.Stop.{Stop};
ghost use Rattle.connected_laws.specs.Listing.{AreBelow, OneStepEach};
ghost use Rattle.certificate_data.specs.RoundValue.{round_of};
ghost use Rattle.certificate_laws.specs.Groups.{AreGroupsOf, IsSetWithin};
ghost use Rattle.state_groups.specs.{StateValue.state_of, PlacedValues.{state_at, codes_of_sets, IsPlaced}};

use crate::lists::groups_of;
use crate::state::State;
use certificate_data::Round;
use connected_sets::{CountyGraph, Stop};
use county_problem::Steps;
use place_sets::CountySet;

/// Returns the groups of `size` counties that fit the state, whatever smaller groups fit. Each group comes once, and
/// they are ordered by their lists of places. They are the groups of `groups_of` in the format of the round, but the
/// contract describes them by their codes.
///
/// Steps are taken as by `groups_of`. Returns `StepLimit` only if all steps are used, and `Memory` only if a growth was
/// refused.
pub fn all_groups_of_size<C: CountySet>(
    graph: &CountyGraph<C>,
    round: &Round,
    state: &State<C>,
    size: u16,
    steps: &mut Steps,
) -> Result<Vec<C>, Stop>
    requires graph { IsGraph C.test C.PLACES graph.now }
    requires placed { IsPlaced (graph_places graph.now) C.test state.now }
    requires order { graph_order graph.now ≡ round.now.order }
    requires size { 1 ≤ size }
    ensures groups { IfOk
        result
        (λ v. AreGroupsOf
        (graph_problem graph.now)
        (round_of round.now)
        (state_at (graph_order graph.now) C.test state.now)
        size
        (codes_of_sets (graph_order graph.now) C.test v.items)) }
    ensures below { IfOk result (λ v. AreBelow (graph_places graph.now) C.test v.items) }
    ensures steps { OneStepEach (IsSetWithin (place_problem graph.now) (places_below (graph_places graph.now)) (state_of C.test state.now) size) steps.old.used steps.new.used }
    ensures more { steps.old.used ≤ steps.new.used }
    ensures limit { steps.new.limit ≡ steps.old.limit }
    ensures stopped { IsErrOf result Stop.StepLimit → steps.new.used ≡ steps.new.limit }
{
    groups_of(graph, round.format, state, size, steps)
}
