//! Leaves on a state as a whole: a stuck leaf, or the seats leaf.

ghost use Rattle.std.specs.Prelude.{◌≡◌, ℕ, ◌≤◌, ⊤, IfOk, MatchOption};
ghost use Rattle.county_codes.specs.Limits.{most_counties};
ghost use Rattle.connected_sets.specs.Graphs.{graph_order, graph_places, IsGraph};
ghost use Rattle.certificate_laws.specs.Leaves.{IsStuck, IsOffSeats};
ghost use Rattle.state_groups.specs.PlacedValues.{IsPlaced};
ghost use Rattle.search_groups.specs.Positions.{search_problem, search_state};
ghost use Rattle.search_ends.specs.GivenLeaf.{IsGivenAt, IsCompleteAt};

use certificate_data::Leaf;
use place_sets::CountySet;
use search_groups::{SearchInput, stuck_county};
use state_groups::State;
use state_judge::judge_seats;
use std::alloc::AllocError;

/// Returns a stuck leaf that is valid at `state`, the one around the first place where there is any. If there is none,
/// it returns the seats leaf, provided that it is valid. Returns `None` exactly if neither is valid.
///
/// Returns an error if memory was refused.
pub fn whole_leaf<C: CountySet>(
    input: &SearchInput<C>,
    state: &State<C>,
) -> Result<Option<Leaf>, AllocError>
    requires graph { IsGraph C.test C.PLACES input.now.graph.now }
    requires placed { IsPlaced (graph_places input.now.graph.now) C.test state.now }
    requires order { graph_order input.now.graph.now ≡ input.now.round.now.order }
    requires limit { input.now.round.now.limit ≤ most_counties }
    ensures leaf { IfOk
        result
        (λ found. MatchOption
        found
        (((c : ℕ) → ¬ IsStuck (search_problem input.now) (search_state input.now C.test state.now) c)
        × ¬ IsOffSeats (search_problem input.now) (search_state input.now C.test state.now))
        (IsGivenAt C.test input.now state.now)) }
    ensures complete { IfOk result (λ found. MatchOption found ⊤ (IsCompleteAt C.test input.now state.now)) }
{
    let graph = input.graph;
    if let Some(county) = stuck_county(graph, state)? {
        let _small = county.get();
        return Ok(Some(Leaf::Stuck(county)));
    }
    if judge_seats(graph, state)?.is_none() {
        return Ok(Some(Leaf::Seats));
    }
    Ok(None)
}
