//! The county of a stuck leaf: one in a connected part of the rest that can't be filled.

ghost use Rattle.std.specs.Prelude.{◌≡◌, ℕ, true, IfOk, MatchOption};
ghost use Rattle.connected_sets.specs.Graphs.{graph_problem, graph_order, graph_places, place_problem, IsGraph};
ghost use Rattle.state_groups.specs.{StateValue.state_of, PlacedValues.{state_at, IsPlaced}};
ghost use Rattle.certificate_laws.specs.Leaves.{IsStuck};

use connected_sets::CountyGraph;
use county_codes::CountyCode;
use place_sets::CountySet;
use state_groups::{State, has_stuck_part, is_stuck_at};
use std::alloc::AllocError;

/// Returns the first place of the rest of `state` around which the connected part is stuck. Returns `None` if no part
/// is.
fn stuck_place<C: CountySet>(
    graph: &CountyGraph<C>,
    state: &State<C>,
) -> Result<Option<u16>, AllocError>
    requires graph { IsGraph C.test C.PLACES graph.now }
    requires placed { IsPlaced (graph_places graph.now) C.test state.now }
    ensures { IfOk
        result
        (λ found. MatchOption
        found
        ((i : ℕ) → ¬ IsStuck (place_problem graph.now) (state_of C.test state.now) i)
        (λ place. (C.test state.now.rest place ≡ true)
        × IsStuck (place_problem graph.now) (state_of C.test state.now) place)) }
{
    let mut from = 0;
    while let Some(place) = state.rest.next(from) {
        if is_stuck_at(graph, state, place)? {
            return Ok(Some(place));
        }
        from = u32::from(place) + 1;
    }
    Ok(None)
}

/// Returns a county for which a stuck leaf is valid at `state`: the connected part of the rest around it can't be
/// filled. If there are several, it is the one at the first place. Returns `None` exactly if there is no such county.
///
/// Returns an error if memory was refused.
pub fn stuck_county<C: CountySet>(
    graph: &CountyGraph<C>,
    state: &State<C>,
) -> Result<Option<CountyCode>, AllocError>
    requires graph { IsGraph C.test C.PLACES graph.now }
    requires placed { IsPlaced (graph_places graph.now) C.test state.now }
    ensures { IfOk
        result
        (λ found. MatchOption
        found
        ((c : ℕ) → ¬ IsStuck (graph_problem graph.now) (state_at (graph_order graph.now) C.test state.now) c)
        (λ county. IsStuck (graph_problem graph.now) (state_at (graph_order graph.now) C.test state.now) county)) }
{
    let rest = state.rest.copy(graph.alloc)?;
    let none = C::empty(graph.alloc)?;
    if !has_stuck_part(graph, state, rest, &none)? {
        return Ok(None);
    }
    match stuck_place(graph, state)? {
        Some(place) => Ok(Some(graph.ordered.code(place))),
        None => Ok(None),
    }
}
