//! The lawful grouping of a state that a search can't go on from.

ghost use Rattle.std.specs.Prelude.{◌≡◌, ℕ, filter, All, AllPairs, IfOk};
ghost use Rattle.grouping_laws.specs.{Sets.contains, Grouping.sets_of, GroupsFrom.IsBefore};
ghost use Rattle.connected_sets.specs.Graphs.{graph_order, graph_places, IsGraph};
ghost use Rattle.certificate_laws.specs.{State.IsState, Fitting.NoGroupFits, Leaves.{IsStuck, IsOffSeats}};
ghost use Rattle.certificate_laws.specs.Search.{IsFound};
ghost use Rattle.certificate_text.specs.TreeItems.{HasTargetLines};
ghost use Rattle.state_groups.specs.PlacedValues.{IsPlaced};
ghost use Rattle.search_groups.specs.{Positions.{search_problem, search_round, search_state}, Standing.StandsAhead};

use crate::groups::seated_groups;
use crate::seats::seats_for;
use crate::sets::finished_sets;
use county_codes::Grouping;
use place_sets::CountySet;
use search_groups::SearchInput;
use state_groups::State;
use std::alloc::AllocError;

/// Returns the lawful grouping of a state that a search can't go on from. At such a state, no group of at most the
/// limit fits and no leaf is valid. If there is a target, the closed groups are ahead of it. The sets of the grouping
/// are the closed groups and the connected parts of the rest, with seats by `allot`. The grouping agrees with the state
/// and is greater than the target. The first grouping of a search is that of a round with the limit 0 and no target, at
/// the state where nothing is closed.
///
/// The groups are ordered by size, in counties, and then by the places of their counties. A group names its counties in
/// the order of their places. All numbers are in the ranges of a certificate's target. Of the `input` the round isn't
/// read. Returns an error if memory was refused.
pub fn finished_grouping<C: CountySet>(
    input: &SearchInput<C>,
    state: &State<C>,
) -> Result<Grouping, AllocError>
    requires graph { IsGraph C.test C.PLACES input.now.graph.now }
    requires placed { IsPlaced (graph_places input.now.graph.now) C.test state.now }
    requires order { graph_order input.now.graph.now ≡ input.now.round.now.order }
    requires state { IsState (search_problem input.now) (search_round input.now) (search_state input.now C.test state.now) }
    requires none { NoGroupFits (search_problem input.now) (search_round input.now) (search_state input.now C.test state.now) }
    requires ahead { StandsAhead (search_round input.now) (search_state input.now C.test state.now) }
    requires no_stuck { (c : ℕ) → ¬ IsStuck (search_problem input.now) (search_state input.now C.test state.now) c }
    requires no_seats { ¬ IsOffSeats (search_problem input.now) (search_state input.now C.test state.now) }
    ensures found { IfOk
        result
        (λ g. IsFound (search_problem input.now) (search_round input.now) (search_state input.now C.test state.now) g.groups.items) }
    ensures in_turn { IfOk result (λ g. AllPairs (IsBefore (graph_order input.now.graph.now)) (sets_of g.groups.items)) }
    ensures in_order { IfOk result (λ g. All (λ m. filter (contains m.codes) (graph_order input.now.graph.now)
        ≡ m.codes) g.groups.items) }
    ensures lines { IfOk result (λ g. HasTargetLines g.groups.items) }
{
    let graph = input.graph;
    let _problem = graph.ordered.problem();
    let sets = finished_sets(graph, state)?;
    let seats = seats_for(graph.alloc, graph.ordered, &sets)?;
    Ok(Grouping {
        groups: seated_groups(graph.alloc, graph.ordered, &sets, &seats)?,
    })
}
