//! The groups of one county more than those that are known.

ghost use Rattle.std.specs.Prelude.{◌≡◌, ℕ, ◌+◌, ◌≤◌, [], IfOk, IsErrOf};
ghost use Rattle.connected_sets.specs.{Graphs.{graph_order, graph_places, place_problem}, declared.stop.Stop.Stop};
ghost use Rattle.connected_laws.specs.Listing.{AreBelow};
ghost use Rattle.certificate_laws.specs.{Groups.AreGroupsOf, Leaves.IsStuck};
ghost use Rattle.state_groups.specs.PlacedValues.{codes_of_sets};
ghost use Rattle.search_groups.specs.PartLists.{AreListsOf};
ghost use Rattle.search_groups.specs.Positions.{search_problem, search_round, search_state, IsSearchInput, IsLargerAt, IsPositionAt};

use crate::input::SearchInput;
use crate::kept_groups::live_groups;
use crate::part_lists::PartLists;
use crate::position::{Larger, Position};
use crate::size_groups::groups_of_size;
use connected_sets::Stop;
use county_problem::Steps;
use place_sets::CountySet;
use state_groups::all_groups_of_size;

/// Returns the groups that fit the state of `position` and have one county more than the size that it knows. It may be
/// called only where no group of at most that size fits. Returns `StepLimit` only if all steps are used, and `Memory`
/// only if memory was refused.
pub fn next_groups<C: CountySet>(
    input: &SearchInput<C>,
    position: &Position<C>,
    lists: &mut PartLists<C>,
    steps: &mut Steps,
) -> Result<Vec<C>, Stop>
    requires input { IsSearchInput C.PLACES C.test input.now }
    requires at { IsPositionAt C.test input.now (search_state input.now C.test position.now.state) position.now }
    requires none { position.now.groups.items ≡ [] }
    requires no_stuck { (c : ℕ)
        → ¬ IsStuck (search_problem input.now) (search_state input.now C.test position.now.state) c }
    requires lists { AreListsOf C.test (place_problem input.now.graph.now) (graph_places input.now.graph.now) lists.old }
    ensures groups { IfOk
        result
        (λ v. AreGroupsOf
        (search_problem input.now)
        (search_round input.now)
        (search_state input.now C.test position.now.state)
        (position.now.size + 1)
        (codes_of_sets (graph_order input.now.graph.now) C.test v.items)) }
    ensures below { IfOk result (λ v. AreBelow (graph_places input.now.graph.now) C.test v.items) }
    ensures lists { AreListsOf C.test (place_problem input.now.graph.now) (graph_places input.now.graph.now) lists.new }
    ensures more { steps.old.used ≤ steps.new.used }
    ensures limit { steps.new.limit ≡ steps.old.limit }
    ensures stopped { IsErrOf result Stop.StepLimit → steps.new.used ≡ steps.new.limit }
{
    let Position {
        state,
        size,
        larger,
        ..
    } = position;
    let Some(larger) = larger else {
        return groups_of_size(input.graph, input.round, state, *size + 1, lists, steps);
    };
    match live_groups(input.graph, state, &larger.groups, steps) {
        Ok(groups) => Ok(groups),
        Err(stop) => Err(stop),
    }
}

/// Returns the groups that have one county more than the size that `position` knows. If they aren't listed yet, all
/// that fit are listed, and a step is taken for each set that is looked through. Otherwise the dead ones are left out
/// of the list, and a step is taken for each listed group. Returns `StepLimit` only if all steps are used.
pub fn larger_groups<C: CountySet>(
    input: &SearchInput<C>,
    position: &Position<C>,
    steps: &mut Steps,
) -> Result<Larger<C>, Stop>
    requires input { IsSearchInput C.PLACES C.test input.now }
    requires at { IsPositionAt C.test input.now (search_state input.now C.test position.now.state) position.now }
    ensures larger { IfOk result (IsLargerAt C.test input.now (search_state input.now C.test position.now.state) position.now.size) }
    ensures more { steps.old.used ≤ steps.new.used }
    ensures limit { steps.new.limit ≡ steps.old.limit }
    ensures stopped { IsErrOf result Stop.StepLimit → steps.new.used ≡ steps.new.limit }
{
    let Position {
        state,
        size,
        larger,
        ..
    } = position;
    let found = match larger {
        Some(larger) => live_groups(input.graph, state, &larger.groups, steps),
        None => all_groups_of_size(input.graph, input.round, state, *size + 1, steps),
    };
    match found {
        Ok(groups) => Ok(Larger {
            groups,
            tested: true,
        }),
        Err(stop) => Err(stop),
    }
}
