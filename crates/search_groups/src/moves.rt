//! The positions of a search: the first one, that at a state, and those where a group is closed or a county is raised.

ghost use Rattle.std.specs.Prelude.{◌≡◌, ℕ, ◌≤◌, ◌<◌, true, IfOk, IsErrOf, MatchOption, ⊤};
ghost use Rattle.county_problem.specs.OrderedValue.{code_at};
ghost use Rattle.connected_sets.specs.{Graphs.{graph_order, graph_places}, declared.stop.Stop.Stop};
ghost use Rattle.connected_laws.specs.Listing.{AreBelow};
ghost use Rattle.certificate_laws.specs.{State.{empty_state, close, raise, IsState}, Groups.{IsGroupAt, AreGroupsAt}};
ghost use Rattle.certificate_laws.specs.Proving.{CanBranch};
ghost use Rattle.state_groups.specs.PlacedValues.{codes_of_set, codes_of_sets, IsPlaced};
ghost use Rattle.search_groups.specs.Positions.{search_problem, search_round, search_state, IsSearchInput, IsLargerAt, IsPositionAt};

use crate::input::SearchInput;
use crate::kept_groups::{groups_apart, groups_having, groups_lacking, live_groups};
use crate::position::{Larger, Position};
use connected_sets::Stop;
use county_problem::Steps;
use place_sets::CountySet;
use state_groups::{State, closed_state, copied_state, first_state, raise_place};
use std::alloc::AllocError;

/// Returns the position at which the round of `input` begins. No group is closed, and nothing is known of any group.
/// Returns an error if memory was refused.
pub fn first_position<C: CountySet>(input: &SearchInput<C>) -> Result<Position<C>, AllocError>
    requires { IsSearchInput C.PLACES C.test input.now }
    ensures { IfOk result (λ at. IsPositionAt C.test input.now (empty_state (search_problem input.now)) at) }
{
    Ok(Position {
        state: first_state(input.graph.alloc, input.graph.ordered)?,
        size: 0,
        groups: Vec::new(input.graph.alloc),
        tested: true,
        larger: None,
    })
}

/// Returns the position at `state`, which is a state of the round. Nothing is known of any group there.
///
/// # Errors
///
/// Returns `AllocError` if memory was refused.
pub fn position_at<C: CountySet>(
    input: &SearchInput<C>,
    state: &State<C>,
) -> Result<Position<C>, AllocError>
    requires input { IsSearchInput C.PLACES C.test input.now }
    requires placed { IsPlaced (graph_places input.now.graph.now) C.test state.now }
    requires state { IsState (search_problem input.now) (search_round input.now) (search_state input.now C.test state.now) }
    ensures at { IfOk result (IsPositionAt C.test input.now (search_state input.now C.test state.now)) }
{
    Ok(Position {
        state: copied_state(input.graph.alloc, input.graph.ordered, state)?,
        size: 0,
        groups: Vec::new(input.graph.alloc),
        tested: true,
        larger: None,
    })
}

/// Returns the groups of the takes of a branch at the county at `place`, up to the known size. A step is taken for each
/// known group that has the county.
pub fn groups_to_take<C: CountySet>(
    input: &SearchInput<C>,
    position: &Position<C>,
    place: u16,
    steps: &mut Steps,
) -> Result<Vec<C>, Stop>
    requires input { IsSearchInput C.PLACES C.test input.now }
    requires at { IsPositionAt C.test input.now (search_state input.now C.test position.now.state) position.now }
    requires place { place < graph_places input.now.graph.now }
    ensures groups { IfOk
        result
        (λ v. AreGroupsAt
        (search_problem input.now)
        (search_round input.now)
        (search_state input.now C.test position.now.state)
        (code_at (graph_order input.now.graph.now) place)
        position.now.size
        (codes_of_sets (graph_order input.now.graph.now) C.test v.items)) }
    ensures below { IfOk result (λ v. AreBelow (graph_places input.now.graph.now) C.test v.items) }
    ensures more { steps.old.used ≤ steps.new.used }
    ensures limit { steps.new.limit ≡ steps.old.limit }
    ensures stopped { IsErrOf result Stop.StepLimit → steps.new.used ≡ steps.new.limit }
{
    let having = groups_having(
        input.graph.alloc,
        input.graph.ordered,
        &position.groups,
        place,
    )?;
    match live_groups(input.graph, &position.state, &having, steps) {
        Ok(groups) => Ok(groups),
        Err(stop) => Err(stop),
    }
}

/// Returns the listed groups of one county more that share no county with the closed `group`. Returns `None` if they
/// aren't listed.
fn larger_apart<C: CountySet>(
    input: &SearchInput<C>,
    position: &Position<C>,
    group: &C,
) -> Result<Option<Larger<C>>, AllocError>
    requires input { IsSearchInput C.PLACES C.test input.now }
    requires at { IsPositionAt C.test input.now (search_state input.now C.test position.now.state) position.now }
    requires group { (c : ℕ)
        × IsGroupAt
        (search_problem input.now)
        (search_round input.now)
        (search_state input.now C.test position.now.state)
        c
        position.now.size
        (codes_of_set (graph_order input.now.graph.now) C.test group.now) }
    ensures { IfOk
        result
        (λ found. MatchOption
        found
        ⊤
        (IsLargerAt
        C.test
        input.now
        (close (codes_of_set (graph_order input.now.graph.now) C.test group.now) (search_state input.now C.test position.now.state))
        position.now.size)) }
{
    let _problem = input.graph.ordered.problem();
    let Some(larger) = &position.larger else {
        return Ok(None);
    };
    let groups = groups_apart(
        input.graph.alloc,
        input.graph.ordered,
        &larger.groups,
        group,
    )?;
    Ok(Some(Larger {
        groups,
        tested: false,
    }))
}

/// Returns the position where `group` is closed. Of the known groups, those that share no county with it are left.
pub fn closed_position<C: CountySet>(
    input: &SearchInput<C>,
    position: &Position<C>,
    group: &C,
) -> Result<Position<C>, AllocError>
    requires input { IsSearchInput C.PLACES C.test input.now }
    requires below { (x : ℕ) → C.test group.now x ≡ true → x < graph_places input.now.graph.now }
    requires at { IsPositionAt C.test input.now (search_state input.now C.test position.now.state) position.now }
    requires group { (c : ℕ)
        × IsGroupAt
        (search_problem input.now)
        (search_round input.now)
        (search_state input.now C.test position.now.state)
        c
        position.now.size
        (codes_of_set (graph_order input.now.graph.now) C.test group.now) }
    ensures { IfOk
        result
        (IsPositionAt
        C.test
        input.now
        (close (codes_of_set (graph_order input.now.graph.now) C.test group.now) (search_state input.now C.test position.now.state))) }
{
    let _problem = input.graph.ordered.problem();
    let state = closed_state(
        input.graph.alloc,
        input.graph.ordered,
        &position.state,
        group,
    )?;
    let groups = groups_apart(
        input.graph.alloc,
        input.graph.ordered,
        &position.groups,
        group,
    )?;
    let larger = larger_apart(input, position, group)?;
    Ok(Position {
        state,
        size: position.size,
        groups,
        tested: false,
        larger,
    })
}

/// Returns the position where the county at `place` is raised past the known size. Of the groups of that size, those
/// that lack the county are left.
pub fn raised_position<C: CountySet>(
    input: &SearchInput<C>,
    position: Position<C>,
    place: u16,
) -> Result<Position<C>, AllocError>
    requires input { IsSearchInput C.PLACES C.test input.now }
    requires place { place < graph_places input.now.graph.now }
    requires at { IsPositionAt C.test input.now (search_state input.now C.test position.state) position }
    requires can { CanBranch (search_round input.now) (search_state input.now C.test position.state) (code_at (graph_order input.now.graph.now) place) position.size }
    ensures { IfOk
        result
        (IsPositionAt
        C.test
        input.now
        (raise (code_at (graph_order input.now.graph.now) place) position.size (search_state input.now C.test position.state))) }
{
    let Position {
        mut state,
        size,
        groups,
        tested,
        larger,
    } = position;
    let groups = groups_lacking(input.graph.alloc, input.graph.ordered, &groups, place)?;
    raise_place(input.graph.ordered, &mut state, place, size);
    Ok(Position {
        state,
        size,
        groups,
        tested,
        larger,
    })
}

/// Returns `position` without its dead groups, at the same state. A position that is already tested comes back as it
/// is. Otherwise a step is taken for each group. Returns `StepLimit` only if all steps are used.
pub fn without_dead<C: CountySet>(
    input: &SearchInput<C>,
    position: Position<C>,
    steps: &mut Steps,
) -> Result<Position<C>, Stop>
    requires input { IsSearchInput C.PLACES C.test input.now }
    requires at { IsPositionAt C.test input.now (search_state input.now C.test position.state) position }
    ensures at { IfOk result (λ at. IsPositionAt C.test input.now (search_state input.now C.test position.state) at
        × (at.state ≡ position.state)
        × (at.size ≡ position.size)) }
    ensures more { steps.old.used ≤ steps.new.used }
    ensures limit { steps.new.limit ≡ steps.old.limit }
    ensures stopped { IsErrOf result Stop.StepLimit → steps.new.used ≡ steps.new.limit }
{
    if position.tested {
        return Ok(position);
    }
    let Position {
        state,
        size,
        groups,
        larger,
        ..
    } = position;
    match live_groups(input.graph, &state, &groups, steps) {
        Ok(groups) => Ok(Position {
            state,
            size,
            groups,
            tested: true,
            larger,
        }),
        Err(stop) => Err(stop),
    }
}
