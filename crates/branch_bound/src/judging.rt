//! How a state ends, or the county at which a search branches there.

ghost use Rattle.std.specs.Prelude.{◌≡◌, ℕ, ◌+◌, ◌≤◌, ◌<◌, List, [], length, All, IfOk, OnOk, IsErrOf, MatchOption, ⊤};
ghost use Rattle.connected_sets.specs.{Graphs.{graph_places, place_problem}, declared.stop.Stop.Stop};
ghost use Rattle.certificate_laws.specs.Leaves.{IsStuck, IsOffSeats};
ghost use Rattle.search_groups.specs.PartLists.{AreListsOf};
ghost use Rattle.branch_bound.specs.Searching.{search_problem, search_round, search_state, IsSearchInput, IsPositionAt, IsEnd, IsEarlyEnd, IsNextMove, IsNextSize};

use crate::larger_groups::with_larger;
use crate::outcome::{Move, Next};
use certificate_data::Leaf;
use connected_sets::Stop;
use county_problem::Steps;
use place_sets::CountySet;
use search_ends::{
    empty_leaf, finished_grouping, room_leaf, wanted_more, weighed_leaf, whole_leaf,
};
use search_groups::{
    PartLists, Position, SearchInput, county_of_choice, next_groups, weigh, without_dead,
};
use std::alloc::AllocError;

/// Returns what follows at a `position` where no group of at most the known size fits. The state ends with a leaf or a
/// greater grouping, or the search goes on with the groups of one county more. Returns `StepLimit` if the steps ran
/// out, and `Memory` if memory was refused.
fn next_size<C: CountySet>(
    input: &SearchInput<C>,
    position: &Position<C>,
    lists: &mut PartLists<C>,
    steps: &mut Steps,
) -> Result<Next<C>, Stop>
    requires input { IsSearchInput C.PLACES C.test input.now }
    requires at { IsPositionAt C.test input.now (search_state input.now C.test position.now.state) position.now }
    requires none { position.now.groups.items ≡ [] }
    requires no_stuck { (c : ℕ)
        → ¬ IsStuck (search_problem input.now) (search_state input.now C.test position.now.state) c }
    requires no_seats { ¬ IsOffSeats (search_problem input.now) (search_state input.now C.test position.now.state) }
    requires lists { AreListsOf C.test (place_problem input.now.graph.now) (graph_places input.now.graph.now) lists.old }
    ensures none { position.now.groups.items ≡ [] }
    ensures next { IfOk result (IsNextSize C.test input.now (search_state input.now C.test position.now.state) position.now.size) }
    ensures lists { AreListsOf C.test (place_problem input.now.graph.now) (graph_places input.now.graph.now) lists.new }
    ensures more { steps.old.used ≤ steps.new.used }
    ensures limit { steps.new.limit ≡ steps.old.limit }
    ensures stopped { IsErrOf result Stop.StepLimit → steps.new.used ≡ steps.new.limit }
{
    let Position { state, size, .. } = position;
    let _problem = input.graph.ordered.problem();
    if let Some(leaf) = empty_leaf(input, state, *size)? {
        return Ok(Next::Leaf(leaf));
    }
    if *size == input.round.limit {
        let found = finished_grouping(input, state)?;
        return Ok(Next::Better(found));
    }
    if let Some(leaf) = room_leaf(input, state, *size + 1)? {
        return Ok(Next::Leaf(leaf));
    }
    match next_groups(input, position, lists, steps) {
        Ok(groups) => Ok(Next::Groups(groups)),
        Err(stop) => Err(stop),
    }
}

/// Returns a branch at a county of the position's groups. The county is chosen by the `weights`.
fn branch_at<C: CountySet>(
    input: &SearchInput<C>,
    position: Position<C>,
    weights: &[u32],
) -> Result<Move<C>, AllocError>
    requires input { IsSearchInput C.PLACES C.test input.now }
    requires at { IsPositionAt C.test input.now (search_state input.now C.test position.state) position }
    requires some { 1 ≤ length position.groups.items }
    requires count { length weights.now ≡ graph_places input.now.graph.now }
    ensures { IfOk result (IsNextMove C.test input.now (search_state input.now C.test position.state)) }
{
    let places = input.graph.ordered.places();
    match county_of_choice(input.graph.alloc, places, &position.groups, weights)? {
        Some(place) => Ok(Move::Branch(place, position)),
        None => unreachable!(),
    }
}

/// Returns a bound leaf by weights if they give one, and a branch otherwise. `wanted` groups of the position's size are
/// still wanted.
fn weighed<C: CountySet>(
    input: &SearchInput<C>,
    position: Position<C>,
    wanted: u32,
) -> Result<Move<C>, AllocError>
    requires input { IsSearchInput C.PLACES C.test input.now }
    requires at { IsPositionAt C.test input.now (search_state input.now C.test position.state) position }
    requires some { 1 ≤ length position.groups.items }
    ensures { IfOk result (IsNextMove C.test input.now (search_state input.now C.test position.state)) }
{
    let Position {
        state,
        size,
        groups,
        ..
    } = &position;
    let weights = weigh(
        input.graph.alloc,
        input.graph.ordered.places(),
        groups,
        *size,
        wanted,
    )?;
    if let Some(leaf) = weighed_leaf(input, state, *size, groups, &weights)? {
        return Ok(Move::Leaf(leaf));
    }
    branch_at(input, position, &weights)
}

/// Returns a bound leaf if more groups of the size of `position` are wanted and weights give such a leaf. Otherwise
/// returns a branch.
fn move_at_groups<C: CountySet>(
    input: &SearchInput<C>,
    position: Position<C>,
) -> Result<Move<C>, AllocError>
    requires input { IsSearchInput C.PLACES C.test input.now }
    requires at { IsPositionAt C.test input.now (search_state input.now C.test position.state) position }
    requires some { 1 ≤ length position.groups.items }
    ensures { IfOk result (IsNextMove C.test input.now (search_state input.now C.test position.state)) }
{
    match wanted_more(input, &position.state, position.size) {
        Some(wanted) => weighed(input, position, wanted),
        None => {
            let weights = vec![in input.graph.alloc; 0; usize::from(input.graph.ordered.places())]?;
            branch_at(input, position, &weights)
        }
    }
}

/// Returns how the state of `position` ends, or the county at which it branches. It goes from size to size until there
/// are groups. Returns `StepLimit` if the steps ran out, and `Memory` if memory was refused.
fn move_at_sizes<C: CountySet>(
    input: &SearchInput<C>,
    position: Position<C>,
    lists: &mut PartLists<C>,
    steps: &mut Steps,
) -> Result<Move<C>, Stop>
    requires input { IsSearchInput C.PLACES C.test input.now }
    requires at { IsPositionAt C.test input.now (search_state input.now C.test position.state) position }
    requires no_stuck { (c : ℕ)
        → ¬ IsStuck (search_problem input.now) (search_state input.now C.test position.state) c }
    requires no_seats { ¬ IsOffSeats (search_problem input.now) (search_state input.now C.test position.state) }
    requires lists { AreListsOf C.test (place_problem input.now.graph.now) (graph_places input.now.graph.now) lists.old }
    ensures next_move { IfOk result (IsNextMove C.test input.now (search_state input.now C.test position.state)) }
    ensures lists { AreListsOf C.test (place_problem input.now.graph.now) (graph_places input.now.graph.now) lists.new }
    ensures more { steps.old.used ≤ steps.new.used }
    ensures limit { steps.new.limit ≡ steps.old.limit }
    ensures stopped { IsErrOf result Stop.StepLimit → steps.new.used ≡ steps.new.limit }
{
    let mut position = position;
    while position.groups.is_empty() {
        match next_size(input, &position, lists, steps) {
            Ok(Next::Leaf(leaf)) => return Ok(Move::Leaf(leaf)),
            Ok(Next::Better(found)) => return Ok(Move::Better(found)),
            Ok(Next::Groups(groups)) => {
                position.larger = None;
                position.size += 1;
                position.groups = groups;
                position.tested = true;
            }
            Err(stop) => return Err(stop),
        }
    }
    match move_at_groups(input, position) {
        Ok(Move::Branch(place, at)) => match with_larger(input, at, steps) {
            Ok(at) => Ok(Move::Branch(place, at)),
            Err(stop) => Err(stop),
        },
        Ok(next_move) => Ok(next_move),
        Err(refused) => Err(refused.into()),
    }
}

/// Returns a bound leaf if there is no room at `position` for the wanted number of groups of the known size. Otherwise
/// returns `None`, as it does for a size of 0.
fn present_room<C: CountySet>(
    input: &SearchInput<C>,
    position: &Position<C>,
) -> Result<Option<Leaf>, AllocError>
    requires input { IsSearchInput C.PLACES C.test input.now }
    requires at { IsPositionAt C.test input.now (search_state input.now C.test position.now.state) position.now }
    ensures { IfOk result (λ found. MatchOption found ⊤ (IsEnd (search_problem input.now) (search_round input.now) (search_state input.now C.test position.now.state))) }
{
    if position.size == 0 {
        return Ok(None);
    }
    room_leaf(input, &position.state, position.size)
}

/// Returns a leaf that is valid at `position` and can be found without looking at its groups, or `None` if none is
/// found.
fn early_leaf<C: CountySet>(
    input: &SearchInput<C>,
    position: &Position<C>,
) -> Result<Option<Leaf>, AllocError>
    requires input { IsSearchInput C.PLACES C.test input.now }
    requires at { IsPositionAt C.test input.now (search_state input.now C.test position.now.state) position.now }
    ensures { IfOk result (IsEarlyEnd input.now (search_state input.now C.test position.now.state)) }
{
    match whole_leaf(input, &position.state)? {
        Some(leaf) => Ok(Some(leaf)),
        None => present_room(input, position),
    }
}

/// Returns how the state of `position` ends, or the county at which the search branches there. A step is taken for the
/// state. Returns `StepLimit` if the steps ran out, and `Memory` if memory was refused.
pub(crate) fn next_move<C: CountySet>(
    input: &SearchInput<C>,
    position: Position<C>,
    lists: &mut PartLists<C>,
    steps: &mut Steps,
) -> Result<Move<C>, Stop>
    requires input { IsSearchInput C.PLACES C.test input.now }
    requires at { IsPositionAt C.test input.now (search_state input.now C.test position.state) position }
    requires lists { AreListsOf C.test (place_problem input.now.graph.now) (graph_places input.now.graph.now) lists.old }
    ensures next_move { IfOk result (IsNextMove C.test input.now (search_state input.now C.test position.state)) }
    ensures counted { OnOk result (steps.old.used < steps.new.used) }
    ensures left { OnOk result (steps.old.used < steps.old.limit) }
    ensures lists { AreListsOf C.test (place_problem input.now.graph.now) (graph_places input.now.graph.now) lists.new }
    ensures more { steps.old.used ≤ steps.new.used }
    ensures limit { steps.new.limit ≡ steps.old.limit }
    ensures stopped { IsErrOf result Stop.StepLimit → steps.new.used ≡ steps.new.limit }
{
    if !steps.tick() {
        return Err(Stop::StepLimit);
    }
    match early_leaf(input, &position) {
        Ok(Some(leaf)) => Ok(Move::Leaf(leaf)),
        Ok(None) => match without_dead(input, position, steps) {
            Ok(position) => move_at_sizes(input, position, lists, steps),
            Err(stop) => Err(stop),
        },
        Err(refused) => Err(refused.into()),
    }
}
