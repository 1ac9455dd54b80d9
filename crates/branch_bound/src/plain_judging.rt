//! How a state of a plain round ends, or the county at which a search branches there. It branches at the first county
//! that is open to the limit.

ghost use Rattle.std.specs.Prelude.{◌≡◌, ℕ, ◌≤◌, ◌<◌, IfOk, OnOk, IsErrOf, MatchOption, ⊤};
ghost use Rattle.county_problem.specs.OrderedValue.{code_at};
ghost use Rattle.connected_sets.specs.{Graphs.{graph_order, graph_places}, declared.stop.Stop.Stop};
ghost use Rattle.certificate_laws.specs.{Fitting.NoGroupFits, Leaves.{IsStuck, IsOffSeats}, Proving.CanBranch};
ghost use Rattle.branch_bound.specs.Searching.{search_problem, search_round, search_state, IsEarlyEnd};
ghost use Rattle.branch_bound.specs.PlainRounds.{IsPlainGround, IsStateOf, IsNextPlainMove};

use crate::outcome::PlainMove;
use certificate_data::Leaf;
use connected_sets::Stop;
use county_problem::Steps;
use place_sets::CountySet;
use search_ends::{empty_leaf, finished_grouping, room_leaf, whole_leaf};
use search_groups::SearchInput;
use state_groups::{State, open_places};
use std::alloc::AllocError;

/// Returns the place of the first county that is open at `state` to the round's limit. Returns `None` only if no group
/// of at most the limit fits.
fn first_open<C: CountySet>(
    input: &SearchInput<C>,
    state: &State<C>,
) -> Result<Option<u16>, AllocError>
    requires input { IsPlainGround C.PLACES C.test input.now }
    requires at { IsStateOf C.test input.now state.now }
    ensures { IfOk
        result
        (λ found. MatchOption
        found
        (NoGroupFits (search_problem input.now) (search_round input.now) (search_state input.now C.test state.now))
        (λ place. (place < graph_places input.now.graph.now)
        × CanBranch (search_round input.now) (search_state input.now C.test state.now) (code_at (graph_order input.now.graph.now) place) input.now.round.now.limit)) }
{
    let open = open_places(input.graph.alloc, state, input.round.limit)?;
    match open.next(0) {
        Some(place) => Ok(Some(place)),
        None => Ok(None),
    }
}

/// Returns a leaf that is valid at `state` and can be found without looking at its groups, or `None` if none is found.
fn first_leaf<C: CountySet>(
    input: &SearchInput<C>,
    state: &State<C>,
) -> Result<Option<Leaf>, AllocError>
    requires input { IsPlainGround C.PLACES C.test input.now }
    requires at { IsStateOf C.test input.now state.now }
    ensures { IfOk result (IsEarlyEnd input.now (search_state input.now C.test state.now)) }
{
    if let Some(leaf) = whole_leaf(input, state)? {
        return Ok(Some(leaf));
    }
    if input.round.limit == 0 {
        return Ok(None);
    }
    room_leaf(input, state, 1)
}

/// Returns what `state` ends with if no group of at most the limit fits: a leaf or a greater grouping.
fn last_end<C: CountySet>(input: &SearchInput<C>, state: &State<C>) -> Result<PlainMove, AllocError>
    requires input { IsPlainGround C.PLACES C.test input.now }
    requires at { IsStateOf C.test input.now state.now }
    requires none { NoGroupFits (search_problem input.now) (search_round input.now) (search_state input.now C.test state.now) }
    requires no_stuck { (c : ℕ) → ¬ IsStuck (search_problem input.now) (search_state input.now C.test state.now) c }
    requires no_seats { ¬ IsOffSeats (search_problem input.now) (search_state input.now C.test state.now) }
    ensures { IfOk result (IsNextPlainMove C.test input.now (search_state input.now C.test state.now)) }
{
    let _problem = input.graph.ordered.problem();
    if let Some(leaf) = empty_leaf(input, state, input.round.limit)? {
        return Ok(PlainMove::Leaf(leaf));
    }
    let found = finished_grouping(input, state)?;
    Ok(PlainMove::Better(found))
}

/// Returns how a `state` without a valid early leaf ends, or the place at which the search branches there.
fn end_or_branch<C: CountySet>(
    input: &SearchInput<C>,
    state: &State<C>,
) -> Result<PlainMove, AllocError>
    requires input { IsPlainGround C.PLACES C.test input.now }
    requires at { IsStateOf C.test input.now state.now }
    requires no_stuck { (c : ℕ) → ¬ IsStuck (search_problem input.now) (search_state input.now C.test state.now) c }
    requires no_seats { ¬ IsOffSeats (search_problem input.now) (search_state input.now C.test state.now) }
    ensures { IfOk result (IsNextPlainMove C.test input.now (search_state input.now C.test state.now)) }
{
    match first_open(input, state)? {
        Some(place) => Ok(PlainMove::Branch(place)),
        None => last_end(input, state),
    }
}

/// Returns how `state` ends, or the place at which the search branches there. A step is taken for the state. Returns
/// `StepLimit` if the steps ran out, and `Memory` if memory was refused.
pub(crate) fn next_plain_move<C: CountySet>(
    input: &SearchInput<C>,
    state: &State<C>,
    steps: &mut Steps,
) -> Result<PlainMove, Stop>
    requires input { IsPlainGround C.PLACES C.test input.now }
    requires at { IsStateOf C.test input.now state.now }
    ensures next_move { IfOk result (IsNextPlainMove C.test input.now (search_state input.now C.test state.now)) }
    ensures counted { OnOk result (steps.old.used < steps.new.used) }
    ensures left { OnOk result (steps.old.used < steps.old.limit) }
    ensures more { steps.old.used ≤ steps.new.used }
    ensures limit { steps.new.limit ≡ steps.old.limit }
    ensures stopped { IsErrOf result Stop.StepLimit → steps.new.used ≡ steps.new.limit }
{
    if !steps.tick() {
        return Err(Stop::StepLimit);
    }
    match first_leaf(input, state) {
        Ok(Some(leaf)) => Ok(PlainMove::Leaf(leaf)),
        Ok(None) => match end_or_branch(input, state) {
            Ok(next_move) => Ok(next_move),
            Err(refused) => Err(refused.into()),
        },
        Err(refused) => Err(refused.into()),
    }
}
