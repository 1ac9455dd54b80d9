//! The search of a piece of a round, from its state.

ghost use Rattle.std.specs.Prelude.{◌≡◌, ℕ, ◌≤◌, ◌<◌, ◌↔◌, IsTrue, length, IfOk};
ghost use Rattle.county_codes.specs.Limits.{most_counties};
ghost use Rattle.connected_sets.specs.Graphs.{graph_order, graph_places, graph_problem, place_problem, IsGraph};
ghost use Rattle.certificate_laws.specs.{Certificate.HasGroupsWithin, State.IsState};
ghost use Rattle.certificate_data.specs.Round.{Round as RoundValue};
ghost use Rattle.certificate_data.specs.RoundValue.{round_of};
ghost use Rattle.certificate_laws.specs.State.{State as StateValue};
ghost use Rattle.grouping_laws.specs.Problem.{Problem as ProblemLaw};
ghost use Rattle.grouping_laws.specs.GroupsFrom.{IsOrder};
ghost use Rattle.county_problem.specs.ProblemValue.{problem_of};
ghost use Rattle.state_groups.specs.PlacedValues.{state_at, IsPlaced};
ghost use Rattle.branch_bound.specs.PlainRounds.{IsPlainGround, IsStateOf};
ghost use Rattle.branch_bound.specs.Searching.{search_problem, search_round, search_state, IsSearchInput, IsBetter, IsOutcome, IsStopped};
ghost use Rattle.branch_bound.specs.{Parts.IsOpenPart, Pieces.{IsPieceAnswer, IsOpen}};
ghost use Rattle.search_groups.specs.PartLists.{AreListsOf};
ghost use Rattle.partial_trees.specs.PartialValue.{partial_of};

use crate::outcome::SearchOutcome;
use crate::parts::begun_part;
use crate::piece_answer::PieceAnswer;
use crate::plain_search::prove_plain;
use crate::search::prove;
use crate::watcher::NoWatcher;
use certificate_data::{Format, Round};
use connected_sets::CountyGraph;
use county_codes::Grouping;
use county_problem::{OrderFault, Ordered, Problem, Steps};
use partial_trees::PartialTree;
use place_sets::CountySet;
use search_groups::{PartLists, SearchInput, position_at};
use state_groups::{State, copied_state};
use std::alloc::{AllocError, Global};

/// Returns whether no group of the `grouping` has more than `limit` counties.
fn is_within(grouping: &Grouping, limit: u16) -> bool
    ensures { IsTrue result ↔ HasGroupsWithin limit grouping.now.groups.items }
{
    for group in &grouping.groups {
        if group.codes.as_slice().len() > usize::from(limit) {
            return false;
        }
    }
    true
}

/// Returns the answer for a greater grouping that was `found`.
fn found_answer(round: &Round, found: Grouping) -> PieceAnswer
    ensures piece { (p : ProblemLaw) (s : StateValue) → IsBetter p (round_of round.now) s found
        → IsPieceAnswer p (round_of round.now) s result }
    ensures closed { ¬ IsOpen result }
{
    if is_within(&found, round.limit) {
        PieceAnswer::Better(found)
    } else {
        PieceAnswer::Wider(found)
    }
}

/// Returns the answer where the steps ran out, given the `part` that was proved by then.
fn open_answer(part: PartialTree) -> PieceAnswer
    ensures piece { (p : ProblemLaw) (round : RoundValue) (s : StateValue) → IsOpenPart p round s (partial_of part)
        → IsPieceAnswer p round s result }
    ensures open { IsOpen result }
{
    PieceAnswer::Open(begun_part(part))
}

/// Returns the answer for an `outcome` of the search.
fn answer_for(round: &Round, outcome: SearchOutcome) -> PieceAnswer
    ensures piece { (p : ProblemLaw) (s : StateValue) → IsOutcome p (round_of round.now) s outcome
        → IsPieceAnswer p (round_of round.now) s result }
    ensures open { IsOpen result ↔ IsStopped outcome }
{
    match outcome {
        SearchOutcome::Proved(tree) => PieceAnswer::Proved(tree),
        SearchOutcome::Better(found) => found_answer(round, found),
        SearchOutcome::Open(part) => open_answer(part),
    }
}

/// Returns the answer for a piece of a wide round, whose state is `state`.
fn wide_piece<C: CountySet>(
    input: &SearchInput<C>,
    state: &State<C>,
    lists: &mut PartLists<C>,
    steps: &mut Steps,
) -> Result<PieceAnswer, AllocError>
    requires input { IsSearchInput C.PLACES C.test input.now }
    requires placed { IsPlaced (graph_places input.now.graph.now) C.test state.now }
    requires state { IsState (search_problem input.now) (search_round input.now) (search_state input.now C.test state.now) }
    requires lists { AreListsOf C.test (place_problem input.now.graph.now) (graph_places input.now.graph.now) lists.old }
    ensures lists { AreListsOf C.test (place_problem input.now.graph.now) (graph_places input.now.graph.now) lists.new }
    ensures piece { IfOk result (IsPieceAnswer (search_problem input.now) (search_round input.now) (search_state input.now C.test state.now)) }
    ensures limit { steps.new.limit ≡ steps.old.limit }
    ensures counted { IfOk result (λ answer. ¬ IsOpen answer → steps.old.used < steps.new.used) }
    ensures more { steps.old.used ≤ steps.new.used }
    ensures open { IfOk result (λ answer. IsOpen answer → steps.new.used ≡ steps.new.limit) }
{
    let position = position_at(input, state)?;
    let outcome = prove(input, position, lists, &mut NoWatcher, steps)?;
    Ok(answer_for(input.round, outcome))
}

/// Returns the answer for a piece of a plain round, whose state is `state`.
fn plain_piece<C: CountySet>(
    input: &SearchInput<C>,
    state: &State<C>,
    steps: &mut Steps,
) -> Result<PieceAnswer, AllocError>
    requires input { IsPlainGround C.PLACES C.test input.now }
    requires at { IsStateOf C.test input.now state.now }
    ensures piece { IfOk result (IsPieceAnswer (search_problem input.now) (search_round input.now) (search_state input.now C.test state.now)) }
    ensures limit { steps.new.limit ≡ steps.old.limit }
    ensures counted { IfOk result (λ answer. ¬ IsOpen answer → steps.old.used < steps.new.used) }
    ensures more { steps.old.used ≤ steps.new.used }
    ensures open { IfOk result (λ answer. IsOpen answer → steps.new.used ≡ steps.new.limit) }
{
    let copy = copied_state(input.graph.alloc, input.graph.ordered, state)?;
    let outcome = prove_plain(input, copy, steps)?;
    Ok(answer_for(input.round, outcome))
}

/// Searches a piece of a `round` over a `graph` of its counties, as `prove_piece` does. The `lists` of groups are kept
/// from piece to piece of the problem, and from round to round. A plain round has none.
///
/// # Errors
///
/// Returns `AllocError` if memory was refused. The lists may then be used on.
pub fn prove_piece_over<C: CountySet>(
    graph: &CountyGraph<C>,
    round: &Round,
    state: &State<C>,
    lists: &mut PartLists<C>,
    steps: &mut Steps,
) -> Result<PieceAnswer, AllocError>
    requires graph { IsGraph C.test C.PLACES graph.now }
    requires order { graph_order graph.now ≡ round.now.order }
    requires small { round.now.limit ≤ most_counties }
    requires placed { IsPlaced (graph_places graph.now) C.test state.now }
    requires state { IsState (graph_problem graph.now) (round_of round.now) (state_at (graph_order graph.now) C.test state.now) }
    requires lists { AreListsOf C.test (place_problem graph.now) (graph_places graph.now) lists.old }
    ensures lists { AreListsOf C.test (place_problem graph.now) (graph_places graph.now) lists.new }
    ensures piece { IfOk result (IsPieceAnswer (graph_problem graph.now) (round_of round.now) (state_at (graph_order graph.now) C.test state.now)) }
    ensures limit { steps.new.limit ≡ steps.old.limit }
    ensures counted { IfOk result (λ answer. ¬ IsOpen answer → steps.old.used < steps.new.used) }
    ensures more { steps.old.used ≤ steps.new.used }
    ensures open { IfOk result (λ answer. IsOpen answer → steps.new.used ≡ steps.new.limit) }
{
    let input = SearchInput { graph, round };
    match round.format {
        Format::Wide => wide_piece(&input, state, lists, steps),
        Format::Plain => plain_piece(&input, state, steps),
    }
}

/// Returns the answer for the piece that begins at `state`, by the order of counties of `round`, which is that of
/// `ordered`.
fn ordered_piece<C: CountySet>(
    alloc: Global,
    ordered: &Ordered,
    round: &Round,
    state: &State<C>,
    steps: &mut Steps,
) -> Result<PieceAnswer, AllocError>
    requires fits { length ordered.now.order ≤ C.PLACES }
    requires order { ordered.now.order ≡ round.now.order }
    requires small { round.now.limit ≤ most_counties }
    requires placed { IsPlaced (length ordered.now.order) C.test state.now }
    requires state { IsState (problem_of ordered.now.problem) (round_of round.now) (state_at ordered.now.order C.test state.now) }
    ensures piece { IfOk result (IsPieceAnswer (problem_of ordered.now.problem) (round_of round.now) (state_at ordered.now.order C.test state.now)) }
    ensures limit { steps.new.limit ≡ steps.old.limit }
    ensures counted { IfOk result (λ answer. ¬ IsOpen answer → steps.old.used < steps.new.used) }
    ensures more { steps.old.used ≤ steps.new.used }
    ensures open { IfOk result (λ answer. IsOpen answer → steps.new.used ≡ steps.new.limit) }
{
    let graph = CountyGraph::build(alloc, ordered)?;
    let mut lists = PartLists::new(alloc);
    prove_piece_over(&graph, round, state, &mut lists, steps)
}

/// Searches a piece of a `round`, whose state is `state`. Returns a proof tree of the state, a greater grouping that
/// agrees with the state, or that the steps ran out.
///
/// The round's order names each county of the problem once, and its limit is at most 256. The state is one of the round
/// by the places of the order. If the steps ran out, the answer has a partial tree of the state: what was proved by
/// then, and an open leaf for each state that is left. It has none if the steps ran out before the first branch.
///
/// A step is a state that is entered, a set that is grown, a group that is tested for being live, or a look for the
/// list of a part. All steps are taken from `steps`: at least one, unless the steps ran out.
///
/// # Errors
///
/// Returns `AllocError` if memory was refused.
pub fn prove_piece<C: CountySet>(
    alloc: Global,
    problem: &Problem,
    round: &Round,
    state: &State<C>,
    steps: &mut Steps,
) -> Result<PieceAnswer, AllocError>
    requires fits { length round.now.order ≤ C.PLACES }
    requires order { IsOrder (problem_of problem.now) round.now.order }
    requires small { round.now.limit ≤ most_counties }
    requires placed { IsPlaced (length round.now.order) C.test state.now }
    requires state { IsState (problem_of problem.now) (round_of round.now) (state_at round.now.order C.test state.now) }
    ensures piece { IfOk result (IsPieceAnswer (problem_of problem.now) (round_of round.now) (state_at round.now.order C.test state.now)) }
    ensures limit { steps.new.limit ≡ steps.old.limit }
    ensures counted { IfOk result (λ answer. ¬ IsOpen answer → steps.old.used < steps.new.used) }
    ensures more { steps.old.used ≤ steps.new.used }
    ensures open { IfOk result (λ answer. IsOpen answer → steps.new.used ≡ steps.new.limit) }
{
    match Ordered::build(alloc, problem, round.order.as_slice()) {
        Ok(ordered) => ordered_piece(alloc, &ordered, round, state, steps),
        Err(OrderFault::Memory) => Err(AllocError),
        Err(OrderFault::WrongOrder) => unreachable!(),
    }
}
