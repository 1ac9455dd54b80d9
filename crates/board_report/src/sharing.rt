//! What a board comes to by a list of events.

ghost use Rattle.std.specs.Prelude.{◌≡◌, ℕ, ◌≤◌, length, map, MatchResult};
ghost use Rattle.county_problem.specs.ProblemValue.{problem_of};
ghost use Rattle.certificate_data.specs.Round.{Round as RoundValue};
ghost use Rattle.share_board.specs.{Events.event_of, Rounds.IsBoardFault};
ghost use Rattle.board_report.specs.{Rounds.IsFirstRound, BoardOutcome.IsShared};

use crate::board_outcome::Shared;
use crate::ending::ended;
use crate::opening::{opened_board, ordered_by_code};
use crate::shape::BoardShape;
use crate::taking::take_and_tell;
use connected_sets::CountyGraph;
use county_codes::Grouping;
use county_problem::Problem;
use place_sets::{CountySet, MaskSet, WideSet, fits_mask};
use search_groups::PartLists;
use share_board::{Board, BoardFault, Event};
use std::alloc::Global;

/// Returns what `share` returns for the list of `events`, with any form of sets of places that has room for the
/// counties of `problem`.
fn share_over<C: CountySet>(
    alloc: Global,
    problem: &Problem,
    grouping: &Grouping,
    shape: BoardShape,
    events: Vec<Event>,
    budget: u64,
) -> Result<Shared, BoardFault>
    requires { length problem.now.counties ≤ C.PLACES }
    ensures { (round : RoundValue)
        × IsFirstRound (problem_of problem.now) grouping.now.groups.items shape.limit shape.format round
        × MatchResult
        result
        (IsShared (problem_of problem.now) shape.depth budget round (map event_of events.items))
        (IsBoardFault (problem_of problem.now) shape.depth budget grouping.now.groups.items round) }
{
    let mut board: Board<C> = opened_board(alloc, problem, grouping, shape, budget)?;
    let ordered = ordered_by_code(alloc, problem)?;
    let graph = CountyGraph::build(alloc, &ordered)?;
    let mut text = Vec::new(alloc);
    let mut lists = PartLists::new(alloc);
    take_and_tell(&graph, &mut board, &mut lists, events, &mut text)?;
    Ok(ended(alloc, &board, text)?)
}

/// Returns what a board comes to by a list of `events`: the text of its replies and of how it stands then, and the
/// certificate if no piece waits.
///
/// The board's first target is `grouping`, its order is that of ascending codes, and one event may cost `budget` steps.
/// If memory is refused to an event, its reply says so, and the next event follows.
///
/// # Errors
///
/// Returns the first fault that applies if there is no board. `Memory` may take the place of any answer.
pub fn share(
    alloc: Global,
    problem: &Problem,
    grouping: &Grouping,
    shape: BoardShape,
    events: Vec<Event>,
    budget: u64,
) -> Result<Shared, BoardFault>
    ensures { (round : RoundValue)
        × IsFirstRound (problem_of problem.now) grouping.now.groups.items shape.limit shape.format round
        × MatchResult
        result
        (IsShared (problem_of problem.now) shape.depth budget round (map event_of events.items))
        (IsBoardFault (problem_of problem.now) shape.depth budget grouping.now.groups.items round) }
{
    if fits_mask(problem.counties().len()) {
        return share_over::<MaskSet>(alloc, problem, grouping, shape, events, budget);
    }
    share_over::<WideSet>(alloc, problem, grouping, shape, events, budget)
}
