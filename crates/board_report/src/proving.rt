//! What a solver answers for a piece that waits.

ghost use Rattle.std.specs.Prelude.{◌≡◌, ℕ, ◌≤◌, length, map, IfOk, IfSome, MatchResult};
ghost use Rattle.county_problem.specs.ProblemValue.{problem_of};
ghost use Rattle.certificate_data.specs.Round.{Round as RoundValue};
ghost use Rattle.certificate_data.specs.RoundValue.{round_of};
ghost use Rattle.board_laws.specs.Content.{Content};
ghost use Rattle.share_board.specs.{BoardValue.{IsOf, IsBoardGraph}, Events.event_of, Rounds.IsBoardFault};
ghost use Rattle.board_report.specs.PieceText.{HasText};
ghost use Rattle.board_report.specs.PieceAnswers.{IsAnswerAt, IsAnswered, IsStateHeld, piece_budget};
ghost use Rattle.board_report.specs.Rounds.{IsFirstRound};

use crate::opening::{opened_board, ordered_by_code};
use crate::shape::BoardShape;
use crate::taking::take_all;
use branch_bound::{PieceAnswer, prove_piece};
use connected_sets::CountyGraph;
use county_codes::Grouping;
use county_problem::{Problem, Steps};
use place_sets::{CountySet, MaskSet, WideSet, fits_mask};
use search_groups::PartLists;
use share_board::{Board, BoardFault, Event, Reply};
use state_groups::State;
use std::alloc::{AllocError, Global};

/// The steps that an event may cost on the board of a piece.
const PIECE_BUDGET: u64 = 10_000_000;

/// Returns the state of the piece with this `number`, by places of the board's order. Returns `None` if the piece
/// doesn't wait. The `graph` is that of the board.
///
/// # Errors
///
/// Returns an error if memory was refused.
pub(crate) fn waiting_state<C: CountySet>(
    graph: &CountyGraph<C>,
    board: &Board<C>,
    number: u32,
) -> Result<Option<State<C>>, AllocError>
    requires board { (b : Content) × IsOf C.test board.now b }
    requires ordered { IsBoardGraph board.now graph.now }
    ensures { (b : Content) → IsOf C.test board.now b → IfOk result (IsStateHeld C.test board.now b number) }
{
    match board.hand(graph, number) {
        Reply::Piece(_, piece, state) => {
            if piece != number {
                return Ok(None);
            }
            Ok(Some(state))
        }
        Reply::NothingLeft => Ok(None),
        _ => Err(AllocError),
    }
}

/// Returns what a solver answers for the piece with this `number`, within `steps` steps. Returns `None` if the piece
/// doesn't wait.
fn answer_at<C: CountySet>(
    graph: &CountyGraph<C>,
    problem: &Problem,
    board: &Board<C>,
    number: u32,
    steps: u64,
) -> Result<Option<PieceAnswer>, AllocError>
    requires board { (b : Content) × IsOf C.test board.now b }
    requires problem { board.now.problem ≡ problem.now }
    requires fits { length board.now.round.order ≤ C.PLACES }
    requires ordered { IsBoardGraph board.now graph.now }
    ensures answer { (b : Content) → IsOf C.test board.now b
        → IfOk result (IsAnswerAt (problem_of problem.now) b number) }
    ensures text { IfOk result (λ r. IfSome r (HasText board.now.round.format (length board.now.round.order) number)) }
{
    let Some(state) = waiting_state(graph, board, number)? else {
        return Ok(None);
    };
    let mut steps = Steps::new(steps);
    let answer = prove_piece(
        graph.alloc,
        problem,
        board.proof_round(),
        &state,
        &mut steps,
    )?;
    Ok(Some(answer))
}

/// Returns what `prove_waiting` returns for the piece `number`, with any form of sets of places that has room for the
/// counties of `problem`.
fn prove_over<C: CountySet>(
    alloc: Global,
    problem: &Problem,
    grouping: &Grouping,
    shape: BoardShape,
    events: Vec<Event>,
    number: u32,
    steps: u64,
) -> Result<Option<PieceAnswer>, BoardFault>
    requires { length problem.now.counties ≤ C.PLACES }
    ensures answer { (round : RoundValue)
        × IsFirstRound (problem_of problem.now) grouping.now.groups.items shape.limit shape.format round
        × MatchResult
        result
        (IsAnswered (problem_of problem.now) shape.depth round (map event_of events.items) number)
        (IsBoardFault (problem_of problem.now) shape.depth piece_budget grouping.now.groups.items round) }
    ensures text { IfOk result (λ r. IfSome r (HasText shape.format (length problem.now.counties) number)) }
{
    let mut board: Board<C> = opened_board(alloc, problem, grouping, shape, PIECE_BUDGET)?;
    let ordered = ordered_by_code(alloc, problem)?;
    let graph = CountyGraph::build(alloc, &ordered)?;
    let mut lists = PartLists::new(alloc);
    take_all(&graph, &mut board, &mut lists, events)?;
    Ok(answer_at(&graph, problem, &board, number, steps)?)
}

/// Returns what a solver answers, within `steps` steps, for the piece with this `number`, once a board has taken the
/// `events` in turn. Returns `None` if that piece doesn't wait.
///
/// The board's first target is `grouping`, and its order is that of ascending codes. One event may cost 10,000,000
/// steps.
///
/// # Errors
///
/// Returns the first fault that applies if there is no board. Returns `Memory` if memory was refused, also if it was
/// refused to an event.
pub fn prove_waiting(
    alloc: Global,
    problem: &Problem,
    grouping: &Grouping,
    shape: BoardShape,
    events: Vec<Event>,
    number: u32,
    steps: u64,
) -> Result<Option<PieceAnswer>, BoardFault>
    ensures answer { (round : RoundValue)
        × IsFirstRound (problem_of problem.now) grouping.now.groups.items shape.limit shape.format round
        × MatchResult
        result
        (IsAnswered (problem_of problem.now) shape.depth round (map event_of events.items) number)
        (IsBoardFault (problem_of problem.now) shape.depth piece_budget grouping.now.groups.items round) }
    // A text spells the event that gives the answer to the board.
    ensures text { IfOk result (λ r. IfSome r (HasText shape.format (length problem.now.counties) number)) }
{
    if fits_mask(problem.counties().len()) {
        return prove_over::<MaskSet>(alloc, problem, grouping, shape, events, number, steps);
    }
    prove_over::<WideSet>(alloc, problem, grouping, shape, events, number, steps)
}
