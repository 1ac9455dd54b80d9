//! The board of a command before its events, and the order of its counties.

ghost use Rattle.std.specs.Prelude.{◌≡◌, ℕ, ◌≤◌, length, IfOk, MatchResult};
ghost use Rattle.county_problem.specs.ProblemValue.{problem_of};
ghost use Rattle.board_laws.specs.Content.{Content};
ghost use Rattle.share_board.specs.{BoardValue.IsOf, Rounds.{IsOpening, IsBoardFault}};
ghost use Rattle.board_report.specs.Rounds.{IsFirstRound, round_by_code};

use crate::shape::BoardShape;
use county_codes::{Grouping, listed_codes};
use county_problem::{OrderFault, Ordered, Problem};
use place_sets::CountySet;
use share_board::{Board, BoardFault};
use std::alloc::{AllocError, Global};

/// Returns the counties of a `problem` in the order of ascending codes.
///
/// # Errors
///
/// Returns an error if memory was refused.
pub fn ordered_by_code<'a>(alloc: Global, problem: &'a Problem) -> Result<Ordered<'a>, AllocError>
    ensures { IfOk result (λ o. o ≡ record { problem = problem.now; order = (problem_of problem.now).counties }) }
{
    let order = listed_codes(alloc, problem.counties())?;
    match Ordered::build(alloc, problem, &order) {
        Ok(ordered) => Ok(ordered),
        Err(OrderFault::Memory) => Err(AllocError),
        Err(OrderFault::WrongOrder) => unreachable!(),
    }
}

/// Creates a board that no event has come to yet, for the proof that `target` is best. Its order is that of ascending
/// codes, and one event may cost `budget` steps.
///
/// # Errors
///
/// Returns the first fault that applies if there is no board. Returns `Memory` if memory was refused.
pub(crate) fn opened_board<C: CountySet>(
    alloc: Global,
    problem: &Problem,
    target: &Grouping,
    shape: BoardShape,
    budget: u64,
) -> Result<Board<C>, BoardFault>
    requires { length problem.now.counties ≤ C.PLACES }
    ensures first { IsFirstRound (problem_of problem.now) target.now.groups.items shape.limit shape.format (round_by_code (problem_of problem.now) target.now.groups.items shape.limit shape.format) }
    ensures board { MatchResult
        result
        (λ board. (b : Content)
        × IsOpening (problem_of problem.now) shape.depth (round_by_code (problem_of problem.now) target.now.groups.items shape.limit shape.format) b
        × IsOf C.test board b)
        (IsBoardFault (problem_of problem.now) shape.depth budget target.now.groups.items (round_by_code (problem_of problem.now) target.now.groups.items shape.limit shape.format)) }
    ensures problem { IfOk result (λ board. board.problem ≡ problem.now) }
    ensures depth { IfOk result (λ board. board.depth ≡ shape.depth) }
    ensures budget { IfOk result (λ board. board.budget ≡ budget) }
    ensures order { IfOk result (λ board. board.round.order ≡ (problem_of problem.now).counties) }
{
    let order = listed_codes(alloc, problem.counties())?;
    Board::new(
        alloc,
        problem,
        target,
        &order,
        shape.limit,
        shape.format,
        shape.depth,
        budget,
    )
}
