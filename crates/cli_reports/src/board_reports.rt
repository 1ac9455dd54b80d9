//! What `share` and `piece` say.

ghost use Rattle.std.specs.Prelude.{◌≡◌, ◌≤◌, min, Some, None, Option, Ok, Err, IfOk, IfErr, IfSome, map};
ghost use Rattle.certificate_lines.specs.Lines.{most};
ghost use Rattle.county_problem.specs.ProblemValue.{problem_of};
ghost use Rattle.share_board.specs.Events.{event_of};
ghost use Rattle.branch_bound.specs.declared.piece_answer.PieceAnswer.{PieceAnswer as PieceAnswerValue};
ghost use Rattle.board_report.specs.{PieceText.HasText, PieceAnswers.{IsAnswered, piece_budget}, BoardOutcome.IsShared};
ghost use Rattle.cli_answers.specs.Answers.{answer_of};
ghost use Rattle.run_laws.specs.BoardSteps.{format_of, depth_of, limit_of_words, AnswersOnBoard};
ghost use Rattle.run_laws.specs.PieceSteps.{no_such_piece, piece_said, piece_status};
ghost use Rattle.branch_bound.specs.Resuming.{longest as longest_of};

use board_report::{BoardShape, Shared, piece_text, prove_waiting, share};
use branch_bound::PieceAnswer;
use certificate_data::Format;
use cli_answers::{RunAnswer, RunOutcome};
use cli_words::{PieceWords, RoundWords};
use county_codes::{Group, Grouping};
use county_problem::Problem;
use share_board::{BoardFault, Event};
use std::alloc::{AllocError, Global};

/// Returns the format of the rounds that `words` give.
pub fn format_for(words: RoundWords) -> Format
    ensures { result ≡ format_of words }
{
    match words {
        RoundWords::Plain { .. } => Format::Plain,
        RoundWords::Wide { .. } => Format::Wide,
    }
}

/// Returns how many counties the longest of `groups` has, from 1 to 65,535.
fn longest(groups: &[Group]) -> u16
    ensures { result ≡ min (longest_of groups.now) 65535 }
{
    let mut most: usize = 1;
    for group in groups {
        most = most.max(group.codes.as_slice().len());
    }
    most.min(65_535) as u16
}

/// Returns the format, the limit and the depth of the board's first round, as `words` give them. The depth of a wide
/// round is 0. If `words` give it no limit, the limit is the number of counties of the longest group of `grouping`,
/// from 1 to 65,535.
pub fn shape_for(words: RoundWords, grouping: &Grouping) -> BoardShape
    ensures format { result.format ≡ format_of words }
    ensures limit { result.limit ≡ limit_of_words grouping.now.groups.items words }
    ensures depth { result.depth ≡ depth_of words }
{
    let (limit, depth) = match words {
        RoundWords::Plain { limit, depth } => (limit, depth),
        RoundWords::Wide { limit: Some(limit) } => (limit, 0),
        RoundWords::Wide { limit: None } => (longest(&grouping.groups), 0),
    };
    BoardShape {
        format: format_for(words),
        limit,
        depth,
    }
}

/// Returns what a board comes to once it has taken `events` in turn. Its target is `grouping`, and its first round is
/// that of `words`.
///
/// # Errors
///
/// Returns the first fault that stands if there is no such board. Returns `Memory` if memory was refused.
pub fn share_events(
    alloc: Global,
    problem: &Problem,
    grouping: &Grouping,
    words: RoundWords,
    events: Vec<Event>,
    budget: u64,
) -> Result<Shared, BoardFault>
    ensures shared { IfOk
        result
        (λ s. AnswersOnBoard problem.now grouping.now.groups.items words budget (λ round. IsShared (problem_of problem.now) (depth_of words) budget round (map event_of events.items)) (Ok s)) }
    ensures fault { IfErr
        result
        (λ fault. AnswersOnBoard problem.now grouping.now.groups.items words budget (λ round. IsShared (problem_of problem.now) (depth_of words) budget round (map event_of events.items)) (Err fault)) }
{
    let shape = shape_for(words, grouping);
    share(alloc, problem, grouping, shape, events, budget)
}

/// Returns what a run comes to that gives this `answer`.
fn piece_outcome(answer: &PieceAnswer) -> RunOutcome {
    match answer {
        PieceAnswer::Proved(_) | PieceAnswer::Better(_) | PieceAnswer::Wider(_) => RunOutcome::Done,
        PieceAnswer::Open(part) => RunOutcome::PieceOpen(part.is_some()),
    }
}

/// Returns the exit status for this `answer`: 3 if the steps ran out, else 0.
fn status_of(answer: &PieceAnswer) -> u8
    ensures { result ≡ piece_status answer.now }
{
    match answer {
        PieceAnswer::Proved(_) | PieceAnswer::Better(_) | PieceAnswer::Wider(_) => 0,
        PieceAnswer::Open(_) => 3,
    }
}

/// Returns what is said of the `answer` to a piece, on a board of this number of `counties`.
fn report_piece(
    alloc: Global,
    words: PieceWords<'_>,
    counties: u16,
    answer: PieceAnswer,
) -> Result<RunAnswer, AllocError>
    requires few { counties ≤ most }
    requires text { HasText (format_of words.board.round) counties words.number answer }
    ensures { IfOk result (λ a. answer_of a ≡ piece_said words.entry.round words.entry.number (Some answer)) }
{
    let format = format_for(words.board.round);
    let outcome = piece_outcome(&answer);
    let status = status_of(&answer);
    let text = piece_text(alloc, answer, words.round, words.number, format, counties)?;
    Ok(RunAnswer {
        text,
        status,
        outcome,
        subject: None,
    })
}

/// Returns what is said if no piece of the number waits.
fn report_none(alloc: Global) -> Result<RunAnswer, AllocError>
    ensures { IfOk result (λ a. answer_of a ≡ no_such_piece) }
{
    RunAnswer::new(alloc, b"no such piece\n", 4, RunOutcome::NoSuchPiece)
}

/// Returns what is said of the piece whose number `words` give. `answer` is `None` if that piece doesn't wait.
fn report_answer(
    alloc: Global,
    words: PieceWords<'_>,
    counties: u16,
    answer: Option<PieceAnswer>,
) -> Result<RunAnswer, AllocError>
    requires few { counties ≤ most }
    requires text { IfSome answer (HasText (format_of words.board.round) counties words.number) }
    ensures { IfOk result (λ a. answer_of a ≡ piece_said words.entry.round words.entry.number answer) }
{
    match answer {
        Some(found) => report_piece(alloc, words, counties, found),
        None => report_none(alloc),
    }
}

/// Returns what `piece` says: the solver's answer to the piece whose number `words` give, with at most their number of
/// steps. The piece is that of a board which has taken `events` in turn. The board's target is `grouping`, and its
/// first round is that of `words`.
///
/// # Errors
///
/// Returns the first fault that stands if there is no such board. Returns `Memory` if memory was refused.
pub fn piece_and_report(
    alloc: Global,
    problem: &Problem,
    grouping: &Grouping,
    words: PieceWords<'_>,
    events: Vec<Event>,
) -> Result<RunAnswer, BoardFault>
    ensures said { IfOk
        result
        (λ a. (answer : Option PieceAnswerValue)
        × AnswersOnBoard problem.now grouping.now.groups.items words.entry.board.round piece_budget (λ round. IsAnswered (problem_of problem.now) (depth_of words.entry.board.round) round (map event_of events.items) words.entry.number) (Ok answer)
        × (answer_of a ≡ piece_said words.entry.round words.entry.number answer)) }
    ensures fault { IfErr
        result
        (λ fault. AnswersOnBoard problem.now grouping.now.groups.items words.entry.board.round piece_budget (λ round. IsAnswered (problem_of problem.now) (depth_of words.entry.board.round) round (map event_of events.items) words.entry.number) (Err fault)) }
{
    let shape = shape_for(words.board.round, grouping);
    let counties = problem.counties().len() as u16;
    match prove_waiting(
        alloc,
        problem,
        grouping,
        shape,
        events,
        words.number,
        words.steps,
    ) {
        Ok(answer) => match report_answer(alloc, words, counties, answer) {
            Ok(said) => Ok(said),
            Err(AllocError) => Err(BoardFault::Memory),
        },
        Err(fault) => Err(fault),
    }
}
