//! What is said of an open piece.

ghost use Rattle.std.specs.Prelude.{◌≡◌, ◌≤◌, Option, IfOk, option_map};
ghost use Rattle.county_codes.specs.Limits.{most_counties};
ghost use Rattle.connected_sets.specs.Graphs.{graph_order, graph_places, graph_problem, place_problem, IsGraph};
ghost use Rattle.certificate_data.specs.RoundValue.{round_of};
ghost use Rattle.certificate_laws.specs.State.{IsState};
ghost use Rattle.state_groups.specs.PlacedValues.{state_at, IsPlaced};
ghost use Rattle.search_groups.specs.PartLists.{AreListsOf};
ghost use Rattle.share_board.specs.Spelling.{HasFiveDigits};
ghost use Rattle.piece_states.specs.PieceValue.{piece_of};
ghost use Rattle.worker_texts.specs.RoundText.{RoundTold};
ghost use Rattle.piece_worker.specs.{Rounds.HoldsRound, Answers.{IsAnswer, IsAnswerIn, IsAnswerIfAny, IsAnswerAt, IsEndedAnswer}};

use crate::worker::{NumberedRound, Worker};
use board_report::piece_text;
use branch_bound::prove_piece_over;
use certificate_data::Round;
use connected_sets::CountyGraph;
use county_problem::Steps;
use piece_states::{OpenPiece, told_state};
use place_sets::CountySet;
use search_groups::PartLists;
use state_groups::State;
use std::alloc::{AllocError, Global};

/// Returns what is said of an open `piece` of the `round`, whose state is `state`.
fn answer_state<C: CountySet>(
    alloc: Global,
    graph: &CountyGraph<C>,
    round: &Round,
    piece: &OpenPiece,
    state: &State<C>,
    lists: &mut PartLists<C>,
    steps: u64,
) -> Result<Vec<u8>, AllocError>
    requires graph { IsGraph C.test C.PLACES graph.now }
    requires order { graph_order graph.now ≡ round.now.order }
    requires small { round.now.limit ≤ most_counties }
    requires codes { HasFiveDigits (graph_problem graph.now) }
    requires placed { IsPlaced (graph_places graph.now) C.test state.now }
    requires state { IsState (graph_problem graph.now) (round_of round.now)
        (state_at (graph_order graph.now) C.test state.now) }
    requires lists { AreListsOf C.test (place_problem graph.now) (graph_places graph.now) lists.old }
    ensures lists { AreListsOf C.test (place_problem graph.now) (graph_places graph.now) lists.new }
    ensures answer { IfOk result (λ text. IsAnswerAt (graph_problem graph.now) (round_of round.now)
        (state_at (graph_order graph.now) C.test state.now) piece.now.round piece.now.piece text.items) }
{
    let mut steps = Steps::new(steps);
    let counties = graph.ordered.places();
    let answer = prove_piece_over(graph, round, state, lists, &mut steps)?;
    piece_text(
        alloc,
        answer,
        piece.round,
        piece.piece,
        round.format,
        counties,
    )
}

/// Returns what is said of an open `piece` of the `round`, or `None` if it isn't one of the round.
fn answer_in<C: CountySet>(
    alloc: Global,
    graph: &CountyGraph<C>,
    round: &Round,
    piece: &OpenPiece,
    lists: &mut PartLists<C>,
    steps: u64,
) -> Result<Option<Vec<u8>>, AllocError>
    requires graph { IsGraph C.test C.PLACES graph.now }
    requires order { graph_order graph.now ≡ round.now.order }
    requires small { round.now.limit ≤ most_counties }
    requires codes { HasFiveDigits (graph_problem graph.now) }
    requires lists { AreListsOf C.test (place_problem graph.now) (graph_places graph.now) lists.old }
    ensures lists { AreListsOf C.test (place_problem graph.now) (graph_places graph.now) lists.new }
    ensures answer { IfOk result (λ found. IsAnswerIn (graph_problem graph.now) (round_of round.now)
        (piece_of piece.now) (option_map (λ t. t.items) found)) }
{
    let Some(state) = told_state(graph, round, piece)? else {
        return Ok(None);
    };
    let text = answer_state(alloc, graph, round, piece, &state, lists, steps)?;
    Ok(Some(text))
}

/// Returns what is said of an open `piece`, or `None` if it isn't one of the round that was told `last`.
fn answer_if_any<C: CountySet>(
    alloc: Global,
    graph: &CountyGraph<C>,
    last: &Option<NumberedRound>,
    piece: &OpenPiece,
    lists: &mut PartLists<C>,
    steps: u64,
) -> Result<Option<Vec<u8>>, AllocError>
    requires graph { IsGraph C.test C.PLACES graph.now }
    requires order { graph_order graph.now ≡ (graph_problem graph.now).counties }
    requires lists { AreListsOf C.test (place_problem graph.now) (graph_places graph.now) lists.old }
    requires round { (told : Option RoundTold) × HoldsRound (graph_problem graph.now) told last.now }
    ensures lists { AreListsOf C.test (place_problem graph.now) (graph_places graph.now) lists.new }
    ensures answer { (told : Option RoundTold) → HoldsRound (graph_problem graph.now) told last.now
        → IfOk result (λ found. IsAnswerIfAny (graph_problem graph.now) told (piece_of piece.now)
        (option_map (λ t. t.items) found)) }
{
    match last {
        Some(last) if last.number == piece.round => {
            answer_in(alloc, graph, &last.round, piece, lists, steps)
        }
        _ => Ok(None),
    }
}

/// Returns what is said of an open `piece`. It is the solver's answer at the state that is told, within `steps` steps,
/// or `no such piece` if the piece isn't one of the round that was told last.
///
/// The `graph` has its counties by ascending codes. It is the same at each call.
///
/// # Errors
///
/// Returns `AllocError` if memory was refused. The worker may then be used on.
pub fn answer_piece<C: CountySet>(
    alloc: Global,
    graph: &CountyGraph<C>,
    worker: &mut Worker<C>,
    piece: &OpenPiece,
    steps: u64,
) -> Result<Vec<u8>, AllocError>
    requires graph { IsGraph C.test C.PLACES graph.now }
    requires order { graph_order graph.now ≡ (graph_problem graph.now).counties }
    requires lists { AreListsOf C.test (place_problem graph.now) (graph_places graph.now) worker.old.lists }
    requires round { (last : Option RoundTold) × HoldsRound (graph_problem graph.now) last worker.old.last }
    ensures lists { AreListsOf C.test (place_problem graph.now) (graph_places graph.now) worker.new.lists }
    ensures last { worker.new.last ≡ worker.old.last }
    ensures reader { worker.new.reader ≡ worker.old.reader }
    ensures answer { (last : Option RoundTold) → HoldsRound (graph_problem graph.now) last worker.old.last
        → IfOk result (λ text. IsAnswer (graph_problem graph.now) last (piece_of piece.now) text.items) }
{
    match answer_if_any(alloc, graph, &worker.last, piece, &mut worker.lists, steps)? {
        Some(text) => Ok(text),
        None => Vec::from_slice(alloc, b"no such piece\n"),
    }
}

/// Returns what is written of an open `piece`: what `answer_piece` says of it, and then a line `end`.
///
/// # Errors
///
/// Returns `AllocError` if memory was refused. The worker may then be used on.
pub(crate) fn ended_answer<C: CountySet>(
    alloc: Global,
    graph: &CountyGraph<C>,
    worker: &mut Worker<C>,
    piece: &OpenPiece,
    steps: u64,
) -> Result<Vec<u8>, AllocError>
    requires graph { IsGraph C.test C.PLACES graph.now }
    requires order { graph_order graph.now ≡ (graph_problem graph.now).counties }
    requires lists { AreListsOf C.test (place_problem graph.now) (graph_places graph.now) worker.old.lists }
    requires round { (last : Option RoundTold) × HoldsRound (graph_problem graph.now) last worker.old.last }
    ensures lists { AreListsOf C.test (place_problem graph.now) (graph_places graph.now) worker.new.lists }
    ensures last { worker.new.last ≡ worker.old.last }
    ensures reader { worker.new.reader ≡ worker.old.reader }
    ensures answer { (last : Option RoundTold) → HoldsRound (graph_problem graph.now) last worker.old.last
        → IfOk result (λ text. IsEndedAnswer (graph_problem graph.now) last (piece_of piece.now) text.items) }
{
    let mut text = answer_piece(alloc, graph, worker, piece, steps)?;
    text.extend_from_slice(b"end\n")?;
    Ok(text)
}
