//! The state that is told of an open piece.

ghost use Rattle.std.specs.Prelude.{◌≡◌, None, IfOk, IfSome};
ghost use Rattle.connected_sets.specs.Graphs.{graph_problem, graph_order, graph_places, IsGraph};
ghost use Rattle.certificate_data.specs.RoundValue.{round_of};
ghost use Rattle.certificate_laws.specs.State.{IsState};
ghost use Rattle.state_groups.specs.PlacedValues.{state_at, IsPlaced};
ghost use Rattle.piece_states.specs.{Told.state_told, PieceValue.told_by, RoundStates.IsTold};

use crate::closing::close_told;
use crate::piece::OpenPiece;
use crate::raising::raise_all_told;
use certificate_data::Round;
use connected_sets::CountyGraph;
use place_sets::CountySet;
use state_groups::{State, first_state};
use std::alloc::AllocError;

/// Returns the state that is told of the `piece`, or `None` if it isn't a state of the `round`.
///
/// It is one if these tests hold. Each closed group fits where those before it are closed. It has at most the round's
/// limit of counties, and its codes stand in the order of the `graph`. Then each county that asks is in the rest. It
/// asks for a size of the round: in a plain round for one more than the limit, in a wide one for any from 1 on.
///
/// # Errors
///
/// Returns an error if memory was refused.
pub fn told_state<C: CountySet>(
    graph: &CountyGraph<C>,
    round: &Round,
    piece: &OpenPiece,
) -> Result<Option<State<C>>, AllocError>
    requires graph { IsGraph C.test C.PLACES graph.now }
    ensures placed { IfOk result (λ found. IfSome found (IsPlaced (graph_places graph.now) C.test)) }
    ensures state { IfOk result (λ found. IfSome found (λ s. IsState (graph_problem graph.now)
        (round_of round.now) (state_at (graph_order graph.now) C.test s))) }
    ensures value { IfOk result (λ found. IfSome found (λ s. state_at (graph_order graph.now) C.test s
        ≡ state_told (graph_problem graph.now) (told_by piece.now))) }
    ensures told { IfOk result (λ found. IfSome found (λ _. IsTold (graph_problem graph.now)
        (graph_order graph.now) (round_of round.now) (told_by piece.now))) }
    ensures none { IfOk result (λ found. found ≡ None → ¬ IsTold (graph_problem graph.now)
        (graph_order graph.now) (round_of round.now) (told_by piece.now)) }
{
    let first = first_state(graph.alloc, graph.ordered)?;
    let Some(closed) = close_told(graph, round, first, &piece.closed)? else {
        return Ok(None);
    };
    Ok(raise_all_told(graph.ordered, round, closed, &piece.asked))
}
