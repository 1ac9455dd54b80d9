//! The round that is told.

ghost use Rattle.std.specs.Prelude.{◌≡◌, ◌≤◌, Some, IfOk};
ghost use Rattle.certificate_lines.specs.Lines.{most};
ghost use Rattle.connected_sets.specs.Graphs.{graph_order, graph_problem, IsGraph};
ghost use Rattle.worker_texts.specs.TextValue.{round_told};
ghost use Rattle.piece_worker.specs.Rounds.{HoldsRound};

use crate::worker::NumberedRound;
use certificate_data::{Format, Round};
use connected_sets::CountyGraph;
use place_sets::CountySet;
use std::alloc::{AllocError, Global};
use worker_texts::RoundTold;

/// Returns the round that is `told`: a wide one, in the order of the `graph`, which is that of ascending codes.
pub(crate) fn numbered_round<C: CountySet>(
    alloc: Global,
    graph: &CountyGraph<C>,
    told: RoundTold,
) -> Result<NumberedRound, AllocError>
    requires graph { IsGraph C.test C.PLACES graph.now }
    requires order { graph_order graph.now ≡ (graph_problem graph.now).counties }
    requires small { told.limit ≤ most }
    ensures { IfOk result (λ round. HoldsRound (graph_problem graph.now) (Some (round_told told)) (Some round)) }
{
    Ok(NumberedRound {
        number: told.number,
        round: Round {
            order: graph.ordered.codes(alloc)?,
            limit: told.limit,
            target: Some(told.target),
            format: Format::Wide,
            tolerance: graph.ordered.problem().named_tolerance(),
        },
    })
}
