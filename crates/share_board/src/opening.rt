//! How a round begins: the branches above its pieces, and the states where the pieces stand.

ghost use Rattle.std.specs.Prelude.{◌≡◌, ◌-◌, ◌≤◌, All, length, IfOk, IfErr};
ghost use Rattle.county_codes.specs.Limits.{most_counties};
ghost use Rattle.connected_sets.specs.Graphs.{graph_order, graph_places, graph_problem, IsGraph};
ghost use Rattle.partial_trees.specs.PartialValue.{partial_of, list_of_begun};
ghost use Rattle.state_groups.specs.PlacedValues.{codes_of_sets, IsPlaced, IsClosable};
ghost use Rattle.certificate_data.specs.{declared.format.Format.TheVariants.Plain, RoundValue.round_of};
ghost use Rattle.certificate_laws.specs.State.{empty_state};
ghost use Rattle.share_board.specs.Replies.{most_opening};
ghost use Rattle.share_board.specs.Openings.{AllWait, IsOpened, AreOpened, StatesAreKept, board_problem, board_round, board_state, IsOpeningInput, IsBranching, IsHalted, AreHalted, IsOpeningStop};

use crate::changing::waiting;
use crate::input::OpeningInput;
use crate::piece::Fate;
use crate::steps::{branched, next_branch, place_piece, put_take, share_of};
use crate::stop::OpeningStop;
use certificate_data::Round;
use connected_sets::CountyGraph;
use partial_trees::{PartialTake, PartialTree};
use place_sets::CountySet;
use state_groups::{State, closed_state, first_state, raise_place};
use state_judge::Branching;

/// What a round begins with: the branches above its pieces, the pieces, which all wait, and the states where they
/// stand.
#[derive(Drop)]
pub(crate) struct Opening<C> {
    pub(crate) above: PartialTree,
    pub(crate) fates: Vec<Fate>,
    pub(crate) states: Vec<State<C>>,
}

/// Returns the takes of a branch: for each of the `groups`, the tree for the state where it is closed.
#[cycle(opening)]
fn open_takes<C: CountySet>(
    input: &OpeningInput<C>,
    depth: u8,
    state: &State<C>,
    groups: &[C],
    states: &mut Vec<State<C>>,
) -> Result<Vec<PartialTake>, OpeningStop>
    requires input { IsOpeningInput C.PLACES C.test input.now }
    requires plain { input.now.round.now.format ≡ Plain }
    requires placed { IsPlaced (graph_places input.now.graph.now) C.test state.now }
    requires groups { All (IsClosable C.test state.now) groups.now }
    requires few { length states.old.items ≤ most_opening }
    ensures opened { IfOk
        result
        (λ takes. AreOpened C.test (board_problem input.now) (board_round input.now) depth (board_state input.now C.test state.now) (codes_of_sets (graph_order input.now.graph.now) C.test groups.now) (list_of_begun takes.items) (length states.old.items) (length states.new.items) states.new.items) }
    ensures kept { IfOk result (λ _. StatesAreKept input.now.round.now.order C.test states.old.items states.new.items) }
    ensures few { IfOk result (λ _. length states.new.items ≤ most_opening) }
    ensures stopped { IfErr
        result
        (AreHalted (board_problem input.now) (board_round input.now) input.now.share depth (board_state input.now C.test state.now) (codes_of_sets (graph_order input.now.graph.now) C.test groups.now) (length states.old.items)) }
{
    let mut takes = Vec::new(input.graph.alloc);
    'taking: for group in groups {
        let closed = closed_state(input.graph.alloc, input.graph.ordered, state, group)?;
        let tree = match open_tree(input, depth, closed, states) {
            Ok(tree) => tree,
            Err(stop) => return Err(stop),
        };
        put_take(input, group, tree, &mut takes)?;
    }
    Ok(takes)
}

/// Returns the tree of `branching` at `state`: its takes, and then the tree for the state where its county is raised.
/// The branching is the first of at most `depth`. The states of new pieces are appended to `states`.
#[cycle(opening)]
fn open_branch<C: CountySet>(
    input: &OpeningInput<C>,
    depth: u8,
    state: State<C>,
    branching: &Branching<C>,
    states: &mut Vec<State<C>>,
) -> Result<PartialTree, OpeningStop>
    requires input { IsOpeningInput C.PLACES C.test input.now }
    requires plain { input.now.round.now.format ≡ Plain }
    requires some { 1 ≤ depth }
    requires placed { IsPlaced (graph_places input.now.graph.now) C.test state }
    requires branching { IsBranching C.test input.now state branching.now }
    requires few { length states.old.items ≤ most_opening }
    ensures opened { IfOk
        result
        (λ tree. IsOpened C.test (board_problem input.now) (board_round input.now) depth (board_state input.now C.test state) (partial_of tree) (length states.old.items) (length states.new.items) states.new.items) }
    ensures kept { IfOk result (λ _. StatesAreKept input.now.round.now.order C.test states.old.items states.new.items) }
    ensures few { IfOk result (λ _. length states.new.items ≤ most_opening) }
    ensures stopped { IfErr
        result
        (IsHalted (board_problem input.now) (board_round input.now) input.now.share depth (board_state input.now C.test state) (length states.old.items)) }
{
    let takes = match open_takes(input, depth - 1, &state, &branching.groups, states) {
        Ok(takes) => takes,
        Err(stop) => return Err(stop),
    };
    let mut state = state;
    raise_place(
        input.graph.ordered,
        &mut state,
        branching.place,
        input.round.limit,
    );
    let raised = match open_tree(input, depth - 1, state, states) {
        Ok(tree) => tree,
        Err(stop) => return Err(stop),
    };
    Ok(branched(input, branching.place, takes, raised)?)
}

/// Returns the tree of `depth` branchings at `state`, or of fewer where no county is open any more. The pieces of the
/// tree stand behind the others.
///
/// The recursion goes as deep as twice the branchings.
#[cycle(opening)]
fn open_tree<C: CountySet>(
    input: &OpeningInput<C>,
    depth: u8,
    state: State<C>,
    states: &mut Vec<State<C>>,
) -> Result<PartialTree, OpeningStop>
    requires input { IsOpeningInput C.PLACES C.test input.now }
    requires plain { 1 ≤ depth → input.now.round.now.format ≡ Plain }
    requires placed { IsPlaced (graph_places input.now.graph.now) C.test state }
    requires few { length states.old.items ≤ most_opening }
    ensures opened { IfOk
        result
        (λ tree. IsOpened C.test (board_problem input.now) (board_round input.now) depth (board_state input.now C.test state) (partial_of tree) (length states.old.items) (length states.new.items) states.new.items) }
    ensures kept { IfOk result (λ _. StatesAreKept input.now.round.now.order C.test states.old.items states.new.items) }
    ensures few { IfOk result (λ _. length states.new.items ≤ most_opening) }
    ensures stopped { IfErr
        result
        (IsHalted (board_problem input.now) (board_round input.now) input.now.share depth (board_state input.now C.test state) (length states.old.items)) }
{
    if depth == 0 {
        return place_piece(input, depth, state, states);
    }
    match next_branch(input, &state) {
        Ok(None) => place_piece(input, depth, state, states),
        Ok(Some(branching)) => open_branch(input, depth, state, &branching, states),
        Err(stop) => Err(OpeningStop::from(stop)),
    }
}

/// Returns how `round` begins: with the states after `depth` branchings from the empty state, or earlier where no
/// county is open. The `graph` is by the order of `round`.
///
/// # Errors
///
/// Returns `TooManyPieces` if there would be more than 4,096 pieces, `Budget` if a branch costs more than its share of
/// `budget`, and `Memory` if memory was refused.
pub(crate) fn opened<C: CountySet>(
    graph: &CountyGraph<C>,
    round: &Round,
    depth: u8,
    budget: u64,
) -> Result<Opening<C>, OpeningStop>
    requires graph { IsGraph C.test C.PLACES graph.now }
    requires order { graph_order graph.now ≡ round.now.order }
    requires small { round.now.limit ≤ most_counties }
    requires plain { 1 ≤ depth → round.now.format ≡ Plain }
    ensures opened { IfOk
        result
        (λ opening. IsOpened C.test (graph_problem graph.now) (round_of round.now) depth (empty_state (graph_problem graph.now)) (partial_of opening.above) 0 (length opening.states.items) opening.states.items) }
    ensures few { IfOk result (λ opening. length opening.states.items ≤ most_opening) }
    ensures count { IfOk result (λ opening. length opening.fates.items ≡ length opening.states.items) }
    ensures wait { IfOk result (λ opening. AllWait opening.fates.items 0 (length opening.states.items)) }
    ensures stopped { IfErr result (IsOpeningStop (graph_problem graph.now) depth budget (round_of round.now)) }
{
    let state = first_state(graph.alloc, graph.ordered)?;
    let input = OpeningInput {
        graph,
        round,
        share: share_of(budget, depth),
    };
    let mut states = Vec::new(graph.alloc);
    let above = match open_tree(&input, depth, state, &mut states) {
        Ok(tree) => tree,
        Err(stop) => return Err(stop),
    };
    let fates = waiting(graph.alloc, states.len())?;
    Ok(Opening {
        above,
        fates,
        states,
    })
}
