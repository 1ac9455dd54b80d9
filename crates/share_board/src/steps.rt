//! The parts of an opening: the share of the budget, a piece, the branch at a state, and the tree built from them.

ghost use Rattle.std.specs.Prelude.{◌≡◌, ℕ, ◌*◌, ◌+◌, ◌++◌, ◌∷◌, [], ◌<◌, ◌≤◌, ◌⊎◌, None, length, IfOk, IfErr, OnOk, IsErrOf, MatchOption};
ghost use Rattle.connected_sets.specs.{Graphs.{graph_order, graph_places}, declared.stop.Stop.Stop};
ghost use Rattle.partial_trees.specs.PartialValue.{partial_of, list_of_begun};
ghost use Rattle.partial_trees.specs.declared.tree.PartialTake.{roll-PartialTake};
ghost use Rattle.state_groups.specs.PlacedValues.{codes_of_set, IsPlaced};
ghost use Rattle.county_problem.specs.OrderedValue.{code_at};
ghost use Rattle.certificate_data.specs.declared.format.Format.TheVariants.{Plain};
ghost use Rattle.board_laws.specs.PartialTrees.{begun};
ghost use Rattle.share_board.specs.Replies.{most_opening};
ghost use Rattle.share_board.specs.Openings.{IsOpened, StatesAreKept, board_problem, board_round, board_state, IsOpeningInput, NoneIsOpen, IsBranching, IsBelowLine, IsHalted};

use crate::input::OpeningInput;
use crate::parts::open_place;
use crate::stop::OpeningStop;
use connected_sets::Stop;
use county_problem::Steps;
use partial_trees::{PartialBranch, PartialTake, PartialTree};
use place_sets::CountySet;
use state_groups::{State, open_places};
use state_judge::{Branching, LineStop, judge_branch};
use std::alloc::{AllocError, Global};

/// Returns how many steps each branch of an opening of `depth` branchings may cost. It is the greatest number with
/// which all the branches together cost at most `budget`, the steps that one event may cost.
pub(crate) fn share_of(budget: u64, depth: u8) -> u64
    ensures greatest { (k : ℕ) → 1 ≤ depth → result < k → budget < k * (depth * (most_opening + 1)) }
    ensures within { result * (depth * (most_opening + 1)) ≤ budget }
{
    budget / (u64::from(depth).max(1) * 4_097)
}

/// Appends `state` to `states`.
fn keep_state<C: CountySet>(state: State<C>, states: &mut Vec<State<C>>) -> Result<(), AllocError>
    ensures { OnOk result (states.new.items ≡ states.old.items ++ state ∷ []) }
{
    states.push(state)?;
    Ok(())
}

/// Puts a piece at `state`, behind the others, and returns the tree that is its place.
pub(crate) fn place_piece<C: CountySet>(
    input: &OpeningInput<C>,
    depth: u8,
    state: State<C>,
    states: &mut Vec<State<C>>,
) -> Result<PartialTree, OpeningStop>
    requires input { IsOpeningInput C.PLACES C.test input.now }
    requires placed { IsPlaced (graph_places input.now.graph.now) C.test state }
    requires ends { (depth ≡ 0) ⊎ NoneIsOpen (board_round input.now) (board_state input.now C.test state) }
    ensures opened { IfOk
        result
        (λ tree. IsOpened C.test (board_problem input.now) (board_round input.now) depth (board_state input.now C.test state) (partial_of tree) (length states.old.items) (length states.new.items) states.new.items) }
    ensures kept { IfOk result (λ _. StatesAreKept input.now.round.now.order C.test states.old.items states.new.items) }
    ensures few { IfOk result (λ _. length states.new.items ≤ most_opening) }
    ensures stopped { IfErr
        result
        (IsHalted (board_problem input.now) (board_round input.now) input.now.share depth (board_state input.now C.test state) (length states.old.items)) }
{
    if states.len() >= 4_096 {
        return Err(OpeningStop::TooManyPieces);
    }
    keep_state(state, states)?;
    Ok(open_place(input.graph.alloc))
}

/// Returns the branch of a plain round at `state`, or `None` if no county is open.
///
/// The branch stands at the first open county, where no branch is at fault.
///
/// # Errors
///
/// Returns `StepLimit` if the share of the branch is below what it costs, and `Memory` if memory was refused.
pub(crate) fn next_branch<C: CountySet>(
    input: &OpeningInput<C>,
    state: &State<C>,
) -> Result<Option<Branching<C>>, Stop>
    requires input { IsOpeningInput C.PLACES C.test input.now }
    requires plain { input.now.round.now.format ≡ Plain }
    requires placed { IsPlaced (graph_places input.now.graph.now) C.test state.now }
    ensures branch { IfOk
        result
        (λ found. MatchOption found (NoneIsOpen (board_round input.now) (board_state input.now C.test state.now)) (IsBranching C.test input.now state.now)) }
    ensures stopped { IsErrOf result Stop.StepLimit
        → IsBelowLine (board_problem input.now) (board_round input.now) input.now.share }
{
    let Ok(open) = open_places(input.graph.alloc, state, input.round.limit) else {
        return Err(Stop::Memory);
    };
    let Some(first) = open.next(0) else {
        return Ok(None);
    };
    let mut steps = Steps::new(input.share);
    match judge_branch(
        input.graph,
        input.round,
        state,
        input.graph.ordered.code(first),
        None,
        &mut steps,
    ) {
        Ok(branching) => Ok(Some(branching)),
        Err(LineStop::StepLimit) => Err(Stop::StepLimit),
        Err(_) => Err(Stop::Memory),
    }
}

/// Appends the take of `group`, with its `tree`, to `takes`.
pub(crate) fn put_take<C: CountySet>(
    input: &OpeningInput<C>,
    group: &C,
    tree: PartialTree,
    takes: &mut Vec<PartialTake>,
) -> Result<(), AllocError>
    requires fits { graph_places input.now.graph.now ≤ C.PLACES }
    ensures { OnOk
        result
        (takes.new.items ≡ takes.old.items ++ roll-PartialTake (record { codes = codes_of_set (graph_order input.now.graph.now) C.test group.now; tree = tree }) ∷ []) }
{
    let codes = input.graph.ordered.codes_of(input.graph.alloc, group)?;
    takes.push(PartialTake { codes, tree })?;
    Ok(())
}

/// Returns the branch with these `takes` at the county at `place`, in front of `raised`, the tree for the state where
/// that county is raised.
pub(crate) fn branched<C: CountySet>(
    input: &OpeningInput<C>,
    place: u16,
    takes: Vec<PartialTake>,
    raised: PartialTree,
) -> Result<PartialTree, AllocError>
    requires place { place < graph_places input.now.graph.now }
    ensures { IfOk result (λ tree. partial_of tree
        ≡ begun (code_at (graph_order input.now.graph.now) place) None (list_of_begun takes.items) (partial_of raised)) }
{
    let PartialTree {
        branches: mut more,
        rest,
    } = raised;
    let mut branches = Vec::new(input.graph.alloc);
    branches.push(PartialBranch {
        county: input.graph.ordered.code(place),
        limit: None,
        takes,
    })?;
    branches.append(&mut more)?;
    Ok(PartialTree { branches, rest })
}
