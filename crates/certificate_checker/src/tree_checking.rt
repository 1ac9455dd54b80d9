//! The verdict on a tree.

ghost use Rattle.std.specs.Prelude.{◌≡◌, ◌≤◌, IfOk, IsTrue};
ghost use Rattle.county_codes.specs.Limits.{most_counties};
ghost use Rattle.connected_sets.specs.Graphs.{graph_problem, graph_order, graph_places, place_problem, IsGraph};
ghost use Rattle.certificate_data.specs.{RoundValue.{round_of, target_of}, TreeValue.tree_of};
ghost use Rattle.certificate_data.specs.Tree.{Tree as TreeValue};
ghost use Rattle.certificate_lines.specs.{ItemReadings.tree_reading, Lines.most};
ghost use Rattle.certificate_laws.specs.State.{IsState};
ghost use Rattle.certificate_text.specs.{Ranges.AreTreeNumbers, TreeFault.lines_of_tree};
ghost use Rattle.checker_laws.specs.Verdict.{IsLawfulTarget};
ghost use Rattle.search_groups.specs.PartLists.{AreListsOf};
ghost use Rattle.state_groups.specs.PlacedValues.{state_at, IsPlaced};
ghost use Rattle.certificate_checker.specs.{Judging.{IsCheckInput, AreWanted}, Knowing.IsKnownAt};
ghost use Rattle.certificate_checker.specs.TreeAnswers.{IsTreeAnswer, IsTreeWithinBudget, IsBudgetedTreeAnswer, IsRightOfTrees, IsSaid};

use crate::certificate::wanted_counts;
use crate::feed::{Feed, Halt, first_fault};
use crate::input::CheckInput;
use crate::known::known_at;
use crate::tree::judge_tree;
use crate::verdict::TreeVerdict;
use certificate_data::{Format, Round, Tree};
use certificate_lines::{Items, TextFault};
use certificate_text::tree_lines;
use connected_sets::CountyGraph;
use county_problem::{Counts, Steps};
use place_sets::CountySet;
use search_groups::{PartLists, Position};
use state_groups::{State, copied_state};
use state_judge::CheckFault;
use std::alloc::{AllocError, Global};

/// Returns the verdict on a tree whose lines have no fault, from `judged`, the result of their judging. The stops that
/// a fault of the text gives never come here. Returns `AllocError` if memory was refused.
fn said_of(judged: Result<(), Halt>) -> Result<TreeVerdict, AllocError>
    ensures { IsSaid judged result }
{
    match judged {
        Ok(()) => Ok(TreeVerdict::Proof),
        Err(Halt::Fault(fault, _)) => Ok(TreeVerdict::Fault(fault)),
        Err(Halt::Budget) => Ok(TreeVerdict::Budget),
        Err(_) => Err(AllocError),
    }
}

/// Returns the fault that ends `lines`, those of a tree in this `format` for an order of `places` counties, or `None`
/// if there is none.
fn fault_in(
    alloc: Global,
    lines: &[u8],
    format: Format,
    places: u16,
) -> Result<Option<TextFault>, AllocError>
    requires { places ≤ most }
    ensures { IfOk result (λ fault. fault ≡ (tree_reading format places lines.now).fault) }
{
    let mut items = Items::of_tree(alloc, lines, format, places);
    first_fault(&mut items)
}

/// Returns the verdict on `lines` at `state`: their first fault, or else what their judging comes to.
fn check_lines<C: CountySet>(
    input: &CheckInput<C>,
    state: &mut State<C>,
    known: Option<Position<C>>,
    lists: &mut PartLists<C>,
    lines: &[u8],
    budget: u64,
) -> Result<TreeVerdict, AllocError>
    requires input { IsCheckInput C.PLACES C.test input.now }
    requires placed { IsPlaced (graph_places input.now.graph.now) C.test state.old }
    requires known { IsKnownAt C.test input.now (state_at (graph_order input.now.graph.now) C.test state.old) known }
    requires lists { AreListsOf C.test (place_problem input.now.graph.now) (graph_places input.now.graph.now) lists.old }
    ensures lists { AreListsOf C.test (place_problem input.now.graph.now) (graph_places input.now.graph.now) lists.new }
    ensures verdict { (tree : TreeValue)
        → lines.now ≡ lines_of_tree tree
        → AreTreeNumbers tree
        → IfOk result (IsBudgetedTreeAnswer (graph_problem input.now.graph.now) (round_of input.now.round.now) (state_at (graph_order input.now.graph.now) C.test state.old) tree budget) }
{
    let alloc = input.graph.alloc;
    let format = input.round.format;
    let places = input.graph.ordered.places();
    if let Some(fault) = fault_in(alloc, lines, format, places)? {
        return Ok(TreeVerdict::Fault(CheckFault::Text(fault)));
    }
    let mut feed = Feed {
        source: Items::of_tree(alloc, lines, format, places),
        line: 0,
        steps: Steps::new(budget),
        spare: Steps::new(budget),
    };
    let judged = judge_tree::<C, (), Items>(input, state, known, lists, &mut feed, &mut ());
    let _used = feed.steps.used();
    said_of(judged)
}

/// Returns the verdict on a tree that should prove a round from a state on, as `check_tree` does.
///
/// What is `known` at the state is kept from line to line, and is extended with the help of `lists`. A caller that
/// judges several trees keeps the lists from one to the next.
///
/// # Errors
///
/// Returns `AllocError` if memory was refused.
pub fn check_tree_knowing<C: CountySet>(
    input: &CheckInput<C>,
    state: &State<C>,
    known: Option<Position<C>>,
    lists: &mut PartLists<C>,
    tree: &Tree,
    budget: u64,
) -> Result<TreeVerdict, AllocError>
    requires input { IsCheckInput C.PLACES C.test input.now }
    requires placed { IsPlaced (graph_places input.now.graph.now) C.test state.now }
    requires known { IsKnownAt C.test input.now (state_at (graph_order input.now.graph.now) C.test state.now) known }
    requires lists { AreListsOf C.test (place_problem input.now.graph.now) (graph_places input.now.graph.now) lists.old }
    ensures lists { AreListsOf C.test (place_problem input.now.graph.now) (graph_places input.now.graph.now) lists.new }
    ensures verdict { IfOk result (IsTreeAnswer (graph_problem input.now.graph.now) (round_of input.now.round.now) (state_at (graph_order input.now.graph.now) C.test state.now) (tree_of tree.now) budget) }
    ensures within { IfOk result (IsTreeWithinBudget (tree_of tree.now) budget) }
    ensures right { IfOk result (IsRightOfTrees (graph_problem input.now.graph.now) (round_of input.now.round.now) (state_at (graph_order input.now.graph.now) C.test state.now) (tree_of tree.now)) }
{
    let lines = tree_lines(input.graph.alloc, tree)?;
    let mut state = copied_state(input.graph.alloc, input.graph.ordered, state)?;
    check_lines(input, &mut state, known, lists, &lines, budget)
}

/// Returns the verdict on `tree` at `state`, given the `wanted` counts of the round's target. If `is_of_round`, what is
/// known of the groups is kept from line to line.
fn check_tree_at<C: CountySet>(
    graph: &CountyGraph<C>,
    round: &Round,
    wanted: Option<&Counts>,
    state: &State<C>,
    is_of_round: bool,
    lists: &mut PartLists<C>,
    tree: &Tree,
    budget: u64,
) -> Result<TreeVerdict, AllocError>
    requires graph { IsGraph C.test C.PLACES graph.now }
    requires order { graph_order graph.now ≡ round.now.order }
    requires small { round.now.limit ≤ most_counties }
    requires wanted { AreWanted (target_of round.now.target) wanted }
    requires placed { IsPlaced (graph_places graph.now) C.test state.now }
    requires state { IsTrue is_of_round → IsState (graph_problem graph.now) (round_of round.now) (state_at (graph_order graph.now) C.test state.now) }
    requires lists { AreListsOf C.test (place_problem graph.now) (graph_places graph.now) lists.old }
    ensures lists { AreListsOf C.test (place_problem graph.now) (graph_places graph.now) lists.new }
    ensures verdict { IfOk result (IsTreeAnswer (graph_problem graph.now) (round_of round.now) (state_at (graph_order graph.now) C.test state.now) (tree_of tree.now) budget) }
    ensures within { IfOk result (IsTreeWithinBudget (tree_of tree.now) budget) }
    ensures right { IfOk result (IsRightOfTrees (graph_problem graph.now) (round_of round.now) (state_at (graph_order graph.now) C.test state.now) (tree_of tree.now)) }
{
    let input = CheckInput {
        graph,
        round,
        wanted,
    };
    let known = if is_of_round {
        known_at(&input, state)?
    } else {
        None
    };
    check_tree_knowing(&input, state, known, lists, tree, budget)
}

/// Returns the verdict on a tree that should prove a round from a state on.
///
/// `Proof` is answered only for proof trees. `Fault` names the first fault: that of the tree's lines if no text spells
/// it, or else the first line that may not stand where it stands. So it comes only for trees that are no proof or have
/// no spelling.
///
/// Each line that is judged counts one step, and so does each set of counties that is met. `Budget` comes only if
/// `budget` is below the cost of the tree: three for each of its lines, and three for each set of counties that they
/// ask to look through. A proof tree with more lines than `budget` is never answered with `Proof`.
///
/// The `graph` is that of the problem, by the order of `round`, and a caller that judges several trees builds it once.
/// The target, if there is one, is lawful, and the limit is at most 256 counties. The state is by places of the order.
/// If `is_of_round`, it is a state of the round, and what is known of its groups is kept from line to line, as `check`
/// keeps it, with the help of `lists`. These are lists of the graph, and a caller that judges several trees keeps them.
/// The verdict is right either way.
///
/// # Errors
///
/// Returns `AllocError` if memory was refused.
pub fn check_tree<C: CountySet>(
    graph: &CountyGraph<C>,
    round: &Round,
    state: &State<C>,
    is_of_round: bool,
    lists: &mut PartLists<C>,
    tree: &Tree,
    budget: u64,
) -> Result<TreeVerdict, AllocError>
    requires graph { IsGraph C.test C.PLACES graph.now }
    requires order { graph_order graph.now ≡ round.now.order }
    requires small { round.now.limit ≤ most_counties }
    requires target { IsLawfulTarget (graph_problem graph.now) (target_of round.now.target) }
    requires placed { IsPlaced (graph_places graph.now) C.test state.now }
    requires state { IsTrue is_of_round → IsState (graph_problem graph.now) (round_of round.now) (state_at (graph_order graph.now) C.test state.now) }
    requires lists { AreListsOf C.test (place_problem graph.now) (graph_places graph.now) lists.old }
    ensures lists { AreListsOf C.test (place_problem graph.now) (graph_places graph.now) lists.new }
    ensures verdict { IfOk result (IsTreeAnswer (graph_problem graph.now) (round_of round.now) (state_at (graph_order graph.now) C.test state.now) (tree_of tree.now) budget) }
    ensures within { IfOk result (IsTreeWithinBudget (tree_of tree.now) budget) }
    ensures right { IfOk result (IsRightOfTrees (graph_problem graph.now) (round_of round.now) (state_at (graph_order graph.now) C.test state.now) (tree_of tree.now)) }
{
    let wanted = wanted_counts(graph.alloc, graph.ordered.problem(), round)?;
    check_tree_at(
        graph,
        round,
        wanted.as_ref(),
        state,
        is_of_round,
        lists,
        tree,
        budget,
    )
}
