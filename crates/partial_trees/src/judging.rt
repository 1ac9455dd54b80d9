//! The verdict on a partial tree at a state.

ghost use Rattle.std.specs.Prelude.{◌≡◌, ℕ, ◌≤◌, true, false, Some, [], ◌∷◌, ◌++◌, All, map, IfOk, IfErr, OnOk, IsTrue};
ghost use Rattle.county_codes.specs.Limits.{most_counties};
ghost use Rattle.connected_sets.specs.Graphs.{graph_problem, graph_order, graph_places, place_problem, IsGraph};
ghost use Rattle.certificate_data.specs.{RoundValue.{round_of, target_of}, TreeValue.tree_of};
ghost use Rattle.certificate_laws.specs.{State.IsState, Groups.IsGroupAt};
ghost use Rattle.checker_laws.specs.Verdict.{IsLawfulTarget};
ghost use Rattle.search_groups.specs.PartLists.{AreListsOf};
ghost use Rattle.certificate_checker.specs.{Judging.AreWanted, Knowing.IsKnownAt};
ghost use Rattle.partial_trees.specs.{OpenStates.open_states, PartialValue.{partial_of, list_of_begun}};
ghost use Rattle.partial_trees.specs.Judged.{IsPartInput, IsTakenPart, AreTakenParts};
ghost use Rattle.partial_trees.specs.Refusals.{IsPartProof, IsPartRefusal, IsTakesRefusal};
ghost use Rattle.state_groups.specs.PlacedValues.{state_at, codes_of_sets, IsPlaced, IsClosable};
ghost use Rattle.board_laws.specs.PartialTrees.{whole};

use crate::input::PartInput;
use crate::stop::PartStop;
use crate::tree::{PartialTake, PartialTree};
use certificate_checker::{
    CheckInput, TreeVerdict, check_tree_knowing, closed_known, knowing_branch, known_at,
    raised_known, wanted_counts,
};
use certificate_data::{Round, Tree};
use connected_sets::CountyGraph;
use county_codes::CountyCode;
use county_problem::{Counts, Ordered, Steps};
use place_sets::CountySet;
use search_groups::{PartLists, Position};
use state_groups::{State, closed_state, copied_state, raise_place};
use state_judge::judge_take;
use std::alloc::AllocError;

/// Looks at each of the `codes`. A code has at most five digits, which its own contract says.
fn look_at_codes(codes: &[CountyCode])
    ensures { All (λ c. c ≤ 99999) codes.now }
{
    for code in codes {
        let _small = code.get();
    }
}

/// Appends `state` to `states`. Returns an error if memory was refused.
fn keep_state<C: CountySet>(state: State<C>, states: &mut Vec<State<C>>) -> Result<(), AllocError>
    ensures { OnOk result (states.new.items ≡ states.old.items ++ state ∷ []) }
{
    states.push(state)?;
    Ok(())
}

/// Returns whether a branch with this `limit` has a line: if it names one, that isn't 0.
fn has_line(limit: Option<u16>) -> bool
    ensures some { result ≡ true → limit ≡ Some 0 → ⊥ }
    ensures none { result ≡ false → limit ≡ Some 0 }
{
    match limit {
        Some(0) => false,
        _ => true,
    }
}

/// Judges a whole `tree` at `state`, of which this is `known`.
fn judge_whole<C: CountySet>(
    input: &PartInput<C>,
    state: &State<C>,
    known: Option<Position<C>>,
    lists: &mut PartLists<C>,
    tree: &Tree,
) -> Result<(), PartStop>
    requires input { IsPartInput C.PLACES C.test input.now }
    requires placed { IsPlaced (graph_places input.now.check.graph.now) C.test state.now }
    requires known { IsKnownAt C.test input.now.check (state_at (graph_order input.now.check.graph.now) C.test state.now) known }
    requires lists { AreListsOf C.test (place_problem input.now.check.graph.now) (graph_places input.now.check.graph.now) lists.old }
    ensures lists { AreListsOf C.test (place_problem input.now.check.graph.now) (graph_places input.now.check.graph.now) lists.new }
    ensures taken { IfOk
        result
        (λ _. IsPartProof (graph_problem input.now.check.graph.now) (round_of input.now.check.round.now) (state_at (graph_order input.now.check.graph.now) C.test state.now) (whole (tree_of tree.now))) }
    ensures refused { IfErr
        result
        (IsPartRefusal (graph_problem input.now.check.graph.now) input.now.budget (round_of input.now.check.round.now) (state_at (graph_order input.now.check.graph.now) C.test state.now) (whole (tree_of tree.now))) }
{
    match check_tree_knowing(&input.check, state, known, lists, tree, input.budget) {
        Ok(TreeVerdict::Proof) => Ok(()),
        Ok(TreeVerdict::Fault(_)) => Err(PartStop::NotAProof),
        Ok(TreeVerdict::Budget) => Err(PartStop::Budget),
        Err(_) => Err(PartStop::Memory),
    }
}

/// Judges the `takes` of a branch at `state`, which have to be those of the `groups`, in order. Appends the states at
/// their open leaves to `states`. What is `known` at the state is kept for each take.
#[cycle(judging)]
fn judge_takes<C: CountySet>(
    input: &PartInput<C>,
    state: &State<C>,
    known: &Option<Position<C>>,
    takes: &[PartialTake],
    groups: &[C],
    lists: &mut PartLists<C>,
    states: &mut Vec<State<C>>,
) -> Result<(), PartStop>
    requires input { IsPartInput C.PLACES C.test input.now }
    requires placed { IsPlaced (graph_places input.now.check.graph.now) C.test state.now }
    requires known { IsKnownAt C.test input.now.check (state_at (graph_order input.now.check.graph.now) C.test state.now) known.now }
    requires groups { All (IsClosable C.test state.now) groups.now }
    requires fits { (at : Position C)
        → known.now ≡ Some at
        → All (λ g. (c : ℕ)
        × IsGroupAt
        (graph_problem input.now.check.graph.now)
        (round_of input.now.check.round.now)
        (state_at (graph_order input.now.check.graph.now) C.test state.now)
        c
        at.size
        g) (codes_of_sets (graph_order input.now.check.graph.now) C.test groups.now) }
    requires lists { AreListsOf C.test (place_problem input.now.check.graph.now) (graph_places input.now.check.graph.now) lists.old }
    ensures lists { AreListsOf C.test (place_problem input.now.check.graph.now) (graph_places input.now.check.graph.now) lists.new }
    ensures taken { IfOk
        result
        (λ _. AreTakenParts C.test (graph_problem input.now.check.graph.now) (round_of input.now.check.round.now) (state_at (graph_order input.now.check.graph.now) C.test state.now) (codes_of_sets (graph_order input.now.check.graph.now) C.test groups.now) (list_of_begun takes.now) states.old.items states.new.items) }
    ensures refused { IfErr
        result
        (IsTakesRefusal (graph_problem input.now.check.graph.now) input.now.budget (round_of input.now.check.round.now) (state_at (graph_order input.now.check.graph.now) C.test state.now) (codes_of_sets (graph_order input.now.check.graph.now) C.test groups.now) (list_of_begun takes.now)) }
{
    let check = &input.check;
    let mut left = groups;
    'taking: for take in takes {
        match judge_take(check.graph.ordered, left, take.codes.as_slice()) {
            Ok(()) => {}
            Err(_) => return Err(PartStop::NotAProof),
        }
        let Some((group, others)) = left.split_first() else {
            return Err(PartStop::NotAProof);
        };
        let closed = closed_state(check.graph.alloc, check.graph.ordered, state, group)?;
        let below = closed_known(check, state, known, left)?;
        match judge_part(input, closed, below, &take.tree, lists, states) {
            Ok(()) => {}
            Err(stop) => return Err(stop),
        }
        left = others;
    }
    if !left.is_empty() {
        return Err(PartStop::NotAProof);
    }
    Ok(())
}

/// Judges `part` at `state`, of which this is `known`. Appends the states at its open leaves to `states`.
///
/// The recursion goes as deep as takes nest.
#[cycle(judging)]
fn judge_part<C: CountySet>(
    input: &PartInput<C>,
    state: State<C>,
    known: Option<Position<C>>,
    part: &PartialTree,
    lists: &mut PartLists<C>,
    states: &mut Vec<State<C>>,
) -> Result<(), PartStop>
    requires input { IsPartInput C.PLACES C.test input.now }
    requires placed { IsPlaced (graph_places input.now.check.graph.now) C.test state }
    requires known { IsKnownAt C.test input.now.check (state_at (graph_order input.now.check.graph.now) C.test state) known }
    requires lists { AreListsOf C.test (place_problem input.now.check.graph.now) (graph_places input.now.check.graph.now) lists.old }
    ensures lists { AreListsOf C.test (place_problem input.now.check.graph.now) (graph_places input.now.check.graph.now) lists.new }
    ensures taken { IfOk
        result
        (λ _. IsTakenPart C.test (graph_problem input.now.check.graph.now) (round_of input.now.check.round.now) (state_at (graph_order input.now.check.graph.now) C.test state) (partial_of part.now) states.old.items states.new.items) }
    ensures refused { IfErr
        result
        (IsPartRefusal (graph_problem input.now.check.graph.now) input.now.budget (round_of input.now.check.round.now) (state_at (graph_order input.now.check.graph.now) C.test state) (partial_of part.now)) }
{
    let check = &input.check;
    let mut state = state;
    let mut known = known;
    'branching: for branch in &part.branches {
        if !has_line(branch.limit) {
            return Err(PartStop::NotAProof);
        }
        let mut steps = Steps::new(input.budget);
        let mut spare = Steps::new(input.budget);
        let branching = match knowing_branch(
            check,
            &state,
            &mut known,
            branch.county,
            branch.limit,
            lists,
            &mut spare,
            &mut steps,
        ) {
            Ok(branching) => branching,
            Err(stop) => return Err(PartStop::from(stop)),
        };
        match judge_takes(
            input,
            &state,
            &known,
            &branch.takes,
            &branching.groups,
            lists,
            states,
        ) {
            Ok(()) => {}
            Err(stop) => return Err(stop),
        }
        known = raised_known(check, &state, known, branching.place, branching.limit)?;
        raise_place(
            check.graph.ordered,
            &mut state,
            branching.place,
            branching.limit,
        );
    }
    match &part.rest {
        None => Ok(keep_state(state, states)?),
        Some(tree) => judge_whole(input, &state, known, lists, tree),
    }
}

/// Judges `part` at `state`, given the `wanted` counts of the round's target, and returns the states at its open
/// leaves.
fn judge_wanted<C: CountySet>(
    graph: &CountyGraph<C>,
    round: &Round,
    wanted: Option<&Counts>,
    state: &State<C>,
    is_of_round: bool,
    lists: &mut PartLists<C>,
    part: &PartialTree,
    budget: u64,
) -> Result<Vec<State<C>>, PartStop>
    requires graph { IsGraph C.test C.PLACES graph.now }
    requires order { graph_order graph.now ≡ round.now.order }
    requires small { round.now.limit ≤ most_counties }
    requires wanted { AreWanted (target_of round.now.target) wanted }
    requires five { All (λ c. c ≤ 99999) (graph_order graph.now) }
    requires placed { IsPlaced (graph_places graph.now) C.test state.now }
    requires state { IsTrue is_of_round → IsState (graph_problem graph.now) (round_of round.now) (state_at (graph_order graph.now) C.test state.now) }
    requires lists { AreListsOf C.test (place_problem graph.now) (graph_places graph.now) lists.old }
    ensures lists { AreListsOf C.test (place_problem graph.now) (graph_places graph.now) lists.new }
    ensures taken { IfOk
        result
        (λ states. IsTakenPart C.test (graph_problem graph.now) (round_of round.now) (state_at (graph_order graph.now) C.test state.now) (partial_of part.now) [] states.items) }
    ensures refused { IfErr
        result
        (IsPartRefusal (graph_problem graph.now) budget (round_of round.now) (state_at (graph_order graph.now) C.test state.now) (partial_of part.now)) }
{
    let input = PartInput {
        check: CheckInput {
            graph,
            round,
            wanted,
        },
        budget,
    };
    let known = if is_of_round {
        known_at(&input.check, state)?
    } else {
        None
    };
    let mut states = Vec::new(graph.alloc);
    let state = copied_state(graph.alloc, graph.ordered, state)?;
    match judge_part(&input, state, known, part, lists, &mut states) {
        Ok(()) => Ok(states),
        Err(stop) => Err(stop),
    }
}

/// Judges `part` at `state`, and returns the states at its open leaves, in the order of its lines.
///
/// A whole tree in it is judged as by `check_tree`. The order has each county of the problem once. The target, if there
/// is one, is lawful, and the limit is at most 256 counties. The state is by places of the order. If `is_of_round`, it
/// is a state of the round, and what is known of its groups is kept through the whole part, as `check` keeps it, with
/// the help of `lists`. A caller that judges several parts keeps these lists.
///
/// # Errors
///
/// Returns `NotAProof` if the part isn't valid at the state or no text spells it. Returns `Budget` only if `budget` is
/// below the part's cost: three for each of its lines, and three for each set of counties that they ask to look
/// through. Returns `Memory` if memory was refused.
pub fn check_part<C: CountySet>(
    graph: &CountyGraph<C>,
    round: &Round,
    state: &State<C>,
    is_of_round: bool,
    lists: &mut PartLists<C>,
    part: &PartialTree,
    budget: u64,
) -> Result<Vec<State<C>>, PartStop>
    requires graph { IsGraph C.test C.PLACES graph.now }
    requires order { graph_order graph.now ≡ round.now.order }
    requires small { round.now.limit ≤ most_counties }
    requires target { IsLawfulTarget (graph_problem graph.now) (target_of round.now.target) }
    requires placed { IsPlaced (graph_places graph.now) C.test state.now }
    requires state { IsTrue is_of_round → IsState (graph_problem graph.now) (round_of round.now) (state_at (graph_order graph.now) C.test state.now) }
    requires lists { AreListsOf C.test (place_problem graph.now) (graph_places graph.now) lists.old }
    ensures lists { AreListsOf C.test (place_problem graph.now) (graph_places graph.now) lists.new }
    ensures proves { IfOk
        result
        (λ _. IsPartProof (graph_problem graph.now) (round_of round.now) (state_at (graph_order graph.now) C.test state.now) (partial_of part.now)) }
    ensures states { IfOk
        result
        (λ states. map (state_at (graph_order graph.now) C.test) states.items
        ≡ open_states (partial_of part.now) (round_of round.now) (state_at (graph_order graph.now) C.test state.now)) }
    ensures placed { IfOk result (λ states. All (IsPlaced (graph_places graph.now) C.test) states.items) }
    ensures refused { IfErr
        result
        (IsPartRefusal (graph_problem graph.now) budget (round_of round.now) (state_at (graph_order graph.now) C.test state.now) (partial_of part.now)) }
{
    look_at_codes(round.order.as_slice());
    let wanted = wanted_counts(graph.alloc, graph.ordered.problem(), round)?;
    judge_wanted(
        graph,
        round,
        wanted.as_ref(),
        state,
        is_of_round,
        lists,
        part,
        budget,
    )
}
