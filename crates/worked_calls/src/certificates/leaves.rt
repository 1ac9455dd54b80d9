//! The leaf that is found at a state where nothing is closed, and what the checker says of this leaf as a tree.

ghost use Rattle.std.specs.{Prelude.{◌≡◌, ◌≤◌, map, length, IfOk}, Vec.vec_items};
ghost use Rattle.county_codes.specs.Limits.{most_counties};
ghost use Rattle.county_problem.specs.ProblemValue.{problem_of};
ghost use Rattle.connected_sets.specs.Graphs.{graph_problem, graph_order, graph_places, IsGraph};
ghost use Rattle.certificate_data.specs.RoundValue.{round_of, target_of};
ghost use Rattle.state_groups.specs.PlacedValues.{state_at, IsPlaced};
ghost use Rattle.bound_proofs.specs.CountLeaves.{AreListsFrom};
ghost use Rattle.checker_laws.specs.Verdict.{IsLawfulTarget};

use anyhow::{Error, Result};
use bound_proofs::find_leaf;
use certificate_checker::{TreeVerdict, check_tree};
use certificate_data::{Format, Leaf, Round, Tree};
use certificate_text::tree_lines;
use connected_sets::CountyGraph;
use county_codes::{Codes, Grouping, MAX_COUNTIES, listed_codes};
use county_problem::{Ordered, Problem, Steps, judge};
use grouping_reader::read_grouping;
use place_sets::{CountySet, MaskSet, fits_mask};
use search_groups::PartLists;
use state_groups::{State, all_groups_of_size, first_state};
use std::alloc::Global;

/// More steps than the groups of a worked problem take.
const ENOUGH: u64 = 100_000;

/// Returns the groups that fit the `state`, as one list for each size from 1 up to the limit of the `round`.
fn groups_by_size<C: CountySet>(
    graph: &CountyGraph<C>,
    round: &Round,
    state: &State<C>,
) -> Result<Vec<Vec<C>>>
    requires graph { IsGraph C.test C.PLACES graph.now }
    requires placed { IsPlaced (graph_places graph.now) C.test state.now }
    requires order { graph_order graph.now ≡ round.now.order }
    ensures few { IfOk result (λ lists. length lists.items ≤ round.now.limit) }
    ensures lists { IfOk
        result
        (λ lists. AreListsFrom
        C.test
        (graph_order graph.now)
        (graph_problem graph.now)
        (round_of round.now)
        (state_at (graph_order graph.now) C.test state.now)
        1
        (map vec_items lists.items)) }
{
    let mut steps = Steps::new(ENOUGH);
    let mut lists = Vec::new(graph.alloc);
    for below in 0..round.limit {
        let groups = all_groups_of_size(graph, round, state, below + 1, &mut steps)?;
        lists.push(groups)?;
    }
    Ok(lists)
}

/// Returns the leaf that is found at a `state`, or `None` if none is found.
fn leaf_at<C: CountySet>(
    graph: &CountyGraph<C>,
    round: &Round,
    state: &State<C>,
) -> Result<Option<Leaf>>
    requires graph { IsGraph C.test C.PLACES graph.now }
    requires order { graph_order graph.now ≡ round.now.order }
    requires placed { IsPlaced (graph_places graph.now) C.test state.now }
{
    let lists = groups_by_size(graph, round, state)?;
    Ok(find_leaf(graph, round, state, &lists)?)
}

/// Reads the target that the `text` of a grouping tells. Returns `None` if the text is empty, and an error if the
/// grouping isn't lawful.
fn target_in(alloc: Global, problem: &Problem, text: &[u8]) -> Result<Option<Grouping>>
    ensures { IfOk result (λ target. IsLawfulTarget (problem_of problem.now) (target_of target)) }
{
    if text.is_empty() {
        return Ok(None);
    }
    let target = read_grouping(alloc, text)?;
    let _counts = judge(alloc, problem, &target)?;
    Ok(Some(target))
}

/// Returns the first word of the `lines` of a tree.
fn first_word(lines: &[u8]) -> Result<&str> {
    let text = str::from_utf8(lines)?;
    Ok(text.split_whitespace().next().unwrap_or(""))
}

/// Returns in words what kind of leaf the `tree` is, and what the checker says of it at the `state`. The kind is the
/// first word of its lines.
fn checked<C: CountySet>(
    graph: &CountyGraph<C>,
    round: &Round,
    state: &State<C>,
    tree: &Tree,
) -> Result<String>
    requires graph { IsGraph C.test C.PLACES graph.now }
    requires order { graph_order graph.now ≡ round.now.order }
    requires small { round.now.limit ≤ most_counties }
    requires target { IsLawfulTarget (graph_problem graph.now) (target_of round.now.target) }
    requires placed { IsPlaced (graph_places graph.now) C.test state.now }
{
    let alloc = graph.alloc;
    let lines = tree_lines(alloc, tree)?;
    let kind = first_word(&lines)?;
    let mut lists = PartLists::new(alloc);
    let said = match check_tree(graph, round, state, false, &mut lists, tree, ENOUGH)? {
        TreeVerdict::Proof => "a proof",
        TreeVerdict::Fault(_) => "NO PROOF",
        TreeVerdict::Budget => "BUDGET",
    };
    Ok(format!(in alloc; "a {kind} leaf, checked {said}")?)
}

/// Returns in words which leaf of `round` is found where nothing is closed, and what the checker says of it. If no leaf
/// is found, the words say so.
fn first_leaf(alloc: Global, ordered: &Ordered, round: &Round) -> Result<String>
    requires few { length ordered.now.order ≤ 128 }
    requires same { ordered.now.order ≡ round.now.order }
    requires small { round.now.limit ≤ most_counties }
    requires target { IsLawfulTarget (problem_of ordered.now.problem) (target_of round.now.target) }
{
    let graph: CountyGraph<MaskSet> = CountyGraph::build(alloc, ordered)?;
    let state: State<MaskSet> = first_state(alloc, ordered)?;
    match leaf_at(&graph, round, &state)? {
        Some(leaf) => {
            let branches = Vec::new(alloc);
            checked(&graph, round, &state, &Tree { branches, leaf })
        }
        None => Ok(String::from_str(alloc, "no leaf")?),
    }
}

/// Returns in words which leaf is found where nothing is closed, and what the checker says of it. The round is wide,
/// and has this `limit` and the target that the `text` tells. Returns an error if the limit is more than 256, or if a
/// mask has no room for the counties.
pub(crate) fn leaf_said(
    alloc: Global,
    problem: &Problem,
    limit: u16,
    text: &[u8],
) -> Result<String> {
    if usize::from(limit) > MAX_COUNTIES {
        return Err(Error::msg("a limit is at most 256"));
    }
    let order = listed_codes(alloc, problem.counties())?;
    let target = target_in(alloc, problem, text)?;
    let ordered = Ordered::build(alloc, problem, &order)?;
    if !fits_mask(usize::from(ordered.places())) {
        return Err(Error::msg("a mask has no room for this number of counties"));
    }
    let round = Round {
        order: Codes::new(order),
        limit,
        target,
        format: Format::Wide,
        tolerance: problem.named_tolerance(),
    };
    first_leaf(alloc, &ordered, &round)
}
