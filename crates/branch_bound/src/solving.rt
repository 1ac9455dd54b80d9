//! The solver: rounds of the search, each from the state at which nothing is closed.

ghost use Rattle.std.specs.Prelude.{◌≡◌, ℕ, ◌≤◌, ◌<◌, max, Some, None, IfSome, length, All, IfOk, OnOk};
ghost use Rattle.std.specs.List.Sorted.{IsStrictlyIncreasing};
ghost use Rattle.county_codes.specs.{Limits.most_counties, Tolerances.FitsRange};
ghost use Rattle.grouping_laws.specs.Grouping.{Grouping as GroupingLaw};
ghost use Rattle.grouping_laws.specs.Problem.{Problem as ProblemLaw};
ghost use Rattle.connected_sets.specs.Graphs.{graph_problem, graph_order, graph_places, place_problem, IsGraph};
ghost use Rattle.certificate_lines.specs.Fitting.{AreCodes};
ghost use Rattle.county_problem.specs.ProblemValue.{problem_of};
ghost use Rattle.certificate_data.specs.declared.format.Format.TheVariants.{Plain, Wide};
ghost use Rattle.certificate_data.specs.RoundValue.{round_of, target_of};
ghost use Rattle.certificate_laws.specs.{Leaves.{IsStuck, IsOffSeats}, State.empty_state};
ghost use Rattle.state_groups.specs.PlacedValues.{state_at, IsPlaced};
ghost use Rattle.search_groups.specs.PartLists.{AreListsOf};
ghost use Rattle.partial_trees.specs.PartialValue.{partial_of};
ghost use Rattle.branch_bound.specs.{Parts.IsOpenPart, Searching.{IsOutcome, IsProof, IsStopped}};
ghost use Rattle.branch_bound.specs.{Resuming.{round_over, longest, IsBestPart}, Solving.{IsTarget, IsFirst}};
ghost use Rattle.branch_bound.specs.Answers.{IsSolveAnswer, Certifies, SolveIsRight, HasCompleteTree, SaysWhether};
ghost use Rattle.search_ends.specs.GivenLeaf.{IsGivenLeaf};

use crate::answer::Answer;
use crate::outcome::{First, SearchOutcome};
use crate::parts::begun_part;
use crate::search::prove;
use crate::watcher::{NoWatcher, Watcher};
use certificate_data::{Certificate, Format, Leaf, Round, Tree};
use connected_sets::CountyGraph;
use county_codes::{Codes, Grouping, listed_codes};
use county_problem::{OrderFault, Ordered, Problem, Steps};
use partial_trees::PartialTree;
use place_sets::{CountySet, MaskSet, WideSet, fits_mask};
use search_ends::{finished_grouping, whole_leaf};
use search_groups::{PartLists, SearchInput, first_position};
use state_groups::{State, first_state};
use std::alloc::{AllocError, Global};

/// The limit of the first round, in counties.
const FIRST_LIMIT: u16 = 2;

/// Returns the limit of the round after one with this `limit`, in counties: a greater one, up to all counties.
///
/// Rounds of small groups come first, since they are quick, and their better groupings spare the later rounds most of
/// the work.
fn limit_after(limit: u16) -> u16
    ensures above { limit ≤ most_counties → limit < result }
{
    match limit {
        2 => 3,
        _ => u16::MAX,
    }
}

/// Returns how many counties the largest group of the `grouping` has, or 0 if it has no group.
fn largest_size(grouping: &Grouping) -> u16
    requires few { All (λ m. length m.codes ≤ most_counties) grouping.now.groups.items }
    ensures bound { result ≤ most_counties }
    ensures large { All (λ m. length m.codes ≤ result) grouping.now.groups.items }
    ensures longest { max 1 result ≡ longest grouping.now.groups.items }
{
    let mut largest = 0;
    for group in &grouping.groups {
        largest = largest.max(group.codes.as_slice().len() as u16);
    }
    largest
}

/// Returns a round of the search, up to groups of `limit` counties. It names the problem's tolerance.
///
/// Without a `target`, the round looks for any lawful grouping. Returns an error if memory was refused.
fn round_for(
    alloc: Global,
    ordered: &Ordered,
    limit: u16,
    target: Option<Grouping>,
    format: Format,
) -> Result<Round, AllocError>
    ensures value { IfOk result (λ round. round_of round
        ≡ round_over (problem_of ordered.now.problem) ordered.now.order limit (target_of target) format) }
    ensures codes { IfOk result (λ round. AreCodes round.order) }
    ensures range { IfOk result (λ round. FitsRange round.tolerance) }
{
    Ok(Round {
        order: ordered.codes(alloc)?,
        limit,
        target,
        format,
        tolerance: ordered.problem().named_tolerance(),
    })
}

/// Searches the `round` from the state at which nothing is closed.
fn prove_first<C: CountySet, W: Watcher>(
    graph: &CountyGraph<C>,
    round: &Round,
    lists: &mut PartLists<C>,
    watcher: &mut W,
    steps: &mut Steps,
) -> Result<SearchOutcome, AllocError>
    requires graph { IsGraph C.test C.PLACES graph.now }
    requires order { graph_order graph.now ≡ round.now.order }
    requires small { round.now.limit ≤ most_counties }
    requires wide { round.now.format ≡ Wide }
    requires lists { AreListsOf C.test (place_problem graph.now) (graph_places graph.now) lists.old }
    ensures outcome { IfOk result (IsOutcome (graph_problem graph.now) (round_of round.now) (empty_state (graph_problem graph.now))) }
    ensures counted { IfOk result (λ outcome. ¬ IsStopped outcome → steps.old.used < steps.new.used) }
    ensures lists { AreListsOf C.test (place_problem graph.now) (graph_places graph.now) lists.new }
    ensures limit { steps.new.limit ≡ steps.old.limit }
    ensures stopped { IfOk result (λ outcome. IsStopped outcome → steps.new.used ≡ steps.new.limit) }
{
    let input = SearchInput { graph, round };
    let first = first_position(&input)?;
    prove(&input, first, lists, watcher, steps)
}

/// Searches a round up to groups of `limit` counties. Returns a proof tree of it, or a grouping that is greater than
/// the `target`.
fn prove_round<C: CountySet, W: Watcher>(
    graph: &CountyGraph<C>,
    target: &Grouping,
    limit: u16,
    lists: &mut PartLists<C>,
    watcher: &mut W,
    steps: &mut Steps,
) -> Result<SearchOutcome, AllocError>
    requires graph { IsGraph C.test C.PLACES graph.now }
    requires small { limit ≤ most_counties }
    requires lists { AreListsOf C.test (place_problem graph.now) (graph_places graph.now) lists.old }
    ensures outcome { IfOk
        result
        (IsOutcome
        (graph_problem graph.now)
        (round_over (graph_problem graph.now) (graph_order graph.now) limit (Some target.now.groups.items) Wide)
        (empty_state (graph_problem graph.now))) }
    ensures counted { IfOk result (λ outcome. ¬ IsStopped outcome → steps.old.used < steps.new.used) }
    ensures within { OnOk result (steps.new.used ≤ steps.new.limit) }
    ensures lists { AreListsOf C.test (place_problem graph.now) (graph_places graph.now) lists.new }
    ensures limit { steps.new.limit ≡ steps.old.limit }
    ensures stopped { IfOk result (λ outcome. IsStopped outcome → steps.new.used ≡ steps.new.limit) }
{
    let round = round_for(
        graph.alloc,
        graph.ordered,
        limit,
        Some(target.copy()?),
        Format::Wide,
    )?;
    let outcome = prove_first(graph, &round, lists, watcher, steps);
    let _used = steps.used();
    outcome
}

/// Returns the answer that the `target` is best. The `tree` proves it in the round whose `limit` is the size of the
/// target's largest group.
fn best(
    alloc: Global,
    ordered: &Ordered,
    target: Grouping,
    limit: u16,
    tree: Tree,
) -> Result<Answer, AllocError>
    requires target { IsTarget (problem_of ordered.now.problem) ordered.now.order target.groups.items }
    requires small { limit ≤ most_counties }
    requires large { All (λ m. length m.codes ≤ limit) target.groups.items }
    requires order { IsStrictlyIncreasing ordered.now.order }
    requires tree { IsProof
        (problem_of ordered.now.problem)
        (round_over (problem_of ordered.now.problem) ordered.now.order limit (Some target.groups.items) Wide)
        (empty_state (problem_of ordered.now.problem))
        tree }
    ensures answer { IfOk result (λ answer. (allowed : ℕ) → 1 ≤ allowed
        → IsSolveAnswer (problem_of ordered.now.problem) allowed answer) }
    ensures complete { IfOk result (HasCompleteTree (problem_of ordered.now.problem)) }
{
    let _places = ordered.places();
    let round = round_for(alloc, ordered, limit, Some(target.copy()?), Format::Wide)?;
    Ok(Answer::Best(target, Certificate { round, tree }))
}

/// Returns the `part` of a round with this `limit` if it is one of the proof that the round's target is best. That is
/// so if the target's largest group has `limit` counties too, given as `largest`, and the search began a branch.
fn best_part(limit: u16, largest: u16, part: PartialTree) -> Option<PartialTree>
    requires { limit ≤ most_counties }
    ensures { (p : ProblemLaw) (g : GroupingLaw)
        → max 1 largest ≡ longest g
        → IsOpenPart p (round_over p p.counties limit (Some g) Wide) (empty_state p) (partial_of part)
        → IfSome result (λ t. IsBestPart p g (partial_of t)) }
{
    if limit == largest.max(1) {
        begun_part(part)
    } else {
        None
    }
}

/// Returns the answer to which the search comes from `first`, a lawful grouping.
///
/// Each greater grouping that is found is the next target. The limits of the rounds grow, until the limit is the size
/// of the target's largest group.
fn improve<C: CountySet, W: Watcher>(
    graph: &CountyGraph<C>,
    first: Grouping,
    watcher: &mut W,
    steps: &mut Steps,
) -> Result<Answer, AllocError>
    requires graph { IsGraph C.test C.PLACES graph.now }
    requires order { IsStrictlyIncreasing (graph_order graph.now) }
    requires listed { graph_order graph.now ≡ (graph_problem graph.now).counties }
    requires target { IsTarget (graph_problem graph.now) (graph_order graph.now) first.groups.items }
    requires some { 1 ≤ steps.old.limit }
    ensures answer { IfOk result (IsSolveAnswer (graph_problem graph.now) steps.old.limit) }
    ensures complete { IfOk result (HasCompleteTree (graph_problem graph.now)) }
{
    let mut target = first;
    let mut cap = FIRST_LIMIT;
    let mut lists = PartLists::new(graph.alloc);
    loop {
        let largest = largest_size(&target);
        let limit = cap.min(largest);
        watcher.round(limit, &target);
        match prove_round(graph, &target, limit, &mut lists, watcher, steps) {
            Ok(SearchOutcome::Proved(tree)) => {
                if limit == largest {
                    return best(graph.alloc, graph.ordered, target, limit, tree);
                }
                cap = limit_after(cap);
            }
            Ok(SearchOutcome::Better(found)) => target = found,
            Ok(SearchOutcome::Open(part)) => {
                let part = best_part(limit, largest, part);
                return Ok(Answer::Open {
                    found: Some(target),
                    part,
                    steps: steps.used(),
                });
            }
            Err(refused) => return Err(refused),
        }
    }
}

/// Returns the certificate that no grouping is lawful, by a `leaf` that is valid where nothing is closed.
fn impossible(alloc: Global, ordered: &Ordered, round: Round, leaf: Leaf) -> Certificate
    requires value { round_of round ≡ round_over (problem_of ordered.now.problem) ordered.now.order 0 None Plain }
    requires codes { AreCodes round.order }
    requires range { FitsRange round.tolerance }
    requires leaf { IsGivenLeaf (problem_of ordered.now.problem) (round_of round) (empty_state (problem_of ordered.now.problem)) leaf }
    ensures { Certifies (problem_of ordered.now.problem) Plain None result }
{
    let _places = ordered.places();
    let branches = Vec::new(alloc);
    let tree = Tree { branches, leaf };
    Certificate { round, tree }
}

/// Returns the lawful grouping of the connected parts, at a `state` at which nothing is closed and no leaf is valid.
fn parts_found<C: CountySet>(
    graph: &CountyGraph<C>,
    round: &Round,
    state: &State<C>,
) -> Result<First, AllocError>
    requires graph { IsGraph C.test C.PLACES graph.now }
    requires placed { IsPlaced (graph_places graph.now) C.test state.now }
    requires empty { state_at (graph_order graph.now) C.test state.now ≡ empty_state (graph_problem graph.now) }
    requires value { round_of round.now ≡ round_over (graph_problem graph.now) (graph_order graph.now) 0 None Plain }
    requires no_stuck { (c : ℕ)
        → ¬ IsStuck (graph_problem graph.now) (state_at (graph_order graph.now) C.test state.now) c }
    requires no_seats { ¬ IsOffSeats (graph_problem graph.now) (state_at (graph_order graph.now) C.test state.now) }
    ensures { IfOk result (IsFirst (graph_problem graph.now) (graph_order graph.now)) }
{
    let found = finished_grouping(&SearchInput { graph, round }, state)?;
    Ok(First::Found(found))
}

/// Returns the first lawful grouping, or a certificate that none is lawful, by a `state` at which nothing is closed.
///
/// The round of such a certificate has no target, and its limit is 0.
fn first_at<C: CountySet>(graph: &CountyGraph<C>, state: &State<C>) -> Result<First, AllocError>
    requires graph { IsGraph C.test C.PLACES graph.now }
    requires placed { IsPlaced (graph_places graph.now) C.test state.now }
    requires empty { state_at (graph_order graph.now) C.test state.now ≡ empty_state (graph_problem graph.now) }
    ensures { IfOk result (IsFirst (graph_problem graph.now) (graph_order graph.now)) }
{
    let round = round_for(graph.alloc, graph.ordered, 0, None, Format::Plain)?;
    let input = SearchInput {
        graph,
        round: &round,
    };
    match whole_leaf(&input, state) {
        Ok(Some(leaf)) => Ok(First::Impossible(impossible(
            graph.alloc,
            graph.ordered,
            round,
            leaf,
        ))),
        Ok(None) => parts_found(graph, &round, state),
        Err(refused) => Err(refused),
    }
}

/// Returns the first lawful grouping of the counties of `graph`, which is that of the connected parts, or a certificate
/// that none is lawful.
fn first_found<C: CountySet>(graph: &CountyGraph<C>) -> Result<First, AllocError>
    requires graph { IsGraph C.test C.PLACES graph.now }
    ensures { IfOk result (IsFirst (graph_problem graph.now) (graph_order graph.now)) }
{
    let state: State<C> = first_state(graph.alloc, graph.ordered)?;
    first_at(graph, &state)
}

/// Returns what the solver answers of the counties of `ordered`, which stand in ascending order of their codes. The
/// limit of `steps` is at least 1.
fn solve_ordered<C: CountySet, W: Watcher>(
    alloc: Global,
    ordered: &Ordered,
    watcher: &mut W,
    steps: &mut Steps,
) -> Result<Answer, AllocError>
    requires fits { length ordered.now.order ≤ C.PLACES }
    requires order { IsStrictlyIncreasing ordered.now.order }
    requires listed { ordered.now.order ≡ (problem_of ordered.now.problem).counties }
    requires some { 1 ≤ steps.old.limit }
    ensures answer { IfOk result (IsSolveAnswer (problem_of ordered.now.problem) steps.old.limit) }
    ensures complete { IfOk result (HasCompleteTree (problem_of ordered.now.problem)) }
{
    let graph: CountyGraph<C> = CountyGraph::build(alloc, ordered)?;
    match first_found(&graph)? {
        First::Impossible(certificate) => Ok(Answer::Impossible(certificate)),
        First::Found(found) => improve(&graph, found, watcher, steps),
    }
}

/// Returns what `solve` answers, by any form of sets of places that has room for the counties of the `problem`.
///
/// # Errors
///
/// Returns `AllocError` if memory was refused.
pub fn solve_over<C: CountySet, W: Watcher>(
    alloc: Global,
    problem: &Problem,
    step_limit: u64,
    watcher: &mut W,
) -> Result<Answer, AllocError>
    requires fits { length problem.now.counties ≤ C.PLACES }
    ensures answer { IfOk result (IsSolveAnswer (problem_of problem.now) step_limit) }
    ensures best { IfOk result (SolveIsRight (problem_of problem.now)) }
    ensures complete { IfOk result (HasCompleteTree (problem_of problem.now)) }
    ensures impossible { IfOk result (SaysWhether (problem_of problem.now) step_limit) }
{
    let mut steps = Steps::new(step_limit);
    if !steps.tick() {
        return Ok(Answer::Open {
            found: None,
            part: None,
            steps: steps.used(),
        });
    }
    let order = listed_codes(alloc, problem.counties())?;
    match Ordered::build(alloc, problem, &order) {
        Ok(ordered) => solve_ordered::<C, W>(alloc, &ordered, watcher, &mut steps),
        Err(OrderFault::Memory) => Err(AllocError),
        Err(OrderFault::WrongOrder) => unreachable!(),
    }
}

/// Returns what `solve` answers for `problem` within `step_limit` steps, and tells `watcher` how far the search is.
///
/// The watcher is told each round as it begins, and each state that is entered. What is promised holds for each
/// watcher.
///
/// # Errors
///
/// Returns `AllocError` if memory was refused.
pub fn solve_watched<W: Watcher>(
    alloc: Global,
    problem: &Problem,
    step_limit: u64,
    watcher: &mut W,
) -> Result<Answer, AllocError>
    ensures answer { IfOk result (IsSolveAnswer (problem_of problem.now) step_limit) }
    ensures best { IfOk result (SolveIsRight (problem_of problem.now)) }
    ensures complete { IfOk result (HasCompleteTree (problem_of problem.now)) }
    ensures impossible { IfOk result (SaysWhether (problem_of problem.now) step_limit) }
{
    if fits_mask(problem.counties().len()) {
        return solve_over::<MaskSet, W>(alloc, problem, step_limit, watcher);
    }
    solve_over::<WideSet, W>(alloc, problem, step_limit, watcher)
}

/// Returns the best grouping of the `problem` with its certificate.
///
/// Best is a lawful grouping whose counts of groups by size are the greatest, where the count of the smallest size is
/// compared first (*Stephenson v. Bartlett*, in the form of Carter et al.). The other answers are:
///
/// - `Impossible` with a certificate, if no grouping is lawful. With a `step_limit` of 1 or more it is answered exactly
///   then.
/// - `Open` with the best grouping that was found, if all steps were taken, and with what was proved by then of that
///   grouping being best. With a `step_limit` of 0 it is always the answer, without a grouping.
///
/// A step is a state that is entered, a set that is grown, a group that is tested for being live, or a look for the
/// list of a part. The certificate of Best is in the wide format, and that of Impossible in the plain one. A text
/// spells each. The certificate of Best is complete: its ends are the sets of all best groupings.
///
/// # Errors
///
/// Returns `AllocError` if memory was refused.
pub fn solve(alloc: Global, problem: &Problem, step_limit: u64) -> Result<Answer, AllocError>
    ensures answer { IfOk result (IsSolveAnswer (problem_of problem.now) step_limit) }
    ensures best { IfOk result (SolveIsRight (problem_of problem.now)) }
    ensures complete { IfOk result (HasCompleteTree (problem_of problem.now)) }
    ensures impossible { IfOk result (SaysWhether (problem_of problem.now) step_limit) }
{
    solve_watched(alloc, problem, step_limit, &mut NoWatcher)
}
