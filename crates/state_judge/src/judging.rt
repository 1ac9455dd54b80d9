//! The verdict on the weights of a line: each group of the size that fits must weigh the quota.

ghost use Rattle.std.specs.Prelude.{◌≡◌, ℕ, ◌+◌, ◌<◌, ◌≤◌, true, false, map, length, get_or, All, Contains, IfOk, IsErrOf, IsTrue, MatchResult, ◌↔◌};
ghost use Rattle.std.specs.List.{list_all};
ghost use Rattle.grouping_laws.specs.Sets.{sum_by, contains};
ghost use Rattle.place_sets.specs.PlaceSets.{places_of};
ghost use Rattle.county_problem.specs.ProblemValue.{problem_of};
ghost use Rattle.connected_sets.specs.Graphs.{graph_problem, graph_order, graph_places, place_problem, IsGraph};
ghost use Rattle.certificate_laws.specs.{Regions.listed, State.open_to, Fitting.IsKept, Groups.IsSetWithin};
ghost use Rattle.certificate_laws.specs.BoundLines.{IsFair};
ghost use Rattle.certificate_data.specs.{RoundValue.round_of, Tree.weigh};
ghost use Rattle.certificate_lines.specs.Lines.{ascend};
ghost use Rattle.checker_laws.specs.Cost.{IsSetCount};
ghost use Rattle.state_groups.specs.{PlacedValues.{state_at, IsPlaced}, StateValue.state_of};
ghost use Rattle.state_judge.specs.{Candidates.{AreListed, AreCandidateSets}, LineStops.StopsAt};
ghost use Rattle.state_judge.specs.{declared.fault.LineStop.LineStop, Weights.{weights_of, county_weight, IsUnfair}};

use crate::fault::{CheckFault, LineStop};
use crate::weights::{are_known, is_spelled, weights_at};
use certificate_data::{Format, Round, Weight};
use connected_sets::CountyGraph;
use county_problem::{Ordered, Steps};
use place_sets::CountySet;
use state_groups::{State, groups_of, is_live, open_places, weight_in};
use std::alloc::{AllocError, Global};

/// Returns the total weight of the counties that are open to a group of a `size`, in counties. The `table` has the
/// weight of each county of the order.
fn open_weight<C: CountySet>(
    alloc: Global,
    ordered: &Ordered,
    state: &State<C>,
    size: u16,
    weights: &[Weight],
    table: &[u32],
) -> Result<u64, AllocError>
    requires fits { length ordered.now.order ≤ C.PLACES }
    requires placed { IsPlaced (length ordered.now.order) C.test state.now }
    requires table { table.now ≡ map (county_weight weights.now) ordered.now.order }
    ensures { IfOk
        result
        (λ weight. weight
        ≡ sum_by (county_weight weights.now) (listed (problem_of ordered.now.problem) (open_to (state_at ordered.now.order C.test state.now) size))) }
{
    let _places = ordered.places();
    let _problem = ordered.problem();
    let region = open_places(alloc, state, size)?;
    Ok(weight_in(table, &region))
}

/// Returns whether a lawful `group` of counties that are open to it fits the `state`. In a wide `format` it has to be
/// live, in a plain one nothing more is asked. Returns an error if memory was refused.
fn is_kept<C: CountySet>(
    graph: &CountyGraph<C>,
    format: Format,
    state: &State<C>,
    group: &C,
) -> Result<bool, AllocError>
    requires graph { IsGraph C.test C.PLACES graph.now }
    requires placed { IsPlaced (graph_places graph.now) C.test state.now }
    ensures { IfOk
        result
        (λ kept. IsTrue kept
        ↔ IsKept format (place_problem graph.now) (state_of C.test state.now) (places_of (graph_places graph.now) (C.test group.now))) }
{
    match format {
        Format::Plain => Ok(true),
        Format::Wide => is_live(graph, state, group),
    }
}

/// Returns whether one of the `groups` weighs less than the `quota` and is kept at the `state` in this `format`. A
/// group weighs the sum of its counties' weights in the `table`. Only groups that weigh less are tested for being kept.
/// Returns an error if memory was refused.
fn has_light_group<C: CountySet>(
    graph: &CountyGraph<C>,
    format: Format,
    state: &State<C>,
    table: &[u32],
    quota: u64,
    groups: &[C],
) -> Result<bool, AllocError>
    requires graph { IsGraph C.test C.PLACES graph.now }
    requires placed { IsPlaced (graph_places graph.now) C.test state.now }
    requires few { length table.now ≤ 65536 }
    requires below { All (λ g. (x : ℕ) → C.test g x ≡ true → x < length table.now) groups.now }
    ensures light { IfOk
        result
        (λ found. IsTrue found
        → (g : C)
        × Contains groups.now g
        × IsKept format (place_problem graph.now) (state_of C.test state.now) (places_of (graph_places graph.now) (C.test g))
        × (sum_by (λ i. get_or table.now i 0) (places_of (length table.now) (C.test g)) < quota)) }
    ensures heavy { IfOk
        result
        (λ found. found ≡ false
        → All (λ g. IsKept format (place_problem graph.now) (state_of C.test state.now) (places_of (graph_places graph.now) (C.test g))
        → quota ≤ sum_by (λ i. get_or table.now i 0) (places_of (length table.now) (C.test g))) groups.now) }
{
    for group in groups {
        if weight_in(table, group) < quota {
            if is_kept(graph, format, state, group)? {
                return Ok(true);
            }
        }
    }
    Ok(false)
}

/// Judges the weights of a line by the `groups`, which are candidates of `size` counties. Each of them that fits must
/// weigh at least the `quota`. The `table` has the weight of each county of the order. Returns the total weight of the
/// counties that are open to a group of `size` counties.
fn weigh_candidates<C: CountySet>(
    graph: &CountyGraph<C>,
    round: &Round,
    state: &State<C>,
    size: u16,
    quota: u32,
    weights: &[Weight],
    table: &[u32],
    groups: &[C],
) -> Result<u64, LineStop>
    requires graph { IsGraph C.test C.PLACES graph.now }
    requires placed { IsPlaced (graph_places graph.now) C.test state.now }
    requires order { graph_order graph.now ≡ round.now.order }
    requires quota { 1 ≤ quota }
    requires known { list_all (λ w. contains (graph_order graph.now) w.county) weights.now ≡ true }
    requires table { table.now ≡ map (county_weight weights.now) (graph_order graph.now) }
    requires groups { AreCandidateSets C.test (graph_order graph.now) (graph_problem graph.now) (round_of round.now) (state_at (graph_order graph.now) C.test state.now) size groups.now }
    ensures weights { MatchResult
        result
        (λ weight. IsFair round.now.format (graph_problem graph.now) (state_at (graph_order graph.now) C.test state.now) size (weigh quota (weights_of weights.now))
        × (weight
        ≡ sum_by (county_weight weights.now) (listed (graph_problem graph.now) (open_to (state_at (graph_order graph.now) C.test state.now) size))))
        (λ stop. StopsAt
        stop
        (IsUnfair round.now.format (graph_problem graph.now) (state_at (graph_order graph.now) C.test state.now) size (weigh quota (weights_of weights.now)))
        ((1 ≤ quota) × (ascend weights.now ≡ true) → ⊥)) }
    ensures stopped { IsErrOf result LineStop.StepLimit → ⊥ }
{
    if has_light_group(graph, round.format, state, table, u64::from(quota), groups)? {
        return Err(LineStop::Fault(CheckFault::LightGroup));
    }
    Ok(open_weight(graph.alloc, graph.ordered, state, size, weights, table)?)
}

/// Judges the weights of a line for a `size`, in counties. They must be weights of counties, and each group of the size
/// that fits must weigh at least the `quota`. If `candidates` of the size are known, they are tested, and no step is
/// taken. Otherwise all lawful groups of the size are listed. Returns the total weight of the counties that are open to
/// such a group.
pub(crate) fn judge_weights<C: CountySet>(
    graph: &CountyGraph<C>,
    round: &Round,
    state: &State<C>,
    size: u16,
    quota: u32,
    weights: &[Weight],
    candidates: Option<&[C]>,
    steps: &mut Steps,
) -> Result<u64, LineStop>
    requires graph { IsGraph C.test C.PLACES graph.now }
    requires placed { IsPlaced (graph_places graph.now) C.test state.now }
    requires order { graph_order graph.now ≡ round.now.order }
    requires size { 1 ≤ size }
    requires candidates { AreListed C.test (graph_order graph.now) (graph_problem graph.now) (round_of round.now) (state_at (graph_order graph.now) C.test state.now) size candidates }
    ensures weights { MatchResult
        result
        (λ weight. IsFair round.now.format (graph_problem graph.now) (state_at (graph_order graph.now) C.test state.now) size (weigh quota (weights_of weights.now))
        × (weight
        ≡ sum_by (county_weight weights.now) (listed (graph_problem graph.now) (open_to (state_at (graph_order graph.now) C.test state.now) size))))
        (λ stop. StopsAt
        stop
        (IsUnfair round.now.format (graph_problem graph.now) (state_at (graph_order graph.now) C.test state.now) size (weigh quota (weights_of weights.now)))
        ((1 ≤ quota) × (ascend weights.now ≡ true) → ⊥)) }
    ensures steps { (m : ℕ)
        → IsSetCount (graph_order graph.now) (IsSetWithin (graph_problem graph.now) (graph_order graph.now) (state_at (graph_order graph.now) C.test state.now) size) m
        → steps.new.used ≤ steps.old.used + m }
    ensures limit { steps.new.limit ≡ steps.old.limit }
    ensures more { steps.old.used ≤ steps.new.used }
    ensures stopped { IsErrOf result LineStop.StepLimit → steps.new.used ≡ steps.new.limit }
{
    if !is_spelled(quota, weights) {
        return Err(LineStop::Unspelled);
    }
    let codes = round.order.as_slice();
    if !are_known(codes, weights) {
        return Err(LineStop::Fault(CheckFault::WrongCounty));
    }
    let table = weights_at(graph.alloc, codes, weights)?;
    match candidates {
        Some(groups) => weigh_candidates(graph, round, state, size, quota, weights, &table, groups),
        None => {
            let groups = groups_of(graph, Format::Plain, state, size, steps)?;
            weigh_candidates(graph, round, state, size, quota, weights, &table, &groups)
        }
    }
}
