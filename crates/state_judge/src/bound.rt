//! The verdict on a line of a bound leaf: how many groups of one size the line allows.

ghost use Rattle.std.specs.Prelude.{◌≡◌, ℕ, ◌+◌, ◌-◌, ◌*◌, ◌/◌, ◌<◌, ◌≤◌, min, length, IfOk, IsErrOf, MatchResult};
ghost use Rattle.county_codes.specs.Limits.{most_counties};
ghost use Rattle.grouping_laws.specs.Grouping.{counts};
ghost use Rattle.county_problem.specs.ProblemValue.{problem_of};
ghost use Rattle.connected_sets.specs.Graphs.{graph_problem, graph_order, graph_places, IsGraph};
ghost use Rattle.certificate_data.specs.{RoundValue.round_of, TreeValue.allowance_of};
ghost use Rattle.certificate_laws.specs.BoundLines.{room_at, allowance, IsFair};
ghost use Rattle.checker_laws.specs.{Leaves.IsAllowanceFault, Cost.LineLooks};
ghost use Rattle.state_groups.specs.PlacedValues.{state_at, IsPlaced};
ghost use Rattle.state_judge.specs.{LineStops.StopsAt, declared.fault.LineStop.LineStop, Weights.IsUnfair};
ghost use Rattle.state_judge.specs.{Candidates.AreListed, AllowanceVerdicts.{AllowanceIsSpelled, IsAllowed}};

use crate::fault::{CheckFault, LineStop};
use crate::judging::judge_weights;
use certificate_data::{Allowance, Round};
use connected_sets::CountyGraph;
use county_problem::{Ordered, Steps};
use place_sets::CountySet;
use state_groups::{State, room};
use std::alloc::{AllocError, Global};

/// What a line of a bound leaf allows besides the closed groups, compared with the target's groups of that size.
#[derive(Clone, Copy, Debug, PartialEq, Eq)]
pub enum Allowed {
    /// Fewer groups than the target has. The lines after this one count for nothing.
    Loss,
    /// As many groups as the target has. The number is that of the counties that groups of this size or smaller ones
    /// use up.
    Even(u32),
}

/// Returns the number of counties that are open to a group of a `size`, in counties, less the `used` ones that smaller
/// groups use up. Returns 0 if more are used than are open. Returns an error if memory was refused.
pub fn room_left<C: CountySet>(
    alloc: Global,
    ordered: &Ordered,
    state: &State<C>,
    size: u16,
    used: u32,
) -> Result<u32, AllocError>
    requires fits { length ordered.now.order ≤ C.PLACES }
    requires placed { IsPlaced (length ordered.now.order) C.test state.now }
    ensures value { IfOk result (λ left. left
        ≡ room_at (problem_of ordered.now.problem) (state_at ordered.now.order C.test state.now) size used) }
    ensures few { IfOk result (λ left. left ≤ most_counties - used) }
{
    let _places = ordered.places();
    let _problem = ordered.problem();
    room(alloc, ordered, state, size, used)
}

/// Returns the number of closed groups that have `size` counties.
pub fn closed_of_size<C: CountySet>(ordered: &Ordered, state: &State<C>, size: u16) -> u32
    requires placed { IsPlaced (length ordered.now.order) C.test state.now }
    ensures value { result ≡ counts (state_at ordered.now.order C.test state.now).closed size }
    ensures few { result ≤ most_counties }
{
    let _places = ordered.places();
    let mut count = 0;
    for group in &state.closed {
        if group.size() == u32::from(size) {
            count += 1;
        }
    }
    count
}

/// Returns how many groups can share a `weight` if each weighs at least the `quota`, but no more than `most`.
fn shared(most: u32, weight: u64, quota: u32) -> u32
    requires { 1 ≤ quota }
    ensures { result ≡ min most (weight / quota) }
{
    u64::from(most).min(weight / u64::from(quota)) as u32
}

/// Returns how many groups of a `size`, in counties, the line allows, where smaller groups use up `used` counties.
fn fair_allowance<C: CountySet>(
    graph: &CountyGraph<C>,
    round: &Round,
    state: &State<C>,
    size: u16,
    used: u32,
    line: &Allowance,
    candidates: Option<&[C]>,
    steps: &mut Steps,
) -> Result<u32, LineStop>
    requires graph { IsGraph C.test C.PLACES graph.now }
    requires placed { IsPlaced (graph_places graph.now) C.test state.now }
    requires order { graph_order graph.now ≡ round.now.order }
    requires size { 1 ≤ size }
    requires used { used ≤ most_counties }
    requires candidates { AreListed C.test (graph_order graph.now) (graph_problem graph.now) (round_of round.now) (state_at (graph_order graph.now) C.test state.now) size candidates }
    ensures line { MatchResult
        result
        (λ allowed. IsFair round.now.format (graph_problem graph.now) (state_at (graph_order graph.now) C.test state.now) size (allowance_of line.now)
        × (allowed
        ≡ allowance (graph_problem graph.now) (state_at (graph_order graph.now) C.test state.now) size used (allowance_of line.now)))
        (λ stop. StopsAt
        stop
        (IsUnfair round.now.format (graph_problem graph.now) (state_at (graph_order graph.now) C.test state.now) size (allowance_of line.now))
        (AllowanceIsSpelled line.now → ⊥)) }
    ensures few { IfOk result (λ allowed. (allowed ≤ most_counties) × (used + size * allowed ≤ most_counties)) }
    ensures steps { (m : ℕ)
        → LineLooks (allowance_of line.now) (graph_problem graph.now) (round_of round.now) (state_at (graph_order graph.now) C.test state.now) size m
        → steps.new.used ≤ steps.old.used + m }
    ensures limit { steps.new.limit ≡ steps.old.limit }
    ensures more { steps.old.used ≤ steps.new.used }
    ensures stopped { IsErrOf result LineStop.StepLimit → steps.new.used ≡ steps.new.limit }
{
    let most = room_left(graph.alloc, graph.ordered, state, size, used)? / u32::from(size);
    match line {
        Allowance::Room => Ok(most),
        Allowance::Weigh { quota, weights } => {
            let weight = judge_weights(
                graph,
                round,
                state,
                size,
                *quota,
                weights.as_slice(),
                candidates,
                steps,
            )?;
            Ok(shared(most, weight, *quota))
        }
    }
}

/// Judges the line of a bound leaf for a `size`, in counties. The target has `wanted` groups of this size, and smaller
/// groups use up `used` counties, at most 256. The `candidates` of this size, if they are given, are lawful groups of
/// open counties, among them all groups of this size that fit.
///
/// With candidates no step is taken. Otherwise a step is taken for each connected set of at most `size` open counties
/// that is met.
///
/// # Errors
///
/// Returns `Unspelled` if the quota is 0 or the codes of the weights don't ascend. Otherwise it returns the first fault
/// of `WrongCounty` (a weight of no county of the problem), `LightGroup` (a group of this size that fits weighs less
/// than the quota) and `BoundOver` (more groups are allowed than the target has). Returns `StepLimit` if no step was
/// left, and `Memory` if memory was refused.
pub fn judge_allowance<C: CountySet>(
    graph: &CountyGraph<C>,
    round: &Round,
    state: &State<C>,
    size: u16,
    wanted: u16,
    used: u32,
    line: &Allowance,
    candidates: Option<&[C]>,
    steps: &mut Steps,
) -> Result<Allowed, LineStop>
    requires graph { IsGraph C.test C.PLACES graph.now }
    requires placed { IsPlaced (graph_places graph.now) C.test state.now }
    requires order { graph_order graph.now ≡ round.now.order }
    requires size { 1 ≤ size }
    requires used { used ≤ most_counties }
    requires candidates { AreListed C.test (graph_order graph.now) (graph_problem graph.now) (round_of round.now) (state_at (graph_order graph.now) C.test state.now) size candidates }
    ensures line { (counts : ℕ → ℕ)
        → counts size ≡ wanted
        → MatchResult
        result
        (IsAllowed round.now.format (graph_problem graph.now) (state_at (graph_order graph.now) C.test state.now) counts size used (allowance_of line.now))
        (λ stop. StopsAt
        stop
        (IsAllowanceFault round.now.format (graph_problem graph.now) (state_at (graph_order graph.now) C.test state.now) counts size used (allowance_of line.now))
        (AllowanceIsSpelled line.now → ⊥)) }
    ensures steps { IfOk
        result
        (λ _. (m : ℕ)
        → LineLooks (allowance_of line.now) (graph_problem graph.now) (round_of round.now) (state_at (graph_order graph.now) C.test state.now) size m
        → steps.new.used ≤ steps.old.used + 2 * m) }
    ensures limit { steps.new.limit ≡ steps.old.limit }
    ensures more { steps.old.used ≤ steps.new.used }
    ensures stopped { IsErrOf result LineStop.StepLimit
        → (m : ℕ)
        → LineLooks (allowance_of line.now) (graph_problem graph.now) (round_of round.now) (state_at (graph_order graph.now) C.test state.now) size m
        → steps.old.limit ≤ steps.old.used + 2 * m }
{
    let allowance = fair_allowance(graph, round, state, size, used, line, candidates, steps)?;
    let all = closed_of_size(graph.ordered, state, size) + allowance;
    let wanted = u32::from(wanted);
    if all > wanted {
        return Err(LineStop::Fault(CheckFault::BoundOver));
    }
    if all < wanted {
        return Ok(Allowed::Loss);
    }
    Ok(Allowed::Even(used + u32::from(size) * allowance))
}
