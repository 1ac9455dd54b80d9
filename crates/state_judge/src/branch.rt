//! The verdict on the line of a branch, with the groups that it must take, and on the line of a take.

ghost use Rattle.std.specs.Prelude.{◌≡◌, ℕ, ◌+◌, ◌*◌, ◌<◌, ◌≤◌, true, length, All, Contains, IfOk, IsErrOf, IsTrue, MatchOption, MatchResult, ◌↔◌};
ghost use Rattle.county_problem.specs.OrderedValue.{code_at};
ghost use Rattle.connected_sets.specs.Graphs.{graph_problem, graph_order, graph_places, IsGraph};
ghost use Rattle.connected_laws.specs.Listing.{AreBelow};
ghost use Rattle.certificate_data.specs.{declared.format.Format.TheVariants.Plain, RoundValue.round_of};
ghost use Rattle.certificate_laws.specs.{Groups.{AreGroupsAt, IsSetAt}, Proving.{limit_of, NamesLimit, CanBranch}};
ghost use Rattle.checker_laws.specs.{Branches.{IsBranchFault, IsNextTake, IsTakeFault}, Cost.IsSetCount};
ghost use Rattle.state_groups.specs.PlacedValues.{state_at, codes_of_set, codes_of_sets, IsPlaced, IsClosable};
ghost use Rattle.state_judge.specs.{CheckFaults.NamesFault, LineStops.StopsAt, declared.fault.LineStop.LineStop};

use crate::fault::{CheckFault, LineStop};
use certificate_data::{Format, Round};
use connected_sets::CountyGraph;
use county_codes::CountyCode;
use county_problem::{Ordered, Steps};
use place_sets::CountySet;
use state_groups::{State, groups_at, open_places};
use std::alloc::Global;

/// A branch that can stand: the place of its county, its limit, and the groups that its takes must have, in their
/// order.
#[derive(Debug, Drop)]
pub struct Branching<C> {
    /// The place of the county.
    pub place: u16,
    /// The greatest size of a group that is taken, in counties.
    pub limit: u16,
    /// The groups that fit, have the county and are within the limit. They are ordered by size and then by places.
    pub groups: Vec<C>,
}

/// Returns the limit of a branch that names the limit `named`. In a plain round it is the limit of the round, and in a
/// wide one it is the branch's own. Returns `None` if a plain branch names a limit, or if a wide one names none.
fn limit_for(round: &Round, named: Option<u16>) -> Option<u16>
    ensures { MatchOption
        result
        (NamesLimit round.now.format named → ⊥)
        (λ limit. NamesLimit round.now.format named × (limit ≡ limit_of (round_of round.now) named)
        × (round.now.format ≡ Plain → limit ≡ round.now.limit)) }
{
    match (round.format, named) {
        (Format::Plain, None) => Some(round.limit),
        (Format::Wide, Some(limit)) => Some(limit),
        _ => None,
    }
}

/// Returns the place of the county at which a branch with this `limit` can stand.
///
/// # Errors
///
/// Returns the fault `NoLeaf` if no county is open to a group within the limit, and `WrongCounty` if the branch can't
/// be at the county. Returns `Memory` if memory was refused.
fn branch_place<C: CountySet>(
    alloc: Global,
    ordered: &Ordered,
    round: &Round,
    state: &State<C>,
    county: CountyCode,
    limit: u16,
) -> Result<u16, LineStop>
    requires fits { length ordered.now.order ≤ C.PLACES }
    requires placed { IsPlaced (length ordered.now.order) C.test state.now }
    requires order { ordered.now.order ≡ round.now.order }
    requires limit { round.now.format ≡ Plain → limit ≡ round.now.limit }
    ensures branch { MatchResult
        result
        (λ place. CanBranch (round_of round.now) (state_at ordered.now.order C.test state.now) county limit)
        (λ stop. StopsAt stop (IsBranchFault (round_of round.now) (state_at ordered.now.order C.test state.now) county limit) ⊥) }
    ensures place { IfOk result (λ place. (place < length ordered.now.order)
        × (code_at ordered.now.order place ≡ county)) }
    ensures no_steps { IsErrOf result LineStop.StepLimit → ⊥ }
{
    let _places = ordered.places();
    let open = open_places(alloc, state, limit)?;
    let Some(first) = open.next(0) else {
        return Err(LineStop::Fault(CheckFault::NoLeaf));
    };
    if limit > round.limit {
        return Err(LineStop::Fault(CheckFault::WrongCounty));
    }
    let Some(place) = ordered.place_of(county) else {
        return Err(LineStop::Fault(CheckFault::WrongCounty));
    };
    if !open.has(place) {
        return Err(LineStop::Fault(CheckFault::WrongCounty));
    }
    match round.format {
        Format::Wide => Ok(place),
        Format::Plain => {
            if place != first {
                return Err(LineStop::Fault(CheckFault::WrongCounty));
            }
            Ok(place)
        }
    }
}

/// Judges the line of a branch at `county`, which has a `limit` of its own in a wide round, and lists its groups.
///
/// A step is taken for each set that is split.
///
/// # Errors
///
/// Returns `Unspelled` if a plain branch names a limit or a wide one names none. Otherwise it returns the fault
/// `NoLeaf` if no county is open to a group within the limit, and `WrongCounty` if the branch can't be at the county.
/// Returns `StepLimit` if no step was left, and `Memory` if memory was refused.
pub fn judge_branch<C: CountySet>(
    graph: &CountyGraph<C>,
    round: &Round,
    state: &State<C>,
    county: CountyCode,
    limit: Option<u16>,
    steps: &mut Steps,
) -> Result<Branching<C>, LineStop>
    requires graph { IsGraph C.test C.PLACES graph.now }
    requires placed { IsPlaced (graph_places graph.now) C.test state.now }
    requires order { graph_order graph.now ≡ round.now.order }
    ensures branch { MatchResult
        result
        (λ b. NamesLimit round.now.format limit
        × CanBranch (round_of round.now) (state_at (graph_order graph.now) C.test state.now) county (limit_of (round_of round.now) limit)
        × AreGroupsAt
        (graph_problem graph.now)
        (round_of round.now)
        (state_at (graph_order graph.now) C.test state.now)
        county
        (limit_of (round_of round.now) limit)
        (codes_of_sets (graph_order graph.now) C.test b.groups.items))
        (λ stop. StopsAt
        stop
        (IsBranchFault (round_of round.now) (state_at (graph_order graph.now) C.test state.now) county (limit_of (round_of round.now) limit))
        (NamesLimit round.now.format limit → ⊥)) }
    ensures place { IfOk result (λ b. (b.place < graph_places graph.now)
        × (code_at (graph_order graph.now) b.place ≡ county)) }
    ensures size { IfOk result (λ b. b.limit ≡ limit_of (round_of round.now) limit) }
    ensures groups { IfOk result (λ b. All (IsClosable C.test state.now) b.groups.items) }
    ensures counted { IfOk result (λ b. steps.old.used + length b.groups.items ≤ steps.new.used) }
    ensures steps { IfOk
        result
        (λ b. (m : ℕ)
        → IsSetCount (graph_order graph.now) (IsSetAt (graph_problem graph.now) (graph_order graph.now) (state_at (graph_order graph.now) C.test state.now) county (limit_of (round_of round.now) limit)) m
        → steps.new.used ≤ steps.old.used + 2 * m) }
    ensures limit { steps.new.limit ≡ steps.old.limit }
    ensures more { steps.old.used ≤ steps.new.used }
    ensures stopped { IsErrOf result LineStop.StepLimit
        → NamesLimit round.now.format limit
        × CanBranch (round_of round.now) (state_at (graph_order graph.now) C.test state.now) county (limit_of (round_of round.now) limit)
        × ((m : ℕ)
        → IsSetCount (graph_order graph.now) (IsSetAt (graph_problem graph.now) (graph_order graph.now) (state_at (graph_order graph.now) C.test state.now) county (limit_of (round_of round.now) limit)) m
        → steps.old.limit ≤ steps.old.used + 2 * m) }
{
    let Some(limit) = limit_for(round, limit) else {
        return Err(LineStop::Unspelled);
    };
    let place = branch_place(graph.alloc, graph.ordered, round, state, county, limit)?;
    if limit == 0 {
        return Ok(Branching {
            place,
            limit,
            groups: Vec::new(graph.alloc),
        });
    }
    let groups = groups_at(graph, round.format, state, place, limit, steps)?;
    Ok(Branching {
        place,
        limit,
        groups,
    })
}

/// Returns whether the set has exactly these `codes`, in the order of its places.
fn has_codes<C: CountySet>(ordered: &Ordered, set: &C, codes: &[CountyCode]) -> bool
    requires { (x : ℕ) → C.test set.now x ≡ true → x < length ordered.now.order }
    ensures { IsTrue result ↔ (codes_of_set ordered.now.order C.test set.now ≡ codes.now) }
{
    let _places = ordered.places();
    let mut from = 0;
    for code in codes {
        let Some(place) = set.next(from) else {
            return false;
        };
        if ordered.code(place) != *code {
            return false;
        }
        from = u32::from(place) + 1;
    }
    set.next(from).is_none()
}

/// Returns whether one of the `sets` has exactly these `codes`.
fn is_listed<C: CountySet>(ordered: &Ordered, sets: &[C], codes: &[CountyCode]) -> bool
    requires { AreBelow (length ordered.now.order) C.test sets.now }
    ensures { IsTrue result ↔ Contains (codes_of_sets ordered.now.order C.test sets.now) codes.now }
{
    for set in sets {
        if has_codes(ordered, set, codes) {
            return true;
        }
    }
    false
}

/// Judges the line of a take. The first of the `groups` must have these `codes`, in the order of places.
///
/// # Errors
///
/// Returns the fault `MissingGroup` if a later group has the codes, and `StrayGroup` otherwise.
pub fn judge_take<C: CountySet>(
    ordered: &Ordered,
    groups: &[C],
    codes: &[CountyCode],
) -> Result<(), CheckFault>
    requires fits { length ordered.now.order ≤ C.PLACES }
    requires below { AreBelow (length ordered.now.order) C.test groups.now }
    ensures { MatchResult
        result
        (λ _. IsNextTake (codes_of_sets ordered.now.order C.test groups.now) codes.now)
        (λ fault. NamesFault fault (IsTakeFault (codes_of_sets ordered.now.order C.test groups.now) codes.now)) }
{
    if let Some(first) = groups.first() {
        if has_codes(ordered, first, codes) {
            return Ok(());
        }
    }
    if is_listed(ordered, groups, codes) {
        return Err(CheckFault::MissingGroup);
    }
    Err(CheckFault::StrayGroup)
}
