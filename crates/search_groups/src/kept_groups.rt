//! What is kept of a list of groups: those apart from a group, those that have or lack a county, and the live ones.

ghost use Rattle.std.specs.Prelude.{◌≡◌, ℕ, ◌+◌, ◌≤◌, ◌<◌, Bool, true, not, List, length, IfOk, IsErrOf};
ghost use Rattle.std.specs.Fn.{FnReturnsAt};
ghost use Rattle.place_sets.specs.PlaceSets.{Meets};
ghost use Rattle.county_problem.specs.OrderedValue.{code_at};
ghost use Rattle.connected_sets.specs.Graphs.{graph_problem, graph_order, graph_places, IsGraph};
ghost use Rattle.connected_sets.specs.declared.stop.Stop.{Stop};
ghost use Rattle.connected_laws.specs.Listing.{AreBelow};
ghost use Rattle.certificate_laws.specs.Fitting.{IsLive};
ghost use Rattle.state_groups.specs.PlacedValues.{state_at, codes_of_set, codes_of_sets, IsPlaced};
ghost use Rattle.search_groups.specs.KnownGroups.{AreThose, IsApart, Lacks, Has, Tells};

use connected_sets::{CountyGraph, Stop};
use county_problem::{Ordered, Steps};
use place_sets::CountySet;
use state_groups::{State, is_live};
use std::alloc::{AllocError, Global};

/// Returns copies of the groups that pass the test, in the same order. Returns an error if memory was refused.
fn groups_passing<C: CountySet, F: Fn(&C) -> bool>(
    alloc: Global,
    ordered: &Ordered,
    groups: &[C],
    passes: F,
) -> Result<Vec<C>, AllocError>
    requires call { F.IsAlwaysCallable passes }
    requires below { AreBelow (length ordered.now.order) C.test groups.now }
    ensures those { (keeps : List ℕ → Bool)
        → Tells ordered.now.order C.test (FnReturnsAt F.Fn passes) keeps
        → IfOk
        result
        (λ v. AreThose
        ordered.now.order
        (λ g. keeps g ≡ true)
        (codes_of_sets ordered.now.order C.test groups.now)
        (codes_of_sets ordered.now.order C.test v.items)) }
    ensures below { IfOk result (λ v. AreBelow (length ordered.now.order) C.test v.items) }
{
    let mut kept = Vec::new(alloc);
    for group in groups {
        if passes(group) {
            kept.push(group.copy(alloc)?)?;
        }
    }
    Ok(kept)
}

/// Returns the groups that have no county of the `other` group, in the same order. Returns an error if memory was
/// refused.
pub fn groups_apart<C: CountySet>(
    alloc: Global,
    ordered: &Ordered,
    groups: &[C],
    other: &C,
) -> Result<Vec<C>, AllocError>
    requires below { AreBelow (length ordered.now.order) C.test groups.now }
    ensures those { IfOk
        result
        (λ v. AreThose ordered.now.order (IsApart (codes_of_set ordered.now.order C.test other.now)) (codes_of_sets ordered.now.order C.test groups.now) (codes_of_sets ordered.now.order C.test v.items)) }
    ensures below { IfOk result (λ v. AreBelow (length ordered.now.order) C.test v.items) }
{
    let _places = ordered.places();
    groups_passing(
        alloc,
        ordered,
        groups,
        |group: &C|
            ensures { Meets (C.test group.now) (C.test other.entry.now) (not result) }
        { !group.meets(other) },
    )
}

/// Returns the groups that have the county at `place`, in the same order. Returns an error if memory was refused.
pub fn groups_having<C: CountySet>(
    alloc: Global,
    ordered: &Ordered,
    groups: &[C],
    place: u16,
) -> Result<Vec<C>, AllocError>
    requires fits { length ordered.now.order ≤ C.PLACES }
    requires below { AreBelow (length ordered.now.order) C.test groups.now }
    requires place { place < length ordered.now.order }
    ensures those { IfOk
        result
        (λ v. AreThose ordered.now.order (Has (code_at ordered.now.order place)) (codes_of_sets ordered.now.order C.test groups.now) (codes_of_sets ordered.now.order C.test v.items)) }
    ensures below { IfOk result (λ v. AreBelow (length ordered.now.order) C.test v.items) }
{
    let _places = ordered.places();
    groups_passing(
        alloc,
        ordered,
        groups,
        |group: &C|
            requires { place < C.PLACES }
            ensures { result ≡ C.test group.now place }
        { group.has(place) },
    )
}

/// Returns the groups that lack the county at `place`, in the same order. Returns an error if memory was refused.
pub fn groups_lacking<C: CountySet>(
    alloc: Global,
    ordered: &Ordered,
    groups: &[C],
    place: u16,
) -> Result<Vec<C>, AllocError>
    requires fits { length ordered.now.order ≤ C.PLACES }
    requires below { AreBelow (length ordered.now.order) C.test groups.now }
    requires place { place < length ordered.now.order }
    ensures those { IfOk
        result
        (λ v. AreThose ordered.now.order (Lacks (code_at ordered.now.order place)) (codes_of_sets ordered.now.order C.test groups.now) (codes_of_sets ordered.now.order C.test v.items)) }
    ensures below { IfOk result (λ v. AreBelow (length ordered.now.order) C.test v.items) }
{
    let _places = ordered.places();
    groups_passing(
        alloc,
        ordered,
        groups,
        |group: &C|
            requires { place < C.PLACES }
            ensures { not result ≡ C.test group.now place }
        { !group.has(place) },
    )
}

/// Returns the live ones of the `groups`, in the same order. A group is live at `state` if it leaves no part of the
/// rest behind that is stuck.
///
/// A step is taken for each group that is tested. Returns `StepLimit` only if all steps are used, and `Memory` only if
/// a growth was refused.
pub fn live_groups<C: CountySet>(
    graph: &CountyGraph<C>,
    state: &State<C>,
    groups: &[C],
    steps: &mut Steps,
) -> Result<Vec<C>, Stop>
    requires graph { IsGraph C.test C.PLACES graph.now }
    requires placed { IsPlaced (graph_places graph.now) C.test state.now }
    requires below { AreBelow (graph_places graph.now) C.test groups.now }
    ensures those { IfOk
        result
        (λ v. AreThose
        (graph_order graph.now)
        (IsLive (graph_problem graph.now) (state_at (graph_order graph.now) C.test state.now))
        (codes_of_sets (graph_order graph.now) C.test groups.now)
        (codes_of_sets (graph_order graph.now) C.test v.items)) }
    ensures below { IfOk result (λ v. AreBelow (graph_places graph.now) C.test v.items) }
    ensures steps { steps.new.used ≤ steps.old.used + length groups.now }
    ensures counted { IfOk result (λ v. steps.new.used ≡ steps.old.used + length groups.now) }
    ensures more { steps.old.used ≤ steps.new.used }
    ensures limit { steps.new.limit ≡ steps.old.limit }
    ensures stopped { IsErrOf result Stop.StepLimit → steps.new.used ≡ steps.new.limit }
{
    let mut live = Vec::new(graph.alloc);
    for group in groups {
        if !steps.tick() {
            return Err(Stop::StepLimit);
        }
        if is_live(graph, state, group)? {
            let copy = group.copy(graph.alloc)?;
            if let Err(error) = live.push(copy) {
                return Err(AllocError::from(error).into());
            }
        }
    }
    Ok(live)
}
