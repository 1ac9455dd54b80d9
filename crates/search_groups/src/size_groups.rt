//! The groups of one size that fit a state, made part by part from the lists that are kept.

ghost use Rattle.std.specs.Prelude.{◌≡◌, ℕ, ◌*◌, ◌≤◌, ◌<◌, true, List, length, IfOk, IsErrOf, IsTrue, ◌⊎◌, ◌↔◌};
ghost use Rattle.grouping_laws.specs.Sets.{count_in};
ghost use Rattle.connected_sets.specs.Graphs.{graph_problem, graph_order, graph_places, place_problem, IsGraph};
ghost use Rattle.connected_sets.specs.declared.stop.Stop.{Stop};
ghost use Rattle.connected_laws.specs.Listing.{AreBelow, lists_of};
ghost use Rattle.certificate_data.specs.{declared.format.Format.TheVariants.Wide, RoundValue.round_of};
ghost use Rattle.certificate_laws.specs.{State.IsState, Fitting.Fits, Leaves.IsStuck, Groups.AreGroupsOf};
ghost use Rattle.state_groups.specs.{StateValue.state_of, PlacedValues.{state_at, codes_of_sets, IsPlaced}};
ghost use Rattle.search_groups.specs.PartLists.{ArePartGroups, AreNextGroups, AreListsOf};

use crate::part_lists::PartLists;
use certificate_data::Round;
use connected_sets::{CountyGraph, Stop, parts_of};
use county_problem::Steps;
use place_sets::{CountySet, sorted};
use state_groups::{State, all_groups_of_size, open_places};
use std::alloc::{AllocError, Global};

/// Returns whether a part of this number of `counties` may have a group of the `size`. The group is the whole part, or
/// it leaves at least as many counties of the part as it has itself.
fn has_room(counties: u32, size: u16) -> bool
    ensures { IsTrue result ↔ ((counties ≡ size) ⊎ (2 * size ≤ counties)) }
{
    let size = u32::from(size);
    counties == size || counties >= 2 * size
}

/// Returns whether each county of the rest may lie in a group of the `size`.
fn all_open<C: CountySet>(alloc: Global, state: &State<C>, size: u16) -> Result<bool, AllocError>
    requires fits { length state.now.least.items ≤ C.PLACES }
    requires few { length state.now.least.items < 65536 }
    ensures { IfOk result (λ all. IsTrue all → (c : ℕ) → C.test state.now.rest c ≡ true
        → (state_of C.test state.now).least c ≤ size) }
{
    let open = open_places(alloc, state, size)?;
    Ok(state.rest.within(&open))
}

/// Returns the groups of the `size` that fit one of the `parts` by itself, part by part.
fn part_groups<C: CountySet>(
    graph: &CountyGraph<C>,
    parts: &[C],
    size: u16,
    lists: &mut PartLists<C>,
    steps: &mut Steps,
) -> Result<Vec<C>, Stop>
    requires graph { IsGraph C.test C.PLACES graph.now }
    requires below { AreBelow (graph_places graph.now) C.test parts.now }
    requires apart { (c : ℕ) → count_in c (lists_of (graph_places graph.now) C.test parts.now) ≤ 1 }
    requires size { 1 ≤ size }
    requires lists { AreListsOf C.test (place_problem graph.now) (graph_places graph.now) lists.old }
    ensures groups { IfOk result (λ v. ArePartGroups C.test (place_problem graph.now) (graph_places graph.now) size parts.now v.items) }
    ensures lists { AreListsOf C.test (place_problem graph.now) (graph_places graph.now) lists.new }
    ensures more { steps.old.used ≤ steps.new.used }
    ensures limit { steps.new.limit ≡ steps.old.limit }
    ensures stopped { IsErrOf result Stop.StepLimit → steps.new.used ≡ steps.new.limit }
{
    let mut groups = Vec::new(graph.alloc);
    for part in parts {
        if has_room(part.size(), size) {
            lists.put(graph, part, size, &mut groups, steps)?;
        }
    }
    Ok(groups)
}

/// Returns the groups of the `size` that fit a state with this `rest`, where the size is the next one to look at. They
/// are ordered by their lists of places.
fn rest_groups<C: CountySet>(
    graph: &CountyGraph<C>,
    rest: &C,
    size: u16,
    lists: &mut PartLists<C>,
    steps: &mut Steps,
) -> Result<Vec<C>, Stop>
    requires graph { IsGraph C.test C.PLACES graph.now }
    requires below { (x : ℕ) → C.test rest.now x ≡ true → x < graph_places graph.now }
    requires size { 1 ≤ size }
    requires lists { AreListsOf C.test (place_problem graph.now) (graph_places graph.now) lists.old }
    ensures groups { IfOk result (λ v. AreNextGroups C.test (place_problem graph.now) (graph_places graph.now) (C.test rest.now) size v.items) }
    ensures below { IfOk result (λ v. AreBelow (graph_places graph.now) C.test v.items) }
    ensures lists { AreListsOf C.test (place_problem graph.now) (graph_places graph.now) lists.new }
    ensures more { steps.old.used ≤ steps.new.used }
    ensures limit { steps.new.limit ≡ steps.old.limit }
    ensures stopped { IsErrOf result Stop.StepLimit → steps.new.used ≡ steps.new.limit }
{
    let parts = parts_of(graph, rest)?;
    let groups = part_groups(graph, &parts, size, lists, steps)?;
    Ok(sorted(groups)?)
}

/// Returns the groups of `size` counties that fit the state. Each group comes once, and they are ordered by their lists
/// of places. This is what a search knows of the next size, where no smaller group fits.
///
/// The `lists` are kept from call to call, for all calls with one order. If each county of the rest may lie in a group
/// of the size, a step is taken for each part that may have one. If a list is made, of a part or of the state, steps
/// are taken as by `groups_of`. Returns `StepLimit` only if all steps are used, and `Memory` only if a growth was
/// refused.
pub fn groups_of_size<C: CountySet>(
    graph: &CountyGraph<C>,
    round: &Round,
    state: &State<C>,
    size: u16,
    lists: &mut PartLists<C>,
    steps: &mut Steps,
) -> Result<Vec<C>, Stop>
    requires graph { IsGraph C.test C.PLACES graph.now }
    requires placed { IsPlaced (graph_places graph.now) C.test state.now }
    requires order { graph_order graph.now ≡ round.now.order }
    requires size { 1 ≤ size }
    requires wide { round.now.format ≡ Wide }
    requires state { IsState (graph_problem graph.now) (round_of round.now) (state_at (graph_order graph.now) C.test state.now) }
    requires none { (g : List ℕ)
        → Fits round.now.format (graph_problem graph.now) (state_at (graph_order graph.now) C.test state.now) g
        → length g < size → ⊥ }
    requires no_stuck { (c : ℕ)
        → ¬ IsStuck (graph_problem graph.now) (state_at (graph_order graph.now) C.test state.now) c }
    requires lists { AreListsOf C.test (place_problem graph.now) (graph_places graph.now) lists.old }
    ensures groups { IfOk
        result
        (λ v. AreGroupsOf
        (graph_problem graph.now)
        (round_of round.now)
        (state_at (graph_order graph.now) C.test state.now)
        size
        (codes_of_sets (graph_order graph.now) C.test v.items)) }
    ensures below { IfOk result (λ v. AreBelow (graph_places graph.now) C.test v.items) }
    ensures lists { AreListsOf C.test (place_problem graph.now) (graph_places graph.now) lists.new }
    ensures more { steps.old.used ≤ steps.new.used }
    ensures limit { steps.new.limit ≡ steps.old.limit }
    ensures stopped { IsErrOf result Stop.StepLimit → steps.new.used ≡ steps.new.limit }
{
    if all_open(graph.alloc, state, size)? {
        rest_groups(graph, &state.rest, size, lists, steps)
    } else {
        all_groups_of_size(graph, round, state, size, steps)
    }
}
