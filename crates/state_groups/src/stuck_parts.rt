//! The parts of the rest that no groups can fill, and the sets that leave such a part behind.

ghost use Rattle.std.specs.Prelude.{◌≡◌, ℕ, true, false, ◌<◌, List, length, get_or, IfOk, IsTrue, ◌↔◌};
ghost use Rattle.grouping_laws.specs.{Sets.contains, Parts.IsPart};
ghost use Rattle.place_sets.specs.PlaceSets.{places_of};
ghost use Rattle.county_problem.specs.OrderedValue.{problem_at};
ghost use Rattle.connected_sets.specs.Graphs.{graph_places, place_problem, IsGraph};
ghost use Rattle.state_groups.specs.{StateValue.state_of, Cut.CutOff};
ghost use Rattle.certificate_laws.specs.{StuckParts.CannotFill, Fitting.IsLive, Leaves.IsStuck};

use crate::state::State;
use crate::sums::people_in;
use connected_sets::{CountyGraph, part_around};
use county_problem::Ordered;
use place_sets::CountySet;
use std::alloc::AllocError;

/// Returns whether some county of the set asks for a group of more than `size` counties.
pub(crate) fn asks_more<C: CountySet>(state: &State<C>, set: &C, size: u32) -> bool
    requires below { (x : ℕ) → C.test set.now x ≡ true → x < length state.now.least.items }
    ensures { IsTrue result ↔ ((c : ℕ) × (C.test set.now c ≡ true) × (size < get_or state.now.least.items c 0)) }
{
    let mut from = 0;
    while let Some(place) = set.next(from) {
        if u32::from(state.least[usize::from(place)]) > size {
            return true;
        }
        from = u32::from(place) + 1;
    }
    false
}

/// Returns whether no groups can fill the set `part` at `state`. That is so if its people suit no number of seats, or
/// if one of its counties asks for a group of more counties than the set has.
pub fn is_stuck<C: CountySet>(ordered: &Ordered, state: &State<C>, part: &C) -> bool
    requires places { length state.now.least.items ≡ length ordered.now.order }
    requires below { (x : ℕ) → C.test part.now x ≡ true → x < length ordered.now.order }
    ensures { IsTrue result
        ↔ CannotFill (problem_at ordered.now) (state_of C.test state.now) (places_of (length ordered.now.order) (C.test part.now)) }
{
    let _places = ordered.places();
    let people = people_in(ordered, part);
    if ordered.problem().seats_range(people).is_none() {
        return true;
    }
    asks_more(state, part, part.size())
}

/// Returns whether the set `part` has none of the `free` places and can't be filled at `state`.
fn is_cut_off<C: CountySet>(ordered: &Ordered, state: &State<C>, part: &C, free: &C) -> bool
    requires places { length state.now.least.items ≡ length ordered.now.order }
    requires below { (x : ℕ) → C.test part.now x ≡ true → x < length ordered.now.order }
    ensures { IsTrue result
        ↔ (((x : ℕ) → C.test part.now x ≡ true → C.test free.now x ≡ false)
        × CannotFill (problem_at ordered.now) (state_of C.test state.now) (places_of (length ordered.now.order) (C.test part.now))) }
{
    if part.meets(free) {
        return false;
    }
    is_stuck(ordered, state, part)
}

/// Returns whether `region` has a connected part that has none of the `free` places and can't be filled at `state`.
/// Returns an error if memory was refused.
pub fn has_stuck_part<C: CountySet>(
    graph: &CountyGraph<C>,
    state: &State<C>,
    region: C,
    free: &C,
) -> Result<bool, AllocError>
    requires graph { IsGraph C.test C.PLACES graph.now }
    requires places { length state.now.least.items ≡ graph_places graph.now }
    requires below { (x : ℕ) → C.test region x ≡ true → x < graph_places graph.now }
    ensures { IfOk result (λ stuck. IsTrue stuck
        ↔ CutOff (place_problem graph.now) (state_of C.test state.now) (C.test region) (C.test free.now)) }
{
    let mut rest = region;
    while let Some(place) = rest.next(0) {
        let (part, left) = part_around(graph, &rest, place)?;
        if is_cut_off(graph.ordered, state, &part, free) {
            return Ok(true);
        }
        rest = left;
    }
    Ok(false)
}

/// Returns whether a `group` of the rest is live, which means that no connected part of the rest of `state` without it
/// is stuck. Returns an error if memory was refused.
pub fn is_live<C: CountySet>(
    graph: &CountyGraph<C>,
    state: &State<C>,
    group: &C,
) -> Result<bool, AllocError>
    requires graph { IsGraph C.test C.PLACES graph.now }
    requires places { length state.now.least.items ≡ graph_places graph.now }
    requires below { (x : ℕ) → C.test state.now.rest x ≡ true → x < graph_places graph.now }
    ensures { IfOk
        result
        (λ live. IsTrue live
        ↔ IsLive (place_problem graph.now) (state_of C.test state.now) (places_of (graph_places graph.now) (C.test group.now))) }
{
    let left = state.rest.copy(graph.alloc)?.minus(group);
    let none = C::empty(graph.alloc)?;
    let stuck = has_stuck_part(graph, state, left, &none)?;
    Ok(!stuck)
}

/// Returns whether a stuck leaf is valid that names the county at `place`, which is one of the rest. It is valid if the
/// connected part of the rest around the county is stuck.
pub fn is_stuck_at<C: CountySet>(
    graph: &CountyGraph<C>,
    state: &State<C>,
    place: u16,
) -> Result<bool, AllocError>
    requires graph { IsGraph C.test C.PLACES graph.now }
    requires places { length state.now.least.items ≡ graph_places graph.now }
    requires below { (x : ℕ) → C.test state.now.rest x ≡ true → x < graph_places graph.now }
    requires there { C.test state.now.rest place ≡ true }
    ensures { IfOk result (λ stuck. IsTrue stuck ↔ IsStuck (place_problem graph.now) (state_of C.test state.now) place) }
{
    let (part, _left) = part_around(graph, &state.rest, place)?;
    Ok(is_stuck(graph.ordered, state, &part))
}
