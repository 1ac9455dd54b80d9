//! The groups that fit a state: their people suit some number of seats, and their counties are open to their size.

ghost use Rattle.std.specs.Prelude.{◌≡◌, ℕ, true, ◌<◌, ◌≤◌, length, get_or, IfOk, IsTrue, ◌↔◌};
ghost use Rattle.grouping_laws.specs.{Sets.Inside, Problem.{Connected, people_of}};
ghost use Rattle.place_sets.specs.PlaceSets.{places_of};
ghost use Rattle.connected_sets.specs.Graphs.{graph_places, place_problem, IsGraph};
ghost use Rattle.certificate_laws.specs.{State.open_to, Fitting.Fits};
ghost use Rattle.state_groups.specs.StateValue.{state_of};

use crate::state::State;
use crate::stuck_parts::{asks_more, is_live};
use certificate_data::Format;
use connected_sets::CountyGraph;
use place_sets::CountySet;
use std::alloc::{AllocError, Global};

/// Returns the places that are open to a group of `size` counties. These are the places of the rest that may lie in
/// such a group.
pub fn open_places<C: CountySet>(
    alloc: Global,
    state: &State<C>,
    size: u16,
) -> Result<C, AllocError>
    requires fits { length state.now.least.items ≤ C.PLACES }
    requires few { length state.now.least.items < 65536 }
    ensures { IfOk result (λ s. (x : ℕ) → C.test s x ≡ open_to (state_of C.test state.now) size x) }
{
    let mut open = state.rest.copy(alloc)?;
    for place in 0..state.least.len() {
        if state.least[place] > size {
            open = open.without(place as u16);
        }
    }
    Ok(open)
}

/// Returns whether each county of `group` is open to a group of its size: it is in the rest of `state`, and doesn't ask
/// for a larger group.
pub fn is_open<C: CountySet>(state: &State<C>, group: &C) -> bool
    requires below { (x : ℕ) → C.test group.now x ≡ true → x < length state.now.least.items }
    ensures { IsTrue result
        ↔ Inside
        (open_to (state_of C.test state.now) (length (places_of (length state.now.least.items) (C.test group.now))))
        (places_of (length state.now.least.items) (C.test group.now)) }
{
    if !group.within(&state.rest) {
        return false;
    }
    !asks_more(state, group, group.size())
}

/// Returns whether a connected group with this number of `people` fits the state. Its people must suit some number of
/// seats, and each of its counties must be open to a group of its size. In a wide format it must also be live.
pub fn fits<C: CountySet>(
    graph: &CountyGraph<C>,
    format: Format,
    state: &State<C>,
    group: &C,
    people: u64,
) -> Result<bool, AllocError>
    requires graph { IsGraph C.test C.PLACES graph.now }
    requires places { length state.now.least.items ≡ graph_places graph.now }
    requires below { (x : ℕ) → C.test state.now.rest x ≡ true → x < graph_places graph.now }
    requires group_below { (x : ℕ) → C.test group.now x ≡ true → x < graph_places graph.now }
    requires connected { Connected (place_problem graph.now) (places_of (graph_places graph.now) (C.test group.now)) }
    requires people { people
        ≡ people_of (place_problem graph.now) (places_of (graph_places graph.now) (C.test group.now)) }
    ensures { IfOk
        result
        (λ fit. IsTrue fit
        ↔ Fits format (place_problem graph.now) (state_of C.test state.now) (places_of (graph_places graph.now) (C.test group.now))) }
{
    if graph.ordered.problem().seats_range(people).is_none() {
        return Ok(false);
    }
    if !is_open(state, group) {
        return Ok(false);
    }
    match format {
        Format::Plain => Ok(true),
        Format::Wide => is_live(graph, state, group),
    }
}
