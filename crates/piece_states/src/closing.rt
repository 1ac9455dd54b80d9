//! Closing of the groups that are told, where each of them may be closed.

ghost use Rattle.std.specs.Prelude.{◌≡◌, ℕ, true, ◌<◌, ◌≤◌, filter, length, None, IfOk, IfSome, IsTrue, ◌↔◌};
ghost use Rattle.grouping_laws.specs.{Sets.contains, Problem.Connected};
ghost use Rattle.place_sets.specs.PlaceSets.{places_of};
ghost use Rattle.connected_sets.specs.Graphs.{graph_problem, graph_order, graph_places, place_problem, IsGraph};
ghost use Rattle.certificate_data.specs.RoundValue.{round_of};
ghost use Rattle.certificate_laws.specs.{State.close, Fitting.Fits};
ghost use Rattle.state_groups.specs.{StateValue.state_of, PlacedValues.{state_at, codes_of_set, IsPlaced}};
ghost use Rattle.piece_states.specs.{Told.close_all, RoundStates.{CanClose, EachCanClose}};

use certificate_data::{Format, Round};
use connected_sets::{CountyGraph, part_around};
use county_codes::{Codes, CountyCode, has_code};
use county_problem::Ordered;
use place_sets::CountySet;
use state_groups::{State, closed_state, fits, people_in};
use std::alloc::{AllocError, Global};

/// Returns the places of `ordered` whose counties have one of the `codes`.
fn places_with<C: CountySet>(
    alloc: Global,
    ordered: &Ordered,
    codes: &[CountyCode],
) -> Result<C, AllocError>
    requires fits { length ordered.now.order ≤ C.PLACES }
    ensures below { IfOk result (λ set. (x : ℕ) → C.test set x ≡ true → x < length ordered.now.order) }
    ensures codes { IfOk result (λ set. codes_of_set ordered.now.order C.test set
        ≡ filter (contains codes.now) ordered.now.order) }
{
    let mut set = C::empty(alloc)?;
    for place in 0..ordered.places() {
        if has_code(codes, ordered.code(place)) {
            set = set.with(alloc, place)?;
        }
    }
    Ok(set)
}

/// Returns whether `group` is connected. An empty group isn't connected.
fn is_connected<C: CountySet>(graph: &CountyGraph<C>, group: &C) -> Result<bool, AllocError>
    requires graph { IsGraph C.test C.PLACES graph.now }
    requires below { (x : ℕ) → C.test group.now x ≡ true → x < graph_places graph.now }
    ensures { IfOk result (λ is. IsTrue is
        ↔ Connected (place_problem graph.now) (places_of (graph_places graph.now) (C.test group.now))) }
{
    let Some(first) = group.next(0) else {
        return Ok(false);
    };
    let (part, _rest) = part_around(graph, group, first)?;
    Ok(part.size() == group.size())
}

/// Returns whether `group` is connected and fits `state`, in this `format`.
fn group_fits<C: CountySet>(
    graph: &CountyGraph<C>,
    format: Format,
    state: &State<C>,
    group: &C,
) -> Result<bool, AllocError>
    requires graph { IsGraph C.test C.PLACES graph.now }
    requires placed { IsPlaced (graph_places graph.now) C.test state.now }
    requires below { (x : ℕ) → C.test group.now x ≡ true → x < graph_places graph.now }
    ensures { IfOk result (λ fit. IsTrue fit
        ↔ Fits format (graph_problem graph.now)
        (state_at (graph_order graph.now) C.test state.now)
        (codes_of_set (graph_order graph.now) C.test group.now)) }
{
    if !is_connected(graph, group)? {
        return Ok(false);
    }
    let people = people_in(graph.ordered, group);
    fits(graph, format, state, group, people)
}

/// Returns the set of the places of `group`, or `None` if the group may not be closed at `state` in this `round`. It
/// may be closed if it has at most as many counties as the limit, names them in the order of places, and fits the
/// state.
fn told_group<C: CountySet>(
    graph: &CountyGraph<C>,
    round: &Round,
    state: &State<C>,
    group: &Codes,
) -> Result<Option<C>, AllocError>
    requires graph { IsGraph C.test C.PLACES graph.now }
    requires placed { IsPlaced (graph_places graph.now) C.test state.now }
    ensures codes { IfOk result (λ found. IfSome found (λ set.
        codes_of_set (graph_order graph.now) C.test set ≡ group.now)) }
    ensures below { IfOk result (λ found. IfSome found (λ set.
        (x : ℕ) → C.test set x ≡ true → x < graph_places graph.now)) }
    ensures can { IfOk result (λ found. IfSome found (λ _. CanClose (graph_problem graph.now) (graph_order graph.now)
        (round_of round.now) (state_at (graph_order graph.now) C.test state.now) group.now)) }
    ensures none { IfOk result (λ found. found ≡ None → ¬ CanClose (graph_problem graph.now) (graph_order graph.now)
        (round_of round.now) (state_at (graph_order graph.now) C.test state.now) group.now) }
{
    if group.as_slice().len() > usize::from(round.limit) {
        return Ok(None);
    }
    let set = places_with(graph.alloc, graph.ordered, group.as_slice())?;
    if graph.ordered.codes_of(graph.alloc, &set)? != *group {
        return Ok(None);
    }
    if !group_fits(graph, round.format, state, &set)? {
        return Ok(None);
    }
    Ok(Some(set))
}

/// Returns the state that comes from `state` when the `groups` are closed, one after the other. Returns `None` if one
/// of them may not be closed in this `round`.
pub(crate) fn close_told<C: CountySet>(
    graph: &CountyGraph<C>,
    round: &Round,
    state: State<C>,
    groups: &[Codes],
) -> Result<Option<State<C>>, AllocError>
    requires graph { IsGraph C.test C.PLACES graph.now }
    requires placed { IsPlaced (graph_places graph.now) C.test state }
    ensures placed { IfOk result (λ found. IfSome found (IsPlaced (graph_places graph.now) C.test)) }
    ensures value { IfOk result (λ found. IfSome found (λ s. state_at (graph_order graph.now) C.test s
        ≡ close_all groups.now (state_at (graph_order graph.now) C.test state))) }
    ensures can { IfOk result (λ found. IfSome found (λ _. EachCanClose (graph_problem graph.now)
        (graph_order graph.now) (round_of round.now) groups.now (state_at (graph_order graph.now) C.test state))) }
    ensures none { IfOk result (λ found. found ≡ None → ¬ EachCanClose (graph_problem graph.now) (graph_order graph.now)
        (round_of round.now) groups.now (state_at (graph_order graph.now) C.test state)) }
{
    let mut state = state;
    'closing: for group in groups {
        let Some(set) = told_group(graph, round, &state, group)? else {
            return Ok(None);
        };
        state = closed_state(graph.alloc, graph.ordered, &state, &set)?;
    }
    Ok(Some(state))
}
