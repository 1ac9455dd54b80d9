//! The sets that leave a part of the rest behind which no groups can fill, tested where the last move of a growth
//! changed something.

ghost use Rattle.std.specs.Prelude.{◌≡◌, ℕ, true, false, ◌<◌, ◌≤◌, length, IfOk, IsTrue, ◌&&◌, not};
ghost use Rattle.place_sets.specs.PlaceSets.{places_of};
ghost use Rattle.county_problem.specs.OrderedValue.{problem_at};
ghost use Rattle.connected_sets.specs.Graphs.{graph_places, place_problem, IsGraph};
ghost use Rattle.state_groups.specs.StateValue.{state_of};
ghost use Rattle.state_groups.specs.Stranding.{NoneFits, IsTooSmall, IsStranded, StrandedPart};

use crate::state::State;
use crate::stuck_parts::{asks_more, is_stuck};
use crate::sums::people_in;
use crate::tables::Enough;
use certificate_data::Format;
use connected_sets::{CountyGraph, Growth, Move, part_around};
use county_problem::Ordered;
use place_sets::CountySet;
use std::alloc::{AllocError, Global};

/// Returns whether the set `part` is too small for one of its places that isn't `free`. It is if it has fewer people
/// than one seat asks for, or fewer places than that place asks for. Then nothing of the set around the place can be
/// filled.
fn is_too_small<C: CountySet>(
    alloc: Global,
    ordered: &Ordered,
    state: &State<C>,
    part: &C,
    free: &C,
) -> Result<bool, AllocError>
    requires places { length state.now.least.items ≡ length ordered.now.order }
    requires below { (x : ℕ) → C.test part.now x ≡ true → x < length ordered.now.order }
    ensures { IfOk
        result
        (λ small. IsTrue small
        → IsTooSmall (problem_at ordered.now) (state_of C.test state.now) (C.test free.now) (places_of (length ordered.now.order) (C.test part.now))) }
{
    let _places = ordered.places();
    let kept = part.copy(alloc)?.minus(free);
    let Some(_place) = kept.next(0) else {
        return Ok(false);
    };
    let problem = ordered.problem();
    if people_in(ordered, part) < problem.district_bounds(1).0 {
        return Ok(true);
    }
    Ok(asks_more(state, &kept, part.size()))
}

/// Returns whether the set `part` is stranded. A set without a `free` place is stranded if it can't be filled. Any
/// other set is stranded if it is too small for a place that isn't free.
fn is_stranded<C: CountySet>(
    alloc: Global,
    ordered: &Ordered,
    state: &State<C>,
    part: &C,
    free: &C,
) -> Result<bool, AllocError>
    requires places { length state.now.least.items ≡ length ordered.now.order }
    requires below { (x : ℕ) → C.test part.now x ≡ true → x < length ordered.now.order }
    ensures { IfOk
        result
        (λ found. IsTrue found
        → IsStranded (problem_at ordered.now) (state_of C.test state.now) (C.test free.now) (places_of (length ordered.now.order) (C.test part.now))) }
{
    if !part.meets(free) {
        return Ok(is_stuck(ordered, state, part));
    }
    is_too_small(alloc, ordered, state, part, free)
}

/// Returns whether the part of `left` around `place` is seen to have a `free` place and enough of people and of counties,
/// so that it isn't stranded. The part is looked through from the place on, only until it is seen.
fn reaches_enough<C: CountySet>(
    graph: &CountyGraph<C>,
    left: &C,
    free: &C,
    place: u16,
    enough: Enough,
) -> Result<bool, AllocError>
    requires graph { IsGraph C.test C.PLACES graph.now }
    requires below { (x : ℕ) → C.test left.now x ≡ true → x < graph_places graph.now }
    requires there { C.test left.now place ≡ true }
{
    let mut rest = left.copy(graph.alloc)?.without(place);
    let mut front = graph.near[usize::from(place)]
        .copy(graph.alloc)?
        .intersection(&rest);
    let mut people = u64::from(graph.ordered.people(place));
    let mut counties = 1;
    let mut is_free = free.has(place);
    while let Some(next) = front.next(0) {
        if is_free && people >= enough.people && counties >= enough.counties {
            return Ok(true);
        }
        people = people.saturating_add(u64::from(graph.ordered.people(next)));
        counties = counties.saturating_add(1);
        is_free = is_free || free.has(next);
        rest = rest.without(next);
        front = front
            .union(graph.alloc, &graph.near[usize::from(next)])?
            .intersection(&rest);
    }
    Ok(is_free && people >= enough.people && counties >= enough.counties)
}

/// Returns whether the connected part of `left` around `place` is stranded at `state`, with these `free` places.
fn is_stranded_around<C: CountySet>(
    graph: &CountyGraph<C>,
    state: &State<C>,
    left: &C,
    free: &C,
    place: u16,
    enough: Enough,
) -> Result<bool, AllocError>
    requires graph { IsGraph C.test C.PLACES graph.now }
    requires places { length state.now.least.items ≡ graph_places graph.now }
    requires below { (x : ℕ) → C.test left.now x ≡ true → x < graph_places graph.now }
    requires there { C.test left.now place ≡ true }
    ensures { IfOk result (λ found. IsTrue found
        → StrandedPart (place_problem graph.now) (state_of C.test state.now) (C.test left.now) (C.test free.now)) }
{
    if reaches_enough(graph, left, free, place, enough)? {
        return Ok(false);
    }
    let (part, _others) = part_around(graph, left, place)?;
    is_stranded(graph.alloc, graph.ordered, state, &part, free)
}

/// Returns the places of `left` around which the `last` move changed something: the neighbours of a place that joined,
/// or the place that is no longer free.
fn changed_places<C: CountySet>(
    graph: &CountyGraph<C>,
    left: &C,
    last: Move,
) -> Result<C, AllocError>
    requires graph { IsGraph C.test C.PLACES graph.now }
    ensures { IfOk result (λ s. (x : ℕ) → C.test s x ≡ true → C.test left.now x ≡ true) }
{
    let empty = C::empty(graph.alloc)?;
    let around = match last {
        Move::Joined(place) => match graph.near.get(usize::from(place)) {
            Some(near) => near.copy(graph.alloc)?,
            None => empty,
        },
        Move::LeftOut(place) => {
            if place < graph.ordered.places() {
                empty.with(graph.alloc, place)?
            } else {
                empty
            }
        }
    };
    Ok(around.intersection(left))
}

/// Returns whether a connected part of `left` is stranded at `state`, with these `free` places, among those around the
/// `changed` places of `left`. Changed places that hang together lie in one part, which is looked at once.
fn has_stranded_part<C: CountySet>(
    graph: &CountyGraph<C>,
    state: &State<C>,
    left: &C,
    free: &C,
    changed: C,
    enough: Enough,
) -> Result<bool, AllocError>
    requires graph { IsGraph C.test C.PLACES graph.now }
    requires places { length state.now.least.items ≡ graph_places graph.now }
    requires below { (x : ℕ) → C.test left.now x ≡ true → x < graph_places graph.now }
    requires changed { (x : ℕ) → C.test changed x ≡ true → C.test left.now x ≡ true }
    ensures { IfOk result (λ found. IsTrue found
        → StrandedPart (place_problem graph.now) (state_of C.test state.now) (C.test left.now) (C.test free.now)) }
{
    let mut rest = changed;
    while let Some(place) = rest.next(0) {
        if is_stranded_around(graph, state, left, free, place, enough)? {
            return Ok(true);
        }
        let (_together, others) = part_around(graph, &rest, place)?;
        rest = others;
    }
    Ok(false)
}

/// Returns whether each group that has all of the growth's set, and otherwise only its free places, leaves a part
/// behind that can't be filled. Either no free place can reach that part, or it lies in a part of what the set leaves
/// that is too small for a place that isn't free. In a plain `format` no group is left out for that. Only the parts
/// that the last move of the `growth` changed are looked at, since the others were before.
///
/// # Errors
///
/// Returns an error if memory was refused.
pub(crate) fn strands<C: CountySet>(
    graph: &CountyGraph<C>,
    format: Format,
    state: &State<C>,
    growth: &Growth<C>,
    enough: Enough,
) -> Result<bool, AllocError>
    requires graph { IsGraph C.test C.PLACES graph.now }
    requires places { length state.now.least.items ≡ graph_places graph.now }
    requires below { (x : ℕ) → C.test state.now.rest x ≡ true → x < graph_places graph.now }
    ensures { IfOk
        result
        (λ none. IsTrue none
        → (limit : ℕ)
        → NoneFits format (place_problem graph.now) (graph_places graph.now) limit (state_of C.test state.now) (C.test growth.now.set) (C.test growth.now.free)) }
{
    match format {
        Format::Plain => Ok(false),
        Format::Wide => {
            let left = state.rest.copy(graph.alloc)?.minus(&growth.set);
            let changed = changed_places(graph, &left, growth.last)?;
            has_stranded_part(graph, state, &left, &growth.free, changed, enough)
        }
    }
}
