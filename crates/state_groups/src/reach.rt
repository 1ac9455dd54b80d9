//! The places that a set reaches by a number of moves to adjacent free places.

ghost use Rattle.std.specs.Prelude.{◌≡◌, ℕ, ◌+◌, ◌||◌, true, List, ◌<◌, ◌≤◌, IfOk, length};
ghost use Rattle.place_sets.specs.PlaceSets.{places_of};
ghost use Rattle.connected_sets.specs.{Growths.{problem_in, places_in}, Graphs.{graph_places, place_problem, IsGraph}};
ghost use Rattle.connected_laws.specs.Growing.{IsGrowth, IsFront, IsExtension};

use connected_sets::{CountyGraph, Growth, GrowthInput};
use place_sets::CountySet;
use std::alloc::AllocError;

/// Returns the places that are adjacent to a place of `set`.
fn neighbours_of<C: CountySet>(graph: &CountyGraph<C>, set: &C) -> Result<C, AllocError>
    requires graph { IsGraph C.test C.PLACES graph.now }
    requires below { (x : ℕ) → C.test set.now x ≡ true → x < graph_places graph.now }
    ensures { IfOk
        result
        (λ s. (x y : ℕ) → C.test set.now x ≡ true → y < graph_places graph.now
        → (place_problem graph.now).adjacent x y ≡ true → C.test s y ≡ true) }
{
    let mut found = C::empty(graph.alloc)?;
    let mut from = 0;
    while let Some(place) = set.next(from) {
        found = found.union(graph.alloc, &graph.near[usize::from(place)])?;
        from = u32::from(place) + 1;
    }
    Ok(found)
}

/// Returns the free places that are adjacent to the `edge` and aren't reached yet.
fn beyond<C: CountySet>(
    input: &GrowthInput<C>,
    free: &C,
    edge: &C,
    reach: &C,
) -> Result<C, AllocError>
    requires graph { IsGraph C.test C.PLACES input.now.graph.now }
    requires below { (x : ℕ) → C.test free.now x ≡ true → x < places_in input.now }
    requires edge { (x : ℕ) → C.test edge.now x ≡ true → C.test free.now x ≡ true }
    ensures free { IfOk result (λ s. (y : ℕ) → C.test s y ≡ true → C.test free.now y ≡ true) }
    ensures all { IfOk
        result
        (λ s. (x y : ℕ)
        → C.test edge.now x ≡ true
        → C.test free.now y ≡ true
        → (problem_in input.now).adjacent x y ≡ true
        → (C.test reach.now y || C.test s y) ≡ true) }
{
    let near = neighbours_of(input.graph, edge)?;
    Ok(near.intersection(free).minus(reach))
}

/// Returns the free places that the set reaches by at most this number of `moves`. Each move goes to an adjacent free
/// place.
pub(crate) fn reached<C: CountySet>(
    input: &GrowthInput<C>,
    growth: &Growth<C>,
    moves: u32,
) -> Result<C, AllocError>
    requires graph { IsGraph C.test C.PLACES input.now.graph.now }
    requires growth { IsGrowth (problem_in input.now) (places_in input.now) input.now.limit (C.test growth.now.set) (C.test growth.now.free) }
    requires front { IsFront (problem_in input.now) (C.test growth.now.set) (C.test growth.now.free) (C.test growth.now.front) }
    requires moves { input.now.limit ≤ length (places_of (places_in input.now) (C.test growth.now.set))
        + moves }
    ensures free { IfOk result (λ s. (x : ℕ) → C.test s x ≡ true → C.test growth.now.free x ≡ true) }
    ensures all { IfOk
        result
        (λ s. (g : List ℕ)
        → IsExtension (problem_in input.now) (places_in input.now) input.now.limit (C.test growth.now.set) (C.test growth.now.free) g
        → IsExtension (problem_in input.now) (places_in input.now) input.now.limit (C.test growth.now.set) (C.test s) g) }
{
    let mut edge = growth.front.copy(input.graph.alloc)?;
    let mut reach = growth.front.copy(input.graph.alloc)?;
    let mut moved = 1;
    while moved < moves {
        edge = beyond(input, &growth.free, &edge, &reach)?;
        if edge.next(0).is_none() {
            return Ok(reach);
        }
        reach = reach.union(input.graph.alloc, &edge)?;
        moved += 1;
    }
    Ok(reach)
}
