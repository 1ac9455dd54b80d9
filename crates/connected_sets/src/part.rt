//! The connected part of a region around one of its places.

ghost use Rattle.std.specs.Prelude.{◌≡◌, ℕ, true, ◌<◌, ◌≤◌, ◌&&◌, not, length, IfOk};
ghost use Rattle.grouping_laws.specs.Parts.{IsPart};
ghost use Rattle.place_sets.specs.PlaceSets.{places_of};
ghost use Rattle.connected_sets.specs.Graphs.{graph_places, place_problem, IsGraph};

use crate::county_graph::CountyGraph;
use place_sets::CountySet;
use std::alloc::AllocError;

/// Returns the connected part of a `region` around `place`, one of its places, and what is left of the region. Each
/// place of the part is taken from the front once.
pub fn part_around<C: CountySet>(
    graph: &CountyGraph<C>,
    region: &C,
    place: u16,
) -> Result<(C, C), AllocError>
    requires graph { IsGraph C.test C.PLACES graph.now }
    requires below { (x : ℕ) → C.test region.now x ≡ true → x < graph_places graph.now }
    requires there { C.test region.now place ≡ true }
    ensures part { IfOk result (λ r. IsPart (place_problem graph.now) (C.test region.now) (places_of (graph_places graph.now) (C.test r.0))) }
    ensures inside { IfOk result (λ r. (x : ℕ) → C.test r.0 x ≡ true → C.test region.now x ≡ true) }
    ensures around { IfOk result (λ r. C.test r.0 place ≡ true) }
    ensures rest { IfOk result (λ r. (x : ℕ) → C.test r.1 x ≡ (C.test region.now x && not (C.test r.0 x))) }
{
    let mut part = C::empty(graph.alloc)?.with(graph.alloc, place)?;
    let mut rest = region.copy(graph.alloc)?.without(place);
    let mut front = graph.near[usize::from(place)]
        .copy(graph.alloc)?
        .intersection(&rest);
    while let Some(next) = front.next(0) {
        part = part.with(graph.alloc, next)?;
        rest = rest.without(next);
        front = front
            .union(graph.alloc, &graph.near[usize::from(next)])?
            .intersection(&rest);
    }
    Ok((part, rest))
}
