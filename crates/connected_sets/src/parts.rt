//! All connected parts of a region.

ghost use Rattle.std.specs.Prelude.{◌≡◌, ℕ, true, ◌<◌, ◌≤◌, length, map, All, IfOk};
ghost use Rattle.grouping_laws.specs.Parts.{AreParts};
ghost use Rattle.place_sets.specs.PlaceSets.{places_of};
ghost use Rattle.connected_sets.specs.Graphs.{graph_places, place_problem, IsGraph};

use crate::county_graph::CountyGraph;
use crate::part::part_around;
use place_sets::CountySet;
use std::alloc::AllocError;

/// Returns the connected parts of a `region`, in the order of their first places. Each place of the region is in one of
/// them.
pub fn parts_of<C: CountySet>(graph: &CountyGraph<C>, region: &C) -> Result<Vec<C>, AllocError>
    requires graph { IsGraph C.test C.PLACES graph.now }
    requires below { (x : ℕ) → C.test region.now x ≡ true → x < graph_places graph.now }
    ensures parts { IfOk
        result
        (λ v. AreParts (place_problem graph.now) (C.test region.now) (map (λ s. places_of (graph_places graph.now) (C.test s)) v.items)) }
    ensures few { IfOk result (λ v. length v.items ≤ graph_places graph.now) }
    ensures inside { IfOk result (λ v. All (λ s. (x : ℕ) → C.test s x ≡ true → C.test region.now x ≡ true) v.items) }
{
    let mut parts = Vec::new(graph.alloc);
    let mut rest = region.copy(graph.alloc)?;
    while let Some(place) = rest.next(0) {
        let (part, left) = part_around(graph, &rest, place)?;
        parts.push(part)?;
        rest = left;
    }
    Ok(parts)
}
