//! The growth that begins with one place.

ghost use Rattle.std.specs.Prelude.{◌≡◌, ℕ, true, ◌<◌, ◌≤◌, length, IfOk};
ghost use Rattle.connected_laws.specs.Growing.{only, IsFront};
ghost use Rattle.connected_sets.specs.Graphs.{graph_places, place_problem, IsGraph};

use crate::county_graph::CountyGraph;
use crate::input::{Growth, Move};
use place_sets::CountySet;
use std::alloc::{AllocError, Global};

/// Returns the set of one `place`.
fn only_place<C: CountySet>(alloc: Global, place: u16) -> Result<C, AllocError>
    requires { place < C.PLACES }
    ensures { IfOk result (λ s. (x : ℕ) → C.test s x ≡ only place x) }
{
    C::empty(alloc)?.with(alloc, place)
}

/// Returns the growth that begins with the `place` alone. The places of `free` are the free ones.
pub fn start_growth<C: CountySet>(
    graph: &CountyGraph<C>,
    place: u16,
    free: C,
) -> Result<Growth<C>, AllocError>
    requires graph { IsGraph C.test C.PLACES graph.now }
    requires place { place < graph_places graph.now }
    requires below { (x : ℕ) → C.test free x ≡ true → x < graph_places graph.now }
    ensures set { IfOk result (λ s. (x : ℕ) → C.test s.set x ≡ only place x) }
    ensures free { IfOk result (λ s. s.free ≡ free) }
    ensures front { IfOk result (λ s. IsFront (place_problem graph.now) (C.test s.set) (C.test s.free) (C.test s.front)) }
    ensures people { IfOk result (λ s. s.people ≡ (place_problem graph.now).people place) }
{
    let people = u64::from(graph.ordered.people(place));
    let set = only_place(graph.alloc, place)?;
    let beside = graph.near[usize::from(place)].copy(graph.alloc)?;
    let front = beside.intersection(&free);
    Ok(Growth {
        set,
        people,
        front,
        free,
        last: Move::Joined(place),
    })
}
