//! The places after the one at which a search begins, and the most people of one of these.

ghost use Rattle.std.specs.Prelude.{◌≡◌, ℕ, ◌<◌, ◌≤◌, length, IfOk};
ghost use Rattle.connected_groups.specs.Search.{problem_at, HasMost, later};

use county_problem::Ordered;
use place_sets::CountySet;
use std::alloc::{AllocError, Global};

/// Returns the set of the places after `place` that are below `places`.
pub(crate) fn later_places<C: CountySet>(
    alloc: Global,
    places: u16,
    place: u16,
) -> Result<C, AllocError>
    requires { places ≤ C.PLACES }
    ensures { IfOk result (λ s. (x : ℕ) → C.test s x ≡ later places place x) }
{
    let mut free = C::empty(alloc)?;
    for other in 0..places {
        if place < other {
            free = free.with(alloc, other)?;
        }
    }
    Ok(free)
}

/// Returns the most people that any place after `place` has, or 0 if there is no such place.
pub(crate) fn most_after(ordered: &Ordered, place: u16) -> u32
    ensures { HasMost (problem_at ordered.now) (later (length ordered.now.order) place) result }
{
    let mut most = 0;
    for other in 0..ordered.places() {
        if other > place {
            most = most.max(ordered.people(other));
        }
    }
    most
}
