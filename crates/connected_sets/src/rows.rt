//! The rows of neighbours: for each place of an order, the places adjacent to it.

ghost use Rattle.std.specs.Prelude.{◌≡◌, ℕ, ◌<◌, ◌≤◌, ◌&&◌, nat_lt, length, IfOk};
ghost use Rattle.connected_sets.specs.Graphs.{problem_at, AreRows};

use county_problem::Ordered;
use place_sets::CountySet;
use std::alloc::{AllocError, Global};

/// Returns the places adjacent to a `place`.
fn row<C: CountySet>(alloc: Global, ordered: &Ordered, place: u16) -> Result<C, AllocError>
    requires fits { length ordered.now.order ≤ C.PLACES }
    requires place { place < length ordered.now.order }
    ensures { IfOk result (λ s. (x : ℕ)
        → C.test s x ≡ (nat_lt x (length ordered.now.order) && (problem_at ordered.now).adjacent place x)) }
{
    let mut near = C::empty(alloc)?;
    for other in 0..ordered.places() {
        if ordered.touch(place, other) {
            near = near.with(alloc, other)?;
        }
    }
    Ok(near)
}

/// Returns the row of each place of `ordered`, in the order of the places. A row is the set of the places adjacent to a
/// place.
pub(crate) fn neighbour_rows<C: CountySet>(
    alloc: Global,
    ordered: &Ordered,
) -> Result<Vec<C>, AllocError>
    requires fits { length ordered.now.order ≤ C.PLACES }
    ensures { IfOk result (λ v. AreRows C C.test (problem_at ordered.now) (length ordered.now.order) v.items) }
{
    let mut near = Vec::new(alloc);
    for place in 0..ordered.places() {
        near.push(row(alloc, ordered, place)?)?;
    }
    Ok(near)
}
