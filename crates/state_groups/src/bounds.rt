//! What limits the number of groups of a size that may still be closed: the room for them, and their weights.

ghost use Rattle.std.specs.Prelude.{◌≡◌, ℕ, true, ◌<◌, ◌≤◌, length, get_or, All, IfOk, IsTrue, ◌↔◌};
ghost use Rattle.grouping_laws.specs.Sets.{sum_by};
ghost use Rattle.place_sets.specs.PlaceSets.{places_of};
ghost use Rattle.county_problem.specs.OrderedValue.{problem_at};
ghost use Rattle.state_groups.specs.StateValue.{state_of};
ghost use Rattle.certificate_laws.specs.BoundLines.{room_at};

use crate::fitting::open_places;
use crate::state::State;
use crate::sums::weight_in;
use county_problem::Ordered;
use place_sets::CountySet;
use std::alloc::{AllocError, Global};

/// Returns the number of counties that are open to a group of `size` counties, less the `used` counties that smaller
/// groups take. Returns 0 if that would be negative.
pub fn room<C: CountySet>(
    alloc: Global,
    ordered: &Ordered,
    state: &State<C>,
    size: u16,
    used: u32,
) -> Result<u32, AllocError>
    requires fits { length ordered.now.order ≤ C.PLACES }
    requires places { length state.now.least.items ≡ length ordered.now.order }
    requires below { (x : ℕ) → C.test state.now.rest x ≡ true → x < length ordered.now.order }
    ensures { IfOk result (λ room. room ≡ room_at (problem_at ordered.now) (state_of C.test state.now) size used) }
{
    let _places = ordered.places();
    let region = open_places(alloc, state, size)?;
    Ok(region.size().saturating_sub(used))
}

/// Returns whether each of the `groups` weighs at least the `quota`. A group weighs the sum of the `weights` of its
/// places.
pub fn weigh_enough<C: CountySet>(weights: &[u32], quota: u64, groups: &[C]) -> bool
    requires few { length weights.now ≤ 65536 }
    requires below { All (λ g. (x : ℕ) → C.test g x ≡ true → x < length weights.now) groups.now }
    ensures { IsTrue result ↔ All (λ g. quota
        ≤ sum_by (λ i. get_or weights.now i 0) (places_of (length weights.now) (C.test g))) groups.now }
{
    for group in groups {
        if weight_in(weights, group) < quota {
            return false;
        }
    }
    true
}
