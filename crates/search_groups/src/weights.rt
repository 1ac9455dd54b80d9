//! The weights with which the counties begin.

ghost use Rattle.std.specs.Prelude.{◌≡◌, ◌≤◌, length, All, IfOk};

use place_sets::CountySet;
use std::alloc::{AllocError, Global};

/// Returns weights by place, for this number of `places`. Each county of the set weighs `weight`, and the others weigh
/// 0.
pub(crate) fn uniform<C: CountySet>(
    alloc: Global,
    places: u16,
    set: &C,
    weight: u32,
) -> Result<Vec<u32>, AllocError>
    requires fits { places ≤ C.PLACES }
    requires small { weight ≤ 1000000 }
    ensures count { IfOk result (λ v. length v.items ≡ places) }
    ensures range { IfOk result (λ v. All (λ w. w ≤ 1000000) v.items) }
{
    let mut weights = Vec::with_capacity(alloc, usize::from(places))?;
    for place in 0..places {
        let here = if set.has(place) { weight } else { 0 };
        weights.push(here)?;
    }
    Ok(weights)
}
