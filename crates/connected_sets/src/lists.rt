//! The places of a set as a list.

ghost use Rattle.std.specs.Prelude.{◌≡◌, ℕ, true, ◌<◌, ◌≤◌, IfOk};
ghost use Rattle.place_sets.specs.PlaceSets.{places_of};

use place_sets::CountySet;
use smallvec::SmallVec;
use std::alloc::{AllocError, Global};

/// Returns the places of a `set` as a list, ascending, as a take or a group names its counties. Most groups have at
/// most eight counties, and for these no memory is taken.
pub fn place_list<C: CountySet>(
    alloc: Global,
    places: u16,
    set: &C,
) -> Result<SmallVec<u16, 8>, AllocError>
    requires fits { places ≤ C.PLACES }
    ensures { IfOk result (λ list. list.items ≡ places_of places (C.test set.now)) }
{
    let mut list = SmallVec::new(alloc);
    for place in 0..places {
        if set.has(place) {
            list.push(place)?;
        }
    }
    Ok(list)
}
