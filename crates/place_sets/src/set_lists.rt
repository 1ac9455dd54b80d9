//! Lists of sets: equal sets, and sets ordered by size and then by places.

ghost use Rattle.std.specs.{Prelude.{◌≡◌, ℕ, map, IfOk}, Cmp.Lexicographic.slice_cmp, Ordering.{nat_cmp, is_lt}};
ghost use Rattle.std.specs.List.Sorted.{IsPermutation, IsSortedBy};
ghost use Rattle.place_sets.specs.PlaceSets.{lists_of, sort_key, AreBelow};

use crate::county_set::CountySet;
use crate::size_order::by_size_and_places;
use std::alloc::{AllocError, Global};

/// Returns sets that equal `sets`, in the same order.
pub fn copy_sets<C: CountySet>(alloc: Global, sets: &[C]) -> Result<Vec<C>, AllocError>
    ensures tests { IfOk result (λ v. map C.test v.items ≡ map C.test sets.now) }
    ensures places { IfOk result (λ v. (n : ℕ) → lists_of n C.test v.items ≡ lists_of n C.test sets.now) }
{
    let mut copies = Vec::new(alloc);
    for set in sets {
        copies.push(set.copy(alloc)?)?;
    }
    Ok(copies)
}

/// Returns `sets` sorted by size, and sets of one size by their lists of places. No list of places is made.
pub fn sorted<C: CountySet>(sets: Vec<C>) -> Result<Vec<C>, AllocError>
    ensures same { IfOk result (λ v. IsPermutation sets.items v.items) }
    ensures sorted { IfOk
        result
        (λ v. (n : ℕ)
        → AreBelow n C.test sets.items
        → IsSortedBy (λ g h. is_lt (slice_cmp nat_cmp (sort_key g) (sort_key h))) (lists_of n C.test v.items)) }
{
    let mut sets = sets;
    sets.sort_by(|a, b| by_size_and_places(a, b))?;
    Ok(sets)
}
