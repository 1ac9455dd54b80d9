//! The order of groups and groupings.

ghost use Rattle.std.specs.{Prelude.{◌≡◌, ℕ, List, IfOk}, Cmp.Lexicographic.slice_cmp, Ordering.{nat_cmp, is_lt}};
ghost use Rattle.std.specs.List.Sorted.{IsPermutation, IsSortedBy};
ghost use Rattle.grouping_laws.specs.Grouping.{sets_of};
ghost use Rattle.list_groupings.specs.Keys.{set_order};

use county_codes::{Codes, CountyCode, Group, Grouping};
use std::alloc::AllocError;
use std::cmp::Ordering;

/// Compares the sets of counties `a` and `b` by size, and sets of one size by their codes.
fn by_size_and_codes(a: &[CountyCode], b: &[CountyCode]) -> Ordering
    ensures { result ≡ set_order a.now b.now }
{
    match a.len().cmp(&b.len()) {
        Ordering::Equal => a.cmp(b),
        unequal => unequal,
    }
}

/// Compares the lists of groups `a` and `b` by the first sets in which they differ. If one list begins with all sets of
/// the other, the shorter list comes first.
fn by_groups(a: &[Group], b: &[Group]) -> Ordering
    ensures { result ≡ slice_cmp set_order (sets_of a.now) (sets_of b.now) }
{
    for (i, group) in a.iter().enumerate() {
        let Some(other) = b.get(i) else {
            return Ordering::Greater;
        };
        match by_size_and_codes(group.codes.as_slice(), other.codes.as_slice()) {
            Ordering::Equal => {}
            unequal => return unequal,
        }
    }
    a.len().cmp(&b.len())
}

/// Returns `sets` sorted by size, and sets of one size by their codes. Returns `AllocError` if memory was refused.
pub(crate) fn sorted_sets(sets: Vec<Codes>) -> Result<Vec<Codes>, AllocError>
    ensures same { IfOk result (λ v. IsPermutation sets.items v.items) }
    ensures sorted { IfOk result (λ v. IsSortedBy (λ g h. is_lt (set_order g h)) v.items) }
{
    let mut sets = sets;
    sets.sort_by(|a, b| by_size_and_codes(a.as_slice(), b.as_slice()))?;
    Ok(sets)
}

/// Returns the groupings of `list` sorted by their lists of groups. Returns `AllocError` if memory was refused.
pub(crate) fn sorted_groupings(list: Vec<Grouping>) -> Result<Vec<Grouping>, AllocError>
    ensures same { IfOk result (λ v. IsPermutation list.items v.items) }
    ensures sorted { IfOk
        result
        (λ v. IsSortedBy (λ g h. is_lt (slice_cmp set_order (sets_of g.groups.items) (sets_of h.groups.items))) v.items) }
{
    let mut list = list;
    list.sort_by(|a, b| by_groups(&a.groups, &b.groups))?;
    Ok(list)
}
