//! The places that groups cover, the weight of the lightest group, and the groups that have each place.

ghost use Rattle.std.specs.{Prelude.{◌≡◌, ℕ, true, ◌+◌, ◌<◌, ◌≤◌, length, All, IfOk, OnOk}, List.list_any};
ghost use Rattle.county_codes.specs.Limits.{most_counties};
ghost use Rattle.connected_laws.specs.Listing.{AreBelow};

use place_sets::CountySet;
use state_groups::weight_in;
use std::alloc::{AllocError, Global};

/// Returns the places that some of the `groups` have.
pub(crate) fn covered_by<C: CountySet>(alloc: Global, groups: &[C]) -> Result<C, AllocError>
    ensures { IfOk result (λ s. (x : ℕ) → C.test s x ≡ list_any (λ g. C.test g x) groups.now) }
{
    let mut covered = C::empty(alloc)?;
    for group in groups {
        covered = covered.union(alloc, group)?;
    }
    Ok(covered)
}

/// Returns the weight of the lightest of the `groups`, of which there is at least one. The weight of a group is the sum
/// of the `weights` at its places.
pub(crate) fn least_weight<C: CountySet>(weights: &[u32], groups: &[C]) -> u64
    requires few { length weights.now ≤ most_counties }
    requires below { AreBelow (length weights.now) C.test groups.now }
{
    let mut least = u64::MAX;
    for group in groups {
        least = least.min(weight_in(weights, group));
    }
    least
}

/// Returns an empty list for each of this number of `places`.
fn empty_lists(alloc: Global, places: u16) -> Result<Vec<Vec<u16>>, AllocError>
    ensures count { IfOk result (λ v. length v.items ≡ places) }
    ensures empty { IfOk result (λ v. All (λ list. length list.items ≡ 0) v.items) }
{
    let mut lists = Vec::with_capacity(alloc, usize::from(places))?;
    for _place in 0..places {
        lists.push(Vec::new(alloc))?;
    }
    Ok(lists)
}

/// Appends `index` to the list of each place of `group`.
fn put_index<C: CountySet>(lists: &mut [Vec<u16>], group: &C, index: u16) -> Result<(), AllocError>
    requires within { (x : ℕ) → C.test group.now x ≡ true → x < length lists.old }
    requires below { All (λ v. All (λ i. i < index) v.items) lists.old }
    ensures count { length lists.new ≡ length lists.old }
    ensures below { OnOk result (All (λ v. All (λ i. i < index + 1) v.items) lists.new) }
{
    let mut from = 0;
    while let Some(place) = group.next(from) {
        lists[usize::from(place)].push(index)?;
        from = u32::from(place) + 1;
    }
    Ok(())
}

/// Returns, for each of this number of `places`, the indices of the `groups` that have it.
///
/// # Errors
///
/// Returns an error if memory was refused.
pub(crate) fn having_lists<C: CountySet>(
    alloc: Global,
    places: u16,
    groups: &[C],
) -> Result<Vec<Vec<u16>>, AllocError>
    requires few { length groups.now ≤ 65536 }
    requires below { AreBelow places C.test groups.now }
    ensures count { IfOk result (λ v. length v.items ≡ places) }
    ensures below { IfOk result (λ v. All (λ list. All (λ i. i < length groups.now) list.items) v.items) }
{
    let mut lists = empty_lists(alloc, places)?;
    for (index, group) in groups.iter().enumerate() {
        put_index(&mut lists, group, index as u16)?;
    }
    Ok(lists)
}
