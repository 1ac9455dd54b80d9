//! The county at which a branch is made, chosen by the weights of the counties.

ghost use Rattle.std.specs.Prelude.{◌≡◌, ℕ, true, false, ◌<◌, ◌≤◌, length, All, Contains, IfOk, MatchOption};
ghost use Rattle.county_codes.specs.Limits.{most_counties};
ghost use Rattle.connected_laws.specs.Listing.{AreBelow};

use crate::sets::{covered_by, least_weight};
use place_sets::CountySet;
use std::alloc::{AllocError, Global};

/// Returns the places of a set, all below `places`, whose weight is at least a sixth of the `quota`.
fn heavy_places<C: CountySet>(set: C, places: u16, weights: &[u32], quota: u64) -> C
    requires fits { places ≤ C.PLACES }
    requires count { length weights.now ≡ places }
    ensures { (x : ℕ) → C.test result x ≡ true → C.test set x ≡ true }
{
    let mut heavy = set;
    for place in 0..places {
        if 6 * u64::from(weights[usize::from(place)]) < quota {
            heavy = heavy.without(place);
        }
    }
    heavy
}

/// Returns how many of the `groups` have `place`.
fn groups_at<C: CountySet>(groups: &[C], place: u16) -> usize
    requires fits { place < C.PLACES }
{
    groups.iter().filter(|group| group.has(place)).count()
}

/// Returns the place of `set` that the fewest of the `groups` have, and the least of them if there are several. Returns
/// `None` if the set has no place.
fn fewest_groups<C: CountySet>(groups: &[C], set: &C) -> Option<u16>
    ensures { MatchOption result ((x : ℕ) → C.test set.now x ≡ false) (λ place. C.test set.now place ≡ true) }
{
    let mut best = set.next(0)?;
    let mut fewest = groups_at(groups, best);
    let mut from = u32::from(best) + 1;
    while let Some(place) = set.next(from) {
        let count = groups_at(groups, place);
        if count < fewest {
            fewest = count;
            best = place;
        }
        from = u32::from(place) + 1;
    }
    Some(best)
}

/// Returns a county to branch at, by its place, which is below `places`. It is a county that is in the fewest of the
/// `groups`, among those whose weight in `weights` is at least a sixth of the lightest group's. If no county is that
/// heavy, it is chosen among all counties of the groups. Returns `None` if no group has a county.
///
/// # Errors
///
/// Returns an error if memory was refused.
pub fn county_of_choice<C: CountySet>(
    alloc: Global,
    places: u16,
    groups: &[C],
    weights: &[u32],
) -> Result<Option<u16>, AllocError>
    requires fits { places ≤ C.PLACES }
    requires few { places ≤ most_counties }
    requires below { AreBelow places C.test groups.now }
    requires count { length weights.now ≡ places }
    ensures { IfOk
        result
        (λ c. MatchOption
        c
        (All (λ g. (x : ℕ) → C.test g x ≡ false) groups.now)
        (λ place. (g : C) × Contains groups.now g × (C.test g place ≡ true))) }
{
    if groups.is_empty() {
        return Ok(None);
    }
    let covered = covered_by(alloc, groups)?;
    let quota = least_weight(weights, groups);
    let heavy = heavy_places(covered.copy(alloc)?, places, weights, quota);
    match fewest_groups(groups, &heavy) {
        Some(place) => Ok(Some(place)),
        None => Ok(fewest_groups(groups, &covered)),
    }
}
