//! The places of a set ordered by their people, and the people of the first ones.

ghost use Rattle.std.specs.Prelude.{◌≡◌, ℕ, true, ◌<◌, ◌≤◌, ◌^◌, IfOk, All, List, length, filter, take};
ghost use Rattle.grouping_laws.specs.Sets.{sum_by};
ghost use Rattle.county_problem.specs.OrderedValue.{problem_at};
ghost use Rattle.state_groups.specs.People.{AreByPeople};

use county_problem::Ordered;
use place_sets::CountySet;
use std::alloc::{AllocError, Global};

/// Returns the people and the place of each place of `set`. The places with the fewest people come first.
pub(crate) fn places_by_people<C: CountySet>(
    alloc: Global,
    ordered: &Ordered,
    set: &C,
) -> Result<Vec<(u32, u16)>, AllocError>
    requires fits { length ordered.now.order ≤ C.PLACES }
    requires below { (x : ℕ) → C.test set.now x ≡ true → x < length ordered.now.order }
    ensures { IfOk result (λ v. AreByPeople (problem_at ordered.now) (length ordered.now.order) (C.test set.now) v.items) }
{
    let mut places = Vec::new(alloc);
    for place in 0..ordered.places() {
        if set.has(place) {
            places.push((ordered.people(place), place))?;
        }
    }
    places.sort_by_key(|row| row.0)?;
    Ok(places)
}

/// Returns the people of the first `count` places of the list that are in the set. If there are fewer such places, it
/// returns the people of all of them.
pub(crate) fn first_people<C: CountySet>(places: &[(u32, u16)], set: &C, count: u32) -> u64
    requires few { length places.now ≤ 65536 }
    requires below { All (λ r. r.1 < C.PLACES) places.now }
    ensures sum { result ≡ sum_by (λ r. r.0) (take count (filter (λ r. C.test set.now r.1) places.now)) }
    ensures bound { result ≤ 2 ^ 48 }
{
    let mut people = 0;
    let mut left = count;
    for row in places {
        if left == 0 {
            return people;
        }
        if set.has(row.1) {
            people += u64::from(row.0);
            left -= 1;
        }
    }
    people
}
