//! The people of a set, and its weight.

ghost use Rattle.std.specs.Prelude.{◌≡◌, ℕ, true, ◌<◌, ◌≤◌, length, get_or};
ghost use Rattle.grouping_laws.specs.{Sets.sum_by, Problem.people_of};
ghost use Rattle.place_sets.specs.PlaceSets.{places_of};
ghost use Rattle.county_problem.specs.OrderedValue.{problem_at};

use county_problem::Ordered;
use place_sets::CountySet;

/// Returns the people of the counties at the places of `set`.
pub fn people_in<C: CountySet>(ordered: &Ordered, set: &C) -> u64
    requires below { (x : ℕ) → C.test set.now x ≡ true → x < length ordered.now.order }
    ensures value { result
        ≡ people_of (problem_at ordered.now) (places_of (length ordered.now.order) (C.test set.now)) }
    ensures bound { result ≤ ordered.now.problem.total_people }
{
    let _places = ordered.places();
    let _at_most = ordered.problem().total_people();
    let mut people = 0;
    let mut from = 0;
    while let Some(place) = set.next(from) {
        people += u64::from(ordered.people(place));
        from = u32::from(place) + 1;
    }
    people
}

/// Returns the sum of the `weights` at the places of `set`.
pub fn weight_in<C: CountySet>(weights: &[u32], set: &C) -> u64
    requires few { length weights.now ≤ 65536 }
    requires below { (x : ℕ) → C.test set.now x ≡ true → x < length weights.now }
    ensures { result ≡ sum_by (λ i. get_or weights.now i 0) (places_of (length weights.now) (C.test set.now)) }
{
    let mut weight = 0;
    let mut from = 0;
    while let Some(place) = set.next(from) {
        weight += u64::from(weights[usize::from(place)]);
        from = u32::from(place) + 1;
    }
    weight
}
