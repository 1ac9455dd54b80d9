//! Count lines. The quota of one is the size of a group, and each county of a group that fits has weight 1.

ghost use Rattle.std.specs.{Prelude.{◌≡◌, ℕ, ◌≤◌, map, length, IfOk}, Vec.vec_items, List.list_any};
ghost use Rattle.county_problem.specs.ProblemValue.{problem_of};
ghost use Rattle.certificate_data.specs.Round.{Round as RoundValue};
ghost use Rattle.certificate_laws.specs.State.{State as StateValue};
ghost use Rattle.certificate_laws.specs.Search.{IsCountLine, AreCountLines};
ghost use Rattle.certificate_data.specs.TreeValue.{allowance_of};
ghost use Rattle.bound_proofs.specs.CountLeaves.{has_county, IsListOf, AreListsFrom};

use certificate_data::{Allowance, Weight, Weights};
use county_codes::CountyCode;
use county_problem::Ordered;
use place_sets::CountySet;
use std::alloc::{AllocError, Global};

/// Returns the set of the places of all `groups`.
pub(crate) fn places_in<C: CountySet>(alloc: Global, groups: &[C]) -> Result<C, AllocError>
    ensures { IfOk result (λ s. (x : ℕ) → C.test s x ≡ list_any (λ g. C.test g x) groups.now) }
{
    let mut places = C::empty(alloc)?;
    for group in groups {
        places = places.union(alloc, group)?;
    }
    Ok(places)
}

/// Returns whether the `set` has the place of the county with this `code`. A code that the order lacks has no place.
fn is_among<C: CountySet>(ordered: &Ordered, set: &C, code: CountyCode) -> bool
    requires { length ordered.now.order ≤ C.PLACES }
    ensures { result ≡ has_county ordered.now.order C.test set.now code }
{
    let _places = ordered.places();
    match ordered.place_of(code) {
        Some(place) => set.has(place),
        None => false,
    }
}

/// Builds the count line for a `size`, in counties, from the `groups` of that size that fit. Its quota is the size, and
/// each county of a group has weight 1.
fn count_line<C: CountySet>(
    alloc: Global,
    ordered: &Ordered,
    size: u16,
    groups: &[C],
) -> Result<Allowance, AllocError>
    requires { length ordered.now.order ≤ C.PLACES }
    ensures { IfOk
        result
        (λ line. (round : RoundValue) (s : StateValue)
        → round.order ≡ ordered.now.order
        → IsListOf C.test ordered.now.order (problem_of ordered.now.problem) round s size groups.now
        → IsCountLine round.format (problem_of ordered.now.problem) s size (allowance_of line)) }
{
    let _places = ordered.places();
    let counted = places_in(alloc, groups)?;
    let counties = ordered.problem().counties();
    let mut weights = Vec::new(alloc);
    for county in counties {
        if is_among(ordered, &counted, county.code) {
            weights.push(Weight {
                county: county.code,
                weight: 1,
            })?;
        }
    }
    Ok(Allowance::Weigh {
        quota: u32::from(size),
        weights: Weights::new(weights),
    })
}

/// Builds the count lines for the sizes from 1 on. The `lists` are those of the groups of these sizes that fit, and
/// each gives one line.
pub(crate) fn count_lines<C: CountySet>(
    alloc: Global,
    ordered: &Ordered,
    lists: &[Vec<C>],
) -> Result<Vec<Allowance>, AllocError>
    requires fits { length ordered.now.order ≤ C.PLACES }
    requires few { length lists.now ≤ 65535 }
    ensures count { IfOk result (λ v. length v.items ≡ length lists.now) }
    ensures lines { IfOk
        result
        (λ v. (round : RoundValue) (s : StateValue)
        → round.order ≡ ordered.now.order
        → AreListsFrom C.test ordered.now.order (problem_of ordered.now.problem) round s 1 (map vec_items lists.now)
        → AreCountLines round.format (problem_of ordered.now.problem) s 1 (map allowance_of v.items)) }
{
    let mut lines = Vec::new(alloc);
    let mut size = 0;
    for groups in lists {
        size += 1;
        lines.push(count_line(alloc, ordered, size, groups)?)?;
    }
    Ok(lines)
}
