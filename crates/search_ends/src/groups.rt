//! Groups made from sets of places, with given seats.

ghost use Rattle.std.specs.Prelude.{◌≡◌, ◌≤◌, length, All, IfOk};
ghost use Rattle.grouping_laws.specs.Ranges.{seated};
ghost use Rattle.state_groups.specs.PlacedValues.{codes_of_set, codes_of_sets};
ghost use Rattle.search_ends.specs.FinishedStates.{HasNumbers};

use county_codes::Group;
use county_problem::Ordered;
use place_sets::CountySet;
use std::alloc::{AllocError, Global};

/// Returns the group of a `set`, with these `seats`.
fn group_of<C: CountySet>(
    alloc: Global,
    ordered: &Ordered,
    set: &C,
    seats: u16,
) -> Result<Group, AllocError>
    requires { length ordered.now.order ≤ C.PLACES }
    ensures value { IfOk result (λ m. m
        ≡ record { seats = seats; codes = codes_of_set ordered.now.order C.test set.now }) }
    ensures numbers { IfOk result (λ m. HasNumbers m) }
{
    Ok(Group {
        seats,
        codes: ordered.codes_of(alloc, set)?,
    })
}

/// Returns the groups of the `sets`, with these `seats`, in the same order.
pub(crate) fn seated_groups<C: CountySet>(
    alloc: Global,
    ordered: &Ordered,
    sets: &[C],
    seats: &[u16],
) -> Result<Vec<Group>, AllocError>
    requires fits { length ordered.now.order ≤ C.PLACES }
    requires each { length seats.now ≡ length sets.now }
    ensures groups { IfOk result (λ v. v.items ≡ seated (codes_of_sets ordered.now.order C.test sets.now) seats.now) }
    ensures numbers { IfOk result (λ v. All HasNumbers v.items) }
{
    let mut groups = Vec::new(alloc);
    for (i, set) in sets.iter().enumerate() {
        groups.push(group_of(alloc, ordered, set, seats[i])?)?;
    }
    Ok(groups)
}
