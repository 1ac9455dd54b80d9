//! Seats for sets that have each county once.

ghost use Rattle.std.specs.Prelude.{◌≡◌, ℕ, length, map, IfOk};
ghost use Rattle.grouping_laws.specs.{Sets.sum_by, Problem.people_of, Ranges.SuitAll};
ghost use Rattle.county_problem.specs.ProblemValue.{problem_of};
ghost use Rattle.connected_laws.specs.Listing.{AreBelow};
ghost use Rattle.state_groups.specs.PlacedValues.{codes_of_set, codes_of_sets};
ghost use Rattle.search_ends.specs.FinishedStates.{CoverOnce, CanSeat};

use county_problem::{Ordered, allot};
use place_sets::CountySet;
use state_groups::people_in;
use std::alloc::{AllocError, Global};

/// Returns the people of each of the `sets`, in the same order.
fn people_of_sets<C: CountySet>(
    alloc: Global,
    ordered: &Ordered,
    sets: &[C],
) -> Result<Vec<u64>, AllocError>
    requires { AreBelow (length ordered.now.order) C.test sets.now }
    ensures { IfOk
        result
        (λ v. v.items
        ≡ map (λ s. people_of (problem_of ordered.now.problem) (codes_of_set ordered.now.order C.test s)) sets.now) }
{
    let mut people = Vec::new(alloc);
    for set in sets {
        people.push(people_in(ordered, set))?;
    }
    Ok(people)
}

/// Returns seats for `sets` that have each county of `ordered` once, in the same order. Each set gets a number of seats
/// that its people suit, and these numbers add up to the seats left of the problem. Such numbers must exist.
pub(crate) fn seats_for<C: CountySet>(
    alloc: Global,
    ordered: &Ordered,
    sets: &[C],
) -> Result<Vec<u16>, AllocError>
    requires below { AreBelow (length ordered.now.order) C.test sets.now }
    requires once { CoverOnce (problem_of ordered.now.problem) (codes_of_sets ordered.now.order C.test sets.now) }
    requires some { CanSeat (problem_of ordered.now.problem) (codes_of_sets ordered.now.order C.test sets.now) }
    ensures suit { IfOk result (λ v. SuitAll (problem_of ordered.now.problem) (codes_of_sets ordered.now.order C.test sets.now) v.items) }
    ensures sum { IfOk result (λ v. sum_by (λ k. k) v.items ≡ ordered.now.problem.seats_left) }
{
    let _places = ordered.places();
    let problem = ordered.problem();
    let people = people_of_sets(alloc, ordered, sets)?;
    match allot(alloc, problem, &people)? {
        Some(seats) => Ok(seats),
        None => unreachable!(),
    }
}
