//! The grouping of closed groups that have each county.

ghost use Rattle.std.specs.Prelude.{◌≡◌, ◌≢◌, ℕ, ◌≤◌, List, map, filter, length, All, IfOk, IfSome, MatchOption};
ghost use Rattle.grouping_laws.specs.{Sets.{indicator, sum_by, count, count_in, contains}, Ranges.{SuitAll, seated}};
ghost use Rattle.grouping_laws.specs.{Problem.{LawfulGroup, people_of}, Grouping.{Lawful, sets_of}};
ghost use Rattle.county_problem.specs.ProblemValue.{problem_of};
ghost use Rattle.search_ends.specs.FinishedStates.{CanSeat};
ghost use Rattle.list_laws.specs.AllBest.{SameSets};
ghost use Rattle.list_groupings.specs.ListOrder.{IsInOrder};

use crate::sorting::sorted_sets;
use county_codes::{Codes, CountyCode, Group, Grouping, has_code};
use county_problem::{Problem, allot};
use std::alloc::{AllocError, Global};

/// Returns the counties of the problem that are in the group with these `codes`, in the order of the problem.
fn ascending(
    alloc: Global,
    problem: &Problem,
    codes: &[CountyCode],
) -> Result<Vec<CountyCode>, AllocError>
    ensures { IfOk result (λ v. v.items ≡ filter (contains codes.now) (problem_of problem.now).counties) }
{
    let mut found = Vec::new(alloc);
    for county in problem.counties() {
        if has_code(codes, county.code) {
            found.push(county.code)?;
        }
    }
    Ok(found)
}

/// Returns the `closed` groups in turn, each with its codes in the order of the problem.
fn ascending_sets(
    alloc: Global,
    problem: &Problem,
    closed: &[Codes],
) -> Result<Vec<Codes>, AllocError>
    ensures { IfOk result (λ v. v.items ≡ map (λ g. filter (contains g) (problem_of problem.now).counties) closed.now) }
{
    let mut sets = Vec::new(alloc);
    for codes in closed {
        sets.push(Codes::new(ascending(alloc, problem, codes.as_slice())?))?;
    }
    Ok(sets)
}

/// Returns the people of the counties of each of `sets`, in turn, as `problem` has them.
fn people_of_sets(alloc: Global, problem: &Problem, sets: &[Codes]) -> Result<Vec<u64>, AllocError>
    requires once { All (λ g. (c : ℕ) → count c g ≤ 1) sets.now }
    ensures { IfOk result (λ v. v.items ≡ map (people_of (problem_of problem.now)) sets.now) }
{
    let mut people = Vec::new(alloc);
    for set in sets {
        people.push(problem.people_of(set.as_slice()))?;
    }
    Ok(people)
}

/// Returns the groups of these `sets` with these `seats`, in turn.
fn seated_groups(alloc: Global, sets: &[Codes], seats: &[u16]) -> Result<Vec<Group>, AllocError>
    requires each { length seats.now ≡ length sets.now }
    ensures { IfOk result (λ v. v.items ≡ seated sets.now seats.now) }
{
    let mut groups = Vec::new(alloc);
    for (i, set) in sets.iter().enumerate() {
        groups.push(Group {
            seats: seats[i],
            codes: set.copy()?,
        })?;
    }
    Ok(groups)
}

/// Returns the grouping of `closed` groups that have each county once. Its codes and its groups ascend, and its seats
/// are those of `allot`.
///
/// Returns `None` if no numbers of seats that suit the groups add up to the seats left.
pub(crate) fn seated_grouping(
    alloc: Global,
    problem: &Problem,
    closed: &[Codes],
) -> Result<Option<Grouping>, AllocError>
    requires once { (c : ℕ) → count_in c closed.now ≡ indicator (contains (problem_of problem.now).counties c) }
    requires lawful { All (LawfulGroup (problem_of problem.now)) closed.now }
    ensures lawful { IfOk result (λ o. MatchOption o ((ks : List ℕ) → SuitAll (problem_of problem.now) closed.now ks
        → sum_by (λ k. k) ks ≢ (problem_of problem.now).seats_left) (λ g. Lawful (problem_of problem.now) g.groups.items)) }
    ensures filled { IfOk result (λ o. IfSome o (λ _. CanSeat (problem_of problem.now) closed.now)) }
    ensures sets { IfOk result (λ o. IfSome o (λ g. SameSets (sets_of g.groups.items) closed.now)) }
    ensures in_order { IfOk result (λ o. IfSome o (λ g. IsInOrder g.groups.items)) }
{
    let _counties = problem.counties();
    let sets = sorted_sets(ascending_sets(alloc, problem, closed)?)?;
    let people = people_of_sets(alloc, problem, &sets)?;
    match allot(alloc, problem, &people)? {
        Some(seats) => Ok(Some(Grouping {
            groups: seated_groups(alloc, &sets, &seats)?,
        })),
        None => Ok(None),
    }
}
