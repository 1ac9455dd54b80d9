//! Where the walk through a tree stands.

ghost use Rattle.std.specs.Prelude.{◌≡◌, ℕ, ◌+◌, ◌≤◌, ◌==◌, not, cond, length, map, filter, nat_le, true, IfOk};
ghost use Rattle.county_codes.specs.Limits.{most_counties};
ghost use Rattle.grouping_laws.specs.Problem.{Problem as ProblemOf};
ghost use Rattle.grouping_laws.specs.Sets.{sum_by, contains};
ghost use Rattle.county_problem.specs.ProblemValue.{problem_of};
ghost use Rattle.certificate_laws.specs.{State.{State, empty_state, close, raise, open_to}, Regions.listed};
ghost use Rattle.certificate_lines.specs.Lines.{ascend};
ghost use Rattle.state_judge.specs.Weights.{county_weight};
ghost use Rattle.list_groupings.specs.Positions.{waiting, raised_past, IsPosition};

use certificate_data::Weight;
use county_codes::{Codes, County, CountyCode, has_code};
use county_problem::Problem;
use std::alloc::{AllocError, Global};

/// A county of no closed group, and the least size of a group that it may lie in, in counties.
#[derive(Clone, Copy, Debug, PartialEq, Eq)]
pub(crate) struct Waiting {
    pub(crate) code: CountyCode,
    pub(crate) least: u32,
}

/// Where the walk stands: the groups that are closed, in the order in which they were closed, and the other counties in
/// the order of the problem.
#[derive(Debug, Drop)]
pub(crate) struct Position {
    pub(crate) closed: Vec<Codes>,
    pub(crate) rest: Vec<Waiting>,
}

/// Returns all `counties`, each in a group of any size.
fn all_waiting(alloc: Global, counties: &[County]) -> Result<Vec<Waiting>, AllocError>
    ensures { IfOk result (λ v. v.items ≡ map (λ c. waiting (λ x. 0) c.code) counties.now) }
{
    counties
        .iter()
        .map(|county| Waiting {
            code: county.code,
            least: 0,
        })
        .collect(alloc)
}

/// Returns the counties of `rest` that aren't in the group with these `codes`.
fn outside(
    alloc: Global,
    rest: &[Waiting],
    codes: &[CountyCode],
) -> Result<Vec<Waiting>, AllocError>
    ensures { IfOk result (λ v. v.items ≡ filter (λ w. not (contains codes.now w.code)) rest.now) }
{
    rest.iter()
        .filter(|waiting| !has_code(codes, waiting.code))
        .copied()
        .collect(alloc)
}

/// Returns the counties of `rest`, where `county` lies in a group of more than `limit` counties from now on.
fn with_raised(
    alloc: Global,
    rest: &[Waiting],
    county: CountyCode,
    limit: u16,
) -> Result<Vec<Waiting>, AllocError>
    ensures { IfOk result (λ v. v.items ≡ map (raised_past county limit) rest.now) }
{
    let least = u32::from(limit) + 1;
    rest.iter()
        .map(|waiting| {
            if waiting.code == county {
                Waiting {
                    code: waiting.code,
                    least,
                }
            } else {
                *waiting
            }
        })
        .collect(alloc)
}

/// Returns a copy of `groups`.
fn copied_groups(alloc: Global, groups: &[Codes]) -> Result<Vec<Codes>, AllocError>
    ensures { IfOk result (λ v. v.items ≡ groups.now) }
{
    let mut copies = Vec::new(alloc);
    for group in groups {
        copies.push(group.copy()?)?;
    }
    Ok(copies)
}

/// Returns the weight of the county with this `code`, or 0 if there is none.
fn weight_of(weights: &[Weight], code: CountyCode) -> u32
    requires { ascend weights.now ≡ true }
    ensures { result ≡ county_weight weights.now code }
{
    let mut weights = weights;
    while let [first, rest @ ..] = weights {
        if first.county == code {
            return first.weight;
        }
        weights = rest;
    }
    0
}

impl Position {
    /// Creates the position at which the tree of a certificate of `problem` begins, where no group is closed. Returns
    /// `AllocError` if memory was refused.
    pub(crate) fn first(alloc: Global, problem: &Problem) -> Result<Position, AllocError>
        ensures { IfOk result (IsPosition (problem_of problem.now) (empty_state (problem_of problem.now))) }
    {
        Ok(Position {
            closed: Vec::new(alloc),
            rest: all_waiting(alloc, problem.counties())?,
        })
    }

    /// Returns the position where the group of `codes` is closed, too. Returns `AllocError` if memory was refused.
    pub(crate) fn with_closed(&self, alloc: Global, codes: &Codes) -> Result<Position, AllocError>
        ensures { (p : ProblemOf) (s : State) → IsPosition p s self.now
            → IfOk result (IsPosition p (close codes.now s)) }
    {
        let mut closed = copied_groups(alloc, &self.closed)?;
        closed.push(codes.copy()?)?;
        let rest = outside(alloc, &self.rest, codes.as_slice())?;
        Ok(Position { closed, rest })
    }

    /// Returns the position where `county` is raised past `limit`, or an error if memory was refused.
    pub(crate) fn raised(
        self,
        alloc: Global,
        county: CountyCode,
        limit: u16,
    ) -> Result<Position, AllocError>
        ensures { (p : ProblemOf) (s : State) → IsPosition p s self
            → IfOk result (IsPosition p (raise county limit s)) }
    {
        Ok(Position {
            rest: with_raised(alloc, &self.rest, county, limit)?,
            closed: self.closed,
        })
    }

    /// Returns how many counties are open to a group of `size` counties.
    pub(crate) fn open_counties(&self, size: u32) -> u32
        requires few { length self.now.rest.items ≤ most_counties }
        ensures { (p : ProblemOf) (s : State) → IsPosition p s self.now → result ≡ length (listed p (open_to s size)) }
    {
        let mut count = 0;
        for waiting in &self.rest {
            if waiting.least <= size {
                count += 1;
            }
        }
        count
    }

    /// Returns the total weight of the counties that are open to a group of `size` counties.
    pub(crate) fn open_weight(&self, size: u32, weights: &[Weight]) -> u64
        requires few { length self.now.rest.items ≤ most_counties }
        requires ascend { ascend weights.now ≡ true }
        ensures { (p : ProblemOf) (s : State) → IsPosition p s self.now
            → result ≡ sum_by (county_weight weights.now) (listed p (open_to s size)) }
    {
        let mut weight = 0;
        for waiting in &self.rest {
            if waiting.least <= size {
                weight += u64::from(weight_of(weights, waiting.code));
            }
        }
        weight
    }
}
