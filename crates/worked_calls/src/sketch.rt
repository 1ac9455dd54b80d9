//! Small problems of a few counties, with their codes, pairs, withdrawn sets and groupings.

use county_codes::{Codes, County, CountyCode, Group, Grouping, Withdrawn};
use county_problem::{Problem, ProblemFault};
use std::alloc::{AllocError, Global};

/// A small problem of counties of North Carolina, each named by the last three digits of its code.
#[derive(Clone, Copy, Drop)]
pub(crate) struct Sketch<'a> {
    /// Counties and their people.
    pub(crate) people: &'a [(u32, u32)],
    /// Adjacent counties.
    pub(crate) pairs: &'a [(u32, u32)],
    /// Seats and counties of the withdrawn sets.
    pub(crate) withdrawn: &'a [(u16, &'a [u32])],
    /// The chamber's seats.
    pub(crate) chamber: u16,
}

/// A path whose middle county would strand its neighbours.
pub(crate) const STRANDING_PATH: Sketch = Sketch {
    people: &[(1, 50), (3, 100), (5, 50)],
    pairs: &[(1, 3), (3, 5)],
    withdrawn: &[],
    chamber: 2,
};

/// One county that is large enough, and five in a path that are large enough together.
pub(crate) const ONE_AND_FIVE: Sketch = Sketch {
    people: &[(1, 100), (3, 20), (5, 20), (7, 20), (9, 20), (11, 20)],
    pairs: &[(1, 3), (3, 5), (5, 7), (7, 9), (9, 11)],
    withdrawn: &[],
    chamber: 2,
};

/// Six counties in a path that make three pairs, or one and five.
pub(crate) const THREE_PAIRS: Sketch = Sketch {
    people: &[(1, 98), (3, 6), (5, 60), (7, 41), (9, 30), (11, 65)],
    pairs: &[(1, 3), (3, 5), (5, 7), (7, 9), (9, 11)],
    withdrawn: &[],
    chamber: 3,
};

/// Two counties apart, each of which suits 19 or 20 of 39 seats.
pub(crate) const THIRTY_NINE_SEATS: Sketch = Sketch {
    people: &[(1, 1950), (3, 1950)],
    pairs: &[],
    withdrawn: &[],
    chamber: 39,
};

/// Four counties in a ring.
pub(crate) const RING_OF_FOUR: Sketch = Sketch {
    people: &[(1, 50), (3, 50), (5, 50), (7, 50)],
    pairs: &[(1, 3), (3, 5), (5, 7), (7, 1)],
    withdrawn: &[],
    chamber: 2,
};

/// Returns the code 37,000 + `number`, or `None` if that isn't a code.
pub(crate) fn code(number: u32) -> Option<CountyCode> {
    CountyCode::new(number.checked_add(37_000)?)
}

/// Returns the codes of these `numbers`. A number without a code is left out.
pub(crate) fn codes(alloc: Global, numbers: &[u32]) -> Result<Vec<CountyCode>, AllocError> {
    let mut list = Vec::new(alloc);
    for number in numbers {
        if let Some(code) = code(*number) {
            list.push(code)?;
        }
    }
    Ok(list)
}

/// Returns the counties of these numbers with their `people`. A number without a code is left out.
pub(crate) fn counties(alloc: Global, people: &[(u32, u32)]) -> Result<Vec<County>, AllocError> {
    let mut list = Vec::new(alloc);
    for (number, people) in people {
        if let Some(code) = code(*number) {
            list.push(County {
                code,
                people: *people,
            })?;
        }
    }
    Ok(list)
}

/// Returns the pairs of codes of these `numbers`. A pair is left out if one of its numbers has no code.
fn pairs(
    alloc: Global,
    numbers: &[(u32, u32)],
) -> Result<Vec<(CountyCode, CountyCode)>, AllocError> {
    let mut list = Vec::new(alloc);
    for (a, b) in numbers {
        if let (Some(a), Some(b)) = (code(*a), code(*b)) {
            list.push((a, b))?;
        }
    }
    Ok(list)
}

/// Builds the grouping of these `sets`, each with its seats.
pub(crate) fn grouping(alloc: Global, sets: &[(u16, &[u32])]) -> Result<Grouping, AllocError> {
    let mut groups = Vec::new(alloc);
    for (seats, numbers) in sets {
        let codes = Codes::new(codes(alloc, numbers)?);
        groups.push(Group {
            seats: *seats,
            codes,
        })?;
    }
    Ok(Grouping { groups })
}

/// Builds the withdrawn sets of a sketch. Each of the `sets` gives its seats and the numbers of its counties.
fn withdrawn(alloc: Global, sets: &[(u16, &[u32])]) -> Result<Vec<Withdrawn>, AllocError> {
    let mut list = Vec::new(alloc);
    for (seats, numbers) in sets {
        let codes = Codes::new(codes(alloc, numbers)?);
        list.push(Withdrawn {
            seats: *seats,
            codes,
        })?;
    }
    Ok(list)
}

impl Sketch<'_> {
    /// Builds the sketched problem, or returns why there is none.
    pub(crate) fn problem(self, alloc: Global) -> Result<Problem, ProblemFault> {
        let counties = counties(alloc, self.people)?;
        let pairs = pairs(alloc, self.pairs)?;
        let sets = withdrawn(alloc, self.withdrawn)?;
        Problem::build(alloc, &counties, &pairs, &sets, self.chamber)
    }
}
