//! Problems read back, their copies, and faults that no file of the command gives.

use crate::sketch::{Sketch, code};
use anyhow::{Error, Result};
use county_codes::CountyCode;
use county_problem::{Problem, ProblemFault};

/// Prints the counties of `problem`, each with its people.
fn show_counties(rt: &HostRuntime, problem: &Problem) -> Result<()> {
    for county in problem.counties() {
        println!(rt; "county {} of {}", county.code, county.people)?;
    }
    Ok(())
}

/// Prints how many seats and how many counties each withdrawn set of `problem` has.
fn show_sets(rt: &HostRuntime, problem: &Problem) -> Result<()> {
    for set in problem.withdrawn() {
        let set = set.copy()?;
        let codes = set.codes.into_vec();
        println!(rt; "withdrawn: {} seats, {} counties", set.seats, codes.len())?;
    }
    Ok(())
}

/// Prints whether some counties are adjacent in `problem`, for four pairs.
fn show_pairs(rt: &HostRuntime, problem: &Problem) -> Result<()> {
    for (a, b) in [(1, 3), (3, 1), (3, 5), (1, 1)] {
        if let (Some(a), Some(b)) = (code(a), code(b)) {
            println!(rt; "{a} and {b} adjacent: {}", problem.adjacent(a, b))?;
        }
    }
    Ok(())
}

/// Prints the people of a county that `problem` lists, and of a code that it doesn't list.
fn show_people(rt: &HostRuntime, problem: &Problem) -> Result<()> {
    for number in [3, 9] {
        if let Some(code) = code(number) {
            println!(rt; "people of {code}: {}", problem.people_of(&[code]))?;
        }
    }
    Ok(())
}

/// Three counties in a path, one of which is withdrawn.
const ONE_OF_THREE: Sketch = Sketch {
    people: &[(5, 100), (1, 100), (3, 100)],
    pairs: &[(3, 1), (1, 1), (3, 5)],
    withdrawn: &[(2, &[5])],
    chamber: 3,
};

/// Prints the copy of a problem with a withdrawn set, and whether the sets of both are equal.
fn show_copy(rt: &HostRuntime) -> Result<()> {
    let built = ONE_OF_THREE.problem(rt.alloc())?;
    let copy = built.copy()?;
    println!(rt; "{copy:?}")?;
    show_counties(rt, &copy)?;
    show_sets(rt, &copy)?;
    show_pairs(rt, &copy)?;
    show_people(rt, &copy)?;
    let same = built.withdrawn() == copy.withdrawn();
    println!(rt; "withdrawn sets equal: {same}")?;
    Ok(())
}

/// Prints why a `sketch` gives no problem, or how many counties its problem has. Returns an error if memory was
/// refused.
fn show_fault(rt: &HostRuntime, sketch: Sketch) -> Result<()> {
    match sketch.problem(rt.alloc()) {
        Ok(problem) => println!(rt; "a problem of {} counties", problem.counties().len())?,
        Err(ProblemFault::Memory) => return Err(Error::from(ProblemFault::Memory)),
        Err(fault) => println!(rt; "{fault}")?,
    }
    Ok(())
}

/// Seats and counties of withdrawn sets, each with a fault that comes before that of the next.
const FAULTY_SETS: &[(u16, &[u32])] = &[
    (0, &[1]),
    (1, &[]),
    (9, &[1, 99]),
    (9, &[1, 1]),
    (4, &[1]),
    (3, &[1]),
];

/// Prints the faults of withdrawn sets and pairs, each ahead of the faults that come after it.
fn show_withdrawn_faults(rt: &HostRuntime) -> Result<()> {
    for set in FAULTY_SETS {
        let sketch = Sketch {
            people: &[(5, 100), (1, 100), (3, 100)],
            pairs: &[(1, 99)],
            withdrawn: &[*set],
            chamber: 3,
        };
        show_fault(rt, sketch)?;
    }
    Ok(())
}

/// Prints why counties with these `people` make no problem of a `chamber`.
fn show_limit(rt: &HostRuntime, people: &[(u32, u32)], chamber: u16) -> Result<()> {
    let sketch = Sketch {
        people,
        pairs: &[],
        withdrawn: &[],
        chamber,
    };
    show_fault(rt, sketch)
}

/// Prints which numbers are codes.
fn show_codes(rt: &HostRuntime) -> Result<()> {
    for number in [7, 99_999, 100_000] {
        match CountyCode::new(number) {
            Some(code) => println!(rt; "{number} is the code {code}")?,
            None => println!(rt; "{number} is no code")?,
        }
    }
    Ok(())
}

/// Prints codes, a problem's copy, and faults of chambers, counties and withdrawn sets.
pub(crate) fn show(rt: &HostRuntime) -> Result<()> {
    show_codes(rt)?;
    show_copy(rt)?;
    for chamber in [0, 1001, 1] {
        show_limit(rt, &[], chamber)?;
    }
    show_limit(rt, &[(1, 1), (1, 2)], 1)?;
    show_withdrawn_faults(rt)
}
