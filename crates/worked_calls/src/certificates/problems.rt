//! The problem that the lines of a case tell: `chamber SEATS`, `county CODE PEOPLE`, `pair CODE CODE` and
//! `withdrawn SEATS CODE`.

use anyhow::{Context, Result};
use county_codes::{Codes, County, CountyCode, Withdrawn};
use county_problem::Problem;
use std::alloc::Global;
use std::str;

/// What a problem is built from.
#[derive(Drop)]
struct Sketch {
    chamber: u16,
    counties: Vec<County>,
    pairs: Vec<(CountyCode, CountyCode)>,
    withdrawn: Vec<Withdrawn>,
}

/// Parses the two numbers that a `text` spells, with a blank between them.
pub(crate) fn two_numbers(text: &str) -> Result<(u32, u32)> {
    let (first, second) = text.split_once(' ').context("a number is missing")?;
    Ok((first.parse::<u32>()?, second.parse::<u32>()?))
}

/// Parses the county that a `text` spells: its code and its people.
fn county(text: &str) -> Result<County> {
    let (code, people) = two_numbers(text)?;
    let code = CountyCode::new(code).context("no code")?;
    Ok(County { code, people })
}

/// Parses the pair of codes that a `text` spells.
fn pair(text: &str) -> Result<(CountyCode, CountyCode)> {
    let (first, second) = two_numbers(text)?;
    let first = CountyCode::new(first).context("no code")?;
    let second = CountyCode::new(second).context("no code")?;
    Ok((first, second))
}

/// Parses the withdrawn set of one county that a `text` spells: its seats and its county.
fn withdrawn(alloc: Global, text: &str) -> Result<Withdrawn> {
    let (seats, code) = text.split_once(' ').context("a number is missing")?;
    let code = CountyCode::new(code.parse::<u32>()?).context("no code")?;
    let seats = seats.parse::<u16>()?;
    let mut codes = Vec::new(alloc);
    codes.push(code)?;
    Ok(Withdrawn {
        seats,
        codes: Codes::new(codes),
    })
}

impl Sketch {
    /// Adds what a `line` tells. A line that tells nothing of a problem adds nothing.
    fn add(&mut self, alloc: Global, line: &str) -> Result<()> {
        match line.split_once(' ') {
            Some(("chamber", text)) => self.chamber = text.parse::<u16>()?,
            Some(("county", text)) => self.counties.push(county(text)?)?,
            Some(("pair", text)) => self.pairs.push(pair(text)?)?,
            Some(("withdrawn", text)) => self.withdrawn.push(withdrawn(alloc, text)?)?,
            _ => {}
        }
        Ok(())
    }
}

/// Builds the problem that the lines of a `text` tell.
pub(crate) fn problem_in(alloc: Global, text: &[u8]) -> Result<Problem> {
    let mut sketch = Sketch {
        chamber: 0,
        counties: Vec::new(alloc),
        pairs: Vec::new(alloc),
        withdrawn: Vec::new(alloc),
    };
    for line in str::from_utf8(text)?.split('\n') {
        sketch.add(alloc, line)?;
    }
    Ok(Problem::build(
        alloc,
        &sketch.counties,
        &sketch.pairs,
        &sketch.withdrawn,
        sketch.chamber,
    )?)
}
