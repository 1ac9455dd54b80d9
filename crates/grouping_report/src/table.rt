//! The size table: the bounds of a district, and for each county its people and the seats that they suit.

ghost use Rattle.std.specs.Prelude.{◌≡◌, ◌≤◌, ℕ, ◌++◌, OnOk, IfOk, decimal};
ghost use Rattle.grouping_report.specs.SizeTable.{size_text, county_line, lines_text, run_text, bounds_text, district_line};
ghost use Rattle.county_problem.specs.Building.{people_in};

use crate::first_lines::push_first_lines;
use county_codes::{County, push_code};
use county_problem::Problem;
use field_lines::push_number;
use std::alloc::{AllocError, Global};

/// Appends the least and the greatest number of seats of `run`, or `none` if there is none.
fn push_run(out: &mut Vec<u8>, run: Option<(u16, u16)>) -> Result<(), AllocError>
    ensures { OnOk result (out.new.items ≡ out.old.items ++ run_text run) }
{
    match run {
        None => out.extend_from_slice(b"none"),
        Some((least, greatest)) => {
            push_number(out, u64::from(least))?;
            out.extend_from_slice(b"|")?;
            push_number(out, u64::from(greatest))
        }
    }
}

/// Appends `bounds`, the least and the greatest people of a district, or `none` if the first bound is above the second.
fn push_bounds(out: &mut Vec<u8>, bounds: (u64, u64)) -> Result<(), AllocError>
    ensures { OnOk result (out.new.items ≡ out.old.items ++ bounds_text bounds) }
{
    if bounds.0 <= bounds.1 {
        push_number(out, bounds.0)?;
        out.extend_from_slice(b" to ")?;
        push_number(out, bounds.1)
    } else {
        out.extend_from_slice(b"none")
    }
}

/// Appends the line of `county`, with the `run` of seats that its people suit.
#[tactic(auto, unfolding(crate::specs::SizeTable::county_line))]
fn push_county(out: &mut Vec<u8>, county: County, run: Option<(u16, u16)>) -> Result<(), AllocError>
    ensures { OnOk result (out.new.items ≡ out.old.items ++ county_line county.code county.people run) }
{
    push_code(out, county.code)?;
    out.extend_from_slice(b"|")?;
    push_number(out, u64::from(county.people))?;
    out.extend_from_slice(b"|")?;
    push_run(out, run)?;
    out.extend_from_slice(b"\n")
}

/// Appends the line of the `bounds` of a district.
#[tactic(auto, unfolding(crate::specs::SizeTable::district_line))]
fn push_district(out: &mut Vec<u8>, bounds: (u64, u64)) -> Result<(), AllocError>
    ensures { OnOk result (out.new.items ≡ out.old.items ++ district_line bounds) }
{
    out.extend_from_slice(b"district ")?;
    push_bounds(out, bounds)?;
    out.extend_from_slice(b"\n")
}

/// Appends the lines of `counties`, each with the seats that its people suit.
fn push_counties(
    out: &mut Vec<u8>,
    problem: &Problem,
    counties: &[County],
) -> Result<(), AllocError>
    requires { people_in counties.now ≤ problem.now.total_people }
    ensures { OnOk result (out.new.items ≡ out.old.items ++ lines_text problem.now counties.now) }
{
    for county in counties {
        let run = problem.seats_range(u64::from(county.people));
        push_county(out, *county, run)?;
    }
    Ok(())
}

/// Appends the size table of `problem`.
#[tactic(auto, unfolding(crate::specs::SizeTable::size_text))]
fn push_table(out: &mut Vec<u8>, problem: &Problem) -> Result<(), AllocError>
    ensures { OnOk result (out.new.items ≡ out.old.items ++ size_text problem.now) }
{
    push_first_lines(out, problem)?;
    push_district(out, problem.district_bounds(1))?;
    push_counties(out, problem, problem.counties())
}

/// Returns the size table of `problem`: its people, its chamber, its tolerance and the bounds of a district. If the
/// tolerance is one twentieth, it has no line. Then comes each county, by code, with its people. The least and the
/// greatest number of seats that they suit follow, or `none`.
///
/// # Errors
///
/// Returns `AllocError` if memory was refused.
pub fn size_table(alloc: Global, problem: &Problem) -> Result<Vec<u8>, AllocError>
    ensures { IfOk result (λ v. v.items ≡ size_text problem.now) }
{
    let mut out = Vec::new(alloc);
    push_table(&mut out, problem)?;
    Ok(out)
}
