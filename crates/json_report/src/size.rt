//! The object of a size table.

ghost use Rattle.std.specs.Prelude.{◌≡◌, ◌≤◌, IfOk, map, option_map};
ghost use Rattle.county_problem.specs.Building.{people_in};
ghost use Rattle.pl94_counties.specs.CountyNames.{county_name};
ghost use Rattle.json_report.specs.Parts.{Adds};
ghost use Rattle.json_report.specs.SizeObject.{bounds_tokens, county_object, county_objects, size_json as size_object, size_members};

use crate::parts::{push_code, push_number, push_run, push_seats};
use crate::report::{begin, finish, push_answer, push_first};
use county_codes::County;
use county_problem::Problem;
use json::Writer;
use pl94_counties::NamedCounty;
use std::alloc::{AllocError, Global};

/// Appends `bounds`, the least and the greatest people of a district, or null if the first bound is above the second.
fn push_bounds(out: &mut Writer, bounds: (u64, u64)) -> Result<(), AllocError>
    ensures { Adds result out.old out.new (bounds_tokens bounds) }
{
    if bounds.0 <= bounds.1 {
        push_run(out, Some(bounds))
    } else {
        out.null()
    }
}

/// Appends the object of `county`, with the `run` of seats that its people suit.
fn push_county(out: &mut Writer, county: County, run: Option<(u16, u16)>) -> Result<(), AllocError>
    ensures { Adds result out.old out.new (county_object county.code county.people run) }
{
    out.begin_object()?;
    out.key("county")?;
    push_code(out, county.code)?;
    push_number(out, "people", u64::from(county.people))?;
    push_seats(out, run)?;
    out.end_object()
}

/// Appends the objects of `counties`, each with the seats that its people suit.
fn push_counties(out: &mut Writer, problem: &Problem, counties: &[County]) -> Result<(), AllocError>
    requires { people_in counties.now ≤ problem.now.total_people }
    ensures { Adds result out.old out.new (county_objects problem.now counties.now) }
{
    for county in counties {
        let run = problem.seats_range(u64::from(county.people));
        push_county(out, *county, run)?;
    }
    Ok(())
}

/// Appends the members of the size table of `problem`.
fn push_size(out: &mut Writer, problem: &Problem) -> Result<(), AllocError>
    ensures { Adds result out.old out.new (size_members problem.now) }
{
    push_answer(out, "sizes")?;
    push_first(out, problem)?;
    out.key("district")?;
    push_bounds(out, problem.district_bounds(1))?;
    out.key("sizes")?;
    out.begin_array()?;
    push_counties(out, problem, problem.counties())?;
    out.end_array()
}

/// Returns the size table of `problem` as an object on one line: its people, its chamber, its tolerance, the bounds of
/// a district, and each county with the seats that its people suit. The names of the counties in `named` stand last, if
/// they have names.
///
/// # Errors
///
/// Returns `AllocError` if memory was refused.
pub fn size_json(
    alloc: Global,
    problem: &Problem,
    named: &Option<Vec<NamedCounty>>,
) -> Result<Vec<u8>, AllocError>
    ensures { IfOk result (λ v. v.items ≡ size_object problem.now (option_map (λ v. map county_name v.items) named.now)) }
{
    let mut out = begin(alloc)?;
    push_size(&mut out, problem)?;
    finish(out, named)
}
