//! The lines of a list of groupings.

ghost use Rattle.std.specs.Prelude.{◌≡◌, ℕ, ◌+◌, ◌++◌, ◌==◌, ◌≤◌, List, length, map, filter, codes, IfOk, OnOk};
ghost use Rattle.grouping_laws.specs.Sets.{contains};
ghost use Rattle.grouping_report.specs.FaultWords.{with_number};
ghost use Rattle.list_report.specs.Alternatives.{sets_inside, number_of_alternative, product};
ghost use Rattle.list_report.specs.Listing.{people_inside, seats_words, set_line, set_lines, alternatives_text, region_line, regions_text, choice_numbers, choice_lines, choices_text, shared_text};

use crate::alternatives::{Region, alternative_number, has_product, inside};
use crate::sets::Sets;
use county_codes::{Codes, County, CountyCode, has_code, push_codes};
use county_problem::Problem;
use field_lines::push_number;
use grouping_report::push_words_number;
use std::alloc::{AllocError, Global};

/// Returns the people of the problem's counties in `set`.
pub(crate) fn people_of(problem: &Problem, set: &[CountyCode]) -> u64
    ensures value { result ≡ people_inside problem.now set.now }
    ensures bound { result ≤ problem.now.total_people }
{
    let counties = problem.counties();
    let mut people = 0;
    for county in counties {
        if has_code(set, county.code) {
            people += u64::from(county.people);
        }
    }
    people
}

/// Appends the number of seats if the least and the greatest of `run` are equal, and otherwise both. Appends `none` if
/// `run` is `None`.
fn push_seats(out: &mut Vec<u8>, run: Option<(u16, u16)>) -> Result<(), AllocError>
    ensures { OnOk result (out.new.items ≡ out.old.items ++ seats_words run) }
{
    match run {
        None => out.extend_from_slice(b"none"),
        Some((least, greatest)) => {
            push_number(out, u64::from(least))?;
            if least == greatest {
                return Ok(());
            }
            push_words_number(out, b" to ", u64::from(greatest))
        }
    }
}

/// Appends the line of `set`, with the seats of `run` and the `people` of the set.
fn push_line(
    out: &mut Vec<u8>,
    run: Option<(u16, u16)>,
    people: u64,
    set: &[CountyCode],
) -> Result<(), AllocError>
    ensures { OnOk result (out.new.items ≡ out.old.items ++ set_line run people set.now) }
{
    out.extend_from_slice(b"group seats ")?;
    push_seats(out, run)?;
    push_words_number(out, b" people ", people)?;
    out.extend_from_slice(b" counties")?;
    push_codes(out, b" ", set)?;
    out.extend_from_slice(b"\n")
}

/// Appends a line for each of the `sets`, with the seats that its people suit in `problem`.
fn push_lines(out: &mut Vec<u8>, problem: &Problem, sets: &[Codes]) -> Result<(), AllocError>
    ensures { OnOk result (out.new.items ≡ out.old.items ++ set_lines problem.now sets.now) }
{
    for set in sets {
        let people = people_of(problem, set.as_slice());
        push_line(out, problem.seats_range(people), people, set.as_slice())?;
    }
    Ok(())
}

/// Appends the `number` of listed groupings, how many sets they share, and the lines of the `shared` sets.
pub(crate) fn push_shared(
    out: &mut Vec<u8>,
    problem: &Problem,
    number: usize,
    shared: &[Codes],
) -> Result<(), AllocError>
    ensures { OnOk result (out.new.items ≡ out.old.items ++ shared_text problem.now number shared.now) }
{
    push_words_number(out, b"best groupings ", number as u64)?;
    push_words_number(out, b"\nshared groups ", shared.len() as u64)?;
    out.extend_from_slice(b"\n")?;
    push_lines(out, problem, shared)
}

/// Appends an alternative: its `number`, and a line for each of its `sets`.
fn push_alternative(
    out: &mut Vec<u8>,
    problem: &Problem,
    number: u64,
    sets: &[Codes],
) -> Result<(), AllocError>
    ensures { OnOk result (out.new.items
        ≡ out.old.items ++ (with_number (codes "alternative ") number ++ codes "\n"
        ++ set_lines problem.now sets.now)) }
{
    push_words_number(out, b"alternative ", number)?;
    out.extend_from_slice(b"\n")?;
    push_lines(out, problem, sets)
}

/// Appends the `alternatives` of a region, numbered from 1.
fn push_alternatives(
    out: &mut Vec<u8>,
    problem: &Problem,
    alternatives: &[Sets],
) -> Result<(), AllocError>
    ensures { OnOk result (out.new.items ≡ out.old.items ++ alternatives_text problem.now 1 alternatives.now) }
{
    for (i, sets) in alternatives.iter().enumerate() {
        push_alternative(out, problem, i as u64 + 1, sets.as_slice())?;
    }
    Ok(())
}

/// Appends the line of `region`: its `number`, and how many counties and alternatives it has.
fn push_region_line(out: &mut Vec<u8>, number: u64, region: &Region) -> Result<(), AllocError>
    ensures { OnOk result (out.new.items
        ≡ out.old.items ++ region_line number (length region.now.counties) (length region.now.alternatives)) }
{
    let counties = region.counties.as_slice();
    let alternatives = region.alternatives.as_slice();
    push_words_number(out, b"region ", number)?;
    push_words_number(out, b" counties ", counties.len() as u64)?;
    push_words_number(out, b" alternatives ", alternatives.len() as u64)?;
    out.extend_from_slice(b"\n")
}

/// Appends `region`: its line with its `number`, and its alternatives.
fn push_region(
    out: &mut Vec<u8>,
    problem: &Problem,
    number: u64,
    region: &Region,
) -> Result<(), AllocError>
    ensures { OnOk result (out.new.items
        ≡ out.old.items ++ (region_line number (length region.now.counties) (length region.now.alternatives)
        ++ alternatives_text problem.now 1 region.now.alternatives)) }
{
    push_region_line(out, number, region)?;
    push_alternatives(out, problem, region.alternatives.as_slice())
}

/// Appends the `regions`, numbered from 1.
pub(crate) fn push_regions(
    out: &mut Vec<u8>,
    problem: &Problem,
    regions: &[Region],
) -> Result<(), AllocError>
    ensures { OnOk result (out.new.items ≡ out.old.items ++ regions_text problem.now 1 regions.now) }
{
    for (i, region) in regions.iter().enumerate() {
        push_region(out, problem, i as u64 + 1, region)?;
    }
    Ok(())
}

/// Appends the numbers of the alternatives that a grouping with these `sets` has, one for each of the `regions`.
fn push_numbers(
    alloc: Global,
    out: &mut Vec<u8>,
    regions: &[Region],
    sets: &[Codes],
) -> Result<(), AllocError>
    ensures { OnOk result (out.new.items ≡ out.old.items ++ choice_numbers regions.now sets.now) }
{
    for region in regions {
        let choice = inside(alloc, region.counties.as_slice(), sets)?;
        let number = alternative_number(region.alternatives.as_slice(), &choice);
        push_words_number(out, b" ", number as u64)?;
    }
    Ok(())
}

/// Appends the line of a grouping with these `sets`: its `number`, and that of its alternative for each of the
/// `regions`.
fn push_choice_line(
    alloc: Global,
    out: &mut Vec<u8>,
    regions: &[Region],
    number: u64,
    sets: &[Codes],
) -> Result<(), AllocError>
    ensures { OnOk result (out.new.items
        ≡ out.old.items ++ (with_number (codes "grouping ") number ++ codes " alternatives"
        ++ choice_numbers regions.now sets.now ++ codes "\n")) }
{
    push_words_number(out, b"grouping ", number)?;
    out.extend_from_slice(b" alternatives")?;
    push_numbers(alloc, out, regions, sets)?;
    out.extend_from_slice(b"\n")
}

/// Appends a line for each `listed` grouping, with its alternatives for the `regions`. The groupings are numbered from
/// 1.
fn push_choice_lines(
    alloc: Global,
    out: &mut Vec<u8>,
    regions: &[Region],
    listed: &[Sets],
) -> Result<(), AllocError>
    ensures { OnOk result (out.new.items ≡ out.old.items ++ choice_lines regions.now 1 listed.now) }
{
    for (i, sets) in listed.iter().enumerate() {
        push_choice_line(alloc, out, regions, i as u64 + 1, sets.as_slice())?;
    }
    Ok(())
}

/// Appends that each combination of alternatives of the `regions` is listed, or else a line of alternatives for each
/// `listed` grouping. At least one grouping is listed.
pub(crate) fn push_choices(
    alloc: Global,
    out: &mut Vec<u8>,
    regions: &[Region],
    listed: &[Sets],
) -> Result<(), AllocError>
    requires { 1 ≤ length listed.now }
    ensures { OnOk result (out.new.items ≡ out.old.items ++ choices_text regions.now listed.now) }
{
    if has_product(regions, listed.len()) {
        out.extend_from_slice(b"every choice\n")
    } else {
        push_choice_lines(alloc, out, regions, listed)
    }
}
