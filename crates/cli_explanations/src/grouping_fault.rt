//! Where a grouping's fault comes from, and what would help.

use crate::options::Options;
use cli_answers::FileOption;
use county_codes::{CountyCode, Group, Grouping, has_code};
use county_problem::{GroupingFault, Problem};
use std::alloc::{AllocError, Global};
use std::fmt::Write;

/// Appends `codes`, each after a blank.
fn push_codes(out: &mut String, codes: &[CountyCode]) -> Result<(), AllocError> {
    for code in codes {
        write!(out, " {code}")?;
    }
    Ok(())
}

/// Adds to `part` the counties of `codes` that are adjacent to `from` and not in `part` yet.
fn add_neighbours(
    part: &mut Vec<CountyCode>,
    problem: &Problem,
    codes: &[CountyCode],
    from: CountyCode,
) -> Result<(), AllocError> {
    for code in codes {
        if !has_code(part, *code) && problem.adjacent(from, *code) {
            part.push(*code)?;
        }
    }
    Ok(())
}

/// Returns the connected part of the counties of `codes` around `start`.
fn part_around(
    alloc: Global,
    problem: &Problem,
    codes: &[CountyCode],
    start: CountyCode,
) -> Result<Vec<CountyCode>, AllocError> {
    let mut part = Vec::new(alloc);
    part.push(start)?;
    for i in 0..codes.len() {
        if let Some(from) = part.get(i).copied() {
            add_neighbours(&mut part, problem, codes, from)?;
        }
    }
    Ok(part)
}

/// Appends the connected parts of the counties of `codes`, with a bar between them.
fn push_parts(out: &mut String, problem: &Problem, codes: &[CountyCode]) -> Result<(), AllocError> {
    let alloc = *out.allocator();
    let mut seen = Vec::new(alloc);
    for code in codes {
        if !has_code(&seen, *code) {
            let part = part_around(alloc, problem, codes, *code)?;
            out.push_str(if seen.is_empty() { ":" } else { " |" })?;
            push_codes(out, &part)?;
            seen.extend_from_slice(&part)?;
        }
    }
    out.push_str("\n")
}

/// Explains a `group` that isn't connected, by its connected parts.
fn explain_parts(out: &mut String, problem: &Problem, group: &Group) -> Result<(), AllocError> {
    out.push_str("countygroups: its connected parts are")?;
    push_parts(out, problem, group.codes.as_slice())?;
    out.push_str("countygroups: regroup its counties, or add by --links a pair that joins them\n")
}

/// Returns the people of the problem's counties among `codes`.
fn people_among(problem: &Problem, codes: &[CountyCode]) -> u64 {
    let mut people: u64 = 0;
    for county in problem.counties() {
        if has_code(codes, county.code) {
            people = people.saturating_add(u64::from(county.people));
        }
    }
    people
}

/// Says which numbers of seats a group of `people` people suits.
fn explain_seats(out: &mut String, problem: &Problem, people: u64) -> Result<(), AllocError> {
    out.push_str("countygroups: seats that its people suit: ")?;
    if people > problem.total_people() {
        return out.push_str("none\n");
    }
    match problem.seats_range(people) {
        Some((least, greatest)) if least == greatest => writeln!(out, "{least}"),
        Some((least, greatest)) => writeln!(out, "{least} to {greatest}"),
        None => out.push_str("none, so that it needs other counties\n"),
    }
}

/// Explains a `group` whose people don't suit its seats, by its counties.
fn explain_people(out: &mut String, problem: &Problem, group: &Group) -> Result<(), AllocError> {
    let (seats, codes) = (group.seats, group.codes.as_slice());
    let people = people_among(problem, codes);
    out.push_str("countygroups: its counties are")?;
    push_codes(out, codes)?;
    write!(
        out,
        "; they have {people} people, and its seats ({seats}) ask for "
    )?;
    if seats == 0 || seats > 2_000 {
        out.push_str("others: a group has 1 to 2000 seats\n")?;
    } else {
        let (least, most) = problem.district_bounds(seats);
        writeln!(out, "{least} to {most}")?;
    }
    explain_seats(out, problem, people)
}

/// Returns the seats of all groups of `grouping`.
fn seats_in(grouping: &Grouping) -> u64 {
    let mut seats: u64 = 0;
    for group in &grouping.groups {
        seats = seats.saturating_add(u64::from(group.seats));
    }
    seats
}

/// Says that the groups in the file of `option` have `seats` seats in all, and how many the chamber leaves for them.
/// Says nothing if the numbers are equal.
///
/// # Errors
///
/// Returns `AllocError` if memory was refused.
pub(crate) fn explain_chamber(
    out: &mut String,
    option: FileOption,
    seats: u64,
    problem: &Problem,
) -> Result<(), AllocError> {
    let (chamber, left) = (problem.chamber(), problem.seats_left());
    if seats == u64::from(left) {
        return Ok(());
    }
    write!(
        out,
        "countygroups: the groups of {option} have {seats} seats in all, and --chamber is {chamber}"
    )?;
    if left == chamber {
        return out.push_str("\n");
    }
    writeln!(out, ", of which the withdrawn sets leave {left}")
}

/// Says where `fault` comes from and what would help.
fn explain_help(
    out: &mut String,
    fault: &GroupingFault,
    problem: &Problem,
    groups: &[Group],
) -> Result<(), AllocError> {
    match fault {
        GroupingFault::OutOfWindow(number) => match groups.get(number.saturating_sub(1)) {
            Some(group) => explain_people(out, problem, group),
            None => Ok(()),
        },
        GroupingFault::NotConnected(number) => match groups.get(number.saturating_sub(1)) {
            Some(group) => explain_parts(out, problem, group),
            None => Ok(()),
        },
        GroupingFault::SeatsTotal(_, _) => {
            out.push_str("countygroups: change the seats of a group, or --chamber\n")
        }
        _ => out.push_str(
            "countygroups: each county of --geo that isn't withdrawn stands in one group, once\n",
        ),
    }
}

/// Explains the `fault` of a grouping.
///
/// # Errors
///
/// Returns `AllocError` if memory was refused.
pub(crate) fn explain_fault(
    out: &mut String,
    options: Options<'_>,
    fault: &GroupingFault,
    (problem, grouping): (&Problem, &Grouping),
) -> Result<(), AllocError> {
    let file = options.file(FileOption::Grouping);
    writeln!(out, "countygroups: {file}: {fault}")?;
    explain_chamber(out, FileOption::Grouping, seats_in(grouping), problem)?;
    explain_help(out, fault, problem, &grouping.groups)
}
